//! Reading a file.
ghost use Rattle.std.specs.Prelude.{◌≤◌, IfOk, vec_len};
ghost use Rattle.act_engine.specs.Reading.{Reads, bytes_of, file_reading};

use crate::halt::Halt;
use crate::refusal::Refusal;
use crate::writing::Failure;
use act_io::{FetchFault, Files};
use std::alloc::Global;

/// The bytes of the file of that name, which may have as many as the limit.
pub fn fetch<'a, F: Files>(
    alloc: Global,
    files: &mut F,
    name: &'a str,
    limit: u64,
) -> Result<Vec<u8>, Halt<'a>>
    ensures read { Reads (file_reading name.now limit) (F.world files.old) (bytes_of result) (F.world files.new) }
    ensures within { IfOk result (λ bytes. vec_len bytes ≤ limit) }
{
    match files.fetch(alloc, name, limit) {
        Ok(bytes) => Ok(bytes),
        Err(FetchFault::Failed) => Err(Halt::Refused(Refusal::Unread(name))),
        Err(FetchFault::TooLong) => Err(Halt::Refused(Refusal::TooLong(name))),
        Err(FetchFault::NoMemory) => Err(Halt::Stopped(Failure::Memory)),
    }
}
