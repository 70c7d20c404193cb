//! The files of the system. They tell nothing of contents.
ghost use Rattle.std.specs.Prelude.{◌≡◌, ◌≤◌, length, nat_lt, if◌then◌else◌, Ok, Err, vec_len};
ghost use Rattle.act_io.specs.declared.files.FetchFault.TheVariants.{TooLong};
ghost use Rattle.act_io.specs.World.{Fetches, untold};

use crate::{FetchFault, Files};
use std::alloc::Global;
use std::io::{ErrorKind, Read};
use std::marker::Model;
use std::rt::Files as FileSystem;
use std::{fs, io};

/// The files of the system. Contracts see them as the counts of calls and faults, and the call of the last fault.
#[derive(Drop)]
pub struct RealFiles<'a, R: FileSystem> {
    rt: &'a R,
    calls: u64,
    faults: u64,
    failed_at: u64,
}

impl<'a, R: FileSystem> Model for RealFiles<'a, R> {
    ghost use Rattle.act_io.specs.World.{FetchCounts};

    ghost Value = { FetchCounts };

    ghost view = { λ f. record { calls = f.calls; faults = f.faults; failed_at = f.failed_at } };
}

impl<'a, R: FileSystem> RealFiles<'a, R> {
    /// The files of this system, with nothing counted.
    pub fn new(rt: &'a R) -> RealFiles<'a, R>
        ensures { result ≡ record { calls = 0; faults = 0; failed_at = 0 } }
    {
        RealFiles {
            rt,
            calls: 0,
            faults: 0,
            failed_at: 0,
        }
    }
}

impl<R: FileSystem> Files for RealFiles<'_, R> {
    ghost world = { untold };

    fn fetch(&mut self, alloc: Global, name: &str, limit: u64) -> Result<Vec<u8>, FetchFault>
        ensures { Fetches name.now limit (untold self.old) result (untold self.new) }
    {
        match read_past(self.rt, alloc, name, limit) {
            Ok(bytes) => {
                self.calls = self.calls.saturating_add(1);
                within(bytes, limit)
            }
            Err(error) if error.kind() == ErrorKind::OutOfMemory => Err(FetchFault::NoMemory),
            Err(_) => {
                self.calls = self.calls.saturating_add(1);
                self.faults = self.faults.saturating_add(1);
                self.failed_at = self.calls;
                Err(FetchFault::Failed)
            }
        }
    }
}

/// The first bytes of a file, one more than the limit where it has them.
fn read_past<R: FileSystem>(rt: &R, alloc: Global, name: &str, limit: u64) -> io::Result<Vec<u8>> {
    let mut bytes = Vec::new(alloc);
    let mut start = fs::open(rt, name)?.take(limit.saturating_add(1));
    start.read_to_end(&mut bytes)?;
    Ok(bytes)
}

/// The bytes, where they are no more than the limit.
fn within(bytes: Vec<u8>, limit: u64) -> Result<Vec<u8>, FetchFault>
    ensures { result ≡ (if nat_lt limit (vec_len bytes) then Err TooLong else Ok bytes) }
{
    if bytes.len() as u64 > limit {
        return Err(FetchFault::TooLong);
    }
    Ok(bytes)
}
