//! The end of a command.
ghost use Rattle.std.specs.Prelude.{◌≡◌, IfOk};
ghost use Rattle.act_engine.specs.Ending.{Concludes};
ghost use Rattle.act_engine.specs.Reading.{halt_of};
ghost use Rattle.act_engine.specs.Refusal.{refusal_line, refusal_of, refusal_status};
ghost use Rattle.act_engine.specs.Writing.{Writes, status_of};

use crate::halt::Halt;
use crate::refusal::Refusal;
use crate::status::Status;
use crate::writing::{Failure, write_text};
use act_io::Sink;
use std::alloc::Global;

/// Ends a command that stopped: writes the line of a refusal, that of words being the usage line, and answers the status.
pub fn conclude<K: Sink>(alloc: Global, out: &mut K, usage: &[u8], halt: &Halt<'_>) -> Status
    ensures { Concludes usage.now (halt_of halt.now) (K.page out.old) result (K.page out.new) }
{
    match halt {
        Halt::Refused(refusal) => status_of(write_refusal(alloc, out, usage, refusal)),
        Halt::Stopped(stop) => status_of(Err(*stop)),
    }
}

/// Writes the line of a refusal, and answers the status that it comes to.
fn write_refusal<K: Sink>(
    alloc: Global,
    out: &mut K,
    usage: &[u8],
    refusal: &Refusal<'_>,
) -> Result<Status, Failure>
    ensures status { IfOk result (λ status. status ≡ refusal_status (refusal_of refusal.now)) }
    ensures line { Writes (refusal_line usage.now (refusal_of refusal.now)) (K.page out.old) result (K.page out.new) }
{
    let line = refusal.line(alloc, usage)?;
    write_text(out, &line)?;
    Ok(refusal.status())
}

/// The status of what was written whole, or of why it wasn't.
fn status_of(written: Result<Status, Failure>) -> Status
    ensures { result ≡ status_of written }
{
    match written {
        Ok(status) => status,
        Err(Failure::Sink) => Status::WriteFault,
        Err(Failure::Memory) => Status::NoMemory,
    }
}
