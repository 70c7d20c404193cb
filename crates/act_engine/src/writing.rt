//! Writing lines.
ghost use Rattle.std.specs.Prelude.{◌≡◌};
ghost use Rattle.act_engine.specs.Writing.{Writes};
ghost use Rattle.act_engine.specs.declared.writing.Failure.TheVariants.{Sink as SinkFailure, Memory};
ghost use Rattle.act_io.specs.declared.sink.PutFault.TheVariants.{Failed};

use act_io::{PutFault, Sink};
use act_num::NoMemory;

/// Why a command stops that isn't refused.
#[derive(Clone, Copy)]
pub enum Failure {
    /// The sink failed.
    Sink,
    /// Memory ran out.
    Memory,
}

impl From<PutFault> for Failure {
    ghost from_gives = { λ fault stop. (fault ≡ Failed → stop ≡ SinkFailure) × (stop ≡ SinkFailure → fault ≡ Failed) };

    fn from(fault: PutFault) -> Failure {
        match fault {
            PutFault::Failed => Failure::Sink,
            PutFault::NoMemory => Failure::Memory,
        }
    }
}

impl From<NoMemory> for Failure {
    ghost from_gives = { λ _ stop. stop ≡ Memory };

    fn from(_fault: NoMemory) -> Failure {
        Failure::Memory
    }
}

/// Writes a text of one line or several whole, or stops at a fault.
#[inline(always)]
pub fn write_text<K: Sink>(out: &mut K, text: &[u8]) -> Result<(), Failure>
    ensures { Writes text.now (K.page out.old) result (K.page out.new) }
{
    let mut done = 0;
    'pieces: while done < text.len() {
        done += out.put_lines(&text[done..])?;
    }
    Ok(())
}
