//! Why a command stops.
ghost use Rattle.std.specs.Prelude.{◌≡◌};
ghost use Rattle.act_engine.specs.declared.halt.Halt.TheVariants.{Refused, Stopped};
ghost use Rattle.act_engine.specs.declared.writing.Failure.TheVariants.{Memory};

use crate::refusal::Refusal;
use crate::writing::Failure;
use act_num::NoMemory;

/// Why a command stops before its text is written whole.
#[derive(Drop)]
pub enum Halt<'a> {
    /// It is refused, and nothing of its text is written.
    Refused(Refusal<'a>),
    /// The sink failed, or memory ran out.
    Stopped(Failure),
}

impl From<NoMemory> for Halt<'_> {
    ghost from_gives = { λ _ halt. halt ≡ Stopped Memory };

    fn from(_fault: NoMemory) -> Self {
        Halt::Stopped(Failure::Memory)
    }
}

impl From<Failure> for Halt<'_> {
    ghost from_gives = { λ stop halt. halt ≡ Stopped stop };

    fn from(stop: Failure) -> Self {
        Halt::Stopped(stop)
    }
}

impl<'a> From<Refusal<'a>> for Halt<'a> {
    ghost from_gives = { λ refusal halt. halt ≡ Refused refusal };

    fn from(refusal: Refusal<'a>) -> Self {
        Halt::Refused(refusal)
    }
}
