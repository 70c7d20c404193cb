//! Faults of scripts.
use act_num::NoMemory;

/// Why a script is refused. Each fault but the last has a number, in this order from 1, and holds the number of its
/// line, from 1; blank lines count.
#[derive(Clone, Copy, Debug, PartialEq, Eq)]
pub enum ScriptFault {
    /// 1: the line is of none of the forms, or a name, a date or a value of it isn't of its form.
    NotLine(u32),
    /// 2: the contract of an event or of an ask isn't a named contract.
    UnknownName(u32),
    /// 3: the event doesn't fit its contract: a prepayment of another contract than a loan, or a negative one; a
    /// dividend of another than a stock; an exercise of another than an option of American or Bermudan exercise.
    EventUnfit(u32),
    /// 4: the line's entry would be entry 1,048,577 of all scripts together.
    TooManyEntries(u32),
    /// Memory ran out.
    NoMemory,
}

impl From<NoMemory> for ScriptFault {
    ghost use Rattle.std.specs.Prelude.{◌≡◌};
    ghost use Rattle.act_script.specs.declared.fault.ScriptFault.TheVariants as faults;

    ghost from_gives = { λ _ fault. fault ≡ faults.NoMemory };

    fn from(_fault: NoMemory) -> ScriptFault {
        ScriptFault::NoMemory
    }
}
