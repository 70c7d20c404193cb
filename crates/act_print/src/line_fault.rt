//! Where reading stops.
ghost use Rattle.std.specs.Prelude.{◌≡◌};
ghost use Rattle.act_print.specs.declared.line_fault.LineFault.TheVariants.{NoMemory};

use std::alloc::AllocFailed;

/// Why reading stops.
#[derive(Clone, Copy)]
pub(crate) enum LineFault {
    /// The next line can't stand where it stands, or there is none.
    Wrong,
    /// Memory ran out.
    NoMemory,
}

impl From<act_num::NoMemory> for LineFault {
    ghost from_gives = { λ _ stop. stop ≡ NoMemory };

    fn from(_error: act_num::NoMemory) -> LineFault {
        LineFault::NoMemory
    }
}

impl<T: Drop> From<AllocFailed<T>> for LineFault {
    ghost from_gives = { λ _ stop. stop ≡ NoMemory };

    fn from(_error: AllocFailed<T>) -> LineFault {
        LineFault::NoMemory
    }
}
