//! Business days.
ghost use Rattle.std.specs.Prelude.{◌≡◌};
ghost use Rattle.act_date.specs.Civil.{is_business};

use crate::{Day, weekday};

/// Which days are business days.
#[derive(Clone, Copy, PartialEq, Eq)]
pub enum Calendar {
    /// Every day.
    Nc,
    /// Monday to Friday.
    Mf,
}

/// What becomes of a scheduled day that isn't a business day. It moves to the business day that follows or
/// precedes it, and where "modified" and that one lies in another month, the other way. Amounts are
/// calculated between the moved days where the shift comes first, and between the scheduled days where the
/// calculation does.
#[derive(Clone, Copy, PartialEq, Eq)]
pub enum Convention {
    /// No shift.
    Nos,
    /// Shift, then calculate: following.
    Scf,
    /// Shift, then calculate: modified following.
    Scmf,
    /// Calculate, then shift: following.
    Csf,
    /// Calculate, then shift: modified following.
    Csmf,
    /// Shift, then calculate: preceding.
    Scp,
    /// Shift, then calculate: modified preceding.
    Scmp,
    /// Calculate, then shift: preceding.
    Csp,
    /// Calculate, then shift: modified preceding.
    Csmp,
}

/// Whether the day is a business day of the calendar.
pub fn is_business(day: Day, calendar: Calendar) -> bool
    ensures { result ≡ is_business calendar day }
{
    match calendar {
        Calendar::Nc => true,
        Calendar::Mf => weekday(day) < 6,
    }
}
