//! Shifts to business days.
ghost use Rattle.std.specs.Prelude.{◌≡◌, ◌↔◌, ◌⊎◌, pos, ◌+ℤ◌, ◌-ℤ◌, ◌≤ℤ◌, IsNone, IfSome, IsTrue};
ghost use Rattle.act_calendar.specs.Shift.{IsInMonth, IsShifted, IsShiftedPast, calculation_day, following_day, is_modified, preceding_day, shift_of, shifted_day};

use crate::days::{day_at, is_in_month};
use act_date::{Calendar, Convention, Day, is_business, weekday};

/// What a convention makes of a scheduled day.
#[derive(Clone, Copy, PartialEq, Eq)]
pub struct Shifted {
    /// The day of the event.
    pub day: Day,
    /// The day that amounts are calculated for.
    pub calc: Day,
}

/// What the convention makes of the scheduled day, or None where it shifts the day past 2299. Amounts are
/// calculated for the shifted day where the shift comes first, and otherwise for the scheduled one.
pub fn shift(day: Day, convention: Convention, calendar: Calendar) -> Option<Shifted>
    ensures value { result ≡ shift_of convention calendar day }
    ensures shifted { IfSome result (IsShifted convention calendar day) }
    ensures month { IsTrue (is_modified convention) → IfSome result (λ shifted. IsInMonth day shifted.day) }
    ensures none { IsNone result ↔ IsShiftedPast convention calendar day }
    ensures none_only { IsNone result → (convention ≡ Convention.Scf) ⊎ (convention ≡ Convention.Csf) }
{
    let shifted = day_at(day.number() + i32::from(days_shifted(day, convention, calendar)))?;
    Some(Shifted {
        day: shifted,
        calc: calculation_day(day, convention, shifted),
    })
}

/// By how many days the convention shifts the day, to a later one or, below 0, to an earlier one.
fn days_shifted(day: Day, convention: Convention, calendar: Calendar) -> i8
    ensures { day +ℤ result
        ≡ shifted_day convention day (following_day calendar day) (preceding_day calendar day) }
{
    let ahead = days_ahead(day, calendar);
    let back = days_back(day, calendar);
    match convention {
        Convention::Nos => 0,
        Convention::Scf | Convention::Csf => ahead,
        Convention::Scp | Convention::Csp => -back,
        Convention::Scmf | Convention::Csmf if is_in_month(day, ahead) => ahead,
        Convention::Scmf | Convention::Csmf => -back,
        Convention::Scmp | Convention::Csmp if is_in_month(day, -back) => -back,
        Convention::Scmp | Convention::Csmp => ahead,
    }
}

/// How many days after the day the following business day is.
#[tactic(auto, unfolding(crate::specs::Shift::following_day))]
fn days_ahead(day: Day, calendar: Calendar) -> i8
    ensures value { day +ℤ result ≡ following_day calendar day }
    ensures low { pos 0 ≤ℤ result }
{
    if is_business(day, calendar) {
        0
    } else {
        (8 - weekday(day)) as i8
    }
}

/// How many days before the day the preceding business day is.
#[tactic(auto, unfolding(crate::specs::Shift::preceding_day))]
fn days_back(day: Day, calendar: Calendar) -> i8
    ensures value { day -ℤ result ≡ preceding_day calendar day }
    ensures low { pos 0 ≤ℤ result }
{
    if is_business(day, calendar) {
        0
    } else {
        (weekday(day) - 5) as i8
    }
}

/// The day that amounts are calculated for.
fn calculation_day(day: Day, convention: Convention, shifted: Day) -> Day
    ensures { result ≡ calculation_day convention day shifted }
{
    match convention {
        Convention::Nos => day,
        Convention::Scf | Convention::Scmf | Convention::Scp | Convention::Scmp => shifted,
        Convention::Csf | Convention::Csmf | Convention::Csp | Convention::Csmp => day,
    }
}
