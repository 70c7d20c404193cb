//! Days by their numbers, and the days of a month.
ghost use Rattle.std.specs.Prelude.{◌≡◌, ◌+ℤ◌};
ghost use Rattle.act_date.specs.Civil.{day_in_range};
ghost use Rattle.act_calendar.specs.Shift.{is_in_month};

use act_date::{Day, civil, month_end};

/// The day of that number, or None where it lies outside 1900 to 2299.
pub(crate) fn day_at(number: i32) -> Option<Day>
    ensures { result ≡ day_in_range number }
{
    Day::from_number(i64::from(number))
}

/// Whether the day that is so many days later, or below 0 earlier, lies in the month of the day.
pub(crate) fn is_in_month(day: Day, days: i8) -> bool
    ensures { result ≡ is_in_month day (day +ℤ days) }
{
    let (_, _, day_of_month) = civil(day);
    let days = i32::from(days);
    1 <= i32::from(day_of_month) + days && day.number() + days <= month_end(day).number()
}
