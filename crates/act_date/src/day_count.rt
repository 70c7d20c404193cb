//! Day counts.
ghost use Rattle.std.specs.Prelude.{◌≡◌, ◌≤◌, ◌+◌, ◌-◌, ◌*◌, ◌*ℤ◌, min, pos, negsuc, ◌+ℤ◌, ◌-ℤ◌, ◌<ℤ◌, ◌≤ℤ◌, unsigned_abs};
ghost use Rattle.act_date.specs.Civil.{civil_of, days_of_years, is_business};
ghost use Rattle.act_date.specs.DayCount.{count_days, denominator, in_leap_year, isda_day, isda_second_day, numerator, thirty_days, year_fraction};
ghost use Rattle.act_date.specs.Fraction.{Fraction};

use crate::{Calendar, Day, civil};
use std::marker::Model;

/// The leap years from the year 1 to 1899.
const LEAP_YEARS_BEFORE_1900: u32 = 460;

/// How the fraction of a year between two days is counted.
#[derive(Clone, Copy, PartialEq, Eq)]
pub enum DayCount {
    /// A day of a common year is one of 365, and a day of a leap year one of 366.
    Aa,
    /// A day is one of 360.
    A360,
    /// A day is one of 365.
    A365,
    /// 30E360: a month has 30 days, and the 31st counts as the 30th.
    E30,
    /// 30E360ISDA: a month has 30 days, and the last of a month counts as the 30th, but for a second day
    /// that is the maturity date and lies in February.
    E30Isda,
    /// A business day is one of 252.
    B252,
}

/// A fraction of a year, which isn't reduced. Contracts see its two numbers as whole numbers from 0 on.
#[derive(Clone, Copy, PartialEq, Eq)]
pub struct Frac {
    /// The numerator, which isn't negative.
    pub num: i64,
    /// The denominator, from 1 to 133590.
    pub den: i64,
}

impl Model for Frac {
    ghost use Rattle.std.specs.Prelude.{pos, ◌≤ℤ◌, unsigned_abs};
    ghost use Rattle.act_date.specs.Fraction.{Fraction};

    ghost Value = { Fraction };

    ghost view = { λ f. record { num = unsigned_abs f.num; den = unsigned_abs f.den } };

    ghost invariant = { λ f. (pos 0 ≤ℤ f.num) × (pos 1 ≤ℤ f.den) × (f.den ≤ℤ pos 133590) };

    ghost inverse = { λ f. record { num = pos f.num; den = pos f.den } };
}

/// The fraction of a year from `s` inclusive to `t` exclusive, 0 where `t` isn't after `s`. Only B252
/// reads the calendar, and only 30E360ISDA the maturity date.
#[tactic(auto, unfolding(crate::specs::DayCount::year_fraction))]
pub fn year_frac(count: DayCount, calendar: Calendar, s: Day, t: Day, maturity: Option<Day>) -> Frac
    ensures { result ≡ year_fraction count calendar s t maturity }
{
    let den = denominator(count);
    if t <= s {
        return Frac { num: 0, den };
    }
    Frac {
        num: numerator(count, calendar, s, t, maturity),
        den,
    }
}

/// The denominator, from 252 to 133590, which is 365 times 366.
fn denominator(count: DayCount) -> i64
    ensures value { result ≡ pos (denominator count) }
    ensures low { pos 1 ≤ℤ result }
    ensures high { result ≤ℤ pos 133590 }
{
    match count {
        DayCount::Aa => 133_590,
        DayCount::A360 | DayCount::E30 | DayCount::E30Isda => 360,
        DayCount::A365 => 365,
        DayCount::B252 => 252,
    }
}

/// The numerator of the fraction from `s` to a later `t`.
fn numerator(count: DayCount, calendar: Calendar, s: Day, t: Day, maturity: Option<Day>) -> i64
    requires { s <ℤ t }
    ensures { result ≡ pos (numerator count calendar s t maturity) }
{
    let days = i64::from(t.days_from_1900()) - i64::from(s.days_from_1900());
    match count {
        DayCount::A360 | DayCount::A365 => days,
        DayCount::Aa => 366 * days - (leap_days_before(t) - leap_days_before(s)),
        DayCount::E30 => thirty_days(s, t),
        DayCount::E30Isda => thirty_days_isda(s, t, maturity),
        DayCount::B252 => business_days_before(t, calendar) - business_days_before(s, calendar),
    }
}

/// The days from `s` to a later `t` where each month has 30 days, and the 31st counts as the 30th.
fn thirty_days(s: Day, t: Day) -> i64
    requires { s <ℤ t }
    ensures { result
        ≡ pos (thirty_days (civil_of s) (min (civil_of s).day 30) (civil_of t) (min (civil_of t).day 30)) }
{
    let first = civil(s);
    let second = civil(t);
    thirty_day_number(second, second.2.min(30)) - thirty_day_number(first, first.2.min(30))
}

/// The same, where the last day of a month counts as the 30th, but `t` keeps its day of the month where
/// it is the maturity date and lies in February.
#[inline(never)]
fn thirty_days_isda(s: Day, t: Day, maturity: Option<Day>) -> i64
    requires { s <ℤ t }
    ensures { result
        ≡ pos (thirty_days (civil_of s) (isda_day (civil_of s)) (civil_of t) (isda_second_day t maturity)) }
{
    let first = thirty_day_number(civil(s), isda_day(s));
    thirty_day_number(civil(t), isda_second_day(t, maturity)) - first
}

/// The number of a date where each month has 30 days, by the day of the month that it counts as.
fn thirty_day_number(date: (i16, u8, u8), day_of_month: u8) -> i64
    ensures { result ≡ date.0 *ℤ pos 360 +ℤ pos (30 * date.1 + day_of_month) }
{
    360 * i64::from(date.0) + 30 * i64::from(date.1) + i64::from(day_of_month)
}

/// The day of the month, where the last of a month counts as the 30th.
fn isda_day(day: Day) -> u8
    ensures { result ≡ isda_day (civil_of day) }
{
    let date = day.date();
    if date.day() == date.days_in_month() {
        30
    } else {
        date.day() as u8
    }
}

/// The same for the second day, which keeps its day of the month where it is the maturity date and lies
/// in February.
fn isda_second_day(t: Day, maturity: Option<Day>) -> u8
    ensures { result ≡ isda_second_day t maturity }
{
    let (_, month, day_of_month) = civil(t);
    if month == 2 && maturity == Some(t) {
        day_of_month
    } else {
        isda_day(t)
    }
}

/// How many of the days from 1900-01-01 to the one before the day lie in leap years.
#[inline(never)]
fn leap_days_before(day: Day) -> i64
    ensures { result ≡ pos (count_days in_leap_year (negsuc 25566) (unsigned_abs (day +ℤ pos 25567))) }
{
    let date = day.date();
    let in_its_year = if date.in_leap_year() {
        date.day_of_year() as u32 - 1
    } else {
        0
    };
    i64::from(366 * leap_years_before(date.year() as u32) + in_its_year)
}

/// How many of the years from 1900 to the one before the year are leap years.
fn leap_years_before(year: u32) -> u32
    requires from { 1900 ≤ year }
    requires to { year ≤ 2299 }
    ensures days { 366 * result
        ≡ count_days in_leap_year (negsuc 25566) (days_of_years (year - 1900)) }
    ensures bound { result ≤ 97 }
{
    let years = year - 1;
    years / 4 - years / 100 + years / 400 - LEAP_YEARS_BEFORE_1900
}

/// How many of the days from 1900-01-01, a Monday, to the one before the day are business days.
fn business_days_before(day: Day, calendar: Calendar) -> i64
    ensures { result
        ≡ pos (count_days (is_business calendar) (negsuc 25566) (unsigned_abs (day +ℤ pos 25567))) }
{
    let days = day.days_from_1900();
    match calendar {
        Calendar::Nc => i64::from(days),
        Calendar::Mf => i64::from(5 * (days / 7) + (days % 7).min(5)),
    }
}
