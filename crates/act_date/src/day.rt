//! Days.
ghost use Rattle.std.specs.Prelude.{◌≡◌, ◌+◌, ◌≤◌, ℤ, pos, negsuc, ◌+ℤ◌};
ghost use Rattle.jiff.specs.Words.{epoch_day};
ghost use Rattle.act_date.specs.Civil.{IsDay, IsDateOf, day_in_range, civil_of, month_end_of, weekday_of};
ghost use Rattle.act_date.specs.JiffDate.{IsSameDate};

use jiff::civil::Date;
use std::marker::Model;

/// A civil day from 1900-01-01 to 2299-12-31, kept as the count of days from 1970-01-01.
#[derive(Clone, Copy, PartialEq, Eq, PartialOrd, Ord)]
pub struct Day {
    number: i32,
}

impl Model for Day {
    ghost use Rattle.std.specs.Prelude.{ℤ};
    ghost use Rattle.act_date.specs.Civil.{IsDay};

    ghost Value = { ℤ };

    ghost view = { λ d. d.number };

    ghost invariant = { λ d. IsDay d.number };

    ghost inverse = { λ z. record { number = z } };
}

/// Why a text is no day.
#[derive(Clone, Copy, Debug, PartialEq, Eq)]
pub enum DateFault {
    /// It has neither of the forms `YYYY-MM-DD` and `YYYY-MM-DDThh:mm:ss`, or there is no such civil day.
    NotDate = 1,
    /// Its time of day is another than 00:00:00.
    TimeOfDay = 2,
    /// It lies outside 1900 to 2299.
    DateRange = 3,
}

/// The number of 1900-01-01.
const FIRST: i64 = -25_567;

/// The number of 2299-12-31.
const LAST: i64 = 120_529;

/// The days from the first one of jiff's calendar to 1970-01-01.
const BEFORE_1970: i32 = 4_371_587;

impl Day {
    /// The count of days from 1970-01-01, from -25567 to 120529.
    pub fn number(self) -> i32
        ensures value { result ≡ self }
        ensures in_range { IsDay result }
    {
        self.number
    }

    /// The day so many days from 1970-01-01, or None where it lies outside 1900 to 2299.
    pub fn from_number(number: i64) -> Option<Day>
        ensures { result ≡ day_in_range number }
    {
        if FIRST <= number && number <= LAST {
            Some(Day {
                number: number as i32,
            })
        } else {
            None
        }
    }

    /// The count of days from 1900-01-01.
    pub(crate) fn days_from_1900(self) -> u32
        ensures value { self +ℤ pos 25567 ≡ pos result }
        ensures bound { result ≤ 146_096 }
    {
        (self.number + 25_567) as u32
    }

    /// The same day of jiff's calendar.
    pub(crate) fn date(self) -> Date
        ensures value { epoch_day result ≡ self }
        ensures in_range { IsDay self }
        ensures same { IsSameDate (civil_of self) result }
        ensures date { IsDateOf self (civil_of self) }
    {
        let days = (self.number + BEFORE_1970) as u32;
        Date::from_plain(jiff_core::civil::Date::from_days_since_min(days))
    }

    /// The same day as jiff's, or None where it lies outside 1900 to 2299.
    pub(crate) fn from_date(date: Date) -> Option<Day>
        ensures { result ≡ day_in_range (epoch_day date) }
    {
        Day::from_number(i64::from(date.to_plain().to_unix_epoch_day()))
    }
}

/// The year, the month from 1 to 12 and the day of the month.
pub fn civil(day: Day) -> (i16, u8, u8)
    ensures year { result.0 ≡ pos (civil_of day).year }
    ensures month { result.1 ≡ (civil_of day).month }
    ensures day_of_month { result.2 ≡ (civil_of day).day }
    ensures date { IsDateOf day (civil_of day) }
{
    let date = day.date();
    (date.year(), date.month() as u8, date.day() as u8)
}

/// The last day of the day's month.
pub fn month_end(day: Day) -> Day
    ensures { result ≡ month_end_of day }
{
    Day::from_date(day.date().last_of_month()).unwrap()
}

/// The day of the week: 1 is Monday, and 7 is Sunday.
pub fn weekday(day: Day) -> u8
    ensures { result ≡ weekday_of day }
{
    (day.days_from_1900() % 7 + 1) as u8
}
