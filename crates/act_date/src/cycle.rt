//! Cycles.
ghost use Rattle.std.specs.Prelude.{◌≡◌, ℕ, ◌^◌, ◌<◌};
ghost use Rattle.act_date.specs.Civil.{IsDay};
ghost use Rattle.act_date.specs.Cycle.{ComesAfter, plus_cycles, day_after, days, months, span_of};

use crate::{Day, civil};
use jiff_core::civil::Date;
use std::marker::Model;

/// The length of each period of a schedule, and what becomes of a last period that isn't a whole cycle.
#[derive(Clone, Copy, PartialEq, Eq)]
pub struct Cycle {
    /// How many units a period has. At 0 all days of a schedule would be one.
    pub count: u16,
    /// What the units are.
    pub unit: Unit,
    /// What becomes of the last period of a schedule.
    pub stub: Stub,
}

/// The unit of a cycle.
#[derive(Clone, Copy, Debug, PartialEq, Eq)]
pub enum Unit {
    /// A day.
    D,
    /// A week of 7 days.
    W,
    /// A month.
    M,
    /// A quarter of 3 months.
    Q,
    /// A half year of 6 months.
    H,
    /// A year of 12 months.
    Y,
}

/// What becomes of a last period that isn't a whole cycle.
#[derive(Clone, Copy, Debug, PartialEq, Eq)]
pub enum Stub {
    /// It is joined to the period before it.
    Long,
    /// It is kept short.
    Short,
}

/// Which days a schedule has that is counted in months and begins on the last day of a month.
#[derive(Clone, Copy, PartialEq, Eq)]
pub enum MonthRule {
    /// Same day: each has the day of the month of the first, or the last day of a shorter month.
    Sd,
    /// End of month: each is the last day of its month.
    Eom,
}

/// Why a text is no cycle.
#[derive(Clone, Copy, Debug, PartialEq, Eq)]
pub enum CycleFault {
    /// It hasn't the form of a cycle, or of a period where one is read.
    NotCycle = 4,
}

/// The months of 400 years, which lead from any day past 2299.
const MOST_MONTHS: u64 = 4_800;

/// The days of 400 years, which lead from any day past 2299.
const MOST_DAYS: u64 = 146_097;

/// The day `k` cycles after a day, or None where that lies past 2299. Months keep the day of the month, or
/// take the last day of a shorter month; all are counted from the day itself, so 31 January and twice a
/// month is 31 March. Where a cycle isn't empty, more cycles lead to a later day, or past 2299.
#[tactic(auto, unfolding(crate::specs::Cycle::plus_cycles))]
pub fn add_cycles(day: Day, cycle: Cycle, k: u32) -> Option<Day>
    ensures value { result ≡ plus_cycles day cycle k }
    ensures later { (m : ℕ) → k < m → 0 < cycle.count → ComesAfter (plus_cycles day cycle m) result }
{
    Anchor::at(day).add_cycles(cycle, k)
}

/// A day from which cycles are counted, with its civil date: where many days are counted from one, its date is worked out
/// once.
#[derive(Drop)]
pub struct Anchor {
    day: Day,
    months: u32,
    day_of_month: u8,
}

impl Model for Anchor {
    ghost use Rattle.std.specs.Prelude.{ℤ};
    ghost use Rattle.act_date.specs.Cycle.{IsAnchor};

    ghost Value = { ℤ };

    ghost view = { λ a. a.day };

    ghost invariant = { λ a. IsAnchor a.day a.months a.day_of_month };
}

impl Anchor {
    /// The day, as one from which cycles are counted.
    #[inline]
    pub fn at(day: Day) -> Anchor
        ensures { result ≡ day }
    {
        let (year, month, day_of_month) = civil(day);
        let months = 12 * year as u32 + (month as u32 - 1);
        Anchor {
            day,
            months,
            day_of_month,
        }
    }

    /// The day itself.
    #[inline]
    pub fn day(&self) -> Day
        ensures value { result ≡ self.now }
        ensures in_range { IsDay self.now }
    {
        self.day
    }

    /// The day `k` cycles later, as the function `add_cycles` answers it.
    #[tactic(auto, unfolding(crate::specs::Cycle::plus_cycles))]
    pub fn add_cycles(&self, cycle: Cycle, k: u32) -> Option<Day>
        ensures { result ≡ plus_cycles self.now cycle k }
    {
        self.add_units(cycle.unit, u64::from(cycle.count) * u64::from(k))
    }

    /// The day so many units later, or None past 2299.
    #[inline]
    fn add_units(&self, unit: Unit, count: u64) -> Option<Day>
        requires { count < 2 ^ 48 }
        ensures { result ≡ day_after self.now (span_of unit count) }
    {
        match unit {
            Unit::D => add_days(self.day, count),
            Unit::W => add_days(self.day, 7 * count),
            Unit::M => self.add_months(count),
            Unit::Q => self.add_months(3 * count),
            Unit::H => self.add_months(6 * count),
            Unit::Y => self.add_months(12 * count),
        }
    }

    /// The same day of the month so many months later, or the last of a shorter month, or None past 2299.
    fn add_months(&self, count: u64) -> Option<Day>
        ensures { result ≡ day_after self.now (months count) }
    {
        let first = self.months;
        if count > MOST_MONTHS {
            return None;
        }
        let months = first + count as u32;
        let later = Date::constrain(
            (months / 12) as i16,
            (months % 12 + 1) as u8,
            self.day_of_month,
        );
        Day::from_number(i64::from(later.to_unix_epoch_day()))
    }
}

/// The day so many days later, or None past 2299.
fn add_days(day: Day, count: u64) -> Option<Day>
    ensures { result ≡ day_after day (days count) }
{
    if count > MOST_DAYS {
        return None;
    }
    Day::from_number(i64::from(day.number()) + count as i64)
}
