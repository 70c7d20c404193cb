//! Schedules and their dates, as a list or one by one.
ghost use Rattle.std.specs.Prelude.{◌≡◌, ◌<◌, ◌≤◌, ◌↔◌, ℤ, ◌<ℤ◌, ◌≤ℤ◌, [], ◌∷◌, ◌++◌, length, slice_get, if◌then◌else◌, Some, None, IfOk, IsSomeAnd, IsTrue};
ghost use Rattle.std.specs.List.{AllPairs, Contains};
ghost use Rattle.std.specs.Option.{ForSome};
ghost use Rattle.act_sched.specs.Schedule.{IsScheduleDate, LeadsOn, dates_before, earlier_dates, if_before, later_dates, latest_in, schedule_dates};
ghost use Rattle.act_sched.specs.declared.schedule.SchedFault.TheVariants.{NoMemory};

use crate::cycle_dates::cycle_date;
use act_date::{Anchor, Cycle, Day, MonthRule, Stub};
use std::alloc::{AllocFailed, Global};

/// Why there is no list of a schedule's dates.
#[derive(Clone, Copy, Debug, PartialEq, Eq)]
pub enum SchedFault {
    /// The schedule has more than 4,096 dates.
    TooManyDates,
    /// Memory has run out.
    NoMemory,
}

impl<T: Drop> From<AllocFailed<T>> for SchedFault {
    ghost from_gives = { λ _ fault. fault ≡ NoMemory };

    fn from(_fault: AllocFailed<T>) -> SchedFault {
        SchedFault::NoMemory
    }
}

/// The most dates that a list may have.
const MOST_DATES: usize = 4_096;

/// The days from 1900 to 2299, of which all dates are.
const MOST_DAYS: u32 = 146_097;

/// What the dates of a schedule follow from. With no anchor, or one after the end, there are none, and with no
/// cycle they are the anchor and the end. Else they are the dates of the cycle before the end, and the end. The
/// dates of the cycle are counted from the anchor and moved by the rule; the end isn't moved. Where the end is no
/// date of the cycle, a long stub leaves out the last of those before it, unless that is the anchor.
#[derive(Clone, Copy)]
pub struct Schedule {
    /// The first date. Without one there are no dates.
    pub anchor: Option<Day>,
    /// The time between dates.
    pub cycle: Option<Cycle>,
    /// The last date.
    pub end: Day,
    /// Which day of the month the dates fall on.
    pub rule: MonthRule,
}

/// The dates of a schedule (`Schedule`), ascending, each day once.
///
/// `TooManyDates` comes exactly where there are more than 4,096 dates, unless memory runs out first.
pub fn dates(
    alloc: Global,
    anchor: Option<Day>,
    cycle: Option<Cycle>,
    end: Day,
    rule: MonthRule,
) -> Result<Vec<Day>, SchedFault>
    requires { ForSome cycle (λ c. 1 ≤ c.count) }
    ensures list { IfOk result (λ dates. dates.items ≡ schedule_dates anchor cycle end rule) }
    ensures members { IfOk result (λ dates. (day : ℤ) →
        Contains dates.items day ↔ IsScheduleDate anchor cycle end rule day) }
    ensures ascending { IfOk result (λ dates. AllPairs (λ earlier later. earlier <ℤ later) dates.items) }
    ensures too_many { result ≡ Err SchedFault.TooManyDates →
        4096 < length (schedule_dates anchor cycle end rule) }
    ensures within_limit { IfOk result (λ dates. length dates.items ≤ 4096) }
{
    Schedule {
        anchor,
        cycle,
        end,
        rule,
    }
    .dates_after(alloc, None)
}

impl Schedule {
    ghost use Rattle.act_sched.specs.Schedule.{dates_but_for, dates_of};

    /// The schedule of one day alone.
    pub fn of_day(day: Day) -> Schedule
        ensures dates { dates_of result ≡ day ∷ [] }
        ensures cycle { result.cycle ≡ None }
    {
        Schedule {
            anchor: Some(day),
            cycle: None,
            end: day,
            rule: MonthRule::Sd,
        }
    }

    /// The dates after a day, in their order; all of them where no day is given.
    ///
    /// `TooManyDates` comes exactly where there are more than 4,096 of these, unless memory runs out first: those
    /// that aren't after the day don't count.
    pub fn dates_after(self, alloc: Global, after: Option<Day>) -> Result<Vec<Day>, SchedFault>
        requires { LeadsOn self.cycle }
        ensures list { IfOk result (λ dates. dates.items ≡ later_dates after (dates_of self)) }
        ensures too_many { result ≡ Err SchedFault.TooManyDates →
            MOST_DATES < length (later_dates after (dates_of self)) }
        ensures within_limit { IfOk result (λ dates. length dates.items ≤ MOST_DATES) }
    {
        let anchor = self.counted_from();
        let mut dates = Vec::new(alloc);
        'dates: for place in 0..MOST_DAYS {
            match self.date_at(&anchor, place) {
                Some(date) => push_after(&mut dates, &after, date)?,
                None => return Ok(dates),
            }
        }
        Ok(dates)
    }

    /// The latest of a first day and of those dates that aren't after a day and, where another is given, are after
    /// that. It takes no memory.
    pub fn latest(self, after: Option<Day>, until: Day, first: Day) -> Day
        requires { LeadsOn self.cycle }
        ensures { result ≡ latest_in until after first (dates_of self) }
    {
        let anchor = self.counted_from();
        let mut latest = first;
        'dates: for place in 0..MOST_DAYS {
            match self.date_at(&anchor, place) {
                Some(date) => latest = later_date(latest, &after, until, date),
                None => return latest,
            }
        }
        latest
    }

    /// How many dates there are before the end. It takes no memory.
    pub fn count_before_end(self) -> u32
        requires { LeadsOn self.cycle }
        ensures count { result ≡ length (dates_but_for self.end (dates_of self)) }
        ensures few { result ≤ 146_096 }
    {
        let anchor = self.counted_from();
        'dates: for count in 0..MOST_DAYS - 1 {
            if self.date_at(&anchor, count + 1).is_none() {
                return count;
            }
        }
        MOST_DAYS - 1
    }

    /// The anchor, from which the dates of the cycle are counted.
    fn counted_from(&self) -> Option<Anchor>
        ensures { result ≡ self.now.anchor }
    {
        match self.anchor {
            Some(day) => Some(Anchor::at(day)),
            None => None,
        }
    }

    /// The date at a place from 0, or None past the last.
    #[tactic(auto, unfolding(crate::specs::Schedule::schedule_dates))]
    fn date_at(&self, anchor: &Option<Anchor>, place: u32) -> Option<Day>
        requires anchor { anchor.now ≡ self.now.anchor }
        requires cycle { LeadsOn self.now.cycle }
        requires place { place ≤ 146_096 }
        ensures { result ≡ slice_get (dates_of self.now) place }
    {
        match anchor {
            Some(anchor) if anchor.day() <= self.end => self.date_from(anchor, place),
            _ => None,
        }
    }

    /// The date at a place, with an anchor that isn't after the end.
    #[tactic(auto, using(crate::proofs::ByPlace::inside, crate::proofs::ByPlace::behind, crate::proofs::ByPlace::past_one_more, crate::proofs::ByPlace::outside))]
    fn date_from(&self, anchor: &Anchor, place: u32) -> Option<Day>
        requires cycle { LeadsOn self.now.cycle }
        requires place { place ≤ 146_096 }
        ensures { result
            ≡ slice_get (earlier_dates anchor.now self.now.cycle self.now.end self.now.rule ++ self.now.end ∷ []) place }
    {
        if let Some(date) = self.earlier_date(anchor, place) {
            return Some(date);
        }
        if place > 0 && self.earlier_date(anchor, place - 1).is_none() {
            return None;
        }
        Some(self.end)
    }

    /// The date at a place among those before the end.
    fn earlier_date(&self, anchor: &Anchor, place: u32) -> Option<Day>
        requires cycle { LeadsOn self.now.cycle }
        requires place { place ≤ 146_096 }
        ensures { result ≡ slice_get (earlier_dates anchor.now self.now.cycle self.now.end self.now.rule) place }
    {
        match self.cycle {
            Some(cycle) => self.cycle_date_kept(anchor, cycle, place),
            None => (place == 0 && anchor.day() < self.end).then_some(anchor.day()),
        }
    }

    /// The date of the cycle at a place, where it is before the end and isn't left out by a long stub.
    fn cycle_date_kept(&self, anchor: &Anchor, cycle: Cycle, place: u32) -> Option<Day>
        requires cycle { 1 ≤ cycle.count }
        requires place { place ≤ 146_096 }
        ensures { result ≡ slice_get (earlier_dates anchor.now (Some cycle) self.now.end self.now.rule) place }
    {
        let date = self.cycle_date_before(anchor, cycle, place)?;
        if place == 0 || cycle.stub == Stub::Short {
            return Some(date);
        }
        // A long stub leaves out the last, where the date that comes next is past the end.
        let next = cycle_date(anchor, cycle, self.rule, place + 1);
        if is_up_to(self.end, next) {
            Some(date)
        } else {
            None
        }
    }

    /// The date of the cycle at a place, where it is before the end.
    fn cycle_date_before(&self, anchor: &Anchor, cycle: Cycle, place: u32) -> Option<Day>
        requires { 1 ≤ cycle.count }
        ensures { result ≡ slice_get (dates_before anchor.now cycle self.now.end self.now.rule) place }
    {
        if_before(self.end, cycle_date(anchor, cycle, self.rule, place))
    }
}

/// Adds a date, where it is after a day, unless there are as many as there may be.
fn push_after(dates: &mut Vec<Day>, after: &Option<Day>, date: Day) -> Result<(), SchedFault>
    ensures added { IfOk result (λ _. dates.new.items ≡ dates.old.items ++ later_dates after.now (date ∷ [])) }
    ensures too_many { result ≡ Err SchedFault.TooManyDates →
        MOST_DATES < length (dates.old.items ++ later_dates after.now (date ∷ [])) }
    ensures within_limit { IfOk result (λ _. length dates.old.items ≤ MOST_DATES → length dates.new.items ≤ MOST_DATES) }
{
    if !is_after(date, after) {
        return Ok(());
    }
    if dates.len() >= MOST_DATES {
        return Err(SchedFault::TooManyDates);
    }
    dates.push(date)?;
    Ok(())
}

/// The later of a day and a date, where the date isn't after a day and, where another is given, is after that.
fn later_date(latest: Day, after: &Option<Day>, until: Day, date: Day) -> Day
    ensures { result ≡ latest_in until after.now latest (date ∷ []) }
{
    if is_after(date, after) && date <= until {
        latest.max(date)
    } else {
        latest
    }
}

/// Whether a date is after a day, where one is given.
fn is_after(date: Day, after: &Option<Day>) -> bool
    ensures { later_dates after.now (date ∷ []) ≡ (if result then date ∷ [] else []) }
{
    match *after {
        Some(day) => day < date,
        None => true,
    }
}

/// The day, where it is before the end.
fn if_before(end: Day, day: Option<Day>) -> Option<Day>
    ensures { result ≡ if_before end day }
{
    day.filter(|day| *day < end)
}

/// Whether there is a day, and it isn't after the end.
fn is_up_to(end: Day, day: Option<Day>) -> bool
    ensures { IsTrue result ↔ IsSomeAnd day (λ day. day ≤ℤ end) }
{
    match day {
        Some(day) => day <= end,
        None => false,
    }
}
