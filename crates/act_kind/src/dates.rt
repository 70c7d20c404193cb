//! The dates of one type of event, before they are shifted to business days.
ghost use Rattle.std.specs.Prelude.{if◌then◌else◌, ◌≡◌, ◌<◌, ◌≤◌, ◌↔◌, int_lt, length, option_map, Some, slice_get, IfOk, IfErr, IfSome, IsSomeAnd, IsTrue};
ghost use Rattle.act_kind.specs.Insertion.{earlier, is_later};
ghost use Rattle.act_kind.specs.Types.{IsAnswer};
ghost use Rattle.act_profile.specs.Dates.{after, anchor_of, recurring, recurring_before, recurring_or_end, united, without};
ghost use Rattle.act_profile.specs.Lists.{insert_once_by};
ghost use Rattle.act_sched.specs.Schedule.{LeadsOn, dates_of};

use act_date::{Cycle, Day, MonthRule, add_cycles};
use act_model::{MOST_DATES, PlanFault};
use act_sched::{SchedFault, Schedule};
use std::alloc::Global;

/// The schedule of an anchor and a cycle up to an end. Where the anchor isn't given it comes one cycle after the initial
/// exchange; None where that is past 2299.
pub fn recurrence(
    rule: MonthRule,
    exchange: Day,
    end: Day,
    anchor: Option<Day>,
    cycle: Option<Cycle>,
) -> Option<Schedule>
    requires { LeadsOn cycle }
    ensures dates { option_map dates_of result ≡ recurring rule exchange end anchor cycle }
    ensures leads_on { IfSome result (λ schedule. LeadsOn schedule.cycle) }
    ensures end { IfSome result (λ schedule. schedule.end ≡ end) }
{
    let anchor = anchor_of(exchange, anchor, cycle)?;
    Some(Schedule {
        anchor,
        cycle,
        end,
        rule,
    })
}

/// The same, or the schedule of the end alone where there is neither an anchor nor a cycle; None as there.
pub fn recurrence_or_end(
    rule: MonthRule,
    exchange: Day,
    end: Day,
    anchor: Option<Day>,
    cycle: Option<Cycle>,
) -> Option<Schedule>
    requires { LeadsOn cycle }
    ensures dates { option_map dates_of result ≡ recurring_or_end rule exchange end anchor cycle }
    ensures leads_on { IfSome result (λ schedule. LeadsOn schedule.cycle) }
{
    match (anchor, cycle) {
        (None, None) => Some(Schedule::of_day(end)),
        _ => recurrence(rule, exchange, end, anchor, cycle),
    }
}

/// The dates of an anchor and a cycle up to an end. Where the anchor isn't given it comes one cycle after the initial
/// exchange. `TooManyDates` says that there are more than 4,096, and `DateRange` that the anchor is past 2299.
pub fn recurring(
    alloc: Global,
    rule: MonthRule,
    exchange: Day,
    end: Day,
    anchor: Option<Day>,
    cycle: Option<Cycle>,
) -> Result<Vec<Day>, PlanFault>
    requires { LeadsOn cycle }
    ensures answer { IsAnswer result (recurring rule exchange end anchor cycle) }
    ensures too_many { result ≡ Err PlanFault.TooManyDates →
        IsSomeAnd (recurring rule exchange end anchor cycle) (λ dates. MOST_DATES < length dates) }
{
    match recurrence(rule, exchange, end, anchor, cycle) {
        Some(schedule) => listed(alloc, schedule, None),
        None => Err(PlanFault::DateRange),
    }
}

/// The dates of an anchor and a cycle before an end. `TooManyDates` says that there are 4,096 or more.
pub fn recurring_before(
    alloc: Global,
    rule: MonthRule,
    exchange: Day,
    end: Day,
    anchor: Option<Day>,
    cycle: Option<Cycle>,
) -> Result<Vec<Day>, PlanFault>
    requires { LeadsOn cycle }
    ensures { IsAnswer result (recurring_before rule exchange end anchor cycle) }
{
    match recurrence(rule, exchange, end, anchor, cycle) {
        Some(schedule) => listed_before(alloc, schedule, end),
        None => Err(PlanFault::DateRange),
    }
}

/// The dates of an anchor and a cycle up to an end, or the end alone where there is no anchor; of these the dates
/// after a day, where one is given. `TooManyDates` says that these are more than 4,096.
pub fn recurring_or_end_after(
    alloc: Global,
    rule: MonthRule,
    exchange: Day,
    end: Day,
    anchor: Option<Day>,
    cycle: Option<Cycle>,
    day: Option<Day>,
) -> Result<Vec<Day>, PlanFault>
    requires { LeadsOn cycle }
    ensures answer { IsAnswer result (option_map (after day) (recurring_or_end rule exchange end anchor cycle)) }
    ensures too_many { result ≡ Err PlanFault.TooManyDates →
        IsSomeAnd (option_map (after day) (recurring_or_end rule exchange end anchor cycle)) (λ dates. MOST_DATES < length dates) }
{
    match recurrence_or_end(rule, exchange, end, anchor, cycle) {
        Some(schedule) => listed(alloc, schedule, day),
        None => Err(PlanFault::DateRange),
    }
}

/// The dates of both lists, each day once, and ascending where the first list is. The one fault is `NoMemory`. Where
/// both ascend, each date is looked for behind the one before it.
pub fn united(mut dates: Vec<Day>, others: &[Day]) -> Result<Vec<Day>, PlanFault>
    ensures dates { IfOk result (λ all. all.items ≡ united dates.items others.now) }
    ensures no_memory { IfErr result (λ fault. fault ≡ PlanFault.NoMemory) }
{
    let mut place = 0;
    let mut previous = None;
    'others: for date in others {
        let from = start_for(place, previous, *date);
        place = insert_once(&mut dates, from, *date)?;
        previous = Some(*date);
    }
    Ok(dates)
}

/// From where a date is looked for, by the place of the one before it.
fn start_for(place: usize, previous: Option<Day>, date: Day) -> usize
    ensures { result ≡ (if is_later previous date then place else 0) }
{
    if previous.is_none_or(|previous| previous < date) {
        place
    } else {
        0
    }
}

/// Puts a date behind those that are earlier, unless it is there, and says at which place it stands. The dates before
/// `from` are earlier.
fn insert_once(dates: &mut Vec<Day>, from: usize, date: Day) -> Result<usize, PlanFault>
    requires { from ≤ earlier date dates.old.items }
    ensures inserted { IfOk result (λ _. dates.new.items ≡ insert_once_by int_lt dates.old.items date) }
    ensures place { IfOk result (λ place. place ≡ earlier date dates.old.items) }
    ensures no_memory { IfErr result (λ fault. fault ≡ PlanFault.NoMemory) }
{
    let place = place_of(dates, from, date);
    if is_at(dates, place, date) {
        return Ok(place);
    }
    dates.insert(place, date)?;
    Ok(place)
}

/// The place behind the dates that are earlier. Those before `from` are.
#[tactic(auto, using(crate::proofs::Insertions::counted_on, crate::proofs::Insertions::prefix_within))]
fn place_of(dates: &[Day], from: usize, date: Day) -> usize
    requires { from ≤ earlier date dates.now }
    ensures place { result ≡ earlier date dates.now }
    ensures within { result ≤ length dates.now }
{
    from + count_earlier(&dates[from..], date)
}

/// How many dates are earlier, from the front on.
#[tactic(auto, using(crate::proofs::Insertions::prefix_within))]
fn count_earlier(dates: &[Day], date: Day) -> usize
    ensures count { result ≡ earlier date dates.now }
    ensures within { result ≤ length dates.now }
{
    dates.iter().take_while(|earlier| **earlier < date).count()
}

/// Whether a date stands at a place.
fn is_at(dates: &[Day], place: usize, date: Day) -> bool
    ensures { IsTrue result ↔ (slice_get dates.now place ≡ Some date) }
{
    dates.get(place).is_some_and(|found| *found == date)
}

/// The anchor of a cycle: the given one, or else one cycle after the initial exchange. None where that is past 2299,
/// and in it none where neither is given.
fn anchor_of(exchange: Day, anchor: Option<Day>, cycle: Option<Cycle>) -> Option<Option<Day>>
    ensures { result ≡ anchor_of exchange anchor cycle }
{
    match (anchor, cycle) {
        (None, Some(cycle)) => Some(Some(add_cycles(exchange, cycle, 1)?)),
        _ => Some(anchor),
    }
}

/// The dates of a schedule after a day, where one is given.
fn listed(alloc: Global, schedule: Schedule, day: Option<Day>) -> Result<Vec<Day>, PlanFault>
    requires { LeadsOn schedule.cycle }
    ensures answer { IsAnswer result (Some (after day (dates_of schedule))) }
    ensures too_many { result ≡ Err PlanFault.TooManyDates → MOST_DATES < length (after day (dates_of schedule)) }
{
    match schedule.dates_after(alloc, day) {
        Ok(dates) => Ok(dates),
        Err(SchedFault::TooManyDates) => Err(PlanFault::TooManyDates),
        Err(SchedFault::NoMemory) => Err(PlanFault::NoMemory),
    }
}

/// The dates of a schedule before its end.
fn listed_before(alloc: Global, schedule: Schedule, end: Day) -> Result<Vec<Day>, PlanFault>
    requires leads_on { LeadsOn schedule.cycle }
    requires end { schedule.end ≡ end }
    ensures { IsAnswer result (Some (without end (dates_of schedule))) }
{
    let mut dates = listed(alloc, schedule, None)?;
    leave_out(&mut dates, end);
    Ok(dates)
}

/// Leaves out a day.
fn leave_out(dates: &mut Vec<Day>, day: Day)
    ensures { dates.new.items ≡ without day dates.old.items }
{
    dates.retain(|date| *date != day);
}
