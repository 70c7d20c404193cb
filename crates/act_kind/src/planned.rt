//! The events of planned dates, type by type.
ghost use Rattle.std.specs.Prelude.{◌≡◌, ◌≢◌, ◌+◌, ◌≤◌, ◌++◌, List, length, Option, Some, None, option_map, Ok, Err, IfOk, IfErr};
ghost use Rattle.act_kind.specs.Types.{AreTypes, IsAnswer, IsCounted, first_fault};
ghost use Rattle.act_profile.specs.Outcomes.{map_ok};
ghost use Rattle.act_profile.specs.Planning.{events_by_type, planned_event, planned_events, shifted_by, shifting, type_events, unshifted_where_given};
ghost use Rattle.act_profile.specs.Planning as profile;

use act_calendar::{Shifted, shift};
use act_date::Day;
use act_model::{Common, Event, EventType, MOST_DATES, PlanFault, Source};
use act_num::Fixed;
use std::alloc::{AllocError, Global};
use std::marker::Model;

/// A date of an event before it is shifted.
#[derive(Clone, Copy, PartialEq, Eq)]
pub struct Planned {
    /// The type of the event.
    pub kind: EventType,
    /// The date.
    pub date: Day,
    /// Whether the date is shifted by the contract's convention.
    pub shifts: bool,
}

impl Model for Planned {
    ghost use Rattle.act_profile.specs.Planning as profile;

    ghost Value = { profile.Planned };

    ghost view = { λ p. record { kind = p.kind; date = p.date; shifts = p.shifts } };

    ghost inverse = { λ p. record { kind = p.kind; date = p.date; shifts = p.shifts } };
}

/// Dates of one type of event that are shifted by the contract's convention. The one fault is `NoMemory`.
pub fn shifting(alloc: Global, kind: EventType, dates: &[Day]) -> Result<Vec<Planned>, PlanFault>
    ensures answer { IsAnswer result (Some (shifting kind dates.now)) }
    ensures no_memory { IfErr result (λ fault. fault ≡ PlanFault.NoMemory) }
{
    Ok(collect_shifting(alloc, kind, dates)?)
}

/// Dates of one type of event that are shifted.
fn collect_shifting(
    alloc: Global,
    kind: EventType,
    dates: &[Day],
) -> Result<Vec<Planned>, AllocError>
    ensures { IfOk result (λ planned. planned.items ≡ shifting kind dates.now) }
{
    dates
        .iter()
        .map(|date| Planned {
            kind,
            date: *date,
            shifts: true,
        })
        .collect(alloc)
}

/// A date of an event that isn't shifted, where it is given. The one fault is `NoMemory`.
pub fn unshifted(
    alloc: Global,
    kind: EventType,
    date: Option<Day>,
) -> Result<Vec<Planned>, PlanFault>
    ensures answer { IsAnswer result (Some (unshifted_where_given kind date)) }
    ensures no_memory { IfErr result (λ fault. fault ≡ PlanFault.NoMemory) }
{
    let mut planned = Vec::new(alloc);
    if let Some(date) = date {
        let date = Planned {
            kind,
            date,
            shifts: false,
        };
        planned.push(date)?;
    }
    Ok(planned)
}

/// The events of each type's dates in turn, by what is answered of each type: its dates, or why it has none.
/// The first fault decides: a type's own, `TooManyDates` where its dates and those of the types before it are
/// more than 4,096, or else `DateRange` where one of its dates is shifted past 2299.
pub fn events_by_type(
    alloc: Global,
    common: &Common,
    types: &[Result<Vec<Planned>, PlanFault>],
) -> Result<Vec<Event>, PlanFault>
    ensures events { IfOk result (λ events. (planned : List (Option (List profile.Planned))) →
        AreTypes types.now planned → events_by_type common.now 0 planned ≡ Ok events.items) }
    ensures fault { IfErr result (λ fault. (planned : List (Option (List profile.Planned))) →
        AreTypes types.now planned → IsCounted types.now planned → fault ≢ PlanFault.NoMemory →
        events_by_type common.now 0 planned ≡ Err fault) }
    ensures no_fault { IfOk result (λ _. first_fault common.now 0 types.now ≡ None) }
    ensures first_fault { IfErr result (λ fault. fault ≢ PlanFault.NoMemory → first_fault common.now 0 types.now ≡ Some fault) }
{
    let mut events = Vec::with_capacity(alloc, date_count(types))?;
    'types: for answer in types {
        match answer {
            Ok(dates) => add_events(common, dates, &mut events)?,
            Err(fault) => return Err(*fault),
        }
    }
    Ok(events)
}

/// How many dates the types have, or the most that a contract may have, where they are more.
fn date_count(types: &[Result<Vec<Planned>, PlanFault>]) -> usize
    ensures { result ≤ MOST_DATES }
{
    let mut count = 0;
    'types: for answer in types {
        if let Ok(dates) = answer {
            count = MOST_DATES.min(dates.len().saturating_add(count));
        }
    }
    count
}

/// Adds the events of one type's dates. After a fault some of them may have been added.
fn add_events(common: &Common, dates: &[Planned], events: &mut Vec<Event>) -> Result<(), PlanFault>
    requires { length events.old.items ≤ MOST_DATES }
    ensures added { IfOk result (λ _.
        map_ok (λ later. events.old.items ++ later) (type_events common.now (length events.old.items) dates.now)
        ≡ Ok events.new.items) }
    ensures count { IfOk result (λ _. length events.new.items ≡ length events.old.items + length dates.now) }
    ensures within { IfOk result (λ _. length events.new.items ≤ MOST_DATES) }
    ensures fault { IfErr result (λ fault. fault ≢ PlanFault.NoMemory →
        type_events common.now (length events.old.items) dates.now ≡ Err fault) }
{
    if events.len() + dates.len() > MOST_DATES {
        return Err(PlanFault::TooManyDates);
    }
    push_events(common, dates, events)
}

/// Adds the events of dates, as many as a contract may have.
fn push_events(common: &Common, dates: &[Planned], events: &mut Vec<Event>) -> Result<(), PlanFault>
    requires { length dates.now ≤ MOST_DATES }
    ensures added { IfOk result (λ _.
        option_map (λ later. events.old.items ++ later) (planned_events common.now dates.now) ≡ Some events.new.items) }
    ensures count { IfOk result (λ _. length events.new.items ≡ length events.old.items + length dates.now) }
    ensures fault { IfErr result (λ fault. fault ≢ PlanFault.NoMemory →
        (fault ≡ PlanFault.DateRange) × (planned_events common.now dates.now ≡ None)) }
{
    'dates: for (place, date) in dates.iter().enumerate() {
        let Some(event) = planned_event(common, place as u32, *date) else {
            return Err(PlanFault::DateRange);
        };
        events.push(event)?;
    }
    Ok(())
}

/// The event of a date, which has this place among those of its type, or None where the date is shifted past 2299.
fn planned_event(common: &Common, place: u32, planned: Planned) -> Option<Event>
    ensures { result ≡ planned_event common.now (place, planned) }
{
    let shifted = shifted_by(common, planned.shifts, planned.date)?;
    Some(Event {
        day: shifted.day,
        calc: shifted.calc,
        kind: planned.kind,
        value: Fixed::ZERO,
        source: Source::Scheduled(place),
    })
}

/// The day that a date is shifted to, and the day that its computations go by, or None past 2299.
fn shifted_by(common: &Common, shifts: bool, date: Day) -> Option<Shifted>
    ensures { result ≡ shifted_by common.now shifts date }
{
    if shifts {
        shift(date, common.business_day_convention, common.calendar)
    } else {
        Some(Shifted {
            day: date,
            calc: date,
        })
    }
}
