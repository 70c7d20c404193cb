//! The events of an option or a future: exercise and settlement beside purchase and termination.
ghost use Rattle.std.specs.Prelude.{◌≡◌, ◌≢◌, ◌++◌, not, Ok, Err, IfOk, OnOk, OnErr};
ghost use Rattle.std.specs.List.{filter, list_any};
ghost use Rattle.act_date.specs.Civil.{last_day};
ghost use Rattle.act_profile.specs.Exercise.{events_exercised_on, exercise_events, exercise_plan, not_before, settled_events, settlement_day};
ghost use Rattle.act_profile.specs.Order.{in_order, is_type};
ghost use Rattle.act_profile.specs.Planning.{as_scheduled, event_on};
ghost use Rattle.act_profile.specs.Trade.{event_where_given};
ghost use Rattle.act_option.specs.Settling.{settled_on};

use act_calendar::{Shifted, shift};
use act_date::{Cycle, Day, add_cycles};
use act_kind::put_in_order;
use act_model::{Common, Event, EventType, Plan, PlanFault, Source};
use act_num::{Fixed, NoMemory};
use std::alloc::{AllocError, Global};

/// The number of 2299-12-31.
const LAST_DAY: i64 = 120_529;

/// The plan with an exercise at maturity and its settlement. The one fault is `NoMemory`.
pub(crate) fn exercise_plan(
    alloc: Global,
    common: &Common,
    period: Cycle,
    maturity: Day,
) -> Result<Plan, PlanFault>
    ensures { result ≢ Err PlanFault.NoMemory → result ≡ Ok (exercise_plan common.now period maturity) }
{
    match exercised_in_order(alloc, common, period, maturity) {
        Ok(events) => Ok(Plan::new(events, Vec::new(alloc), Vec::new(alloc))?),
        Err(_) => Err(PlanFault::NoMemory),
    }
}

/// The scheduled events with an exercise on a day, in order.
fn exercised_in_order(
    alloc: Global,
    common: &Common,
    period: Cycle,
    day: Day,
) -> Result<Vec<Event>, NoMemory>
    ensures { IfOk result (λ events. events.items ≡ in_order (events_exercised_on common.now period day)) }
{
    let mut events = events_exercised_on(alloc, common, period, day)?;
    put_in_order(&mut events)?;
    Ok(events)
}

/// The scheduled events with an exercise on a day: purchase, termination, exercise and settlement.
pub(crate) fn events_exercised_on(
    alloc: Global,
    common: &Common,
    period: Cycle,
    day: Day,
) -> Result<Vec<Event>, AllocError>
    ensures { IfOk result (λ events. events.items ≡ events_exercised_on common.now period day) }
{
    let mut events = Vec::new(alloc);
    push_where_given(&mut events, EventType::PRD, common.purchase_date)?;
    push_where_given(&mut events, EventType::TD, common.termination_date)?;
    push_exercise(&mut events, common, period, day)?;
    Ok(events)
}

/// Adds an exercise on a day, or a credit event, and the settlement of it after a period. Where memory runs out, neither is
/// added.
pub fn push_exercise(
    events: &mut Vec<Event>,
    common: &Common,
    period: Cycle,
    day: Day,
) -> Result<(), AllocError>
    ensures added { OnOk result (events.new.items ≡ events.old.items ++ exercise_events common.now period day) }
    ensures unchanged { OnErr result (events.new.items ≡ events.old.items) }
{
    events.reserve(2)?;
    events.push_reserved(event_on(EventType::XD, as_scheduled(day)));
    events.push_reserved(event_on(EventType::STD, settlement_day(common, period, day)));
    Ok(())
}

/// Adds the event of a date that isn't shifted, where it is given.
fn push_where_given(
    events: &mut Vec<Event>,
    kind: EventType,
    date: Option<Day>,
) -> Result<(), AllocError>
    ensures { IfOk result (λ _. events.new.items ≡ events.old.items ++ event_where_given kind date) }
{
    match date {
        Some(date) => Ok(events.push(event_on(kind, as_scheduled(date)))?),
        None => Ok(()),
    }
}

/// The scheduled event of a date that has been shifted.
pub fn event_on(kind: EventType, shifted: Shifted) -> Event
    ensures { result ≡ event_on 0 kind shifted }
{
    Event {
        day: shifted.day,
        calc: shifted.calc,
        kind,
        value: Fixed::ZERO,
        source: Source::Scheduled(0),
    }
}

/// A date that stays as it is.
fn as_scheduled(date: Day) -> Shifted
    ensures { result ≡ as_scheduled date }
{
    Shifted {
        day: date,
        calc: date,
    }
}

/// The day on which an exercise is settled: after the settlement period, shifted, and not before the exercise; 2299-12-31
/// where that is past it.
#[tactic(auto, unfolding(act_profile::specs::Exercise::settlement_day))]
fn settlement_day(common: &Common, period: Cycle, day: Day) -> Shifted
    ensures { result ≡ settlement_day common.now period day }
{
    match settled_on(common, period, day) {
        Some(shifted) => not_before(day, shifted),
        None => as_scheduled(last_day()),
    }
}

/// A shifted day, or a day itself where that is later.
pub fn not_before(day: Day, shifted: Shifted) -> Shifted
    ensures { result ≡ not_before day shifted }
{
    if shifted.day < day {
        as_scheduled(day)
    } else {
        shifted
    }
}

/// The day after a settlement period, shifted, or None past 2299.
fn settled_on(common: &Common, period: Cycle, day: Day) -> Option<Shifted>
    ensures { result ≡ settled_on common.now period day }
{
    let due = add_cycles(day, period, 1)?;
    shift(due, common.business_day_convention, common.calendar)
}

/// 2299-12-31.
fn last_day() -> Day
    ensures { result ≡ last_day }
{
    Day::from_number(LAST_DAY).unwrap()
}

/// Events, with the settlement only of an exercise that is among them.
pub fn settled_events(mut events: Vec<Event>) -> Vec<Event>
    ensures { result.items ≡ settled_events events.items }
{
    if !has_exercise(&events) {
        leave_out_settlements(&mut events);
    }
    events
}

/// Whether an exercise is among some events.
fn has_exercise(events: &[Event]) -> bool
    ensures { result ≡ list_any (λ e. is_type e.kind EventType.XD) events.now }
{
    events.iter().any(|event| event.kind == EventType::XD)
}

/// Leaves out settlements.
fn leave_out_settlements(events: &mut Vec<Event>)
    ensures { events.new.items ≡ filter (λ e. not (is_type e.kind EventType.STD)) events.old.items }
{
    events.retain(|event| event.kind != EventType::STD);
}
