//! The order of events, and which of them count.
ghost use Rattle.std.specs.Prelude.{◌≡◌, ◌≤◌, ◌<◌, ◌&&◌, ℕ, not, List, true, false, get_or, length, take, IfOk, IfErr};
ghost use Rattle.std.specs.List.{AllPairs, filter, find, list_any, prefix_len};
ghost use Rattle.std.specs.List.Sorted.{IsPermutation, IsStableBy};
ghost use Rattle.std.specs.Ordering.{is_lt};
ghost use Rattle.act_model.specs.declared.event.Event.{Event};
ghost use Rattle.act_profile.specs.Contract.{purchase_of};
ghost use Rattle.act_profile.specs.Order.{counting, counts, ends, ends_at_maturity, in_order, is_before_exchange, is_before_purchase, is_own, precedes, up_to_end};
ghost use Rattle.act_profile.specs.Planning.{as_scheduled, event_on};
ghost use Rattle.act_profile.specs.Steps.{is_unpaid};

use act_date::Day;
use act_model::{Event, EventType, Kind, Plan, Source, Terms};
use act_num::{Fixed, NoMemory};
use std::cmp::Ordering;

/// Puts events in order: by day, then by type. Events of one day and type stay in their order. Where memory runs
/// out they stay as they were.
pub fn put_in_order(events: &mut Vec<Event>) -> Result<(), NoMemory>
    ensures in_order { IfOk result (λ _. events.new.items ≡ in_order events.old.items) }
    ensures unchanged { IfErr result (λ _. events.new.items ≡ events.old.items) }
{
    match events.sort_by(|a, b| place_order(a, b)) {
        Ok(()) => Ok(()),
        Err(_) => Err(NoMemory),
    }
}

/// The order of two events: by day, then by type.
fn place_order(a: &Event, b: &Event) -> Ordering
    ensures { is_lt result ≡ precedes a.now b.now }
{
    a.day.cmp(&b.day).then(a.kind.cmp(&b.kind))
}

/// Whether an event comes before a purchase that counts, and so pays nothing.
pub fn is_unpaid(terms: &Terms, plan: &Plan, event: &Event) -> bool
    ensures { result ≡ is_unpaid terms.now plan.now event.now }
{
    match purchase_of(terms) {
        Some(date) => is_before_purchase(terms, plan, &purchase_on(date), event),
        None => false,
    }
}

/// The purchase date; a guarantee isn't bought.
fn purchase_of(terms: &Terms) -> Option<Day>
    ensures { result ≡ purchase_of terms.now.common terms.now.kind }
{
    match &terms.kind {
        Kind::CEG(_) | Kind::CEC(_) => None,
        _ => terms.common.purchase_date,
    }
}

/// A purchase on a day.
fn purchase_on(day: Day) -> Event
    ensures { result ≡ event_on 0 EventType.PRD (as_scheduled day) }
{
    Event {
        day,
        calc: day,
        kind: EventType::PRD,
        value: Fixed::ZERO,
        source: Source::Scheduled(0),
    }
}

/// Whether an event comes before a purchase that counts: no scheduled event that ends the contract comes before the
/// purchase.
fn is_before_purchase(terms: &Terms, plan: &Plan, purchase: &Event, event: &Event) -> bool
    ensures { result ≡ is_before_purchase terms.now.common.status_date terms.now.kind plan.now.events purchase.now event.now }
{
    precedes(event, purchase)
        && counts(terms.common.status_date, &terms.kind, purchase.day)
        && !is_behind_end(&terms.kind, plan, purchase)
}

/// Whether a scheduled event ends the contract and comes before a purchase. Only those are asked that can end one.
fn is_behind_end(kind: &Kind, plan: &Plan, purchase: &Event) -> bool
    ensures { result ≡ list_any (λ e. ends kind.now e && precedes e purchase.now) plan.now.events }
{
    one_ends_before(kind, plan.ends(), purchase)
}

/// Whether one of some events ends the contract and comes before a purchase.
fn one_ends_before(kind: &Kind, events: &[Event], purchase: &Event) -> bool
    ensures { result ≡ list_any (λ e. ends kind.now e && precedes e purchase.now) events.now }
{
    events.iter().any(|earlier| ends(kind, earlier) && precedes(earlier, purchase))
}

/// Of events in order those that count: after the status date, not before an initial exchange that is after it,
/// and none behind the first that ends the contract.
pub fn retain_counting(terms: &Terms, mut events: Vec<Event>) -> Vec<Event>
    ensures { result.items ≡ counting terms.now.common.status_date terms.now.kind events.items }
{
    let count = count_to_end(&terms.kind, &events);
    events.truncate(count);
    keep_counting(terms.common.status_date, &terms.kind, &mut events);
    events
}

/// Of the events of a plan in order those that count, as a part of the list itself: what [`retain_counting`] keeps.
pub fn counting<'a>(terms: &Terms, plan: &'a Plan) -> &'a [Event]
    requires { in_order plan.now.events ≡ plan.now.events }
    ensures { result.now ≡ counting terms.now.common.status_date terms.now.kind plan.now.events }
{
    let until_end = &plan.events[..count_to_planned_end(&terms.kind, plan)];
    &until_end[count_early(terms.common.status_date, &terms.kind, until_end)..]
}

/// How many events of a plan in order there are up to the first that ends the contract, with it.
fn count_to_planned_end(kind: &Kind, plan: &Plan) -> usize
    requires { in_order plan.now.events ≡ plan.now.events }
    ensures taken { take result plan.now.events ≡ up_to_end kind.now plan.now.events }
    ensures within { result ≤ length plan.now.events }
{
    match first_end(kind, plan.ends()) {
        Some(end) => {
            let before = count_preceding(&plan.events, &end);
            before + count_to_end(kind, &plan.events[before..])
        }
        None => plan.events.len(),
    }
}

/// How many of the first events are found to come before an end: all but the last where the last but one does, as it mostly does;
/// else by halving.
fn count_preceding(events: &[Event], end: &Event) -> usize
    requires { in_order events.now ≡ events.now }
    ensures before { (place : ℕ) (other : Event) → place < result → precedes (get_or events.now place other) end.now ≡ true }
    ensures within { result ≤ length events.now }
{
    if let Some(last_but_one) = events.len().checked_sub(2) {
        if precedes(&events[last_but_one], end) {
            return last_but_one + 1;
        }
    }
    events.partition_point(|event| precedes(event, end))
}

/// The first of some events that ends the contract.
fn first_end(kind: &Kind, events: &[Event]) -> Option<Event>
    ensures { result ≡ find (ends kind.now) events.now }
{
    for event in events {
        if ends(kind, event) {
            return Some(*event);
        }
    }
    None
}

/// How many events stand before the first whose day counts.
fn count_early(status: Day, kind: &Kind, events: &[Event]) -> usize
    ensures count { result ≡ prefix_len (λ e. not (counts status kind.now e.day)) events.now }
    ensures within { result ≤ length events.now }
{
    events
        .iter()
        .take_while(|event| !counts(status, kind, event.day))
        .count()
}

/// Keeps the events whose day counts.
fn keep_counting(status: Day, kind: &Kind, events: &mut Vec<Event>)
    ensures { events.new.items ≡ filter (λ e. counts status kind.now e.day) events.old.items }
{
    events.retain(|event| counts(status, kind, event.day));
}

/// How many events there are up to the first that ends the contract, with it.
fn count_to_end(kind: &Kind, events: &[Event]) -> usize
    ensures taken { take result events.now ≡ up_to_end kind.now events.now }
    ensures within { result ≤ length events.now }
{
    'events: for (place, event) in events.iter().enumerate() {
        if ends(kind, event) {
            return place + 1;
        }
    }
    events.len()
}

/// Whether an event of that day counts.
fn counts(status: Day, kind: &Kind, day: Day) -> bool
    ensures { result ≡ counts status kind.now day }
{
    status < day && !is_before_exchange(status, kind.initial_exchange_date(), day)
}

/// Whether a day comes before an initial exchange that is after the status date.
fn is_before_exchange(status: Day, exchange: Option<Day>, day: Day) -> bool
    ensures { result ≡ is_before_exchange status exchange day }
{
    match exchange {
        Some(exchange) => status < exchange && day < exchange,
        None => false,
    }
}

/// Whether an event ends the contract: its termination, or the maturity of a loan or a plain swap.
fn ends(kind: &Kind, event: &Event) -> bool
    ensures { result ≡ ends kind.now event.now }
{
    is_own(event.source)
        && (event.kind == EventType::TD
            || (event.kind == EventType::MD && kind.initial_exchange_date().is_some()))
}

/// Whether an event is the contract's own, and no row of a child.
fn is_own(source: Source) -> bool
    ensures { result ≡ is_own source }
{
    match source {
        Source::Scheduled(_) | Source::Observed(_) => true,
        Source::Leg { .. } | Source::Net { .. } => false,
    }
}

/// Whether an event comes before another: on an earlier day, or on the same day by its type.
fn precedes(a: &Event, b: &Event) -> bool
    ensures { result ≡ precedes a.now b.now }
{
    a.day < b.day || (a.day == b.day && a.kind < b.kind)
}

/// A law: the events in order are the same events, none of them before one that stands earlier, and those of one day
/// and type as they were.
pub fn order_law()
    ensures same_events { (events : List Event) → IsPermutation events (in_order events) }
    ensures in_order { (events : List Event) → AllPairs (λ earlier later. precedes later earlier ≡ false) (in_order events) }
    ensures stable { (events : List Event) → IsStableBy precedes events (in_order events) }
{}
