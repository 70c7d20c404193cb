//! The events of a contract over a list of entries.
ghost use Rattle.std.specs.Prelude.{◌≡◌, ◌∷◌, ◌++◌, List, Ok, IfOk, IfSome};
ghost use Rattle.std.specs.List.{enumerate_from, flat_map};
ghost use Rattle.act_model.specs.Observed.{observed_events};
ghost use Rattle.act_model.specs.Run.{Stream};
ghost use Rattle.act_model.specs.declared.observed.Obs.{Obs};
ghost use Rattle.act_profile.specs.Contract.{observed_as};
ghost use Rattle.act_profile.specs.Events.{event_observed, events_by, events_of, events_of_entry, events_scheduled, prepayment_events, with_exercise};
ghost use Rattle.act_profile.specs.Plan.{plan_of};
ghost use Rattle.act_run.specs.Inputs.{events_given};
ghost use Rattle.act_run.specs.Planned.{is_planned};

use crate::inputs::Inputs;
use act_credit::guarantee_events;
use act_date::Day;
use act_kind::{counting, put_in_order, retain_counting};
use act_model::{
    Common, Event, EventType, Kind, Obs, ObsKind, Observed, PenaltyType, Plan, Source, Terms,
};
use act_num::{Fixed, NoMemory};
use act_option::{exercised_events, settled_events};
use act_swap::with_rows_of_children;
use std::alloc::Global;

/// The events of a contract that count, as a part of its plan, where nothing is observed of it and its kind has no others and
/// none that moves; else None.
pub(crate) fn planned_events<'a>(terms: &Terms, plan: &'a Plan, own: &[Obs]) -> Option<&'a [Event]>
    requires plan { plan_of terms.now ≡ Ok plan.now }
    ensures { IfSome result (λ events. (entries : List Obs) (children : List Stream)
        → own.now ≡ observed_events entries (observed_as terms.now.common) → events.now ≡ events_of terms.now plan.now entries children) }
{
    if own.is_empty() && is_planned(&terms.kind) {
        Some(counting(terms, plan))
    } else {
        None
    }
}

/// Whether a contract of that kind has the events of its plan alone, where nothing is observed of it.
fn is_planned(kind: &Kind) -> bool
    ensures { result ≡ is_planned kind.now }
{
    match kind {
        Kind::SWAPS(_)
        | Kind::CAPFL(_)
        | Kind::OPTNS(_)
        | Kind::FUTUR(_)
        | Kind::CEG(_)
        | Kind::CEC(_) => false,
        _ => true,
    }
}

/// The events of a contract that count, in order: those of its plan, observed ones behind the scheduled ones of the same day
/// and type, and behind these rows of its children. An observed exercise moves that of an option, a credit event that of a
/// guarantee, and only an exercise that counts is settled. `own` are the entries of the contract's own.
pub(crate) fn events_of<O: Observed>(
    alloc: Global,
    inputs: &Inputs<'_, O>,
    own: &[Obs],
) -> Result<Vec<Event>, NoMemory>
    requires { own.now ≡ observed_events inputs.now.entries (observed_as inputs.now.terms.common) }
    ensures { IfOk result (λ events. events.items ≡ events_given inputs.now) }
{
    let terms = inputs.terms;
    let mut events = scheduled_events(alloc, inputs, own)?;
    add_all(&mut events, &terms.kind, own)?;
    let mut events = with_rows_of_children(events, &terms.common, &terms.kind, inputs.children)?;
    put_in_order(&mut events)?;
    Ok(with_exercise(&terms.kind, retain_counting(terms, events)))
}

/// The scheduled events of a contract: those of its plan, of an option with the day of its exercise, and of a guarantee with
/// that of the credit event.
fn scheduled_events<O: Observed>(
    alloc: Global,
    inputs: &Inputs<'_, O>,
    own: &[Obs],
) -> Result<Vec<Event>, NoMemory>
    requires { own.now ≡ observed_events inputs.now.entries (observed_as inputs.now.terms.common) }
    ensures { IfOk result (λ events. events.items
        ≡ events_scheduled inputs.now.terms.common inputs.now.terms.kind inputs.now.plan inputs.now.entries) }
{
    let &Inputs {
        terms,
        plan,
        seen,
        ..
    } = inputs;
    match &terms.kind {
        Kind::OPTNS(optns) => exercised_events(alloc, &terms.common, optns, own),
        Kind::CEG(ceg) => guarantee_events(alloc, &terms.common, ceg, plan, seen),
        Kind::CEC(cec) => guarantee_events(alloc, &terms.common, &cec.guarantee, plan, seen),
        _ => Ok(Vec::from_slice(alloc, &plan.events)?),
    }
}

/// Events, with a settlement only where there is an exercise.
fn with_exercise(kind: &Kind, events: Vec<Event>) -> Vec<Event>
    ensures { result.items ≡ with_exercise kind.now events.items }
{
    match kind {
        Kind::OPTNS(_) | Kind::FUTUR(_) => settled_events(events),
        _ => events,
    }
}

/// Adds the events of a contract's entries, each with the entry's place among them.
fn add_all(events: &mut Vec<Event>, kind: &Kind, entries: &[Obs]) -> Result<(), NoMemory>
    ensures { IfOk result (λ _. events.new.items ≡ events.old.items ++ flat_map (events_of_entry kind.now) (enumerate_from 0 entries.now)) }
{
    'entries: for (place, entry) in entries.iter().enumerate() {
        add_events(events, kind, place as u64, *entry)?;
    }
    Ok(())
}

/// The contract whose observed events count: a shadow has those of its underlying.
pub(crate) fn observed_as(common: &Common) -> u32
    ensures { result ≡ observed_as common.now }
{
    common.underlying.unwrap_or(common.contract)
}

/// Adds the events that an entry at a place makes.
fn add_events(events: &mut Vec<Event>, kind: &Kind, place: u64, entry: Obs) -> Result<(), NoMemory>
    ensures { IfOk result (λ _. events.new.items ≡ events.old.items ++ events_of_entry kind.now (place, entry)) }
{
    match entry {
        Obs::Rate { .. } => Ok(()),
        Obs::Event {
            kind: observed,
            day,
            value,
            ..
        } => add_by(events, kind, place, observed, day, value),
    }
}

/// Adds the events that an observation of a kind makes. Only a loan has prepayments, only a stock dividends, and an
/// exercise moves a scheduled event.
fn add_by(
    events: &mut Vec<Event>,
    kind: &Kind,
    place: u64,
    observed: ObsKind,
    day: Day,
    value: Fixed,
) -> Result<(), NoMemory>
    ensures { IfOk result (λ _. events.new.items ≡ events.old.items ++ events_by kind.now place observed day value) }
{
    match observed {
        ObsKind::PP => match kind.loan() {
            Some(loan) => add_prepayment(events, place, day, value, loan.penalty_type),
            None => Ok(()),
        },
        ObsKind::DV => match kind {
            Kind::STK(_) => Ok(events.push(event_observed(place, EventType::DV, day, value))?),
            _ => Ok(()),
        },
        ObsKind::XD => Ok(()),
        ObsKind::DL | ObsKind::DQ | ObsKind::DF => {
            Ok(events.push(event_observed(place, EventType::CE, day, value))?)
        }
    }
}

/// Adds a prepayment, and its penalty where there is one.
fn add_prepayment(
    events: &mut Vec<Event>,
    place: u64,
    day: Day,
    value: Fixed,
    penalty: PenaltyType,
) -> Result<(), NoMemory>
    ensures { IfOk result (λ _. events.new.items ≡ events.old.items ++ prepayment_events place day value penalty) }
{
    events.push(event_observed(place, EventType::PP, day, value))?;
    if penalty == PenaltyType::O {
        return Ok(());
    }
    Ok(events.push(event_observed(place, EventType::PY, day, value))?)
}

/// An event on the day of an observation, with the observation's place among those of the contract.
fn event_observed(place: u64, kind: EventType, day: Day, value: Fixed) -> Event
    ensures { result ≡ event_observed place kind day value }
{
    Event {
        day,
        calc: day,
        kind,
        value,
        source: Source::Observed(place),
    }
}
