//! The scheduled events of a guarantee over a book: a credit event of a covered contract and its settlement, or else
//! maturity.
ghost use Rattle.std.specs.Prelude.{◌≡◌, IfOk};
ghost use Rattle.std.specs.List.{filter, filter_map, flat_map, list_any};
ghost use Rattle.act_model.specs.Observed.{observed_events};
ghost use Rattle.act_option.specs.Earliest.{where_kept};
ghost use Rattle.act_profile.specs.Credit.{credit_day, credit_event_day, guarantee_events, is_same_credit_event};
ghost use Rattle.act_profile.specs.Dates.{is_within, least};
ghost use Rattle.act_profile.specs.Exercise.{exercise_events};

use act_date::{Cycle, Day};
use act_model::{Ceg, Common, Covered, Event, Obs, ObsKind, Observed, Plan};
use act_num::NoMemory;
use act_option::{earlier, push_exercise};
use std::alloc::{AllocError, Global};

/// The scheduled events of a guarantee over the entries of `seen`: a credit event of a covered contract and the settlement
/// of it, or else those of its plan.
pub fn guarantee_events<O: Observed>(
    alloc: Global,
    common: &Common,
    guarantee: &Ceg,
    plan: &Plan,
    seen: &O,
) -> Result<Vec<Event>, NoMemory>
    ensures { IfOk result (λ events. events.items ≡ guarantee_events (O.entries seen.now) common.now guarantee.now plan.now) }
{
    match credit_day(alloc, common, guarantee, seen)? {
        Some(day) => Ok(exercise_events(alloc, common, guarantee.settlement_period, day)?),
        None => Ok(Vec::from_slice(alloc, &plan.events)?),
    }
}

/// A credit event on a day and the settlement of it.
fn exercise_events(
    alloc: Global,
    common: &Common,
    period: Cycle,
    day: Day,
) -> Result<Vec<Event>, AllocError>
    ensures { IfOk result (λ events. events.items ≡ exercise_events common.now period day) }
{
    let mut events = Vec::new(alloc);
    push_exercise(&mut events, common, period, day)?;
    Ok(events)
}

/// The day of the credit event of a guarantee over the entries of `seen`: the first on which a covered contract has one of
/// a covered type, of the days after the status date and not after maturity. None where there is none.
#[tactic(auto, unfolding(act_profile::specs::Credit::credit_day))]
pub fn credit_day<O: Observed>(
    alloc: Global,
    common: &Common,
    guarantee: &Ceg,
    seen: &O,
) -> Result<Option<Day>, NoMemory>
    ensures { IfOk result (λ day. day ≡ credit_day (O.entries seen.now) common.now guarantee.now) }
{
    let status = common.status_date;
    first_of_covered(alloc, &guarantee.covered, guarantee, status, seen)
}

/// The first day of a credit event of some of the covered contracts.
fn first_of_covered<O: Observed>(
    alloc: Global,
    covered: &[Covered],
    guarantee: &Ceg,
    status: Day,
    seen: &O,
) -> Result<Option<Day>, NoMemory>
    ensures { IfOk result (λ day. day ≡ least (filter (is_within status guarantee.now.maturity_date)
        (flat_map (λ c. filter_map (credit_event_day guarantee.now.credit_event_type_covered) (observed_events (O.entries seen.now) c.contract)) covered.now))) }
{
    let mut first = None;
    'covered: for contract in covered {
        let own = seen.events_of(alloc, contract.contract)?;
        let day = first_credit_event(&own, guarantee, status);
        drop(own);
        first = earlier(first, day);
    }
    Ok(first)
}

/// The first day of a credit event among entries.
fn first_credit_event(entries: &[Obs], guarantee: &Ceg, status: Day) -> Option<Day>
    ensures { result ≡ least (filter (is_within status guarantee.now.maturity_date)
        (filter_map (credit_event_day guarantee.now.credit_event_type_covered) entries.now)) }
{
    let mut first = None;
    'entries: for entry in entries {
        first = earlier(first, day_within(*entry, guarantee, status));
    }
    first
}

/// The day of an entry that is a credit event of a covered type, where it is after the status date and not after maturity.
fn day_within(entry: Obs, guarantee: &Ceg, status: Day) -> Option<Day>
    ensures { result ≡ where_kept (is_within status guarantee.now.maturity_date)
        (credit_event_day guarantee.now.credit_event_type_covered entry) }
{
    match credit_event_day(&guarantee.credit_event_type_covered, entry) {
        Some(day) if is_within(status, guarantee.maturity_date, day) => Some(day),
        _ => None,
    }
}

/// Whether a day is after the status date and not after the last day, where there is one.
fn is_within(status: Day, last: Option<Day>, day: Day) -> bool
    ensures { result ≡ is_within status last day }
{
    match last {
        Some(last) => status < day && day <= last,
        None => status < day,
    }
}

/// The day of an entry that is a credit event of one of some types.
fn credit_event_day(types: &[ObsKind], entry: Obs) -> Option<Day>
    ensures { result ≡ credit_event_day types.now entry }
{
    match entry {
        Obs::Rate { .. } => None,
        Obs::Event { kind, day, .. } => covers(types, kind).then_some(day),
    }
}

/// Whether an observation is a credit event of one of some types.
fn covers(types: &[ObsKind], kind: ObsKind) -> bool
    ensures { result ≡ list_any (is_same_credit_event kind) types.now }
{
    types
        .iter()
        .any(|covered| is_same_credit_event(kind, *covered))
}

/// Whether two observations are the same credit event.
fn is_same_credit_event(a: ObsKind, b: ObsKind) -> bool
    ensures { result ≡ is_same_credit_event a b }
{
    match a {
        ObsKind::DL | ObsKind::DQ | ObsKind::DF => a == b,
        _ => false,
    }
}
