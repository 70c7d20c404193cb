//! Purchase and termination, and how time passes for contracts on which nothing accrues.
ghost use Rattle.std.specs.Prelude.{◌≡◌, ◌≢◌, ◌++◌, ℤ, Option, Some, Ok, Err, IfOk, IfErr};
ghost use Rattle.act_model.specs.declared.state.State as variables;
ghost use Rattle.act_profile.specs.Order.{in_order};
ghost use Rattle.act_profile.specs.Plan.{trade_plan};
ghost use Rattle.act_profile.specs.Planning.{as_scheduled, event_on};
ghost use Rattle.act_profile.specs.States.{first_state, later_day};
ghost use Rattle.act_profile.specs.Step.{amount_of};
ghost use Rattle.act_profile.specs.Trade.{event_where_given, passed, trade_events, trade_line};

use crate::order::put_in_order;
use crate::sign::{opposite, signed};
use act_date::Day;
use act_model::{Common, Event, EventType, Plan, PlanFault, Source, State};
use act_num::{Fixed, NoMemory};
use std::alloc::{AllocError, Global};

/// The plan that has the purchase and the termination alone. The one fault is `NoMemory`.
pub fn trade_plan(alloc: Global, common: &Common) -> Result<Plan, PlanFault>
    ensures { result ≢ Err PlanFault.NoMemory → result ≡ trade_plan common.now }
{
    match trades_in_order(alloc, common) {
        Ok(events) => Ok(Plan::new(events, Vec::new(alloc), Vec::new(alloc))?),
        Err(_) => Err(PlanFault::NoMemory),
    }
}

/// The purchase and the termination in order.
fn trades_in_order(alloc: Global, common: &Common) -> Result<Vec<Event>, NoMemory>
    ensures { IfOk result (λ events. events.items ≡ in_order (trade_events common.now)) }
{
    let mut events = trade_events(alloc, common)?;
    put_in_order(&mut events)?;
    Ok(events)
}

/// The purchase and the termination, as far as they are given.
fn trade_events(alloc: Global, common: &Common) -> Result<Vec<Event>, AllocError>
    ensures { IfOk result (λ events. events.items ≡ trade_events common.now) }
{
    let mut events = Vec::new(alloc);
    push_where_given(&mut events, EventType::PRD, common.purchase_date)?;
    push_where_given(&mut events, EventType::TD, common.termination_date)?;
    Ok(events)
}

/// Adds the event of a date, where it is given.
fn push_where_given(
    events: &mut Vec<Event>,
    kind: EventType,
    date: Option<Day>,
) -> Result<(), AllocError>
    ensures { IfOk result (λ _. events.new.items ≡ events.old.items ++ event_where_given kind date) }
{
    match date {
        Some(date) => Ok(events.push(event_on(kind, date))?),
        None => Ok(()),
    }
}

/// The event of a date that isn't shifted.
fn event_on(kind: EventType, date: Day) -> Event
    ensures { result ≡ event_on 0 kind (as_scheduled date) }
{
    Event {
        day: date,
        calc: date,
        kind,
        value: Fixed::ZERO,
        source: Source::Scheduled(0),
    }
}

/// The state in which nothing is owed, and both multipliers are 1.
pub fn first_state(status_date: Day) -> State
    ensures { result ≡ first_state status_date }
{
    State {
        sd: Some(status_date),
        md: None,
        xd: None,
        nt: Fixed::ZERO,
        ipnr: Fixed::ZERO,
        ipac: Fixed::ZERO,
        ipnr2: Fixed::ZERO,
        ipac2: Fixed::ZERO,
        feac: Fixed::ZERO,
        nsc: Fixed::ONE,
        isc: Fixed::ONE,
        ipcb: Fixed::ZERO,
        prnxt: Fixed::ZERO,
        xa: Fixed::ZERO,
    }
}

/// Lets time pass in a state up to an event: Sd never goes back, and a credit event doesn't move it.
pub fn pass(kind: EventType, calc: Day, state: &mut State)
    ensures { passed kind calc state.old ≡ Some state.new }
{
    match kind {
        EventType::CE => {}
        _ => state.sd = Some(later_day(state.sd, calc)),
    }
}

/// The later of Sd and a day.
pub fn later_day(sd: Option<Day>, day: Day) -> Day
    ensures { result ≡ later_day sd day }
{
    sd.unwrap_or(day).max(day)
}

/// What a purchase or a termination pays; other events pay nothing.
pub fn trade_payoff(common: &Common, kind: EventType) -> Fixed
    ensures { (value : Option ℤ) (state : variables.State) →
        amount_of (trade_line common.now kind).payoff value state ≡ Some result }
{
    match kind {
        EventType::PRD => opposite(common.contract_role, common.price_at_purchase_date),
        EventType::TD => signed(common.contract_role, common.price_at_termination_date),
        _ => Fixed::ZERO,
    }
}
