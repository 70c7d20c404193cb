//! The calls of STK and FXOUT.
ghost use Rattle.std.specs.Prelude.{◌≡◌, ◌≢◌, [], true, Ok, Err};
ghost use Rattle.act_equity.specs.Kinds.{is_stock_or_outright};
ghost use Rattle.act_kind.specs.Takes.{Takes};
ghost use Rattle.act_model.specs.Kind.{type_of};
ghost use Rattle.act_profile.specs.Plan.{plan_of};
ghost use Rattle.act_profile.specs.Steps.{currency_of, start_of, step_of};

use crate::fxout::Outright;
use crate::stk::Stock;
use act_kind::{first_state, take_step, trade_plan};
use act_model::{ContractType, Event, Kind, Observed, Plan, PlanFault, State, Stop, Terms};
use act_num::{Fixed, Steps};
use std::alloc::Global;
use std::sync::ledger::Ledger;

/// The scheduled events of a STK or a FXOUT: its purchase and its termination, and of a FXOUT the exchange or the
/// settlement at maturity. `DateRange` says that the maturity of a FXOUT is shifted past 2299; there are never too many.
pub fn schedule(alloc: Global, terms: &Terms) -> Result<Plan, PlanFault>
    requires { is_stock_or_outright (type_of terms.now.kind) ≡ true }
    ensures plan { result ≢ Err PlanFault.NoMemory → result ≡ plan_of terms.now }
    ensures never_too_many { result ≢ Err PlanFault.TooManyDates }
{
    match &terms.kind {
        Kind::STK(_) => trade_plan(alloc, &terms.common),
        Kind::FXOUT(fxout) => Outright::new(&terms.common, fxout).plan(alloc),
        _ => unreachable!(),
    }
}

/// The state that a STK or a FXOUT begins with, which is always defined. It takes no memory.
#[tactic(auto, using(crate::proofs::Contracts::start_of_either))]
pub fn start(terms: &Terms, plan: &Plan) -> Result<State, Stop>
    requires { is_stock_or_outright (type_of terms.now.kind) ≡ true }
    ensures { result ≡ start_of terms.now plan.now }
{
    Ok(first_state(terms.common.status_date))
}

/// What an event of a STK or a FXOUT pays and the state after it, or why the run stops there: first a rate that is
/// missing, of a STK that of settlement and of a FXOUT that of its two currencies, and then an amount that is undefined.
/// Where it is Ok it ticks once, and else not at all. It takes no memory.
pub fn step<O: Observed, L: Ledger>(
    terms: &Terms,
    plan: &Plan,
    state: &State,
    event: &Event,
    seen: &O,
    steps: &mut Steps<L>,
) -> Result<(Fixed, State), Stop>
    requires { is_stock_or_outright (type_of terms.now.kind) ≡ true }
    ensures { Takes result (step_of terms.now plan.now (O.entries seen.now) [] state.now event.now) steps.old steps.new }
{
    match &terms.kind {
        Kind::STK(_) => {
            let stock = Stock::new(&terms.common);
            take_step(terms, plan, &stock, state, event, seen, steps)
        }
        Kind::FXOUT(fxout) => {
            let outright = Outright::new(&terms.common, fxout);
            take_step(terms, plan, &outright, state, event, seen, steps)
        }
        _ => unreachable!(),
    }
}

/// The currency of an event's payoff of a FXOUT, by its number: of its second MD the other currency, and else the
/// contract's own. A settlement currency plays no part.
pub fn currency_of(terms: &Terms, event: &Event) -> u32
    requires { type_of terms.now.kind ≡ ContractType.FXOUT }
    ensures { result ≡ currency_of terms.now [] event.now }
{
    match &terms.kind {
        Kind::FXOUT(fxout) => Outright::new(&terms.common, fxout).currency_of(event),
        _ => unreachable!(),
    }
}
