//! OPTNS and FUTUR: an option and a future on a market object, which are exercised and then settled.
ghost use Rattle.std.specs.Prelude.{◌≡◌, ◌≢◌, [], true, Ok, Err};
ghost use Rattle.act_kind.specs.Takes.{Takes};
ghost use Rattle.act_model.specs.Kind.{type_of};
ghost use Rattle.act_option.specs.Kinds.{is_exercised};
ghost use Rattle.act_profile.specs.Plan.{plan_of};
ghost use Rattle.act_profile.specs.Steps.{start_of, step_of};

use crate::events::exercise_plan;
use crate::table::{FutureTable, OptionTable};
use act_kind::{first_state, take_step};
use act_model::{Event, Kind, Observed, Plan, PlanFault, State, Stop, Terms};
use act_num::{Fixed, Steps};
use std::alloc::Global;
use std::sync::ledger::Ledger;

/// The scheduled events of an OPTNS or a FUTUR: its purchase and its termination, its exercise at maturity, and the
/// settlement of it. The one fault is `NoMemory`.
pub fn schedule(alloc: Global, terms: &Terms) -> Result<Plan, PlanFault>
    requires { is_exercised (type_of terms.now.kind) ≡ true }
    ensures { result ≢ Err PlanFault.NoMemory → result ≡ plan_of terms.now }
{
    let common = &terms.common;
    match &terms.kind {
        Kind::OPTNS(optns) => {
            exercise_plan(alloc, common, optns.settlement_period, optns.maturity_date)
        }
        Kind::FUTUR(futur) => {
            exercise_plan(alloc, common, futur.settlement_period, futur.maturity_date)
        }
        _ => unreachable!(),
    }
}

/// The state that an OPTNS or a FUTUR begins with, which is always defined. It takes no memory.
#[tactic(auto, using(crate::proofs::Exercised::start_of_exercised))]
pub fn start(terms: &Terms, plan: &Plan) -> Result<State, Stop>
    requires { is_exercised (type_of terms.now.kind) ≡ true }
    ensures { result ≡ start_of terms.now plan.now }
{
    Ok(first_state(terms.common.status_date))
}

/// What an event of an OPTNS or a FUTUR pays and the state after it, or why the run stops there: first an observation
/// that is missing, and then an amount that is undefined. Where it is Ok it ticks once, and else not at all. It takes no
/// memory.
pub fn step<O: Observed, L: Ledger>(
    terms: &Terms,
    plan: &Plan,
    state: &State,
    event: &Event,
    seen: &O,
    steps: &mut Steps<L>,
) -> Result<(Fixed, State), Stop>
    requires { is_exercised (type_of terms.now.kind) ≡ true }
    ensures { Takes result (step_of terms.now plan.now (O.entries seen.now) [] state.now event.now) steps.old steps.new }
{
    match &terms.kind {
        Kind::OPTNS(optns) => {
            let table = OptionTable::new(&terms.common, optns);
            take_step(terms, plan, &table, state, event, seen, steps)
        }
        Kind::FUTUR(futur) => {
            let table = FutureTable::new(&terms.common, futur);
            take_step(terms, plan, &table, state, event, seen, steps)
        }
        _ => unreachable!(),
    }
}
