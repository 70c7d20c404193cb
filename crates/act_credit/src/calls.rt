//! The calls of CEG and CEC.
ghost use Rattle.std.specs.Prelude.{◌≡◌, ◌≢◌, true, map, Ok, Err};
ghost use Rattle.std.specs.Arc.{arc_value};
ghost use Rattle.act_credit.specs.Kinds.{is_guarantee};
ghost use Rattle.act_kind.specs.Takes.{Takes};
ghost use Rattle.act_model.specs.Kind.{type_of};
ghost use Rattle.act_profile.specs.Plan.{plan_of};
ghost use Rattle.act_profile.specs.Steps.{start_of, step_of};

use crate::amounts::{credit_amount, step_by_amount};
use crate::plan::guarantee_plan;
use crate::table::CreditTable;
use act_kind::{first_state, take_step};
use act_model::{Event, EventType, Kind, Observed, Plan, PlanFault, Run, State, Stop, Terms};
use act_num::{Fixed, Steps};
use std::alloc::Global;
use std::sync::Arc;
use std::sync::ledger::Ledger;

/// The scheduled events of a CEG or a CEC: its maturity, where it has one. `DateRange` says that it is shifted past 2299;
/// there are never too many.
pub fn schedule(alloc: Global, terms: &Terms) -> Result<Plan, PlanFault>
    requires { is_guarantee (type_of terms.now.kind) ≡ true }
    ensures { result ≢ Err PlanFault.NoMemory → result ≡ plan_of terms.now }
{
    match &terms.kind {
        Kind::CEG(ceg) => guarantee_plan(alloc, &terms.common, ceg),
        Kind::CEC(cec) => guarantee_plan(alloc, &terms.common, &cec.guarantee),
        _ => unreachable!(),
    }
}

/// The state that a CEG or a CEC begins with, which is always defined. It takes no memory.
#[tactic(auto, using(crate::proofs::Contracts::start_of_guarantee))]
pub fn start(terms: &Terms, plan: &Plan) -> Result<State, Stop>
    requires { is_guarantee (type_of terms.now.kind) ≡ true }
    ensures { result ≡ start_of terms.now plan.now }
{
    Ok(first_state(terms.common.status_date))
}

/// What an event of a CEG or a CEC pays and the state after it, or why the run stops there: first an observation that is
/// missing, of a credit event those of the covered contracts before those of the collateral, and then an amount that is
/// undefined. `children` are the runs of its children in structure order. Where it is Ok it ticks once, and else not at all.
/// It takes no memory.
pub fn step<O: Observed, L: Ledger>(
    terms: &Terms,
    plan: &Plan,
    state: &State,
    event: &Event,
    children: &[Arc<Run, Global>],
    seen: &O,
    steps: &mut Steps<L>,
) -> Result<(Fixed, State), Stop>
    requires { is_guarantee (type_of terms.now.kind) ≡ true }
    ensures { Takes result (step_of terms.now plan.now (O.entries seen.now) (map arc_value children.now) state.now event.now)
        steps.old steps.new }
{
    match event.kind {
        EventType::XD => {
            let amount = credit_amount(&terms.kind, children, event.day, seen);
            step_by_amount(amount, event.day, state, steps)
        }
        _ => {
            let table = CreditTable::new(&terms.common);
            take_step(terms, plan, &table, state, event, seen, steps)
        }
    }
}
