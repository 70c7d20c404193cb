//! The calls of LAM, NAM and ANN.
ghost use Rattle.std.specs.Prelude.{◌≡◌, ◌≢◌, [], true, Ok, Err};
ghost use Rattle.act_amort.specs.Kinds.{amortizes};
ghost use Rattle.act_kind.specs.Takes.{Takes};
ghost use Rattle.act_loan.specs.Tables.{IsTableOf};
ghost use Rattle.act_model.specs.Kind.{type_of};
ghost use Rattle.act_profile.specs.Built.{CyclesLeadOn, IsBuilt};
ghost use Rattle.act_profile.specs.LoanPlan.{loan_plan};
ghost use Rattle.act_profile.specs.Plan.{plan_of};
ghost use Rattle.act_profile.specs.Steps.{start_of, step_of};

use crate::planning::dates_by_type;
use crate::terms::{loan_terms, planned_terms};
use act_loan::{LoanTable, LoanTerms, start_loan, step_loan};
use act_model::{Event, Observed, Plan, PlanFault, State, Stop, Terms};
use act_num::{Fixed, Steps};
use std::alloc::Global;
use std::sync::ledger::Ledger;

/// The scheduled events of a LAM, a NAM or an ANN. `TooManyDates` comes where there are more than 4,096, or more than
/// 4,096 redemptions of a LAM without a maturity; `DateRange` where a date leaves 1900 to 2299, or the maturity that a
/// LAM's payment leads to isn't after its initial exchange. The faults of that maturity come first, then the one whose
/// type of event does.
#[tactic(auto, using(crate::proofs::LoanPlans::plan_of_terms))]
pub fn schedule(alloc: Global, terms: &Terms) -> Result<Plan, PlanFault>
    requires kind { amortizes (type_of terms.now.kind) ≡ true }
    requires built { IsBuilt terms.now.kind }
    ensures { result ≢ Err PlanFault.NoMemory → result ≡ plan_of terms.now }
{
    match loan_terms(terms) {
        Ok(loan) => plan(alloc, &loan),
        Err(fault) => Err(fault),
    }
}

/// The plan of a loan.
fn plan(alloc: Global, loan: &LoanTerms) -> Result<Plan, PlanFault>
    requires { CyclesLeadOn loan.now }
    ensures { result ≢ Err PlanFault.NoMemory → result ≡ loan_plan loan.now }
{
    match dates_by_type(alloc, loan) {
        Ok(types) => loan.plan_by_types(alloc, &types),
        Err(_) => Err(PlanFault::NoMemory),
    }
}

/// The state that a LAM, a NAM or an ANN begins with, or an overflow at its initial exchange on the status date where
/// that is undefined. It takes no memory.
pub fn start(terms: &Terms, plan: &Plan) -> Result<State, Stop>
    requires kind { amortizes (type_of terms.now.kind) ≡ true }
    requires built { IsBuilt terms.now.kind }
    requires plan { plan_of terms.now ≡ Ok plan.now }
    ensures { result ≡ start_of terms.now plan.now }
{
    start_loan(terms, &planned_terms(terms, plan), plan)
}

/// What an event of a LAM, a NAM or an ANN pays and the state after it, or why the run stops there: first an observation
/// that is missing, and then an amount that is undefined. Where it is Ok it ticks once, and else not at all. It takes no
/// memory.
pub fn step<O: Observed, L: Ledger>(
    terms: &Terms,
    plan: &Plan,
    state: &State,
    event: &Event,
    seen: &O,
    steps: &mut Steps<L>,
) -> Result<(Fixed, State), Stop>
    requires kind { amortizes (type_of terms.now.kind) ≡ true }
    requires built { IsBuilt terms.now.kind }
    requires plan { plan_of terms.now ≡ Ok plan.now }
    ensures { Takes result (step_of terms.now plan.now (O.entries seen.now) [] state.now event.now) steps.old steps.new }
{
    step_loan(
        terms,
        &loan_table(terms, plan),
        plan,
        state,
        event,
        seen,
        steps,
    )
}

/// The table of the steps of a LAM, a NAM or an ANN, which is made once for all its events.
#[tactic(auto, using(act_loan::proofs::Contracts::periods_of))]
pub fn loan_table<'a>(terms: &'a Terms, plan: &'a Plan) -> LoanTable<'a>
    requires kind { amortizes (type_of terms.now.kind) ≡ true }
    requires built { IsBuilt terms.now.kind }
    requires plan { plan_of terms.now ≡ Ok plan.now }
    ensures { IsTableOf result terms.now plan.now }
{
    LoanTable::new(planned_terms(terms, plan), plan)
}
