//! The start and the steps of a loan, whatever its kind.
ghost use Rattle.std.specs.Prelude.{◌≡◌, [], Some, Ok};
ghost use Rattle.act_kind.specs.Takes.{Takes, with_state};
ghost use Rattle.act_loan.specs.Tables.{IsTableOf};
ghost use Rattle.act_profile.specs.Built.{CyclesLeadOn};
ghost use Rattle.act_profile.specs.LoanPlan.{loan_plan};
ghost use Rattle.act_profile.specs.LoanTerms.{loan_terms_of};
ghost use Rattle.act_profile.specs.Plan.{plan_of};
ghost use Rattle.act_profile.specs.Steps.{start_of, step_of};

use crate::table::LoanTable;
use crate::terms::LoanTerms;
use act_kind::{advance, with_state};
use act_model::{Event, EventType, Observed, Plan, State, Stop, Terms};
use act_num::{Fixed, Steps};
use std::sync::ledger::Ledger;

/// The state that a loan begins with, by its terms as a loan's, or an overflow at its initial exchange on the status
/// date where that is undefined. It takes no memory.
#[tactic(auto, using(crate::proofs::Contracts::periods_of))]
pub fn start_loan(terms: &Terms, loan: &LoanTerms<'_>, plan: &Plan) -> Result<State, Stop>
    requires loan { loan_terms_of terms.now.common terms.now.kind ≡ Some loan.now }
    requires cycles { CyclesLeadOn loan.now }
    requires plan { plan_of terms.now ≡ Ok plan.now }
    ensures { result ≡ start_of terms.now plan.now }
{
    match loan.first_state(plan) {
        Some(state) => Ok(state),
        None => Err(Stop::Overflow {
            day: terms.common.status_date,
            kind: EventType::IED,
        }),
    }
}

/// What an event of a loan pays and the state after it, or why the run stops there, by the loan's table. Where it is Ok it
/// ticks once, and else not at all. It takes no memory.
pub fn step_loan<O: Observed, L: Ledger>(
    terms: &Terms,
    table: &LoanTable<'_>,
    plan: &Plan,
    state: &State,
    event: &Event,
    seen: &O,
    steps: &mut Steps<L>,
) -> Result<(Fixed, State), Stop>
    requires { IsTableOf table.now terms.now plan.now }
    ensures { Takes result (step_of terms.now plan.now (O.entries seen.now) [] state.now event.now) steps.old steps.new }
{
    let mut next = *state;
    let taken = advance_loan(terms, table, plan, &mut next, event, seen, steps);
    with_state(next, taken)
}

/// Takes the step of an event of a loan, by the loan's table, in place: the state becomes the one after the event, and what
/// the event pays is answered, in one tick. Or it is answered why the run stops there, in no tick, and the state is of no
/// use. It takes no memory.
#[inline(always)]
pub fn advance_loan<O: Observed, L: Ledger>(
    terms: &Terms,
    table: &LoanTable<'_>,
    plan: &Plan,
    state: &mut State,
    event: &Event,
    seen: &O,
    steps: &mut Steps<L>,
) -> Result<Fixed, Stop>
    requires { IsTableOf table.now terms.now plan.now }
    ensures { Takes (with_state state.new result) (step_of terms.now plan.now (O.entries seen.now) [] state.old event.now) steps.old steps.new }
{
    advance(terms, plan, table, state, event, seen, steps)
}
