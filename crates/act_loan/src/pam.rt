//! PAM: a loan whose notional is paid back at maturity.
ghost use Rattle.std.specs.Prelude.{◌≡◌, ◌≢◌, [], IfOk, None, Some, Ok, Err};
ghost use Rattle.act_kind.specs.Takes.{Takes};
ghost use Rattle.act_kind.specs.Types.{AreTypes, IsAnswer};
ghost use Rattle.act_loan.specs.Tables.{IsTableOf};
ghost use Rattle.act_profile.specs.Built.{CyclesLeadOn, IsBuilt};
ghost use Rattle.act_model.specs.Kind.{type_of};
ghost use Rattle.act_profile.specs.LoanPlan.{loan_dates};
ghost use Rattle.act_profile.specs.LoanTerms.{loan_terms_of};
ghost use Rattle.act_profile.specs.Plan.{plan_of};
ghost use Rattle.act_profile.specs.Steps.{start_of, step_of};

use crate::steps::{start_loan, step_loan};
use crate::table::LoanTable;
use crate::terms::LoanTerms;
use act_kind::Planned;
use act_model::{ContractType, Event, Kind, Observed, Plan, PlanFault, State, Stop, Terms};
use act_num::{Fixed, Steps};
use std::alloc::{AllocError, Global};
use std::sync::ledger::Ledger;

/// The scheduled events of a PAM. `TooManyDates` comes where there are more than 4,096, `DateRange` where a date leaves
/// 1900 to 2299, and of both the one whose type of event comes first.
pub fn schedule(alloc: Global, terms: &Terms) -> Result<Plan, PlanFault>
    requires kind { type_of terms.now.kind ≡ ContractType.PAM }
    requires built { IsBuilt terms.now.kind }
    ensures { result ≢ Err PlanFault.NoMemory → result ≡ plan_of terms.now }
{
    let loan = loan_terms(terms);
    match dates_by_type(alloc, &loan) {
        Ok(types) => loan.plan_by_types(alloc, &types),
        Err(_) => Err(PlanFault::NoMemory),
    }
}

/// The state that a PAM begins with, or an overflow at its initial exchange on the status date where that is undefined.
/// It takes no memory.
pub fn start(terms: &Terms, plan: &Plan) -> Result<State, Stop>
    requires kind { type_of terms.now.kind ≡ ContractType.PAM }
    requires built { IsBuilt terms.now.kind }
    requires plan { plan_of terms.now ≡ Ok plan.now }
    ensures { result ≡ start_of terms.now plan.now }
{
    start_loan(terms, &loan_terms(terms), plan)
}

/// What an event of a PAM pays and the state after it, or why the run stops there: first an observation that is
/// missing, and then an amount that is undefined. Where it is Ok it ticks once, and else not at all. It takes no memory.
pub fn step<O: Observed, L: Ledger>(
    terms: &Terms,
    plan: &Plan,
    state: &State,
    event: &Event,
    seen: &O,
    steps: &mut Steps<L>,
) -> Result<(Fixed, State), Stop>
    requires kind { type_of terms.now.kind ≡ ContractType.PAM }
    requires plan { plan_of terms.now ≡ Ok plan.now }
    ensures { Takes result (step_of terms.now plan.now (O.entries seen.now) [] state.now event.now) steps.old steps.new }
{
    step_loan(
        terms,
        &loan_table(terms, plan),
        plan,
        state,
        event,
        seen,
        steps,
    )
}

/// The table of a PAM's steps, which is made once for all its events.
#[tactic(auto, using(crate::proofs::Contracts::periods_of))]
pub fn loan_table<'a>(terms: &'a Terms, plan: &'a Plan) -> LoanTable<'a>
    requires kind { type_of terms.now.kind ≡ ContractType.PAM }
    requires plan { plan_of terms.now ≡ Ok plan.now }
    ensures { IsTableOf result terms.now plan.now }
{
    LoanTable::new(loan_terms(terms), plan)
}

/// The terms of a PAM as a loan's.
fn loan_terms(terms: &Terms) -> LoanTerms<'_>
    requires { type_of terms.now.kind ≡ ContractType.PAM }
    ensures loan { loan_terms_of terms.now.common terms.now.kind ≡ Some result }
    ensures kind { result.type ≡ ContractType.PAM }
    ensures redemption { result.redemption ≡ None }
    ensures cycles { IsBuilt terms.now.kind → CyclesLeadOn result }
{
    match &terms.kind {
        Kind::PAM(pam) => LoanTerms::of_pam(&terms.common, pam),
        _ => unreachable!(),
    }
}

/// The dates of each type of event. A PAM has no PR, PRF and IPCB.
fn dates_by_type(
    alloc: Global,
    loan: &LoanTerms<'_>,
) -> Result<Vec<Result<Vec<Planned>, PlanFault>>, AllocError>
    requires kind { loan.now.type ≡ ContractType.PAM }
    requires redemption { loan.now.redemption ≡ None }
    requires cycles { CyclesLeadOn loan.now }
    ensures { IfOk result (λ types. AreTypes types.items (loan_dates loan.now)) }
{
    Ok(vec![in alloc;
        loan.exchanges(alloc),
        loan.purchases(alloc),
        loan.terminations(alloc),
        no_dates(alloc),
        loan.capitalizations(alloc),
        loan.interest_payments(alloc),
        loan.fees(alloc),
        loan.resets(alloc),
        no_dates(alloc),
        no_dates(alloc),
        loan.scalings(alloc),
        loan.maturities(alloc),
    ]?)
}

/// The dates of a type of event that a PAM doesn't have.
fn no_dates(alloc: Global) -> Result<Vec<Planned>, PlanFault>
    ensures { IsAnswer result (Some []) }
{
    Ok(Vec::new(alloc))
}
