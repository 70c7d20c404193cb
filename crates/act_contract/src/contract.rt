//! The calls of each kind.
ghost use Rattle.std.specs.Prelude.{◌≡◌, ◌≢◌, true, false, map, None, Ok, Err, IfSome};
ghost use Rattle.std.specs.Arc.{arc_value};
ghost use Rattle.act_amort.specs.Kinds.{amortizes};
ghost use Rattle.act_credit.specs.Kinds.{is_guarantee};
ghost use Rattle.act_equity.specs.Kinds.{is_stock_or_outright};
ghost use Rattle.act_kind.specs.Takes.{Takes, with_state};
ghost use Rattle.act_loan.specs.Tables.{IsTableOf};
ghost use Rattle.act_model.specs.Kind.{type_of};
ghost use Rattle.act_option.specs.Kinds.{is_exercised};
ghost use Rattle.act_profile.specs.Built.{IsBuilt};
ghost use Rattle.act_profile.specs.Contract.{is_loan_type};
ghost use Rattle.act_profile.specs.Maturity.{maturity_of};
ghost use Rattle.act_profile.specs.Plan.{plan_of};
ghost use Rattle.act_profile.specs.Steps.{currency_of, own_currency, start_of, step_of};
ghost use Rattle.act_swap.specs.Kinds.{is_swap_or_cap};

use act_date::Day;
use act_kind::with_state;
use act_loan::{LoanTable, advance_loan};
use act_model::{
    Common, ContractType, Event, Kind, Observed, Plan, PlanFault, Run, State, Stop, Terms,
};
use act_num::{Fixed, Steps};
use std::alloc::Global;
use std::sync::Arc;
use std::sync::ledger::Ledger;

/// The crates that kinds are in.
#[derive(Clone, Copy)]
enum Family {
    /// act_loan: PAM.
    Loan,
    /// act_amort: LAM, NAM and ANN.
    Amortizing,
    /// act_equity: STK and FXOUT.
    Equity,
    /// act_swap: SWPPV, SWAPS and CAPFL.
    Swap,
    /// act_option: OPTNS and FUTUR.
    Option,
    /// act_credit: CEG and CEC.
    Credit,
}

/// The crate that a kind is in.
fn family_of(kind: &Kind) -> Family
    ensures loan { result ≡ Family.Loan → type_of kind.now ≡ ContractType.PAM }
    ensures amortizing { result ≡ Family.Amortizing → amortizes (type_of kind.now) ≡ true }
    ensures equity { result ≡ Family.Equity → is_stock_or_outright (type_of kind.now) ≡ true }
    ensures swap { result ≡ Family.Swap → is_swap_or_cap (type_of kind.now) ≡ true }
    ensures option { result ≡ Family.Option → is_exercised (type_of kind.now) ≡ true }
    ensures credit { result ≡ Family.Credit → is_guarantee (type_of kind.now) ≡ true }
{
    match kind {
        Kind::PAM(_) => Family::Loan,
        Kind::LAM(_) | Kind::NAM(_) | Kind::ANN(_) => Family::Amortizing,
        Kind::STK(_) | Kind::FXOUT(_) => Family::Equity,
        Kind::SWPPV(_) | Kind::SWAPS(_) | Kind::CAPFL(_) => Family::Swap,
        Kind::OPTNS(_) | Kind::FUTUR(_) => Family::Option,
        Kind::CEG(_) | Kind::CEC(_) => Family::Credit,
    }
}

/// The scheduled events of a contract. `TooManyDates` comes where there are more than 4,096, `DateRange` where a date
/// leaves 1900 to 2299, and of both the one whose type of event comes first.
pub fn schedule(alloc: Global, terms: &Terms) -> Result<Plan, PlanFault>
    requires { IsBuilt terms.now.kind }
    ensures { result ≢ Err PlanFault.NoMemory → result ≡ plan_of terms.now }
{
    match family_of(&terms.kind) {
        Family::Loan => act_loan::schedule(alloc, terms),
        Family::Amortizing => act_amort::schedule(alloc, terms),
        Family::Equity => act_equity::schedule(alloc, terms),
        Family::Swap => act_swap::schedule(alloc, terms),
        Family::Option => act_option::schedule(alloc, terms),
        Family::Credit => act_credit::schedule(alloc, terms),
    }
}

/// The state that a contract begins with, or an overflow at its initial exchange on the status date where that is
/// undefined. It takes no memory.
pub fn start(terms: &Terms, plan: &Plan) -> Result<State, Stop>
    requires built { IsBuilt terms.now.kind }
    requires plan { plan_of terms.now ≡ Ok plan.now }
    ensures { result ≡ start_of terms.now plan.now }
{
    match family_of(&terms.kind) {
        Family::Loan => act_loan::start(terms, plan),
        Family::Amortizing => act_amort::start(terms, plan),
        Family::Equity => act_equity::start(terms, plan),
        Family::Swap => act_swap::start(terms, plan),
        Family::Option => act_option::start(terms, plan),
        Family::Credit => act_credit::start(terms, plan),
    }
}

/// The table of the steps of a loan, which is made once for all its events. None where the contract isn't a loan.
pub fn loan_table<'a>(terms: &'a Terms, plan: &'a Plan) -> Option<LoanTable<'a>>
    requires built { IsBuilt terms.now.kind }
    requires plan { plan_of terms.now ≡ Ok plan.now }
    ensures table { IfSome result (λ table. IsTableOf table terms.now plan.now) }
    ensures others { result ≡ None → is_loan_type (type_of terms.now.kind) ≡ false }
{
    match &terms.kind {
        Kind::PAM(_) => Some(act_loan::loan_table(terms, plan)),
        Kind::LAM(_) | Kind::NAM(_) | Kind::ANN(_) => Some(act_amort::loan_table(terms, plan)),
        _ => None,
    }
}

/// What an event pays and the state after it, over the runs of the contract's children, or why the run stops there: first
/// an observation that is missing, and then an amount that is undefined. Where it is Ok it ticks once, and else not at all.
/// It takes no memory.
pub fn step<O: Observed, L: Ledger>(
    terms: &Terms,
    plan: &Plan,
    state: &State,
    event: &Event,
    children: &[Arc<Run, Global>],
    seen: &O,
    steps: &mut Steps<L>,
) -> Result<(Fixed, State), Stop>
    requires built { IsBuilt terms.now.kind }
    requires plan { plan_of terms.now ≡ Ok plan.now }
    ensures { Takes result
        (step_of terms.now plan.now (O.entries seen.now) (map arc_value children.now) state.now event.now) steps.old steps.new }
{
    let table = loan_table(terms, plan);
    let mut next = *state;
    let taken = advance(terms, &table, plan, &mut next, event, children, seen, steps);
    with_state(next, taken)
}

/// Takes the step of an event, as [`step`] does, in place: the state becomes the one after the event, and what the event
/// pays is answered. Where the run stops the state is of no use. A loan's table is handed in, and None where the contract
/// isn't a loan.
#[inline(always)]
pub fn advance<O: Observed, L: Ledger>(
    terms: &Terms,
    table: &Option<LoanTable<'_>>,
    plan: &Plan,
    state: &mut State,
    event: &Event,
    children: &[Arc<Run, Global>],
    seen: &O,
    steps: &mut Steps<L>,
) -> Result<Fixed, Stop>
    requires built { IsBuilt terms.now.kind }
    requires plan { plan_of terms.now ≡ Ok plan.now }
    requires table { IfSome table.now (λ table. IsTableOf table terms.now plan.now) }
    requires others { table.now ≡ None → is_loan_type (type_of terms.now.kind) ≡ false }
    ensures { Takes (with_state state.new result)
        (step_of terms.now plan.now (O.entries seen.now) (map arc_value children.now) state.old event.now) steps.old steps.new }
{
    match table {
        Some(table) => advance_loan(terms, table, plan, state, event, seen, steps),
        None => advance_other(terms, plan, state, event, children, seen, steps),
    }
}

/// The same of a contract that is no loan.
fn advance_other<O: Observed, L: Ledger>(
    terms: &Terms,
    plan: &Plan,
    state: &mut State,
    event: &Event,
    children: &[Arc<Run, Global>],
    seen: &O,
    steps: &mut Steps<L>,
) -> Result<Fixed, Stop>
    requires built { IsBuilt terms.now.kind }
    requires plan { plan_of terms.now ≡ Ok plan.now }
    requires other { is_loan_type (type_of terms.now.kind) ≡ false }
    ensures { Takes (with_state state.new result)
        (step_of terms.now plan.now (O.entries seen.now) (map arc_value children.now) state.old event.now) steps.old steps.new }
{
    match family_of(&terms.kind) {
        Family::Swap => act_swap::advance(terms, plan, state, event, children, seen, steps),
        Family::Equity => put_in_place(
            act_equity::step(terms, plan, state, event, seen, steps),
            state,
        ),
        Family::Option => put_in_place(
            act_option::step(terms, plan, state, event, seen, steps),
            state,
        ),
        Family::Credit => put_in_place(
            act_credit::step(terms, plan, state, event, children, seen, steps),
            state,
        ),
        Family::Loan | Family::Amortizing => unreachable!(),
    }
}

/// Makes a state the one that a step answers, and answers what the event pays.
fn put_in_place(taken: Result<(Fixed, State), Stop>, state: &mut State) -> Result<Fixed, Stop>
    ensures { with_state state.new result ≡ taken }
{
    match taken {
        Ok((payoff, next)) => {
            *state = next;
            Ok(payoff)
        }
        Err(stop) => Err(stop),
    }
}

/// The currency of an event's payoff, by its number; of a child's row it is that row's.
pub fn currency_of(terms: &Terms, children: &[Arc<Run, Global>], event: &Event) -> u32
    ensures { result ≡ currency_of terms.now (map arc_value children.now) event.now }
{
    match &terms.kind {
        Kind::FXOUT(_) => act_equity::currency_of(terms, event),
        Kind::SWAPS(_) | Kind::CAPFL(_) => act_swap::currency_of(terms, children, event),
        _ => own_currency(&terms.common),
    }
}

/// The maturity of a contract, where it has one; of a LAM that gives none the derived one.
#[tactic(auto, unfolding(act_profile::specs::Maturity::maturity_of))]
pub fn maturity(terms: &Terms) -> Option<Day>
    requires { IsBuilt terms.now.kind }
    ensures { result ≡ maturity_of terms.now }
{
    match &terms.kind {
        Kind::PAM(pam) => Some(pam.maturity_date),
        Kind::LAM(lam) => act_amort::maturity_of(lam).ok(),
        Kind::NAM(nam) => Some(nam.maturity_date),
        Kind::ANN(ann) => Some(ann.maturity_date),
        Kind::STK(_) | Kind::SWAPS(_) => None,
        Kind::FXOUT(fxout) => Some(fxout.maturity_date),
        Kind::SWPPV(swppv) => Some(swppv.maturity_date),
        Kind::CAPFL(capfl) => capfl.maturity_date,
        Kind::OPTNS(optns) => Some(optns.maturity_date),
        Kind::FUTUR(futur) => Some(futur.maturity_date),
        Kind::CEG(ceg) => ceg.maturity_date,
        Kind::CEC(cec) => cec.guarantee.maturity_date,
    }
}

/// The settlement currency where it is given, and else the contract's.
fn own_currency(common: &Common) -> u32
    ensures { result ≡ own_currency common.now }
{
    common.settlement_currency.unwrap_or(common.currency)
}
