//! The run of a loan, or of one that stands for another contract.
ghost use Rattle.std.specs.Prelude.{◌≡◌, ◌<◌, Ok, IsNone};
ghost use Rattle.act_profile.specs.Built.{IsBuilt};
ghost use Rattle.act_profile.specs.Plan.{plan_of};

use act_contract::schedule;
use act_date::parse_day;
use act_model::{Common, Kind, Listed, Loan, Names, Obs, ObsKind, Pam, Plan, Run, Terms};
use act_num::{Fixed, NoMemory, Steps};
use act_portfolio::Portfolio;
use act_run::{Inputs, evaluate};
use act_text::{close_line, row_line};
use cases_rows::{Case, number_of, rows_told};
use std::alloc::Global;
use std::marker::Brand;
use std::sync::ledger::{Blank, Ledger};

/// Tells the rows of a portfolio's first loan as the contract of a number that stands for that of another one, or for itself.
pub fn shadow_told(case: &mut Case<'_>, portfolio: &Portfolio) {
    let contract = case.count();
    let underlying = match case.word() {
        "-" => None,
        word => Some(case.count_of(word)),
    };
    if let Some(loan) = portfolio.terms().first() {
        if let Kind::PAM(pam) = &loan.kind {
            return loan_told(case, &shadow(&loan.common, pam, contract, underlying));
        }
    }
    case.fail("no loan");
}

/// The terms of a loan with another number, as those of another contract's shadow, and with no cycles.
fn shadow(common: &Common, pam: &Pam, contract: u32, underlying: Option<u32>) -> Terms
    ensures { IsBuilt result.kind }
{
    let mut common = *common;
    common.contract = contract;
    common.underlying = underlying;
    Terms {
        common,
        kind: Kind::PAM(Pam {
            maturity_date: pam.maturity_date,
            loan: without_cycles(&pam.loan),
        }),
    }
}

fn without_cycles(loan: &Loan) -> Loan
    ensures interest { IsNone result.cycle_of_interest_payment }
    ensures reset { IsNone result.rate_reset.cycle_of_rate_reset }
    ensures fee { IsNone result.fee.cycle_of_fee }
    ensures scaling { IsNone result.scaling.cycle_of_scaling_index }
{
    let mut loan = *loan;
    loan.cycle_of_interest_payment = None;
    loan.rate_reset.cycle_of_rate_reset = None;
    loan.fee.cycle_of_fee = None;
    loan.scaling.cycle_of_scaling_index = None;
    loan
}

/// Tells the rows of a loan over what is seen: contract 0 prepays 100 on the last day, and defaults.
fn loan_told(case: &mut Case<'_>, loan: &Terms)
    requires { IsBuilt loan.now.kind }
{
    let entries = entries(case.alloc);
    match schedule(case.alloc, loan) {
        Ok(plan) => match run::<Brand>(case.alloc, loan, &plan, entries, Blank::new(1)) {
            Some(run) => run_told(case, &run),
            None => case.fail("memory ran out"),
        },
        Err(_) => case.fail("no plan"),
    }
}

/// What the parties of contract 0 did.
fn entries(alloc: Global) -> Option<Listed> {
    let day = parse_day(b"2021-01-01").ok()?;
    let prepayment = Obs::Event {
        contract: 0,
        kind: ObsKind::PP,
        day,
        value: Fixed::from_units(100_000_000_000)?,
    };
    let default = Obs::Event {
        contract: 0,
        kind: ObsKind::DF,
        day,
        value: Fixed::ZERO,
    };
    Some(Listed::new(vec![in alloc; prepayment, default].ok()?))
}

/// The run of a loan, counted in a ledger of its own.
fn run<L: Ledger>(
    alloc: Global,
    loan: &Terms,
    plan: &Plan,
    seen: Option<Listed>,
    blank: Blank,
) -> Option<Run>
    requires built { IsBuilt loan.now.kind }
    requires plan { plan_of loan.now ≡ Ok plan.now }
    requires name { blank.name ≡ L.name }
    requires parts { blank.parts ≡ L.parts }
    requires some_parts { 0 < L.parts }
{
    let (seen, mut steps) = (seen?, Steps::<L>::new(blank));
    let inputs = Inputs {
        terms: loan,
        plan,
        children: &[],
        seen: &seen,
    };
    evaluate(alloc, &inputs, &mut steps).ok()
}

/// Tells the rows of a run, whose currency is the number 0.
fn run_told(case: &mut Case<'_>, run: &Run) {
    let mut names = Names::new(case.alloc);
    let mut lines = Vec::new(case.alloc);
    if number_of(&mut names, "currency", "0").is_none()
        || push_lines(&names, run, &mut lines).is_err()
    {
        case.fail("memory ran out");
    }
    rows_told(case, &lines, true);
}

/// Adds the lines of a run.
fn push_lines(names: &Names, run: &Run, lines: &mut Vec<u8>) -> Result<(), NoMemory> {
    for place in 0..run.rows.count() {
        row_line(names, &run.rows.row(place), lines)?;
    }
    close_line(names, &run.close, lines)
}
