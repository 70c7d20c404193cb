//! The exposures to covered contracts, by their states.
ghost use Rattle.std.specs.Prelude.{◌≡◌, int_le, map};
ghost use Rattle.std.specs.Arc.{arc_value};
ghost use Rattle.act_credit.specs.Amounts.{exposure_on, last_state};
ghost use Rattle.act_profile.specs.Contract.{is_loan_type};
ghost use Rattle.act_profile.specs.Credit.{exposure_by, interest_to, state_on, sum_of, with_interest};
ghost use Rattle.act_profile.specs.Formula.{plus};
ghost use Rattle.act_profile.specs.Legs.{child};
ghost use Rattle.act_profile.specs.Loan.{interest_base};

use act_date::{Day, year_frac};
use act_model::{ContractType, Covered, GuaranteedExposure, Row, Rows, Run, State};
use act_num::Fixed;
use std::alloc::Global;
use std::sync::Arc;

/// The sum of the exposures to contracts, by their states on a day: after their rows dated not after it. None where a
/// state is undefined or an amount is out of range.
pub(crate) fn sum_of_exposures(
    exposure: GuaranteedExposure,
    covered: &[Covered],
    children: &[Arc<Run, Global>],
    day: Day,
) -> Option<Fixed>
    ensures { result ≡ sum_of (map (exposure_on exposure (map arc_value children.now) day) covered.now) }
{
    let mut sum = Some(Fixed::ZERO);
    'covered: for contract in covered {
        sum = plus(sum, exposure_on(exposure, children, day, contract));
    }
    sum
}

/// The sum of two amounts, where both are defined and it is in range.
pub(crate) fn plus(a: Option<Fixed>, b: Option<Fixed>) -> Option<Fixed>
    ensures { result ≡ plus a b }
{
    a?.add(b?)
}

/// The exposure to a covered contract by its state on a day.
fn exposure_on(
    exposure: GuaranteedExposure,
    children: &[Arc<Run, Global>],
    day: Day,
    covered: &Covered,
) -> Option<Fixed>
    ensures { result ≡ exposure_on exposure (map arc_value children.now) day covered.now }
{
    let state = state_on(children, day, covered)?;
    exposure_by(exposure, covered, day, &state)
}

/// The exposure to a covered contract by its state: its notional, or that with the interest accrued.
fn exposure_by(
    exposure: GuaranteedExposure,
    covered: &Covered,
    day: Day,
    state: &State,
) -> Option<Fixed>
    ensures { result ≡ exposure_by exposure covered.now day state.now }
{
    match exposure {
        GuaranteedExposure::NI => with_interest(covered, day, state),
        _ => Some(state.nt.abs()),
    }
}

/// The magnitude of the notional of a loan with its interest accrued up to a day, or of the notional of another contract.
fn with_interest(covered: &Covered, day: Day, state: &State) -> Option<Fixed>
    ensures { result ≡ with_interest covered.now (is_loan_type covered.now.kind) day state.now }
{
    if !is_loan_type(covered.kind) {
        return Some(state.nt.abs());
    }
    let accrued = state.nt.add(state.ipac)?;
    Some(accrued.add(interest_to(covered, day, state)?)?.abs())
}

/// Whether contracts of a type are loans.
fn is_loan_type(kind: ContractType) -> bool
    ensures { result ≡ is_loan_type kind }
{
    matches!(
        kind,
        ContractType::PAM | ContractType::LAM | ContractType::NAM | ContractType::ANN
    )
}

/// The interest of a covered loan from Sd to a day, by its own terms.
fn interest_to(covered: &Covered, day: Day, state: &State) -> Option<Fixed>
    ensures { result ≡ interest_to covered.now covered.now.count day state.now }
{
    let since = state.sd.unwrap_or(day);
    let part = year_frac(
        covered.count?,
        covered.calendar,
        since,
        day,
        covered.maturity,
    );
    interest_base(covered.kind, state).mul_frac(state.ipnr, part.num, part.den)
}

/// What the interest of a loan is computed on: the notional of a PAM, and the base of the others.
fn interest_base(kind: ContractType, state: &State) -> Fixed
    ensures { result ≡ interest_base kind state.now }
{
    match kind {
        ContractType::PAM => state.nt,
        _ => state.ipcb,
    }
}

/// The state of a covered contract on a day: after its rows dated not after it, or its starting state where there is none.
fn state_on(children: &[Arc<Run, Global>], day: Day, covered: &Covered) -> Option<State>
    ensures { result ≡ state_on (map arc_value children.now) day covered.now }
{
    match last_state_of(children, covered.child, day) {
        Some(state) => Some(state),
        None => covered.start.ok(),
    }
}

/// The state of a child after its rows dated not after a day, where there is one.
fn last_state_of(children: &[Arc<Run, Global>], place: u32, day: Day) -> Option<State>
    ensures { result ≡ last_state (child (map arc_value children.now) place).rows day }
{
    match children.get(place as usize) {
        Some(child) => last_state(&child.rows, day),
        None => None,
    }
}

/// The state after the last of the rows dated not after a day, from the end back.
fn last_state(rows: &Rows, day: Day) -> Option<State>
    ensures { result ≡ last_state rows.now day }
{
    let mut left = rows.count();
    'rows: while left > 0 {
        left -= 1;
        let row = rows.row(left);
        if is_until(&row, day) {
            return Some(row.state);
        }
    }
    None
}

/// Whether a row is dated not after a day.
fn is_until(row: &Row, day: Day) -> bool
    ensures { result ≡ int_le row.now.day day }
{
    row.day <= day
}
