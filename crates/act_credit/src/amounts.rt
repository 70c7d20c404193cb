//! The amount of a credit event: first its reads, of the covered contracts and then of the collateral, and then what is
//! covered.
ghost use Rattle.std.specs.Prelude.{◌≡◌, [], true, map, pos, Some};
ghost use Rattle.std.specs.Arc.{arc_value};
ghost use Rattle.std.specs.List.{cons_option, filter_map};
ghost use Rattle.act_credit.specs.Amounts.{collateral_amount, credit_amount, exposure_read, guarantee_amount, step_by_amount, sum_read};
ghost use Rattle.act_credit.specs.Kinds.{is_guarantee};
ghost use Rattle.act_kind.specs.Takes.{Takes};
ghost use Rattle.act_model.specs.Kind.{type_of};
ghost use Rattle.act_profile.specs.Credit.{after_credit_event};
ghost use Rattle.act_profile.specs.Formula.{lesser, times};

use crate::exposures::{plus, sum_of_exposures};
use act_date::Day;
use act_kind::pass;
use act_model::{
    Cec, Ceg, Covered, EventType, GuaranteedExposure, Kind, Observed, Run, State, Stop,
};
use act_num::{Fixed, Steps};
use std::alloc::Global;
use std::sync::Arc;
use std::sync::ledger::Ledger;

/// The amount of a credit event: a stop at the first read that finds nothing, and None where it is undefined.
pub(crate) fn credit_amount<O: Observed>(
    kind: &Kind,
    children: &[Arc<Run, Global>],
    day: Day,
    seen: &O,
) -> Result<Option<Fixed>, Stop>
    requires { is_guarantee (type_of kind.now) ≡ true }
    ensures { result ≡ credit_amount (O.entries seen.now) (map arc_value children.now) day kind.now }
{
    match kind {
        Kind::CEG(ceg) => guarantee_amount(ceg, children, day, seen),
        Kind::CEC(cec) => collateral_amount(cec, children, day, seen),
        _ => unreachable!(),
    }
}

/// The part of the exposure that is covered, and at most what the collateral is worth.
#[tactic(auto, using(crate::proofs::CodesRead::collateral_by_parts))]
fn collateral_amount<O: Observed>(
    collateral: &Cec,
    children: &[Arc<Run, Global>],
    day: Day,
    seen: &O,
) -> Result<Option<Fixed>, Stop>
    ensures { result ≡ collateral_amount (O.entries seen.now) collateral.now (map arc_value children.now) day }
{
    match guarantee_amount(&collateral.guarantee, children, day, seen) {
        Ok(covered) => Ok(lesser(covered, worth(&collateral.covering, day, seen)?)),
        Err(stop) => Err(stop),
    }
}

/// The part of the exposure that is covered.
#[tactic(auto, using(crate::proofs::CodesRead::covered_by_exposure))]
fn guarantee_amount<O: Observed>(
    guarantee: &Ceg,
    children: &[Arc<Run, Global>],
    day: Day,
    seen: &O,
) -> Result<Option<Fixed>, Stop>
    ensures { result ≡ guarantee_amount (O.entries seen.now) guarantee.now (map arc_value children.now) day }
{
    match total_exposure(guarantee, children, day, seen) {
        Ok(exposure) => Ok(part(guarantee.coverage_of_credit_enhancement, exposure)),
        Err(stop) => Err(stop),
    }
}

/// A part of an amount.
fn part(coverage: Fixed, amount: Option<Fixed>) -> Option<Fixed>
    ensures { result ≡ times (Some coverage) amount }
{
    coverage.mul(amount?)
}

/// The lesser of two amounts, where both are defined.
fn lesser(a: Option<Fixed>, b: Option<Fixed>) -> Option<Fixed>
    ensures { result ≡ lesser a b }
{
    Some(a?.min(b?))
}

/// The exposure to all covered contracts: by their states, or by the values of their market objects.
fn total_exposure<O: Observed>(
    guarantee: &Ceg,
    children: &[Arc<Run, Global>],
    day: Day,
    seen: &O,
) -> Result<Option<Fixed>, Stop>
    ensures { result ≡ exposure_read (O.entries seen.now) guarantee.now (map arc_value children.now) day }
{
    let covered = &guarantee.covered;
    match guarantee.guaranteed_exposure {
        GuaranteedExposure::MV => market_value(covered, day, seen),
        by_states => Ok(sum_of_exposures(by_states, covered, children, day)),
    }
}

/// The sum of the magnitudes of the values of contracts' market objects on a day.
fn market_value<O: Observed>(covered: &[Covered], day: Day, seen: &O) -> Result<Option<Fixed>, Stop>
    ensures { result ≡ sum_read (O.entries seen.now) day (Some (pos 0)) (filter_map (λ c. c.market) covered.now) }
{
    let mut sum = Some(Fixed::ZERO);
    'covered: for contract in covered {
        match sum_with(sum, contract.market, day, seen) {
            Ok(next) => sum = next,
            Err(stop) => return Err(stop),
        }
    }
    Ok(sum)
}

/// The sum of the magnitudes of the values of codes on a day.
fn worth<O: Observed>(codes: &[u32], day: Day, seen: &O) -> Result<Option<Fixed>, Stop>
    ensures { result ≡ sum_read (O.entries seen.now) day (Some (pos 0)) codes.now }
{
    let mut sum = Some(Fixed::ZERO);
    'codes: for code in codes {
        match sum_with(sum, Some(*code), day, seen) {
            Ok(next) => sum = next,
            Err(stop) => return Err(stop),
        }
    }
    Ok(sum)
}

/// A sum, and added to it the magnitude of the value of a code on a day, where there is a code to read.
#[tactic(auto, unfolding(act_profile::specs::Credit::reading_all))]
fn sum_with<O: Observed>(
    sum: Option<Fixed>,
    code: Option<u32>,
    day: Day,
    seen: &O,
) -> Result<Option<Fixed>, Stop>
    ensures { result ≡ sum_read (O.entries seen.now) day sum (cons_option code []) }
{
    let Some(code) = code else {
        return Ok(sum);
    };
    match seen.value(code, day) {
        Some(value) => Ok(plus(sum, Some(value.abs()))),
        None => Err(Stop::Missing { code, day }),
    }
}

/// The step of a credit event by its amount. Where it is Ok it ticks once, and else not at all.
pub(crate) fn step_by_amount<L: Ledger>(
    amount: Result<Option<Fixed>, Stop>,
    day: Day,
    state: &State,
    steps: &mut Steps<L>,
) -> Result<(Fixed, State), Stop>
    ensures { Takes result (step_by_amount day state.now amount) steps.old steps.new }
{
    match after_credit_event(day, amount?, state) {
        Some(taken) => {
            steps.tick();
            Ok(taken)
        }
        None => Err(Stop::Overflow {
            day,
            kind: EventType::XD,
        }),
    }
}

/// What a credit event pays, which is nothing yet, and the state after it, or None where its amount is undefined.
fn after_credit_event(day: Day, amount: Option<Fixed>, state: &State) -> Option<(Fixed, State)>
    ensures { result ≡ after_credit_event day amount state.now }
{
    let xa = amount?;
    let mut next = *state;
    pass(EventType::XD, day, &mut next);
    next.xa = xa;
    next.xd = Some(day);
    Some((Fixed::ZERO, next))
}
