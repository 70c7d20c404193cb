//! The terms of guarantees and collateral. What they cover, and what covers it, is bound behind them, to what the contract's
//! structure refers to.
ghost use Rattle.std.specs.Prelude.{◌≡◌, ◌≢◌, [], ◌∷◌, Ok, Err, IfOk, IfErr, map};
ghost use Rattle.act_json.specs.Tree.{data_in};
ghost use Rattle.act_json.specs.Tree.{object_of};
ghost use Rattle.act_terms.specs.Credit.{cec_of, ceg_of, credit_event_in, credit_events_from, credit_events_of};

use crate::choices::{Choice, choice_in};
use crate::exercise::read_settlement_period;
use crate::fault::{TermCause, TermsFault, refused};
use crate::fields::{optional, optional_day, optional_decimal};
use act_json::Object;
use act_model::{Cec, Ceg, GuaranteedExposure, ObsKind};
use act_num::{Fixed, NoMemory};
use json::Value;
use std::alloc::Global;
use std::slice;

/// The terms of a CEG.
#[tactic(auto, unfolding(crate::specs::Credit::ceg_of))]
pub(crate) fn read_ceg(alloc: Global, contract: &Object) -> Result<Ceg, TermsFault>
    ensures read { IfOk result (λ ceg. ceg_of (object_of contract.now) ≡ Ok ceg) }
    ensures refused { IfErr result (λ fault. fault ≢ TermsFault.NoMemory → ceg_of (object_of contract.now) ≡ Err fault) }
{
    let maturity_date = optional_day(contract, "maturityDate")?;
    let coverage = optional_decimal(contract, "coverageOfCreditEnhancement")?;
    let exposure = optional(
        "guaranteedExposure",
        choice_in(contract, "guaranteedExposure"),
    )?;
    let credit_event_type_covered = read_credit_events(alloc, contract)?;
    let settlement_period = read_settlement_period(contract)?;
    Ok(Ceg {
        maturity_date,
        coverage_of_credit_enhancement: coverage.unwrap_or(Fixed::ONE),
        guaranteed_exposure: exposure.unwrap_or(GuaranteedExposure::NO),
        credit_event_type_covered,
        settlement_period,
        covered: Vec::new(alloc),
    })
}

/// The terms of a CEC: those of a guarantee.
#[tactic(auto, unfolding(crate::specs::Credit::cec_of))]
pub(crate) fn read_cec(alloc: Global, contract: &Object) -> Result<Cec, TermsFault>
    ensures read { IfOk result (λ cec. cec_of (object_of contract.now) ≡ Ok cec) }
    ensures refused { IfErr result (λ fault. fault ≢ TermsFault.NoMemory → cec_of (object_of contract.now) ≡ Err fault) }
{
    let guarantee = read_ceg(alloc, contract)?;
    Ok(Cec {
        guarantee,
        covering: Vec::new(alloc),
    })
}

/// The types of credit events that are covered: a text or a list of texts, and default where none is given.
#[tactic(auto, using(crate::proofs::Elements::listed_again), unfolding(crate::specs::Credit::credit_events_of))]
fn read_credit_events(alloc: Global, contract: &Object) -> Result<Vec<ObsKind>, TermsFault>
    ensures read { IfOk result (λ types. credit_events_of (object_of contract.now) ≡ Ok types.items) }
    ensures refused { IfErr result (λ fault. fault ≢ TermsFault.NoMemory
        → credit_events_of (object_of contract.now) ≡ Err fault) }
{
    match contract.get("creditEventTypeCovered") {
        None | Some(Value::Null) => Ok(only_default(alloc)?),
        Some(Value::String(text)) if text.is_empty() => Ok(only_default(alloc)?),
        Some(Value::Array(values)) => credit_events(alloc, values.as_slice()),
        Some(value) => credit_events(alloc, slice::from_ref(value)),
    }
}

/// Default alone.
fn only_default(alloc: Global) -> Result<Vec<ObsKind>, NoMemory>
    ensures { IfOk result (λ types. types.items ≡ ObsKind.DF ∷ []) }
{
    Ok(vec![in alloc; ObsKind::DF]?)
}

/// The types that values name, in their order.
fn credit_events(alloc: Global, values: &[Value]) -> Result<Vec<ObsKind>, TermsFault>
    ensures read { IfOk result (λ types. credit_events_from (map data_in values.now) ≡ Ok types.items) }
    ensures refused { IfErr result (λ fault. fault ≢ TermsFault.NoMemory
        → credit_events_from (map data_in values.now) ≡ Err fault) }
{
    let mut types = Vec::new(alloc);
    for value in values {
        let covered = credit_event(value)?;
        types.push(covered)?;
    }
    Ok(types)
}

/// The type that a value names.
#[tactic(auto, unfolding(crate::specs::Credit::credit_event_in))]
fn credit_event(value: &Value) -> Result<ObsKind, TermsFault>
    ensures { result ≡ credit_event_in (data_in value.now) }
{
    let Value::String(text) = value else {
        return Err(refused(TermCause::WrongShape, "creditEventTypeCovered"));
    };
    match ObsKind::named(text) {
        Some(covered) => Ok(covered),
        None => Err(refused(TermCause::BadValue, "creditEventTypeCovered")),
    }
}
