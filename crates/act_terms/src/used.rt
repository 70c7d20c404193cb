//! Which names of a contract's object are terms of its type.
ghost use Rattle.std.specs.Prelude.{◌≡◌, ◌∷◌, ◌++◌, [], IfOk, OnOk, map, string_bytes};
ghost use Rattle.act_json.specs.Tree.{data_in};
ghost use Rattle.act_terms.specs.Used.{common_terms, is_among, is_term_of, own_terms, settlement_terms, shared_terms, trade_terms, unused_names};

use crate::common::may_trade;
use crate::currencies::may_settle;
use act_json::Object;
use act_model::ContractType;
use act_num::NoMemory;
use json::Value;
use std::alloc::Global;
use std::collections::BTreeSet;

/// The terms that every contract has, in the order in which they are read. All but an outright have `settlementCurrency`
/// besides, and all but guarantees purchase and termination.
const COMMON_TERMS: [&str; 9] = [
    "contractID",
    "contractType",
    "contractRole",
    "statusDate",
    "currency",
    "calendar",
    "businessDayConvention",
    "endOfMonthConvention",
    "marketObjectCode",
];

/// The terms of every loan, in the order in which they are read.
const LOAN_TERMS: [&str; 32] = [
    "initialExchangeDate",
    "maturityDate",
    "notionalPrincipal",
    "nominalInterestRate",
    "accruedInterest",
    "premiumDiscountAtIED",
    "dayCountConvention",
    "cycleAnchorDateOfInterestPayment",
    "cycleOfInterestPayment",
    "capitalizationEndDate",
    "cycleAnchorDateOfRateReset",
    "cycleOfRateReset",
    "marketObjectCodeOfRateReset",
    "nextResetRate",
    "rateSpread",
    "rateMultiplier",
    "lifeCap",
    "lifeFloor",
    "periodCap",
    "periodFloor",
    "cycleAnchorDateOfFee",
    "cycleOfFee",
    "feeRate",
    "feeBasis",
    "feeAccrued",
    "scalingEffect",
    "cycleAnchorDateOfScalingIndex",
    "cycleOfScalingIndex",
    "marketObjectCodeOfScalingIndex",
    "scalingIndexAtContractDealDate",
    "penaltyType",
    "penaltyRate",
];

/// The terms of redemption, of a loan whose principal is redeemed, in the order in which they are read.
const REDEMPTION_TERMS: [&str; 7] = [
    "cycleAnchorDateOfPrincipalRedemption",
    "cycleOfPrincipalRedemption",
    "nextPrincipalRedemptionPayment",
    "interestCalculationBase",
    "interestCalculationBaseAmount",
    "cycleAnchorDateOfInterestCalculationBase",
    "cycleOfInterestCalculationBase",
];

/// The terms of an outright, in the order in which they are read.
const OUTRIGHT_TERMS: [&str; 5] = [
    "maturityDate",
    "notionalPrincipal",
    "currency2",
    "notionalPrincipal2",
    "deliverySettlement",
];

/// The terms of an option, in the order in which they are read.
const OPTION_TERMS: [&str; 7] = [
    "maturityDate",
    "optionType",
    "optionStrike1",
    "optionStrike2",
    "optionExerciseType",
    "settlementPeriod",
    "contractStructure",
];

/// The terms of a future, in the order in which they are read.
const FUTURE_TERMS: [&str; 4] = [
    "maturityDate",
    "futuresPrice",
    "settlementPeriod",
    "contractStructure",
];

/// The terms of purchase and termination, in the order in which they are read.
const TRADE_TERMS: [&str; 4] = [
    "purchaseDate",
    "priceAtPurchaseDate",
    "terminationDate",
    "priceAtTerminationDate",
];

/// The terms of a plain swap, in the order in which they are read.
const PLAIN_SWAP_TERMS: [&str; 18] = [
    "initialExchangeDate",
    "maturityDate",
    "notionalPrincipal",
    "nominalInterestRate",
    "nominalInterestRate2",
    "dayCountConvention",
    "cycleAnchorDateOfInterestPayment",
    "cycleOfInterestPayment",
    "cycleAnchorDateOfRateReset",
    "cycleOfRateReset",
    "marketObjectCodeOfRateReset",
    "nextResetRate",
    "rateSpread",
    "rateMultiplier",
    "lifeCap",
    "lifeFloor",
    "periodCap",
    "periodFloor",
];

/// The terms of a swap of two contracts, in the order in which they are read.
const SWAP_TERMS: [&str; 2] = ["deliverySettlement", "contractStructure"];

/// The terms of a cap and floor, in the order in which they are read.
const CAP_TERMS: [&str; 4] = ["maturityDate", "lifeCap", "lifeFloor", "contractStructure"];

/// The terms of a guarantee, also by collateral, in the order in which they are read.
const GUARANTEE_TERMS: [&str; 6] = [
    "maturityDate",
    "coverageOfCreditEnhancement",
    "guaranteedExposure",
    "creditEventTypeCovered",
    "settlementPeriod",
    "contractStructure",
];

/// The names of a contract's object that aren't terms of that type, in byte order, each once and whatever its value is,
/// null and the empty text too. A value that is no object has no names. NoMemory where memory runs out.
#[tactic(auto, unfolding(crate::specs::Used::unused_names))]
pub fn unused_names(
    alloc: Global,
    contract_type: ContractType,
    contract: &Value,
) -> Result<Vec<String>, NoMemory>
    ensures { IfOk result (λ unused. map string_bytes unused.items ≡ unused_names contract_type (data_in contract.now)) }
{
    let Some(object) = Object::of(contract) else {
        return Ok(Vec::new(alloc));
    };
    let mut unused = BTreeSet::new(alloc);
    for (name, _) in object.members() {
        if !is_term_of(contract_type, name) {
            unused.insert(*name)?;
        }
    }
    copies(alloc, &unused)
}

/// Copies of names, in byte order.
fn copies(alloc: Global, names: &BTreeSet<&str>) -> Result<Vec<String>, NoMemory>
    ensures { IfOk result (λ copies. map string_bytes copies.items ≡ map (λ n. n.now) names.now.keys) }
{
    let mut copies = Vec::with_capacity(alloc, names.len())?;
    for name in names {
        copies.push(String::from_str(alloc, name)?)?;
    }
    Ok(copies)
}

/// Whether a name is a term of that type.
fn is_term_of(contract_type: ContractType, name: &str) -> bool
    ensures { result ≡ is_term_of contract_type name.now }
{
    is_shared_term(contract_type, name) || is_own_term(contract_type, name)
}

/// Whether a name is a term that the type shares with others.
fn is_shared_term(contract_type: ContractType, name: &str) -> bool
    ensures { result ≡ is_among (shared_terms contract_type) name.now }
{
    is_money_term(contract_type, name) || is_trade_term(contract_type, name)
}

/// Whether a name is a term that every contract has, or that of the settlement currency, of a type that uses it.
fn is_money_term(contract_type: ContractType, name: &str) -> bool
    ensures { result ≡ is_among (common_terms ++ settlement_terms contract_type) name.now }
{
    is_among(&COMMON_TERMS, name) || is_settlement_term(contract_type, name)
}

/// Whether a name is that of the settlement currency, of a type that uses it.
fn is_settlement_term(contract_type: ContractType, name: &str) -> bool
    ensures { result ≡ is_among (settlement_terms contract_type) name.now }
{
    may_settle(contract_type) && is_among(&["settlementCurrency"], name)
}

/// Whether a name is that of a term of purchase or termination, of a type that uses them.
fn is_trade_term(contract_type: ContractType, name: &str) -> bool
    ensures { result ≡ is_among (trade_terms contract_type) name.now }
{
    may_trade(contract_type) && is_among(&TRADE_TERMS, name)
}

/// Whether a name is a term of that type beside those that it shares with others.
fn is_own_term(contract_type: ContractType, name: &str) -> bool
    ensures { result ≡ is_among (own_terms contract_type) name.now }
{
    match contract_type {
        ContractType::PAM => is_among(&LOAN_TERMS, name),
        ContractType::LAM | ContractType::NAM | ContractType::ANN => {
            is_among(&LOAN_TERMS, name) || is_among(&REDEMPTION_TERMS, name)
        }
        ContractType::STK => false,
        ContractType::FXOUT => is_among(&OUTRIGHT_TERMS, name),
        ContractType::SWPPV => is_among(&PLAIN_SWAP_TERMS, name),
        ContractType::SWAPS => is_among(&SWAP_TERMS, name),
        ContractType::CAPFL => is_among(&CAP_TERMS, name),
        ContractType::OPTNS => is_among(&OPTION_TERMS, name),
        ContractType::FUTUR => is_among(&FUTURE_TERMS, name),
        ContractType::CEG | ContractType::CEC => is_among(&GUARANTEE_TERMS, name),
    }
}

/// Whether a name is one of some names. Only those of its length are compared with it.
#[tactic(auto, using(crate::proofs::TermNames::other_length))]
fn is_among(names: &[&str], name: &str) -> bool
    ensures { result ≡ is_among (map (λ n. n.now) names.now) name.now }
{
    names.iter().any(|n| n.len() == name.len() && *n == name)
}
