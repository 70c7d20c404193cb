//! The plans of contracts, and the names that their types don't use.
ghost use Rattle.std.specs.Prelude.{◌≡◌, ◌+◌, ◌++◌, ◌<◌, ◌≤◌, ◌^◌, Ok, Err, IfOk, IfErr, IfSome, length, map, string_bytes, zero};
ghost use Rattle.std.specs.List.{All};
ghost use Rattle.act_json.specs.Tree.{data_in};
ghost use Rattle.act_profile.specs.Plan.{plan_of};
ghost use Rattle.act_profile.specs.Built.{IsBuilt};
ghost use Rattle.act_refusal.specs.Steps.{plans_from, unused_lists};
ghost use Rattle.act_refusal.specs.Known.{IsContract};
ghost use Rattle.act_refusal.specs.Refusal.{refusal_of, refused_plan, refusing};

use crate::fault::{PortfolioFault, refused_plan};
use act_contract::schedule;
use act_model::{MOST_CONTRACTS, Plan, Terms};
use act_num::NoMemory;
use act_terms::{ContractValue, NamedTerms, unused_names};
use std::alloc::Global;

/// The plans of contracts and of shadows behind them. Refused with number 18 or 19 by the first that has none; NoMemory where
/// memory runs out.
pub fn plans_of(
    alloc: Global,
    named: &[NamedTerms],
    shadows: &[Terms],
) -> Result<Vec<Plan>, PortfolioFault>
    requires contracts { All IsContract named.now }
    requires built { All (λ t. IsBuilt t.kind) shadows.now }
    requires few { length named.now + length shadows.now ≤ MOST_CONTRACTS }
    ensures plans { IfOk result (λ plans. plans_from zero (map (λ c. c.terms) named.now ++ shadows.now) ≡ Ok plans.items) }
    ensures refused { IfErr result (λ fault. IfSome (refusal_of fault) (λ refusal.
        plans_from zero (map (λ c. c.terms) named.now ++ shadows.now) ≡ Err refusal)) }
{
    let terms = all_terms(alloc, named, shadows)?;
    plan_contracts(alloc, &terms)
}

/// The terms of contracts, and behind them those of their shadows.
fn all_terms<'a>(
    alloc: Global,
    named: &'a [NamedTerms],
    shadows: &'a [Terms],
) -> Result<Vec<&'a Terms>, NoMemory>
    ensures { IfOk result (λ terms. map (λ t. t.now) terms.items ≡ map (λ c. c.terms) named.now ++ shadows.now) }
{
    let mut terms = Vec::with_capacity(alloc, named.len())?;
    for contract in named {
        terms.push(&contract.terms)?;
    }
    for shadow in shadows {
        terms.push(shadow)?;
    }
    Ok(terms)
}

/// The plans of contracts, in their order.
fn plan_contracts(alloc: Global, terms: &[&Terms]) -> Result<Vec<Plan>, PortfolioFault>
    requires built { All (λ t. IsBuilt t.now.kind) terms.now }
    requires few { length terms.now ≤ 2 ^ 28 }
    ensures plans { IfOk result (λ plans. plans_from zero (map (λ t. t.now) terms.now) ≡ Ok plans.items) }
    ensures refused { IfErr result (λ fault. IfSome (refusal_of fault) (λ refusal.
        plans_from zero (map (λ t. t.now) terms.now) ≡ Err refusal)) }
{
    let mut plans = Vec::with_capacity(alloc, terms.len())?;
    for (place, contract) in terms.iter().enumerate() {
        let plan = next_plan(alloc, contract, place as u32)?;
        plans.push(plan)?;
    }
    Ok(plans)
}

/// The plan of the contract at that place from 0.
fn next_plan(alloc: Global, terms: &Terms, place: u32) -> Result<Plan, PortfolioFault>
    requires built { IsBuilt terms.now.kind }
    requires place { place < 2 ^ 28 }
    ensures plan { IfOk result (λ plan. plan_of terms.now ≡ Ok plan) }
    ensures refused { IfErr result (λ fault. IfSome (refusal_of fault) (λ refusal.
        refusing (refused_plan place) (plan_of terms.now) ≡ Err refusal)) }
{
    match schedule(alloc, terms) {
        Ok(plan) => Ok(plan),
        Err(fault) => Err(refused_plan(alloc, place, fault)),
    }
}

/// For each contract of a list that is read, the names of its object that aren't terms of its type. NoMemory where memory runs
/// out.
pub fn unused_lists(
    alloc: Global,
    contracts: &[ContractValue],
    named: &[NamedTerms],
) -> Result<Vec<Vec<String>>, NoMemory>
    requires all { length named.now ≡ length contracts.now }
    ensures { IfOk result (λ unused. map (λ u. map string_bytes u.items) unused.items
        ≡ unused_lists named.now (map (λ c. data_in c.value.now) contracts.now)) }
{
    let mut lists = Vec::with_capacity(alloc, named.len())?;
    for (place, contract) in named.iter().enumerate() {
        let contract_type = contract.terms.kind.contract_type();
        let unused = unused_names(alloc, contract_type, contracts[place].value)?;
        lists.push(unused)?;
    }
    Ok(lists)
}
