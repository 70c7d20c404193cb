//! The shadows of contracts, and the children of all.
ghost use Rattle.std.specs.Prelude.{◌≡◌, ◌++◌, ◌^◌, ◌≤◌, [], IfOk, OnOk, length, map, option_map};
ghost use Rattle.std.specs.List.{filter_map, zip};
ghost use Rattle.act_model.specs.declared.terms.Terms.{Terms};
ghost use Rattle.act_binding.specs.Binding.{behind, children_of, kind_within, loan_within, reset_within, shadow_numbers, shadow_of, shadow_on};
ghost use Rattle.act_binding.specs.Links.{contract_of};

use crate::links::{Listing, capped_of};
use act_model::{Ann, Capfl, Common, Kind, Lam, Loan, Nam, Pam, RateReset, Swppv, Terms};
use act_num::NoMemory;
use act_terms::{NamedTerms, Reference};
use std::alloc::Global;

/// For each contract the number that the next shadow has: shadows stand behind all contracts, in the order of the caps and
/// floors. NoMemory where memory runs out.
pub fn shadow_numbers(alloc: Global, named: &[NamedTerms]) -> Result<Vec<u32>, NoMemory>
    requires few { length named.now ≤ 2 ^ 28 }
    ensures { IfOk result (λ numbers. numbers.items ≡ shadow_numbers (length named.now) named.now) }
{
    let mut numbers = Vec::new(alloc);
    let mut next = named.len() as u32;
    for contract in named {
        numbers.push(next)?;
        next = behind(&contract.terms.kind, next);
    }
    Ok(numbers)
}

/// The number that the next shadow has behind a contract of that kind.
fn behind(kind: &Kind, next: u32) -> u32
    requires next { next ≤ 2 ^ 30 }
    ensures { result ≡ behind kind.now next }
{
    match kind {
        Kind::CAPFL(_) => next + 1,
        _ => next,
    }
}

/// The shadows of contracts, whose numbers are those from these. NoMemory where memory runs out.
pub fn shadows(
    alloc: Global,
    listing: &Listing,
    named: &[NamedTerms],
    numbers: &[u32],
) -> Result<Vec<Terms>, NoMemory>
    requires numbers { length numbers.now ≡ length named.now }
    ensures { IfOk result (λ shadows. shadows.items ≡ filter_map (shadow_of listing.now) (zip named.now numbers.now)) }
{
    let mut shadows = Vec::new(alloc);
    for (place, contract) in named.iter().enumerate() {
        if let Some(shadow) = shadow_of(listing, contract, numbers[place]) {
            shadows.push(shadow)?;
        }
    }
    Ok(shadows)
}

/// The shadow of a contract, if it has one.
fn shadow_of(listing: &Listing, contract: &NamedTerms, number: u32) -> Option<Terms>
    ensures { result ≡ shadow_of listing.now (contract.now, number) }
{
    match &contract.terms.kind {
        Kind::CAPFL(capfl) => {
            let underlying = capped_of(listing, &contract.references)?;
            shadow_on(listing, capfl, number, underlying)
        }
        _ => None,
    }
}

/// The shadow that a cap and floor has on an underlying.
fn shadow_on(listing: &Listing, capfl: &Capfl, number: u32, underlying: u32) -> Option<Terms>
    ensures { result ≡ shadow_on listing.now capfl.now number (Some underlying) }
{
    let terms = listing.terms_at(underlying)?;
    let kind = kind_within(capfl, &terms.kind)?;
    let common = Common {
        contract: number,
        underlying: Some(underlying),
        ..terms.common
    };
    Some(Terms { common, kind })
}

/// A loan or a plain swap with another cap and floor in place of its own.
fn kind_within(capfl: &Capfl, kind: &Kind) -> Option<Kind>
    ensures { result ≡ kind_within capfl.now kind.now }
{
    match kind {
        Kind::PAM(pam) => Some(Kind::PAM(Pam {
            loan: loan_within(capfl, &pam.loan),
            ..*pam
        })),
        Kind::LAM(lam) => Some(Kind::LAM(Lam {
            loan: loan_within(capfl, &lam.loan),
            ..*lam
        })),
        Kind::NAM(nam) => Some(Kind::NAM(Nam {
            loan: loan_within(capfl, &nam.loan),
            ..*nam
        })),
        Kind::ANN(ann) => Some(Kind::ANN(Ann {
            loan: loan_within(capfl, &ann.loan),
            ..*ann
        })),
        Kind::SWPPV(swppv) => Some(Kind::SWPPV(Swppv {
            rate_reset: reset_within(capfl, &swppv.rate_reset),
            ..*swppv
        })),
        _ => None,
    }
}

/// A loan with another cap and floor.
fn loan_within(capfl: &Capfl, loan: &Loan) -> Loan
    ensures { result ≡ loan_within capfl.now loan.now }
{
    Loan {
        rate_reset: reset_within(capfl, &loan.rate_reset),
        ..*loan
    }
}

/// How a rate is reset, with another cap and floor.
fn reset_within(capfl: &Capfl, reset: &RateReset) -> RateReset
    ensures { result ≡ reset_within capfl.now reset.now }
{
    RateReset {
        life_cap: capfl.life_cap,
        life_floor: capfl.life_floor,
        ..*reset
    }
}

/// The children of the contracts, and behind them those of so many shadows, which have none. NoMemory where memory runs out.
pub fn child_lists(
    alloc: Global,
    listing: &Listing,
    named: &[NamedTerms],
    numbers: &[u32],
    shadows: &[Terms],
) -> Result<Vec<Vec<u32>>, NoMemory>
    requires numbers { length numbers.now ≡ length named.now }
    ensures { IfOk result (λ lists. map (λ l. l.items) lists.items
        ≡ map (children_of listing.now) (zip named.now numbers.now) ++ map (λ shadow. []) shadows.now) }
{
    let mut lists = Vec::new(alloc);
    for (place, contract) in named.iter().enumerate() {
        let children = children_of(alloc, listing, contract, numbers[place])?;
        lists.push(children)?;
    }
    add_childless(alloc, shadows, &mut lists)?;
    Ok(lists)
}

/// Adds an empty list for each shadow.
fn add_childless(
    alloc: Global,
    shadows: &[Terms],
    lists: &mut Vec<Vec<u32>>,
) -> Result<(), NoMemory>
    ensures { OnOk result (map (λ l. l.items) lists.new.items
        ≡ map (λ l. l.items) lists.old.items ++ map (λ shadow. []) shadows.now) }
{
    for _shadow in shadows {
        lists.push(Vec::new(alloc))?;
    }
    Ok(())
}

/// The contracts that a contract's run goes over: those that it refers to in the order of its structure, and a cap's or
/// floor's shadow, of that number, behind its underlying.
fn children_of(
    alloc: Global,
    listing: &Listing,
    contract: &NamedTerms,
    number: u32,
) -> Result<Vec<u32>, NoMemory>
    ensures { IfOk result (λ children. children.items ≡ children_of listing.now (contract.now, number)) }
{
    let mut children = linked(alloc, listing, &contract.references)?;
    if let Kind::CAPFL(_) = &contract.terms.kind {
        children.push(number)?;
    }
    Ok(children)
}

/// The contracts that references are to, in their order.
fn linked(alloc: Global, listing: &Listing, references: &[Reference]) -> Result<Vec<u32>, NoMemory>
    ensures { IfOk result (λ contracts. contracts.items
        ≡ filter_map (λ r. contract_of listing.now r.object) references.now) }
{
    let mut contracts = Vec::new(alloc);
    for reference in references {
        if let Some(contract) = listing.contract_of(&reference.object) {
            contracts.push(contract)?;
        }
    }
    Ok(contracts)
}
