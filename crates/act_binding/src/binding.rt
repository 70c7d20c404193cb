//! What references bind in the terms of contracts.
ghost use Rattle.std.specs.Prelude.{◌≡◌, ◌++◌, ◌<◌, ◌≤◌, ◌^◌, Ok, Some, [], IfOk, OnOk, IfSome, length, map, option_map, slice_get};
ghost use Rattle.std.specs.List.{cons_option, enumerate_from, filter_map, zip};
ghost use Rattle.act_model.specs.Kind.{loan_of};
ghost use Rattle.act_profile.specs.Built.{IsBuilt};
ghost use Rattle.act_profile.specs.Plan.{plan_of};
ghost use Rattle.act_binding.specs.Binding.{bind, bound, bound_kind, covered_at, covered_of, covered_with, day_count_of};
ghost use Rattle.act_cones.specs.Counts.{HavePlans};
ghost use Rattle.act_binding.specs.Links.{covering_of, listing_of};

use crate::links::{Legs, Listing, capped_of, covering_of, legs_of, underlying_of};
use act_contract::{maturity, start};
use act_date::DayCount;
use act_model::{
    Capfl, Cec, Ceg, Covered, Futur, Kind, MOST_BYTES, MOST_CONTRACTS, Names, Optns, Plan, State,
    Stop, Swaps, Terms,
};
use act_num::NoMemory;
use act_terms::{NamedTerms, Reference, ReferenceRole};
use std::alloc::Global;

/// What the references of a contract bind in its terms.
#[derive(Drop)]
pub(crate) enum Binding {
    /// Nothing.
    Nothing,
    /// The legs of a swap.
    Legs(Legs),
    /// The underlying of a cap and floor, and its shadow.
    Capped {
        underlying: u32,
        shadow: u32,
    },
    /// The market object of an option or a future.
    Underlying(u32),
    /// What a guarantee covers.
    Covered(Vec<Covered>),
    /// What collateral covers, and the codes of what covers it.
    Secured {
        covered: Vec<Covered>,
        covering: Vec<u32>,
    },
}

/// The terms of contracts, bound to what their references are to, and behind them those of their shadows. NoMemory where memory
/// runs out, or where a guarantee has more references than a file has bytes.
pub fn terms_of(
    alloc: Global,
    names: &Names,
    named: Vec<NamedTerms>,
    numbers: &[u32],
    shadows: Vec<Terms>,
    plans: &[Plan],
) -> Result<Vec<Terms>, NoMemory>
    requires names { names.now.contracts ≡ map (λ c. c.id) named.items }
    requires planned { HavePlans (map (λ c. c.terms) named.items) plans.now }
    requires few { length named.items ≤ MOST_CONTRACTS }
    requires numbers { length numbers.now ≡ length named.items }
    ensures { IfOk result (λ terms. terms.items
        ≡ map (bound (listing_of named.items) plans.now) (zip named.items numbers.now) ++ shadows.items) }
{
    let listing = Listing::new(names, &named);
    let bindings = bindings(alloc, &listing, &named, numbers, plans)?;
    bound_terms(alloc, named, bindings, shadows)
}

/// What the references of each contract bind. A guarantee is bound to what the terms and plans of those say that it covers.
fn bindings(
    alloc: Global,
    listing: &Listing,
    named: &[NamedTerms],
    numbers: &[u32],
    plans: &[Plan],
) -> Result<Vec<Binding>, NoMemory>
    requires planned { HavePlans listing.now.terms plans.now }
    requires few { length listing.now.terms ≤ 2 ^ 28 }
    requires numbers { length numbers.now ≡ length named.now }
    ensures count { IfOk result (λ bindings. length bindings.items ≡ length named.now) }
    ensures bound { IfOk result (λ bindings. map (λ b. bind b.1 b.0.terms.kind) (zip named.now bindings.items)
        ≡ map (λ c. (bound listing.now plans.now c).kind) (zip named.now numbers.now)) }
{
    let mut bindings = Vec::with_capacity(alloc, named.len())?;
    for (place, contract) in named.iter().enumerate() {
        let binding = binding_of(alloc, listing, plans, contract, numbers[place])?;
        bindings.push(binding)?;
    }
    Ok(bindings)
}

/// What the references of a contract bind, where the next shadow has that number.
fn binding_of(
    alloc: Global,
    listing: &Listing,
    plans: &[Plan],
    contract: &NamedTerms,
    number: u32,
) -> Result<Binding, NoMemory>
    requires planned { HavePlans listing.now.terms plans.now }
    requires few { length listing.now.terms ≤ 2 ^ 28 }
    ensures { IfOk result (λ binding. bind binding contract.now.terms.kind
        ≡ bound_kind listing.now plans.now number contract.now.references contract.now.terms.kind) }
{
    let references = &contract.references;
    match &contract.terms.kind {
        Kind::SWAPS(_) => match legs_of(listing, references) {
            Some(two) => Ok(Binding::Legs(two)),
            None => Ok(Binding::Nothing),
        },
        Kind::CAPFL(_) => Ok(Binding::Capped {
            underlying: capped_of(listing, references).unwrap_or(0),
            shadow: number,
        }),
        Kind::OPTNS(_) | Kind::FUTUR(_) => {
            Ok(Binding::Underlying(underlying_of(references).unwrap_or(0)))
        }
        Kind::CEG(_) => {
            let covered = covered_of(alloc, listing, plans, references)?;
            Ok(Binding::Covered(covered))
        }
        Kind::CEC(_) => {
            let covered = covered_of(alloc, listing, plans, references)?;
            let covering = all_covering(alloc, listing, references)?;
            Ok(Binding::Secured { covered, covering })
        }
        _ => Ok(Binding::Nothing),
    }
}

/// The contracts that references cover, in their order.
fn covered_of(
    alloc: Global,
    listing: &Listing,
    plans: &[Plan],
    references: &[Reference],
) -> Result<Vec<Covered>, NoMemory>
    requires planned { HavePlans listing.now.terms plans.now }
    requires few { length listing.now.terms ≤ 2 ^ 28 }
    ensures { IfOk result (λ covered. covered.items ≡ covered_of listing.now plans.now references.now) }
{
    // A file has not as many bytes.
    if references.len() > MOST_BYTES as usize {
        return Err(NoMemory);
    }
    let mut covered = Vec::new(alloc);
    let mut child = 0;
    for reference in references {
        if let Some(contract) = listing.contract_of(&reference.object) {
            add_covered(
                listing,
                plans,
                reference.role,
                contract,
                child,
                &mut covered,
            )?;
            child += 1;
        }
    }
    Ok(covered)
}

/// Adds a contract, where a reference of that role covers it.
fn add_covered(
    listing: &Listing,
    plans: &[Plan],
    role: ReferenceRole,
    contract: u32,
    child: u32,
    covered: &mut Vec<Covered>,
) -> Result<(), NoMemory>
    requires planned { HavePlans listing.now.terms plans.now }
    ensures { OnOk result (covered.new.items
        ≡ covered.old.items ++ cons_option (covered_at listing.now plans.now (child, (role, contract))) []) }
{
    if role != ReferenceRole::COVE {
        return Ok(());
    }
    let Some(terms) = listing.terms_at(contract) else {
        return Ok(());
    };
    let Some(plan) = plan_at(plans, contract) else {
        return Ok(());
    };
    let start: Result<State, Stop> = start(terms, plan);
    covered.push(covered_with(contract, child, terms, start))?;
    Ok(())
}

/// The plan of a contract.
fn plan_at(plans: &[Plan], contract: u32) -> Option<&Plan>
    ensures { option_map (λ plan. plan.now) result ≡ slice_get plans.now contract }
{
    plans.get(contract as usize)
}

/// A covered contract by its number, its place among the children, and its starting state.
fn covered_with(contract: u32, child: u32, terms: &Terms, start: Result<State, Stop>) -> Covered
    requires built { IsBuilt terms.now.kind }
    ensures { result ≡ covered_with contract child terms.now start }
{
    Covered {
        contract,
        child,
        kind: terms.kind.contract_type(),
        count: day_count_of(&terms.kind),
        calendar: terms.common.calendar,
        maturity: maturity(terms),
        market: terms.common.market_object_code,
        start,
    }
}

/// The day count of a kind that has one.
fn day_count_of(kind: &Kind) -> Option<DayCount>
    ensures { result ≡ day_count_of (loan_of kind.now) kind.now }
{
    match kind {
        Kind::SWPPV(swppv) => Some(swppv.day_count_convention),
        _ => match kind.loan() {
            Some(loan) => Some(loan.day_count_convention),
            None => None,
        },
    }
}

/// The codes of what covers, in the order of the references.
fn all_covering(
    alloc: Global,
    listing: &Listing,
    references: &[Reference],
) -> Result<Vec<u32>, NoMemory>
    ensures { IfOk result (λ covering. covering.items ≡ filter_map (covering_of listing.now) references.now) }
{
    let mut covering = Vec::new(alloc);
    for reference in references {
        if let Some(code) = covering_of(listing, reference) {
            covering.push(code)?;
        }
    }
    Ok(covering)
}

/// The terms of contracts with what their references bind, and behind them those of the shadows.
fn bound_terms(
    alloc: Global,
    named: Vec<NamedTerms>,
    bindings: Vec<Binding>,
    mut shadows: Vec<Terms>,
) -> Result<Vec<Terms>, NoMemory>
    requires bindings { length bindings.items ≡ length named.items }
    ensures { IfOk result (λ terms. terms.items
        ≡ map (λ b. record { common = b.0.terms.common; kind = bind b.1 b.0.terms.kind }) (zip named.items bindings.items) ++ shadows.items) }
{
    let mut terms = Vec::with_capacity(alloc, named.len())?;
    for (contract, binding) in named.into_iter().zip(bindings) {
        terms.push(with_bound(contract, binding))?;
    }
    terms.append(&mut shadows)?;
    Ok(terms)
}

/// The terms of a contract with what its references bind.
fn with_bound(contract: NamedTerms, binding: Binding) -> Terms
    ensures { result ≡ record { common = contract.terms.common; kind = bind binding contract.terms.kind } }
{
    Terms {
        common: contract.terms.common,
        kind: bind(binding, contract.terms.kind),
    }
}

/// The terms of a kind with what its references bind.
fn bind(binding: Binding, kind: Kind) -> Kind
    ensures { result ≡ bind binding kind }
{
    match (binding, kind) {
        (Binding::Legs(two), Kind::SWAPS(swaps)) => Kind::SWAPS(Swaps {
            first: two.first,
            second: two.second,
            swapped: two.swapped,
            ..swaps
        }),
        (Binding::Capped { underlying, shadow }, Kind::CAPFL(capfl)) => Kind::CAPFL(Capfl {
            underlying,
            shadow,
            ..capfl
        }),
        (Binding::Underlying(code), Kind::OPTNS(optns)) => Kind::OPTNS(Optns {
            underlying: code,
            ..optns
        }),
        (Binding::Underlying(code), Kind::FUTUR(futur)) => Kind::FUTUR(Futur {
            underlying: code,
            ..futur
        }),
        (Binding::Covered(covered), Kind::CEG(ceg)) => Kind::CEG(Ceg { covered, ..ceg }),
        (Binding::Secured { covered, covering }, Kind::CEC(cec)) => Kind::CEC(Cec {
            guarantee: Ceg {
                covered,
                ..cec.guarantee
            },
            covering,
        }),
        (_, kind) => kind,
    }
}
