//! What contracts refer to, and which references fit their kind.
ghost use Rattle.std.specs.Prelude.{◌≡◌, ◌||◌, Some, option_and_then, is_some, map, option_map};
ghost use Rattle.std.specs.List.{list_all, list_any};
ghost use Rattle.act_binding.specs.Links.{are_covered, are_legs, are_secured, capped_of, contract_of, covering_of, first_unknown, fits_kind, is_capped, is_covered, is_loan, legs_by, legs_of, listing_of, market_by, market_of, market_referred, may_be_capped, may_be_covered, terms_at, terms_referred, underlying_of, unknown_in};
ghost use Rattle.act_terms.specs.Reference.{target_of};

use act_model::{GuaranteedExposure, Kind, Names, Terms};
use act_terms::{NamedTerms, Reference, ReferenceRole, Referred};
use std::marker::Model;

/// The contracts of a file with their names, by which references find them. Contracts see the names and the terms.
#[derive(Drop)]
pub struct Listing<'a> {
    names: &'a Names,
    contracts: &'a [NamedTerms],
}

impl<'a> Model for Listing<'a> {
    ghost use Rattle.std.specs.Prelude.{map};
    ghost use Rattle.act_binding.specs.Links.{Listing};

    ghost Value = { Listing };

    ghost view = { λ l. record { ids = l.names.now.contracts; terms = map (λ c. c.terms) l.contracts.now } };
}

/// The two legs of a swap, by their numbers.
#[derive(Clone, Copy)]
pub(crate) struct Legs {
    pub(crate) first: u32,
    pub(crate) second: u32,
    /// Whether SEL stands before FIL.
    pub(crate) swapped: bool,
}

impl<'a> Listing<'a> {
    /// Contracts, whose names are among the names under their numbers.
    pub fn new(names: &'a Names, contracts: &'a [NamedTerms]) -> Listing<'a>
        requires names { names.now.contracts ≡ map (λ c. c.id) contracts.now }
        ensures { result ≡ listing_of contracts.now }
    {
        Listing { names, contracts }
    }

    /// The number of the contract that a reference is to.
    pub(crate) fn contract_of(&self, target: &Referred) -> Option<u32>
        ensures { result ≡ contract_of self.now (target_of target.now) }
    {
        match target {
            Referred::Contract(name) => self.names.contract(name.as_str()),
            Referred::Market(_) => None,
        }
    }

    /// The terms of a contract by its number.
    pub(crate) fn terms_at(&self, contract: u32) -> Option<&Terms>
        ensures { option_map (λ terms. terms.now) result ≡ terms_at self.now contract }
    {
        let named = self.contracts.get(contract as usize)?;
        Some(&named.terms)
    }

    /// The terms of the contract that a reference is to.
    fn terms_referred(&self, target: &Referred) -> Option<&Terms>
        ensures { option_map (λ terms. terms.now) result ≡ terms_referred self.now (target_of target.now) }
    {
        let contract = self.contract_of(target)?;
        self.terms_at(contract)
    }

    /// The market object of a reference: itself, or that of the contract that it is to.
    fn market_referred(&self, target: &Referred) -> Option<u32>
        ensures { result ≡ market_referred self.now (target_of target.now) }
    {
        match target {
            Referred::Market(code) => Some(*code),
            Referred::Contract(_) => market_of(self.terms_referred(target)),
        }
    }
}

/// The first name of references to contracts that no contract has.
pub fn first_unknown<'a>(listing: &Listing, references: &'a [Reference]) -> Option<&'a str>
    ensures { option_map (λ name. name.now) result ≡ first_unknown listing.now references.now }
{
    for reference in references {
        if let Some(name) = unknown_in(listing, &reference.object) {
            return Some(name);
        }
    }
    None
}

/// The name in a reference that no contract has.
fn unknown_in<'a>(listing: &Listing, target: &'a Referred) -> Option<&'a str>
    ensures { option_map (λ name. name.now) result ≡ unknown_in listing.now (target_of target.now) }
{
    match target {
        Referred::Contract(name) if listing.names.contract(name.as_str()).is_none() => {
            Some(name.as_str())
        }
        _ => None,
    }
}

/// Whether references fit a kind.
pub fn fits_kind(listing: &Listing, kind: &Kind, references: &[Reference]) -> bool
    ensures { result ≡ fits_kind listing.now kind.now references.now }
{
    match kind {
        Kind::SWAPS(_) => are_legs(listing, legs_of(listing, references)),
        Kind::CAPFL(_) => is_capped(listing, capped_of(listing, references)),
        Kind::OPTNS(_) | Kind::FUTUR(_) => underlying_of(references).is_some(),
        Kind::CEG(ceg) => are_covered(ceg.guaranteed_exposure, listing, references),
        Kind::CEC(cec) => are_secured(cec.guarantee.guaranteed_exposure, listing, references),
        _ => true,
    }
}

/// The legs that references give: one is FIL and one is SEL, and both are to contracts.
pub(crate) fn legs_of(listing: &Listing, references: &[Reference]) -> Option<Legs>
    ensures { result ≡ legs_of listing.now references.now }
{
    match references {
        [a, b] => legs_by(
            a.role,
            b.role,
            listing.contract_of(&a.object)?,
            listing.contract_of(&b.object)?,
        ),
        _ => None,
    }
}

/// The legs of two contracts by their roles.
fn legs_by(role: ReferenceRole, other: ReferenceRole, a: u32, b: u32) -> Option<Legs>
    ensures { result ≡ legs_by role other (Some a) (Some b) }
{
    match (role, other) {
        (ReferenceRole::FIL, ReferenceRole::SEL) => Some(Legs {
            first: a,
            second: b,
            swapped: false,
        }),
        (ReferenceRole::SEL, ReferenceRole::FIL) => Some(Legs {
            first: b,
            second: a,
            swapped: true,
        }),
        _ => None,
    }
}

/// Whether the legs are two different loans.
fn are_legs(listing: &Listing, legs: Option<Legs>) -> bool
    ensures { result ≡ are_legs listing.now legs }
{
    match legs {
        Some(two) => {
            is_loan(listing.terms_at(two.first))
                && is_loan(listing.terms_at(two.second))
                && two.first != two.second
        }
        None => false,
    }
}

/// Whether a contract is a loan: PAM, LAM, NAM or ANN.
fn is_loan(terms: Option<&Terms>) -> bool
    ensures { result ≡ is_loan (option_map (λ terms. terms.now) terms.entry) }
{
    match terms {
        Some(terms) => terms.kind.loan().is_some(),
        None => false,
    }
}

/// The underlying of a cap and floor: the contract of the one reference that there is.
pub(crate) fn capped_of(listing: &Listing, references: &[Reference]) -> Option<u32>
    ensures { result ≡ capped_of listing.now references.now }
{
    match references {
        [reference] => match reference.role {
            ReferenceRole::UDL => listing.contract_of(&reference.object),
            _ => None,
        },
        _ => None,
    }
}

/// Whether there may be a cap and floor on a contract.
fn is_capped(listing: &Listing, underlying: Option<u32>) -> bool
    ensures { result ≡ is_capped (option_and_then (terms_at listing.now) underlying) }
{
    match underlying {
        Some(contract) => match listing.terms_at(contract) {
            Some(terms) => may_be_capped(&terms.kind),
            None => false,
        },
        None => false,
    }
}

/// Whether a kind may have a cap and floor on it: a loan or a plain swap.
fn may_be_capped(kind: &Kind) -> bool
    ensures { result ≡ may_be_capped kind.now }
{
    matches!(kind, Kind::SWPPV(_)) || kind.loan().is_some()
}

/// The underlying of an option or a future: the market object of the one reference that there is.
pub(crate) fn underlying_of(references: &[Reference]) -> Option<u32>
    ensures { result ≡ underlying_of references.now }
{
    match references {
        [reference] => market_by(reference.role, &reference.object),
        _ => None,
    }
}

/// The code of a market object that is the underlying.
fn market_by(role: ReferenceRole, target: &Referred) -> Option<u32>
    ensures { result ≡ market_by role (target_of target.now) }
{
    match (role, target) {
        (ReferenceRole::UDL, Referred::Market(code)) => Some(*code),
        _ => None,
    }
}

/// Whether the references of a guarantee are to what is covered, at least one.
fn are_covered(exposure: GuaranteedExposure, listing: &Listing, references: &[Reference]) -> bool
    ensures { result ≡ are_covered exposure listing.now references.now }
{
    is_one_covered(exposure, listing, references) && are_all_covered(exposure, listing, references)
}

/// Whether the references of collateral are to what is covered and to what covers it, at least one each.
fn are_secured(exposure: GuaranteedExposure, listing: &Listing, references: &[Reference]) -> bool
    ensures { result ≡ are_secured exposure listing.now references.now }
{
    is_one_covered(exposure, listing, references)
        && is_one_covering(listing, references)
        && take_all_part(exposure, listing, references)
}

/// Whether one of the references is to what is covered.
fn is_one_covered(exposure: GuaranteedExposure, listing: &Listing, references: &[Reference]) -> bool
    ensures { result ≡ list_any (is_covered exposure listing.now) references.now }
{
    references
        .iter()
        .any(|reference| is_covered(exposure, listing, reference))
}

/// Whether all references are to what is covered.
fn are_all_covered(
    exposure: GuaranteedExposure,
    listing: &Listing,
    references: &[Reference],
) -> bool
    ensures { result ≡ list_all (is_covered exposure listing.now) references.now }
{
    references
        .iter()
        .all(|reference| is_covered(exposure, listing, reference))
}

/// Whether all references are to what is covered or to what covers.
fn take_all_part(exposure: GuaranteedExposure, listing: &Listing, references: &[Reference]) -> bool
    ensures { result ≡ list_all (λ r. is_covered exposure listing.now r || is_some (covering_of listing.now r)) references.now }
{
    references
        .iter()
        .all(|reference| takes_part(exposure, listing, reference))
}

/// Whether a reference is to what is covered or to what covers.
fn takes_part(exposure: GuaranteedExposure, listing: &Listing, reference: &Reference) -> bool
    ensures { result ≡ (is_covered exposure listing.now reference.now || is_some (covering_of listing.now reference.now)) }
{
    is_covered(exposure, listing, reference) || covering_of(listing, reference).is_some()
}

/// Whether one of the references is to what covers.
fn is_one_covering(listing: &Listing, references: &[Reference]) -> bool
    ensures { result ≡ list_any (λ r. is_some (covering_of listing.now r)) references.now }
{
    references
        .iter()
        .any(|reference| covering_of(listing, reference).is_some())
}

/// Whether a reference is to what is covered: a contract.
fn is_covered(exposure: GuaranteedExposure, listing: &Listing, reference: &Reference) -> bool
    ensures { result ≡ is_covered exposure listing.now reference.now }
{
    match reference.role {
        ReferenceRole::COVE => may_be_covered(exposure, listing.terms_referred(&reference.object)),
        _ => false,
    }
}

/// Whether a contract may be covered: by its market value only where it has a market object.
fn may_be_covered(exposure: GuaranteedExposure, terms: Option<&Terms>) -> bool
    ensures { result ≡ may_be_covered exposure (option_map (λ terms. terms.now) terms.entry) }
{
    match exposure {
        GuaranteedExposure::MV => market_of(terms).is_some(),
        _ => terms.is_some(),
    }
}

/// The code of a reference to what covers: a market object, or a contract that has one.
pub(crate) fn covering_of(listing: &Listing, reference: &Reference) -> Option<u32>
    ensures { result ≡ covering_of listing.now reference.now }
{
    match reference.role {
        ReferenceRole::COVI => listing.market_referred(&reference.object),
        _ => None,
    }
}

/// A contract's own market object.
fn market_of(terms: Option<&Terms>) -> Option<u32>
    ensures { result ≡ market_of (option_map (λ terms. terms.now) terms.entry) }
{
    match terms {
        Some(terms) => terms.common.market_object_code,
        None => None,
    }
}
