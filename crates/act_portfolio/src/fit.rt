//! References that fit.
ghost use Rattle.std.specs.Prelude.{◌≡◌, ◌<◌, ◌^◌, ◌≤◌, None, Some, IfErr, IfSome, OnOk, length};
ghost use Rattle.act_binding.specs.Links.{listing_of};
ghost use Rattle.act_portfolio.specs.Fit.{first_unfit, unfit};
ghost use Rattle.act_refusal.specs.Refusal.{refusal_of};

use act_binding::{Listing, first_unknown, fits_kind};
use act_refusal::{PortfolioFault, refused};
use act_terms::NamedTerms;
use std::alloc::Global;

/// Nothing where each reference is to a contract that is there, and the references of each contract fit its kind.
pub(crate) fn references_fit(
    alloc: Global,
    listing: &Listing,
    named: &[NamedTerms],
) -> Result<(), PortfolioFault>
    requires listing { listing.now ≡ listing_of named.now }
    requires few { length named.now ≤ 2 ^ 28 }
    ensures fit { OnOk result (first_unfit named.now ≡ None) }
    ensures refused { IfErr result (λ fault. IfSome (refusal_of fault) (λ refusal. first_unfit named.now ≡ Some refusal)) }
{
    for (place, contract) in named.iter().enumerate() {
        fit_one(alloc, listing, contract, place as u32)?;
    }
    Ok(())
}

/// Nothing where the references of the contract at that place from 0 do.
fn fit_one(
    alloc: Global,
    listing: &Listing,
    contract: &NamedTerms,
    place: u32,
) -> Result<(), PortfolioFault>
    requires place { place < 2 ^ 28 }
    ensures fit { OnOk result (unfit listing.now (place, contract.now) ≡ None) }
    ensures refused { IfErr result (λ fault. IfSome (refusal_of fault) (λ refusal.
        unfit listing.now (place, contract.now) ≡ Some refusal)) }
{
    if let Some(name) = first_unknown(listing, &contract.references) {
        return Err(refused(alloc, 21, place + 1, name));
    }
    if fits_kind(listing, &contract.terms.kind, &contract.references) {
        Ok(())
    } else {
        Err(refused(alloc, 20, place + 1, "contractStructure"))
    }
}
