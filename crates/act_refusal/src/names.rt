//! The names of contracts.
ghost use Rattle.std.specs.Prelude.{◌≡◌, ◌^◌, ◌≤◌, [], Ok, Err, IfErr, IfSome, OnOk, length, map};
ghost use Rattle.std.specs.List.{All};
ghost use Rattle.act_refusal.specs.Known.{IsContract};
ghost use Rattle.act_refusal.specs.Steps.{first_repeated, unrepeated};
ghost use Rattle.act_refusal.specs.Refusal.{refusal_of};

use crate::fault::{PortfolioFault, refused};
use act_model::Names;
use act_terms::NamedTerms;
use std::alloc::Global;

/// Adds the names of contracts in their order. Refused with number 17 by the first whose name an earlier one has; NoMemory where
/// memory runs out, or the names are full. The names of those before it may have been added then.
pub fn name_contracts(
    alloc: Global,
    named: &[NamedTerms],
    names: &mut Names,
) -> Result<(), PortfolioFault>
    requires contracts { All IsContract named.now }
    requires few { length named.now ≤ 2 ^ 28 }
    requires fresh { names.old.contracts ≡ [] }
    ensures names { OnOk result (names.new ≡ record names.old { contracts = map (λ c. c.id) named.now }) }
    ensures unrepeated { OnOk result (
        unrepeated (first_repeated [] (map (λ c. c.id) named.now)) (map (λ c. c.id) named.now) ≡ Ok (map (λ c. c.id) named.now)) }
    ensures refused { IfErr result (λ fault. IfSome (refusal_of fault) (λ refusal.
        unrepeated (first_repeated [] (map (λ c. c.id) named.now)) (map (λ c. c.id) named.now) ≡ Err refusal)) }
{
    for (place, contract) in named.iter().enumerate() {
        let id = contract.id.as_str();
        if names.contract(id).is_some() {
            return Err(refused(alloc, 17, place as u32 + 1, "contractID"));
        }
        names.add_contract(id)?;
    }
    Ok(())
}
