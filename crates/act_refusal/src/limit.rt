//! The limit on contracts.
ghost use Rattle.std.specs.Prelude.{◌≡◌, ◌^◌, ◌≤◌, None, Some, IfErr, IfSome, OnOk, length};
ghost use Rattle.act_refusal.specs.Known.{count_with_shadows};
ghost use Rattle.act_cones.specs.Counts.{counts_as};
ghost use Rattle.act_refusal.specs.Steps.{first_past, within_limit};
ghost use Rattle.act_refusal.specs.Refusal.{refusal_of};
ghost use Rattle.std.specs.Prelude.{Err};

use crate::fault::{PortfolioFault, refused};
use act_model::{Kind, MOST_CONTRACTS};
use act_terms::NamedTerms;
use std::alloc::Global;

/// Nothing where there are no more contracts than there may be, with the shadows. Else refused with number 16, by the first
/// contract past the limit; NoMemory where there is no memory for the refusal.
pub fn within_limit(alloc: Global, named: &[NamedTerms]) -> Result<(), PortfolioFault>
    requires few { length named.now ≤ 2 ^ 28 }
    ensures within { OnOk result (first_past 0 0 named.now ≡ None) }
    ensures few { OnOk result (count_with_shadows named.now ≤ MOST_CONTRACTS) }
    ensures refused { IfErr result (λ fault. IfSome (refusal_of fault) (λ refusal.
        within_limit (first_past 0 0 named.now) named.now ≡ Err refusal)) }
{
    let mut count = 0;
    for (place, contract) in named.iter().enumerate() {
        count += counts_as(&contract.terms.kind);
        if count > MOST_CONTRACTS {
            return Err(refused(alloc, 16, place as u32 + 1, "-"));
        }
    }
    Ok(())
}

/// How many contracts one of that kind is: a cap and floor counts as two, since it has a shadow.
fn counts_as(kind: &Kind) -> usize
    ensures count { result ≡ counts_as kind.now }
    ensures within { result ≤ 2 }
{
    match kind {
        Kind::CAPFL(_) => 2,
        _ => 1,
    }
}
