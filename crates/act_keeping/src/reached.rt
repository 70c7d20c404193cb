//! What is marked of the contracts that an ask reaches.
ghost use Rattle.std.specs.Prelude.{◌≡◌, ℕ, ◌-◌, ◌<◌, ◌||◌, false, length, replicate, slice_index_or, IfOk};
ghost use Rattle.std.specs.List.{All, range_with_len};
ghost use Rattle.act_profile.specs.Reads.{is_in};
ghost use Rattle.act_history.specs.Reached.{is_wanted};

use act_num::NoMemory;
use std::alloc::Global;

/// So many contracts, none of which is marked. NoMemory where memory runs out.
pub fn none_marked(alloc: Global, count: usize) -> Result<Vec<bool>, NoMemory>
    ensures { IfOk result (λ marked. marked.items ≡ replicate count false) }
{
    Ok(vec![in alloc; false; count]?)
}

/// Whether a contract is one of these numbers, or marked.
pub fn is_wanted(below: &[bool], contract: u32, first: u32, end: u32) -> bool
    requires { contract < length below.now }
    ensures { result ≡ is_wanted (range_with_len first (end - first)) below.now contract }
{
    is_between(contract, first, end) || below[contract as usize]
}

/// Whether a contract is one of these numbers.
#[tactic(auto, using(crate::proofs::Between::between))]
fn is_between(contract: u32, first: u32, end: u32) -> bool
    ensures { result ≡ is_in (range_with_len first (end - first)) contract }
{
    first <= contract && contract < end
}

/// Marks contracts.
pub fn mark(below: &mut [bool], contracts: &[u32])
    requires { All (λ contract. contract < length below.old) contracts.now }
    ensures marked { (c : ℕ) → slice_index_or below.new c false ≡ (slice_index_or below.old c false || is_in contracts.now c) }
    ensures count { length below.new ≡ length below.old }
{
    for contract in contracts {
        below[*contract as usize] = true;
    }
}
