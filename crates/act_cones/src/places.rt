//! The places of contracts in their order.
ghost use Rattle.std.specs.Prelude.{◌≡◌, ◌^◌, ◌≤◌, Ok, IfOk, length, map};
ghost use Rattle.act_refs.specs.Ordered.{order_of};
ghost use Rattle.act_cones.specs.Cones.{AreRanks};

use act_num::NoMemory;
use std::alloc::Global;

/// For each contract its place in the order. NoMemory where memory runs out.
pub fn ranks(alloc: Global, children: &[Vec<u32>], order: &[u32]) -> Result<Vec<u32>, NoMemory>
    requires ordered { order_of (map (λ c. c.items) children.now) ≡ Ok order.now }
    requires few { length order.now ≤ 2 ^ 28 }
    ensures { IfOk result (λ ranks. AreRanks (length children.now) order.now ranks.items) }
{
    let mut ranks = vec![in alloc; 0u32; children.len()]?;
    for (place, contract) in order.iter().enumerate() {
        ranks[*contract as usize] = place as u32;
    }
    Ok(ranks)
}
