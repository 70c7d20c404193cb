//! The order in which contracts are evaluated.
ghost use Rattle.std.specs.Prelude.{◌≡◌, ◌^◌, ◌<◌, ◌≤◌, [], Ok, Err, IfOk, IfErr, IfSome, length, map, slice_get, slice_index, unwrap_or};
ghost use Rattle.std.specs.List.{All, join_with_byte};
ghost use Rattle.std.specs.Str.{byte};
ghost use Rattle.act_refs.specs.Ordered.{order_of};
ghost use Rattle.act_refusal.specs.Steps.{refused_order};
ghost use Rattle.act_refusal.specs.Refusal.{in_cycle, refusal_of, refusing};

use crate::fault::{PortfolioFault, refused};
use act_model::Names;
use act_num::NoMemory;
use act_refs::{OrderFault, order};
use std::alloc::Global;

/// The order in which contracts are evaluated, children first, and those of one depth by number. Refused with number 22 where
/// contracts refer to one another in a cycle, and else with 23 where a chain is too long; NoMemory where memory runs out.
pub fn evaluation_order(
    alloc: Global,
    names: &Names,
    children: &[Vec<u32>],
) -> Result<Vec<u32>, PortfolioFault>
    requires children_exist { All (λ list. All (λ child. child < length children.now) list.items) children.now }
    requires few { length children.now ≤ 2 ^ 28 }
    ensures order { IfOk result (λ order. order_of (map (λ c. c.items) children.now) ≡ Ok order.items) }
    ensures refused { IfErr result (λ fault. IfSome (refusal_of fault) (λ refusal.
        refusing (refused_order names.now.contracts) (order_of (map (λ c. c.items) children.now)) ≡ Err refusal)) }
{
    match order(alloc, children) {
        Ok(order) => Ok(order),
        Err(OrderFault::Cycle(cycle)) => Err(refused_cycle(alloc, names, &cycle)),
        Err(OrderFault::TooDeep(contract)) => Err(refused(alloc, 23, contract + 1, "-")),
        Err(OrderFault::NoMemory) => Err(PortfolioFault::NoMemory),
    }
}

/// The refusal of a cycle: its names, with spaces between.
fn refused_cycle(alloc: Global, names: &Names, cycle: &[u32]) -> PortfolioFault
    requires some { 0 < length cycle.now }
    requires place { slice_index cycle.now 0 < 2 ^ 28 }
    ensures { IfSome (refusal_of result) (λ refusal. refusal ≡ in_cycle names.now.contracts cycle.now) }
{
    match joined_names(alloc, names, cycle) {
        Ok(what) => PortfolioFault::Refused {
            number: 22,
            place: cycle[0] + 1,
            what,
        },
        Err(NoMemory) => PortfolioFault::NoMemory,
    }
}

/// The names of contracts, with spaces between.
fn joined_names(alloc: Global, names: &Names, contracts: &[u32]) -> Result<Vec<u8>, NoMemory>
    ensures { IfOk result (λ joined. joined.items
        ≡ join_with_byte (byte " ") (map (λ c. unwrap_or (slice_get names.now.contracts c) []) contracts.now)) }
{
    let mut joined = Vec::new(alloc);
    for (place, contract) in contracts.iter().enumerate() {
        if place > 0 {
            joined.push(b' ')?;
        }
        joined.extend_from_slice(name_of(names, *contract).as_bytes())?;
    }
    Ok(joined)
}

/// The name of a contract.
fn name_of(names: &Names, contract: u32) -> &str
    ensures { result.now ≡ unwrap_or (slice_get names.now.contracts contract) [] }
{
    match names.id(contract) {
        Some(name) => name,
        None => "",
    }
}
