//! Depths, found level by level.

ghost use Rattle.std.specs.Prelude.{◌≡◌, ◌^◌, ◌<◌, ◌≤◌, None, length, slice_index_or, IsSome, MatchOption, OnOk};
ghost use Rattle.std.specs.List.{All, list_all};
ghost use Rattle.act_refs.specs.Path.{child_lists};
ghost use Rattle.act_refs.specs.Settled.{AreSettled, IsFirstUnknown, is_below};

use crate::graph::children_at;
use std::alloc::AllocError;

/// Settles the contracts of one depth, where those of all smaller depths are settled: notes their depth, and puts
/// them at the end of the order.
pub fn settle(
    children: &[Vec<u32>],
    depth: u32,
    depths: &mut [Option<u32>],
    order: &mut Vec<u32>,
) -> Result<(), AllocError>
    requires children_exist { All (λ list. All (λ child. child < length children.now) list.items) children.now }
    requires numbered { length children.now < 2 ^ 32 }
    requires above_zero { 1 ≤ depth }
    requires before { AreSettled (child_lists children.now) depth 0 depths.old order.old.items }
    ensures { OnOk result
        (AreSettled (child_lists children.now) depth (length children.now) depths.new order.new.items) }
{
    'contracts: for contract in 0..children.len() {
        if depths[contract].is_none()
            && are_settled(children_at(children, contract), depths, depth)
        {
            depths[contract] = Some(depth);
            order.push(contract as u32)?;
        }
    }
    Ok(())
}

/// Whether each of the contracts is of a known depth, below the given one.
fn are_settled(contracts: &[u32], depths: &[Option<u32>], depth: u32) -> bool
    requires { All (λ contract. contract < length depths.now) contracts.now }
    ensures { result ≡ list_all (λ contract. is_below depth (slice_index_or depths.now contract None)) contracts.now }
{
    contracts.iter().all(|contract| depths[*contract as usize].is_some_and(|known| known < depth))
}

/// The least contract of no known depth.
pub fn first_unknown(depths: &[Option<u32>]) -> Option<u32>
    requires { length depths.now < 2 ^ 32 }
    ensures { MatchOption result (All (λ depth. IsSome depth) depths.now) (IsFirstUnknown depths.now) }
{
    for contract in 0..depths.len() {
        if depths[contract].is_none() {
            return Some(contract as u32);
        }
    }
    None
}
