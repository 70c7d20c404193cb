//! Distances between contracts: how many references lead from one to another at least.
ghost use Rattle.std.specs.Prelude.{◌≡◌, ◌^◌, ◌+◌, ◌<◌, length, slice_index, MatchOption, IfOk, OnOk};
ghost use Rattle.std.specs.List.{All};
ghost use Rattle.act_refs.specs.Distance.{AreDistances, HaveNone, IsNearest, IsReached, reached_at};
ghost use Rattle.act_refs.specs.Path.{child_lists};

use crate::graph::{children_at, nothing_known};
use std::alloc::{AllocError, Global};

/// The distances from a contract to all, None where no path leads.
pub fn distances_from(
    alloc: Global,
    children: &[Vec<u32>],
    from: u32,
) -> Result<Vec<Option<u32>>, AllocError>
    requires children_exist { All (λ list. All (λ child. child < length children.now) list.items) children.now }
    requires numbered { length children.now < 2 ^ 32 }
    requires exists { from < length children.now }
    ensures { IfOk result (λ distances. AreDistances (child_lists children.now) from distances.items) }
{
    let mut distances = nothing_known(alloc, children.len())?;
    distances[from as usize] = Some(0);
    let mut reached = vec![in alloc; (from, 0)]?;
    let mut place = 0;
    'reached: while place < reached.len() {
        reach(children, place, &mut distances, &mut reached)?;
        place += 1;
    }
    Ok(distances)
}

/// Reaches the children of the contract at a place that aren't reached yet.
fn reach(
    children: &[Vec<u32>],
    place: usize,
    distances: &mut [Option<u32>],
    reached: &mut Vec<(u32, u32)>,
) -> Result<(), AllocError>
    requires children_exist { All (λ list. All (λ child. child < length children.now) list.items) children.now }
    requires numbered { length children.now < 2 ^ 32 }
    requires within { place < length reached.old.items }
    requires before { IsReached (child_lists children.now) (reached_at reached.old.items 0).0
        distances.old reached.old.items place }
    ensures { OnOk result
        (IsReached (child_lists children.now) (reached_at reached.old.items 0).0
        distances.new reached.new.items (place + 1)) }
{
    let (contract, distance) = reached[place];
    let farther = distance + 1;
    for child in children_at(children, contract as usize) {
        if distances[*child as usize].is_none() {
            distances[*child as usize] = Some(farther);
            reached.push((*child, farther))?;
        }
    }
    Ok(())
}

/// The first of the contracts among those with the least distance, and that distance, or None where none has one.
pub fn nearest(contracts: &[u32], distances: &[Option<u32>]) -> Option<(u32, u32)>
    requires { All (λ contract. contract < length distances.now) contracts.now }
    ensures { MatchOption result (HaveNone contracts.now distances.now (length contracts.now))
        (λ nearest. IsNearest contracts.now distances.now (length contracts.now) nearest.0 nearest.1) }
{
    let mut nearest: Option<(u32, u32)> = None;
    for contract in contracts {
        if let Some(distance) = distances[*contract as usize] {
            match nearest {
                Some((_, least)) if least <= distance => {}
                _ => nearest = Some((*contract, distance)),
            }
        }
    }
    nearest
}
