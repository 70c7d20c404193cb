//! The cycle that is reported.
ghost use Rattle.std.specs.Prelude.{◌≡◌, ◌^◌, ◌<◌, Some, None, length, slice_index_or, IfOk, IfSome, MatchOption};
ghost use Rattle.std.specs.List.{All};
ghost use Rattle.act_refs.specs.Cycle.{IsNext, IsReportedCycle, IsWayBack};
ghost use Rattle.act_refs.specs.Distance.{AreDistancesTo};
ghost use Rattle.act_refs.specs.Path.{HasNoCycle, OnCycle, child_lists};
ghost use Rattle.act_refs.specs.Turned.{IsTurned};

use crate::distance::{distances_from, nearest};
use crate::graph::{children_at, parents_of};
use crate::peel::peeled_both_ways;
use std::alloc::{AllocError, Global};

/// The cycle from the least contract that is on one always to the first child from which the fewest references lead
/// back to it, or None where there is no cycle.
pub fn reported_cycle(alloc: Global, children: &[Vec<u32>]) -> Result<Option<Vec<u32>>, AllocError>
    requires children_exist { All (λ list. All (λ child. child < length children.now) list.items) children.now }
    requires numbered { length children.now < 2 ^ 32 }
    ensures { IfOk result (λ found. MatchOption found (HasNoCycle (child_lists children.now))
        (λ cycle. IsReportedCycle (child_lists children.now) cycle.items)) }
{
    let parents = parents_of(alloc, children)?;
    let peeled = peeled_both_ways(alloc, children, &parents)?;
    'contracts: for contract in 0..children.len() {
        if !peeled[contract] {
            let found = cycle_at(alloc, children, &parents, contract as u32)?;
            if let Some(cycle) = found {
                return Ok(Some(cycle));
            }
        }
    }
    Ok(None)
}

/// The cycle from a contract back to it, or None where it is on none.
fn cycle_at(
    alloc: Global,
    children: &[Vec<u32>],
    parents: &[Vec<u32>],
    start: u32,
) -> Result<Option<Vec<u32>>, AllocError>
    requires children_exist { All (λ list. All (λ child. child < length children.now) list.items) children.now }
    requires parents_exist { All (λ list. All (λ parent. parent < length parents.now) list.items) parents.now }
    requires turned { IsTurned (child_lists children.now) (child_lists parents.now) }
    requires count { length parents.now ≡ length children.now }
    requires numbered { length children.now < 2 ^ 32 }
    requires exists { start < length children.now }
    ensures on_cycle { IfOk result (λ found.
        MatchOption found (¬ (OnCycle (child_lists children.now) start))
        (λ _. OnCycle (child_lists children.now) start)) }
    ensures way { IfOk result (λ found. IfSome found (λ cycle.
        IsWayBack (child_lists children.now) start cycle.items)) }
{
    let distances = distances_from(alloc, parents, start)?;
    match nearest(children_at(children, start as usize), &distances) {
        Some((next, distance)) => {
            let cycle = way_back(alloc, children, &distances, start, next, distance)?;
            Ok(Some(cycle))
        }
        None => Ok(None),
    }
}

/// The cycle from its start over the next contract, from which so many references lead back.
fn way_back(
    alloc: Global,
    children: &[Vec<u32>],
    distances: &[Option<u32>],
    start: u32,
    next: u32,
    distance: u32,
) -> Result<Vec<u32>, AllocError>
    requires children_exist { All (λ list. All (λ child. child < length children.now) list.items) children.now }
    requires distances { AreDistancesTo (child_lists children.now) start distances.now }
    requires start_exists { start < length children.now }
    requires next_exists { next < length children.now }
    requires next { IsNext (child_lists children.now) start start next }
    requires near { slice_index_or distances.now next None ≡ Some distance }
    ensures { IfOk result (λ cycle. IsWayBack (child_lists children.now) start cycle.items) }
{
    let mut cycle = vec![in alloc; start]?;
    let (mut next, mut distance) = (next, distance);
    'way: while distance > 0 {
        cycle.push(next)?;
        match nearest(children_at(children, next as usize), distances) {
            Some(nearer) => (next, distance) = nearer,
            None => unreachable!(),
        }
    }
    Ok(cycle)
}
