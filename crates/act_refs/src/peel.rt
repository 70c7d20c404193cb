//! Contracts that are seen in linear time to be on no cycle.
ghost use Rattle.std.specs.Prelude.{◌≡◌, ℕ, ◌^◌, ◌<◌, ◌≤◌, true, false, length, slice_index, slice_index_or, IfOk, OnOk};
ghost use Rattle.std.specs.List.{All};
ghost use Rattle.act_refs.specs.Path.{child_lists};
ghost use Rattle.act_refs.specs.Peeled.{ArePeeled, IsPeeling};
ghost use Rattle.act_refs.specs.Turned.{IsTurned};

use crate::graph::children_at;
use std::alloc::{AllocError, Global};

/// Which contracts are on no cycle, as far as that follows from their children being on none, or from those that
/// refer to them being on none. It is meant to leave out only those that are on a cycle or between two, in time in
/// proportion to the contracts and references; no clause says so.
pub fn peeled_both_ways(
    alloc: Global,
    children: &[Vec<u32>],
    parents: &[Vec<u32>],
) -> Result<Vec<bool>, AllocError>
    requires children_exist { All (λ list. All (λ child. child < length children.now) list.items) children.now }
    requires parents_exist { All (λ list. All (λ parent. parent < length parents.now) list.items) parents.now }
    requires parents_count { length parents.now ≡ length children.now }
    requires turned { IsTurned (child_lists children.now) (child_lists parents.now) }
    requires numbered { length children.now < 2 ^ 32 }
    ensures count { IfOk result (λ peeled. length peeled.items ≡ length children.now) }
    ensures peeled { IfOk result (λ peeled. ArePeeled (child_lists children.now) peeled.items) }
{
    let mut on_no_cycle = peeled(alloc, children, parents)?;
    let led_from_nowhere = peeled(alloc, parents, children)?;
    'contracts: for contract in 0..children.len() {
        if led_from_nowhere[contract] {
            on_no_cycle[contract] = true;
        }
    }
    Ok(on_no_cycle)
}

/// Which contracts are on no cycle, as far as that follows from their children being on none. It is meant to leave
/// out only those that lead to a cycle.
#[tactic(auto, using(crate::proofs::Peeling::peeling_start))]
fn peeled(
    alloc: Global,
    children: &[Vec<u32>],
    parents: &[Vec<u32>],
) -> Result<Vec<bool>, AllocError>
    requires children_exist { All (λ list. All (λ child. child < length children.now) list.items) children.now }
    requires parents_exist { All (λ list. All (λ parent. parent < length parents.now) list.items) parents.now }
    requires parents_count { length parents.now ≡ length children.now }
    requires numbered { length children.now < 2 ^ 32 }
    ensures count { IfOk result (λ peeled. length peeled.items ≡ length children.now) }
    ensures peeled { IfOk result (λ peeled. ArePeeled (child_lists children.now) peeled.items) }
{
    let mut peeled = vec![in alloc; false; children.len()]?;
    let mut next = vec![in alloc; 0usize; children.len()]?;
    let mut queue = Vec::new(alloc);
    look_at_each(children, &mut next, &mut peeled, &mut queue)?;
    // Each contract comes into the queue once.
    'places: for place in 0..children.len() {
        if place >= queue.len() {
            return Ok(peeled);
        }
        look_at_parents(children, parents, place, &mut next, &mut peeled, &mut queue)?;
    }
    Ok(peeled)
}

/// Looks at each contract.
fn look_at_each(
    children: &[Vec<u32>],
    next: &mut [usize],
    peeled: &mut [bool],
    queue: &mut Vec<u32>,
) -> Result<(), AllocError>
    requires children_exist { All (λ list. All (λ child. child < length children.now) list.items) children.now }
    requires numbered { length children.now < 2 ^ 32 }
    requires before { IsPeeling (child_lists children.now) next.old peeled.old queue.old.items }
    ensures { OnOk result (IsPeeling (child_lists children.now) next.new peeled.new queue.new.items) }
{
    'contracts: for contract in 0..children.len() {
        look_at(children, contract, next, peeled, queue)?;
    }
    Ok(())
}

/// Looks at those that refer to the contract at a place in the queue.
fn look_at_parents(
    children: &[Vec<u32>],
    parents: &[Vec<u32>],
    place: usize,
    next: &mut [usize],
    peeled: &mut [bool],
    queue: &mut Vec<u32>,
) -> Result<(), AllocError>
    requires children_exist { All (λ list. All (λ child. child < length children.now) list.items) children.now }
    requires parents_exist { All (λ list. All (λ parent. parent < length parents.now) list.items) parents.now }
    requires parents_count { length parents.now ≡ length children.now }
    requires numbered { length children.now < 2 ^ 32 }
    requires within { place < length queue.old.items }
    requires before { IsPeeling (child_lists children.now) next.old peeled.old queue.old.items }
    ensures { OnOk result (IsPeeling (child_lists children.now) next.new peeled.new queue.new.items) }
{
    for parent in children_at(parents, queue[place] as usize) {
        look_at(children, *parent as usize, next, peeled, queue)?;
    }
    Ok(())
}

/// Goes on to the next child of a contract that isn't peeled. Where there is none, the contract is peeled, and put
/// into the queue.
fn look_at(
    children: &[Vec<u32>],
    contract: usize,
    next: &mut [usize],
    peeled: &mut [bool],
    queue: &mut Vec<u32>,
) -> Result<(), AllocError>
    requires children_exist { All (λ list. All (λ child. child < length children.now) list.items) children.now }
    requires exists { contract < length children.now }
    requires numbered { length children.now < 2 ^ 32 }
    requires before { IsPeeling (child_lists children.now) next.old peeled.old queue.old.items }
    ensures { OnOk result (IsPeeling (child_lists children.now) next.new peeled.new queue.new.items) }
{
    let list = children_at(children, contract);
    let place = first_unpeeled(list, peeled, next[contract]);
    next[contract] = place;
    if place >= list.len() && !peeled[contract] {
        peeled[contract] = true;
        queue.push(contract as u32)?;
    }
    Ok(())
}

/// The place of the first contract, from a place on, that isn't peeled, or the end of the list.
fn first_unpeeled(contracts: &[u32], peeled: &[bool], from: usize) -> usize
    requires { All (λ contract. contract < length peeled.now) contracts.now }
    ensures { (k : ℕ) → from ≤ k → k < result → k < length contracts.now →
        slice_index_or peeled.now (slice_index contracts.now k) false ≡ true }
{
    for k in from..contracts.len() {
        if !peeled[contracts[k] as usize] {
            return k;
        }
    }
    contracts.len()
}
