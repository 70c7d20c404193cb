//! Contracts with their children as a graph, and the graph turned around.
ghost use Rattle.std.specs.Prelude.{◌≡◌, ◌^◌, ◌<◌, None, length, replicate, IfOk, OnOk};
ghost use Rattle.std.specs.List.{All};
ghost use Rattle.act_refs.specs.Path.{child_lists, children_of};
ghost use Rattle.act_refs.specs.Turned.{AddsParent, IsTurned};

use std::alloc::{AllocError, Global};

/// The children of a contract, in structure order.
pub fn children_at(children: &[Vec<u32>], contract: usize) -> &[u32]
    requires children_exist { All (λ list. All (λ child. child < length children.now) list.items) children.now }
    requires exists { contract < length children.now }
    ensures children { result.now ≡ children_of (child_lists children.now) contract }
    ensures exist { All (λ child. child < length children.now) result.now }
{
    &children[contract]
}

/// For each contract those that refer to it.
pub fn parents_of(alloc: Global, children: &[Vec<u32>]) -> Result<Vec<Vec<u32>>, AllocError>
    requires children_exist { All (λ list. All (λ child. child < length children.now) list.items) children.now }
    requires numbered { length children.now < 2 ^ 32 }
    ensures count { IfOk result (λ parents. length parents.items ≡ length children.now) }
    ensures exist { IfOk result
        (λ parents. All (λ list. All (λ parent. parent < length parents.items) list.items) parents.items) }
    ensures turned { IfOk result (λ parents. IsTurned (child_lists children.now) (child_lists parents.items)) }
{
    let mut parents = no_lists(alloc, children.len())?;
    'contracts: for contract in 0..children.len() {
        add_parent(
            &mut parents,
            children_at(children, contract),
            contract as u32,
        )?;
    }
    Ok(parents)
}

/// For each of so many contracts nothing.
pub fn nothing_known(alloc: Global, count: usize) -> Result<Vec<Option<u32>>, AllocError>
    ensures { IfOk result (λ known. known.items ≡ replicate count None) }
{
    let mut known = Vec::new(alloc);
    for _contract in 0..count {
        known.push(None)?;
    }
    Ok(known)
}

/// So many empty lists.
fn no_lists(alloc: Global, count: usize) -> Result<Vec<Vec<u32>>, AllocError>
    ensures count { IfOk result (λ lists. length lists.items ≡ count) }
    ensures empty { IfOk result (λ lists. All (λ list. length list.items ≡ 0) lists.items) }
{
    let mut lists = Vec::new(alloc);
    for _list in 0..count {
        lists.push(Vec::new(alloc))?;
    }
    Ok(lists)
}

/// Adds a contract to the parents of each of its children.
fn add_parent(parents: &mut [Vec<u32>], children: &[u32], parent: u32) -> Result<(), AllocError>
    requires { All (λ child. child < length parents.old) children.now }
    ensures { OnOk result
        (AddsParent (child_lists parents.old) (child_lists parents.new) children.now parent) }
{
    for child in children {
        parents[*child as usize].push(parent)?;
    }
    Ok(())
}
