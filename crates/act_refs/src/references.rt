//! The order in which contracts are evaluated that refer to others.
ghost use Rattle.std.specs.Prelude.{◌≡◌, ℕ, ◌^◌, ◌<◌, false, List, length, Ok, Err, IfOk, IfErr, OnOk};
ghost use Rattle.std.specs.List.{All};
ghost use Rattle.act_refs.specs.Path.{HasNoCycle, child_lists};
ghost use Rattle.act_refs.specs.Order.{ChildrenStandFirst, IfCycle, IfTooDeep, IsFirstTooDeep, IsReferenceOrder, IsTooDeep};
ghost use Rattle.act_refs.specs.Ordered.{cyclic, deep, goes_on, most_in_chain, order_of};
ghost use Rattle.act_refs.specs.Cycle.{IsReportedCycle};
ghost use Rattle.act_refs.specs.declared.references.OrderFault.TheVariants.{NoMemory};

use crate::cycle::reported_cycle;
use crate::depth::{first_unknown, settle};
use crate::graph::nothing_known;
use std::alloc::{AllocError, Global};

/// The most contracts in a chain, each a child of the one before.
pub const MOST_IN_CHAIN: u32 = 16;

/// Why contracts have no order.
#[derive(Debug, PartialEq, Eq, Drop)]
pub enum OrderFault {
    /// Contracts refer to one another in a cycle. The list starts with the least contract that is on one, and
    /// leads from each to its first child among those from which the fewest references lead back to the start.
    Cycle(Vec<u32>),
    /// There is no cycle, and this is the least contract at which a chain of more than 16 contracts starts.
    TooDeep(u32),
    /// Memory has run out.
    NoMemory,
}

impl From<AllocError> for OrderFault {
    ghost from_gives = { λ _ fault. fault ≡ NoMemory };

    fn from(_fault: AllocError) -> OrderFault {
        OrderFault::NoMemory
    }
}

/// The order in which contracts are evaluated: by depth, and then by number, so children come first. A contract
/// is named by its place in `children`, which has for each those it refers to, in structure order. Its depth is
/// the number of contracts on the longest chain that starts at it.
///
/// `Cycle` comes exactly where there is a cycle, and `TooDeep` where there is none, but a contract is of a depth
/// above 16, unless memory runs out first.
pub fn order(alloc: Global, children: &[Vec<u32>]) -> Result<Vec<u32>, OrderFault>
    requires children_exist { All (λ list. All (λ child. child < length children.now) list.items) children.now }
    requires numbered { length children.now < 2 ^ 32 }
    ensures order { IfOk result (λ order. IsReferenceOrder (child_lists children.now) order.items) }
    ensures ok_without_cycle { OnOk result (HasNoCycle (child_lists children.now)) }
    ensures ok_within_limit { OnOk result ((contract : ℕ) → ¬ (IsTooDeep (child_lists children.now) contract)) }
    ensures cycle { IfErr result (λ fault. IfCycle fault (IsReportedCycle (child_lists children.now))) }
    ensures too_deep { IfErr result (λ fault. IfTooDeep fault (IsFirstTooDeep (child_lists children.now))) }
    ensures too_deep_without_cycle { IfErr result (λ fault.
        IfTooDeep fault (λ _. HasNoCycle (child_lists children.now))) }
    ensures ordered_as { IfOk result (λ order. order_of (child_lists children.now) ≡ Ok order.items) }
    ensures cycle_as { IfErr result (λ fault.
        IfCycle fault (λ cycle. order_of (child_lists children.now) ≡ Err (cyclic cycle))) }
    ensures too_deep_as { IfErr result (λ fault.
        IfTooDeep fault (λ contract. order_of (child_lists children.now) ≡ Err (deep contract))) }
{
    let mut depths = nothing_known(alloc, children.len())?;
    let mut order = Vec::new(alloc);
    for depth in 1..=MOST_IN_CHAIN {
        settle(children, depth, &mut depths, &mut order)?;
    }
    match first_unknown(&depths) {
        None => Ok(order),
        Some(contract) => match reported_cycle(alloc, children)? {
            Some(cycle) => Err(OrderFault::Cycle(cycle)),
            None => Err(OrderFault::TooDeep(contract)),
        },
    }
}

/// In an order that `order` answers each child stands before its parent.
pub fn children_stand_first()
    ensures { ChildrenStandFirst }
{}

/// Where there is an order, no chain has more than 16 contracts.
pub fn chains_are_short()
    ensures { (graph : List (List ℕ)) (order : List ℕ) → order_of graph ≡ Ok order →
        (contract : ℕ) → contract < length graph → goes_on graph most_in_chain contract ≡ false }
{}

/// Where there is an order, it is the reference order, so that each contract stands in it once, and each child
/// before its parent.
pub fn order_is_reference_order()
    ensures { (graph : List (List ℕ)) (order : List ℕ) → order_of graph ≡ Ok order → IsReferenceOrder graph order }
{}
