//! References between contracts: the order in which they are evaluated, children first.
#![tactic(auto)]

mod cycle;
mod depth;
mod distance;
mod graph;
mod peel;
mod references;

pub use references::{
    MOST_IN_CHAIN, OrderFault, chains_are_short, children_stand_first, order,
    order_is_reference_order,
};
