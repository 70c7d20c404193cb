//! What is kept of each contract of a portfolio: its place in the order, the scheduled events that it counts, and over its
//! cone, which is the contract and all that it reaches, what it weighs and what its evaluation reads.
#![tactic(auto)]

mod codes;
mod cones;
mod counts;
mod places;

pub use cones::{Cones, all_cones};
pub use counts::Contracts;
pub use places::ranks;
