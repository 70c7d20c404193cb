//! Portfolios: what the bytes of a file are, contract by contract, or why they are refused.
#![tactic(auto)]

mod fit;
mod graph;
mod portfolio;
mod reading;

pub use act_refusal::PortfolioFault;
pub use portfolio::{Portfolio, runs_are_over_children};
