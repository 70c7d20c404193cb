//! A portfolio and a script of any size from one number, for measuring: the same bytes at each run.
#![tactic(auto)]

mod draws;
mod members;
mod portfolio;
mod script;

pub use portfolio::portfolio_bytes;
pub use script::script_bytes;
