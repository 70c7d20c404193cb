//! What is to be run: a portfolio and the scripts of its callers, read from files or from bytes.
#![tactic(auto)]

mod job;
mod portfolio;
mod script;
mod scripts;
mod weight;

pub use job::Job;
pub use portfolio::{accept_portfolio, read_portfolio};
pub use scripts::{Scripts, read_scripts};
pub use weight::first_overweight;
