//! Any contract by its kind: its plan, its starting state, its steps and their currency, and its maturity. It hands each
//! call to the crate of the kind.
#![tactic(auto)]

mod contract;

pub use contract::{advance, currency_of, loan_table, maturity, schedule, start, step};
