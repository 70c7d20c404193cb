//! Guarantees, which pay after a credit event of a contract that they cover: CEG and CEC in full.
#![tactic(auto)]

mod amounts;
mod calls;
mod events;
mod exposures;
mod plan;
mod table;

pub use calls::{schedule, start, step};
pub use events::{credit_day, guarantee_events};
