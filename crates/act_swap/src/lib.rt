//! Swaps, and caps and floors: SWPPV, SWAPS and CAPFL in full.
#![tactic(auto)]

mod calls;
mod capfl_table;
mod children;
mod limits;
mod netting;
mod plain_plan;
mod plain_steps;
mod plain_swap;
mod plain_table;
mod swaps_table;

pub use calls::{advance, currency_of, schedule, start, step, with_rows_of_children};
