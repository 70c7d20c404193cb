//! Worked examples of the definitions: small contracts, what they pay, and each line of the tables of steps.
#![tactic(auto)]

mod special;
mod tables;
mod worked;

pub use special::{
    special_events, special_guarantees, special_options, special_schedules, special_steps,
    special_swaps,
};
pub use tables::{
    counted_days, kept_parts, starting_states, steps_of_guarantees, steps_of_loans, steps_of_swaps,
    steps_of_trades,
};
pub use worked::{worked_guarantees, worked_loans, worked_swaps, worked_trades};
