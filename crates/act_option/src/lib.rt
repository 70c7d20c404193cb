//! Options and futures on market objects: OPTNS and FUTUR in full.
#![tactic(auto)]

mod amounts;
mod calls;
mod events;
mod exercise;
mod table;

pub use calls::{schedule, start, step};
pub use events::{event_on, not_before, push_exercise, settled_events};
pub use exercise::{earlier, exercised_events};
