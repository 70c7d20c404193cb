//! The board under threads: callers and workers, each in a thread of its own, have it in turns. Each call is one step of one history,
//! or several of them in one turn.
#![tactic(auto)]

mod caller;
mod context;
mod desk;
mod from_answer;
mod outcome;
mod steps;
mod worker;
mod working;

pub use context::Context;
pub use desk::{Desk, DeskPass};
pub use from_answer::FromAnswer;
pub use outcome::{Claimed, Made, StepFault};
