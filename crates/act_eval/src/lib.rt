//! The evaluation of one caller's script on one thread: a board that the caller has to itself.
#![tactic(auto)]

mod answers;
mod driving;
mod evaluation;
mod writing;

pub use evaluation::Evaluation;
