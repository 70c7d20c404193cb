//! The board that callers and workers share: what happens on it one step after another, which evaluations are asked for, and
//! what came of them.
#![tactic(auto)]

mod below;
mod board;
mod claiming;
mod cuts;
mod history;
mod latest;
mod outcome;
mod ready;
mod refer;
mod wanting;
mod work;

pub use act_history::Mark;
pub use board::Board;
pub use history::Entry;
pub use outcome::{AppendFault, AskFault, Claim, Collected};
pub use work::{Done, Task};
