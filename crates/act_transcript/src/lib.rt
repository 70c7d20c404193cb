//! The text of a journal and of the answers to its asks, written part by part. The lines of rows that were written for an answer
//! are kept for the next ones, whose rows are mostly the same.
#![tactic(auto)]

mod answers;
mod beside;
mod blocks;
mod cuts;
mod ends;
mod heads;
mod rows;
mod windows;

pub use answers::{OneByOne, Way, answer_count, write_answers, write_answers_by};
pub use beside::SideBySide;
pub use blocks::{Blocks, Known};
pub use ends::{Stopped, Stops, stops_of};
pub use heads::{JournalStep, write_heads};
