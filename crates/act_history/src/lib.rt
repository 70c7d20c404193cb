//! What happens on a board, one mark after another, and which marks are legal by what stood before them.
#![tactic(auto)]

mod mark;

pub use mark::Mark;
