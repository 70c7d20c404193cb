//! The list that a board stands for, where threads pass it on.
use crate::board::Board;
use act_history::Mark;
use act_portfolio::Portfolio;
use act_turn::Kept;
use std::collections::LinkedList;

/// An entry of the list that a board's history is. Contracts alone speak of it.
pub enum Entry {
    /// What the history opens with: the portfolio, and how many entries each caller may append.
    Opening(Portfolio, LinkedList<u64>),
    /// What has happened.
    Mark(Mark),
}

impl Kept for Board {
    ghost use Rattle.act_board.specs.Entries.{author_of, list_of};

    type Entry = Entry;

    ghost journal = { list_of };

    ghost author = { author_of };
}
