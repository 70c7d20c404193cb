//! The book of observations: entries are added at its end, and a snapshot sees the first of them.
//!
//! A book keeps runs of its entries sorted, each twice as long as another, and its snapshots share them. What is asked of a
//! snapshot is a binary search in each of at most fifteen runs, and a look at the entries behind them: at most 32 where it has
//! the whole book, and fewer than 256 where it is older.
#![tactic(auto)]

mod book;
mod order;
mod rates;
mod recent;
mod run;
mod snapshot;

pub use book::{Book, BookFault};
pub use snapshot::Snapshot;
