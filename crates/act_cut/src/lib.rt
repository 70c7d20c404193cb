//! The cut between two versions of a book: the day from which on what the newer one has more can matter to a contract.
#![tactic(auto)]

mod changes;
mod indexed;
mod lows;
mod versions;

pub use indexed::IndexedBook;
pub use versions::cut;
