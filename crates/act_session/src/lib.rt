//! Sessions of a desk: callers with their scripts and workers, each in a thread of its own, from the first call to the closed board.
#![tactic(auto)]

mod actor;
mod outcome;
mod seats;
mod threads;

pub use outcome::Session;
pub use threads::session;
