//! A shared value that is passed from thread to thread in turns. Whoever has the turn has the
//! value, and hands it on with a longer journal.
#![tactic(auto)]

mod bell;
mod kept;
mod pass;
mod plays;
mod turn;
mod view;

pub use bell::Bell;
pub use kept::Kept;
pub use pass::{Held, Pass};
pub use turn::{NewFault, Turn};
