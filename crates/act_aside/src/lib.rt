//! What is told of a command beside its text: why it was refused, or which names of the portfolio aren't used and which blocks of the
//! text stop. No clause speaks of it: it is safe, it ends, and it changes neither the text nor the status.
#![tactic(auto)]

mod again;
mod named;
mod refusal;
mod text;
mod weight;

pub use again::{Again, PlainFiles};
pub use named::Named;
pub use refusal::refusal_message;
pub use text::text_message;
