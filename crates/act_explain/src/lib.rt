//! Why a command was refused, and what else is told of it, in sentences by which it can be mended: where it is in the file, what stands
//! there, and what was wanted. Nothing here is said by a clause: it is safe and ends.
#![tactic(auto)]

mod contracts;
mod dictionary;
mod grammar;
mod message;
mod near;
mod place;
mod portfolio;
mod scan;
mod script;
mod stops;
mod structure;
mod syntax;
mod unused;
mod wanted;
mod weight;
mod words;

pub use contracts::{Contract, File, Walk};
pub use message::Message;
pub use portfolio::{PortfolioRefusal, explain_portfolio};
pub use script::explain_line;
pub use stops::{FirstStop, explain_missing, explain_overflow};
pub use unused::{Unused, UnusedName};
pub use weight::{AskWeight, explain_weight};
pub use words::{Identity, audit_words_message, explain_length, explain_unread, words_message};
