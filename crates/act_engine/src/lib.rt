//! What all commands share: the files that they read, why they are refused, the lines that they write, and how they end.
#![tactic(auto)]

mod conclusion;
mod fetching;
mod halt;
mod line;
mod refusal;
mod status;
mod words;
mod writing;

pub use conclusion::conclude;
pub use fetching::fetch;
pub use halt::Halt;
pub use line::{line_of, write_line, write_number};
pub use refusal::{Refusal, ScriptRule};
pub use status::{Status, exit_of};
pub use words::words_behind_the_name;
pub use writing::{Failure, write_text};
