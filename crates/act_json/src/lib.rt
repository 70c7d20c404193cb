//! Typed fields of JSON objects. Numbers are read as texts: a quoting pass puts bare numbers in quotes, and the
//! result is what `serde_json` reads.
#![tactic(auto)]

mod fault;
mod fields;
mod quoting;
mod reading;
mod tree;

pub use fault::JsonFault;
pub use fields::{cycle, day, decimal, period, required, text, word};
pub use quoting::{is_quoted, quote};
pub use reading::read;
pub use tree::{Object, items_of, member, read_tree, text_within};
