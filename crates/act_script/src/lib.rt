//! Scripts: what their lines say, and what their asks weigh.
#![tactic(auto)]

mod fault;
mod form;
mod lines;
mod plain;
mod reading;
mod step;
mod weight;

pub use fault::ScriptFault;
pub use reading::read_script;
pub use weight::{All, MOST_WEIGHT, weigh};
