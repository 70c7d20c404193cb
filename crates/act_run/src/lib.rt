//! The run of a contract: the row of each of its events, up to the first stop.
#![tactic(auto)]

mod events;
mod inputs;
mod kept;
mod laws;
mod limit;
mod rows;
mod run;

pub use inputs::Inputs;
pub use kept::{is_kept_whole, kept_rows};
pub use laws::{
    runs_are_kept_between_versions, runs_before_a_change_are_kept,
    what_is_dated_before_a_change_stays, what_is_not_read_does_not_matter,
};
pub use run::{evaluate, resume, resume_shared};
