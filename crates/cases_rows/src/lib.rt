//! What the calls of cases share: what a row's call is given, and what it tells.
#![tactic(auto)]

mod case;
mod naming;
mod printed;
mod signs;
mod steps;
mod telling;

pub use case::Case;
pub use naming::number_of;
pub use printed::rows_told;
pub use signs::{change, parts_around};
pub use steps::{entry_told, name_told, step_told};
