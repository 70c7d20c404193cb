//! Business day conventions: the business day that a scheduled day is shifted to.
#![tactic(auto)]

mod days;
mod shifting;

pub use shifting::{Shifted, shift};
