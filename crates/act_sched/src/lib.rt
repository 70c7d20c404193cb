//! Schedules: the dates on which something recurs, up to an end.
#![tactic(auto)]

mod cycle_dates;
mod schedule;

pub use schedule::{SchedFault, Schedule, dates};
