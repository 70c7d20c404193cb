//! The profile as definitions: what every kind's schedule, state, step and run is.
#![tactic(auto)]
