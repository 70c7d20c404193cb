//! Loans whose principal is redeemed before maturity: LAM, NAM and ANN.
#![tactic(auto)]

mod amort;
mod bases;
mod fixings;
mod interest;
mod maturity;
mod planning;
mod redemptions;
mod terms;

pub use amort::{loan_table, schedule, start, step};
pub use maturity::maturity_of;
