//! Loans: what PAM, LAM, NAM and ANN have in common, and PAM in full.
#![tactic(auto)]

mod accrual;
mod accrual_start;
mod annuity;
mod ending;
mod exchange;
mod fees;
mod interest;
mod pam;
mod penalty;
mod planning;
mod redemption;
mod reset;
mod scaling;
mod starting;
mod steps;
mod table;
mod terms;

pub use pam::{loan_table, schedule, start, step};
pub use planning::resets_on;
pub use reset::reset_rate;
pub use steps::{advance_loan, start_loan, step_loan};
pub use table::LoanTable;
pub use terms::LoanTerms;
