//! Annuities: the payment that redeems what is owed, if it is paid on each of some days.
#![tactic(auto)]

mod annuity;
mod factors;

pub use annuity::payment;
