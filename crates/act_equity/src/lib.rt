//! Stocks and foreign exchange outrights: STK and FXOUT in full.
#![tactic(auto)]

mod equity;
mod fxout;
mod stk;

pub use equity::{currency_of, schedule, start, step};
