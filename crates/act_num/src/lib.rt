//! Numbers of the engine: amounts, rates and prices in whole units of 10^-9 and their decimal text, scaling
//! factors in whole units of 10^-12, with one rounding an operation; and a count of steps. No operation
//! allocates, and none uses more than 128 bits.
#![tactic(auto)]

mod decimal;
mod factor;
mod fixed;
mod pieces;
mod rounding;
mod steps;
mod text;

pub use decimal::DecimalFault;
pub use factor::Factor;
pub use fixed::Fixed;
pub use rounding::rnd;
use std::alloc::{AllocError, AllocFailed};
pub use steps::Steps;

/// Memory ran out.
#[derive(Clone, Copy, PartialEq, Eq)]
pub struct NoMemory;

impl From<AllocError> for NoMemory {
    fn from(_error: AllocError) -> NoMemory {
        NoMemory
    }
}

impl<T: Drop> From<AllocFailed<T>> for NoMemory {
    fn from(_error: AllocFailed<T>) -> NoMemory {
        NoMemory
    }
}
