//! A place that each evaluation passes.
use std::marker::Sync;

/// Is told before and after each evaluation of a contract at a version.
pub trait Gate: Sync {
    /// Is told before an evaluation.
    fn enter(&self, contract: u32, version: u64);

    /// Is told after an evaluation.
    fn left(&self, contract: u32, version: u64);
}

/// A gate that does nothing.
#[derive(Clone, Copy, PartialEq, Eq)]
pub struct NoGate;

impl Gate for NoGate {
    fn enter(&self, _contract: u32, _version: u64) {}

    fn left(&self, _contract: u32, _version: u64) {}
}
