//! What the calls of a board answer.
use crate::work::Task;
use act_model::Answer;

/// Why an entry isn't appended.
#[derive(Clone, Copy, Debug, PartialEq, Eq)]
pub enum AppendFault {
    /// The caller has appended as many entries as its quota.
    QuotaSpent = 1,
    /// The board was given up.
    GivenUp,
    /// Memory ran out.
    NoMemory,
}

/// Why an ask isn't taken.
#[derive(Clone, Copy, Debug, PartialEq, Eq)]
pub enum AskFault {
    /// The caller has 256 asks open, or has made 4,194,304.
    AsksFull = 1,
    /// The board was given up.
    GivenUp,
    /// Memory ran out.
    NoMemory,
}

/// The answer to a claim.
#[derive(Drop)]
pub enum Claim {
    /// An evaluation to be made.
    Task(Task),
    /// There is none now; there may be one later.
    Idle,
    /// There is none, and none will come: all callers have left.
    Ended,
    /// The board was given up.
    GivenUp,
}

/// The answer to a caller that collects.
#[derive(Drop)]
pub enum Collected {
    /// The answer to the oldest of its asks that are open.
    Ready(Answer),
    /// An evaluation that it asked for isn't there yet.
    NotYet,
    /// The board was given up.
    GivenUp,
}
