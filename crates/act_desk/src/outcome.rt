//! What the calls of a desk answer that make several steps in one turn.
use act_board::{AppendFault, AskFault};

/// Why a step of a caller isn't made.
#[derive(Clone, Copy, PartialEq, Eq)]
pub enum StepFault {
    /// Why its entry isn't appended.
    Append(AppendFault),
    /// Why its ask isn't taken.
    Ask(AskFault),
}

/// How many of a caller's steps were made.
#[derive(Clone, Copy)]
pub struct Made {
    /// How many, from the first on.
    pub steps: usize,
    /// Why the next one wasn't made; None where all were.
    pub fault: Option<StepFault>,
}

/// What came of claiming evaluations.
#[derive(Clone, Copy, PartialEq, Eq)]
pub enum Claimed {
    /// There is at least one to be made.
    Tasks,
    /// There is none now; there may be one later.
    Idle,
    /// There is none, and none will come: all callers have left.
    Ended,
    /// The board was given up.
    GivenUp,
}
