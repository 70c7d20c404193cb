//! How a command ended.

use act_board::Board;
use act_engine::{Halt, Refusal, Status};
use act_job::Job;
use act_transcript::Stops;

/// How a command ended, and the board of its run, which is given exactly where the command is run by threads and its status is `Done`
/// or `Unfinished`.
#[derive(Drop)]
pub struct Ran<'a> {
    /// How it ended.
    pub status: Status,
    /// The closed board of the run: its journal is the one that was written, or whose totals were.
    pub board: Option<Board>,
    /// What can be told of it beside its text.
    pub aside: Aside<'a>,
}

/// What can be told of a command beside its text. No clause speaks of it.
#[derive(Drop)]
pub enum Aside<'a> {
    /// Nothing.
    Nothing,
    /// Why it was refused.
    Refused(Refusal<'a>),
    /// What was run, and which blocks of its text stop.
    Written {
        /// What was run.
        job: Job,
        /// The blocks of its text that stop.
        stops: Stops,
    },
}

impl<'a> Aside<'a> {
    /// What can be told of a command that stopped.
    pub(crate) fn of_halt(halt: Halt<'a>) -> Aside<'a> {
        match halt {
            Halt::Refused(refusal) => Aside::Refused(refusal),
            Halt::Stopped(_) => Aside::Nothing,
        }
    }
}
