//! Which blocks of answers close otherwise than with `end`.
ghost use Rattle.std.specs.Prelude.{◌≡◌, ◌&&◌, is_some, true};
ghost use Rattle.std.specs.List.{list_all};
ghost use Rattle.act_transcript.specs.Ends.{are_none, ends_well, is_end, stops_status};
ghost use Rattle.act_history.specs.History.{replies_of};

use act_engine::Status;
use act_model::{Answer, Close};

/// The blocks that close otherwise than with `end`.
#[derive(Clone, Copy)]
pub struct Stops {
    /// Those that close with `missing`.
    pub missing: Stopped,
    /// Those that close with `overflow`.
    pub overflow: Stopped,
}

/// Blocks that close in one way.
#[derive(Clone, Copy)]
pub struct Stopped {
    /// The contract of the first, and how it closes; None where there is no such block.
    pub first: Option<(u32, Close)>,
    /// How many there are behind the first, as far as a counter goes.
    pub more: u64,
}

/// Which blocks of answers stop.
pub fn stops_of(lists: &[Vec<Answer>]) -> Stops
    ensures { are_none result ≡ list_all ends_well (replies_of lists.now) }
{
    let mut stops = Stops::NONE;
    for answers in lists {
        stops.add_all(answers);
    }
    stops
}

impl Stops {
    /// No block stops.
    pub const NONE: Stops = Stops {
        missing: Stopped::NONE,
        overflow: Stopped::NONE,
    };

    /// Whether no block stops.
    pub fn are_none(&self) -> bool
        ensures { result ≡ are_none self.now }
    {
        self.missing.first.is_none() && self.overflow.first.is_none()
    }

    /// The status of a command that wrote these blocks, and others that end in `end`.
    pub fn status(&self) -> Status
        ensures { result ≡ stops_status self.now }
    {
        if self.are_none() {
            Status::Done
        } else {
            Status::Unfinished
        }
    }

    /// Adds those of an answer.
    pub fn add(&mut self, answer: &Answer)
        ensures { are_none self.new ≡ (are_none self.old && ends_well answer.now) }
    {
        for run in &answer.runs {
            self.add_block(run.0, run.1.close);
        }
    }

    /// Adds those of answers.
    fn add_all(&mut self, answers: &[Answer])
        ensures { are_none self.new ≡ (are_none self.old && list_all ends_well answers.now) }
    {
        for answer in answers {
            self.add(answer);
        }
    }

    /// Adds the block of a contract that closes so, if it stops.
    fn add_block(&mut self, contract: u32, close: Close)
        ensures { are_none self.new ≡ (are_none self.old && is_end close) }
    {
        match close {
            Close::End => (),
            Close::Missing { .. } => self.missing.add(contract, close),
            Close::Overflow { .. } => self.overflow.add(contract, close),
        }
    }
}

impl Stopped {
    /// No such block.
    const NONE: Stopped = Stopped {
        first: None,
        more: 0,
    };

    /// Adds the block of a contract that closes so.
    fn add(&mut self, contract: u32, close: Close)
        ensures { is_some self.new.first ≡ true }
    {
        match self.first {
            Some(_) => self.more = self.more.saturating_add(1),
            None => self.first = Some((contract, close)),
        }
    }
}
