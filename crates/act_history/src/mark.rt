//! What happens on a board.
ghost use Rattle.std.specs.Prelude.{◌≡◌};
ghost use Rattle.act_history.specs.declared.mark.Mark.TheVariants as mark;

use act_model::{Asked, Obs};

/// What happens on a board, one step after another.
#[derive(Clone, Copy, PartialEq, Eq)]
pub enum Mark {
    /// A caller appends an entry to the book.
    Append {
        /// The caller's number, from 1.
        caller: u32,
        /// The entry.
        entry: Obs,
    },
    /// A caller asks for evaluations over the entries that stand in the book.
    Ask {
        /// The caller's number, from 1.
        caller: u32,
        /// What it asks for.
        asked: Asked,
    },
    /// The evaluation of a contract over the first entries of the book is handed out.
    Claim {
        /// The contract's number.
        contract: u32,
        /// Over how many entries.
        version: u64,
    },
    /// The evaluation of a contract comes back, and is the contract's result at that version.
    Finish {
        /// The contract's number.
        contract: u32,
        /// Over how many entries.
        version: u64,
    },
    /// A caller is given the answer to the oldest of its asks that are open.
    Collect {
        /// The caller's number, from 1.
        caller: u32,
    },
    /// A caller leaves.
    Leave {
        /// The caller's number, from 1.
        caller: u32,
    },
    /// Somebody gives up, for want of memory: nothing is appended, asked, claimed or collected from here on.
    GiveUp,
}

impl Mark {
    /// A caller appends an entry.
    pub fn append(caller: u32, entry: &Obs) -> Mark
        ensures { result ≡ mark.Append caller entry.now }
    {
        let entry = *entry;
        Mark::Append { caller, entry }
    }

    /// A caller asks.
    pub fn ask(caller: u32, asked: Asked) -> Mark
        ensures { result ≡ mark.Ask caller asked }
    {
        Mark::Ask { caller, asked }
    }

    /// The evaluation of a contract over so many entries is handed out.
    pub fn claim(contract: u32, version: u64) -> Mark
        ensures { result ≡ mark.Claim contract version }
    {
        Mark::Claim { contract, version }
    }

    /// It comes back.
    pub fn finish(contract: u32, version: u64) -> Mark
        ensures { result ≡ mark.Finish contract version }
    {
        Mark::Finish { contract, version }
    }

    /// A caller is given an answer.
    pub fn collect(caller: u32) -> Mark
        ensures { result ≡ mark.Collect caller }
    {
        Mark::Collect { caller }
    }

    /// A caller leaves.
    pub fn leave(caller: u32) -> Mark
        ensures { result ≡ mark.Leave caller }
    {
        Mark::Leave { caller }
    }
}
