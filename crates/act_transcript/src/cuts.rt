//! What of blocks is known to stay: rows before the first day that an entry between two versions touches are the same at both.
ghost use Rattle.std.specs.Prelude.{◌≡◌, ◌≤◌, ℕ, ℤ, Option, None, Some, length, slice_get, take, IfSome, IsSomeAnd};
ghost use Rattle.act_history.specs.History.{entries_of, version_of};
ghost use Rattle.act_profile.specs.Kept.{kept_of};
ghost use Rattle.act_profile.specs.Run.{run_of};
ghost use Rattle.act_transcript.specs.KnownLines.{AreBlocksOf, AreKnownAt, AreOnesOf, known_to};

use crate::blocks::{Blocks, Known};
use act_board::Board;
use act_date::Day;
use act_num::NoMemory;
use std::alloc::Global;

impl Blocks<'_> {
    /// Tells what of the blocks stays at a version of a board's book. They are put together anew from here on, so that no version is
    /// known of all of them.
    pub fn know(&mut self, alloc: Global, board: &mut Board, version: u64)
        requires blocks { AreBlocksOf board.old self.old }
        requires version { version ≤ version_of board.old }
        ensures known { AreKnownAt board.old version self.new }
        ensures blocks { AreBlocksOf board.old self.new }
        ensures same { AreOnesOf self.old self.new }
        ensures at { self.new.at ≡ None }
        ensures board { board.new ≡ board.old }
    {
        let cuts = cuts_since(alloc, board, self.at, version);
        tell(&mut self.known, &cuts);
        self.at = None;
    }
}

/// Puts the cuts of contracts in place of what is known of their blocks. Nothing is known where there is no cut for a contract.
fn tell(known: &mut [Known], cuts: &[Option<Day>])
    ensures count { length known.new ≡ length known.old }
    ensures cuts { (c : ℕ) (cut : Option ℤ) → slice_get known.new c ≡ Some (known_to cut) → slice_get cuts.now c ≡ Some cut }
{
    for place in 0..known.len() {
        known[place] = known_by(cuts, place);
    }
}

/// What is known of a contract's block by its cut; nothing where there is none.
fn known_by(cuts: &[Option<Day>], contract: usize) -> Known
    ensures { (cut : Option ℤ) → result ≡ known_to cut → slice_get cuts.now contract ≡ Some cut }
{
    if contract >= cuts.len() {
        return Known::Nothing;
    }
    match cuts[contract] {
        Some(day) => Known::Before(day),
        None => Known::All,
    }
}

/// For each contract, the day from which on entries between two versions touch its cone, or None where none of them does; for no
/// contract where the first version isn't known, or there is no memory to tell. Of its runs at both the same is kept under it.
fn cuts_since(alloc: Global, board: &mut Board, at: Option<u64>, version: u64) -> Vec<Option<Day>>
    requires at { IfSome at (λ at. at ≤ version_of board.old) }
    requires version { version ≤ version_of board.old }
    ensures kept { (c : ℕ) (cut : Option ℤ) → slice_get result.items c ≡ Some cut → IsSomeAnd at (λ at.
        kept_of (run_of board.old.portfolio.contracts (take at (entries_of board.old)) c) cut
        ≡ kept_of (run_of board.old.portfolio.contracts (take version (entries_of board.old)) c) cut) }
    ensures board { board.new ≡ board.old }
{
    let Some(at) = at else {
        return Vec::new(alloc);
    };
    match board.cuts_between(at, version) {
        Ok(cuts) => cuts,
        Err(NoMemory) => Vec::new(alloc),
    }
}
