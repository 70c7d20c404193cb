//! Blocks that are put together side by side, before they are written in order.
ghost use Rattle.std.specs.Prelude.{◌≡◌, ◌<◌, ◌≤◌, ℤ, Option, None, Some, length, slice_get};
ghost use Rattle.act_transcript.specs.Beside.{AllWereRenewed, AreWhole, CanRenew, CanRenewAll, IsWhole, WereRenewed};
ghost use Rattle.act_transcript.specs.KnownLines.{AreBlocksOf, AreKnownAt, IsReplyOn, known_to};
ghost use Rattle.act_transcript.specs.Text.{shared_runs};

use crate::answers::{Way, are_of_all};
use crate::blocks::{Blocks, Known, known_at, renew_block};
use act_board::Board;
use act_engine::Failure;
use act_io::Sink;
use act_model::{Answer, Names, Run};
use act_text::RowLines;
use std::alloc::Global;
use std::sync::Arc;
use std::thread::{Threads, for_each_mut};

/// A thread is worth its price from so many rows on.
const ROWS_A_THREAD: usize = 4096;

/// The blocks of an answer of all contracts are put together side by side, by so many threads at most, and then written one after
/// the other.
#[derive(Clone, Copy)]
pub struct SideBySide<'a, R> {
    /// What makes the threads.
    pub rt: &'a R,
    /// How many there are at most.
    pub threads: usize,
}

impl<R: Threads + Sync> Way for SideBySide<'_, R> {
    ghost use denote.Param.Send.{IsSync};

    ghost is_open = { λ _. IsSync R.row };

    fn write_answer<K: Sink>(
        &self,
        out: &mut K,
        blocks: &mut Blocks<'_>,
        board: &Board,
        answer: &Answer,
    ) -> Result<(), Failure> {
        let threads = threads_for(&blocks.known, &answer.runs).min(self.threads);
        if threads < 2 {
            return blocks.write_known(out, board, answer);
        }
        if blocks.kept.is_empty() {
            return blocks.write_in_windows(self.rt, threads, out, answer);
        }
        blocks.renew_all(self.rt, threads, board, answer);
        blocks.write_known(out, board, answer)
    }
}

/// How many threads are worth their price where the blocks of runs are put together that aren't known whole.
fn threads_for(known: &[Known], runs: &[(u32, Arc<Run, Global>)]) -> usize {
    let mut rows: usize = 0;
    for place in 0..runs.len() {
        match known_at(known, place) {
            Known::All => {}
            Known::Before(_) | Known::Nothing => {
                rows = rows.saturating_add(runs[place].1.rows.count());
            }
        }
    }
    rows / ROWS_A_THREAD
}

impl Blocks<'_> {
    /// Puts together the blocks of an answer of a board by so many threads, where it is of all contracts. What is known of the
    /// blocks is so at its version. They are known whole then, but for those for which memory ran out: of these nothing is known.
    fn renew_all<R: Threads + Sync>(
        &mut self,
        rt: &R,
        threads: usize,
        board: &Board,
        answer: &Answer,
    )
        requires threads { 0 < threads }
        requires blocks { AreBlocksOf board.now self.old }
        requires at { self.old.at ≡ None }
        requires reply { IsReplyOn board.now answer.now }
        requires known { AreKnownAt board.now answer.now.version self.old }
        ensures blocks { AreBlocksOf board.now self.new }
        ensures known { AreKnownAt board.now answer.now.version self.new }
        ensures names { self.new.names.now ≡ self.old.names.now }
    {
        if !are_of_all(&answer.runs, self.kept.len()) {
            return;
        }
        let alloc = *self.line.allocator();
        renew_beside(
            rt,
            threads,
            alloc,
            self.names,
            &self.known,
            &mut self.kept,
            &answer.runs,
        );
        learn(&mut self.known, &self.kept);
    }
}

/// Makes lines the blocks of the runs at their places, by so many threads, as far as there is memory.
pub(crate) fn renew_beside<'a, R: Threads + Sync>(
    rt: &R,
    threads: usize,
    alloc: Global,
    names: &'a Names,
    known: &[Known],
    kept: &mut [RowLines<'a>],
    runs: &[(u32, Arc<Run, Global>)],
)
    requires threads { 0 < threads }
    requires can { CanRenewAll names.now known.now (shared_runs runs.now) kept.old }
    ensures renewed { AllWereRenewed names.now (shared_runs runs.now) kept.new }
{
    for_each_mut(
        rt,
        kept,
        threads,
        &|place: usize, lines: &mut RowLines<'_>|
            requires { CanRenew names.now known.now (shared_runs runs.now) place lines.now }
            ensures { WereRenewed names.entry.now (shared_runs runs.entry.now) place lines.exit.now }
        { renew_place(alloc, names, known, runs, place, lines) },
    );
}

/// Makes lines the block of the run at a place, or no lines where memory runs out.
fn renew_place<'a>(
    alloc: Global,
    names: &'a Names,
    known: &[Known],
    runs: &[(u32, Arc<Run, Global>)],
    place: usize,
    lines: &mut RowLines<'a>,
)
    requires { CanRenew names.now known.now (shared_runs runs.now) place lines.old }
    ensures { WereRenewed names.now (shared_runs runs.now) place lines.new }
{
    let (contract, run) = &runs[place];
    let mut line = Vec::new(alloc);
    let renewed = renew_block(
        &mut line,
        names,
        lines,
        known_at(known, place),
        *contract,
        run,
    );
    if renewed.is_err() {
        *lines = RowLines::new(alloc, names);
    }
}

/// Puts what is known of blocks whose lines were renewed: all of it where there are lines, and nothing where there are none.
fn learn(known: &mut [Known], kept: &[RowLines<'_>])
    ensures count { length known.new ≡ length known.old }
    ensures whole { AreWhole known.new kept.now }
{
    for place in 0..known.len() {
        known[place] = known_of(kept, place);
    }
}

/// What is known of a block whose lines were renewed.
fn known_of(kept: &[RowLines<'_>], place: usize) -> Known
    ensures { (cut : Option ℤ) → result ≡ known_to cut → IsWhole kept.now place cut }
{
    if place < kept.len() && !kept[place].text().is_empty() {
        Known::All
    } else {
        Known::Nothing
    }
}
