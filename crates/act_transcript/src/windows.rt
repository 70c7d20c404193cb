//! Blocks whose lines aren't kept for another answer: some at a time are put together side by side, and then written.
ghost use Rattle.std.specs.Prelude.{◌≡◌, ◌<◌, ◌≤◌, ℕ, length, IfOk};
ghost use Rattle.std.specs.List.{All};
ghost use Rattle.act_engine.specs.Writing.{Writes};
ghost use Rattle.act_model.specs.Run.{Stream};
ghost use Rattle.act_print.specs.Printed.{printed_answer, printed_block};
ghost use Rattle.act_print.specs.Text.{answer_text, block_text};
ghost use Rattle.act_transcript.specs.Beside.{AllWereRenewed, IsBlockOrNone};
ghost use Rattle.act_transcript.specs.Text.{runs_text, shared_runs};

use crate::beside::renew_beside;
use crate::blocks::{Blocks, no_lines};
use crate::rows::write_new_block;
use act_engine::{Failure, write_text};
use act_io::Sink;
use act_model::{Answer, Names, Run};
use act_text::RowLines;
use std::alloc::Global;
use std::sync::Arc;
use std::thread::Threads;

/// So many blocks are put together by a thread before they are written.
const BLOCKS_A_THREAD: usize = 64;

impl Blocks<'_> {
    /// Writes an answer and keeps no lines of it. Some blocks at a time are put together by so many threads, with memory for these
    /// alone.
    pub(crate) fn write_in_windows<R: Threads + Sync, K: Sink>(
        &mut self,
        rt: &R,
        threads: usize,
        out: &mut K,
        answer: &Answer,
    ) -> Result<(), Failure>
        requires threads { 0 < threads }
        requires named { All (λ (run : ℕ × Stream). run.0 < length self.old.names.now.contracts) answer.now.runs }
        ensures text { Writes (answer_text self.old.names.now (printed_answer answer.now)) (K.page out.old) result (K.page out.new) }
        ensures names { self.new.names.now ≡ self.old.names.now }
        ensures kept { self.new.kept ≡ self.old.kept }
        ensures at { self.new.at ≡ self.old.at }
    {
        self.write_head(out, answer)?;
        let alloc = *self.line.allocator();
        let places = threads.saturating_mul(BLOCKS_A_THREAD);
        let mut window = no_lines(alloc, self.names, places)?;
        let mut rest: &[(u32, Arc<Run, Global>)] = &answer.runs;
        'windows: while !rest.is_empty() {
            window.truncate(rest.len());
            let (some, behind) = rest.split_at(window.len());
            renew_beside(rt, threads, alloc, self.names, &[], &mut window, some);
            write_window(out, &mut self.line, self.names, &window, some)?;
            rest = behind;
        }
        Ok(())
    }
}

/// Writes the blocks of runs, each with the lines at its place.
fn write_window<K: Sink>(
    out: &mut K,
    line: &mut Vec<u8>,
    names: &Names,
    window: &[RowLines<'_>],
    runs: &[(u32, Arc<Run, Global>)],
) -> Result<(), Failure>
    requires places { length window.now ≡ length runs.now }
    requires named { All (λ (run : ℕ × Stream). run.0 < length names.now.contracts) (shared_runs runs.now) }
    requires renewed { AllWereRenewed names.now (shared_runs runs.now) window.now }
    ensures { Writes (runs_text names.now (shared_runs runs.now)) (K.page out.old) result (K.page out.new) }
{
    for (place, run) in runs.iter().enumerate() {
        write_lines(out, line, names, &window[place], run.0, &run.1)?;
    }
    Ok(())
}

/// Writes a block from its lines, or row by row where there are none.
fn write_lines<K: Sink>(
    out: &mut K,
    line: &mut Vec<u8>,
    names: &Names,
    lines: &RowLines<'_>,
    contract: u32,
    run: &Run,
) -> Result<(), Failure>
    requires contract { contract < length names.now.contracts }
    requires named { lines.now.names ≡ names.now }
    requires block { IsBlockOrNone contract run.now lines.now }
    ensures { Writes (block_text names.now (printed_block (contract, run.now))) (K.page out.old) result (K.page out.new) }
{
    let text = lines.text();
    if text.is_empty() {
        write_new_block(out, line, names, contract, run)
    } else {
        write_text(out, text)
    }
}
