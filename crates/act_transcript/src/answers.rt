//! Writing answers.
ghost use Rattle.std.specs.Prelude.{⊤, ◌≡◌, ◌≤◌, ◌<◌, ◌^◌, ℕ, None, length, IfOk, IfSome, IsTrue, OnOk};
ghost use Rattle.std.specs.Arc.{arc_value};
ghost use Rattle.std.specs.List.{All};
ghost use Rattle.act_engine.specs.Writing.{Writes};
ghost use Rattle.act_model.specs.Answer.{Reply};
ghost use Rattle.act_model.specs.Run.{Stream};
ghost use Rattle.act_print.specs.Printed.{printed_answer, printed_block};
ghost use Rattle.act_print.specs.Text.{answer_head_text, answer_text, block_text};
ghost use Rattle.act_text.specs.Kept.{AreWrittenWith};
ghost use Rattle.act_transcript.specs.KnownLines.{AreBlocksOf, AreKnown, AreKnownAt, AreOfAll, AreOnesOf, AreRenewed, IsKnown, IsRenewed, IsReplyOn};
ghost use Rattle.act_history.specs.History.{replies_of};
ghost use Rattle.act_transcript.specs.Text.{answers_text, runs_text, shared_runs};

use crate::blocks::{Blocks, known_at, renew_block};
use crate::rows::write_new_block;
use act_board::Board;
use act_engine::{Failure, write_text};
use act_io::Sink;
use act_model::{Answer, Run};
use act_print::answer_head;
use std::alloc::Global;
use std::sync::Arc;

/// In which way an answer is written, whose blocks' lines are known so far at its version.
pub trait Way {
    /// Whether it is open: the threads that it takes may share what makes them.
    ghost is_open: { Self → Type 0 };

    /// Writes an answer of a board.
    fn write_answer<K: Sink>(
        &self,
        out: &mut K,
        blocks: &mut Blocks<'_>,
        board: &Board,
        answer: &Answer,
    ) -> Result<(), Failure>
        requires way { is_open self.now }
        requires blocks { AreBlocksOf board.now blocks.old }
        requires at { blocks.old.at ≡ None }
        requires named { All (λ (run : ℕ × Stream). run.0 < length blocks.old.names.now.contracts) answer.now.runs }
        requires reply { IsReplyOn board.now answer.now }
        requires known { AreKnownAt board.now answer.now.version blocks.old }
        ensures text { Writes (answer_text blocks.old.names.now (printed_answer answer.now)) (K.page out.old) result (K.page out.new) }
        ensures blocks { IfOk result (λ _. AreBlocksOf board.now blocks.new) }
        ensures names { IfOk result (λ _. blocks.new.names.now ≡ blocks.old.names.now) };
}

/// One block is put together and written after the other.
#[derive(Clone, Copy)]
pub struct OneByOne;

impl Way for OneByOne {
    ghost is_open = { λ _. ⊤ };

    fn write_answer<K: Sink>(
        &self,
        out: &mut K,
        blocks: &mut Blocks<'_>,
        board: &Board,
        answer: &Answer,
    ) -> Result<(), Failure> {
        blocks.write_known(out, board, answer)
    }
}

/// Writes the answers to the asks of a board's callers, caller after caller.
pub fn write_answers<K: Sink>(
    out: &mut K,
    blocks: &mut Blocks<'_>,
    board: &mut Board,
    lists: &[Vec<Answer>],
) -> Result<(), Failure>
    requires blocks { AreBlocksOf board.old blocks.old }
    requires named { All (λ (answer : Reply). All (λ (run : ℕ × Stream). run.0 < length blocks.old.names.now.contracts) answer.runs) (replies_of lists.now) }
    requires replies { All (IsReplyOn board.old) (replies_of lists.now) }
    ensures text { Writes (answers_text blocks.old.names.now (replies_of lists.now)) (K.page out.old) result (K.page out.new) }
    ensures board { board.new ≡ board.old }
{
    write_answers_by(&OneByOne, out, blocks, board, lists)
}

/// The same, in a way.
pub fn write_answers_by<W: Way, K: Sink>(
    way: &W,
    out: &mut K,
    blocks: &mut Blocks<'_>,
    board: &mut Board,
    lists: &[Vec<Answer>],
) -> Result<(), Failure>
    requires way { W.is_open way.now }
    requires blocks { AreBlocksOf board.old blocks.old }
    requires named { All (λ (answer : Reply). All (λ (run : ℕ × Stream). run.0 < length blocks.old.names.now.contracts) answer.runs) (replies_of lists.now) }
    requires replies { All (IsReplyOn board.old) (replies_of lists.now) }
    ensures text { Writes (answers_text blocks.old.names.now (replies_of lists.now)) (K.page out.old) result (K.page out.new) }
    ensures board { board.new ≡ board.old }
{
    for answers in lists {
        write_list(way, out, blocks, board, answers)?;
    }
    Ok(())
}

/// Writes answers of a board.
fn write_list<W: Way, K: Sink>(
    way: &W,
    out: &mut K,
    blocks: &mut Blocks<'_>,
    board: &mut Board,
    answers: &[Answer],
) -> Result<(), Failure>
    requires way { W.is_open way.now }
    requires blocks { AreBlocksOf board.old blocks.old }
    requires named { All (λ (answer : Reply). All (λ (run : ℕ × Stream). run.0 < length blocks.old.names.now.contracts) answer.runs) answers.now }
    requires replies { All (IsReplyOn board.old) answers.now }
    ensures text { Writes (answers_text blocks.old.names.now answers.now) (K.page out.old) result (K.page out.new) }
    ensures blocks { IfOk result (λ _. AreBlocksOf board.old blocks.new) }
    ensures names { IfOk result (λ _. blocks.new.names.now ≡ blocks.old.names.now) }
    ensures board { board.new ≡ board.old }
{
    let alloc = *blocks.line.allocator();
    for answer in answers {
        blocks.know(alloc, board, answer.version);
        way.write_answer(out, blocks, board, answer)?;
    }
    Ok(())
}

/// How many answers there are.
pub fn answer_count<A>(lists: &[Vec<A>]) -> usize
    requires { length (replies_of lists.now) < 2 ^ 64 }
    ensures { result ≡ length (replies_of lists.now) }
{
    let mut count = 0;
    for answers in lists {
        count += answers.len();
    }
    count
}

impl Blocks<'_> {
    /// Writes an answer of a board. What is known of the blocks is so at its version.
    pub fn write_known<K: Sink>(
        &mut self,
        out: &mut K,
        board: &Board,
        answer: &Answer,
    ) -> Result<(), Failure>
        requires blocks { AreBlocksOf board.now self.old }
        requires named { All (λ (run : ℕ × Stream). run.0 < length self.old.names.now.contracts) answer.now.runs }
        requires reply { IsReplyOn board.now answer.now }
        requires known { AreKnownAt board.now answer.now.version self.old }
        ensures text { Writes (answer_text self.old.names.now (printed_answer answer.now)) (K.page out.old) result (K.page out.new) }
        ensures blocks { IfOk result (λ _. AreBlocksOf board.now self.new) }
        ensures names { IfOk result (λ _. self.new.names.now ≡ self.old.names.now) }
        ensures count { IfOk result (λ _. length self.new.kept.items ≡ length self.old.kept.items) }
    {
        self.write_head(out, answer)?;
        self.write_blocks(out, &answer.runs)?;
        self.at = if are_of_all(&answer.runs, self.kept.len()) {
            Some(answer.version)
        } else {
            None
        };
        Ok(())
    }

    /// Writes the line above an answer.
    pub(crate) fn write_head<K: Sink>(
        &mut self,
        out: &mut K,
        answer: &Answer,
    ) -> Result<(), Failure>
        ensures text { Writes (answer_head_text answer.now.caller answer.now.number answer.now.version) (K.page out.old) result (K.page out.new) }
        ensures names { self.new.names.now ≡ self.old.names.now }
        ensures kept { self.new.kept ≡ self.old.kept }
        ensures known { self.new.known ≡ self.old.known }
        ensures at { self.new.at ≡ self.old.at }
    {
        self.line.clear();
        answer_head(answer, &mut self.line)?;
        write_text(out, &self.line)
    }

    /// Writes the blocks of contracts with their runs.
    fn write_blocks<K: Sink>(
        &mut self,
        out: &mut K,
        runs: &[(u32, Arc<Run, Global>)],
    ) -> Result<(), Failure>
        requires named { All (λ (run : ℕ × Stream). run.0 < length self.old.names.now.contracts) (shared_runs runs.now) }
        requires written { AreWrittenWith self.old.names.now self.old.kept.items }
        requires known { AreKnown self.old.known.items self.old.kept.items (shared_runs runs.now) }
        ensures text { Writes (runs_text self.old.names.now (shared_runs runs.now)) (K.page out.old) result (K.page out.new) }
        ensures same { IfOk result (λ _. AreOnesOf self.old self.new) }
        ensures renewed { IfOk result (λ _. AreRenewed (shared_runs runs.now) self.old.kept.items self.new.kept.items) }
    {
        for run in runs {
            self.write_block(out, run.0, &run.1)?;
        }
        Ok(())
    }

    /// Writes the block of a contract with its run, and keeps its lines where there is a place for the contract.
    fn write_block<K: Sink>(
        &mut self,
        out: &mut K,
        contract: u32,
        run: &Arc<Run, Global>,
    ) -> Result<(), Failure>
        requires contract { contract < length self.old.names.now.contracts }
        requires written { AreWrittenWith self.old.names.now self.old.kept.items }
        requires known { IsKnown self.old.known.items self.old.kept.items contract (arc_value run.now) }
        ensures text { Writes (block_text self.old.names.now (printed_block (contract, arc_value run.now))) (K.page out.old) result (K.page out.new) }
        ensures same { AreOnesOf self.old self.new }
        ensures known { self.new.known ≡ self.old.known }
        ensures renewed { OnOk result (IsRenewed contract (arc_value run.now) self.old.kept.items self.new.kept.items) }
    {
        let place = contract as usize;
        if place < self.kept.len() {
            renew_block(
                &mut self.line,
                self.names,
                &mut self.kept[place],
                known_at(&self.known, place),
                contract,
                run,
            )?;
            write_text(out, self.kept[place].text())
        } else {
            write_new_block(out, &mut self.line, self.names, contract, run)
        }
    }
}

/// Whether runs are of all contracts, so many, by their numbers.
pub(crate) fn are_of_all(runs: &[(u32, Arc<Run, Global>)], contracts: usize) -> bool
    ensures { IsTrue result → AreOfAll contracts (shared_runs runs.now) }
{
    for (place, run) in runs.iter().enumerate() {
        if run.0 as usize != place {
            return false;
        }
    }
    runs.len() >= contracts
}
