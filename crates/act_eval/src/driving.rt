//! A board that one caller has to itself, driven by one thread: the caller's steps, and the evaluations that it asks for.
ghost use Rattle.std.specs.Prelude.{◌≡◌, ◌&&◌, ◌+◌, ◌<◌, ◌≤◌, ℕ, List, [], ◌∷◌, false, length, take, true, IfErr, IfOk, OnOk};
ghost use Rattle.std.specs.Arc.{arc_value};
ghost use Rattle.std.specs.List.{All};
ghost use Rattle.act_engine.specs.Writing.{Writes};
ghost use Rattle.act_eval.specs.Driven.{Adds, GoesOn, HasKnown, IsAtRest, IsLater, IsQuiet, OnlyWorks, next_answer, next_ask, rows_since};
ghost use Rattle.act_eval.specs.Work.{ask_work};
ghost use Rattle.act_history.specs.History.{IsPresent, and_then, asks_by, entries_of, is_given_up, version_of};
ghost use Rattle.act_history.specs.Legal.{HasQuota, IsFull, IsOldest, IsReady, NoneIsClaimable};
ghost use Rattle.act_model.specs.Limits.{most_asks};
ghost use Rattle.act_history.specs.declared.mark.Mark.TheVariants as mark;
ghost use Rattle.act_model.specs.Journal.{book_of, is_known};
ghost use Rattle.act_model.specs.Observed.{is_entry};
ghost use Rattle.act_model.specs.Run.{Stream};
ghost use Rattle.act_model.specs.declared.asks.Asking.{Asking};
ghost use Rattle.act_model.specs.declared.journal.Step.TheVariants as step;
ghost use Rattle.act_model.specs.declared.observed.Obs.{Obs};
ghost use Rattle.act_print.specs.Printed.{printed_answer};
ghost use Rattle.act_print.specs.Text.{answer_text};
ghost use Rattle.act_profile.specs.Answers.{answer_to};
ghost use Rattle.act_profile.specs.DayOrder.{AreInDayOrder};
ghost use Rattle.act_transcript.specs.Ends.{are_none, ends_well};
ghost use Rattle.act_transcript.specs.KnownLines.{AreBlocksOf, AreOnesOf, IsKnown, IsPut, IsReplyOn};
ghost use Rattle.act_text.specs.Kept.{AreWrittenWith};
ghost use Rattle.act_transcript.specs.Text.{items_of};

use crate::evaluation::Evaluation;
use act_board::{AppendFault, AskFault, Board, Claim, Collected};
use act_engine::Failure;
use act_io::Sink;
use act_model::{Answer, Asked, Obs, Run};
use act_num::{NoMemory, Steps};
use act_portfolio::Portfolio;
use act_transcript::{Blocks, Stops};
use std::alloc::Global;
use std::sync::Arc;
use std::sync::ledger::Ledger;

/// The one caller of a script.
const CALLER: u32 = 1;

/// One thread, which makes the steps of the one caller of a board, and the evaluations that it asks for.
#[derive(Drop)]
pub(crate) struct Driver<'a> {
    /// The portfolio.
    pub(crate) portfolio: &'a Portfolio,
    /// The board.
    pub(crate) board: Board,
    /// The blocks of contracts, as they were put together last.
    pub(crate) blocks: Blocks<'a>,
    /// How many rows were computed. Where they are too many to be counted memory has run out.
    pub(crate) work: u64,
}

impl<'a> Driver<'a> {
    /// A thread with a fresh board for the script of an evaluation, and with blocks.
    pub(crate) fn new(
        alloc: Global,
        evaluation: &Evaluation<'a>,
        blocks: Blocks<'a>,
    ) -> Result<Driver<'a>, NoMemory>
        ensures portfolio { IfOk result (λ driver. driver.portfolio.now ≡ evaluation.now.portfolio) }
        ensures board { IfOk result (λ driver. driver.board
            ≡ record { portfolio = evaluation.now.portfolio; quotas = length (book_of (items_of evaluation.now.lines)) ∷ []; marks = [] }) }
        ensures blocks { IfOk result (λ driver. driver.blocks ≡ blocks.entry) }
        ensures work { IfOk result (λ driver. driver.work ≡ 0) }
    {
        match evaluation.board(alloc) {
            Ok(board) => Ok(Driver {
                portfolio: evaluation.portfolio,
                board,
                blocks,
                work: 0,
            }),
            Err(fault) => {
                drop(blocks);
                Err(fault)
            }
        }
    }

    /// The caller appends an entry. Where memory runs out, the board is as before.
    pub(crate) fn append(&mut self, entry: Obs) -> Result<(), NoMemory>
        requires present { IsPresent self.old.board CALLER }
        requires going { is_given_up self.old.board ≡ false }
        requires quota { HasQuota self.old.board CALLER }
        requires entry { is_entry entry ≡ true }
        ensures board { IfOk result (λ _. self.new.board ≡ and_then self.old.board (mark.Append CALLER entry)) }
        ensures unchanged { IfErr result (λ _. self.new.board ≡ self.old.board) }
        ensures portfolio { self.new.portfolio ≡ self.old.portfolio }
        ensures blocks { self.new.blocks ≡ self.old.blocks }
        ensures work { self.new.work ≡ self.old.work }
    {
        match self.board.append(CALLER, entry) {
            Ok(_) => Ok(()),
            Err(AppendFault::NoMemory) => Err(NoMemory),
            Err(AppendFault::QuotaSpent) => unreachable!(),
            Err(AppendFault::GivenUp) => unreachable!(),
        }
    }

    /// The caller, all of whose asks are answered, asks; what it asks for is evaluated, with the blocks put together, and the answer
    /// is given.
    pub(crate) fn answer<L: Ledger>(
        &mut self,
        alloc: Global,
        asked: Asked,
        steps: &mut Steps<L>,
    ) -> Result<Answer, NoMemory>
        requires rest { IsAtRest self.old.portfolio.now self.old.board }
        requires few { length (asks_by self.old.board CALLER) < most_asks }
        requires known { is_known self.old.portfolio.now.names (step.Ask asked) ≡ true }
        requires blocks { AreBlocksOf self.old.board self.old.blocks }
        ensures rest { IfOk result (λ _. IsAtRest self.old.portfolio.now self.new.board) }
        ensures asked { IfOk result (λ _. Adds asked self.old.board self.new.board) }
        ensures answer { IfOk result (λ answer. answer
            ≡ answer_to self.old.portfolio.now.contracts self.old.portfolio.now.names (entries_of self.old.board) (next_ask self.old.board asked)) }
        ensures ticked { IfOk result (λ _. (book : List Obs) → take (version_of self.old.board) book ≡ entries_of self.old.board →
            steps.new ≡ steps.old + ask_work self.old.portfolio.now book (asks_by self.old.board CALLER) (next_ask self.old.board asked)) }
        ensures counted { IfOk result (λ _. self.new.work + steps.old ≡ self.old.work + steps.new) }
        ensures portfolio { self.new.portfolio ≡ self.old.portfolio }
        ensures blocks { IfOk result (λ _. AreBlocksOf self.new.board self.new.blocks) }
        ensures known { IfOk result (λ _. HasKnown self.new.board self.new.blocks) }
        ensures same { IfOk result (λ _. AreOnesOf self.old.blocks self.new.blocks) }
    {
        // It is known of a portfolio only where it is asked for.
        self.portfolio.contracts_are_linked();
        let version = self.board.version();
        self.blocks.know(alloc, &mut self.board, version);
        self.ask(asked)?;
        self.evaluate_all(alloc, asked, steps)?;
        self.collect()
    }

    /// The caller, all of whose asks are answered, asks, and the answer is written. Those of its blocks that stop are added to others.
    pub(crate) fn write_answer<K: Sink, L: Ledger>(
        &mut self,
        alloc: Global,
        out: &mut K,
        asked: Asked,
        steps: &mut Steps<L>,
        stops: &mut Stops,
    ) -> Result<(), Failure>
        requires rest { IsAtRest self.old.portfolio.now self.old.board }
        requires few { length (asks_by self.old.board CALLER) < most_asks }
        requires known { is_known self.old.portfolio.now.names (step.Ask asked) ≡ true }
        requires named { self.old.blocks.names.now.contracts ≡ self.old.portfolio.now.names.contracts }
        requires blocks { AreBlocksOf self.old.board self.old.blocks }
        ensures text { Writes (answer_text self.old.blocks.names.now (printed_answer (next_answer self.old.portfolio.now self.old.board asked)))
            (K.page out.old) result (K.page out.new) }
        ensures stops { IfOk result (λ _. are_none stops.new ≡ (are_none stops.old && ends_well (next_answer self.old.portfolio.now self.old.board asked))) }
        ensures rest { IfOk result (λ _. IsAtRest self.old.portfolio.now self.new.board) }
        ensures asked { IfOk result (λ _. Adds asked self.old.board self.new.board) }
        ensures ticked { IfOk result (λ _. (book : List Obs) → take (version_of self.old.board) book ≡ entries_of self.old.board →
            steps.new ≡ steps.old + ask_work self.old.portfolio.now book (asks_by self.old.board CALLER) (next_ask self.old.board asked)) }
        ensures counted { IfOk result (λ _. self.new.work + steps.old ≡ self.old.work + steps.new) }
        ensures portfolio { self.new.portfolio ≡ self.old.portfolio }
        ensures blocks { IfOk result (λ _. AreBlocksOf self.new.board self.new.blocks) }
        ensures names { IfOk result (λ _. self.new.blocks.names.now ≡ self.old.blocks.names.now) }
    {
        let answer = self.answer(alloc, asked, steps)?;
        let written = self.write(out, &answer);
        stops.add(&answer);
        drop(answer);
        written
    }

    /// Writes an answer that was given last, of the board's version.
    fn write<K: Sink>(&mut self, out: &mut K, answer: &Answer) -> Result<(), Failure>
        requires blocks { AreBlocksOf self.old.board self.old.blocks }
        requires named { All (λ (run : ℕ × Stream). run.0 < length self.old.blocks.names.now.contracts) answer.now.runs }
        requires reply { IsReplyOn self.old.board answer.now }
        requires version { answer.now.version ≡ version_of self.old.board }
        requires known { HasKnown self.old.board self.old.blocks }
        ensures text { Writes (answer_text self.old.blocks.names.now (printed_answer answer.now)) (K.page out.old) result (K.page out.new) }
        ensures portfolio { self.new.portfolio ≡ self.old.portfolio }
        ensures board { self.new.board ≡ self.old.board }
        ensures work { self.new.work ≡ self.old.work }
        ensures blocks { IfOk result (λ _. AreBlocksOf self.old.board self.new.blocks) }
        ensures names { IfOk result (λ _. self.new.blocks.names.now ≡ self.old.blocks.names.now) }
    {
        self.blocks.write_known(out, &self.board, answer)
    }

    /// The caller asks.
    fn ask(&mut self, asked: Asked) -> Result<(), NoMemory>
        requires present { IsPresent self.old.board CALLER }
        requires going { is_given_up self.old.board ≡ false }
        requires room { ¬ (IsFull self.old.board CALLER) }
        requires known { is_known self.old.board.portfolio.names (step.Ask asked) ≡ true }
        ensures board { IfOk result (λ _. self.new.board ≡ and_then self.old.board (mark.Ask CALLER asked)) }
        ensures portfolio { self.new.portfolio ≡ self.old.portfolio }
        ensures blocks { self.new.blocks ≡ self.old.blocks }
        ensures work { self.new.work ≡ self.old.work }
    {
        match self.board.ask(CALLER, asked) {
            Ok(_) => Ok(()),
            Err(AskFault::NoMemory) => Err(NoMemory),
            Err(AskFault::AsksFull) => unreachable!(),
            Err(AskFault::GivenUp) => unreachable!(),
        }
    }

    /// Makes one evaluation after another, as long as any may be made, and puts the blocks together that are asked for.
    fn evaluate_all<L: Ledger>(
        &mut self,
        alloc: Global,
        asked: Asked,
        steps: &mut Steps<L>,
    ) -> Result<(), NoMemory>
        requires quiet { IsQuiet self.old.portfolio.now self.old.board }
        requires known { HasKnown self.old.board self.old.blocks }
        ensures quiet { IfOk result (λ _. IsQuiet self.old.portfolio.now self.new.board) }
        ensures none { IfOk result (λ _. NoneIsClaimable self.new.board) }
        ensures works { IfOk result (λ _. OnlyWorks self.old.board self.new.board) }
        ensures later { IfOk result (λ _. IsLater self.old.board self.new.board) }
        ensures ticked { IfOk result (λ _. steps.new ≡ steps.old + rows_since self.old.board self.new.board) }
        ensures counted { IfOk result (λ _. self.new.work + steps.old ≡ self.old.work + steps.new) }
        ensures portfolio { self.new.portfolio ≡ self.old.portfolio }
        ensures known { IfOk result (λ _. HasKnown self.new.board self.new.blocks) }
        ensures same { IfOk result (λ _. AreOnesOf self.old.blocks self.new.blocks) }
        ensures at { self.new.blocks.at ≡ self.old.blocks.at }
    {
        let mut more = true;
        while more {
            more = self.evaluate_next(alloc, asked, steps)?;
        }
        Ok(())
    }

    /// Makes the evaluation that is next, puts its block together if it is asked for, and answers whether there was one.
    fn evaluate_next<L: Ledger>(
        &mut self,
        alloc: Global,
        asked: Asked,
        steps: &mut Steps<L>,
    ) -> Result<bool, NoMemory>
        requires quiet { IsQuiet self.old.portfolio.now self.old.board }
        requires known { HasKnown self.old.board self.old.blocks }
        ensures goes_on { IfOk result (λ more. GoesOn more self.old.board self.new.board steps.old steps.new) }
        ensures counted { IfOk result (λ _. self.new.work + steps.old ≡ self.old.work + steps.new) }
        ensures portfolio { self.new.portfolio ≡ self.old.portfolio }
        ensures known { IfOk result (λ _. HasKnown self.new.board self.new.blocks) }
        ensures same { IfOk result (λ _. AreOnesOf self.old.blocks self.new.blocks) }
        ensures at { self.new.blocks.at ≡ self.old.blocks.at }
    {
        match self.board.claim()? {
            Claim::Task(task) => {
                let contract = task.contract();
                match task.work(alloc, self.portfolio, steps) {
                    Ok(done) => {
                        let fresh = done.fresh();
                        let put = put_asked(&mut self.blocks, asked, contract, done.run());
                        self.board.finish(done);
                        put?;
                        self.count(fresh)?;
                        Ok(true)
                    }
                    Err(task) => {
                        drop(task);
                        Err(NoMemory)
                    }
                }
            }
            Claim::Idle => Ok(false),
            Claim::Ended => unreachable!(),
            Claim::GivenUp => unreachable!(),
        }
    }

    /// Counts rows that were computed.
    fn count(&mut self, rows: u64) -> Result<(), NoMemory>
        ensures work { IfOk result (λ _. self.new.work ≡ self.old.work + rows) }
        ensures portfolio { self.new.portfolio ≡ self.old.portfolio }
        ensures board { self.new.board ≡ self.old.board }
        ensures blocks { self.new.blocks ≡ self.old.blocks }
    {
        let Some(total) = self.work.checked_add(rows) else {
            return Err(NoMemory);
        };
        self.work = total;
        Ok(())
    }

    /// Gives the caller the answer to its oldest open ask, for which all is evaluated.
    fn collect(&mut self) -> Result<Answer, NoMemory>
        requires present { IsPresent self.old.board CALLER }
        requires going { is_given_up self.old.board ≡ false }
        requires ready { (ask : Asking) × IsOldest self.old.board CALLER ask × IsReady self.old.board ask }
        ensures collected { IfOk result (λ _. self.new.board ≡ and_then self.old.board (mark.Collect CALLER)) }
        ensures answer { IfOk result (λ answer. (ask : Asking) → IsOldest self.old.board CALLER ask →
            answer ≡ answer_to self.old.board.portfolio.contracts self.old.board.portfolio.names (entries_of self.old.board) ask) }
        ensures portfolio { self.new.portfolio ≡ self.old.portfolio }
        ensures blocks { self.new.blocks ≡ self.old.blocks }
        ensures work { self.new.work ≡ self.old.work }
    {
        match self.board.collect(CALLER)? {
            Collected::Ready(answer) => Ok(answer),
            Collected::NotYet => unreachable!(),
            Collected::GivenUp => unreachable!(),
        }
    }
}

/// Puts together the block of a contract that was evaluated, if it is asked for, while its rows are at hand.
fn put_asked(
    blocks: &mut Blocks<'_>,
    asked: Asked,
    contract: u32,
    run: &Arc<Run, Global>,
) -> Result<(), NoMemory>
    requires named { length blocks.old.kept.items ≤ length blocks.old.names.now.contracts }
    requires written { AreWrittenWith blocks.old.names.now blocks.old.kept.items }
    requires order { AreInDayOrder (arc_value run.now).rows }
    requires known { IsKnown blocks.old.known.items blocks.old.kept.items contract (arc_value run.now) }
    ensures same { AreOnesOf blocks.old blocks.new }
    ensures at { blocks.new.at ≡ blocks.old.at }
    ensures put { OnOk result (IsPut contract (arc_value run.now) blocks.old blocks.new) }
{
    if is_of(asked, contract) {
        blocks.put(contract, run)
    } else {
        Ok(())
    }
}

/// Whether a contract is asked for by its number, or each is.
fn is_of(asked: Asked, contract: u32) -> bool {
    match asked {
        Asked::All => true,
        Asked::One(one) => one == contract,
    }
}
