//! Writing an evaluation: the journal of the script, and each answer before the next ask is evaluated.
ghost use Rattle.std.specs.Prelude.{◌≡◌, ◌∷◌, [], ◌+◌, not, count_by, length, IfOk};
ghost use Rattle.std.specs.List.{list_all};
ghost use Rattle.act_engine.specs.Writing.{Writes};
ghost use Rattle.act_eval.specs.Evaluation.{evaluation_outcome};
ghost use Rattle.act_eval.specs.Work.{work_of};
ghost use Rattle.act_model.specs.Journal.{book_of, is_append};
ghost use Rattle.act_model.specs.declared.journal.Line.{Line as StepLine};
ghost use Rattle.act_profile.specs.Answers.{answers_of};
ghost use Rattle.act_transcript.specs.Ends.{are_none, ends_well, stops_status};
ghost use Rattle.act_transcript.specs.KnownLines.{AreBlocksOf};
ghost use Rattle.act_transcript.specs.Text.{answers_text, items_of, output_of};

use crate::driving::Driver;
use crate::evaluation::Evaluation;
use act_engine::{Failure, write_number};
use act_io::Sink;
use act_model::{Line, Step};
use act_num::Steps;
use act_transcript::{Blocks, Stops, write_heads};
use std::alloc::Global;
use std::sync::ledger::Ledger;

/// What was written of answers: which of their blocks stop, and how many rows were computed for them.
#[derive(Clone, Copy)]
struct Wrote {
    stops: Stops,
    work: u64,
}

impl Evaluation<'_> {
    /// Writes the journal of the script, its answers and the line of its work, and answers which of their blocks stop.
    pub fn write<K: Sink, L: Ledger>(
        &self,
        alloc: Global,
        out: &mut K,
        steps: &mut Steps<L>,
    ) -> Result<Stops, Failure>
        ensures text { Writes (evaluation_outcome self.now).text (K.page out.old) result (K.page out.new) }
        ensures status { IfOk result (λ stops. stops_status stops ≡ (evaluation_outcome self.now).status) }
        ensures ticked { IfOk result (λ _. steps.new ≡ steps.old + (evaluation_outcome self.now).rows) }
    {
        let mut line = Vec::new(alloc);
        let wrote = self.write_answered(alloc, out, &mut line, steps)?;
        write_number(out, &mut line, b"work", u128::from(wrote.work))?;
        Ok(wrote.stops)
    }

    /// The same without the line of work.
    pub fn write_output<K: Sink, L: Ledger>(
        &self,
        alloc: Global,
        out: &mut K,
        steps: &mut Steps<L>,
    ) -> Result<Stops, Failure>
        ensures text { Writes (output_of self.now.portfolio self.now.names (items_of self.now.lines)) (K.page out.old) result (K.page out.new) }
        ensures status { IfOk result (λ stops. stops_status stops ≡ (evaluation_outcome self.now).status) }
        ensures ticked { IfOk result (λ _. steps.new ≡ steps.old + work_of self.now.portfolio (items_of self.now.lines)) }
    {
        let wrote = self.write_answered(alloc, out, &mut Vec::new(alloc), steps)?;
        Ok(wrote.stops)
    }

    /// Writes the journal of the script and its answers. `line` is room for a line.
    fn write_answered<K: Sink, L: Ledger>(
        &self,
        alloc: Global,
        out: &mut K,
        line: &mut Vec<u8>,
        steps: &mut Steps<L>,
    ) -> Result<Wrote, Failure>
        ensures text { Writes (output_of self.now.portfolio self.now.names (items_of self.now.lines)) (K.page out.old) result (K.page out.new) }
        ensures stops { IfOk result (λ wrote. are_none wrote.stops
            ≡ list_all ends_well (answers_of self.now.portfolio.contracts self.now.names (items_of self.now.lines))) }
        ensures ticked { IfOk result (λ _. steps.new ≡ steps.old + work_of self.now.portfolio (items_of self.now.lines)) }
        ensures counted { IfOk result (λ wrote. wrote.work + steps.old ≡ steps.new) }
    {
        let answers = ask_count(self.lines);
        let contracts = self.portfolio.named() as usize;
        let blocks = Blocks::new(alloc, self.names, contracts, answers)?;
        let mut driver = Driver::new(alloc, self, blocks)?;
        if let Err(stop) = write_heads(out, line, self.names, self.lines, answers) {
            drop(driver);
            return Err(stop);
        }
        let wrote = self.write_answers(alloc, out, &mut driver, steps);
        drop(driver);
        wrote
    }

    /// Writes the answers to the asks of the script, in order.
    fn write_answers<K: Sink, L: Ledger>(
        &self,
        alloc: Global,
        out: &mut K,
        driver: &mut Driver<'_>,
        steps: &mut Steps<L>,
    ) -> Result<Wrote, Failure>
        requires board { driver.old.board ≡ record { portfolio = self.now.portfolio; quotas = length (book_of (items_of self.now.lines)) ∷ []; marks = [] } }
        requires portfolio { driver.old.portfolio.now ≡ self.now.portfolio }
        requires blocks { AreBlocksOf driver.old.board driver.old.blocks }
        requires names { driver.old.blocks.names.now ≡ self.now.names }
        requires work { driver.old.work ≡ 0 }
        ensures text { Writes (answers_text self.now.names (answers_of self.now.portfolio.contracts self.now.names (items_of self.now.lines))) (K.page out.old) result (K.page out.new) }
        ensures stops { IfOk result (λ wrote. are_none wrote.stops
            ≡ list_all ends_well (answers_of self.now.portfolio.contracts self.now.names (items_of self.now.lines))) }
        ensures ticked { IfOk result (λ _. steps.new ≡ steps.old + work_of self.now.portfolio (items_of self.now.lines)) }
        ensures counted { IfOk result (λ wrote. wrote.work + steps.old ≡ steps.new) }
    {
        let mut stops = Stops::NONE;
        for step in self.lines {
            match step.step {
                Step::Append(entry) => driver.append(entry)?,
                Step::Ask(asked) => {
                    driver.write_answer(alloc, out, asked, steps, &mut stops)?;
                }
            }
        }
        Ok(Wrote {
            stops,
            work: driver.work,
        })
    }
}

/// How many asks a script has.
fn ask_count(lines: &[Line]) -> usize
    ensures { result ≡ count_by (λ (line : StepLine). not (is_append line.step)) lines.now }
{
    lines
        .iter()
        .filter(|line| matches!(line.step, Step::Ask(_)))
        .count()
}
