//! The answers to the asks of a script, and the board on which they are made.
ghost use Rattle.std.specs.Prelude.{◌≡◌, ◌+◌, IfOk};
ghost use Rattle.act_eval.specs.Work.{work_of};
ghost use Rattle.act_history.specs.History.{entries_of};
ghost use Rattle.act_model.specs.Journal.{book_of};
ghost use Rattle.act_profile.specs.Answers.{answers_of};
ghost use Rattle.act_transcript.specs.Text.{items_of};

use crate::driving::Driver;
use crate::evaluation::Evaluation;
use act_board::Board;
use act_model::{Answer, Step};
use act_num::{NoMemory, Steps};
use act_transcript::Blocks;
use std::alloc::Global;
use std::sync::ledger::Ledger;

impl Evaluation<'_> {
    /// The answers to the asks of the script, in their order, and the board on which they were made. Where memory runs out, rows
    /// may have been counted.
    pub fn answers<L: Ledger>(
        &self,
        alloc: Global,
        steps: &mut Steps<L>,
    ) -> Result<(Vec<Answer>, Board), NoMemory>
        ensures answers { IfOk result (λ made. made.0.items
            ≡ answers_of self.now.portfolio.contracts self.now.names (items_of self.now.lines)) }
        ensures portfolio { IfOk result (λ made. made.1.portfolio ≡ self.now.portfolio) }
        ensures entries { IfOk result (λ made. entries_of made.1 ≡ book_of (items_of self.now.lines)) }
        ensures ticked { IfOk result (λ _. steps.new ≡ steps.old + work_of self.now.portfolio (items_of self.now.lines)) }
    {
        let blocks = Blocks::none(alloc, self.names);
        let mut driver = Driver::new(alloc, self, blocks)?;
        let mut answers = Vec::new(alloc);
        for step in self.lines {
            match step.step {
                Step::Append(entry) => driver.append(entry)?,
                Step::Ask(asked) => answers.push(driver.answer(alloc, asked, steps)?)?,
            }
        }
        Ok((answers, driver.board))
    }
}
