//! The right text of a journal.
ghost use Rattle.std.specs.Prelude.{◌≡◌, ◌+◌, if◌then◌else◌, Some, IfOk};
ghost use Rattle.act_audit.specs.Journal.{as_one_caller, one_script, right_text};
ghost use Rattle.act_audit.specs.Judging.{AreItems};
ghost use Rattle.act_engine.specs.Writing.{Writes};
ghost use Rattle.act_eval.specs.Evaluation.{eval_text};
ghost use Rattle.act_eval.specs.Work.{work_of};
ghost use Rattle.act_transcript.specs.Text.{items_of, output_of};

use crate::answers::by_caller;
use crate::journal::is_of_one_caller;
use crate::sheet::Sheet;
use act_engine::Failure;
use act_eval::Evaluation;
use act_model::Item;
use act_num::Steps;
use act_transcript::{Blocks, Stops, answer_count, write_answers, write_heads};
use std::alloc::Global;
use std::sync::ledger::Ledger;

/// Writes the right text of a journal, whose steps are the lines of an evaluation. Where one caller made all steps, the line of work stands
/// behind the answers, if that is wanted, and each answer is written before the next one is evaluated.
pub(crate) fn write_right<L: Ledger>(
    alloc: Global,
    evaluation: &Evaluation<'_>,
    items: &[Item],
    with_work: bool,
    sheet: &mut Sheet<'_>,
    steps: &mut Steps<L>,
) -> Result<(), Failure>
    requires script { evaluation.now.lines ≡ one_script items.now }
    requires items { AreItems evaluation.now.names items.now }
    ensures text { Writes (right_text evaluation.now.portfolio evaluation.now.names items.now with_work)
        (record { written = Some sheet.old; faults = 0 }) result (record { written = Some sheet.new; faults = 0 }) }
    ensures ticked { IfOk result (λ _. steps.new ≡ steps.old + work_of evaluation.now.portfolio (as_one_caller items.now)) }
{
    if !is_of_one_caller(items) {
        return write_several(alloc, evaluation, items, sheet, steps);
    }
    write_alone(alloc, evaluation, with_work, sheet, steps)?;
    Ok(())
}

/// Writes the text of one caller's script, with the line of work where that is wanted.
fn write_alone<L: Ledger>(
    alloc: Global,
    evaluation: &Evaluation<'_>,
    with_work: bool,
    sheet: &mut Sheet<'_>,
    steps: &mut Steps<L>,
) -> Result<Stops, Failure>
    ensures text { Writes (if with_work then eval_text evaluation.now.portfolio evaluation.now.names (items_of evaluation.now.lines)
        else output_of evaluation.now.portfolio evaluation.now.names (items_of evaluation.now.lines))
        (record { written = Some sheet.old; faults = 0 }) result (record { written = Some sheet.new; faults = 0 }) }
    ensures ticked { IfOk result (λ _. steps.new ≡ steps.old + work_of evaluation.now.portfolio (items_of evaluation.now.lines)) }
{
    if with_work {
        evaluation.write(alloc, sheet, steps)
    } else {
        evaluation.write_output(alloc, sheet, steps)
    }
}

/// Writes the text of several callers' journal.
fn write_several<L: Ledger>(
    alloc: Global,
    evaluation: &Evaluation<'_>,
    items: &[Item],
    sheet: &mut Sheet<'_>,
    steps: &mut Steps<L>,
) -> Result<(), Failure>
    requires script { evaluation.now.lines ≡ one_script items.now }
    requires items { AreItems evaluation.now.names items.now }
    ensures text { Writes (output_of evaluation.now.portfolio evaluation.now.names items.now)
        (record { written = Some sheet.old; faults = 0 }) result (record { written = Some sheet.new; faults = 0 }) }
    ensures ticked { IfOk result (λ _. steps.new ≡ steps.old + work_of evaluation.now.portfolio (as_one_caller items.now)) }
{
    let (answers, mut board) = evaluation.answers(alloc, steps)?;
    let lists = by_caller(alloc, items, answers)?;
    let count = answer_count(&lists);
    let contracts = evaluation.portfolio.named() as usize;
    let mut blocks = Blocks::new(alloc, evaluation.names, contracts, count)?;
    write_heads(sheet, &mut blocks.line, evaluation.names, items, count)?;
    write_answers(sheet, &mut blocks, &mut board, &lists)
}
