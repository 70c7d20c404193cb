//! What is said of a text.
ghost use Rattle.std.specs.Prelude.{◌≡◌, ◌≢◌, ◌⊎◌, ◌≤◌, ◌<◌, ◌+◌, ◌^◌, ℕ, List, length, IfOk, MatchOption};
ghost use Rattle.std.specs.List.{All};
ghost use Rattle.std.specs.Arc.{arc_value};
ghost use Rattle.act_audit.specs.Audit.{rows_of_text, rows_within};
ghost use Rattle.act_audit.specs.Journal.{IsTextOfJournal, as_one_caller, first_past, one_script, right_text};
ghost use Rattle.act_audit.specs.Judging.{AreItems, IsOrdered, IsVerdictFor};
ghost use Rattle.act_audit.specs.Text.{first_difference, has_work_line, most_text, text_in};
ghost use Rattle.act_audit.specs.Verdict.{IsVerdictOn};
ghost use Rattle.act_audit.specs.declared.verdict.Verdict.TheVariants.{Wrong};
ghost use Rattle.act_model.specs.declared.journal.Item.{Item as JournalItem};
ghost use Rattle.act_print.specs.Faults.{IsFirstFault, IsTextOf};
ghost use Rattle.act_print.specs.Printed.{Transcript};
ghost use Rattle.act_script.specs.Asks.{line_lists};
ghost use Rattle.act_eval.specs.Work.{work_of};

use crate::codes::names_for;
use crate::job::AuditJob;
use crate::journal::{ask_count, first_past, one_script};
use crate::order::first_disorder;
use crate::right::write_right;
use crate::sheet::Sheet;
use crate::text::{first_difference, parts_of};
use crate::verdict::Verdict;
use act_engine::Failure;
use act_eval::Evaluation;
use act_job::{Job, Scripts};
use act_model::{Item, Line, MOST_CALLERS, Names};
use act_num::{NoMemory, Steps};
use act_portfolio::Portfolio;
use act_print::{TextFault, read_journal, read_text};
use std::alloc::Global;
use std::marker::Model;
use std::sync::Arc;
use std::sync::ledger::Ledger;

/// The journal of a text, and the names that it is read with.
#[derive(Drop)]
struct Journal {
    items: Vec<Item>,
    names: Names,
}

impl Model for Journal {
    ghost use Rattle.act_audit.specs.Judging as judging;

    ghost Value = { judging.Journal };

    ghost view = { λ j. record { items = j.items.items; names = j.names } };
}

/// What is said of a text. The rows of the journal with which it begins are computed, whatever is said.
pub(crate) fn judge<L: Ledger>(
    alloc: Global,
    job: AuditJob,
    steps: &mut Steps<L>,
) -> Result<Verdict, NoMemory>
    ensures verdict { IfOk result (λ verdict. IsVerdictOn job verdict) }
    ensures rows { IfOk result (λ _. steps.new ≡ steps.old + rows_of_text job) }
{
    let AuditJob { job, text } = job;
    let Job {
        portfolio,
        scripts,
        ..
    } = job;
    let Scripts { lists, names, .. } = scripts;
    let names = names_for(names, &text)?;
    match read_journal(alloc, &names, &text)? {
        Some(items) => {
            let journal = Journal { items, names };
            judge_journal(alloc, &portfolio, journal, &text, &lists, steps)
        }
        None => no_text(alloc, &names, &text),
    }
}

/// What is said of a text that begins with no journal.
fn no_text(alloc: Global, names: &Names, text: &[u8]) -> Result<Verdict, NoMemory>
    requires within { length text.now ≤ most_text }
    requires none { (items : List JournalItem) → ¬ IsTextOfJournal names.now (text_in text.now) items }
    ensures { IfOk result (λ verdict. (line : ℕ) × (verdict ≡ Wrong line) × IsFirstFault names.now (text_in text.now) line) }
{
    match read_text(alloc, names, parts_of(text).text) {
        Ok(_) => unreachable!(),
        Err(TextFault::NotText(line)) => Ok(Verdict::Wrong(u64::from(line))),
        Err(TextFault::NoMemory) => Err(NoMemory),
    }
}

/// What is said of a text that begins with a journal. The journal's rows are computed, unless it is more than `actus` takes.
fn judge_journal<L: Ledger>(
    alloc: Global,
    portfolio: &Arc<Portfolio, Global>,
    journal: Journal,
    text: &[u8],
    scripts: &[Vec<Line>],
    steps: &mut Steps<L>,
) -> Result<Verdict, NoMemory>
    requires within { length text.now ≤ most_text }
    requires items { AreItems journal.names journal.items }
    requires contracts { journal.names.contracts ≡ (arc_value portfolio.now).names.contracts }
    requires few_scripts { length scripts.now ≤ MOST_CALLERS }
    ensures verdict { IfOk result (λ verdict. IsVerdictFor (arc_value portfolio.now) journal.names text.now (line_lists scripts.now) journal.items verdict) }
    ensures rows { IfOk result (λ _. steps.new ≡ steps.old
        + rows_within (arc_value portfolio.now) journal.items (first_past (arc_value portfolio.now) journal.items)) }
{
    let Journal { items, names } = journal;
    let lines = one_script(alloc, &items)?;
    if let Some(line) = first_past(alloc, portfolio, &items, &lines)? {
        return wrong_at(alloc, &names, text, line);
    }
    let evaluation = Evaluation {
        portfolio,
        names: &names,
        lines: &lines,
    };
    match difference(alloc, &evaluation, &items, text, steps)? {
        Some(line) => wrong_at(alloc, &names, text, line),
        None => Ok(judge_order(scripts, &items)),
    }
}

/// What is said of a text that isn't right: the first line in which it is no text, or where it is one, this line.
fn wrong_at(alloc: Global, names: &Names, text: &[u8], line: u64) -> Result<Verdict, NoMemory>
    requires within { length text.now ≤ most_text }
    ensures { IfOk result (λ verdict. (here : ℕ) × (verdict ≡ Wrong here) × (IsFirstFault names.now (text_in text.now) here
        ⊎ (((printed : Transcript) × IsTextOf names.now (text_in text.now) printed) × (here ≡ line)))) }
{
    match read_text(alloc, names, parts_of(text).text) {
        Ok(printed) => {
            drop(printed);
            Ok(Verdict::Wrong(line))
        }
        Err(TextFault::NotText(line)) => Ok(Verdict::Wrong(u64::from(line))),
        Err(TextFault::NoMemory) => Err(NoMemory),
    }
}

/// The first line in which a text differs from the right text of its journal, or None where it is that text.
fn difference<L: Ledger>(
    alloc: Global,
    evaluation: &Evaluation<'_>,
    items: &[Item],
    text: &[u8],
    steps: &mut Steps<L>,
) -> Result<Option<u64>, NoMemory>
    requires script { evaluation.now.lines ≡ one_script items.now }
    requires items { AreItems evaluation.now.names items.now }
    ensures line { IfOk result (λ found. MatchOption found
        (text.now ≡ right_text evaluation.now.portfolio evaluation.now.names items.now (has_work_line text.now))
        (λ line. (text.now ≢ right_text evaluation.now.portfolio evaluation.now.names items.now (has_work_line text.now))
        × (line ≡ first_difference text.now (right_text evaluation.now.portfolio evaluation.now.names items.now (has_work_line text.now))))) }
    ensures ticked { IfOk result (λ _. steps.new ≡ steps.old + work_of evaluation.now.portfolio (as_one_caller items.now)) }
{
    let mut sheet = Sheet::new(alloc, text);
    let with_work = parts_of(text).has_work;
    match write_right(alloc, evaluation, items, with_work, &mut sheet, steps) {
        Ok(()) => {
            let (front, rest) = sheet.parts();
            Ok(first_difference(text, front, rest))
        }
        Err(Failure::Memory) => Err(NoMemory),
        Err(Failure::Sink) => unreachable!(),
    }
}

/// What is said of the right text of a journal.
fn judge_order(scripts: &[Vec<Line>], items: &[Item]) -> Verdict
    requires from_one { All (λ (item : JournalItem). 1 ≤ item.caller) items.now }
    requires to_most { All (λ (item : JournalItem). item.caller ≤ MOST_CALLERS) items.now }
    requires few_scripts { length scripts.now ≤ MOST_CALLERS }
    requires few { length items.now < 2 ^ 32 }
    ensures { IsOrdered (line_lists scripts.now) items.now result }
{
    if scripts.is_empty() {
        return Verdict::Right(ask_count(items));
    }
    match first_disorder(scripts, items) {
        Some(disorder) => Verdict::Disorder(disorder.line, disorder.caller),
        None => Verdict::Right(ask_count(items)),
    }
}
