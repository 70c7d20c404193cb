//! The journal of a text, and whether it is more than `actus` takes.
ghost use Rattle.std.specs.Prelude.{◌≡◌, ◌≤◌, ◌<◌, ◌+◌, ◌^◌, ◌∷◌, [], length, IfNone, IfOk, count_by, ℕ, option_map};
ghost use Rattle.act_audit.specs.Journal.{entry_past, first_past, is_of_one_caller, one_script};
ghost use Rattle.std.specs.List.{All as Each};
ghost use Rattle.act_model.specs.Asks.{appends, asks_of};
ghost use Rattle.act_model.specs.declared.journal.Item.{Item as JournalItem};
ghost use Rattle.act_model.specs.Journal.{is_append};
ghost use Rattle.act_model.specs.declared.journal.Line.{Line as StepLine};
ghost use Rattle.act_script.specs.Asks.{AsksBelow};
ghost use Rattle.act_job.specs.Weight.{too_much_asked};

use act_job::first_overweight;
use act_model::{Item, Line, MOST_CALLERS, MOST_ENTRIES, Step};
use act_num::NoMemory;
use act_portfolio::Portfolio;
use std::alloc::Global;
use std::slice;

/// The line of a text in which the first item of its journal stands.
pub(crate) const FIRST_LINE: u64 = 2;

/// The caller of `eval`.
const CALLER: u32 = 1;

/// The steps of a journal, in its order, as the lines of one script, each with its number in the text.
pub(crate) fn one_script(alloc: Global, items: &[Item]) -> Result<Vec<Line>, NoMemory>
    requires few { length items.now + 2 < 2 ^ 32 }
    ensures { IfOk result (λ lines. lines.items ≡ one_script items.now) }
{
    let mut lines = Vec::with_capacity(alloc, items.len())?;
    for (place, item) in items.iter().enumerate() {
        lines.push(Line {
            step: item.step,
            line: place as u32 + FIRST_LINE as u32,
        })?;
    }
    Ok(lines)
}

/// The first line with which a journal, whose steps stand in one script, is more than `actus` takes.
pub(crate) fn first_past(
    alloc: Global,
    portfolio: &Portfolio,
    items: &[Item],
    script: &Vec<Line>,
) -> Result<Option<u64>, NoMemory>
    requires script { script.now.items ≡ one_script items.now }
    requires contracts { AsksBelow (length portfolio.now.names.contracts) script.now.items }
    ensures { IfOk result (λ line. line ≡ first_past portfolio.now items.now) }
{
    match entry_past(items) {
        Some(line) => Ok(Some(line)),
        None => ask_past(alloc, portfolio, script),
    }
}

/// The line of the first entry that a book has no room for.
fn entry_past(items: &[Item]) -> Option<u64>
    ensures past { result ≡ entry_past items.now }
    ensures few { IfNone result (count_by appends items.now ≤ MOST_ENTRIES) }
{
    let mut entries = 0;
    for (place, item) in items.iter().enumerate() {
        if let Step::Append(_) = item.step {
            if entries == MOST_ENTRIES {
                return Some(place as u64 + FIRST_LINE);
            }
            entries += 1;
        }
    }
    None
}

/// The line of the first ask up to which asks weigh more than `actus` takes.
fn ask_past(
    alloc: Global,
    portfolio: &Portfolio,
    script: &Vec<Line>,
) -> Result<Option<u64>, NoMemory>
    requires contracts { AsksBelow (length portfolio.now.names.contracts) script.now.items }
    requires few { count_by (λ (line : StepLine). is_append line.step) script.now.items ≤ MOST_ENTRIES }
    ensures { IfOk result (λ found. found ≡ option_map (λ (ask : ℕ × ℕ). ask.1) (too_much_asked portfolio.now (script.now.items ∷ []))) }
{
    match first_overweight(alloc, portfolio, slice::from_ref(script))? {
        Some((_, line)) => Ok(Some(u64::from(line))),
        None => Ok(None),
    }
}

/// Whether the one caller of `eval` made all steps.
pub(crate) fn is_of_one_caller(items: &[Item]) -> bool
    ensures { result ≡ is_of_one_caller items.now }
{
    items.iter().all(|item| item.caller == CALLER)
}

/// How many entries a journal appends.
pub(crate) fn entry_count(items: &[Item]) -> u64
    ensures count { result ≡ count_by appends items.now }
    ensures within { result ≤ length items.now }
{
    items.iter().filter(|item| is_entry(item)).count() as u64
}

/// Whether an item appends an entry.
fn is_entry(item: &Item) -> bool
    ensures { result ≡ appends item.now }
{
    matches!(item.step, Step::Append(_))
}

/// How many asks a journal has.
pub(crate) fn ask_count(items: &[Item]) -> u64
    requires from_one { Each (λ (item : JournalItem). 1 ≤ item.caller) items.now }
    requires to_most { Each (λ (item : JournalItem). item.caller ≤ MOST_CALLERS) items.now }
    ensures { result ≡ length (asks_of items.now) }
{
    items.len() as u64 - entry_count(items)
}
