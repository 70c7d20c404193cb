//! Runs of an answer.
use crate::driven::Driven;
use crate::entry::Entry;
use act_board::Collected;
use act_model::{Answer, Asked, Close, Run};
use cases_rows::Case;
use std::alloc::Global;

/// The portfolios of rows have no more contracts.
const MOST_CONTRACTS: u32 = 4;

/// Tells the contracts that an answer is of.
pub fn contracts_told(call: &mut Case<'_>, answer: &Answer) {
    for (contract, _) in &answer.runs {
        call.text(" ");
        call.value(*contract);
    }
}

/// Tells the rows of an answer's runs, a line each: the day, the type and the payoff; and how they close.
pub fn rows_told(call: &mut Case<'_>, answer: &Answer) {
    for (_, run) in &answer.runs {
        for place in 0..run.rows.count() {
            let row = run.rows.row(place);
            call.text("\n");
            call.day_told(row.day);
            call.text(" ");
            call.value(row.kind);
            call.text(" ");
            call.amount(row.payoff);
        }
        match run.close {
            Close::End => call.text("\nend"),
            Close::Missing { .. } => call.text("\nmissing"),
            Close::Overflow { .. } => call.text("\noverflow"),
        }
    }
}

/// Whether the runs of an answer are those that a board of its own gives, on which one caller has appended these entries, so
/// many as the answer is of, and asks the same.
pub fn are_as_alone(alloc: Global, board: &Driven, entries: &[Entry], answer: &Answer) -> bool {
    let asked = match answer.runs.as_slice() {
        [(contract, _)] => Asked::One(*contract),
        _ => Asked::All,
    };
    match alone(alloc, board, entries, answer.version, asked) {
        Some(alone) => have_the_same_runs(&alone, answer),
        None => false,
    }
}

/// What a board of its own answers over the first entries.
fn alone(
    alloc: Global,
    board: &Driven,
    entries: &[Entry],
    version: u64,
    asked: Asked,
) -> Option<Answer> {
    let mut alone = board.fresh(alloc, version)?;
    for entry in entries.get(..version as usize).unwrap_or(entries) {
        let _ = alone.append(1, entry.says);
    }
    let _ = alone.ask(1, asked);
    for _ in 0..MOST_CONTRACTS {
        let _ = alone.claim();
        let _ = alone.finish(alloc, 0);
    }
    match alone.collect(1) {
        Some(Ok(Collected::Ready(answer))) => Some(answer),
        _ => None,
    }
}

/// Whether two answers are of the same version and contracts, and have the same runs.
fn have_the_same_runs(one: &Answer, other: &Answer) -> bool {
    let count = one.runs.len();
    if count != other.runs.len() || one.version != other.version {
        return false;
    }
    for place in 0..count {
        let (one, other) = (&one.runs[place], &other.runs[place]);
        if one.0 != other.0 || !is_same(&one.1, &other.1) {
            return false;
        }
    }
    true
}

/// Whether two runs have the same rows and the same close.
fn is_same(one: &Run, other: &Run) -> bool {
    let count = one.rows.count();
    if count != other.rows.count() || one.close != other.close {
        return false;
    }
    for place in 0..count {
        if one.rows.row(place) != other.rows.row(place) {
            return false;
        }
    }
    true
}
