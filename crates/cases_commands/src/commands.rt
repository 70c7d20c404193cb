//! Commands, over files and a sink in memory.
ghost use Rattle.std.specs.Prelude.{◌≡◌, ◌<◌};

use crate::explained::refusal_told;
use crate::failing::each_told;
use act_engine::Status;
use act_io::{Files, MemFiles, MemSink, Sink};
use act_num::Steps;
use act_top::eval_top;
use cases_rows::{Case, change, parts_around, rows_told};
use std::alloc::Global;
use std::marker::Brand;
use std::sync::ledger::{Blank, Ledger};

/// The file of the loan P1, alone in a portfolio.
const LOAN: &str = "loans/p1.json";

/// The lines before the first contract's rows where that loan is asked for once.
const HEAD: &[u8] = b"journal 1\n1 ask *\nanswers 1\nanswer 1 1 0\ncontract P1\n";

/// The line of a script that asks for all contracts.
const ASK: &[u8] = b"\n{\"ask\":\"*\"}\n";

/// Tells what a call answers.
pub fn answer<F: Files>(case: &mut Case<'_>, files: &mut F, call: &str) {
    match (call, case.given.split_once("\n")) {
        ("run", _) => named(case, files),
        ("check", _) => over(case, files, call, "check p.json"),
        ("refuse", _) => refused(case, files),
        ("eval", None) => over(case, files, call, "eval p.json"),
        ("eval" | "payoffs" | "rates", _) => over(case, files, call, "eval p.json s.txt"),
        _ => case.fail("no such call"),
    }
}

/// Tells of a command by its words, each of which may name a file; behind `!` the number of a call that fails, or what fails in turn.
fn named<F: Files>(case: &mut Case<'_>, files: &mut F) {
    let (line, fails) = case.given.split_once("! ").unwrap_or((case.given, ""));
    match fails.split_once(" ") {
        Some(("fetch", calls)) => failing_told(case, files, line, calls, "-"),
        Some(("put", calls)) => failing_told(case, files, line, "-", calls),
        Some(("each", what)) => each_told(case, files, line, what),
        None if fails.is_empty() => failing_told(case, files, line, "-", "-"),
        _ => case.fail("no such failure"),
    }
}

/// Tells of a command of which these fetches and these puts fail.
fn failing_told<F: Files>(case: &mut Case<'_>, files: &mut F, line: &str, fetch: &str, put: &str) {
    let list = files_named(case, files, line);
    let files = MemFiles::new(case.alloc, list, case.places_of(fetch));
    let mut out = MemSink::new(case.alloc, case.places_of(put));
    let status = ended(case, files, &mut out, line);
    status_told(case, "run", status, out.bytes());
}

/// The files that words name, of those that there are.
pub fn files_named<F: Files>(
    case: &mut Case<'_>,
    files: &mut F,
    line: &str,
) -> Vec<(String, Vec<u8>)> {
    let mut list = Vec::new(case.alloc);
    for name in line.split_whitespace() {
        if let Some(bytes) = case.found(files, name) {
            case.file_added(&mut list, name, bytes);
        }
    }
    list
}

/// Tells of a command over a portfolio, and over a script that stands below it.
fn over<F: Files>(case: &mut Case<'_>, files: &mut F, call: &str, line: &str) {
    let (head, below) = case.given.split_once("\n").unwrap_or((case.given, ""));
    let mut list = Vec::new(case.alloc);
    let portfolio = portfolio(case, files, head);
    case.file_added(&mut list, "p.json", portfolio);
    let script = script(case, call, below);
    case.file_added(&mut list, "s.txt", script);
    let files = MemFiles::new(case.alloc, list, Vec::new(case.alloc));
    let mut out = MemSink::new(case.alloc, Vec::new(case.alloc));
    let status = ended(case, files, &mut out, line);
    status_told(case, call, status, out.bytes());
}

/// A script as it is written in a row, behind which all is asked for where rows are told.
fn script(case: &mut Case<'_>, call: &str, text: &str) -> Vec<u8> {
    let mut script = case.bytes_of(text);
    if matches!(call, "payoffs" | "rates") {
        case.is_wrong |= script.extend_from_slice(ASK).is_err();
    }
    script
}

/// A portfolio as it is written in a row: `-` for the loan P1, changes of a text in it, or its own text.
fn portfolio<F: Files>(case: &mut Case<'_>, files: &mut F, text: &str) -> Vec<u8> {
    if text != "-" && text.split_once(" -> ").is_none() {
        return case.bytes_of(text);
    }
    let mut portfolio = case.file(files, LOAN);
    for changed in text.split("; ") {
        if changed != "-" {
            change(case, &mut portfolio, changed);
        }
    }
    portfolio
}

/// Tells the line with which both commands refuse a portfolio.
fn refused<F: Files>(case: &mut Case<'_>, files: &mut F) {
    let mut eval = Case::of(case.alloc, case.given);
    over(&mut eval, files, "refuse", "eval p.json");
    over(case, files, "refuse", "check p.json");
    case.is_wrong |= eval.is_wrong;
    explanation_told(case, files);
    if case.told != eval.told {
        case.text(", but eval ");
        case.bytes_told(&eval.told);
    }
}

/// Tells trouble where the portfolio of a row has no explanation.
fn explanation_told<F: Files>(case: &mut Case<'_>, files: &mut F) {
    let mut list = Vec::new(case.alloc);
    let portfolio = portfolio(case, files, case.given);
    case.file_added(&mut list, "p.json", portfolio);
    let files = MemFiles::new(case.alloc, list, Vec::new(case.alloc));
    refusal_told(case, files, "p.json");
}

/// Runs a command over files and a sink, and answers how it ended.
pub fn ended<K: Sink>(case: &mut Case<'_>, mut files: MemFiles, out: &mut K, line: &str) -> Status {
    let words = words_of(case, line);
    run::<Brand, _, _>(case.alloc, &words, &mut files, out, Blank::new(1))
}

/// The words of a line.
pub fn words_of(case: &mut Case<'_>, line: &str) -> Vec<String> {
    let mut words = Vec::new(case.alloc);
    for word in line.split_whitespace() {
        let is_added = match String::from_str(case.alloc, word) {
            Ok(word) => words.push(word).is_ok(),
            Err(_) => false,
        };
        case.is_wrong |= !is_added;
    }
    words
}

/// Runs a command with a counter of its own.
fn run<L: Ledger, F: Files, K: Sink>(
    alloc: Global,
    words: &[String],
    files: &mut F,
    out: &mut K,
    blank: Blank,
) -> Status
    requires name { blank.name ≡ L.name }
    requires parts { blank.parts ≡ L.parts }
    requires some_parts { 0 < L.parts }
{
    let mut steps = Steps::<L>::new(blank);
    eval_top(alloc, words, files, out, &mut steps)
}

/// Tells of a command that ended so and wrote this: its status, but not 5 where it is to refuse, and its lines, without the head of
/// an evaluation of the loan P1; or the rows of the contract P1, where it has some.
fn status_told(case: &mut Case<'_>, call: &str, status: Status, text: &[u8]) {
    match (call, parts_around(text, b"\ncontract P1\n")) {
        ("payoffs" | "rates", Some((_, rows))) => rows_told(case, rows, call == "rates"),
        ("refuse", _) if status.number() == 5 => case.lines(text),
        ("eval", _) => {
            case.value(status.number());
            case.lines(text.strip_prefix(HEAD).unwrap_or(text));
        }
        _ => {
            case.value(status.number());
            case.lines(text);
        }
    }
}
