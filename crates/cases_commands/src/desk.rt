//! Commands of the desk.
ghost use Rattle.std.specs.Prelude.{◌≡◌, ◌<◌};

use crate::commands::{files_named, words_of};
use crate::meeting::Meeting;
use act_desk::Context;
use act_io::{Files, Gate, MemFiles, MemSink, NoGate};
use act_num::Steps;
use act_top::{Ran, actus_top, desk_top};
use cases_rows::Case;
use std::alloc::Global;
use std::marker::Brand;
use std::str;
use std::sync::Wait;
use std::sync::ledger::{Blank, Ledger};
use std::thread::Threads;

/// How a command ended.
#[derive(Clone, Copy)]
struct Ended {
    /// Its status.
    status: u8,
    /// Whether it handed out its board.
    has_board: bool,
}

/// Tells what a call answers.
pub fn answer<R: Threads + Wait + Sync, F: Files>(
    rt: &R,
    case: &mut Case<'_>,
    files: &mut F,
    call: &str,
) {
    if call == "race" || call == "race_among_all" {
        return raced(rt, case, files, call);
    }
    let line = case.given;
    let (ended, out) = match call {
        "meet" => met(rt, case, files, line),
        "among_all" => among_all(rt, case, files, line),
        _ => at_desk(rt, case, files, line, &NoGate),
    };
    case.value(ended.status);
    if ended.has_board {
        case.text(" with its board");
    }
    case.lines(out.bytes());
}

/// Runs a command of the desk with a gate. It answers how it ended, and the sink.
fn at_desk<R: Threads + Wait + Sync, F: Files, G: Gate>(
    rt: &R,
    case: &mut Case<'_>,
    files: &mut F,
    line: &str,
    gate: &G,
) -> (Ended, MemSink) {
    let words = words_of(case, line);
    let list = files_named(case, files, line);
    let mut files = MemFiles::new(case.alloc, list, Vec::new(case.alloc));
    let mut out = MemSink::new(case.alloc, Vec::new(case.alloc));
    let context = Context {
        rt,
        alloc: case.alloc,
        gate,
    };
    let ran = desk_top(&context, &words, &mut files, &mut out);
    (end_of(ran), out)
}

/// Runs a command behind a number, with a gate where so many evaluations meet, and tells what the gate was told. It answers how it
/// ended, and the sink.
fn met<R: Threads + Wait + Sync, F: Files>(
    rt: &R,
    case: &mut Case<'_>,
    files: &mut F,
    words: &str,
) -> (Ended, MemSink) {
    let (wanted, line) = words.split_once(" ").unwrap_or((words, ""));
    let gate = Meeting::new(rt, case.alloc, case.place_of(wanted));
    let ran = at_desk(rt, case, files, line, &gate);
    gate.told(case);
    ran
}

/// Runs a command by the call that runs them all. It answers how it ended, and the sink.
fn among_all<R: Threads + Wait + Sync, F: Files>(
    rt: &R,
    case: &mut Case<'_>,
    files: &mut F,
    line: &str,
) -> (Ended, MemSink) {
    let words = words_of(case, line);
    let list = files_named(case, files, line);
    let mut files = MemFiles::new(case.alloc, list, Vec::new(case.alloc));
    let mut out = MemSink::new(case.alloc, Vec::new(case.alloc));
    let ran = run::<Brand, R>(rt, case.alloc, &words, &mut files, &mut out, Blank::new(1));
    (end_of(ran), out)
}

/// Runs a command with a counter of its own.
pub fn run<'a, L: Ledger, R: Threads + Wait + Sync>(
    rt: &R,
    alloc: Global,
    words: &'a [String],
    files: &mut MemFiles,
    out: &mut MemSink,
    blank: Blank,
) -> Ran<'a>
    requires name { blank.name ≡ L.name }
    requires parts { blank.parts ≡ L.parts }
    requires some_parts { 0 < L.parts }
{
    let mut steps = Steps::<L>::new(blank);
    let context = Context {
        rt,
        alloc,
        gate: &NoGate,
    };
    actus_top(&context, words, files, out, &mut steps)
}

/// How a command ended.
fn end_of(ran: Ran<'_>) -> Ended {
    Ended {
        status: ran.status.number(),
        has_board: ran.board.is_some(),
    }
}

/// Runs the command below so many times, and tells how often it ended with its board and status 0, and how often it wrote another text
/// than those of a file, which have an empty line between them.
fn raced<R: Threads + Wait + Sync, F: Files>(
    rt: &R,
    case: &mut Case<'_>,
    files: &mut F,
    call: &str,
) {
    let (times, name) = (case.count(), case.word());
    let texts = case.file(files, name);
    let line = case.given.split_once("\n").unwrap_or(("", "")).1;
    let (mut well, mut others) = (0_u64, 0_u64);
    for _ in 0..times {
        let (ended, out) = match call {
            "race" => at_desk(rt, case, files, line, &NoGate),
            _ => among_all(rt, case, files, line),
        };
        if ended.has_board && ended.status == 0 {
            well = well.saturating_add(1);
        }
        if !is_one_of(out.bytes(), &texts) {
            others = others.saturating_add(1);
        }
    }
    case.value(well);
    case.text(" with their boards, ");
    case.value(others);
    case.text(" other texts");
}

/// Whether a text is one of those that have an empty line between them.
fn is_one_of(text: &[u8], texts: &[u8]) -> bool {
    match (str::from_utf8(text), str::from_utf8(texts)) {
        (Ok(text), Ok(texts)) => texts
            .split("\n\n")
            .any(|one| one.trim_end() == text.trim_end()),
        _ => false,
    }
}
