//! What the desk is to write of a journal, by what one thread writes that evaluates it.
ghost use Rattle.std.specs.Prelude.{◌≡◌, ◌<◌};

use crate::lists::{Shelf, push_words, shelf, text};
use act_engine::Status;
use act_io::{Files, MemFiles, MemSink};
use act_model::{Item, Names, Obs, ObsKind, Step};
use act_num::Steps;
use act_top::eval_top;
use cases_rows::{Case, entry_told, name_told, step_told};
use std::alloc::Global;
use std::marker::Brand;
use std::sync::ledger::{Blank, Ledger};

/// Above an answer to caller 1 in the text of one thread, before its number.
const ANSWER: &str = "answer 1 ";

/// Tells the status and the text that the desk is to come to with a journal of three callers, and answers how many answers there are. The
/// steps of the journal have to be those of the callers' scripts, and what one thread writes that evaluates them has to begin with the
/// journal, all of caller 1. The answers are those of that thread, caller after caller.
pub fn wanted_told<F: Files>(
    wanted: &mut Case<'_>,
    files: &mut F,
    folder: &str,
    names: &Names,
    items: &[Item],
) -> u64 {
    let script = script(wanted, files, folder, items);
    let mut list = shelf(wanted, files, folder, "p.json");
    wanted.file_added(&mut list, "s.txt", script);
    let (status, sink) = evaluated(wanted, list);
    wanted.value(status.number());
    wanted.text(" ");
    let asks = journal_told(wanted, names, items, None);
    let mut alone = Case::of(wanted.alloc, "");
    journal_told(&mut alone, names, items, Some(1));
    match sink.bytes().strip_prefix(alone.told.as_slice()) {
        Some(answers) => answers_told(wanted, items, text(answers)),
        None => wanted.fail("one thread has another journal"),
    }
    wanted.is_wrong |= alone.is_wrong;
    asks
}

/// The script of one caller whose lines are those of a journal, in whose order the scripts of a folder are put together.
fn script<F: Files>(case: &mut Case<'_>, files: &mut F, folder: &str, items: &[Item]) -> Vec<u8> {
    let scripts = shelf(case, files, folder, "s1.txt s2.txt s3.txt");
    let mut script = Case::of(case.alloc, "");
    match scripts.as_slice() {
        [(_, one), (_, two), (_, three)] => {
            lines_told(&mut script, items, [text(one), text(two), text(three)]);
        }
        _ => script.fail("a script lacks"),
    }
    case.is_wrong |= script.is_wrong;
    script.told
}

/// Tells the next line of the first script for each item of the first caller, and so on. Each line has to be there, and none may be left.
fn lines_told(told: &mut Case<'_>, items: &[Item], mut scripts: [&str; 3]) {
    for item in items {
        match scripts.get_mut(item.caller.wrapping_sub(1) as usize) {
            Some(rest) => {
                let line = next(rest, "\n");
                told.is_wrong |= line.is_empty();
                told.text(line);
                told.text("\n");
            }
            None => told.fail("no such caller"),
        }
    }
    told.is_wrong |= !matches!(scripts, ["", "", ""]);
}

/// Takes the first part of a text, up to a mark or its end, and leaves what stands behind the mark.
fn next<'a>(rest: &mut &'a str, mark: &str) -> &'a str {
    let (part, behind) = rest.split_once(mark).unwrap_or((*rest, ""));
    *rest = behind;
    part
}

/// Evaluates a script over a portfolio by one thread. It answers how that ended, and the sink.
fn evaluated(case: &mut Case<'_>, list: Shelf) -> (Status, MemSink) {
    let mut words = Vec::new(case.alloc);
    push_words(case, &mut words, "eval p.json s.txt");
    let mut files = MemFiles::new(case.alloc, list, Vec::new(case.alloc));
    let mut sink = MemSink::new(case.alloc, Vec::new(case.alloc));
    let status = evaluate::<Brand>(case.alloc, &words, &mut files, &mut sink, Blank::new(1));
    (status, sink)
}

/// Evaluates with a counter of its own.
fn evaluate<L: Ledger>(
    alloc: Global,
    words: &[String],
    files: &mut MemFiles,
    sink: &mut MemSink,
    blank: Blank,
) -> Status
    requires name { blank.name ≡ L.name }
    requires parts { blank.parts ≡ L.parts }
    requires some_parts { 0 < L.parts }
{
    let mut steps = Steps::<L>::new(blank);
    eval_top(alloc, words, files, sink, &mut steps)
}

/// Tells the lines of a journal, each of its own caller or all of one, and that of how many answers there are, which it answers.
fn journal_told(told: &mut Case<'_>, names: &Names, items: &[Item], caller: Option<u32>) -> u64 {
    let mut asks = 0_u64;
    told.text("journal ");
    told.value(items.len());
    told.text("\n");
    for item in items {
        told.value(caller.unwrap_or(item.caller));
        told.text(" ");
        line_told(told, names, item.step);
        told.text("\n");
        asks = asks.saturating_add(u64::from(is_ask(item)));
    }
    told.text("answers ");
    told.value(asks);
    told.text("\n");
    asks
}

/// Tells a step as the journal writes it.
fn line_told(told: &mut Case<'_>, names: &Names, step: Step) {
    match step {
        Step::Append(entry) => entry_line_told(told, names, entry),
        Step::Ask(_) => step_told(told, names, step),
    }
}

/// Tells an entry as the journal writes it, in which a credit event has its kind in the place of a value.
fn entry_line_told(told: &mut Case<'_>, names: &Names, entry: Obs) {
    let (Obs::Rate { day, .. } | Obs::Event { day, .. }) = entry;
    match entry {
        Obs::Event { contract, kind, .. }
            if matches!(kind, ObsKind::DL | ObsKind::DQ | ObsKind::DF) => {
            told.text("event ");
            name_told(told, names.id(contract), contract);
            told.text(" CE ");
            told.day_told(day);
            told.text(" ");
            told.value(kind);
        }
        _ => entry_told(told, names, entry),
    }
}

/// Whether an item asks.
fn is_ask(item: &Item) -> bool {
    matches!(item.step, Step::Ask(_))
}

/// Tells the answers of all callers out of those of one thread, behind which a line of work stands.
fn answers_told(told: &mut Case<'_>, items: &[Item], alone: &str) {
    match alone.rsplit_once("work ") {
        Some((answers, _)) => {
            for caller in 1..=3 {
                caller_told(told, items, answers, caller);
            }
        }
        None => told.fail("a line of work lacks"),
    }
}

/// Tells the answers of a caller, numbered from 1, out of those of one thread, of which there has to be one for each ask of a journal.
fn caller_told(told: &mut Case<'_>, items: &[Item], answers: &str, caller: u32) {
    let mut rest = answers.strip_prefix(ANSWER).unwrap_or("");
    let mut number = 0_u32;
    for item in items {
        if is_ask(item) {
            let answer = next(&mut rest, ANSWER);
            told.is_wrong |= answer.is_empty();
            if item.caller == caller {
                number = number.saturating_add(1);
                answer_told(told, caller, number, answer);
            }
        }
    }
    told.is_wrong |= !rest.is_empty();
}

/// Tells the answer of that number to a caller, by that of one thread, which begins with its own number.
fn answer_told(told: &mut Case<'_>, caller: u32, number: u32, answer: &str) {
    told.text("answer ");
    told.value(caller);
    told.text(" ");
    told.value(number);
    told.text(" ");
    told.text(answer.split_once(" ").unwrap_or(("", "")).1);
}
