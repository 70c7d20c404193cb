//! Calls of files and a sink in memory, of the generator of large portfolios and scripts, and those that answer nothing.
ghost use Rattle.std.specs.Prelude.{◌≡◌, ◌<◌};

use crate::outputs;
use act_gen::{portfolio_bytes, script_bytes};
use act_io::{Files, Gate, MemFiles, MemSink, NoGate, Sink};
use act_num::Steps;
use cases_rows::Case;
use sha2::{Digest, Sha256};
use std::io::Write as _;
use std::marker::Brand;
use std::sync::ledger::{Blank, Ledger};

/// Tells what a call answers.
pub fn answer(case: &mut Case<'_>, call: &str) {
    match call {
        "fetches" => fetches(case),
        "puts" | "puts_lines" => puts(case, call),
        "output" => outputs::answer(case),
        "output_lines" => outputs::lines(case),
        "steps" | "gate" => quiet(case, call),
        "generated_text" | "generated" => {
            let (n, kind) = (case.count(), case.word());
            generated(case, n, kind);
            if call == "generated" {
                digest(case);
            }
        }
        _ => case.fail("no such call"),
    }
}

/// Tells the portfolio or the script of a number.
fn generated(case: &mut Case<'_>, n: u32, kind: &str) {
    if n < 1 || n > 1000 {
        return case.fail("a number is out of range");
    }
    let text = match kind {
        "portfolio" => portfolio_bytes(case.alloc, n),
        _ => script_bytes(case.alloc, n),
    };
    match text {
        Ok(text) => case.bytes_told(&text),
        Err(_) => case.fail("memory ran out"),
    }
}

/// Tells the length of what has been told, and its SHA-256 in hexadecimal, in its place.
fn digest(case: &mut Case<'_>) {
    let length = case.told.len();
    let mut hasher = Sha256::new();
    hasher.update(case.told.as_slice());
    case.told.clear();
    case.value(length);
    case.text(" ");
    for byte in hasher.finalize() {
        if write!(case.told, "{byte:02x}").is_err() {
            case.fail("memory ran out");
        }
    }
}

/// Tells what files in memory answer: the calls that fail, files NAME=TEXT, and calls NAME/LIMIT.
fn fetches(case: &mut Case<'_>) {
    let fails = case.places();
    let mut list = Vec::new(case.alloc);
    for file in case.given.split_whitespace().skip(1) {
        if let Some((name, text)) = file.split_once('=') {
            let bytes = case.bytes_of(text);
            case.file_added(&mut list, name, bytes);
        }
    }
    let mut files = MemFiles::new(case.alloc, list, fails);
    for asked in case.given.split_whitespace().skip(1) {
        if let Some((name, limit)) = asked.split_once('/') {
            case.next(", ");
            let limit = case.place_of(limit);
            match files.fetch(case.alloc, name, limit) {
                Ok(bytes) => case.bytes_told(&bytes),
                Err(fault) => case.value(fault),
            }
        }
    }
}

/// Tells what a sink in memory answers, and what it holds then: the calls that fail, and the pieces, or texts of lines.
fn puts(case: &mut Case<'_>, call: &str) {
    let mut sink = MemSink::new(case.alloc, case.places());
    for piece in case.given.split_whitespace().skip(1) {
        case.next(" ");
        let piece = case.bytes_of(piece);
        let taken = if call == "puts" {
            sink.put(&piece)
        } else {
            sink.put_lines(&piece)
        };
        match taken {
            Ok(count) => case.value(count),
            Err(fault) => case.value(fault),
        }
    }
    case.text("; ");
    case.bytes_told(sink.bytes());
}

/// Makes calls that answer nothing.
fn quiet(case: &mut Case<'_>, call: &str) {
    if call == "steps" {
        steps::<Brand>(Blank::new(1));
    } else {
        NoGate.enter(0, 0);
        NoGate.left(0, 0);
    }
    case.text("done");
}

/// Counts two steps.
fn steps<L: Ledger>(blank: Blank)
    requires name { blank.name ≡ L.name }
    requires parts { blank.parts ≡ L.parts }
    requires some_parts { 0 < L.parts }
{
    let mut steps = Steps::<L>::new(blank);
    steps.tick();
    steps.tick();
}
