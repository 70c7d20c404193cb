//! Audits over files and a sink in memory.
ghost use Rattle.std.specs.Prelude.{◌≡◌, ◌<◌};

use crate::lists::{Shelf, push_words, shelf};
use act_audit::audit_top;
use act_engine::Status;
use act_io::{Files, MemFiles, MemSink};
use act_num::Steps;
use cases_rows::Case;
use std::alloc::Global;
use std::marker::Brand;
use std::sync::ledger::{Blank, Ledger};

/// Tells of the audit of a row's words, of the text below them.
pub fn row_told<F: Files>(case: &mut Case<'_>, files: &mut F) {
    let (words, text) = case.given.split_once("\n").unwrap_or((case.given, ""));
    let list = shelf(case, files, "audits", words);
    let text = text_of(case, text);
    audit_told(case, list, words, text);
}

/// The bytes of lines. The last one ends too, but for a backslash.
fn text_of(case: &mut Case<'_>, lines: &str) -> Vec<u8> {
    let (lines, end) = match lines.strip_suffix("\\") {
        Some(lines) => (lines, ""),
        None => (lines, "\n"),
    };
    let mut text = case.bytes_of(lines);
    case.is_wrong |= text.extend_from_slice(end.as_bytes()).is_err();
    text
}

/// Tells the status of the audit of words, which have spaces between them, over files and a text, and the line that it writes.
pub fn audit_told(told: &mut Case<'_>, mut list: Shelf, words: &str, text: Vec<u8>) {
    told.file_added(&mut list, "TEXT", text);
    let mut files = MemFiles::new(told.alloc, list, Vec::new(told.alloc));
    let mut sink = MemSink::new(told.alloc, Vec::new(told.alloc));
    let mut list = Vec::new(told.alloc);
    push_words(told, &mut list, words);
    let status = judge::<Brand>(told.alloc, &list, &mut files, &mut sink, Blank::new(1));
    told.value(status.number());
    told.text(" ");
    match sink.bytes().strip_suffix(b"\n") {
        Some(line) => told.bytes_told(line),
        None => told.fail("no line was written"),
    }
}

/// Audits with a counter of its own.
fn judge<L: Ledger>(
    alloc: Global,
    words: &[String],
    files: &mut MemFiles,
    sink: &mut MemSink,
    blank: Blank,
) -> Status
    requires name { blank.name ≡ L.name }
    requires parts { blank.parts ≡ L.parts }
    requires some_parts { 0 < L.parts }
{
    let mut steps = Steps::<L>::new(blank);
    audit_top(alloc, words, files, sink, &mut steps).status
}
