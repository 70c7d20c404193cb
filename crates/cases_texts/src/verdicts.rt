//! Audits of texts of the desk, as they are and with a byte changed.
use crate::audits::audit_told;
use crate::desk::{by_desk, desk_words};
use crate::lists::{shelf, text};
use act_io::Files;
use cases_rows::{Case, parts_around};
use std::alloc::Global;
use std::sync::Wait;
use std::thread::Threads;

/// The words of an audit with scripts.
const WITH_SCRIPTS: &str = "p.json TEXT s1.txt s2.txt s3.txt";

/// Runs the scripts of a folder with so many workers, and tells of the audits of the text without the scripts and with them.
pub fn audited_told<R: Threads + Wait + Sync, F: Files>(
    rt: &R,
    case: &mut Case<'_>,
    files: &mut F,
) {
    let (folder, workers) = (case.word(), case.word());
    let words = desk_words(case, workers);
    let (_, sink) = by_desk(rt, case, files, folder, &words);
    text_told(case, files, folder, "p.json TEXT", sink.bytes(), usize::MAX);
    case.text(", ");
    text_told(case, files, folder, WITH_SCRIPTS, sink.bytes(), usize::MAX);
}

/// Runs the scripts of a folder with so many workers, and tells of how many of the text's bytes a change isn't found. From the line of the
/// count of answers on the text is to be wrong in the line of the byte. Before, where the journal stands, it is to be wrong or out of order
/// in that line or a later one.
pub fn changed_told<R: Threads + Wait + Sync, F: Files>(
    rt: &R,
    case: &mut Case<'_>,
    files: &mut F,
) {
    let (folder, workers) = (case.word(), case.word());
    let words = desk_words(case, workers);
    let (_, sink) = by_desk(rt, case, files, folder, &words);
    let text = sink.bytes();
    let (journal, _) = parts_around(text, b"\nanswers ").unwrap_or((b"", b""));
    let (mut line, mut differ) = (1_u64, 0_u64);
    for (place, byte) in text.iter().enumerate() {
        let mut told = Case::of(case.alloc, "");
        text_told(&mut told, files, folder, WITH_SCRIPTS, text, place);
        let is_found = if place > journal.len() {
            is_wrong_at(case.alloc, &told.told, line)
        } else {
            is_wrong_from(case.alloc, &told.told, line)
        };
        differ = differ.saturating_add(u64::from(!is_found || told.is_wrong));
        line = line.saturating_add(u64::from(*byte == b'\n'));
    }
    case.is_wrong |= journal.is_empty();
    case.value(differ);
    case.text(" differ");
}

/// Tells of the audit of a text over the files of a folder, with the byte at a place changed, where it has one there.
fn text_told<F: Files>(
    told: &mut Case<'_>,
    files: &mut F,
    folder: &str,
    words: &str,
    text: &[u8],
    place: usize,
) {
    let mut changed = Vec::new(told.alloc);
    told.is_wrong |= changed.extend_from_slice(text).is_err();
    if let Some(byte) = changed.get_mut(place) {
        *byte ^= 1;
    }
    let list = shelf(told, files, folder, words);
    audit_told(told, list, words, changed);
}

/// Whether a text is told to be wrong in this line.
fn is_wrong_at(alloc: Global, told: &[u8], line: u64) -> bool {
    let mut wanted = Case::of(alloc, "");
    wanted.text("1 wrong ");
    wanted.value(line);
    told == wanted.told.as_slice()
}

/// Whether a text is told to be wrong or out of order in this line or a later one.
fn is_wrong_from(alloc: Global, told: &[u8], line: u64) -> bool {
    let mut told = Case::of(alloc, text(told));
    let (status, what, place) = (told.word(), told.word(), told.place());
    status == "1" && matches!(what, "wrong" | "order") && place >= line && !told.is_wrong
}
