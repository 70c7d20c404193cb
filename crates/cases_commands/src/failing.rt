//! Commands of which each put fails in turn.
use crate::commands::{ended, files_named};
use act_engine::Status;
use act_io::{Files, MemFiles, MemSink};
use cases_rows::Case;

/// No command of a row makes more calls.
const MOST_CALLS: u64 = 10_000;

/// Tells how a command ends where the first put fails, where the second does, and so on, up to the first one that it doesn't make:
/// how often with status 7 and the whole lines before, or the bytes before, and the last status, with the whole text.
pub fn each_told<F: Files>(case: &mut Case<'_>, files: &mut F, line: &str, what: &str) {
    if !matches!(what, "put" | "byte") {
        return case.fail("no such failure");
    }
    let (wanted, whole) = ended_without(case, files, line, what, 0);
    for call in 1..=MOST_CALLS {
        let (status, sink) = ended_without(case, files, line, what, call);
        if status != Status::WriteFault {
            case.value(call.saturating_sub(1));
            case.text(" times 7, then ");
            case.value(status.number());
            if status != wanted || sink.bytes() != whole.bytes() {
                case.text(" with another text");
            }
            return;
        }
        if sink.bytes() != part_before(whole.bytes(), what, call) {
            case.value(call);
            return case.text(" with another text");
        }
    }
    case.text("more");
}

/// How a command ends where the put of that number fails, or none where it is 0, and the sink: a put takes a line, or a byte.
fn ended_without<F: Files>(
    case: &mut Case<'_>,
    files: &mut F,
    line: &str,
    what: &str,
    call: u64,
) -> (Status, MemSink) {
    let list = files_named(case, files, line);
    let files = MemFiles::new(case.alloc, list, Vec::new(case.alloc));
    let mut fails = Vec::new(case.alloc);
    case.is_wrong |= fails.push(call).is_err();
    let mut out = match what {
        "put" => MemSink::new(case.alloc, fails),
        _ => MemSink::narrow(case.alloc, fails, 1),
    };
    (ended(case, files, &mut out, line), out)
}

/// What puts before that of a number take of a text: a line each, or a byte each.
fn part_before<'a>(text: &'a [u8], what: &str, call: u64) -> &'a [u8] {
    let mut left = call;
    for (place, byte) in text.iter().enumerate() {
        if left <= 1 {
            return text.get(..place).unwrap_or(text);
        }
        if *byte == b'\n' || what == "byte" {
            left = left.saturating_sub(1);
        }
    }
    text
}
