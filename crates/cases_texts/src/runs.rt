//! Runs of the desk, each compared with what one thread comes to.
use crate::alone::wanted_told;
use crate::desk::{by_desk, desk_words};
use act_io::Files;
use act_model::Names;
use cases_rows::{Case, number_of};
use std::sync::Wait;
use std::thread::Threads;

/// Runs the scripts of a folder with so many workers so many times, and compares each text. It tells how many answers agree, and how many
/// texts differ. Behind these words stands how many contracts have names, with these, and the same of codes, as they are numbered.
pub fn runs_told<R: Threads + Wait + Sync, F: Files>(rt: &R, case: &mut Case<'_>, files: &mut F) {
    let (folder, workers, times) = (case.word(), case.word(), case.count());
    let mut names = Names::new(case.alloc);
    add_all(case, &mut names, "contract");
    add_all(case, &mut names, "code");
    let (mut answers, mut differ) = (0_u64, 0_u64);
    for _ in 0..times {
        match answers_agreed(rt, case, files, folder, workers, &names) {
            Some(agreed) => answers = answers.saturating_add(agreed),
            None => differ = differ.saturating_add(1),
        }
    }
    case.value(answers);
    case.text(" answers, ");
    case.value(differ);
    case.text(" differ");
}

/// Adds names: the next word is how many.
fn add_all(case: &mut Case<'_>, names: &mut Names, sort: &str) {
    for _ in 0..case.count() {
        if number_of(names, sort, case.word()).is_none() {
            case.fail("a word has another form");
        }
    }
}

/// Runs scripts once, and answers how many answers there are, where the status and the text are those that one thread comes to.
fn answers_agreed<R: Threads + Wait + Sync, F: Files>(
    rt: &R,
    case: &mut Case<'_>,
    files: &mut F,
    folder: &str,
    workers: &str,
    names: &Names,
) -> Option<u64> {
    let words = desk_words(case, workers);
    let (ran, sink) = by_desk(rt, case, files, folder, &words);
    let mut found = Case::of(case.alloc, "");
    found.value(ran.status.number());
    found.text(" ");
    found.bytes_told(sink.bytes());
    let mut wanted = Case::of(case.alloc, "");
    let asks = match &ran.board {
        Some(board) => wanted_told(&mut wanted, files, folder, names, board.journal()),
        None => 0,
    };
    case.is_wrong |= found.is_wrong || wanted.is_wrong;
    if found.told == wanted.told {
        Some(asks)
    } else {
        None
    }
}
