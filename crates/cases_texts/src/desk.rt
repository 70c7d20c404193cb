//! The desk, over files and a sink in memory.
use crate::lists::{push_words, shelf};
use act_desk::Context;
use act_io::{Files, MemFiles, MemSink, NoGate};
use act_top::{Ran, desk_top};
use cases_rows::Case;
use std::sync::Wait;
use std::thread::Threads;

/// The files of a folder: a portfolio, and the scripts of three callers.
const FILES: &str = "p.json s1.txt s2.txt s3.txt";

/// The words by which so many workers run the scripts of a folder.
pub fn desk_words(case: &mut Case<'_>, workers: &str) -> Vec<String> {
    let mut words = Vec::new(case.alloc);
    push_words(case, &mut words, "desk");
    push_words(case, &mut words, workers);
    push_words(case, &mut words, FILES);
    words
}

/// Runs the scripts of a folder by these words.
pub fn by_desk<'a, R: Threads + Wait + Sync, F: Files>(
    rt: &R,
    case: &mut Case<'_>,
    files: &mut F,
    folder: &str,
    words: &'a [String],
) -> (Ran<'a>, MemSink) {
    let list = shelf(case, files, folder, FILES);
    let mut files = MemFiles::new(case.alloc, list, Vec::new(case.alloc));
    let mut sink = MemSink::new(case.alloc, Vec::new(case.alloc));
    let context = Context {
        rt,
        alloc: case.alloc,
        gate: &NoGate,
    };
    let ran = desk_top(&context, words, &mut files, &mut sink);
    (ran, sink)
}
