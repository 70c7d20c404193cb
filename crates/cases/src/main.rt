//! Goes over the tables of cases that its words name: makes each row's call, compares, and tells the rows that differ and how many
//! rows each table has. It ends with 1 where a row differs.
#![tactic(auto)]

mod table;

use act_io::Files;
use cases_books::{Shelf, lists_told};
use cases_rows::Case;
use std::io;
use std::process::ExitCode;
use std::sync::Wait;
use std::thread::Threads;
use table::go_over;

fn main(rt: HostRuntime) -> io::Result<ExitCode> {
    go_over(&rt)
}

/// Tells what the call of that name answers, of those that a table has. One of the tables fills the book of the shelf.
fn answer<R: Threads + Wait + Sync, F: Files>(
    rt: &R,
    shelf: &mut Shelf,
    case: &mut Case<'_>,
    files: &mut F,
    table: &str,
    call: &str,
) {
    match (table, call) {
        (_, "resume" | "kept" | "shadow") | ("scripts.txt", _) => {
            cases_runs::answer(case, files, call);
        }
        (_, "lists") => lists_told(case),
        ("boards.txt", _) => cases_boards::answer(case, files, call),
        ("desks.txt", _) => cases_desks::answer(rt, case, files, call),
        ("audits.txt" | "desk-texts.txt", _) => {
            cases_texts::answer(rt, case, files, table, call);
        }
        ("book.txt" | "weights.txt" | "texts.txt", _) => {
            cases_books::answer(shelf, case, files, table, call);
        }
        (
            "numbers.txt"
            | "days.txt"
            | "business-days.txt"
            | "schedules.txt"
            | "annuities.txt"
            | "json.txt"
            | "names.txt"
            | "references.txt"
            | "generator.txt"
            | "outside.txt",
            _,
        ) => cases_numbers::answer(case, table, call),
        _ => cases_commands::answer(rt, case, files, call),
    }
}
