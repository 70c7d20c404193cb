//! The calls of commands, over files and sinks in memory.
#![tactic(auto)]

mod commands;
mod desk;
mod explained;
mod failing;
mod meeting;
mod narrow;

use act_io::Files;
use cases_rows::Case;
use std::sync::Wait;
use std::thread::Threads;

/// Tells what the call of that name answers.
pub fn answer<R: Threads + Wait + Sync, F: Files>(
    rt: &R,
    case: &mut Case<'_>,
    files: &mut F,
    call: &str,
) {
    match call {
        "at_desk" | "among_all" | "meet" | "race" | "race_among_all" => desk::answer(
            rt, case, files, call,
        ),
        "explain" => explained::answer(rt, case, files),
        "narrow" => narrow::answer(case, files),
        _ => commands::answer(case, files, call),
    }
}
