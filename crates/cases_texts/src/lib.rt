//! The calls of texts of the desk, and of audits of texts.
#![tactic(auto)]

mod alone;
mod audits;
mod desk;
mod lists;
mod runs;
mod verdicts;

use act_io::Files;
use cases_rows::Case;
use std::sync::Wait;
use std::thread::Threads;

/// Tells what the call of that name answers, of those that a table has.
pub fn answer<R: Threads + Wait + Sync, F: Files>(
    rt: &R,
    case: &mut Case<'_>,
    files: &mut F,
    table: &str,
    call: &str,
) {
    match (table, call) {
        ("audits.txt", "audit") => audits::row_told(case, files),
        ("desk-texts.txt", "desk") => runs::runs_told(rt, case, files),
        ("desk-texts.txt", "audited") => verdicts::audited_told(rt, case, files),
        ("desk-texts.txt", "changed") => verdicts::changed_told(rt, case, files),
        _ => case.fail("no such call"),
    }
}
