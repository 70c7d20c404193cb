//! The calls of scripts, of what a portfolio keeps, and of runs that go on from others.
#![tactic(auto)]

mod kept;
mod resumed;
mod same;
mod scripts;
mod shadows;

use act_io::Files;
use cases_rows::Case;

/// Tells what the call of that name answers.
pub fn answer<F: Files>(case: &mut Case<'_>, files: &mut F, call: &str) {
    match call {
        "resume" | "kept" | "shadow" => resumed::answer(case, files, call),
        _ => scripts::answer(case, files, call),
    }
}
