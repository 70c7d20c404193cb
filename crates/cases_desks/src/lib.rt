//! The calls of the table of turns, desks and sessions, which threads share.
#![tactic(auto)]

mod caller;
mod draws;
mod drive;
mod given_up;
mod heard;
mod sessions;
mod turns;
mod waking;

use act_io::Files;
use act_model::{MOST_BYTES, Names};
use act_portfolio::Portfolio;
use cases_rows::Case;
use std::alloc::Global;
use std::sync::{Arc, Wait};
use std::thread::Threads;

/// Tells what the call of that name answers. Where it is about a portfolio, that is the file of the first word.
pub fn answer<R: Threads + Wait + Sync, F: Files>(
    rt: &R,
    case: &mut Case<'_>,
    files: &mut F,
    call: &str,
) {
    if call == "turns" {
        return turns::turns_told(rt, case);
    }
    let name = case.word();
    let bytes = case.file(files, name);
    match portfolio(case.alloc, &bytes) {
        Some(portfolio) => of_portfolio(rt, case, &portfolio, call),
        None => case.fail("the portfolio is refused"),
    }
}

/// The portfolio of a text; None where it is refused.
fn portfolio(alloc: Global, bytes: &[u8]) -> Option<Arc<Portfolio, Global>> {
    if bytes.len() as u64 > MOST_BYTES {
        return None;
    }
    Arc::new(alloc, Portfolio::read(alloc, bytes).ok()?).ok()
}

/// Tells what a call about a portfolio answers.
fn of_portfolio<R: Threads + Wait + Sync>(
    rt: &R,
    case: &mut Case<'_>,
    portfolio: &Arc<Portfolio, Global>,
    call: &str,
) {
    match portfolio.to_names() {
        Ok(names) => of_names(rt, case, portfolio, &names, call),
        Err(_) => case.fail("memory ran out"),
    }
}

fn of_names<R: Threads + Wait + Sync>(
    rt: &R,
    case: &mut Case<'_>,
    portfolio: &Arc<Portfolio, Global>,
    names: &Names,
    call: &str,
) {
    match call {
        "drive" => drive::drive_told(rt, case, portfolio, names),
        "given_up" => given_up::given_up_told(rt, case, portfolio, names),
        "sessions" => sessions::sessions_told(rt, case, portfolio),
        "waking" => waking::waking_told(rt, case, portfolio, names),
        _ => case.fail("no such call"),
    }
}
