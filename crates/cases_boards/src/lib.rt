//! The calls of boards: what each of a row of calls is answered, and what can be seen of the board behind it.
#![tactic(auto)]

mod drive;
mod driven;
mod entry;
mod looks;
mod runs;

use act_io::Files;
use act_model::MOST_BYTES;
use act_portfolio::Portfolio;
use cases_rows::Case;
use drive::Drive;
use std::alloc::Global;
use std::str;
use std::sync::Arc;

/// Tells what the calls of a board are answered, a line each. Given are a portfolio's file, the quotas of the callers, and
/// the calls: those of another file, or the lines below.
pub fn answer<F: Files>(case: &mut Case<'_>, files: &mut F, call: &str) {
    if call != "board" {
        return case.fail("no such call");
    }
    let (name, quotas) = (case.word(), case.places());
    let bytes = case.file(files, name);
    let calls = calls(case, files);
    match (portfolio(case.alloc, &bytes), str::from_utf8(&calls)) {
        (Some(portfolio), Ok(calls)) => over(case, &portfolio, &quotas, calls),
        _ => case.fail("the portfolio is refused, or the calls are no text"),
    }
}

/// Tells what the calls of a board over a portfolio are answered.
fn over(case: &mut Case<'_>, portfolio: &Arc<Portfolio, Global>, quotas: &[u64], calls: &str) {
    match Drive::over(case.alloc, portfolio, quotas) {
        Some(mut drive) => drive.calls_told(case, calls),
        None => case.fail("the quotas have another form, or memory ran out"),
    }
}

/// The calls of a row.
fn calls<F: Files>(case: &mut Case<'_>, files: &mut F) -> Vec<u8> {
    match case.given.split_once('\n') {
        Some((_, below)) => case.bytes_of(below),
        None => {
            let name = case.word();
            case.file(files, name)
        }
    }
}

/// The portfolio of a file's bytes, or None where they are refused.
fn portfolio(alloc: Global, bytes: &[u8]) -> Option<Arc<Portfolio, Global>> {
    if bytes.len() as u64 > MOST_BYTES {
        return None;
    }
    match Portfolio::read(alloc, bytes) {
        Ok(portfolio) => Arc::new(alloc, portfolio).ok(),
        Err(_) => None,
    }
}
