//! The calls of the tables of numbers, days, schedules and annuities, of JSON texts, of names and references, of files, sinks and the
//! standard output, and of the generator.
#![tactic(auto)]

mod days;
mod json;
mod names;
mod numbers;
mod outputs;
mod outside;
mod references;
mod schedules;

use cases_rows::Case;

/// Tells what the call of that name answers, of those that a table has.
pub fn answer(case: &mut Case<'_>, table: &str, call: &str) {
    match table {
        "numbers.txt" => numbers::answer(case, call),
        "days.txt" | "business-days.txt" => days::answer(case, call),
        "schedules.txt" | "annuities.txt" => schedules::answer(case, call),
        "json.txt" => json::answer(case, call),
        "names.txt" => names::answer(case, call),
        "references.txt" => references::answer(case, call),
        _ => outside::answer(case, call),
    }
}
