//! Calls of scripts.
use crate::kept::portfolio;
use act_engine::ScriptRule;
use act_explain::{File, Message, explain_line};
use act_io::Files;
use act_model::{Line, MOST_BYTES, MOST_ENTRIES, Names, Obs, Step, Terms};
use act_script::{ScriptFault, read_script};
use cases_rows::{Case, number_of, step_told};
use std::alloc::Global;

/// The file of the contracts that scripts are about.
const CONTRACTS: &str = "scripts/contracts.json";

/// Their names: a PAM, a LAM, a STK, and OPTNS of exercise E, A and B, by their numbers.
const IDS: [&str; 6] = ["P1", "L1", "S1", "E1", "A1", "B1"];

/// Tells what a call answers.
pub fn answer<F: Files>(case: &mut Case<'_>, files: &mut F, call: &str) {
    let bytes = case.file(files, CONTRACTS);
    match portfolio(case.alloc, &bytes) {
        Some(portfolio) => over(case, portfolio.terms(), &bytes, call),
        None => case.fail("the portfolio is refused"),
    }
}

/// Tells what scripts over contracts of these kinds, which stand in a file of these bytes, say.
fn over(case: &mut Case<'_>, kinds: &[Terms], contracts: &[u8], call: &str) {
    let mut names = Names::new(case.alloc);
    for id in &IDS {
        if number_of(&mut names, "contract", id).is_none() {
            case.fail("memory ran out");
        }
    }
    let (mut entries, given) = match call {
        "script_behind" => (
            case.place(),
            case.given.split_once(' ').unwrap_or(("", "")).1,
        ),
        _ => (0, case.given),
    };
    for script in given.lines() {
        let bytes = case.bytes_of(script);
        match read(case.alloc, &bytes, &mut names, kinds, &mut entries) {
            Ok(lines) if call == "codes" => codes_told(case, &lines),
            Ok(lines) => lines_told(case, &names, &lines),
            Err(fault) => {
                case.value(fault);
                explanation_told(case, &bytes, contracts, fault);
            }
        }
    }
    match call {
        "script" => {}
        "script_behind" => entries_told(case, entries),
        "codes" => names_told(case, &names),
        _ => case.fail("no such call"),
    }
}

/// Tells trouble where a refusal of a script has no explanation that names its number.
fn explanation_told(case: &mut Case<'_>, script: &[u8], contracts: &[u8], fault: ScriptFault) {
    let (line, rule) = match fault {
        ScriptFault::NotLine(line) => (line, ScriptRule::NotLine),
        ScriptFault::UnknownName(line) => (line, ScriptRule::UnknownName),
        ScriptFault::EventUnfit(line) => (line, ScriptRule::EventUnfit),
        ScriptFault::TooManyEntries(line) => (line, ScriptRule::TooManyEntries),
        ScriptFault::NoMemory => return,
    };
    let mut message = Message::new(case.alloc);
    let file = File {
        name: "s.txt",
        bytes: script,
    };
    let portfolio = File {
        name: CONTRACTS,
        bytes: contracts,
    };
    explain_line(case.alloc, &mut message, file, line, rule, portfolio);
    if !message.as_str().starts_with("s.txt:") || !message.as_str().contains(" (ERRORS, script ") {
        case.fail("no explanation");
    }
}

/// The steps of a script, or its refusal.
pub fn read(
    alloc: Global,
    bytes: &[u8],
    names: &mut Names,
    kinds: &[Terms],
    entries: &mut u64,
) -> Result<Vec<Line>, ScriptFault> {
    if bytes.len() as u64 > MOST_BYTES || *entries > MOST_ENTRIES {
        return Err(ScriptFault::NoMemory);
    }
    read_script(alloc, bytes, names, kinds, entries)
}

/// Tells the numbers of lines and their steps.
fn lines_told(case: &mut Case<'_>, names: &Names, lines: &[Line]) {
    for line in lines {
        case.next("; ");
        case.value(line.line);
        case.text(" ");
        step_told(case, names, line.step);
    }
    if lines.is_empty() {
        case.text("nothing");
    }
}

fn entries_told(case: &mut Case<'_>, entries: u64) {
    case.text(", ");
    case.value(entries);
    case.text(" entries");
}

/// Tells the numbers of the codes of rates.
fn codes_told(case: &mut Case<'_>, lines: &[Line]) {
    for line in lines {
        if let Step::Append(Obs::Rate { code, .. }) = line.step {
            case.next(" ");
            case.value(code);
        }
    }
}

/// Tells the first codes by number.
fn names_told(case: &mut Case<'_>, names: &Names) {
    for number in 0..4 {
        case.next(" ");
        case.text(names.code(number).unwrap_or("-"));
    }
}
