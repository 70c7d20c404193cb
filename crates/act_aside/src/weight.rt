//! What the ask weighs up to which asks weigh too much.

use crate::again::Again;
use crate::named::Named;
use act_explain::{AskWeight, File, Message, explain_weight};
use act_io::MemFiles;
use act_job::{Scripts, read_portfolio, read_scripts};
use act_model::{Asked, Line, MOST_CALLERS, Obs, Step};
use act_portfolio::Portfolio;
use act_script::MOST_WEIGHT;
use std::alloc::Global;

/// Explains why the ask of a script's line weighs too much, by the number of the script and of the line: the files are read again.
pub(crate) fn explain_ask<A: Again>(
    alloc: Global,
    message: &mut Message,
    files: &mut A,
    named: &Named<'_>,
    place: (u32, u32),
) {
    let mut copies = copies(alloc, files, named);
    let Ok(portfolio) = read_portfolio(alloc, &mut copies, named.portfolio) else {
        return;
    };
    let Some(scripts) = scripts_of(alloc, &mut copies, &portfolio, named) else {
        return;
    };
    let weight = ask_weight(&portfolio, &scripts, place);
    if named.scripts.is_empty() {
        return explain_weight(message, None, weight, MOST_WEIGHT);
    }
    let name = named.script(place.0);
    let bytes = files.again(alloc, name).unwrap_or(Vec::new(alloc));
    let file = File {
        name,
        bytes: &bytes,
    };
    explain_weight(message, Some((file, place.1)), weight, MOST_WEIGHT);
}

/// The scripts of a command, or the one that asks for all where it names none.
fn scripts_of(
    alloc: Global,
    files: &mut MemFiles,
    portfolio: &Portfolio,
    named: &Named<'_>,
) -> Option<Scripts> {
    if named.scripts.is_empty() {
        Scripts::ask_for_all(alloc, portfolio).ok()
    } else if named.scripts.len() <= MOST_CALLERS {
        read_scripts(alloc, files, portfolio, named.scripts).ok()
    } else {
        None
    }
}

/// The files of a command in memory, as far as they can be read again.
fn copies<A: Again>(alloc: Global, files: &mut A, named: &Named<'_>) -> MemFiles {
    let mut list = Vec::new(alloc);
    add_copy(alloc, files, named.portfolio, &mut list);
    for name in named.scripts {
        add_copy(alloc, files, name.as_str(), &mut list);
    }
    MemFiles::new(alloc, list, Vec::new(alloc))
}

/// Adds the copy of a file, if it can be read again.
fn add_copy<A: Again>(alloc: Global, files: &mut A, name: &str, list: &mut Vec<(String, Vec<u8>)>) {
    let Some(bytes) = files.again(alloc, name) else {
        return;
    };
    match String::from_str(alloc, name) {
        Ok(name) => {
            let _ = list.push((name, bytes));
        }
        Err(_) => drop(bytes),
    }
}

/// What the ask of a line of a script weighs, and those before it.
fn ask_weight(portfolio: &Portfolio, scripts: &Scripts, place: (u32, u32)) -> AskWeight {
    let mut weight = AskWeight {
        before: 0,
        contracts: 0,
        events: 0,
        event_lines: event_lines(&scripts.lists),
    };
    for (number, lines) in scripts.lists.iter().enumerate() {
        for step in lines {
            if let Step::Ask(asked) = step.step {
                weight.contracts = contracts_of(portfolio, asked);
                weight.events = events_of(portfolio, asked);
                if number.saturating_add(1) == place.0 as usize && step.line == place.1 {
                    return weight;
                }
                weight.before = weight.before.saturating_add(weight.sum());
            }
        }
    }
    weight
}

/// How many lines of scripts have an event.
fn event_lines(lists: &[Vec<Line>]) -> u64 {
    let mut count = 0_u64;
    for lines in lists {
        for line in lines {
            if matches!(line.step, Step::Append(Obs::Event { .. })) {
                count = count.saturating_add(1);
            }
        }
    }
    count
}

/// How many contracts are asked for.
fn contracts_of(portfolio: &Portfolio, asked: Asked) -> u64 {
    match asked {
        Asked::All => u64::from(portfolio.named()),
        Asked::One(_) => 1,
    }
}

/// The scheduled events of what is asked for and of what that refers to, and one for each contract.
fn events_of(portfolio: &Portfolio, asked: Asked) -> u64 {
    match asked {
        Asked::One(contract) => cone_events(portfolio, contract),
        Asked::All => {
            let mut events = 0_u64;
            for contract in 0..portfolio.named() {
                events = events.saturating_add(cone_events(portfolio, contract));
            }
            events
        }
    }
}

/// Those of one contract.
fn cone_events(portfolio: &Portfolio, contract: u32) -> u64 {
    if (contract as usize) < portfolio.terms().len() {
        portfolio.weight(contract)
    } else {
        0
    }
}
