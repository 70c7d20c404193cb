//! What is told of a text that was written whole: names that aren't used, and blocks that stop.

use crate::again::Again;
use crate::named::Named;
use act_explain::{
    File, FirstStop, Message, Unused, UnusedName, Walk, explain_missing, explain_overflow,
};
use act_job::Job;
use act_model::{Close, Names};
use act_portfolio::Portfolio;
use act_text::type_word;
use act_transcript::{Stopped, Stops};
use std::alloc::Global;
use std::str;

/// Which names of the portfolio aren't used by its contracts, and which blocks of the text stop, of a command that names these files.
/// The portfolio is read a second time where a name isn't used.
pub fn text_message<A: Again>(
    alloc: Global,
    files: &mut A,
    named: &Named<'_>,
    job: &Job,
    stops: &Stops,
) -> Message {
    let mut message = Message::new(alloc);
    let names = &job.scripts.names;
    if has_unused(&job.portfolio) {
        let bytes = files
            .again(alloc, named.portfolio)
            .unwrap_or(Vec::new(alloc));
        let file = File {
            name: named.portfolio,
            bytes: &bytes,
        };
        explain_unused(alloc, &mut message, file, &job.portfolio, names);
    }
    explain_stop(&mut message, named, names, &stops.missing);
    explain_stop(&mut message, named, names, &stops.overflow);
    message
}

/// Whether a contract has a name that it doesn't use.
fn has_unused(portfolio: &Portfolio) -> bool {
    for contract in 0..portfolio.named() {
        if !portfolio.unused(contract).is_empty() {
            return true;
        }
    }
    false
}

/// Explains which names of a portfolio aren't used. Those whose values aren't given are passed over, where the file is there.
fn explain_unused<'x>(
    alloc: Global,
    message: &mut Message,
    file: File<'_>,
    portfolio: &'x Portfolio,
    names: &'x Names,
) {
    let mut unused = Unused::new(alloc);
    let mut walk = Walk::new(alloc, file.bytes);
    for number in 0..portfolio.named() {
        let kind = &portfolio.terms()[number as usize].kind;
        let contract = walk.step();
        for name in portfolio.unused(number) {
            let name = name.as_str();
            let (place, lacks) = match &contract {
                Some(contract) => (
                    contract.place_of(file.bytes, name),
                    contract.lacks(file.bytes, name),
                ),
                None => (None, false),
            };
            if !lacks {
                unused.add(UnusedName {
                    name,
                    contract: names.id(number).unwrap_or(""),
                    contract_type: kind.contract_type().name(),
                    place,
                });
            }
        }
    }
    unused.explain(alloc, message, file);
}

/// Explains the first block that stops in one way.
fn explain_stop(message: &mut Message, named: &Named<'_>, names: &Names, stopped: &Stopped) {
    // where it is mended: in the script, if there is one
    let file = match named.scripts {
        [one] => one.as_str(),
        _ => named.portfolio,
    };
    let Some((contract, close)) = stopped.first else {
        return;
    };
    let contract = names.id(contract).unwrap_or("");
    let more = stopped.more;
    match close {
        Close::End => {}
        Close::Missing { code, day } => {
            let stop = FirstStop {
                file,
                contract,
                day,
                more,
            };
            let has_script = !named.scripts.is_empty();
            explain_missing(message, &stop, names.code(code).unwrap_or(""), has_script);
        }
        Close::Overflow { day, kind } => {
            let stop = FirstStop {
                file,
                contract,
                day,
                more,
            };
            explain_overflow(
                message,
                &stop,
                str::from_utf8(type_word(kind)).unwrap_or(""),
            );
        }
    }
}
