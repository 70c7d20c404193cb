//! What is told of commands beside their texts.
use crate::commands::{files_named, words_of};
use crate::desk::run;
use act_aside::{Named, refusal_message, text_message};
use act_engine::{Halt, Refusal};
use act_explain::{Identity, Message, words_message};
use act_io::{Files, MemFiles, MemSink};
use act_job::read_portfolio;
use act_top::Aside;
use cases_rows::Case;
use std::alloc::Global;
use std::marker::Brand;
use std::sync::Wait;
use std::sync::ledger::Blank;
use std::thread::Threads;

/// What the program was made of, in a test.
const IDENTITY: Identity<'_> = Identity {
    sources: "such sources",
    kit: "such a kit",
};

/// Tells whether what is told of a command has each of the texts below it, a line each; without any, that nothing is told.
pub fn answer<R: Threads + Wait + Sync, F: Files>(rt: &R, case: &mut Case<'_>, files: &mut F) {
    let (line, texts) = case.given.split_once("\n").unwrap_or((case.given, ""));
    let words = words_of(case, line);
    let list = files_named(case, files, line);
    let mut files = MemFiles::new(case.alloc, list, Vec::new(case.alloc));
    let mut out = MemSink::new(case.alloc, Vec::new(case.alloc));
    let ran = run::<Brand, R>(rt, case.alloc, &words, &mut files, &mut out, Blank::new(1));
    let message = message_of(case.alloc, &mut files, &words, &ran.aside);
    drop(ran);
    told(case, &message, texts);
}

/// What is told of a command of these words.
fn message_of(alloc: Global, files: &mut MemFiles, words: &[String], aside: &Aside<'_>) -> Message {
    let named = Named::by_command(words);
    match aside {
        Aside::Nothing => Message::new(alloc),
        Aside::Refused(Refusal::Words) => words_message(alloc, words, IDENTITY),
        Aside::Refused(refusal) => refusal_message(alloc, files, &named, refusal),
        Aside::Written { job, stops } => text_message(alloc, files, &named, job, stops),
    }
}

/// Tells whether a message has each line of some texts, or else the message and the first that it lacks.
fn told(case: &mut Case<'_>, message: &Message, texts: &str) {
    if texts.is_empty() && !message.as_str().is_empty() {
        case.text("told ");
        return case.text(message.as_str());
    }
    for text in texts.lines() {
        if !message.as_str().contains(text) {
            case.text("lacks ");
            case.text(text);
            case.text(" in ");
            return case.text(message.as_str());
        }
    }
    case.text("said");
}

/// Tells trouble where a portfolio that is refused has no explanation that names the number of the refusal.
pub fn refusal_told(case: &mut Case<'_>, mut files: MemFiles, name: &str) {
    let named = Named {
        portfolio: name,
        scripts: &[],
    };
    match read_portfolio(case.alloc, &mut files, name) {
        Ok(portfolio) => drop(portfolio),
        Err(Halt::Refused(refusal)) => {
            let message = refusal_message(case.alloc, &mut files, &named, &refusal);
            if !message.as_str().ends_with(")\n")
                || !message.as_str().contains(" (ERRORS, portfolio ")
            {
                case.fail("no explanation");
            }
        }
        Err(Halt::Stopped(_)) => case.fail("memory ran out"),
    }
}
