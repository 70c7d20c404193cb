//! Words of no form, and files that aren't read.

use crate::message::Message;
use crate::near::{nearest, say_meant};
use std::alloc::Global;

/// What a program was made of: the hash of its sources, and the kit.
#[derive(Clone, Copy)]
pub struct Identity<'a> {
    pub sources: &'a str,
    pub kit: &'a str,
}

/// A command, and what is said where its words are of another form.
#[derive(Clone, Copy)]
struct Command {
    name: &'static str,
    words: &'static str,
}

/// The commands.
const COMMANDS: [Command; 4] = [
    Command {
        name: "eval",
        words: "eval needs a portfolio file, and takes at most one script file; for several scripts there is desk, as in desk 4 P S1 S2",
    },
    Command {
        name: "check",
        words: "check needs a portfolio file, and takes nothing behind it",
    },
    Command {
        name: "desk",
        words: "desk needs the number of workers, a portfolio file and 1 to 16 script files, as in desk 4 P S1 S2; without a script there is eval P",
    },
    Command {
        name: "big",
        words: "big needs a size from 1 to 1,000 and a number of workers from 1 to 64, without a sign or a zero in front, as in big 100 4",
    },
];

/// Each command with its words, examples, and the statuses.
const HELP: &str = "\
actus evaluates ACTUS contracts over observations, and writes what it computes.

  actus check P              reads the portfolio file P, and lists its contracts with the names that they don't use
  actus eval P               evaluates each contract of P, over no observations
  actus eval P S             takes the steps of the script file S: observations, and asks for contracts
  actus desk W P S1 .. Sk    takes the steps of 1 to 16 scripts at once, with W workers, from 1 to 64
  actus big N W              makes a portfolio of the size N, from 1 to 1,000, runs it with W workers, writes totals
  actus --help, --version    tells this, or what the program was made of, on standard error

Examples:
  actus check examples/p1.json
  actus eval examples/floating.json examples/floating.txt
  actus desk 4 examples/floating.json examples/floating.txt examples/late.txt

Statuses: 0 all was written; 2 words of no form, as these; 3 a file wasn't read; 4 a file is too long; 5 the portfolio
was refused; 6 a script was refused; 7 writing failed; 8 all was written, and a contract stops with missing or overflow;
9 memory ran out. docs/ERRORS.md tells how to mend each, docs/START.md how to begin.

";

/// Explains words of no form: what is amiss with them, and what there is; or, where they ask for it, what the program was made of.
pub fn words_message(alloc: Global, words: &[String], identity: Identity<'_>) -> Message {
    let mut message = Message::new(alloc);
    let first = words.first().map_or("", |word| word.as_str());
    if words.len() != 1 || !matches!(first, "--version" | "-V") {
        if !matches!(first, "" | "--help" | "-h" | "help") {
            say_amiss(alloc, &mut message, first, words.get(1..).unwrap_or(&[]));
        }
        message.say(HELP);
    }
    say_identity(&mut message, "actus", identity);
    message
}

/// What an audit has as its words.
const AUDIT_HELP: &str = "\
actus_audit says whether a text that `actus eval` or `actus desk` printed is right.

  actus_audit P TEXT             the portfolio file P, and the file of the text
  actus_audit P TEXT S1 .. Sk    the same, with the script files of 1 to 16 callers in the order of the desk

Statuses: 0 the text is right; 1 it is wrong; 2 words of no form, as these; 3 a file wasn't read; 4 a file is too long;
5 the portfolio was refused; 6 a script was refused; 7 writing failed; 9 memory ran out. docs/AUDITORS.md tells more.

";

/// Explains words of no form of an audit.
pub fn audit_words_message(alloc: Global, words: &[String], identity: Identity<'_>) -> Message {
    let mut message = Message::new(alloc);
    let first = words.first().map_or("", |word| word.as_str());
    if words.len() != 1 || !matches!(first, "--version" | "-V") {
        message.say(AUDIT_HELP);
    }
    say_identity(&mut message, "actus_audit", identity);
    message
}

/// Says what a program was made of.
fn say_identity(message: &mut Message, program: &str, identity: Identity<'_>) {
    message.say_all(&[
        program,
        ": sources ",
        identity.sources,
        ", kit ",
        identity.kit,
        "\n",
    ]);
}

/// Says what is amiss with the words of a command.
fn say_amiss(alloc: Global, message: &mut Message, word: &str, others: &[String]) {
    message.say("actus: ");
    for command in COMMANDS {
        if command.name == word {
            match others.first() {
                Some(first) if word == "desk" && !is_worker_count(first.as_bytes()) => {
                    message.say(
                        "desk needs the number of workers first, from 1 to 64 without a sign or a zero in front, and \"",
                    );
                    message.show(first.as_bytes());
                    message.say("\" stands there");
                }
                _ => message.say(command.words),
            }
            return message.say("\n\n");
        }
    }
    message.say("\"");
    message.show(word.as_bytes());
    message.say("\" is no command");
    match near_command(alloc, word) {
        Some(near) => say_meant(message, Some(near)),
        None => {
            message.say("; a file is evaluated by `actus eval ");
            message.show(word.as_bytes());
            message.say("`");
        }
    }
    message.say("\n\n");
}

/// Whether a word is a number of workers.
fn is_worker_count(word: &[u8]) -> bool {
    matches!(
        word,
        [b'1'..=b'9'] | [b'1'..=b'5', b'0'..=b'9'] | [b'6', b'0'..=b'4']
    )
}

/// The command that a word is like, if it is like one.
fn near_command(alloc: Global, word: &str) -> Option<&'static str> {
    for command in COMMANDS {
        if word.starts_with(command.name) {
            return Some(command.name);
        }
    }
    nearest(alloc, word.as_bytes(), &["eval", "check", "desk", "big"])
}

/// Explains why a file wasn't read.
pub fn explain_unread(message: &mut Message, name: &str, cause: &str) {
    message.show(name.as_bytes());
    message.say_all(&[": ", cause]);
    if name.starts_with("-") {
        message.say("; commands have no options");
    }
    message.say(" (ERRORS, status 3)\n");
}

/// Explains why a file is too long.
pub fn explain_length(message: &mut Message, name: &str) {
    message.show(name.as_bytes());
    message.say(": the file has more than 67,108,864 bytes: split it (ERRORS, status 4)\n");
}
