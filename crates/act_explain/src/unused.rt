//! Names of a portfolio that its contracts don't use.

use crate::contracts::File;
use crate::dictionary::{has_no_effect, here_of};
use crate::message::Message;
use crate::near::say_meant;
use crate::place::say_place;
use crate::wanted::{is_term, nearest_term};
use std::alloc::Global;

/// The most names that are told.
const MOST_TOLD: usize = 10;

/// A name that a contract doesn't use.
#[derive(Clone, Copy)]
pub struct UnusedName<'a> {
    pub name: &'a str,
    /// The contract, and its type.
    pub contract: &'a str,
    pub contract_type: &'a str,
    /// Where in the file it stands, if that is known.
    pub place: Option<usize>,
}

/// The first of some contracts that don't use a name, and how many more there are.
#[derive(Clone, Copy)]
struct FirstUnused<'a> {
    first: UnusedName<'a>,
    more: u64,
}

/// Names that contracts have and don't use, each once, as far as they are told.
#[derive(Drop)]
pub struct Unused<'a> {
    names: Vec<FirstUnused<'a>>,
    /// How many more there are, by contract.
    more: u64,
}

impl<'a> Unused<'a> {
    /// None yet.
    pub fn new(alloc: Global) -> Unused<'a> {
        Unused {
            names: Vec::new(alloc),
            more: 0,
        }
    }

    /// Adds a name. Those of the dictionary that change no cash flow are passed over.
    pub fn add(&mut self, name: UnusedName<'a>) {
        if has_no_effect(name.name) {
            return;
        }
        for known in &mut self.names {
            if known.first.name == name.name {
                known.more = known.more.saturating_add(1);
                return;
            }
        }
        let first = FirstUnused {
            first: name,
            more: 0,
        };
        if self.names.len() >= MOST_TOLD || self.names.push(first).is_err() {
            self.more = self.more.saturating_add(1);
        }
    }

    /// Explains each name that is told, of a file.
    pub fn explain(&self, alloc: Global, message: &mut Message, file: File<'_>) {
        for name in &self.names {
            say_unused(alloc, message, file, name);
        }
        if self.more > 0 {
            message.show(file.name.as_bytes());
            message.say(": ");
            message.number(self.more);
            message.say(" more names aren't used; `actus check ");
            message.show(file.name.as_bytes());
            message.say("` shows all\n");
        }
    }
}

/// Says which name isn't used, and by which contracts.
fn say_unused(alloc: Global, message: &mut Message, file: File<'_>, name: &FirstUnused<'_>) {
    match name.first.place {
        Some(place) => say_place(message, file, place),
        None => {
            message.show(file.name.as_bytes());
            message.say(": ");
        }
    }
    message.say("contract '");
    message.show(name.first.contract.as_bytes());
    message.say("'");
    if name.more > 0 {
        message.say(" and ");
        message.number(name.more);
        message.say(" more");
    }
    message.say(": \"");
    message.show(name.first.name.as_bytes());
    message.say("\" isn't used");
    say_use(alloc, message, &name.first);
    message.say("\n");
}

/// Says why a name isn't used, or which one may have been meant.
fn say_use(alloc: Global, message: &mut Message, name: &UnusedName<'_>) {
    if let Some(here) = here_of(name.name) {
        message.say_all(&[
            ", and by the standard it changes cash flows: here ",
            here,
            " (TERMS)",
        ]);
    } else if is_term(name.name) {
        message.say_all(&[": it is no term of a ", name.contract_type]);
    } else {
        say_meant(message, nearest_term(alloc, name.name.as_bytes()));
    }
}
