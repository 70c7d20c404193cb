//! The contracts of a portfolio file, where they stand.

use crate::message::Message;
use crate::scan::{
    Member, Span, byte_at, items, member_named, member_of, members, said, value_from,
};
use std::alloc::Global;

/// The types of contracts that have a structure.
const WITH_STRUCTURE: [&str; 6] = ["SWAPS", "CAPFL", "OPTNS", "FUTUR", "CEG", "CEC"];

/// A portfolio file: its name and its bytes.
#[derive(Clone, Copy)]
pub struct File<'a> {
    pub name: &'a str,
    pub bytes: &'a [u8],
}

/// A contract of a file: where it stands, and its members.
#[derive(Drop)]
pub struct Contract {
    /// Its place in the file, from 1.
    pub(crate) place: u32,
    pub(crate) span: Span,
    pub(crate) members: Vec<Member>,
}

impl Contract {
    /// The place of the last member of that name.
    pub fn place_of(&self, text: &[u8], name: &str) -> Option<usize> {
        let member = self.member(text, name)?;
        Some(member.name.start.saturating_sub(1))
    }

    /// Whether the last member of that name is there, and its value isn't given.
    pub fn lacks(&self, text: &[u8], name: &str) -> bool {
        match self.member(text, name) {
            Some(member) => matches!(member.value.of(text), b"null" | b"\"\""),
            None => false,
        }
    }

    /// The last member of that name.
    pub(crate) fn member(&self, text: &[u8], name: &str) -> Option<Member> {
        member_named(text, &self.members, name)
    }

    /// What the member of that name says, or nothing.
    pub(crate) fn said<'a>(&self, text: &'a [u8], name: &str) -> &'a [u8] {
        match self.member(text, name) {
            Some(member) => said(text, member.value),
            None => &[],
        }
    }

    /// How many members have a name.
    pub(crate) fn count(&self, text: &[u8], name: &str) -> usize {
        self.members
            .iter()
            .filter(|member| member.name.of(text) == name.as_bytes())
            .count()
    }

    /// Says which contract it is by its place.
    pub(crate) fn say_place(&self, message: &mut Message) {
        message.say("contract ");
        message.plain_number(u64::from(self.place));
        message.say(" of the file");
    }

    /// Says which contract it is: by its name, or by its place where it has none.
    pub(crate) fn say(&self, message: &mut Message, text: &[u8]) {
        let id = self.said(text, "contractID");
        if id.is_empty() {
            self.say_place(message);
        } else {
            message.say("contract '");
            message.show(id);
            message.say("'");
        }
    }
}

/// The contracts of a file, one after the other in portfolio order: behind each come those that stand in its structure.
#[derive(Drop)]
pub struct Walk<'a> {
    alloc: Global,
    text: &'a [u8],
    /// Those that are still to come, as far as they are known, the next one last.
    waiting: Vec<Span>,
    /// How many have come.
    passed: u32,
}

impl<'a> Walk<'a> {
    /// Before the first contract of a file.
    pub fn new(alloc: Global, text: &'a [u8]) -> Walk<'a> {
        let mut waiting = items(alloc, text, value_from(text, 0));
        waiting.reverse();
        Walk {
            alloc,
            text,
            waiting,
            passed: 0,
        }
    }

    /// The next contract, if there is one.
    pub fn step(&mut self) -> Option<Contract> {
        let span = self.waiting.pop()?;
        self.passed = self.passed.saturating_add(1);
        let contract = Contract {
            place: self.passed,
            span,
            members: members(self.alloc, self.text, span),
        };
        wait_for_inner(self.alloc, self.text, &contract, &mut self.waiting);
        Some(contract)
    }
}

/// The contract at a place in portfolio order, from 1.
pub(crate) fn contract_at(alloc: Global, text: &[u8], wanted: u32) -> Option<Contract> {
    let mut walk = Walk::new(alloc, text);
    for place in 1..=wanted {
        let contract = walk.step()?;
        if place == wanted {
            return Some(contract);
        }
    }
    None
}

/// The first contract of that name, if it stands before a place.
pub(crate) fn contract_named(
    alloc: Global,
    text: &[u8],
    name: &[u8],
    before: u32,
) -> Option<Contract> {
    let mut walk = Walk::new(alloc, text);
    for _ in 1..before {
        let contract = walk.step()?;
        if contract.said(text, "contractID") == name {
            return Some(contract);
        }
    }
    None
}

/// Adds the contracts that stand in the structure of a contract to those that wait, the first one last.
fn wait_for_inner(alloc: Global, text: &[u8], contract: &Contract, waiting: &mut Vec<Span>) {
    for element in elements(alloc, text, contract).iter().rev() {
        if let Some(inner) = inner_contract(alloc, text, *element) {
            if waiting.push(inner).is_err() {
                return;
            }
        }
    }
}

/// The elements of a contract's structure.
pub(crate) fn elements(alloc: Global, text: &[u8], contract: &Contract) -> Vec<Span> {
    match contract.member(text, "contractStructure") {
        Some(member) if has_structure(contract.said(text, "contractType")) => {
            items(alloc, text, member.value)
        }
        _ => Vec::new(alloc),
    }
}

/// Whether contracts of a type have a structure.
pub(crate) fn has_structure(contract_type: &[u8]) -> bool {
    WITH_STRUCTURE
        .iter()
        .any(|name| name.as_bytes() == contract_type)
}

/// The contract that stands in an element of a structure.
fn inner_contract(alloc: Global, text: &[u8], element: Span) -> Option<Span> {
    let reference_type = member_of(alloc, text, element, "referenceType")?;
    let object = member_of(alloc, text, element, "object")?;
    let is_inner = said(text, reference_type.value) == b"CNT".as_slice()
        && byte_at(text, object.value.start) == b'{';
    is_inner.then_some(object.value)
}
