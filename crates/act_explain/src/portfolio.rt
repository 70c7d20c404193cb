//! Portfolios that are refused.

use crate::contracts::{Contract, File, Walk, contract_at, contract_named};
use crate::grammar::first_fault;
use crate::message::Message;
use crate::near::nearest;
use crate::place::{say_line_column, say_place};
use crate::scan::{Member, byte_at, members, said, skip_spaces, value_from};
use crate::structure::{say_misfit, say_structure, say_unknown};
use crate::syntax::say_syntax;
use crate::wanted::{Form, form_of, has_form, is_term, say_added, say_wanted, say_why};
use act_model::is_name;
use std::alloc::Global;
use std::str;

/// A refusal of a portfolio: its number, the contract's place from 1, or 0, and what is refused.
#[derive(Clone, Copy)]
pub struct PortfolioRefusal<'a> {
    pub number: u8,
    pub place: u32,
    pub what: &'a [u8],
}

/// Explains why a portfolio is refused. Nothing is said of a file that can't be read a second time.
pub fn explain_portfolio(
    alloc: Global,
    message: &mut Message,
    file: File<'_>,
    refusal: PortfolioRefusal<'_>,
) {
    match refusal.number {
        10 => say_no_json(alloc, message, file),
        11 if refusal.place == 0 => say_no_list(alloc, message, file),
        _ => say_contract(alloc, message, file, refusal),
    }
    message.say(" (ERRORS, portfolio ");
    message.number(u64::from(refusal.number));
    message.say(")\n");
}

/// Says why a file is no JSON.
fn say_no_json(alloc: Global, message: &mut Message, file: File<'_>) {
    let start = skip_spaces(file.bytes, 0);
    let behind = object_behind(file.bytes, start);
    if start >= file.bytes.len() {
        say_place(message, file, 0);
        message.say_all(&["the file is empty, and a portfolio is ", PORTFOLIO]);
    } else if is_script(alloc, file.bytes, start) {
        say_script(message, file, start);
    } else if let Some(place) = behind {
        say_place(message, file, place);
        message.say(
            "a second object begins here: a portfolio is one list, with [ before the first contract, commas between, and ] behind the last",
        );
    } else if let Some(words) = other_format(file.bytes, start) {
        say_place(message, file, start);
        message.say_all(&[words, "; a portfolio is ", PORTFOLIO]);
    } else {
        match first_fault(alloc, file.bytes) {
            Some(fault) => say_syntax(message, file, fault),
            None => message.say_all(&[file.name, ": this is no JSON"]),
        }
    }
}

/// What a portfolio is.
const PORTFOLIO: &str =
    "a JSON list of contracts, as [{\"contractID\": \"P1\", \"contractType\": \"PAM\", ..}]";

/// Whether a file is a script: it begins with an object that has one of the names of its lines.
fn is_script(alloc: Global, text: &[u8], start: usize) -> bool {
    let first = value_from(text, start);
    members(alloc, text, first).first().is_some_and(|member| matches!(
        member.name.of(text),
        b"rate" | b"event" | b"ask"
    ))
}

/// Says that a script stands in the portfolio's place.
fn say_script(message: &mut Message, file: File<'_>, start: usize) {
    say_place(message, file, start);
    message.say(
        "this is a script, and no portfolio: the portfolio comes first, as in `actus eval PORTFOLIO SCRIPT`",
    );
}

/// The place of a second object, where a text begins with two one behind the other.
fn object_behind(text: &[u8], start: usize) -> Option<usize> {
    let behind = skip_spaces(text, closed_object(text, start));
    let is_second = byte_at(text, start) == b'{' && byte_at(text, behind) == b'{';
    is_second.then_some(behind)
}

/// The place behind the object that begins at a place, or the end.
fn closed_object(text: &[u8], start: usize) -> usize {
    let mut depth = 0_usize;
    let mut in_text = false;
    let mut is_escaped = false;
    for place in start..text.len() {
        match text[place] {
            _ if is_escaped => is_escaped = false,
            b'\\' => is_escaped = in_text,
            b'"' => in_text = !in_text,
            b'{' if !in_text => depth = depth.saturating_add(1),
            b'}' if !in_text => {
                depth = depth.saturating_sub(1);
                if depth == 0 {
                    return place.saturating_add(1);
                }
            }
            _ => {}
        }
    }
    text.len()
}

/// What is said of a file that begins as those of another format do.
fn other_format(text: &[u8], start: usize) -> Option<&'static str> {
    match text.get(start..).unwrap_or(&[]) {
        [b'<', ..] => Some("this is XML or HTML, and no JSON"),
        [b'-', b'-', b'-', ..] | [b'-', b' ', ..] => Some("this looks like YAML, and is no JSON"),
        [b'P', b'K', 3, 4, ..] => Some("this is a spreadsheet or an archive, and no JSON"),
        [b'a'..=b'z' | b'A'..=b'Z', rest @ ..] => Some(if is_table(rest) {
            "this looks like CSV, and is no JSON"
        } else {
            "this is no JSON"
        }),
        _ => None,
    }
}

/// Whether the first line of a text has fields with commas, semicolons or tabs between them.
fn is_table(text: &[u8]) -> bool {
    let mut fields = 0_u64;
    for byte in text {
        match byte {
            b'\n' => break,
            b',' | b';' | b'\t' => fields = fields.saturating_add(1),
            b'"' | b'{' | b'[' => return false,
            _ => {}
        }
    }
    fields >= 2
}

/// Says why a file is no list.
fn say_no_list(alloc: Global, message: &mut Message, file: File<'_>) {
    let start = skip_spaces(file.bytes, 0);
    if is_script(alloc, file.bytes, start) {
        return say_script(message, file, start);
    }
    say_place(message, file, start);
    let members = members(alloc, file.bytes, value_from(file.bytes, start));
    for member in &members {
        let name = member.name.of(file.bytes);
        let is_list = byte_at(file.bytes, member.value.start) == b'[';
        if is_list && name != b"contractStructure".as_slice() {
            message.say("the file is an object, with a list under \"");
            message.show(name);
            return message.say(
                "\": a portfolio is that list alone, so take away what stands around it",
            );
        }
    }
    if byte_at(file.bytes, start) == b'{' {
        message.say(
            "the file is one object, and a portfolio is a list: put [ before it and ] behind it, also around a single contract",
        );
    } else {
        let value = value_from(file.bytes, start).of(file.bytes);
        if matches!(value, [b'"', ..]) {
            message.say(
                "the file is one text in double quotes, and a portfolio is a JSON list: take the outer quotes and each backslash before a quote away",
            );
        } else {
            say_value(message, value);
            message.say_all(&[" stands here, and a portfolio is ", PORTFOLIO]);
        }
    }
}

/// Says why a contract is refused.
fn say_contract(
    alloc: Global,
    message: &mut Message,
    file: File<'_>,
    refusal: PortfolioRefusal<'_>,
) {
    let Some(contract) = contract_at(alloc, file.bytes, refusal.place) else {
        return say_unplaced(message, file, refusal);
    };
    let term = str::from_utf8(refusal.what).unwrap_or("-");
    match refusal.number {
        11 if term == "-" => say_no_object(message, file, &contract),
        11 | 13 | 14 if term == "contractStructure" => {
            say_structure(alloc, message, file, &contract, refusal.number);
        }
        12 => say_missing(alloc, message, file, &contract, term),
        11 | 13 | 14 | 15 => say_term(alloc, message, file, &contract, term),
        16 => {
            say_place(message, file, contract.span.start);
            contract.say(message, file.bytes);
            message.say(
                " is one too many: a file has at most 4,096 contracts, of which a CAPFL counts as two; split the file",
            );
        }
        17 => say_repeated(alloc, message, file, &contract),
        18 => {
            say_dates(
                message,
                file,
                &contract,
                " has more than 4,096 scheduled events or redemptions",
            );
            message.say("; a longer cycle is wanted, an earlier maturityDate or a greater payment");
        }
        19 => {
            say_dates(
                message,
                file,
                &contract,
                " has a date outside 1900-01-01 to 2299-12-31, or matures before it begins",
            );
            message.say(
                "; a cycle without an anchor begins a cycle after initialExchangeDate, and days are shifted to business days",
            );
        }
        20 => say_misfit(alloc, message, file, &contract),
        21 => say_unknown(alloc, message, file, &contract, refusal.what),
        22 => say_circle(message, file, &contract, refusal.what),
        _ => {
            say_place(message, file, contract.span.start);
            contract.say(message, file.bytes);
            message.say(
                " is the first of a chain of more than 16 contracts, each of which refers to the next: let one of them refer directly to the contract at the chain's end",
            );
        }
    }
}

/// Says which contracts refer to one another.
fn say_circle(message: &mut Message, file: File<'_>, contract: &Contract, names: &[u8]) {
    say_place(message, file, contract.span.start);
    if names.contains(&b' ') {
        message.say("contracts refer to one another in a circle, ");
        message.show(names);
        message.say(" and the first again: take one reference away");
    } else {
        contract.say(message, file.bytes);
        message.say(" refers to itself: take the reference away, or name another contract");
    }
}

/// Says what is known of a refusal whose contract isn't found.
fn say_unplaced(message: &mut Message, file: File<'_>, refusal: PortfolioRefusal<'_>) {
    message.say_all(&[file.name, ": contract "]);
    message.number(u64::from(refusal.place));
    message.say(" of the file, ");
    message.show(refusal.what);
    let term = str::from_utf8(refusal.what).unwrap_or("-");
    if is_term(term) {
        message.say(": ");
        say_wanted(message, form_of(term));
    }
}

/// Says that something else stands in a contract's place.
fn say_no_object(message: &mut Message, file: File<'_>, contract: &Contract) {
    say_place(message, file, contract.span.start);
    contract.say_place(message);
    message.say(" is ");
    let value = contract.span.of(file.bytes);
    say_value(message, value);
    message.say(if matches!(value, [b'[', ..]) {
        ", a list, and a contract is an object in { }: take one [ and one ] away"
    } else {
        "; a contract is an object with its terms, as {\"contractID\": \"P1\", ..}"
    });
}

/// Says a value as it stands in the file.
pub(crate) fn say_value(message: &mut Message, value: &[u8]) {
    message.show(value);
}

/// Says of which sort a value is that is no text and no number.
pub(crate) fn say_sort(message: &mut Message, value: &[u8]) {
    message.say(match value {
        [b'[', ..] => " is a list",
        [b'{', ..] => " is an object",
        _ => " is no text and no number",
    });
}

/// Whether a value is a text or a number.
pub(crate) fn is_text(value: &[u8]) -> bool {
    !matches!(value, [b'[' | b'{', ..] | b"true" | b"false" | b"null")
}

/// Says why a term that is given is refused.
fn say_term(alloc: Global, message: &mut Message, file: File<'_>, contract: &Contract, term: &str) {
    let form = form_of(term);
    let Some(member) = contract.member(file.bytes, term) else {
        return say_bare_term(message, file, contract, term, form);
    };
    say_place(message, file, member.value.start);
    say_of(message, file, contract, term);
    let value = member.value.of(file.bytes);
    say_value(message, value);
    let text = said(file.bytes, member.value);
    if !is_text(value) {
        say_sort(message, value);
        message.say("; ");
        say_wanted(message, form);
    } else if has_form(form, text) {
        say_bound(message, file, contract, term);
    } else {
        say_why(alloc, message, form, text);
    }
    if contract.count(file.bytes, term) > 1 {
        message.say("; the term is given twice, and its last value counts");
    }
}

/// Says of a term that isn't found under its plain name what is wanted.
fn say_bare_term(
    message: &mut Message,
    file: File<'_>,
    contract: &Contract,
    term: &str,
    form: Form,
) {
    say_place(message, file, contract.span.start);
    say_of(message, file, contract, term);
    say_wanted(message, form);
}

/// Says of which contract and term something is. Whose name is refused is told by its place.
fn say_of(message: &mut Message, file: File<'_>, contract: &Contract, term: &str) {
    if term == "contractID" {
        contract.say_place(message);
    } else {
        contract.say(message, file.bytes);
    }
    message.say_all(&[", ", term, ": "]);
}

/// Says which bound a term breaks that has its form.
fn say_bound(message: &mut Message, file: File<'_>, contract: &Contract, term: &str) {
    match term {
        "maturityDate" => {
            message.say(" isn't after initialExchangeDate, ");
            if let Some(member) = contract.member(file.bytes, "initialExchangeDate") {
                message.show(member.value.of(file.bytes));
                message.say(" at ");
                say_line_column(message, file, member.value.start);
            }
        }
        "notionalPrincipal" | "notionalPrincipal2" => {
            message.say(
                " is below 0: amounts have no sign, and contractRole tells the side (RPA lends, RPL borrows)",
            );
        }
        "scalingIndexAtContractDealDate" => message.say(" isn't above 0"),
        "nextPrincipalRedemptionPayment" => {
            message.say(
                " isn't above 0: a LAM without maturityDate matures when its payments have paid the notional back",
            );
        }
        _ => message.say(" breaks a bound of this term"),
    }
}

/// Says which term isn't given, and what stands in its place.
fn say_missing(
    alloc: Global,
    message: &mut Message,
    file: File<'_>,
    contract: &Contract,
    term: &str,
) {
    if let Some(member) = contract.member(file.bytes, term) {
        say_place(message, file, member.value.start);
        say_of(message, file, contract, term);
        message.show(member.value.of(file.bytes));
        message.say_all(&[" counts as not given, so that there is no ", term]);
        say_need(message, file, contract, term);
        message.say(": in place of it ");
        return say_added(message, "write", term);
    } else if let Some(near) = near_member(alloc, file, contract, term) {
        say_place(message, file, near.name.start.saturating_sub(1));
        contract.say(message, file.bytes);
        message.say_all(&[" has no ", term, ", and \""]);
        message.show(near.name.of(file.bytes));
        return message.say_all(&["\" stands here: did you mean \"", term, "\"?"]);
    } else {
        say_place(message, file, contract.span.start);
        contract.say(message, file.bytes);
        message.say_all(&[" has no ", term]);
    }
    say_need(message, file, contract, term);
    message.say(": ");
    say_added(message, "add", term);
}

/// Says why a contract needs a term.
fn say_need(message: &mut Message, file: File<'_>, contract: &Contract, term: &str) {
    let words = match term {
        "feeBasis" => ", which it needs, as it has a feeRate",
        "marketObjectCodeOfRateReset" => {
            ", which it needs, as it has a cycle or an anchor of resets, or penaltyType I"
        }
        "marketObjectCodeOfScalingIndex" | "scalingIndexAtContractDealDate" => {
            ", which it needs, as its scalingEffect scales payments"
        }
        "cycleOfPrincipalRedemption" => { ", the time between redemptions" }
        "lifeCap" => " and no lifeFloor, and a CAPFL needs one of them",
        "optionStrike2" => ", which it needs, as its optionType is CP",
        "contractID" | "contractType" | "contractRole" | "statusDate" | "currency" => {
            ", which each contract needs"
        }
        _ => "",
    };
    if words.is_empty() {
        message.say(", which a ");
        message.show(contract.said(file.bytes, "contractType"));
        message.say(" needs");
    } else {
        message.say(words);
    }
}

/// The member of a contract whose name is like that of a term, if one is.
fn near_member(alloc: Global, file: File<'_>, contract: &Contract, term: &str) -> Option<Member> {
    for member in &contract.members {
        let name = member.name.of(file.bytes);
        let is_other = str::from_utf8(name).is_ok_and(|name| is_term(name));
        if !is_other && nearest(alloc, name, &[term]).is_some() {
            return Some(*member);
        }
    }
    None
}

/// Says where the first contract of a name stands.
fn say_repeated(alloc: Global, message: &mut Message, file: File<'_>, contract: &Contract) {
    let member = contract.member(file.bytes, "contractID");
    let span = member.map_or(contract.span, |member| member.value);
    say_place(message, file, span.start);
    say_of(message, file, contract, "contractID");
    message.show(span.of(file.bytes));
    message.say(" is the name of an earlier contract too");
    let id = contract.said(file.bytes, "contractID");
    if let Some(first) = contract_named(alloc, file.bytes, id, contract.place) {
        message.say(", at ");
        say_line_column(message, file, first.span.start);
    }
    message.say(": each contract needs its own, those that stand in a structure too");
}

/// Says which dates, cycles and payments a contract has that has too many of them, or one that is out of range.
fn say_dates(message: &mut Message, file: File<'_>, contract: &Contract, what: &str) {
    say_place(message, file, contract.span.start);
    contract.say(message, file.bytes);
    message.say(what);
    message.say(": look at ");
    let mut is_first = true;
    for member in &contract.members {
        let name = member.name.of(file.bytes);
        if is_of_dates(name) {
            message.say(if is_first { "" } else { ", " });
            is_first = false;
            message.show(name);
            message.say(" ");
            message.show(member.value.of(file.bytes));
        }
    }
}

/// Whether a term says when something happens.
fn is_of_dates(name: &[u8]) -> bool {
    name.starts_with(b"cycle")
        || matches!(
            name,
            b"initialExchangeDate"
                | b"maturityDate"
                | b"nextPrincipalRedemptionPayment"
                | b"businessDayConvention"
                | b"calendar"
        )
}

/// Whether bytes are a name that a contract may have.
pub(crate) fn is_text_name(text: &[u8]) -> bool {
    match str::from_utf8(text) {
        Ok(text) => is_name(text),
        Err(_) => false,
    }
}

/// The name of a contract of a file that a name is like, if it is like one.
pub(crate) fn near_contract<'a>(alloc: Global, text: &'a [u8], name: &[u8]) -> Option<&'a str> {
    let mut walk = Walk::new(alloc, text);
    for _ in 0..u32::MAX {
        let contract = walk.step()?;
        let id = str::from_utf8(contract.said(text, "contractID")).unwrap_or("");
        if nearest(alloc, name, &[id]).is_some() {
            return Some(id);
        }
    }
    None
}
