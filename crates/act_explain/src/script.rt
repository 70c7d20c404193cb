//! Scripts that are refused.

use crate::contracts::{Contract, File, contract_at, contract_named};
use crate::grammar::{Cause, Fault, first_fault};
use crate::message::Message;
use crate::near::{nearest, say_meant};
use crate::place::say_place;
use crate::portfolio::{is_text, is_text_name, near_contract, say_sort, say_value};
use crate::scan::{
    Member, Span, byte_at, member_named, member_of, members, said, skip_spaces, value_from,
};
use crate::syntax::say_syntax;
use crate::wanted::{Form, has_form, say_wanted, say_why};
use act_engine::ScriptRule;
use std::alloc::Global;

/// The example of each sort of line.
const RATE: &str =
    "{\"rate\": {\"code\": \"EURIBOR12M\", \"date\": \"2026-01-15\", \"value\": 0.0275}}";

const EVENT: &str =
    "{\"event\": {\"contract\": \"P1\", \"type\": \"PP\", \"date\": \"2026-01-15\", \"value\": 100}}";

const ASK: &str = "{\"ask\": \"P1\"}, or {\"ask\": \"*\"} for all contracts";

/// Explains why the line of that number, from 1, of a script is refused. `portfolio` is the file of the portfolio.
pub fn explain_line(
    alloc: Global,
    message: &mut Message,
    file: File<'_>,
    line: u32,
    rule: ScriptRule,
    portfolio: File<'_>,
) {
    let span = line_at(file.bytes, line);
    match rule {
        ScriptRule::NotLine => say_no_line(alloc, message, file, span),
        ScriptRule::UnknownName => say_unknown_contract(alloc, message, file, span, portfolio),
        ScriptRule::EventUnfit => say_unfit(alloc, message, file, span, portfolio),
        ScriptRule::TooManyEntries => {
            say_place(message, file, span.start);
            message.say(
                "this is one observation too many: all scripts together have at most 1,048,576; leave out what no contract reads",
            );
        }
        ScriptRule::TooMuchAsked => {
            say_place(message, file, span.start);
            message.say("the asks up to this one weigh too much");
        }
    }
    message.say(" (ERRORS, script ");
    message.number(number_of(rule));
    message.say(")\n");
}

/// The number of a rule.
fn number_of(rule: ScriptRule) -> u64 {
    match rule {
        ScriptRule::NotLine => 1,
        ScriptRule::UnknownName => 2,
        ScriptRule::EventUnfit => 3,
        ScriptRule::TooManyEntries => 4,
        ScriptRule::TooMuchAsked => 5,
    }
}

/// The line of that number, from 1, without what ends it.
fn line_at(text: &[u8], line: u32) -> Span {
    let mut left = line;
    let mut start = 0;
    for (place, byte) in text.iter().enumerate() {
        if *byte == b'\n' {
            if left <= 1 {
                return Span { start, end: place };
            }
            left = left.saturating_sub(1);
            start = place.saturating_add(1);
        }
    }
    Span {
        start,
        end: text.len(),
    }
}

/// The place where the line of that number, from 1, begins.
pub(crate) fn start_of_line(text: &[u8], line: u32) -> usize {
    line_at(text, line).start
}

/// Says why a line is of none of the forms.
fn say_no_line(alloc: Global, message: &mut Message, file: File<'_>, line: Span) {
    let start = skip_spaces(file.bytes, line.start);
    if is_portfolio(alloc, file.bytes) {
        say_place(message, file, start);
        return message.say(
            "this is a portfolio, and no script: the portfolio comes first, as in `actus eval PORTFOLIO SCRIPT`",
        );
    }
    if byte_at(file.bytes, start).is_ascii_alphabetic() {
        say_place(message, file, start);
        return message.say_all(&[
            "this line is no JSON object; a line is written as ",
            RATE,
            ", or ",
            ASK,
        ]);
    }
    if let Some(fault) = first_fault(alloc, line.of(file.bytes)) {
        return say_line_syntax(message, file, line, fault);
    }
    let object = value_from(file.bytes, start);
    let members = members(alloc, file.bytes, object);
    match members.as_slice() {
        _ if byte_at(file.bytes, start) != b'{' => {
            say_place(message, file, start);
            say_value(message, object.of(file.bytes));
            message.say_all(&[" stands here, and a line is an object, as ", RATE]);
        }
        [one] => say_no_member(alloc, message, file, *one),
        [_, second, ..] if is_sort(second.name.of(file.bytes)) => {
            say_place(message, file, second.name.start.saturating_sub(1));
            message.say("two things stand in one line: write two lines");
        }
        _ => {
            say_place(message, file, start);
            message.say("this object is none of rate, event and ask: put one around it, as ");
            message.say(fitting_example(file.bytes, &members));
        }
    }
}

/// Whether a file is a portfolio: a list, whose first object has a contract's terms.
fn is_portfolio(alloc: Global, text: &[u8]) -> bool {
    let Some(first) = contract_at(alloc, text, 1) else {
        return false;
    };
    first.member(text, "contractType").is_some() || first.member(text, "contractID").is_some()
}

/// Whether a name is that of a sort of lines.
fn is_sort(name: &[u8]) -> bool {
    matches!(name, b"rate" | b"event" | b"ask")
}

/// The example of the sort of line that some members are likely to be of.
fn fitting_example(text: &[u8], members: &[Member]) -> &'static str {
    if member_named(text, members, "contract").is_some()
        || member_named(text, members, "type").is_some()
    {
        EVENT
    } else {
        RATE
    }
}

/// Says why a line is no JSON.
fn say_line_syntax(message: &mut Message, file: File<'_>, line: Span, fault: Fault) {
    let place = line.start.saturating_add(fault.place);
    let words = match fault.cause {
        Cause::Open(_) | Cause::OpenText | Cause::LineEnd => {
            if is_list_start(line.of(file.bytes)) {
                Some(
                    "a script is no list: take the brackets away, and write an object in each line, without commas between",
                )
            } else {
                Some(
                    "the line ends here, and its object isn't closed: write } at its end, or put all of the object in this line",
                )
            }
        }
        Cause::Behind if byte_at(file.bytes, place) == b',' => {
            Some("a comma stands behind the object: lines have none at their ends")
        }
        Cause::Behind => Some(
            "something stands behind the object: put it in a line of its own, or take it away",
        ),
        Cause::NoStart => Some(
            "a closing bracket stands here: a script is no list, and has an object in each line",
        ),
        _ => None,
    };
    match words {
        Some(words) => {
            say_place(message, file, place);
            message.say(words);
        }
        None => say_syntax(message, file, moved(fault, line.start)),
    }
}

/// Whether a line begins a list.
fn is_list_start(line: &[u8]) -> bool {
    byte_at(line, skip_spaces(line, 0)) == b'['
}

/// A fault of a line as one of the whole text.
fn moved(fault: Fault, by: usize) -> Fault {
    let cause = match fault.cause {
        Cause::Open(start) => Cause::Open(start.saturating_add(by)),
        Cause::OtherEnd(start) => Cause::OtherEnd(start.saturating_add(by)),
        cause => cause,
    };
    let name = fault.name.map(|name| Span {
        start: name.start.saturating_add(by),
        end: name.end.saturating_add(by),
    });
    Fault {
        place: fault.place.saturating_add(by),
        cause,
        name,
    }
}

/// Says why the one member of a line is refused.
fn say_no_member(alloc: Global, message: &mut Message, file: File<'_>, member: Member) {
    match member.name.of(file.bytes) {
        b"rate" => say_no_rate(alloc, message, file, member.value),
        b"event" => say_no_event(alloc, message, file, member.value),
        b"ask" => say_no_ask(alloc, message, file, member.value),
        name => {
            say_place(message, file, member.name.start.saturating_sub(1));
            message.say("\"");
            message.show(name);
            message.say("\" is none of rate, event and ask");
            say_meant(message, nearest(alloc, name, &["rate", "event", "ask"]));
        }
    }
}

/// Says why a rate is refused.
fn say_no_rate(alloc: Global, message: &mut Message, file: File<'_>, rate: Span) {
    let said = say_no_inner(message, file, rate, RATE)
        || say_no_field(alloc, message, file, rate, "code", Form::Name, RATE)
        || say_no_field(alloc, message, file, rate, "date", Form::Day, RATE)
        || say_no_field(alloc, message, file, rate, "value", Form::Decimal, RATE);
    if !said {
        say_place(message, file, rate.start);
        message.say_all(&["a rate is written ", RATE]);
    }
}

/// Says why an event is refused.
fn say_no_event(alloc: Global, message: &mut Message, file: File<'_>, event: Span) {
    let said = say_no_inner(message, file, event, EVENT)
        || say_no_field(
            alloc,
            message,
            file,
            event,
            "contract",
            Form::Contract,
            EVENT,
        )
        || say_no_field(alloc, message, file, event, "date", Form::Day, EVENT)
        || say_no_type(alloc, message, file, event)
        || say_no_value(alloc, message, file, event);
    if !said {
        say_place(message, file, event.start);
        message.say_all(&["an event is written ", EVENT]);
    }
}

/// Says that a rate or an event is no object, and answers whether that is so.
fn say_no_inner(message: &mut Message, file: File<'_>, inner: Span, example: &str) -> bool {
    if byte_at(file.bytes, inner.start) == b'{' {
        return false;
    }
    say_place(message, file, inner.start);
    say_value(message, inner.of(file.bytes));
    message.say_all(&[" stands here, and an object was wanted, as ", example]);
    true
}

/// Says why a field is refused, and answers whether it is.
fn say_no_field(
    alloc: Global,
    message: &mut Message,
    file: File<'_>,
    object: Span,
    name: &str,
    form: Form,
    example: &str,
) -> bool {
    let members = members(alloc, file.bytes, object);
    let found = member_named(file.bytes, &members, name);
    match found {
        Some(member) if is_given(member.value.of(file.bytes)) => {
            let text = said(file.bytes, member.value);
            let value = member.value.of(file.bytes);
            if is_text(value) && fits(form, text) {
                return false;
            }
            say_place(message, file, member.value.start);
            message.say_all(&[name, ": "]);
            say_value(message, value);
            if is_text(value) {
                say_why(alloc, message, form, text);
            } else {
                say_sort(message, value);
                message.say("; ");
                say_wanted(message, form);
            }
        }
        _ => say_no_given(alloc, message, file, object, &members, name, example),
    }
    true
}

/// Says that a field isn't given.
fn say_no_given(
    alloc: Global,
    message: &mut Message,
    file: File<'_>,
    object: Span,
    members: &[Member],
    name: &str,
    example: &str,
) {
    for member in members {
        let other = member.name.of(file.bytes);
        if nearest(alloc, other, &[name]).is_some() {
            say_place(message, file, member.name.start.saturating_sub(1));
            message.say_all(&["no ", name, " is given, and \""]);
            message.show(other);
            return message.say_all(&["\" stands here: did you mean \"", name, "\"?"]);
        }
    }
    say_place(message, file, object.start);
    message.say_all(&["no ", name, " is given: add it, as in ", example]);
}

/// Whether a value counts as given.
fn is_given(value: &[u8]) -> bool {
    !matches!(value, b"null" | b"\"\"")
}

/// Whether a text has a form.
fn fits(form: Form, text: &[u8]) -> bool {
    match form {
        Form::Name | Form::Contract => is_text_name(text),
        _ => has_form(form, text),
    }
}

/// The words that others have for the types of events.
const EVENT_WORDS: [(&str, &str); 12] = [
    ("PP", "PP"),
    ("DV", "DV"),
    ("XD", "XD"),
    ("CE", "CE"),
    ("PR", "PP"),
    ("PREPAYMENT", "PP"),
    ("DIVIDEND", "DV"),
    ("EXERCISE", "XD"),
    ("DEFAULT", "CE\" with the value \"DF"),
    ("DF", "CE\" with the value \"DF"),
    ("DQ", "CE\" with the value \"DQ"),
    ("DL", "CE\" with the value \"DL"),
];

/// Says why the type of an event is refused, and answers whether it is.
fn say_no_type(alloc: Global, message: &mut Message, file: File<'_>, event: Span) -> bool {
    let members = members(alloc, file.bytes, event);
    let Some(member) = member_named(file.bytes, &members, "type") else {
        say_no_given(alloc, message, file, event, &members, "type", EVENT);
        return true;
    };
    let text = said(file.bytes, member.value);
    if matches!(text, b"PP" | b"DV" | b"XD" | b"CE") {
        return false;
    }
    say_place(message, file, member.value.start);
    message.say("type: ");
    say_value(message, member.value.of(file.bytes));
    message.say(" is none of PP (prepayment), DV (dividend), XD (exercise) and CE (credit event)");
    for (word, meant) in EVENT_WORDS {
        if text.eq_ignore_ascii_case(word.as_bytes()) {
            message.say_all(&[": did you mean \"", meant, "\"?"]);
        }
    }
    true
}

/// Says why the value of an event is refused, and answers whether it is.
fn say_no_value(alloc: Global, message: &mut Message, file: File<'_>, event: Span) -> bool {
    let members = members(alloc, file.bytes, event);
    let event_type = member_named(file.bytes, &members, "type");
    let event_type = event_type.map_or(&[][..], |member| said(file.bytes, member.value));
    let value = member_named(file.bytes, &members, "value");
    match event_type {
        b"CE" => say_no_credit_event(message, file, event, value),
        b"XD" if value.is_none() => false,
        _ => say_no_field(alloc, message, file, event, "value", Form::Decimal, EVENT),
    }
}

/// Says why the value of a credit event is refused.
fn say_no_credit_event(
    message: &mut Message,
    file: File<'_>,
    event: Span,
    value: Option<Member>,
) -> bool {
    say_place(
        message,
        file,
        value.map_or(event.start, |member| member.value.start),
    );
    match value {
        Some(member) => {
            message.say("value: ");
            say_value(message, member.value.of(file.bytes));
            message.say(" is");
        }
        None => {
            message.say(
                "no value is given: add \"DL\" (delayed), \"DQ\" (delinquent) or \"DF\" (default), as in \"value\": \"DF\"",
            );
            return true;
        }
    }
    message.say(
        " none of \"DL\" (delayed), \"DQ\" (delinquent) and \"DF\" (default), which a credit event has",
    );
    true
}

/// Says why an ask is refused.
fn say_no_ask(alloc: Global, message: &mut Message, file: File<'_>, asked: Span) {
    say_place(message, file, asked.start);
    let value = asked.of(file.bytes);
    message.say("ask: ");
    say_value(message, value);
    match value {
        [b'"', inside @ .., b'"'] if !inside.is_empty() && !inside.contains(&b',') => say_why(
            alloc,
            message,
            Form::Contract,
            inside,
        ),
        [b'[', ..] => message.say_all(&[
            " is a list: a line for each contract is wanted, as ",
            ASK,
        ]),
        _ => message.say_all(&[
            " is no name of one contract: write a line for each, as ",
            ASK,
        ]),
    }
}

/// The contract that a line names: where its name stands.
fn named_in(alloc: Global, text: &[u8], line: Span) -> Option<Span> {
    let object = value_from(text, skip_spaces(text, line.start));
    let sorts = members(alloc, text, object);
    let inner = sorts.first()?;
    if inner.name.of(text) == b"ask".as_slice() {
        return Some(inner.value);
    }
    let fields = members(alloc, text, inner.value);
    Some(member_named(text, &fields, "contract")?.value)
}

/// Says which contract isn't in the portfolio.
fn say_unknown_contract(
    alloc: Global,
    message: &mut Message,
    file: File<'_>,
    line: Span,
    portfolio: File<'_>,
) {
    let span = named_in(alloc, file.bytes, line).unwrap_or(line);
    let name = said(file.bytes, span);
    say_place(message, file, span.start);
    message.say("no contract of ");
    message.show(portfolio.name.as_bytes());
    message.say(" is named '");
    message.show(name);
    message.say("'");
    if name == b"*".as_slice() {
        message.say(
            ": it stands for all contracts in an ask alone, and an event is of one contract",
        );
    } else if name.eq_ignore_ascii_case(b"all") {
        message.say(": \"*\" asks for all contracts");
    } else {
        match near_contract(alloc, portfolio.bytes, name) {
            Some(near) => say_meant(message, Some(near)),
            None => say_first_contract(alloc, message, portfolio),
        }
    }
}

/// Says the name of the first contract of a portfolio, if it has one.
fn say_first_contract(alloc: Global, message: &mut Message, portfolio: File<'_>) {
    if let Some(first) = contract_at(alloc, portfolio.bytes, 1) {
        message.say("; its first contract is '");
        message.show(first.said(portfolio.bytes, "contractID"));
        message.say("'");
    }
}

/// Says why an event doesn't fit its contract.
fn say_unfit(
    alloc: Global,
    message: &mut Message,
    file: File<'_>,
    line: Span,
    portfolio: File<'_>,
) {
    let span = named_in(alloc, file.bytes, line).unwrap_or(line);
    say_place(message, file, span.start);
    let name = said(file.bytes, span);
    let contract = contract_named(alloc, portfolio.bytes, name, u32::MAX);
    let contract_type = match &contract {
        Some(contract) => contract.said(portfolio.bytes, "contractType"),
        None => &[],
    };
    let event_type = event_type(alloc, file.bytes, line);
    if event_type == b"PP".as_slice() && is_loan(contract_type) {
        return message.say(
            "the value of this prepayment (PP) is below 0: write the amount that is prepaid, without a sign",
        );
    }
    message.say(match event_type {
        b"PP" => "a prepayment (PP) is for loans, PAM, LAM, NAM and ANN",
        b"DV" => "a dividend (DV) is for stocks, STK",
        _ => "an exercise (XD) is for options, OPTNS, of optionExerciseType A or B",
    });
    if let Some(contract) = contract {
        message.say(", and ");
        say_what_it_is(message, portfolio.bytes, &contract);
    }
}

/// Whether contracts of a type are loans.
fn is_loan(contract_type: &[u8]) -> bool {
    matches!(contract_type, b"PAM" | b"LAM" | b"NAM" | b"ANN")
}

/// The type of a line's event, or nothing.
fn event_type(alloc: Global, text: &[u8], line: Span) -> &[u8] {
    let object = value_from(text, skip_spaces(text, line.start));
    let sorts = members(alloc, text, object);
    match sorts.first() {
        Some(inner) => match member_of(alloc, text, inner.value, "type") {
            Some(member) => said(text, member.value),
            None => &[],
        },
        None => &[],
    }
}

/// Says of which type a contract is.
fn say_what_it_is(message: &mut Message, text: &[u8], contract: &Contract) {
    contract.say(message, text);
    message.say(" is of the type ");
    let contract_type = contract.said(text, "contractType");
    message.show(contract_type);
    if contract_type == b"OPTNS".as_slice() {
        let exercise = contract.said(text, "optionExerciseType");
        if exercise.is_empty() {
            message.say(" without optionExerciseType, which counts as E");
        } else {
            message.say(" with optionExerciseType ");
            message.show(exercise);
        }
    }
}
