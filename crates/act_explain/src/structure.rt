//! Structures that are refused: references of another shape, to no contract, and those that don't fit.

use crate::contracts::{Contract, File, contract_named, elements};
use crate::message::Message;
use crate::near::say_meant;
use crate::place::say_place;
use crate::portfolio::{is_text, is_text_name, near_contract, say_value};
use crate::scan::{Span, byte_at, member_of, said};
use crate::wanted::{Form, form_of, has_form, say_wanted, say_why};
use std::alloc::Global;

/// Says why a contract's structure is refused with a number.
pub(crate) fn say_structure(
    alloc: Global,
    message: &mut Message,
    file: File<'_>,
    contract: &Contract,
    number: u8,
) {
    let structure = contract.member(file.bytes, "contractStructure");
    let span = structure.map_or(contract.span, |member| member.value);
    if byte_at(file.bytes, span.start) != b'[' {
        say_place(message, file, span.start);
        contract.say(message, file.bytes);
        message.say(", contractStructure: ");
        say_value(message, span.of(file.bytes));
        if byte_at(file.bytes, span.start) == b'{' {
            return message.say(
                " is an object, and a list of references is wanted: put [ ] around it",
            );
        }
        message.say(" is no list; ");
        return say_wanted(message, Form::Structure);
    }
    for element in &elements(alloc, file.bytes, contract) {
        if say_element(alloc, message, file, contract, *element, number) {
            return;
        }
    }
    say_place(message, file, span.start);
    contract.say(message, file.bytes);
    message.say(", contractStructure: ");
    say_wanted(message, Form::Structure);
}

/// Says why an element of a structure is refused with a number, and answers whether it is.
fn say_element(
    alloc: Global,
    message: &mut Message,
    file: File<'_>,
    contract: &Contract,
    element: Span,
    number: u8,
) -> bool {
    if byte_at(file.bytes, element.start) != b'{' {
        say_at(message, file, contract, element);
        say_value(message, element.of(file.bytes));
        message.say(
            " stands in the place of a reference, which is an object, as {\"referenceType\": \"CID\", \"referenceRole\": \"UDL\", \"object\": \"LOAN-8\"}",
        );
        return true;
    }
    if number == 13 {
        return say_choice(alloc, message, file, contract, element, "referenceType")
            || say_choice(alloc, message, file, contract, element, "referenceRole");
    }
    say_object(alloc, message, file, contract, element, number)
}

/// Says where in a contract's structure something stands.
fn say_at(message: &mut Message, file: File<'_>, contract: &Contract, span: Span) {
    say_place(message, file, span.start);
    contract.say(message, file.bytes);
    message.say(", contractStructure: ");
}

/// Says why a choice of an element is refused, and answers whether it is.
fn say_choice(
    alloc: Global,
    message: &mut Message,
    file: File<'_>,
    contract: &Contract,
    element: Span,
    name: &str,
) -> bool {
    let form = form_of(name);
    match member_of(alloc, file.bytes, element, name) {
        None => {
            say_at(message, file, contract, element);
            message.say_all(&["the reference has no ", name, "; "]);
            say_wanted(message, form);
            true
        }
        Some(member) if has_form(form, said(file.bytes, member.value)) => false,
        Some(member) => {
            say_at(message, file, contract, member.value);
            message.say_all(&[name, " "]);
            say_value(message, member.value.of(file.bytes));
            say_why(alloc, message, form, said(file.bytes, member.value));
            true
        }
    }
}

/// What an element refers to: the text that says it, where it is there.
fn object_of(alloc: Global, text: &[u8], element: Span) -> Option<Span> {
    let object = member_of(alloc, text, element, "object")?.value;
    if byte_at(text, object.start) != b'{' {
        return Some(object);
    }
    let found = ["contractIdentifier", "contractID", "marketObjectCode"]
        .iter()
        .filter_map(|name| member_of(alloc, text, object, name))
        .next()?;
    Some(found.value)
}

/// Says why what an element refers to is refused, and answers whether it is.
fn say_object(
    alloc: Global,
    message: &mut Message,
    file: File<'_>,
    contract: &Contract,
    element: Span,
    number: u8,
) -> bool {
    let Some(object) = object_of(alloc, file.bytes, element) else {
        match member_of(alloc, file.bytes, element, "object") {
            Some(member) => {
                say_at(message, file, contract, member.value);
                message.say(
                    "this object names nothing: write the contract's name, as \"object\": \"LOAN-8\", or with MOC the code",
                );
            }
            None => {
                say_at(message, file, contract, element);
                message.say(
                    "this reference has no object: add \"object\": \"LOAN-8\", the contract's name, or with MOC the code",
                );
            }
        }
        return true;
    };
    let text = said(file.bytes, object);
    let is_wrong = if number == 14 {
        !is_text_name(text)
    } else {
        needs_object(alloc, file.bytes, element) || !is_given_text(object.of(file.bytes))
    };
    if !is_wrong {
        return false;
    }
    say_at(message, file, contract, object);
    message.say("object ");
    say_value(message, object.of(file.bytes));
    if number == 14 {
        say_why(alloc, message, Form::Name, text);
    } else if is_given_text(object.of(file.bytes)) {
        message.say(
            " is a text, and with CNT the contract itself stands here: a contract by its name has the referenceType \"CID\"",
        );
    } else {
        message.say(" names nothing: ");
        message.say(OBJECT);
    }
    true
}

/// What the object of a reference is.
const OBJECT: &str =
    "its object is the contract's name with CID, the contract with CNT, and a code with MOC";

/// Whether a value is a text that is given.
fn is_given_text(value: &[u8]) -> bool {
    is_text(value) && value != b"\"\"".as_slice()
}

/// Whether an element is to hold a contract, and its object is none.
fn needs_object(alloc: Global, text: &[u8], element: Span) -> bool {
    let is_inner = member_of(alloc, text, element, "referenceType").is_some_and(|member| said(
        text,
        member.value,
    ) == b"CNT".as_slice());
    let is_object = member_of(alloc, text, element, "object").is_some_and(|member| byte_at(
        text,
        member.value.start,
    ) == b'{');
    is_inner && !is_object
}

/// Says which contract of a structure isn't in the file.
pub(crate) fn say_unknown(
    alloc: Global,
    message: &mut Message,
    file: File<'_>,
    contract: &Contract,
    name: &[u8],
) {
    let mut place = contract.span;
    for element in &elements(alloc, file.bytes, contract) {
        if let Some(object) = object_of(alloc, file.bytes, *element) {
            if said(file.bytes, object) == name {
                place = object;
                break;
            }
        }
    }
    say_at(message, file, contract, place);
    message.say("no contract of the file is named '");
    message.show(name);
    message.say("'");
    match near_contract(alloc, file.bytes, name) {
        Some(near) => say_meant(message, Some(near)),
        None => message.say("; a market object has the referenceType \"MOC\""),
    }
}

/// Says which references fit a contract's type.
pub(crate) fn say_misfit(
    alloc: Global,
    message: &mut Message,
    file: File<'_>,
    contract: &Contract,
) {
    let structure = contract.member(file.bytes, "contractStructure");
    let span = structure.map_or(contract.span, |member| member.value);
    say_at(message, file, contract, span);
    let elements = elements(alloc, file.bytes, contract);
    if elements.is_empty() {
        message.say("the list is empty");
    } else {
        message.say("these references don't fit:");
        for (place, element) in elements.iter().enumerate() {
            if place > 0 {
                message.say(";");
            }
            say_element_briefly(alloc, message, file.bytes, *element);
        }
    }
    message.say("; ");
    message.say(match contract.said(file.bytes, "contractType") {
        b"SWAPS" => "a SWAPS has one FIL and one SEL, to two different loans (PAM, LAM, NAM, ANN)",
        b"CAPFL" => "a CAPFL has one UDL, to a loan (PAM, LAM, NAM, ANN) or a SWPPV",
        b"OPTNS" | b"FUTUR" => "an OPTNS or FUTUR has one UDL by MOC, the code of a market object",
        b"CEG" =>
            "a CEG has COVE, one or several, to contracts; with guaranteedExposure MV each of them has a marketObjectCode",
        _ =>
            "a CEC has COVE, one or several, to contracts, and COVI, one or several, by MOC or to a contract with a marketObjectCode",
    });
}

/// Says which role an element has, by which type, and to what.
fn say_element_briefly(alloc: Global, message: &mut Message, text: &[u8], element: Span) {
    for name in ["referenceRole", "referenceType"] {
        if let Some(member) = member_of(alloc, text, element, name) {
            message.say(" ");
            message.show(said(text, member.value));
        }
    }
    let Some(object) = object_of(alloc, text, element) else {
        return;
    };
    message.say(" '");
    message.show(said(text, object));
    message.say("'");
    if let Some(found) = contract_named(alloc, text, said(text, object), u32::MAX) {
        message.say(", a ");
        message.show(found.said(text, "contractType"));
    }
}
