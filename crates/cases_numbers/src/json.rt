//! Calls of JSON texts and their fields.
use crate::days::cycle_told;
use act_json::{JsonFault, cycle, day, decimal, period, quote, read, required, text, word};
use cases_rows::Case;
use serde_json::Value;

/// Tells what a call answers.
pub fn answer(case: &mut Case<'_>, call: &str) {
    let bytes = case.bytes();
    if call == "quote" {
        return quoted(case, &bytes);
    }
    match read(case.alloc, &bytes) {
        Ok(value) => of_value(case, call, &value),
        Err(fault) => {
            fault_told(case, fault);
            if call != "read" {
                case.fail("the text is refused");
            }
        }
    }
}

fn quoted(case: &mut Case<'_>, bytes: &[u8]) {
    match quote(case.alloc, bytes) {
        Ok(quoted) => case.bytes_told(&quoted),
        Err(_) => case.fail("memory ran out"),
    }
}

/// Tells the number of a fault, and its name.
fn fault_told(case: &mut Case<'_>, fault: JsonFault) {
    case.value(fault as u8);
    case.text(" ");
    case.value(fault);
}

/// Tells a value without spaces, or what its field `x` is read as.
fn of_value(case: &mut Case<'_>, call: &str, value: &Value) {
    let alloc = case.alloc;
    match call {
        "read" => written(case, value),
        "field" => readers_told(case, value),
        "field_text" => text_told(case, text(alloc, value, "x")),
        "field_word" => text_told(case, word(alloc, value, "x")),
        "field_cycle" => match given(case, cycle(value, "x")) {
            Some(cycle) => cycle_told(case, cycle),
            None => {}
        },
        "field_period" => match given(case, period(value, "x")) {
            Some(period) => cycle_told(case, period),
            None => {}
        },
        "field_decimal" => match given(case, decimal(value, "x")) {
            Some(number) => case.value(number.units()),
            None => {}
        },
        "field_day" => match given(case, day(value, "x")) {
            Some(day) => case.value(day.number()),
            None => {}
        },
        _ => case.fail("no such call"),
    }
}

/// What was found, or None and its fault is told.
fn given<T: Drop>(case: &mut Case<'_>, found: Result<Option<T>, JsonFault>) -> Option<T> {
    let fault = match found {
        Ok(found) => match required(found) {
            Ok(found) => return Some(found),
            Err(fault) => fault,
        },
        Err(fault) => fault,
    };
    fault_told(case, fault);
    None
}

/// Tells a value without spaces.
fn written(case: &mut Case<'_>, value: &Value) {
    match value.to_string(case.alloc) {
        Ok(text) => case.text(text.as_str()),
        Err(_) => case.fail("memory ran out"),
    }
}

fn text_told(case: &mut Case<'_>, found: Result<Option<String>, JsonFault>) {
    if let Some(text) = given(case, found) {
        case.text(text.as_str());
    }
}

/// Tells what all six readers find of the field `x`.
fn readers_told(case: &mut Case<'_>, value: &Value) {
    let found = [
        finds(text(case.alloc, value, "x")),
        finds(decimal(value, "x")),
        finds(day(value, "x")),
        finds(cycle(value, "x")),
        finds(period(value, "x")),
        finds(word(case.alloc, value, "x")),
    ];
    if found == [found[0]; 6] {
        case.value(found[0]);
    } else {
        case.text("the readers differ");
    }
}

/// The number of a reader's fault: 0 where the field isn't given, and -1 where it is.
fn finds<T: Drop>(found: Result<Option<T>, JsonFault>) -> i32 {
    match found {
        Ok(None) => 0,
        Ok(Some(_)) => -1,
        Err(fault) => fault as i32,
    }
}
