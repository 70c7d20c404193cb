//! Names and their numbers.
use act_model::{Names, is_currency, is_name};
use cases_rows::{Case, number_of};
use std::str;

/// Tells what a call answers.
pub fn answer(case: &mut Case<'_>, call: &str) {
    let bytes = case.bytes();
    match (call, str::from_utf8(&bytes)) {
        ("names", Ok(asked)) => numbered(case, asked),
        ("is_name", Ok(name)) => case.value(is_name(name)),
        ("is_currency", Ok(name)) => case.value(is_currency(name)),
        _ => case.fail("no such call, or no text"),
    }
}

/// Tells the answers to words that are asked one after the other: `SORT:NAME` or `SORT:NUMBER`.
fn numbered(case: &mut Case<'_>, asked: &str) {
    let mut names = Names::new(case.alloc);
    for asked in asked.split_whitespace() {
        let (sort, name) = asked.split_once(":").unwrap_or((asked, ""));
        case.next(" ");
        let found = match sort {
            "find_contract" => names.contract(name),
            "find_code" => names.find_code(name),
            "find_currency" => names.find_currency(name),
            "contract" | "code" | "currency" => number_of(&mut names, sort, name),
            _ => {
                let number = case.count_of(name);
                case.text(name_of(&names, sort, number));
                continue;
            }
        };
        number_told(case, found);
    }
}

/// The name of a number, or a dash.
fn name_of<'a>(names: &'a Names, sort: &str, number: u32) -> &'a str {
    let found = match sort {
        "id" => names.id(number),
        "code_of" => names.code(number),
        "currency_of" => names.currency(number),
        _ => None,
    };
    found.unwrap_or("-")
}

/// Tells a number, or a dash.
fn number_told(case: &mut Case<'_>, found: Option<u32>) {
    match found {
        Some(number) => case.value(number),
        None => case.text("-"),
    }
}
