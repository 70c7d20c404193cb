//! Calls of texts of journals and answers that are read.
use act_io::Files;
use act_model::{Close, Item, Names};
use act_print::{Printed, PrintedAnswer, PrintedBlock, PrintedRow, TextFault, read_text};
use cases_rows::{Case, change, name_told, number_of, step_told};
use std::alloc::Global;

/// The texts of the rows have at most so many bytes.
const LONGEST: usize = 4_096;

/// Tells what a call answers, over the text of a file with a change.
pub fn answer<F: Files>(case: &mut Case<'_>, files: &mut F, call: &str) {
    if !matches!(call, "items" | "answers" | "counted" | "wrong_line") {
        return case.fail("no such call");
    }
    let name = case.word();
    let mut text = case.file(files, name);
    let mut names = Names::new(case.alloc);
    add_all(case, &mut names, "contract");
    add_all(case, &mut names, "code");
    add_all(case, &mut names, "currency");
    make_change(case, &mut text);
    text_told(case, &names, &text, call);
}

/// Makes the change that stands behind the words, if there is one.
fn make_change(case: &mut Case<'_>, text: &mut Vec<u8>) {
    if let Some((_, changed)) = case.given.split_once(": ") {
        change(case, text, changed);
    }
}

/// Tells what is printed in a text, or which line is wrong.
fn text_told(case: &mut Case<'_>, names: &Names, text: &[u8], call: &str) {
    match read(case.alloc, names, text) {
        Ok(printed) => printed_told(case, names, call, &printed),
        Err(fault) => case.value(fault),
    }
}

/// Adds the names of the next word, which has commas between them; a dash is none.
fn add_all(case: &mut Case<'_>, names: &mut Names, sort: &str) {
    for name in case.word().trim_end_matches(':').split(',') {
        if name != "-" && number_of(names, sort, name).is_none() {
            case.fail("a word has another form");
        }
    }
}

/// What is printed in a text.
#[tactic(auto, using(act_print::proofs::Bytes::few_lines))]
fn read(alloc: Global, names: &Names, text: &[u8]) -> Result<Printed, TextFault> {
    if text.len() > LONGEST {
        return Err(TextFault::NoMemory);
    }
    read_text(alloc, names, text)
}

/// Tells the items, the answers, or how many there are of each.
fn printed_told(case: &mut Case<'_>, names: &Names, call: &str, printed: &Printed) {
    match call {
        "items" => items_told(case, names, &printed.items),
        "answers" => answers_told(case, names, &printed.answers),
        "counted" => counts_told(case, names, printed),
        _ => case.text("no line is wrong"),
    }
    if case.told.is_empty() {
        case.text("none");
    }
}

fn items_told(case: &mut Case<'_>, names: &Names, items: &[Item]) {
    for item in items {
        case.next("\n");
        case.value(item.caller);
        case.text(" ");
        step_told(case, names, item.step);
    }
}

fn answers_told(case: &mut Case<'_>, names: &Names, answers: &[PrintedAnswer]) {
    for answer in answers {
        case.next("\n");
        case.text("answer ");
        case.value(answer.caller);
        case.text(" ");
        case.value(answer.number);
        case.text(" ");
        case.value(answer.version);
        blocks_told(case, names, &answer.blocks);
    }
}

fn blocks_told(case: &mut Case<'_>, names: &Names, blocks: &[PrintedBlock]) {
    for block in blocks {
        case.text("\ncontract ");
        name_told(case, names.id(block.contract), block.contract);
        for row in &block.rows {
            row_told(case, names, row);
        }
        case.text("\n");
        close_told(case, names, block.close);
    }
}

/// Tells a row: its day, type and currency, and its amounts.
fn row_told(case: &mut Case<'_>, names: &Names, row: &PrintedRow) {
    case.text("\n");
    case.day_told(row.day);
    case.text(" ");
    case.value(row.kind);
    case.text(" ");
    name_told(case, names.currency(row.currency), row.currency);
    for amount in &[row.payoff, row.nt, row.ipnr, row.ipac] {
        case.text(" ");
        case.amount(*amount);
    }
}

/// Tells how rows close.
fn close_told(case: &mut Case<'_>, names: &Names, close: Close) {
    match close {
        Close::End => case.text("end"),
        Close::Missing { code, day } => {
            case.text("missing ");
            name_told(case, names.code(code), code);
            case.text(" ");
            case.day_told(day);
        }
        Close::Overflow { day, kind } => {
            case.text("overflow ");
            case.day_told(day);
            case.text(" ");
            case.value(kind);
        }
    }
}

/// Tells how many items there are, and of each block how many rows, and how they close.
fn counts_told(case: &mut Case<'_>, names: &Names, printed: &Printed) {
    case.value(printed.items.len());
    for answer in &printed.answers {
        for block in &answer.blocks {
            case.text("; ");
            case.value(block.rows.len());
            case.text(" ");
            close_told(case, names, block.close);
        }
    }
}
