//! What can be seen of a board, a line each.
use crate::driven::Driven;
use crate::entry::item_told;
use act_date::Day;
use cases_rows::Case;
use std::alloc::Global;

/// How many entries a board has and how many steps, the last of these, and of each caller how many of its asks are open, or
/// a dash where it has left.
pub fn looks(alloc: Global, board: &Driven, callers: u32) -> Case<'static> {
    let mut seen = Case::of(alloc, "");
    seen.text("v");
    seen.value(board.version());
    seen.text("\nj");
    seen.value(board.journal().len());
    seen.text("\n");
    match board.journal().last() {
        Some(item) => item_told(&mut seen, item),
        None => seen.text("-"),
    }
    for caller in 0..callers {
        asks_told(&mut seen, board, caller.saturating_add(1));
    }
    seen
}

/// Tells how many asks of a caller are open.
fn asks_told(seen: &mut Case<'_>, board: &Driven, caller: u32) {
    seen.text("\n");
    seen.value(caller);
    seen.text(":");
    match board.open_asks(caller) {
        Some(open) => seen.value(open),
        None => seen.text("-"),
    }
}

/// Of each contract from which day on entries touch its cone, or a dash.
pub fn cuts(alloc: Global, days: Option<Vec<Option<Day>>>) -> Case<'static> {
    let mut told = Case::of(alloc, "");
    match days {
        Some(days) => cuts_told(&mut told, &days),
        None => told.fail("memory ran out"),
    }
    told
}

fn cuts_told(told: &mut Case<'_>, days: &[Option<Day>]) {
    for place in 0..days.len() {
        told.text("\n");
        told.value(place);
        told.text(" from ");
        match days[place] {
            Some(day) => told.day_told(day),
            None => told.text("-"),
        }
    }
}

/// Tells the lines of what is seen that were others before.
pub fn changes_told(call: &mut Case<'_>, before: &[u8], seen: &[u8]) {
    let mut before = before.split(|byte| *byte == b'\n');
    for line in seen.split(|byte| *byte == b'\n') {
        if before.next() != Some(line) {
            call.text(", ");
            call.bytes_told(line);
        }
    }
}
