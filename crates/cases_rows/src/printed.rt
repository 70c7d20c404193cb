//! Rows as they are printed, in short.
use crate::case::Case;
use std::str;

/// Tells rows with commas between them, without the line of work.
pub fn rows_told(case: &mut Case<'_>, rows: &[u8], is_full: bool) {
    match str::from_utf8(rows) {
        Ok(rows) => {
            for line in rows.lines() {
                if !line.starts_with("work ") {
                    case.next(", ");
                    row_told(case, line, is_full);
                }
            }
        }
        Err(_) => case.fail("rows are no text"),
    }
}

/// Tells a row: its type, payoff and notional, or all but its accrued interest; how rows close is told as it is.
fn row_told(case: &mut Case<'_>, line: &str, is_full: bool) {
    if !matches!(line.as_bytes(), [b'0'..=b'9', ..]) {
        return case.text(line);
    }
    for (place, word) in line.split(' ').enumerate() {
        if matches!(place, 1 | 3 | 4) || is_full && matches!(place, 0 | 2 | 5) {
            if place > 1 || place == 1 && is_full {
                case.text(" ");
            }
            case.text(short(word));
        }
    }
}

/// An amount without its last zeros; another word as it is.
fn short(word: &str) -> &str {
    match word.split_once(".") {
        Some(_) => word.trim_end_matches('0').trim_end_matches('.'),
        None => word,
    }
}
