//! The calls of the tables of books, of what asks weigh, and of printed texts, and of lists of rows.
#![tactic(auto)]

mod book;
mod draws;
mod lists;
mod many;
mod texts;
mod weights;

use act_io::Files;
pub use book::Shelf;
use cases_rows::Case;
pub use lists::lists_told;

/// Tells what the call of that name answers, of those that a table has, over the book that one of them fills.
pub fn answer<F: Files>(
    shelf: &mut Shelf,
    case: &mut Case<'_>,
    files: &mut F,
    table: &str,
    call: &str,
) {
    match table {
        "book.txt" => shelf.answer(case, call),
        "weights.txt" => weights::answer(case, call),
        _ => texts::answer(case, files, call),
    }
}
