//! The lines of a contract's rows and of how they close.
#![tactic(auto)]

mod kept;
mod line;
mod names;
mod number;
mod row;

pub use kept::RowLines;
pub use line::{MOST_LINE, TextLine};
pub use names::{code_name, contract_name, currency_name};
pub use row::{RowPrinter, close_line, row_line, type_word};
