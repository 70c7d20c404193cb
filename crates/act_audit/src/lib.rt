//! Whether a text that someone else printed is right: the text of the portfolio and of some journal, or of an interleaving of
//! scripts.
#![tactic(auto)]

mod answers;
mod codes;
mod job;
mod journal;
mod judging;
mod laws;
mod order;
mod right;
mod sheet;
mod text;
mod top;
mod verdict;
mod words;

pub use laws::{
    audits_end_as_told, right_texts_count_as_eval, statuses_tell_faults, verdicts_are_told,
};
pub use top::{Audited, audit_top};
pub use verdict::{
    Verdict, no_two_verdicts_are_both_so, right_texts_are_of_the_scripts,
    right_texts_have_one_journal,
};
