//! The text of a journal and its answers, written and read.
#![tactic(auto)]

mod fault;
mod heads;
mod item;
mod items;
mod line_fault;
mod lines;
mod printed;
mod read;
mod reader;
mod rows;
mod transcript;
mod words;

pub use fault::TextFault;
pub use heads::{answer_head, answers_head, block_head, journal_head};
pub use item::item_line;
pub use printed::{Printed, PrintedAnswer, PrintedBlock, PrintedRow};
pub use read::{
    different_journals_have_different_texts, different_transcripts_have_different_texts,
    read_journal, read_text,
};
