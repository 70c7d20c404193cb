//! The text of a journal.
ghost use Rattle.std.specs.Prelude.{◌≡◌, ◌++◌, true, length, map};
ghost use Rattle.std.specs.List.{All, flat_map};
ghost use Rattle.act_engine.specs.Writing.{Writes};
ghost use Rattle.act_model.specs.Journal.{is_known};
ghost use Rattle.act_model.specs.declared.journal.Item.{Item as JournalItem};
ghost use Rattle.act_print.specs.Text.{answers_head_text, item_text, journal_head_text};
ghost use Rattle.act_transcript.specs.Text.{heads_text, item_of_line};

use act_engine::{Failure, write_text};
use act_io::Sink;
use act_model::{Item, Line, Names};
use act_print::{answers_head, item_line, journal_head};

/// What a line of a journal is written for.
pub trait JournalStep {
    /// Its item, as contracts see it.
    ghost item_of: { Self → JournalItem };

    /// Its item.
    fn item(&self) -> Item
        ensures { result ≡ item_of self.now };
}

/// An item of a journal.
impl JournalStep for Item {
    ghost item_of = { λ item. item };

    fn item(&self) -> Item
        ensures { result ≡ self.now }
    {
        *self
    }
}

/// A step of the one caller's script.
impl JournalStep for Line {
    ghost item_of = { item_of_line };

    fn item(&self) -> Item
        ensures { result ≡ item_of_line self.now }
    {
        Item {
            caller: 1,
            step: self.step,
        }
    }
}

/// Writes a journal, and the line above the answers to its asks, so many. `line` is room for a line.
pub fn write_heads<K: Sink, S: JournalStep>(
    out: &mut K,
    line: &mut Vec<u8>,
    names: &Names,
    journal: &[S],
    answers: usize,
) -> Result<(), Failure>
    requires known { All (λ step. is_known names.now (S.item_of step).step ≡ true) journal.now }
    ensures { Writes (heads_text names.now (map S.item_of journal.now) answers) (K.page out.old) result (K.page out.new) }
{
    line.clear();
    journal_head(journal.len(), line)?;
    write_text(out, line)?;
    write_items(out, line, names, journal)?;
    line.clear();
    answers_head(answers, line)?;
    write_text(out, line)
}

/// Writes a line for each step of a journal.
fn write_items<K: Sink, S: JournalStep>(
    out: &mut K,
    line: &mut Vec<u8>,
    names: &Names,
    journal: &[S],
) -> Result<(), Failure>
    requires known { All (λ step. is_known names.now (S.item_of step).step ≡ true) journal.now }
    ensures { Writes (flat_map (item_text names.now) (map S.item_of journal.now)) (K.page out.old) result (K.page out.new) }
{
    for step in journal {
        write_item(out, line, names, &step.item())?;
    }
    Ok(())
}

/// Writes the line of an item of a journal.
fn write_item<K: Sink>(
    out: &mut K,
    line: &mut Vec<u8>,
    names: &Names,
    item: &Item,
) -> Result<(), Failure>
    requires known { is_known names.now item.now.step ≡ true }
    ensures { Writes (item_text names.now item.now) (K.page out.old) result (K.page out.new) }
{
    line.clear();
    item_line(names, item, line)?;
    write_text(out, line)
}
