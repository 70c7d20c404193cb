//! Reading lines one after the other.
ghost use Rattle.std.specs.Prelude.{◌≡◌, ◌<◌, ◌^◌, ◌-◌, ◌==◌, ◌++◌, length, codes};
ghost use Rattle.std.specs.Str.{bytes_eq};
ghost use Rattle.act_print.specs.Faults.{lines_of};
ghost use Rattle.act_print.specs.Giving.{Gives, GivesItem, GivesNext};
ghost use Rattle.act_print.specs.LineWords.{count_of_line};
ghost use Rattle.act_print.specs.Reading.{is_line, line_by};

use crate::items::{count_of_line, item_of_line};
use crate::line_fault::LineFault;
use crate::lines::{count_lines, first_line};
use crate::printed::PrintedRow;
use crate::rows::{close_of_line, row_of_line};
use act_model::{Close, Item, Names};
use std::marker::Model;

/// The bytes that are left to be read; a call that stops leaves them from the line on at which it stops.
#[derive(Drop)]
pub(crate) struct Reader<'a> {
    rest: &'a [u8],
}

impl<'a> Model for Reader<'a> {
    ghost use Rattle.std.specs.Prelude.{ℕ, List};
    ghost use Rattle.act_print.specs.Faults.{lines_of};

    ghost Value = { List (List ℕ) };

    ghost view = { λ r. lines_of r.rest.now };
}

/// A line among rows.
#[derive(Clone, Copy)]
pub(crate) enum Next {
    /// A row.
    Row(PrintedRow),
    /// How the rows close.
    Last(Close),
}

impl<'a> Reader<'a> {
    /// A reader of bytes.
    pub(crate) fn new(bytes: &'a [u8]) -> Reader<'a>
        ensures { result ≡ lines_of bytes.now }
    {
        Reader { rest: bytes }
    }

    /// Whether no line is left.
    pub(crate) fn is_done(&self) -> bool
        ensures { result ≡ (length self.now == 0) }
    {
        first_line(self.rest).is_none()
    }

    /// How many lines are left.
    pub(crate) fn lines_left(&self) -> u32
        requires { length self.now < 2 ^ 32 - 1 }
        ensures { result ≡ length self.now }
    {
        count_lines(self.rest)
    }

    /// The line above a journal.
    pub(crate) fn count(&mut self) -> Result<u64, LineFault>
        ensures { Gives (λ n. n) result self.new (line_by count_of_line self.old) }
    {
        let Some((line, behind)) = first_line(self.rest) else {
            return Err(LineFault::Wrong);
        };
        let Some(count) = count_of_line(line) else {
            return Err(LineFault::Wrong);
        };
        self.rest = behind;
        Ok(count)
    }

    /// Adds the next item to others. Where it stops, they are as before.
    pub(crate) fn push_item(
        &mut self,
        names: &Names,
        items: &mut Vec<Item>,
    ) -> Result<(), LineFault>
        ensures { GivesItem names.now items.old.items self.old result items.new.items self.new }
    {
        let Some((line, behind)) = first_line(self.rest) else {
            return Err(LineFault::Wrong);
        };
        let Some(Item { caller, step }) = item_of_line(names, line) else {
            return Err(LineFault::Wrong);
        };
        match items.push(Item { caller, step }) {
            Ok(()) => {
                self.rest = behind;
                Ok(())
            }
            Err(_) => Err(LineFault::NoMemory),
        }
    }

    /// The line that is given.
    pub(crate) fn expect(&mut self, expected: &[u8]) -> Result<(), LineFault>
        ensures { Gives (λ u. u) result self.new (line_by (is_line (expected.now ++ codes "\n")) self.old) }
    {
        let Some((line, behind)) = first_line(self.rest) else {
            return Err(LineFault::Wrong);
        };
        if !is_same(line, expected) {
            return Err(LineFault::Wrong);
        }
        self.rest = behind;
        Ok(())
    }

    /// A row, or how the rows close.
    #[tactic(auto, unfolding(crate::specs::Reading::rows_at))]
    pub(crate) fn next_row(&mut self, names: &Names) -> Result<Next, LineFault>
        ensures { GivesNext names.now self.old result self.new }
    {
        let Some((line, behind)) = first_line(self.rest) else {
            return Err(LineFault::Wrong);
        };
        if let Some(close) = close_of_line(names, line) {
            self.rest = behind;
            return Ok(Next::Last(close));
        }
        let Some(row) = row_of_line(names, line) else {
            return Err(LineFault::Wrong);
        };
        self.rest = behind;
        Ok(Next::Row(row))
    }
}

/// Whether two lines are the same.
fn is_same(line: &[u8], expected: &[u8]) -> bool
    ensures { result ≡ bytes_eq (line.now ++ codes "\n") (expected.now ++ codes "\n") }
{
    line == expected
}
