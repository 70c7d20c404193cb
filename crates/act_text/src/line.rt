//! A line of text, put together word by word.
ghost use Rattle.std.specs.Prelude.{◌≡◌, ◌+◌, ◌<◌, ◌≤◌, [], ◌++◌, drop, length, take, true, OnOk, OnErr, codes};
ghost use Rattle.act_num.specs.Decimal.{printed};
ghost use Rattle.act_date.specs.Text.{date_text};
ghost use Rattle.act_model.specs.Name.{is_name};

use crate::number::{NumberText, TEXT_ROOM};
use act_date::Day;
use act_num::{Fixed, NoMemory};
use std::marker::Model;

/// The most bytes of a line: more than a line of any text has.
pub const MOST_LINE: usize = 256;

/// A line that is put together, of at most 256 bytes. It takes no memory.
#[derive(Drop)]
pub struct TextLine {
    bytes: [u8; MOST_LINE],
    end: usize,
}

impl Model for TextLine {
    ghost use Rattle.std.specs.Prelude.{ℕ, ◌≤◌, List, take};

    ghost Value = { List ℕ };

    ghost view = { λ t. take t.end t.bytes };

    ghost invariant = { λ t. t.end ≤ 256 };
}

impl TextLine {
    /// A line of nothing yet.
    pub fn new() -> TextLine
        ensures { result ≡ [] }
    {
        TextLine {
            bytes: [0; MOST_LINE],
            end: 0,
        }
    }

    /// Makes it a line of nothing again.
    pub fn clear(&mut self)
        ensures { self.new ≡ [] }
    {
        self.end = 0;
    }

    /// Its bytes so far.
    pub fn as_bytes(&self) -> &[u8]
        ensures { result.now ≡ self.now }
    {
        &self.bytes[..self.end]
    }

    /// Adds bytes.
    pub fn push_bytes(&mut self, bytes: &[u8])
        requires { length self.old + length bytes.now ≤ MOST_LINE }
        ensures { self.new ≡ self.old ++ bytes.now }
    {
        let end = self.end + bytes.len();
        self.bytes[self.end..end].copy_from_slice(bytes);
        self.end = end;
    }

    /// Adds a space and a word.
    pub fn push_word(&mut self, word: &[u8])
        requires { length self.old + 1 + length word.now ≤ MOST_LINE }
        ensures text { self.new ≡ self.old ++ codes " " ++ word.now }
        ensures len { length self.new ≡ length self.old + 1 + length word.now }
    {
        self.push_bytes(b" ");
        self.push_bytes(word);
    }

    /// Adds a space and a name, 65 bytes at most.
    #[tactic(auto, unfolding(act_model::specs::Name::has_form))]
    pub fn push_name(&mut self, name: &str)
        requires name { is_name name.now ≡ true }
        requires room { length self.old + 65 ≤ MOST_LINE }
        ensures text { self.new ≡ self.old ++ codes " " ++ name.now }
        ensures len { length self.new ≤ length self.old + 65 }
    {
        self.push_word(name.as_bytes());
    }

    /// Adds a day as `YYYY-MM-DD`, ten bytes.
    #[inline]
    pub fn push_day(&mut self, day: Day)
        requires { length self.old + 10 ≤ MOST_LINE }
        ensures text { self.new ≡ self.old ++ date_text day }
        ensures len { length self.new ≡ length self.old + 10 }
    {
        let mut text = [0; 10];
        day.write(&mut text);
        self.push_bytes(&text);
    }

    /// Writes another day in place of the first ten bytes.
    #[inline]
    pub(crate) fn set_day(&mut self, day: Day)
        requires { 10 ≤ length self.old }
        ensures { self.new ≡ date_text day ++ drop 10 self.old }
    {
        let mut text = [0; 10];
        day.write(&mut text);
        self.bytes[..10].copy_from_slice(&text);
    }

    /// Adds a space and a number, 42 bytes at most.
    pub fn push_number(&mut self, number: Fixed)
        requires { length self.old + 42 ≤ MOST_LINE }
        ensures text { self.new ≡ self.old ++ codes " " ++ printed number }
        ensures len { length self.new ≤ length self.old + 42 }
    {
        self.push_bytes(b" ");
        self.end = number.write_at(&mut self.bytes, self.end);
    }

    /// Adds a space and a number whose text is known, 42 bytes at most. All of the text's room is copied, and what is behind the text
    /// counts for nothing: that is quicker than to copy only so many bytes.
    pub(crate) fn push_known_number(&mut self, number: &NumberText)
        requires { length self.old + 1 + TEXT_ROOM ≤ MOST_LINE }
        ensures text { self.new ≡ self.old ++ codes " " ++ printed number.now }
        ensures len { length self.new ≤ length self.old + 42 }
    {
        self.push_bytes(b" ");
        self.push_first(number.bytes(), number.count());
    }

    /// Adds the first of some bytes, so many.
    #[inline(always)]
    fn push_first(&mut self, bytes: &[u8; TEXT_ROOM], count: usize)
        requires room { length self.old + TEXT_ROOM ≤ MOST_LINE }
        requires within { count ≤ TEXT_ROOM }
        ensures { self.new ≡ self.old ++ take count bytes.now }
    {
        let end = self.end + TEXT_ROOM;
        self.bytes[self.end..end].copy_from_slice(bytes);
        self.end += count;
    }

    /// Adds the line and its line feed to `out`. Where memory runs out, `out` is as before.
    pub fn end(mut self, out: &mut Vec<u8>) -> Result<(), NoMemory>
        requires { length self < MOST_LINE }
        ensures ok { OnOk result (out.new.items ≡ out.old.items ++ self ++ codes "\n") }
        ensures err { OnErr result (out.new.items ≡ out.old.items) }
    {
        self.push_bytes(b"\n");
        Ok(out.extend_from_slice(self.as_bytes())?)
    }
}
