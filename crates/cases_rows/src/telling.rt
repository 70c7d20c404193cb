//! What a row's call tells, as bytes.
use crate::case::Case;
use act_date::Day;
use act_num::Fixed;
use std::fmt::Debug;
use std::io::Write as _;

impl Case<'_> {
    /// Tells bytes.
    pub fn bytes_told(&mut self, bytes: &[u8]) {
        if self.told.extend_from_slice(bytes).is_err() {
            self.is_wrong = true;
        }
    }

    /// Tells a text.
    pub fn text(&mut self, text: &str) {
        self.bytes_told(text.as_bytes());
    }

    /// Tells a number, or a value by its name in the code.
    pub fn value<T: Debug + Drop>(&mut self, value: T) {
        if write!(self.told, "{value:?}").is_err() {
            self.is_wrong = true;
        }
    }

    /// Tells what stands between one thing and the next, where one has been told.
    pub fn next(&mut self, between: &str) {
        if !self.told.is_empty() {
            self.text(between);
        }
    }

    /// Tells the units of a number, or `none`.
    pub fn units(&mut self, found: Option<Fixed>) {
        match found {
            Some(found) => self.value(found.units()),
            None => self.text("none"),
        }
    }

    /// Tells an amount of nine decimals.
    pub fn amount(&mut self, amount: Fixed) {
        let mut written = [0; 48];
        let length = amount.write(&mut written);
        self.bytes_told(&written[..length]);
    }

    /// Tells a day.
    pub fn day_told(&mut self, day: Day) {
        let mut written = [0; 10];
        day.write(&mut written);
        self.bytes_told(&written);
    }

    /// Tells the lines of a text, below what has been told: the last of them ends too.
    pub fn lines(&mut self, text: &[u8]) {
        if !text.is_empty() {
            self.next("\n");
        }
        match text.strip_suffix(b"\n") {
            Some(lines) => self.bytes_told(lines),
            None => {
                self.bytes_told(text);
                if !text.is_empty() {
                    self.text(" and no line feed");
                }
            }
        }
    }
}
