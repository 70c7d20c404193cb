//! Explanations, as they are put together.

use act_date::Day;
use itoa::Buffer;
use std::alloc::Global;
use std::str;

/// The most characters of a text that are shown.
const MOST_SHOWN: usize = 60;

/// An explanation of lines, as far as there is memory for it: what there is none for is left out.
#[derive(Drop)]
pub struct Message {
    text: String,
}

impl Message {
    /// An explanation that says nothing yet.
    pub fn new(alloc: Global) -> Message {
        Message {
            text: String::new(alloc),
        }
    }

    /// What it says.
    pub fn as_str(&self) -> &str {
        self.text.as_str()
    }

    /// Says words.
    pub fn say(&mut self, words: &str) {
        let _ = self.text.push_str(words);
    }

    /// Says some words one behind the other.
    pub fn say_all(&mut self, words: &[&str]) {
        for word in words {
            self.say(word);
        }
    }

    /// Says a number, with a comma before each three digits.
    pub fn number(&mut self, number: u64) {
        let mut buffer = Buffer::new();
        let digits = buffer.format(number);
        for (place, digit) in digits.chars().enumerate() {
            let left = digits.len().saturating_sub(place);
            if place > 0 && left % 3 == 0 {
                self.say(",");
            }
            self.character(digit);
        }
    }

    /// Says a number as it is.
    pub fn plain_number(&mut self, number: u64) {
        let mut buffer = Buffer::new();
        self.say(buffer.format(number));
    }

    /// Says a day.
    pub fn day(&mut self, day: Day) {
        let mut text = [b' '; 10];
        day.write(&mut text);
        self.show(&text);
    }

    /// Shows bytes of a file: at most 60 characters, with signs for those that can't be seen.
    pub fn show(&mut self, bytes: &[u8]) {
        match str::from_utf8(bytes) {
            Ok(text) => self.show_text(text),
            Err(_) => self.show_bytes(bytes),
        }
    }

    /// Shows a text.
    fn show_text(&mut self, text: &str) {
        for (place, character) in text.chars().enumerate() {
            if place >= MOST_SHOWN {
                return self.say("..");
            }
            self.show_character(character);
        }
    }

    /// Shows bytes that are no UTF-8.
    fn show_bytes(&mut self, bytes: &[u8]) {
        for (place, byte) in bytes.iter().enumerate() {
            if place >= MOST_SHOWN {
                return self.say("..");
            }
            if byte.is_ascii() {
                self.show_character(char::from(*byte));
            } else {
                self.say("\\x");
                self.hexadecimal(*byte);
            }
        }
    }

    /// Shows a character, by a sign where it can't be seen.
    fn show_character(&mut self, character: char) {
        match character {
            '\n' => self.say("\\n"),
            '\r' => self.say("\\r"),
            '\t' => self.say("\\t"),
            '\u{feff}' => self.say("\\ufeff"),
            '\u{a0}' => self.say("\\u00a0"),
            _ if character.is_control() => self.say("?"),
            _ => self.character(character),
        }
    }

    /// Says a character.
    pub(crate) fn character(&mut self, character: char) {
        let _ = self.text.push(character);
    }

    /// Says the two digits of a byte.
    pub fn hexadecimal(&mut self, byte: u8) {
        self.digit(byte / 16);
        self.digit(byte % 16);
    }

    /// Says a hexadecimal digit.
    fn digit(&mut self, digit: u8) {
        let place = usize::from(digit);
        self.say("0123456789ABCDEF".get(place..place + 1).unwrap_or("?"));
    }
}
