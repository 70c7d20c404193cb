//! What a row's call is given, word by word, and what it tells.
use crate::signs::push_signs;
use act_date::{Day, parse_day};
use act_io::{FetchFault, Files};
use act_num::Fixed;
use std::alloc::Global;

/// The most bytes of a file of cases.
const MOST_BYTES: u64 = 1 << 24;

/// A row's call: what it is given, the words of it that haven't been read, and what it has told. Whoever reads or
/// tells goes on where something is wrong, which is told too, and the row then differs.
#[derive(Drop)]
pub struct Case<'a> {
    /// Where bytes are kept.
    pub alloc: Global,
    /// All that is given.
    pub given: &'a str,
    /// The words of its first line that haven't been read.
    rest: &'a str,
    /// What has been told.
    pub told: Vec<u8>,
    /// Whether there was trouble on the way, or memory ran out.
    pub is_wrong: bool,
}

impl<'a> Case<'a> {
    /// A call that is given a text.
    pub fn of(alloc: Global, given: &'a str) -> Case<'a> {
        Case {
            alloc,
            given,
            rest: given.split_once("\n").unwrap_or((given, "")).0,
            told: Vec::new(alloc),
            is_wrong: false,
        }
    }

    /// Tells of a trouble, with which the row differs.
    pub fn fail(&mut self, trouble: &str) {
        self.is_wrong = true;
        self.text(" trouble: ");
        self.text(trouble);
    }

    /// The next word, which has to be there.
    pub fn word(&mut self) -> &'a str {
        let (word, rest) = self.rest.split_once(" ").unwrap_or((self.rest, ""));
        self.rest = rest;
        if word.is_empty() {
            self.fail("a word lacks");
        }
        word
    }

    /// The number of a word.
    pub fn number_of(&mut self, word: &str) -> i128 {
        match word.parse::<i128>() {
            Ok(number) => number,
            Err(_) => {
                self.fail("a word is no number");
                0
            }
        }
    }

    /// The number of a word, from 0 on.
    pub fn place_of(&mut self, word: &str) -> u64 {
        match word.parse::<u64>() {
            Ok(place) => place,
            Err(_) => {
                self.fail("a word is no place");
                0
            }
        }
    }

    /// The count of a word.
    pub fn count_of(&mut self, word: &str) -> u32 {
        match word.parse::<u32>() {
            Ok(count) => count,
            Err(_) => {
                self.fail("a word is no count");
                0
            }
        }
    }

    /// The next word as a number.
    pub fn number(&mut self) -> i128 {
        let word = self.word();
        self.number_of(word)
    }

    /// The next word as a place from 0, or as a version.
    pub fn place(&mut self) -> u64 {
        let word = self.word();
        self.place_of(word)
    }

    /// The next word as a count.
    pub fn count(&mut self) -> u32 {
        let word = self.word();
        self.count_of(word)
    }

    /// The next word as numbers from 0 on with commas between them, or none of a dash.
    pub fn places(&mut self) -> Vec<u64> {
        let list = self.word();
        self.places_of(list)
    }

    /// Numbers from 0 on with commas between them, or none of a dash.
    pub fn places_of(&mut self, list: &str) -> Vec<u64> {
        let mut places = Vec::new(self.alloc);
        for word in list.split(',') {
            if word != "-" && places.push(self.place_of(word)).is_err() {
                self.is_wrong = true;
            }
        }
        places
    }

    /// The next word as a number in units.
    pub fn fixed(&mut self) -> Fixed {
        let word = self.word();
        self.fixed_of(word)
    }

    /// The number of so many units.
    pub fn fixed_of(&mut self, word: &str) -> Fixed {
        match Fixed::from_units(self.number_of(word)) {
            Some(fixed) => fixed,
            None => {
                self.fail("a number is out of range");
                Fixed::ZERO
            }
        }
    }

    /// The next word as a day, or None of a dash.
    pub fn day_or_none(&mut self) -> Option<Day> {
        let word = self.word();
        match parse_day(word.as_bytes()) {
            Ok(day) => Some(day),
            Err(_) => {
                if word != "-" {
                    self.fail("a word is no day");
                }
                None
            }
        }
    }

    /// The next word as a day. None is trouble.
    pub fn day(&mut self) -> Option<Day> {
        let found = self.day_or_none();
        if found.is_none() {
            self.fail("a word is no day");
        }
        found
    }

    /// The bytes of a text with signs.
    pub fn bytes_of(&mut self, text: &str) -> Vec<u8> {
        let mut bytes = Vec::new(self.alloc);
        if push_signs(self.alloc, &mut bytes, text).is_none() {
            self.fail("signs have another form, or memory ran out");
        }
        bytes
    }

    /// The bytes of all that is given.
    pub fn bytes(&mut self) -> Vec<u8> {
        self.bytes_of(self.given)
    }

    /// The bytes of a file, or None where there is none.
    pub fn found<F: Files>(&mut self, files: &mut F, name: &str) -> Option<Vec<u8>> {
        match files.fetch(self.alloc, name, MOST_BYTES) {
            Ok(bytes) => Some(bytes),
            Err(FetchFault::Failed) => None,
            Err(_) => {
                self.fail("a file is too long");
                None
            }
        }
    }

    /// The bytes of a file, which has to be there.
    pub fn file<F: Files>(&mut self, files: &mut F, name: &str) -> Vec<u8> {
        match self.found(files, name) {
            Some(bytes) => bytes,
            None => {
                self.fail("a file lacks");
                Vec::new(self.alloc)
            }
        }
    }

    /// Adds a file to files in memory.
    pub fn file_added(&mut self, files: &mut Vec<(String, Vec<u8>)>, name: &str, bytes: Vec<u8>) {
        let is_added = match String::from_str(self.alloc, name) {
            Ok(name) => files.push((name, bytes)).is_ok(),
            Err(_) => false,
        };
        self.is_wrong |= !is_added;
    }
}
