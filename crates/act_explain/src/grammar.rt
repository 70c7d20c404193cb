//! Why a text is no JSON: the first place where it isn't, and what is amiss there.

use crate::scan::{Span, byte_at, is_space, skip_spaces};
use std::alloc::Global;
use std::str;

/// The depth that lists and objects may nest.
const MOST_DEPTH: usize = 127;

/// The first place where a text is no JSON, and why.
#[derive(Clone, Copy)]
pub(crate) struct Fault {
    pub(crate) place: usize,
    pub(crate) cause: Cause,
    /// The name of the member whose value it is in, if it is in one.
    pub(crate) name: Option<Span>,
}

/// Why a text is no JSON.
#[derive(Clone, Copy)]
pub(crate) enum Cause {
    /// Nothing stands there but white space.
    Empty,
    /// A byte order mark.
    Mark,
    /// UTF-16.
    Utf16,
    /// A byte that is no UTF-8.
    NotUtf8,
    /// A comment.
    Comment,
    /// A single quotation mark.
    SingleQuote,
    /// Another sign of quotation than `"`.
    OtherQuote,
    /// A second comma, and one before a closing bracket.
    SecondComma,
    CommaBeforeEnd,
    /// A value or a name without a comma before it.
    NoComma,
    /// A number behind another one.
    TwoNumbers,
    /// A comma within a number.
    DecimalComma,
    /// A word without quotation marks where a value is wanted, and one where a name is.
    BareWord,
    BareName,
    /// Another value where a name is wanted.
    NoName,
    /// A number that begins with another sign than a digit or a minus.
    NumberStart,
    /// Something directly behind a number.
    NumberTail,
    /// No colon behind a name.
    NoColon,
    /// No value where one is wanted.
    NoValue,
    /// A closing bracket of another sort than the one that was opened there.
    OtherEnd(usize),
    /// A closing bracket where none was opened.
    NoStart,
    /// The end, while what was opened there is open.
    Open(usize),
    /// A text without a closing quotation mark, that begins here.
    OpenText,
    /// A line end in the text that begins here, and another control character in a text.
    LineEnd,
    Control,
    /// A space that doesn't break.
    FirmSpace,
    /// A word directly behind a text.
    QuoteInside,
    /// A backslash before another character than those that it may stand before.
    Escape,
    /// Half a pair of surrogates.
    Surrogate,
    /// Something behind the end of the value.
    Behind,
    /// Too many lists and objects in one another.
    TooDeep,
}

/// What may stand next.
#[derive(Clone, Copy, PartialEq, Eq)]
enum Next {
    /// A value; behind an opening bracket also the closing one.
    Value,
    ValueOrEnd,
    /// A name in an object, or its end.
    Name,
    NameOrEnd,
    Colon,
    /// A comma or the end of what is open.
    CommaOrEnd,
    /// The end of the text.
    End,
}

/// A pass over a text.
#[derive(Drop)]
struct Reader<'a> {
    text: &'a [u8],
    place: usize,
    next: Next,
    /// The places of the brackets that are open.
    open: Vec<usize>,
    /// Whether the last value was a number, as for a decimal comma.
    behind_number: bool,
    /// The name of the member whose value is read.
    name: Option<Span>,
}

/// Why a text is no JSON, once each bare number is in quotes.
pub(crate) fn first_fault(alloc: Global, text: &[u8]) -> Option<Fault> {
    if let Some(fault) = encoding_fault(text) {
        return Some(fault);
    }
    let mut reader = Reader {
        text,
        place: 0,
        next: Next::Value,
        open: Vec::new(alloc),
        behind_number: false,
        name: None,
    };
    for _ in 0..=text.len() {
        reader.place = skip_spaces(text, reader.place);
        if reader.place >= text.len() {
            break;
        }
        if let Some(cause) = reader.step() {
            return Some(Fault {
                place: reader.place,
                cause,
                name: reader.name,
            });
        }
    }
    reader.end_fault()
}

/// Why a text is not the UTF-8 that it has to be.
fn encoding_fault(text: &[u8]) -> Option<Fault> {
    let (place, cause) = match text {
        [0xef, 0xbb, 0xbf, ..] => (0, Cause::Mark),
        [0xff, 0xfe, ..] | [0xfe, 0xff, ..] => (0, Cause::Utf16),
        _ => match str::from_utf8(text) {
            Ok(_) => return None,
            Err(error) => (error.valid_up_to(), Cause::NotUtf8),
        },
    };
    Some(Fault {
        place,
        cause,
        name: None,
    })
}

impl Reader<'_> {
    /// Passes what stands at the place, or says why it may not.
    fn step(&mut self) -> Option<Cause> {
        let byte = byte_at(self.text, self.place);
        match byte {
            b'"' => self.pass_text(),
            b'[' | b'{' => self.pass_start(byte),
            b']' | b'}' => self.pass_end(byte),
            b',' => self.pass_comma(),
            b':' => self.pass_colon(),
            _ => self.pass_word(byte),
        }
    }

    /// Passes a text: a name or a value.
    fn pass_text(&mut self) -> Option<Cause> {
        let is_name = matches!(self.next, Next::Name | Next::NameOrEnd);
        if !is_name {
            if let Some(cause) = self.value_fault() {
                return Some(cause);
            }
        }
        match text_end(self.text, self.place) {
            Ok(end) => {
                let span = Span {
                    start: self.place,
                    end,
                };
                self.place = end;
                self.behind_number = false;
                if is_name {
                    self.next = Next::Colon;
                    self.name = Some(span);
                } else {
                    self.next = self.behind_value();
                }
                None
            }
            Err((place, cause)) => {
                self.place = place;
                Some(cause)
            }
        }
    }

    /// Why no value may stand here.
    fn value_fault(&self) -> Option<Cause> {
        match self.next {
            Next::Value | Next::ValueOrEnd => None,
            Next::Colon => Some(Cause::NoColon),
            Next::CommaOrEnd => Some(Cause::NoComma),
            Next::Name | Next::NameOrEnd => Some(Cause::NoName),
            Next::End => Some(Cause::Behind),
        }
    }

    /// What may stand behind a value.
    fn behind_value(&self) -> Next {
        if self.open.is_empty() {
            Next::End
        } else {
            Next::CommaOrEnd
        }
    }

    /// Passes an opening bracket.
    fn pass_start(&mut self, byte: u8) -> Option<Cause> {
        if let Some(cause) = self.value_fault() {
            return Some(cause);
        }
        if self.open.len() >= MOST_DEPTH {
            return Some(Cause::TooDeep);
        }
        let _ = self.open.push(self.place);
        self.name = None;
        self.next = if byte == b'{' {
            Next::NameOrEnd
        } else {
            Next::ValueOrEnd
        };
        self.pass(1)
    }

    /// Passes so many bytes.
    fn pass(&mut self, bytes: usize) -> Option<Cause> {
        self.place = self.place.saturating_add(bytes);
        self.behind_number = false;
        None
    }

    /// Passes a closing bracket.
    fn pass_end(&mut self, byte: u8) -> Option<Cause> {
        let Some(start) = self.open.last().copied() else {
            return Some(Cause::NoStart);
        };
        if (byte_at(self.text, start) == b'{') != (byte == b'}') {
            return Some(Cause::OtherEnd(start));
        }
        match self.next {
            Next::Value if self.is_behind(b',') => Some(self.step_back()),
            Next::Value => Some(Cause::NoValue),
            Next::Name => Some(self.step_back()),
            Next::Colon => Some(Cause::NoColon),
            _ => {
                let _ = self.open.pop();
                self.name = None;
                self.next = self.behind_value();
                self.pass(1)
            }
        }
    }

    /// The place of the last byte before this place that is no white space.
    fn place_before(&self) -> usize {
        for place in (0..self.place).rev() {
            if !is_space(byte_at(self.text, place)) {
                return place;
            }
        }
        0
    }

    /// Whether that byte stands before this place, but for white space.
    fn is_behind(&self, byte: u8) -> bool {
        byte_at(self.text, self.place_before()) == byte
    }

    /// Goes back to the comma before a closing bracket.
    fn step_back(&mut self) -> Cause {
        self.place = self.place_before();
        Cause::CommaBeforeEnd
    }

    /// Passes a comma.
    fn pass_comma(&mut self) -> Option<Cause> {
        match self.next {
            Next::CommaOrEnd => {
                let was_number = self.behind_number;
                self.next = match self.open.last() {
                    Some(start) if byte_at(self.text, *start) == b'{' => Next::Name,
                    _ => Next::Value,
                };
                self.place = self.place.saturating_add(1);
                let is_digit = byte_at(self.text, self.place).is_ascii_digit();
                if was_number && is_digit && self.next == Next::Name {
                    self.place = self.place.saturating_sub(1);
                    return Some(Cause::DecimalComma);
                }
                self.behind_number = false;
                self.name = None;
                None
            }
            Next::End => Some(Cause::Behind),
            Next::Colon => Some(Cause::NoColon),
            Next::Name | Next::Value if self.is_behind(b',') => Some(Cause::SecondComma),
            Next::Name | Next::NameOrEnd => Some(Cause::NoName),
            Next::Value | Next::ValueOrEnd => Some(Cause::NoValue),
        }
    }

    /// Passes a colon.
    fn pass_colon(&mut self) -> Option<Cause> {
        match self.next {
            Next::Colon => {
                self.next = Next::Value;
                self.pass(1)
            }
            Next::End => Some(Cause::Behind),
            Next::Name | Next::NameOrEnd => Some(Cause::NoName),
            Next::Value | Next::ValueOrEnd => Some(Cause::NoValue),
            Next::CommaOrEnd => Some(Cause::NoComma),
        }
    }

    /// Passes a number, `true`, `false` or `null`.
    fn pass_word(&mut self, first: u8) -> Option<Cause> {
        if self.behind_number
            && self.next == Next::CommaOrEnd
            && !is_comment(self.text, self.place)
        {
            return Some(if first.is_ascii_digit() {
                Cause::TwoNumbers
            } else {
                Cause::NumberTail
            });
        }
        if let Some(cause) = sign_fault(self.text, self.place) {
            return Some(cause);
        }
        if self.next == Next::CommaOrEnd
            && byte_at(self.text, self.place.saturating_sub(1)) == b'"'
        {
            return Some(Cause::QuoteInside);
        }
        if matches!(self.next, Next::Name | Next::NameOrEnd) {
            return Some(Cause::BareName);
        }
        if let Some(cause) = self.value_fault() {
            return Some(cause);
        }
        let is_number = first.is_ascii_digit() || first == b'-';
        let end = if is_number {
            number_end(self.text, self.place)
        } else {
            word_end(self.text, self.place)
        };
        let word = Span {
            start: self.place,
            end,
        }
        .of(self.text);
        if !is_number && !matches!(word, b"true" | b"false" | b"null") {
            return Some(if matches!(first, b'+' | b'.') {
                Cause::NumberStart
            } else {
                Cause::BareWord
            });
        }
        self.place = end;
        self.behind_number = is_number;
        self.next = self.behind_value();
        None
    }

    /// Why a text may not end here.
    fn end_fault(&self) -> Option<Fault> {
        let cause = match self.open.last() {
            Some(start) => Cause::Open(*start),
            None if self.next == Next::End => return None,
            None => Cause::Empty,
        };
        Some(Fault {
            place: self.text.len(),
            cause,
            name: None,
        })
    }
}

/// Whether a comment stands at a place.
fn is_comment(text: &[u8], place: usize) -> bool {
    matches!(sign_fault(text, place), Some(Cause::Comment))
}

/// Why no value can begin with a sign that people write and JSON hasn't.
fn sign_fault(text: &[u8], place: usize) -> Option<Cause> {
    match text.get(place..).unwrap_or(&[]) {
        [b'#', ..] | [b'/', b'/', ..] | [b'/', b'*', ..] => Some(Cause::Comment),
        [b'\'', ..] => Some(Cause::SingleQuote),
        [0xe2, 0x80, 0x98..=0x9f, ..] | [0xc2, 0xab | 0xbb, ..] => Some(Cause::OtherQuote),
        [0xc2, 0xa0, ..] => Some(Cause::FirmSpace),
        _ => None,
    }
}

/// The place behind the number that begins at a place.
fn number_end(text: &[u8], from: usize) -> usize {
    for place in from..text.len() {
        if !matches!(text[place], b'0'..=b'9' | b'-' | b'+' | b'.' | b'e' | b'E') {
            return place;
        }
    }
    text.len()
}

/// The place behind the word that begins at a place.
pub(crate) fn word_end(text: &[u8], from: usize) -> usize {
    for place in from..text.len() {
        if is_space(text[place])
            || matches!(text[place], b',' | b':' | b'[' | b']' | b'{' | b'}' | b'"')
        {
            return place;
        }
    }
    text.len()
}

/// The place behind the text that begins at a place, or where and why it is none.
fn text_end(text: &[u8], start: usize) -> Result<usize, (usize, Cause)> {
    let mut is_escaped = false;
    for place in start.saturating_add(1)..text.len() {
        let byte = text[place];
        if is_escaped {
            is_escaped = false;
            if let Some(cause) = escape_fault(text, place) {
                return Err((place.saturating_sub(1), cause));
            }
        } else {
            match byte {
                b'"' => return Ok(place.saturating_add(1)),
                b'\\' => is_escaped = true,
                b'\n' | b'\r' => return Err((start, Cause::LineEnd)),
                0..=0x1f => return Err((place, Cause::Control)),
                _ => {}
            }
        }
    }
    Err((start, Cause::OpenText))
}

/// Why no backslash may stand before the byte at a place.
fn escape_fault(text: &[u8], place: usize) -> Option<Cause> {
    match byte_at(text, place) {
        b'"' | b'\\' | b'/' | b'b' | b'f' | b'n' | b'r' | b't' => None,
        b'u' => match (unit_at(text, place), unit_behind(text, place)) {
            (None, _) => Some(Cause::Escape),
            (Some(0xd800..=0xdbff), Some(0xdc00..=0xdfff)) => None,
            (Some(0xdc00..=0xdfff), _) if is_second(text, place) => None,
            (Some(0xd800..=0xdfff), _) => Some(Cause::Surrogate),
            _ => None,
        },
        _ => Some(Cause::Escape),
    }
}

/// The number of the four hexadecimal digits behind a `u`.
fn unit_at(text: &[u8], place: usize) -> Option<u32> {
    let start = place.saturating_add(1);
    let digits = text.get(start..start.saturating_add(4))?;
    let mut unit = 0_u32;
    for digit in digits {
        unit = unit
            .saturating_mul(16)
            .saturating_add(char::from(*digit).to_digit(16)?);
    }
    Some(unit)
}

/// That of the escape that follows.
fn unit_behind(text: &[u8], place: usize) -> Option<u32> {
    let next = place.saturating_add(5);
    match text.get(next..next.saturating_add(2)) {
        Some([b'\\', b'u']) => unit_at(text, next.saturating_add(1)),
        _ => None,
    }
}

/// Whether an escape is the second one of a pair of surrogates.
fn is_second(text: &[u8], place: usize) -> bool {
    let before = place.saturating_sub(6);
    let is_escape = byte_at(text, before) == b'u'
        && byte_at(text, before.saturating_sub(1)) == b'\\';
    is_escape && matches!(unit_at(text, before), Some(0xd800..=0xdbff))
}
