//! Where the values of a JSON text stand. A text is scanned and not read: of one that is no JSON the answers are of no use.

use std::alloc::Global;

/// A stretch of a text: the place of its first byte, and that behind its last.
#[derive(Clone, Copy)]
pub(crate) struct Span {
    pub(crate) start: usize,
    pub(crate) end: usize,
}

impl Span {
    /// The bytes of a text that stand there.
    pub(crate) fn of(self, text: &[u8]) -> &[u8] {
        text.get(self.start..self.end).unwrap_or(&[])
    }
}

/// A member of an object: where its name stands, without its quotation marks, and its value.
#[derive(Clone, Copy)]
pub(crate) struct Member {
    pub(crate) name: Span,
    pub(crate) value: Span,
}

/// A pass over a text from where a value begins.
#[derive(Clone, Copy)]
struct Pass {
    /// In how many lists and objects it is.
    depth: usize,
    /// Whether it is inside a text, and behind a backslash there.
    in_text: bool,
    is_escaped: bool,
}

impl Pass {
    /// Before the first byte.
    fn new() -> Pass {
        Pass {
            depth: 0,
            in_text: false,
            is_escaped: false,
        }
    }

    /// Whether a byte is one of those that stand between values, and is not inside one.
    fn is_between(&self, byte: u8) -> bool {
        self.depth == 0 && !self.in_text && matches!(byte, b',' | b':' | b']' | b'}')
    }

    /// Passes a byte.
    fn pass(&mut self, byte: u8) {
        if self.is_escaped {
            self.is_escaped = false;
        } else if self.in_text {
            self.is_escaped = byte == b'\\';
            self.in_text = byte != b'"';
        } else {
            match byte {
                b'"' => self.in_text = true,
                b'[' | b'{' => self.depth = self.depth.saturating_add(1),
                b']' | b'}' => self.depth = self.depth.saturating_sub(1),
                _ => {}
            }
        }
    }
}

/// Whether a byte is white space of JSON.
pub(crate) fn is_space(byte: u8) -> bool {
    matches!(byte, b' ' | b'\t' | b'\n' | b'\r')
}

/// The place of the first byte from there on that is no white space, or the end.
pub(crate) fn skip_spaces(text: &[u8], from: usize) -> usize {
    for place in from..text.len() {
        if !is_space(text[place]) {
            return place;
        }
    }
    text.len()
}

/// The byte at a place, or 0 where there is none.
pub(crate) fn byte_at(text: &[u8], place: usize) -> u8 {
    text.get(place).copied().unwrap_or(0)
}

/// The place of the first byte from there on that stands between values, or the end.
fn value_end(text: &[u8], from: usize) -> usize {
    let mut pass = Pass::new();
    for place in from..text.len() {
        if pass.is_between(text[place]) {
            return place;
        }
        pass.pass(text[place]);
    }
    text.len()
}

/// A stretch without the white space at its ends.
pub(crate) fn trimmed(text: &[u8], from: usize, to: usize) -> Span {
    let start = skip_spaces(text, from);
    let mut end = to;
    for place in (start..to).rev() {
        if !is_space(byte_at(text, place)) {
            break;
        }
        end = place;
    }
    Span { start, end }
}

/// The value that begins behind a place.
pub(crate) fn value_from(text: &[u8], from: usize) -> Span {
    trimmed(text, from, value_end(text, skip_spaces(text, from)))
}

/// What stands between the commas of the list or the object that begins at a place.
fn parts(alloc: Global, text: &[u8], opening: usize) -> Vec<Span> {
    let mut parts = Vec::new(alloc);
    let mut pass = Pass::new();
    let mut start = opening.saturating_add(1);
    for place in start..text.len() {
        let byte = text[place];
        if pass.is_between(byte) && byte != b':' {
            let part = trimmed(text, start, place);
            if part.start < part.end && parts.push(part).is_err() {
                return parts;
            }
            if byte != b',' {
                return parts;
            }
            start = place.saturating_add(1);
        } else {
            pass.pass(byte);
        }
    }
    parts
}

/// The values of a list, or none where a value is no list.
pub(crate) fn items(alloc: Global, text: &[u8], list: Span) -> Vec<Span> {
    if byte_at(text, list.start) == b'[' {
        parts(alloc, text, list.start)
    } else {
        Vec::new(alloc)
    }
}

/// The members of an object, or none where a value is no object.
pub(crate) fn members(alloc: Global, text: &[u8], object: Span) -> Vec<Member> {
    let mut members = Vec::new(alloc);
    if byte_at(text, object.start) == b'{' {
        for part in &parts(alloc, text, object.start) {
            let colon = value_end(text, part.start);
            let name = trimmed(text, part.start, colon);
            let member = Member {
                name: inside(name),
                value: value_from(text, colon.saturating_add(1)),
            };
            if members.push(member).is_err() {
                return members;
            }
        }
    }
    members
}

/// A text without its quotation marks.
fn inside(text: Span) -> Span {
    Span {
        start: text.start.saturating_add(1),
        end: text.end.saturating_sub(1),
    }
}

/// The last of some members that has a name.
pub(crate) fn member_named(text: &[u8], members: &[Member], name: &str) -> Option<Member> {
    let mut found = None;
    for member in members {
        if member.name.of(text) == name.as_bytes() {
            found = Some(*member);
        }
    }
    found
}

/// The last member of an object that has a name.
pub(crate) fn member_of(alloc: Global, text: &[u8], object: Span, name: &str) -> Option<Member> {
    member_named(text, &members(alloc, text, object), name)
}

/// What a value says that is a text or a number: its bytes without quotation marks.
pub(crate) fn said(text: &[u8], value: Span) -> &[u8] {
    let bytes = value.of(text);
    match bytes {
        [b'"', inside @ .., b'"'] => inside,
        _ => bytes,
    }
}
