//! Texts that are no JSON.

use crate::contracts::File;
use crate::grammar::{Cause, Fault, word_end};
use crate::message::Message;
use crate::place::{say_line_column, say_place};
use crate::scan::{Span, byte_at, is_space};

/// Says what is amiss in a text that is no JSON, and how to mend it.
pub(crate) fn say_syntax(message: &mut Message, file: File<'_>, fault: Fault) {
    say_place(message, file, fault.place);
    if let (Some(name), true) = (fault.name, is_of_value(fault.cause)) {
        message.show(name.of(file.bytes));
        message.say(": ");
    }
    match plain_words(fault.cause) {
        Some(words) => message.say(words),
        None => say_cause(message, file, fault),
    }
}

/// Whether a cause is one of a value, and not of what stands between values.
fn is_of_value(cause: Cause) -> bool {
    !matches!(
        cause,
        Cause::NoComma
            | Cause::NoColon
            | Cause::OtherEnd(_)
            | Cause::SecondComma
            | Cause::CommaBeforeEnd
            | Cause::Comment
    )
}

/// Says of a cause what is seen at its place.
fn say_cause(message: &mut Message, file: File<'_>, fault: Fault) {
    let place = fault.place;
    match fault.cause {
        Cause::NotUtf8 => {
            message.say("the byte ");
            message.hexadecimal(byte_at(file.bytes, place));
            message.say(" is no UTF-8: save the file as UTF-8");
        }
        Cause::BareWord => say_bare_word(message, file.bytes, place),
        Cause::BareName => {
            say_word(message, file.bytes, place);
            message.say(" stands where a name in double quotes was wanted, as \"currency\"");
        }
        Cause::NumberTail => {
            say_word(message, file.bytes, place);
            message.say(" stands behind a number");
            message.say(number_tail_words(byte_at(file.bytes, place)));
        }
        Cause::QuoteInside => {
            say_word(message, file.bytes, place);
            message.say(" stands directly behind a text: a quote within a text is written \\\"");
        }
        Cause::NoComma => {
            say_word(message, file.bytes, place);
            message.say(
                " stands where a comma or a closing bracket was wanted: is a comma missing at ",
            );
            say_line_column(message, file, end_before(file.bytes, place));
            message.say("?");
        }
        Cause::Control => {
            message.say("the control character ");
            message.show(byte(file.bytes, place));
            message.say(" stands in a text: take it away");
        }
        Cause::Escape => {
            message.say("\\");
            message.show(byte(file.bytes, place.saturating_add(1)));
            message.say(" is no escape: a backslash in a text is written twice, \\\\");
        }
        Cause::OtherEnd(start) => {
            message.say("\"");
            message.show(byte(file.bytes, place));
            message.say("\" stands here, and ");
            say_start(message, file, start);
            message.say(", before it or in its place");
        }
        Cause::Open(start) => {
            message.say("the file ends here, and ");
            say_start(message, file, start);
            message.say(", or the file was cut off");
        }
        Cause::Behind => say_behind(message, file.bytes, place),
        _ => {
            say_word(message, file.bytes, place);
            message.say(" can't stand here");
        }
    }
}

/// What is said of a cause that is all the same wherever it stands.
fn plain_words(cause: Cause) -> Option<&'static str> {
    let words = match cause {
        Cause::Empty => "nothing stands here but white space",
        Cause::Mark =>
            "the file begins with a byte order mark (EF BB BF): save it as UTF-8 without one",
        Cause::Utf16 => "the file is UTF-16: save it as UTF-8 without a byte order mark",
        Cause::Comment => "a comment stands here, and JSON has none: take it away",
        Cause::SingleQuote =>
            "a single quote stands here: names and texts stand in double quotes, as \"EUR\"",
        Cause::OtherQuote => {
            "a typographic quote stands here: names and texts stand in straight double quotes, as \"EUR\""
        }
        Cause::FirmSpace => "a no-break space stands here: take it away",
        Cause::SecondComma => "a second comma stands here: take it away",
        Cause::CommaBeforeEnd =>
            "a comma stands here, and a closing bracket behind it: take the comma away",
        Cause::TwoNumbers => "a blank stands within a number: write it without one, as 1000000",
        Cause::DecimalComma => {
            "a comma stands within a number: decimals stand behind a point, as 0.05, and no sign stands between thousands"
        }
        Cause::NoName => "a name in double quotes was wanted here, as \"currency\": \"EUR\"",
        Cause::NumberStart =>
            "a number begins with a digit or a minus: no plus stands before it, and 0 stands before a point",
        Cause::NoColon => "a colon was wanted here, between a name and its value",
        Cause::NoValue =>
            "a value was wanted here: a text in double quotes, a number, a list or an object",
        Cause::NoStart => "a closing bracket stands here, and none is open: take it away",
        Cause::LineEnd =>
            "the text that begins here has a line break in it: is a \" missing on its line?",
        Cause::OpenText => "nothing closes the text that begins here: close it with \"",
        Cause::Surrogate =>
            "this is half a character: write both halves, as \\ud83d\\ude00, or the character itself",
        Cause::TooDeep => "lists and objects stand more than 127 deep in one another here",
        _ => return None,
    };
    Some(words)
}

/// What is said of something behind a number, by its first byte.
fn number_tail_words(first: u8) -> &'static str {
    match first {
        b'%' => ": rates are parts of one, and 5 % is 0.05",
        b'\'' | b'_' => ": no sign stands between thousands",
        b'/' | b':' => "; a date is written \"2026-01-15\"",
        _ => ": write the number alone, as 1250.75",
    }
}

/// Says what stands behind the end of the whole value.
fn say_behind(message: &mut Message, text: &[u8], place: usize) {
    match byte_at(text, place) {
        b'[' => message.say(
            "a second list begins here: put all contracts in one [ ], with commas between",
        ),
        b'{' => message.say(
            "an object begins here, behind the end of the list: put all contracts in one [ ], with commas between",
        ),
        _ => {
            say_word(message, text, place);
            message.say(" stands behind the end of the list: take it away");
        }
    }
}

/// Says of a word without quotation marks how it has to be written.
fn say_bare_word(message: &mut Message, text: &[u8], place: usize) {
    let word = word(text, place);
    say_word(message, text, place);
    if word.eq_ignore_ascii_case(b"true") || word.eq_ignore_ascii_case(b"false") {
        message.say(" is no JSON: write it in small letters");
    } else if is_nothing(word) {
        message.say(" is no JSON: what isn't given is null, or left out");
    } else if word.iter().any(|byte| byte.is_ascii_digit()) && !word.is_ascii() {
        message.say(" is no JSON: an amount is a number alone, as 1250.75");
    } else {
        message.say(" stands without quotes: texts stand in double quotes, as \"EUR\"");
    }
}

/// Whether a word is one of those by which people and programs say that there is no value.
fn is_nothing(word: &[u8]) -> bool {
    ["none", "null", "nil", "nan", "undefined", "n/a", "na"]
        .iter()
        .any(|nothing| word.eq_ignore_ascii_case(nothing.as_bytes()))
}

/// The word that begins at a place, or the text.
fn word(text: &[u8], place: usize) -> &[u8] {
    let end = if byte_at(text, place) == b'"' {
        quote_end(text, place)
    } else {
        word_end(text, place)
    };
    Span { start: place, end }.of(text)
}

/// The place behind the next quotation mark behind a place, or the end.
fn quote_end(text: &[u8], place: usize) -> usize {
    for next in place.saturating_add(1)..text.len() {
        if text[next] == b'"' {
            return next.saturating_add(1);
        }
    }
    text.len()
}

/// Says the word that begins at a place, or its first byte.
fn say_word(message: &mut Message, text: &[u8], place: usize) {
    let word = word(text, place);
    message.show(if word.is_empty() {
        byte(text, place)
    } else {
        word
    });
}

/// The byte at a place.
fn byte(text: &[u8], place: usize) -> &[u8] {
    text.get(place..place.saturating_add(1)).unwrap_or(&[])
}

/// The place behind the last byte before a place that is no white space.
fn end_before(text: &[u8], place: usize) -> usize {
    for before in (0..place).rev() {
        if !is_space(byte_at(text, before)) {
            return before.saturating_add(1);
        }
    }
    0
}

/// Says which bracket is open, where, and what closes it.
fn say_start(message: &mut Message, file: File<'_>, start: usize) {
    message.say("\"");
    message.show(byte(file.bytes, start));
    message.say("\" of ");
    say_line_column(message, file, start);
    message.say(if byte_at(file.bytes, start) == b'{' {
        " is still open: write \"}\""
    } else {
        " is still open: write \"]\""
    });
}
