//! The quoting pass: bare numbers of a JSON text are put in quotes, so that they are read as texts.
ghost use Rattle.std.specs.Prelude.{◌≡◌, ◌==◌, ◌<◌, ◌≤◌, ◌++◌, length, take, drop, slice_index, true, false, IfOk, IsTrue};
ghost use Rattle.std.specs.List.{prefix_len};
ghost use Rattle.act_json.specs.Quoting.{is_number_byte, piece_len, quotation_mark, quoted, quoted_piece, starts_number, string_len};

use act_num::NoMemory;
use std::alloc::{AllocError, Global};

/// The bytes with each bare number in quotes: what stands inside strings is copied, and outside them each run
/// of the bytes of numbers, as long as it can be, that starts with a digit or a minus sign is quoted. In a
/// string a backslash and the byte behind it belong together.
pub fn quote(alloc: Global, bytes: &[u8]) -> Result<Vec<u8>, NoMemory>
    ensures { IfOk result (λ text. text.items ≡ quoted bytes.now) }
{
    let mut text = Vec::with_capacity(alloc, bytes.len() + bytes.len() / 8)?;
    let mut rest = bytes;
    'stretches: while !rest.is_empty() {
        let (between, behind) = rest.split_at(len_before_number(rest));
        let (number, behind) = behind.split_at(number_len(behind));
        text.extend_from_slice(between)?;
        push_number(&mut text, number)?;
        rest = behind;
    }
    Ok(text)
}

/// Whether no bare number stands in the bytes, so that the quoting pass leaves them as they are.
pub fn is_quoted(bytes: &[u8]) -> bool
    ensures { IsTrue result → quoted bytes.now ≡ bytes.now }
{
    len_before_number(bytes) == bytes.len()
}

/// Puts a number in quotes behind the text, or nothing where it is empty.
fn push_number(text: &mut Vec<u8>, number: &[u8]) -> Result<(), AllocError>
    requires { 0 < length number.now → starts_number (slice_index number.now 0) ≡ true }
    ensures { IfOk result (λ _. text.new.items ≡ text.old.items ++ quoted_piece number.now) }
{
    if number.is_empty() {
        return Ok(());
    }
    text.push(b'"')?;
    text.extend_from_slice(number)?;
    text.push(b'"')?;
    Ok(())
}

/// How many bytes stand before the first number outside strings, or how many there are where there is none. What mostly
/// stands there, strings and what is between them, is told apart first.
fn len_before_number(text: &[u8]) -> usize
    ensures within { result ≤ length text.now }
    ensures copied { quoted text.now ≡ take result text.now ++ quoted (drop result text.now) }
    ensures number { let behind = drop result text.now in
        0 < length behind → starts_number (slice_index behind 0) ≡ true }
{
    let mut len = 0;
    'pieces: while len < text.len() {
        if is_between(text[len]) {
            len += 1;
        } else if text[len] == b'"' {
            len += 1 + string_len(&text[len + 1..]);
        } else if is_number_start(text[len]) {
            return len;
        } else {
            len += piece_len(&text[len..]);
        }
    }
    len
}

/// The length of the piece that a text begins with: a string, a run of the bytes of numbers as long as it can
/// be, or one other byte.
fn piece_len(text: &[u8]) -> usize
    ensures length { result ≡ piece_len text.now }
    ensures within { result ≤ length text.now }
    ensures goes_on { 0 < length text.now → 0 < result }
{
    let [first, rest @ ..] = text else {
        return 0;
    };
    if *first == b'"' {
        1 + string_len(rest)
    } else if is_number_byte(*first) {
        number_len(text)
    } else {
        1
    }
}

/// The length of a string from behind its opening quote up to its closing one, or to the end of the text. A
/// backslash and the byte behind it belong together.
fn string_len(inside: &[u8]) -> usize
    ensures length { result ≡ string_len inside.now }
    ensures within { result ≤ length inside.now }
{
    let mut len = 0;
    'bytes: while len < inside.len() {
        match inside[len] {
            b'"' => return len + 1,
            b'\\' => len = (len + 2).min(inside.len()),
            _ => len += 1,
        }
    }
    len
}

/// How many bytes of numbers a text begins with.
fn number_len(text: &[u8]) -> usize
    ensures length { result ≡ prefix_len is_number_byte text.now }
    ensures within { result ≤ length text.now }
{
    text.iter()
        .take_while(|byte| is_number_byte(**byte))
        .count()
}

/// Whether a byte is one of those that mostly stand between strings: a line end, a space, a comma or a colon.
#[tactic(auto, unfolding(crate::specs::Quoting::is_number_byte, crate::specs::Quoting::starts_number))]
fn is_between(byte: u8) -> bool
    ensures no_quote { IsTrue result → (byte == quotation_mark) ≡ false }
    ensures no_number { IsTrue result → is_number_byte byte ≡ false }
    ensures no_start { IsTrue result → starts_number byte ≡ false }
{
    matches!(byte, b'\n' | b' ' | b',' | b':')
}

/// A byte that numbers are written with.
#[tactic(auto, unfolding(crate::specs::Quoting::is_number_byte))]
fn is_number_byte(byte: u8) -> bool
    ensures { result ≡ is_number_byte byte }
{
    is_number_start(byte) || matches!(byte, b'+' | b'.' | b'e' | b'E')
}

/// A byte that a number starts with.
#[tactic(auto, unfolding(crate::specs::Quoting::starts_number))]
fn is_number_start(byte: u8) -> bool
    ensures { result ≡ starts_number byte }
{
    matches!(byte, b'0'..=b'9' | b'-')
}
