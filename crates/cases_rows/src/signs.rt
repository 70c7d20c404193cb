//! Bytes as they are written in a table, where signs stand for those that can't be seen, and changes in bytes.
use crate::case::Case;
use std::alloc::Global;

/// Adds the bytes of a text: `␠`, `␉`, `␊` and `␍` stand for a space, a tab, a line feed and a carriage return, `‹ff›` for
/// bytes in hexadecimal, and `«N×TEXT»` for TEXT so many times. None where signs have another form, or memory runs out.
pub fn push_signs(alloc: Global, bytes: &mut Vec<u8>, text: &str) -> Option<()> {
    let mut parts = text.split('«');
    push_plain(bytes, parts.next()?)?;
    for part in parts {
        let (repeat, behind) = part.split_once('»')?;
        let (times, once) = repeat.split_once('×')?;
        push_repeat(alloc, bytes, once, times.parse::<u32>().ok()?)?;
        push_plain(bytes, behind)?;
    }
    Some(())
}

/// Adds a text so many times.
fn push_repeat(alloc: Global, bytes: &mut Vec<u8>, once: &str, times: u32) -> Option<()> {
    let mut piece = Vec::new(alloc);
    push_plain(&mut piece, once)?;
    for _ in 0..times {
        bytes.extend_from_slice(&piece).ok()?;
    }
    Some(())
}

/// Adds the bytes of a text in which nothing is repeated.
fn push_plain(bytes: &mut Vec<u8>, text: &str) -> Option<()> {
    let mut parts = text.split('‹');
    push_seen(bytes, parts.next()?)?;
    for part in parts {
        let (digits, behind) = part.split_once('›')?;
        push_digits(bytes, digits)?;
        push_seen(bytes, behind)?;
    }
    Some(())
}

/// Adds the bytes of hexadecimal digits.
fn push_digits(bytes: &mut Vec<u8>, digits: &str) -> Option<()> {
    let mut digits = digits.chars();
    while let Some(high) = digits.next() {
        let (high, low) = (high.to_digit(16)?, digits.next()?.to_digit(16)?);
        let byte = high.wrapping_mul(16).wrapping_add(low);
        bytes.push(u8::try_from(byte).ok()?).ok()?;
    }
    Some(())
}

/// Adds characters, or what they stand for.
fn push_seen(bytes: &mut Vec<u8>, text: &str) -> Option<()> {
    for sign in text.chars() {
        let meant = match sign {
            '␠' => ' ',
            '␉' => '\t',
            '␊' => '\n',
            '␍' => '\r',
            '›' | '»' => return None,
            other => other,
        };
        bytes
            .extend_from_slice(meant.encode_utf8(&mut [0; 4]).as_bytes())
            .ok()?;
    }
    Some(())
}

/// Changes bytes: one text, an arrow, and another that takes its first place.
pub fn change(case: &mut Case<'_>, bytes: &mut Vec<u8>, change: &str) {
    let (from, to) = change.split_once(" -> ").unwrap_or(("", ""));
    let (from, to) = (case.bytes_of(from), case.bytes_of(to));
    if replace(case.alloc, bytes, &from, &to).is_none() {
        case.fail("what is to change lacks");
    }
}

/// Puts bytes in the first place of others; None where these lack, or memory runs out.
fn replace(alloc: Global, bytes: &mut Vec<u8>, from: &[u8], to: &[u8]) -> Option<()> {
    let mut made = Vec::new(alloc);
    let (before, behind) = parts_around(bytes, from)?;
    for part in &[before, to, behind] {
        made.extend_from_slice(part).ok()?;
    }
    *bytes = made;
    Some(())
}

/// What stands before and behind the first place of a mark, which isn't empty.
pub fn parts_around<'a>(bytes: &'a [u8], mark: &[u8]) -> Option<(&'a [u8], &'a [u8])> {
    for place in 0..bytes.len() {
        let (before, rest) = bytes.split_at(place);
        match rest.strip_prefix(mark) {
            Some(behind) if !mark.is_empty() => return Some((before, behind)),
            _ => {}
        }
    }
    None
}
