//! Names that are like one another.

use crate::message::Message;
use std::alloc::Global;
use std::str;
use strsim::damerau_levenshtein;

/// The most bytes of a name that is compared.
const MOST_COMPARED: usize = 64;

/// The one of some names that a name is like, if it is like one: it is written otherwise, or a few letters differ.
pub(crate) fn nearest<'a>(alloc: Global, name: &[u8], among: &[&'a str]) -> Option<&'a str> {
    let mut best = None;
    let mut least = limit(name);
    for candidate in among {
        match distance(alloc, name, candidate.as_bytes()) {
            Some(distance) if distance <= least => {
                if distance < least || best.is_none() {
                    best = Some(*candidate);
                }
                least = distance;
            }
            _ => {}
        }
    }
    best
}

/// How many letters may differ in a name.
fn limit(name: &[u8]) -> usize {
    match name.len() {
        0..=2 => 0,
        3..=5 => 1,
        6..=11 => 2,
        _ => 3,
    }
}

/// How many letters differ in two names, but for their case and what stands between words; None where they aren't compared.
pub(crate) fn distance(alloc: Global, name: &[u8], other: &[u8]) -> Option<usize> {
    if name.len() > MOST_COMPARED || name.len().abs_diff(other.len()) > 8 {
        return None;
    }
    let name = folded(alloc, name)?;
    let other = folded(alloc, other)?;
    damerau_levenshtein(alloc, name.as_str(), other.as_str()).ok()
}

/// The letters and digits of a name, in small letters; None of one that has no text.
fn folded(alloc: Global, name: &[u8]) -> Option<String> {
    let mut folded = String::new(alloc);
    for character in str::from_utf8(name).ok()?.chars() {
        if !matches!(character, '_' | '-' | ' ' | '.' | '/') {
            folded.push(character.to_ascii_lowercase()).ok()?;
        }
    }
    Some(folded)
}

/// Asks whether a name was meant, if there is one.
pub(crate) fn say_meant(message: &mut Message, meant: Option<&str>) {
    if let Some(meant) = meant {
        message.say_all(&[": did you mean ", meant, "?"]);
    }
}
