//! Reading the lines of rows and of how they close.
ghost use Rattle.std.specs.Prelude.{◌≡◌, option_map};
ghost use Rattle.act_print.specs.LineWords.{close_of_line, missing_words, overflow_words, row_of_line, stop_words};
ghost use Rattle.act_print.specs.Words.{name_word, type_word, value_at};

use crate::printed::PrintedRow;
use crate::words::{
    code_at, currency_word, day_at, day_word, number_at, number_word, type_word, word_at,
};
use act_model::{Close, EventType, Names};

/// The row of a line.
#[tactic(auto, unfolding(crate::specs::LineWords::row_of_line))]
pub(crate) fn row_of_line(names: &Names, line: &[u8]) -> Option<PrintedRow>
    ensures { result ≡ row_of_line names.now line.now }
{
    let Some((day, rest)) = day_at(line) else {
        return None;
    };
    let (kind, rest) = type_at(rest)?;
    let (currency, rest) = currency_at(names, rest)?;
    let Some((payoff, rest)) = number_at(rest) else {
        return None;
    };
    let Some((nt, rest)) = number_at(rest) else {
        return None;
    };
    let Some((ipnr, rest)) = number_at(rest) else {
        return None;
    };
    let ipac = number_word(rest)?;
    Some(PrintedRow {
        day,
        kind,
        currency,
        payoff,
        nt,
        ipnr,
        ipac,
    })
}

/// A type of events, the first word of a text, and what stands behind it.
#[tactic(auto, unfolding(crate::specs::Words::value_at))]
fn type_at(text: &[u8]) -> Option<(EventType, &[u8])>
    ensures { option_map (λ v. (v.0, v.1.now)) result ≡ value_at type_word text.now }
{
    let (word, rest) = word_at(text)?;
    let kind = type_word(word)?;
    Some((kind, rest))
}

/// The number of a currency, whose name is the first word of a text, and what stands behind it.
#[tactic(auto, unfolding(crate::specs::Words::value_at))]
fn currency_at<'a>(names: &Names, text: &'a [u8]) -> Option<(u32, &'a [u8])>
    ensures { option_map (λ v. (v.0, v.1.now)) result ≡ value_at (name_word names.now.currencies) text.now }
{
    let (word, rest) = word_at(text)?;
    let currency = currency_word(names, word)?;
    Some((currency, rest))
}

/// How rows close, of a line.
#[tactic(auto, unfolding(crate::specs::LineWords::close_of_line))]
pub(crate) fn close_of_line(names: &Names, line: &[u8]) -> Option<Close>
    ensures { result ≡ close_of_line names.now line.now }
{
    if line == b"end".as_slice() {
        return Some(Close::End);
    }
    let (word, rest) = word_at(line)?;
    stop_of_words(names, word, rest)
}

/// How rows close, by the first word and what stands behind it.
#[tactic(auto, unfolding(crate::specs::LineWords::stop_words))]
fn stop_of_words(names: &Names, word: &[u8], text: &[u8]) -> Option<Close>
    ensures { result ≡ stop_words names.now word.now text.now }
{
    if word == b"missing".as_slice() {
        missing_of_words(names, text)
    } else if word == b"overflow".as_slice() {
        overflow_of_words(text)
    } else {
        None
    }
}

/// An observation that isn't there, behind its word.
#[tactic(auto, unfolding(crate::specs::LineWords::missing_words))]
fn missing_of_words(names: &Names, text: &[u8]) -> Option<Close>
    ensures { result ≡ missing_words names.now text.now }
{
    let (code, rest) = code_at(names, text)?;
    let day = day_word(rest)?;
    Some(Close::Missing { code, day })
}

/// An amount that is undefined, behind its word.
#[tactic(auto, unfolding(crate::specs::LineWords::overflow_words))]
fn overflow_of_words(text: &[u8]) -> Option<Close>
    ensures { result ≡ overflow_words text.now }
{
    let Some((day, rest)) = day_at(text) else {
        return None;
    };
    let kind = type_word(rest)?;
    Some(Close::Overflow { day, kind })
}
