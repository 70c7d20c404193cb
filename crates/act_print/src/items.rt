//! Reading the lines of a journal.
ghost use Rattle.std.specs.Prelude.{◌≡◌, option_map};
ghost use Rattle.act_print.specs.Giving.{Gives};
ghost use Rattle.act_print.specs.Reading.{items_at};
ghost use Rattle.act_print.specs.LineWords.{ask_words, count_of_line, credit_word, event_words, happening_words, item_of_line, rate_words, step_of_words};
ghost use Rattle.act_print.specs.Words.{number_word};

use crate::line_fault::LineFault;
use crate::reader::Reader;
use crate::words::{caller_word, code_at, contract_word, count_word, day_at, number_word, word_at};
use act_model::{Asked, Item, Names, Obs, ObsKind, Step};
use act_num::Fixed;
use std::alloc::Global;

/// The count of a journal's items, of the line above them.
#[tactic(auto, unfolding(crate::specs::LineWords::count_of_line))]
pub(crate) fn count_of_line(line: &[u8]) -> Option<u64>
    ensures { result ≡ count_of_line line.now }
{
    let (word, rest) = word_at(line)?;
    if word == b"journal".as_slice() {
        count_word(rest)
    } else {
        None
    }
}

/// So many items.
pub(crate) fn read_items(
    reader: &mut Reader,
    alloc: Global,
    names: &Names,
    count: u64,
) -> Result<Vec<Item>, LineFault>
    ensures { Gives (λ items. items.items) result reader.new (items_at names.now count reader.old) }
{
    let mut items = Vec::new(alloc);
    'items: for _ in 0..count {
        reader.push_item(names, &mut items)?;
    }
    Ok(items)
}

/// The item of a line.
#[tactic(auto, unfolding(crate::specs::LineWords::item_of_line, crate::specs::Words::value_at))]
pub(crate) fn item_of_line(names: &Names, line: &[u8]) -> Option<Item>
    ensures { result ≡ item_of_line names.now line.now }
{
    let (word, rest) = word_at(line)?;
    let caller = caller_word(word)?;
    let (word, rest) = word_at(rest)?;
    let step = step_of_words(names, word, rest)?;
    Some(Item { caller, step })
}

/// A step, by its first word and what stands behind it.
#[tactic(auto, unfolding(crate::specs::LineWords::step_of_words))]
fn step_of_words(names: &Names, word: &[u8], text: &[u8]) -> Option<Step>
    ensures { result ≡ step_of_words names.now word.now text.now }
{
    if word == b"rate".as_slice() {
        rate_of_words(names, text)
    } else if word == b"event".as_slice() {
        event_of_words(names, text)
    } else if word == b"ask".as_slice() {
        ask_of_words(names, text)
    } else {
        None
    }
}

/// A rate, behind its word.
#[tactic(auto, unfolding(crate::specs::LineWords::rate_words))]
fn rate_of_words(names: &Names, text: &[u8]) -> Option<Step>
    ensures { result ≡ rate_words names.now text.now }
{
    let (code, rest) = code_at(names, text)?;
    let Some((day, rest)) = day_at(rest) else {
        return None;
    };
    let value = number_word(rest)?;
    Some(Step::Append(Obs::Rate { code, day, value }))
}

/// An event, behind its word.
#[tactic(auto, unfolding(crate::specs::LineWords::event_words, crate::specs::Words::value_at))]
fn event_of_words(names: &Names, text: &[u8]) -> Option<Step>
    ensures { result ≡ event_words names.now text.now }
{
    let (word, rest) = word_at(text)?;
    let contract = contract_word(names, word)?;
    let (kind, rest) = word_at(rest)?;
    let Some((day, rest)) = day_at(rest) else {
        return None;
    };
    let (kind, value) = happening_of_words(kind, rest)?;
    Some(Step::Append(Obs::Event {
        contract,
        kind,
        day,
        value,
    }))
}

/// The kind and the value of an event, by their words.
#[tactic(auto, unfolding(crate::specs::LineWords::happening_words))]
fn happening_of_words(kind: &[u8], value: &[u8]) -> Option<(ObsKind, Fixed)>
    ensures { result ≡ happening_words kind.now value.now }
{
    if kind == b"PP".as_slice() {
        amount_of_word(ObsKind::PP, value)
    } else if kind == b"DV".as_slice() {
        amount_of_word(ObsKind::DV, value)
    } else if kind == b"XD".as_slice() {
        amount_of_word(ObsKind::XD, value)
    } else if kind == b"CE".as_slice() {
        Some((credit_of_word(value)?, Fixed::ZERO))
    } else {
        None
    }
}

/// A kind of event with the amount of a word.
fn amount_of_word(kind: ObsKind, word: &[u8]) -> Option<(ObsKind, Fixed)>
    ensures { result ≡ option_map (λ amount. (kind, amount)) (number_word word.now) }
{
    Some((kind, number_word(word)?))
}

/// A credit event, by its word.
#[tactic(auto, unfolding(crate::specs::LineWords::credit_word))]
fn credit_of_word(word: &[u8]) -> Option<ObsKind>
    ensures { result ≡ credit_word word.now }
{
    if word == b"DL".as_slice() {
        Some(ObsKind::DL)
    } else if word == b"DQ".as_slice() {
        Some(ObsKind::DQ)
    } else if word == b"DF".as_slice() {
        Some(ObsKind::DF)
    } else {
        None
    }
}

/// What is asked for.
#[tactic(auto, unfolding(crate::specs::LineWords::ask_words))]
fn ask_of_words(names: &Names, word: &[u8]) -> Option<Step>
    ensures { result ≡ ask_words names.now word.now }
{
    if word == b"*".as_slice() {
        return Some(Step::Ask(Asked::All));
    }
    let contract = contract_word(names, word)?;
    Some(Step::Ask(Asked::One(contract)))
}
