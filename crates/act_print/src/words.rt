//! Reading words.
ghost use Rattle.std.specs.Prelude.{◌≡◌, ℕ, ◌<◌, ◌^◌, ◌==◌, if◌then◌else◌, position, option_map, decimal, IfSome};
ghost use Rattle.std.specs.Str.{bytes_eq};
ghost use Rattle.act_num.specs.Decimal.{printed};
ghost use Rattle.act_date.specs.Text.{date_text};
ghost use Rattle.act_model.specs.Name.{is_name};
ghost use Rattle.act_text.specs.Lines.{type_text};
ghost use Rattle.act_print.specs.Words.{caller_word, count_word, day_word, name_word, number_word, type_word, value_at, word_at};

use act_date::{Day, parse_day};
use act_model::{EventType, Names, is_name};
use act_num::Fixed;
use act_text::type_word as word_of_type;
use itoa::Buffer;

/// The first word of a text that has a space behind it, and what stands behind the space.
#[tactic(auto, unfolding(crate::specs::Words::word_at))]
pub(crate) fn word_at(text: &[u8]) -> Option<(&[u8], &[u8])>
    ensures { option_map (λ w. (w.0.now, w.1.now)) result ≡ word_at text.now }
{
    let end = first_space(text)?;
    Some((&text[..end], &text[end + 1..]))
}

/// A number, the first word of a text, and what stands behind it.
#[tactic(auto, unfolding(crate::specs::Words::value_at))]
pub(crate) fn number_at(text: &[u8]) -> Option<(Fixed, &[u8])>
    ensures { option_map (λ v. (v.0, v.1.now)) result ≡ value_at number_word text.now }
{
    let (word, rest) = word_at(text)?;
    let number = number_word(word)?;
    Some((number, rest))
}

/// A day, the first word of a text, and what stands behind it.
#[tactic(auto, unfolding(crate::specs::Words::value_at))]
pub(crate) fn day_at(text: &[u8]) -> Option<(Day, &[u8])>
    ensures { option_map (λ v. (v.0, v.1.now)) result ≡ value_at day_word text.now }
{
    let (word, rest) = word_at(text)?;
    let day = day_word(word)?;
    Some((day, rest))
}

/// The number of a market object, whose name is the first word of a text, and what stands behind it.
#[tactic(auto, unfolding(crate::specs::Words::value_at))]
pub(crate) fn code_at<'a>(names: &Names, text: &'a [u8]) -> Option<(u32, &'a [u8])>
    ensures { option_map (λ v. (v.0, v.1.now)) result ≡ value_at (name_word names.now.codes) text.now }
{
    let (word, rest) = word_at(text)?;
    let code = code_word(names, word)?;
    Some((code, rest))
}

/// The place of the first space.
fn first_space(text: &[u8]) -> Option<usize>
    ensures { result ≡ position (λ byte. byte == 32) text.now }
{
    text.iter().position(|byte| *byte == b' ')
}

/// A number, as it is printed.
#[tactic(auto, unfolding(crate::specs::Words::number_word))]
pub(crate) fn number_word(word: &[u8]) -> Option<Fixed>
    ensures { result ≡ number_word word.now }
{
    let number = Fixed::parse(word).ok()?;
    is_number(number, word).then_some(number)
}

/// Whether a number is written so.
fn is_number(number: Fixed, word: &[u8]) -> bool
    ensures { result ≡ bytes_eq (printed number) word.now }
{
    let mut text = [0; 48];
    let end = number.write(&mut text);
    &text[..end] == word
}

/// A day, as it is printed.
#[tactic(auto, unfolding(crate::specs::Words::day_word))]
pub(crate) fn day_word(word: &[u8]) -> Option<Day>
    ensures { result ≡ day_word word.now }
{
    let day = parse_day(word).ok()?;
    is_day(day, word).then_some(day)
}

/// Whether a day is written so.
fn is_day(day: Day, word: &[u8]) -> bool
    ensures { result ≡ bytes_eq (date_text day) word.now }
{
    let mut text = [0; 10];
    day.write(&mut text);
    text.as_slice() == word
}

/// A count below 2^64, without leading zeros.
pub(crate) fn count_word(word: &[u8]) -> Option<u64>
    ensures { result ≡ count_word word.now }
{
    let count = plain_count(word)?;
    is_count(count, word).then_some(count)
}

/// The count that a text of digits writes.
fn plain_count(word: &[u8]) -> Option<u64>
    ensures count { (count : ℕ) → count < 2 ^ 64 → decimal count ≡ word.now → result ≡ Some count }
    ensures bound { IfSome result (λ count. count < 2 ^ 64) }
{
    let text = str::from_utf8(word).ok()?;
    text.parse::<u64>().ok()
}

/// Whether a count is written so.
fn is_count(count: u64, word: &[u8]) -> bool
    ensures { result ≡ bytes_eq (decimal count) word.now }
{
    let mut digits = Buffer::new();
    digits.format(count).as_bytes() == word
}

/// A caller, from 1 to 16.
#[tactic(auto, unfolding(crate::specs::Words::caller_word))]
pub(crate) fn caller_word(word: &[u8]) -> Option<u32>
    ensures { result ≡ caller_word word.now }
{
    let caller = count_word(word)?;
    if 1 <= caller && caller <= 16 {
        Some(caller as u32)
    } else {
        None
    }
}

/// The types of events.
const TYPES: [EventType; 19] = [
    EventType::IED,
    EventType::PR,
    EventType::PP,
    EventType::PY,
    EventType::FP,
    EventType::PRD,
    EventType::TD,
    EventType::IP,
    EventType::IPCI,
    EventType::RRF,
    EventType::RR,
    EventType::PRF,
    EventType::IPCB,
    EventType::SC,
    EventType::DV,
    EventType::MD,
    EventType::CE,
    EventType::XD,
    EventType::STD,
];

/// A type of events, by its word.
#[tactic(auto, unfolding(crate::specs::Words::type_word))]
pub(crate) fn type_word(word: &[u8]) -> Option<EventType>
    ensures { result ≡ type_word word.now }
{
    TYPES.iter().copied().find(|kind| is_type(*kind, word))
}

/// Whether a type of events is written so.
fn is_type(kind: EventType, word: &[u8]) -> bool
    ensures { result ≡ bytes_eq (type_text kind) word.now }
{
    word_of_type(kind) == word
}

/// The number of a contract's name.
#[tactic(auto, unfolding(crate::specs::Words::name_word))]
pub(crate) fn contract_word(names: &Names, word: &[u8]) -> Option<u32>
    ensures { result ≡ name_word names.now.contracts word.now }
{
    names.contract(name(word)?)
}

/// The number of a market object's name.
#[tactic(auto, unfolding(crate::specs::Words::name_word))]
pub(crate) fn code_word(names: &Names, word: &[u8]) -> Option<u32>
    ensures { result ≡ name_word names.now.codes word.now }
{
    names.find_code(name(word)?)
}

/// The number of a currency's name.
#[tactic(auto, unfolding(crate::specs::Words::name_word))]
pub(crate) fn currency_word(names: &Names, word: &[u8]) -> Option<u32>
    ensures { result ≡ name_word names.now.currencies word.now }
{
    names.find_currency(name(word)?)
}

/// The word as a text, where it is a name.
fn name(word: &[u8]) -> Option<&str>
    ensures { option_map (λ s. s.now) result ≡ (if is_name word.now then Some word.now else None) }
{
    let text = str::from_utf8(word).ok()?;
    if is_name(text) { Some(text) } else { None }
}
