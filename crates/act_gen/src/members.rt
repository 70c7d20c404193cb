//! JSON objects, added behind a text.
ghost use Rattle.std.specs.Prelude.{◌≡◌, ◌+◌, ◌%◌, ◌++◌, OnOk, decimal, map};
ghost use Rattle.act_gen.specs.Json.{member, object, quoted, rate_text, with_commas};
ghost use Rattle.act_gen.specs.Members.{comma_after, member_text, value_text};

use itoa::Buffer;
use std::alloc::AllocError;

/// The value of a member.
#[derive(Clone, Copy)]
pub enum Value<'a> {
    /// A text.
    Text(&'a str),
    /// A name: a letter and a number.
    Name(&'a str, u32),
    /// A whole number.
    Number(u32),
    /// A rate below 1, in units of 10^-4.
    Rate(u32),
}

/// Adds an object.
pub fn push_object(text: &mut Vec<u8>, members: &[(&str, Value)]) -> Result<(), AllocError>
    ensures { OnOk result (text.new.items ≡ text.old.items ++ object (map member_text members.now)) }
{
    text.push(b'{')?;
    push_members(text, members)?;
    text.push(b'}')?;
    Ok(())
}

/// Adds the members of an object, with commas between them.
pub fn push_members(text: &mut Vec<u8>, members: &[(&str, Value)]) -> Result<(), AllocError>
    ensures { OnOk result (text.new.items ≡ text.old.items ++ with_commas (map member_text members.now)) }
{
    'members: for (place, (name, value)) in members.iter().enumerate() {
        push_comma(text, place)?;
        push_member(text, name, *value)?;
    }
    Ok(())
}

/// Adds a name and its value.
#[tactic(auto, using(crate::proofs::Texts::put))]
fn push_member(text: &mut Vec<u8>, name: &str, value: Value) -> Result<(), AllocError>
    ensures { OnOk result (text.new.items ≡ text.old.items ++ member name.now (value_text value.entry)) }
{
    push_quoted(text, name.as_bytes())?;
    text.push(b':')?;
    push_value(text, value)
}

/// Adds the comma behind so many texts, which is none where there are no texts.
pub fn push_comma(text: &mut Vec<u8>, before: usize) -> Result<(), AllocError>
    ensures { OnOk result (text.new.items ≡ text.old.items ++ comma_after before) }
{
    if before > 0 {
        text.push(b',')?;
    }
    Ok(())
}

/// Adds a value.
fn push_value(text: &mut Vec<u8>, value: Value) -> Result<(), AllocError>
    ensures { OnOk result (text.new.items ≡ text.old.items ++ value_text value.entry) }
{
    match value {
        Value::Text(value) => push_quoted(text, value.as_bytes()),
        Value::Name(letter, number) => push_name(text, letter, number),
        Value::Number(number) => push_number(text, number),
        Value::Rate(rate) => push_rate(text, rate),
    }
}

/// Adds a text in double quotes.
fn push_quoted(text: &mut Vec<u8>, value: &[u8]) -> Result<(), AllocError>
    ensures { OnOk result (text.new.items ≡ text.old.items ++ quoted value.now) }
{
    text.push(b'"')?;
    text.extend_from_slice(value)?;
    text.push(b'"')?;
    Ok(())
}

/// Adds a letter and a number in double quotes.
fn push_name(text: &mut Vec<u8>, letter: &str, number: u32) -> Result<(), AllocError>
    ensures { OnOk result (text.new.items ≡ text.old.items ++ quoted (letter.now ++ decimal number)) }
{
    text.push(b'"')?;
    text.extend_from_slice(letter.as_bytes())?;
    push_number(text, number)?;
    text.push(b'"')?;
    Ok(())
}

/// Adds a whole number, without leading zeros.
fn push_number(text: &mut Vec<u8>, number: u32) -> Result<(), AllocError>
    ensures { OnOk result (text.new.items ≡ text.old.items ++ decimal number) }
{
    let mut digits = Buffer::new();
    text.extend_from_slice(digits.format(number).as_bytes())
}

/// Adds a rate below 1, in units of 10^-4, with four decimals.
pub fn push_rate(text: &mut Vec<u8>, rate: u32) -> Result<(), AllocError>
    ensures { OnOk result (text.new.items ≡ text.old.items ++ rate_text rate) }
{
    text.extend_from_slice(&[
        b'0',
        b'.',
        last_digit(rate / 1000),
        last_digit(rate / 100),
        last_digit(rate / 10),
        last_digit(rate),
    ])
}

/// The last decimal digit, as text.
fn last_digit(number: u32) -> u8
    ensures { result ≡ 48 + number % 10 }
{
    b'0' + (number % 10) as u8
}
