//! The fields of a JSON object. A field is given where the object has its name with another value than null and
//! the empty text.
ghost use Rattle.std.specs.Prelude.{◌≡◌, ◌≢◌, ◌≤◌, Ok, Err, IfOk, option_map, string_bytes};
ghost use Rattle.std.specs.Option.{ForSome, ok_or};
ghost use Rattle.std.specs.Result.{result_ok};
ghost use Rattle.act_num.specs.Decimal.{decimal_of};
ghost use Rattle.act_date.specs.CycleText.{cycle_of, period_of};
ghost use Rattle.act_date.specs.Text.{day_of};
ghost use Rattle.serde_json.specs.View.{view};
ghost use Rattle.act_json.specs.Fields.{cycle_field, day_field, decimal_field, field_of, meaning_of, member_text, name_of, period_field, word_field};
ghost use Rattle.act_json.specs.Results.{result_map};

use crate::JsonFault;
use act_date::{Cycle, Day, parse_cycle, parse_day, parse_period};
use act_model::is_name;
use act_num::Fixed;
use serde_json::Value;
use std::alloc::Global;

/// The text of the field of that name, or None where the value is an object in which it isn't given. WrongShape
/// where it is given and no text, or the value is no object.
pub fn text(alloc: Global, value: &Value, name: &str) -> Result<Option<String>, JsonFault>
    ensures { result ≢ Err JsonFault.NoMemory
        → result_map (option_map string_bytes) result ≡ field_of name.now (view value.now) }
{
    let Some(text) = text_in(value, name)? else {
        return Ok(None);
    };
    Ok(Some(owned(alloc, text)?))
}

/// The text of the field of that name, where it stands in the value; None and WrongShape as in [`text`]. It takes no memory.
#[tactic(auto, unfolding(crate::specs::Fields::field_of))]
fn text_in<'a>(value: &'a Value, name: &str) -> Result<Option<&'a str>, JsonFault>
    ensures { result_map (option_map (λ text. text.now)) result ≡ field_of name.now (view value.now) }
{
    if !value.is_object() {
        return Err(JsonFault::WrongShape);
    }
    text_given(value.get(name))
}

/// The text that a member gives, where it is there.
fn text_given(member: Option<&Value>) -> Result<Option<&str>, JsonFault>
    ensures { result_map (option_map (λ text. text.now)) result ≡ member_text (option_map (λ value. view value.now) member.entry) }
{
    match member {
        None | Some(Value::Null) => Ok(None),
        Some(Value::String(text)) if text.is_empty() => Ok(None),
        Some(Value::String(text)) => Ok(Some(text.as_str())),
        Some(_) => Err(JsonFault::WrongShape),
    }
}

/// The number of a field, from a decimal text. BadValue where the text has another form, or the number is out of
/// range; None and WrongShape as in [`text`].
pub fn decimal(value: &Value, name: &str) -> Result<Option<Fixed>, JsonFault>
    ensures { result ≡ decimal_field name.now (view value.now) }
{
    decimal_said(text_in(value, name)?)
}

/// The number that a text says, where it is given.
pub(crate) fn decimal_said(text: Option<&str>) -> Result<Option<Fixed>, JsonFault>
    ensures { result ≡ meaning_of (λ t. result_ok (decimal_of t)) JsonFault.BadValue (Ok (option_map (λ t. t.now) text.entry)) }
{
    let Some(text) = text else {
        return Ok(None);
    };
    Fixed::parse(text.as_bytes())
        .map(Some)
        .map_err(|_| JsonFault::BadValue)
}

/// The day of a field. BadValue where the text is no day from 1900 to 2299; None and WrongShape as in [`text`].
pub fn day(value: &Value, name: &str) -> Result<Option<Day>, JsonFault>
    ensures { result ≡ day_field name.now (view value.now) }
{
    day_said(text_in(value, name)?)
}

/// The day that a text says, where it is given.
pub(crate) fn day_said(text: Option<&str>) -> Result<Option<Day>, JsonFault>
    ensures { result ≡ meaning_of (λ t. result_ok (day_of t)) JsonFault.BadValue (Ok (option_map (λ t. t.now) text.entry)) }
{
    let Some(text) = text else {
        return Ok(None);
    };
    parse_day(text.as_bytes())
        .map(Some)
        .map_err(|_| JsonFault::BadValue)
}

/// The cycle of a field, whose period has at least one unit. BadValue where the text is no cycle; None and WrongShape
/// as in [`text`].
pub fn cycle(value: &Value, name: &str) -> Result<Option<Cycle>, JsonFault>
    ensures value { result ≡ cycle_field name.now (view value.now) }
    ensures leads_on { IfOk result (λ found. ForSome found (λ c. 1 ≤ c.count)) }
{
    cycle_said(text_in(value, name)?)
}

/// The cycle that a text says, where it is given.
pub(crate) fn cycle_said(text: Option<&str>) -> Result<Option<Cycle>, JsonFault>
    ensures value { result ≡ meaning_of (λ t. result_ok (cycle_of t)) JsonFault.BadValue (Ok (option_map (λ t. t.now) text.entry)) }
    ensures leads_on { IfOk result (λ found. ForSome found (λ c. 1 ≤ c.count)) }
{
    let Some(text) = text else {
        return Ok(None);
    };
    parse_cycle(text.as_bytes())
        .map(Some)
        .map_err(|_| JsonFault::BadValue)
}

/// The period of a field, which is a cycle whose count may be 0. BadValue where the text is no period; None and
/// WrongShape as in [`text`].
pub fn period(value: &Value, name: &str) -> Result<Option<Cycle>, JsonFault>
    ensures { result ≡ period_field name.now (view value.now) }
{
    period_said(text_in(value, name)?)
}

/// The period that a text says, where it is given.
pub(crate) fn period_said(text: Option<&str>) -> Result<Option<Cycle>, JsonFault>
    ensures { result ≡ meaning_of (λ t. result_ok (period_of t)) JsonFault.BadValue (Ok (option_map (λ t. t.now) text.entry)) }
{
    let Some(text) = text else {
        return Ok(None);
    };
    parse_period(text.as_bytes())
        .map(Some)
        .map_err(|_| JsonFault::BadValue)
}

/// The name that a field gives. BadName where the text is no name; None and WrongShape as in [`text`].
pub fn word(alloc: Global, value: &Value, name: &str) -> Result<Option<String>, JsonFault>
    ensures { result ≢ Err JsonFault.NoMemory
        → result_map (option_map string_bytes) result ≡ word_field name.now (view value.now) }
{
    word_said(alloc, text_in(value, name)?)
}

/// The name that a text is, where it is given.
pub(crate) fn word_said(alloc: Global, text: Option<&str>) -> Result<Option<String>, JsonFault>
    ensures { result ≢ Err JsonFault.NoMemory
        → result_map (option_map string_bytes) result ≡ meaning_of name_of JsonFault.BadName (Ok (option_map (λ t. t.now) text.entry)) }
{
    let Some(text) = text else {
        return Ok(None);
    };
    if !is_name(text) {
        return Err(JsonFault::BadName);
    }
    Ok(Some(owned(alloc, text)?))
}

/// What a required field gives. MissingTerm where it isn't given.
pub fn required<T>(found: Option<T>) -> Result<T, JsonFault>
    ensures { result ≡ ok_or found JsonFault.MissingTerm }
{
    found.ok_or(JsonFault::MissingTerm)
}

/// A copy of a text.
fn owned(alloc: Global, text: &str) -> Result<String, JsonFault>
    ensures { result ≢ Err JsonFault.NoMemory → result_map string_bytes result ≡ Ok text.now }
{
    String::from_str(alloc, text).map_err(|_| JsonFault::NoMemory)
}
