//! What a line says.
ghost use Rattle.std.specs.Prelude.{◌≡◌, ◌≢◌, true, Err, IfOk, codes, option_and_then, option_map, string_bytes};
ghost use Rattle.std.specs.Result.{result_ok};
ghost use Rattle.serde_json.specs.View.{view};
ghost use Rattle.act_json.specs.Fields.{day_field, decimal_field, field_of, word_field};
ghost use Rattle.act_model.specs.Name.{is_name};
ghost use Rattle.act_script.specs.Form.{ask_form, credit_kind, event_form, form_of, given, happening, named_form, only_member, rate_form};

use crate::plain::plain_form;
use act_date::Day;
use act_json::{JsonFault, day, decimal, read, required, text, word};
use act_model::{ObsKind, is_name};
use act_num::{Fixed, NoMemory};
use json::Scratch;
use serde_json::Value;
use std::alloc::Global;
use std::marker::Model;

/// A name that a line gives.
#[derive(Drop)]
pub(crate) struct Name {
    text: String,
}

impl Model for Name {
    ghost use Rattle.std.specs.Prelude.{◌≡◌, true, ℕ, List, string_bytes};
    ghost use Rattle.act_model.specs.Name.{is_name};

    ghost Value = { List ℕ };

    ghost view = { λ n. string_bytes n.text };

    ghost invariant = { λ n. is_name (string_bytes n.text) ≡ true };
}

impl Name {
    /// The name of a text.
    pub(crate) fn new(alloc: Global, text: &str) -> Result<Name, NoMemory>
        requires { is_name text.now ≡ true }
        ensures { IfOk result (λ name. name ≡ text.now) }
    {
        let text = String::from_str(alloc, text)?;
        Ok(Name { text })
    }

    /// Its text.
    pub(crate) fn as_str(&self) -> &str
        ensures text { result.now ≡ self.now }
        ensures name { is_name result.now ≡ true }
    {
        self.text.as_str()
    }
}

/// What a line says.
#[derive(Drop)]
pub(crate) enum Form {
    /// The value of a market object on a day.
    Rate {
        code: Name,
        day: Day,
        value: Fixed,
    },
    /// What a contract's parties did on a day.
    Event {
        contract: Name,
        kind: ObsKind,
        day: Day,
        value: Fixed,
    },
    /// Every named contract is asked for.
    AskAll,
    /// One contract is asked for.
    AskOne(Name),
}

/// What a line says, or a fault where it is of none of the forms. `scratch` is room for reading.
pub(crate) fn read_form(
    alloc: Global,
    line: &[u8],
    scratch: &mut Scratch,
) -> Result<Form, JsonFault>
    ensures { result ≢ Err JsonFault.NoMemory → result_ok result ≡ form_of line.now }
{
    match plain_form(alloc, line, scratch) {
        Ok(Some(form)) => Ok(form),
        Ok(None) => read_any_form(alloc, line),
        Err(_) => Err(JsonFault::NoMemory),
    }
}

/// What a line says, however it is written.
#[tactic(auto, unfolding(crate::specs::Form::form_of))]
fn read_any_form(alloc: Global, line: &[u8]) -> Result<Form, JsonFault>
    ensures { result ≢ Err JsonFault.NoMemory → result_ok result ≡ form_of line.now }
{
    let value = read(alloc, line)?;
    match only_member(&value) {
        Some((name, inner)) => named_form(alloc, name, inner),
        None => Err(JsonFault::WrongShape),
    }
}

/// The name and the value of an object that has exactly one name.
fn only_member(value: &Value) -> Option<(&str, &Value)>
    ensures { option_map (λ one. (one.0.now, view one.1.now)) result ≡ only_member (view value.now) }
{
    let object = value.as_object()?;
    if object.len() != 1 {
        return None;
    }
    let (name, inner) = object.first_key_value()?;
    Some((name.as_str(), inner))
}

/// What the one name of a line says, and its value.
#[tactic(auto, unfolding(crate::specs::Form::named_form))]
fn named_form(alloc: Global, name: &str, value: &Value) -> Result<Form, JsonFault>
    ensures { result ≢ Err JsonFault.NoMemory → result_ok result ≡ named_form name.now (view value.now) }
{
    match name {
        "rate" => rate_form(alloc, value),
        "event" => event_form(alloc, value),
        "ask" => ask_form(alloc, value),
        _ => Err(JsonFault::WrongShape),
    }
}

/// A rate.
#[tactic(auto, unfolding(crate::specs::Form::rate_form))]
fn rate_form(alloc: Global, rate: &Value) -> Result<Form, JsonFault>
    ensures { result ≢ Err JsonFault.NoMemory → result_ok result ≡ rate_form (view rate.now) }
{
    let code = name_field(alloc, rate, "code")?;
    match dated_value(rate) {
        Ok((day, value)) => Ok(Form::Rate { code, day, value }),
        Err(fault) => {
            drop(code);
            Err(fault)
        }
    }
}

/// The day and the value of a rate.
fn dated_value(rate: &Value) -> Result<(Day, Fixed), JsonFault>
    ensures { result_ok result ≡ option_and_then
        (λ day. option_map (λ value. (day, value)) (given (decimal_field (codes "value") (view rate.now))))
        (given (day_field (codes "date") (view rate.now))) }
{
    let day = day_given(rate)?;
    let value = value_given(rate)?;
    Ok((day, value))
}

/// An event.
#[tactic(auto, unfolding(crate::specs::Form::event_form))]
fn event_form(alloc: Global, event: &Value) -> Result<Form, JsonFault>
    ensures { result ≢ Err JsonFault.NoMemory → result_ok result ≡ event_form (view event.now) }
{
    let contract = name_field(alloc, event, "contract")?;
    match dated_happening(alloc, event) {
        Ok((day, (kind, value))) => Ok(Form::Event {
            contract,
            kind,
            day,
            value,
        }),
        Err(fault) => {
            drop(contract);
            Err(fault)
        }
    }
}

/// The day of an event, and what happened.
fn dated_happening(alloc: Global, event: &Value) -> Result<(Day, (ObsKind, Fixed)), JsonFault>
    ensures { result ≢ Err JsonFault.NoMemory → result_ok result ≡ option_and_then
        (λ day. option_map (λ what. (day, what)) (option_and_then (λ type. happening type (view event.now))
        (given (field_of (codes "type") (view event.now)))))
        (given (day_field (codes "date") (view event.now))) }
{
    let day = day_given(event)?;
    let event_type = text_given(alloc, event, "type")?;
    let what = happening(alloc, event_type.as_str(), event);
    drop(event_type);
    Ok((day, what?))
}

/// The kind and the value of an event, by its type.
#[tactic(auto, unfolding(crate::specs::Form::happening))]
fn happening(alloc: Global, event_type: &str, event: &Value) -> Result<(ObsKind, Fixed), JsonFault>
    ensures { result ≢ Err JsonFault.NoMemory → result_ok result ≡ happening event_type.now (view event.now) }
{
    match event_type {
        "PP" => Ok((ObsKind::PP, value_given(event)?)),
        "DV" => Ok((ObsKind::DV, value_given(event)?)),
        "XD" => Ok((ObsKind::XD, decimal(event, "value")?.unwrap_or(Fixed::ZERO))),
        "CE" => Ok((credit_event(alloc, event)?, Fixed::ZERO)),
        _ => Err(JsonFault::BadValue),
    }
}

/// Which credit event it is, by its value.
fn credit_event(alloc: Global, event: &Value) -> Result<ObsKind, JsonFault>
    ensures { result ≢ Err JsonFault.NoMemory
        → result_ok result ≡ option_and_then credit_kind (given (field_of (codes "value") (view event.now))) }
{
    let name = text_given(alloc, event, "value")?;
    let kind = credit_kind(name.as_str());
    drop(name);
    kind
}

/// The kind of a credit event, by its name.
#[tactic(auto, unfolding(crate::specs::Form::credit_kind))]
fn credit_kind(name: &str) -> Result<ObsKind, JsonFault>
    ensures kind { result_ok result ≡ credit_kind name.now }
    ensures fault { result ≢ Err JsonFault.NoMemory }
{
    match name {
        "DL" => Ok(ObsKind::DL),
        "DQ" => Ok(ObsKind::DQ),
        "DF" => Ok(ObsKind::DF),
        _ => Err(JsonFault::BadValue),
    }
}

/// An ask: a star for all, or the name of a contract.
#[tactic(auto, unfolding(crate::specs::Form::ask_form))]
fn ask_form(alloc: Global, ask: &Value) -> Result<Form, JsonFault>
    ensures { result ≢ Err JsonFault.NoMemory → result_ok result ≡ ask_form (view ask.now) }
{
    let Some(asked) = ask.as_str() else {
        return Err(JsonFault::WrongShape);
    };
    if !is_name(asked) {
        return Err(JsonFault::BadName);
    }
    if asked == "*" {
        return Ok(Form::AskAll);
    }
    match String::from_str(alloc, asked) {
        Ok(text) => Ok(Form::AskOne(Name { text })),
        Err(_) => Err(JsonFault::NoMemory),
    }
}

/// The day of a line, which has to give one.
fn day_given(line: &Value) -> Result<Day, JsonFault>
    ensures { result_ok result ≡ given (day_field (codes "date") (view line.now)) }
{
    required(day(line, "date")?)
}

/// The value of a line, which has to give one.
fn value_given(line: &Value) -> Result<Fixed, JsonFault>
    ensures { result_ok result ≡ given (decimal_field (codes "value") (view line.now)) }
{
    required(decimal(line, "value")?)
}

/// The text that a field has to give.
fn text_given(alloc: Global, line: &Value, field: &str) -> Result<String, JsonFault>
    ensures { result ≢ Err JsonFault.NoMemory
        → option_map string_bytes (result_ok result) ≡ given (field_of field.now (view line.now)) }
{
    required(text(alloc, line, field)?)
}

/// The name that a field has to give.
fn name_field(alloc: Global, value: &Value, field: &str) -> Result<Name, JsonFault>
    ensures { result ≢ Err JsonFault.NoMemory → result_ok result ≡ given (word_field field.now (view value.now)) }
{
    let text = required(word(alloc, value, field)?)?;
    Ok(Name { text })
}
