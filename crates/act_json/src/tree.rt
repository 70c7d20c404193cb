//! JSON as a tree over borrowed text.
ghost use Rattle.std.specs.Prelude.{◌≡◌, ◌≢◌, ◌≤◌, Some, None, Err, IfOk, IfErr, OnOk, option_map, map, string_bytes};
ghost use Rattle.std.specs.Option.{ForSome};
ghost use Rattle.json.specs.Value.{items_view, members_view, value_view};
ghost use Rattle.serde_json.specs.Data.{object};
ghost use Rattle.serde_json.specs.Find.{as_array, as_object, get};
ghost use Rattle.serde_json.specs.Read.{read};
ghost use Rattle.serde_json.specs.View.{items_of};
ghost use Rattle.act_json.specs.Fields.{cycle_field, day_field, decimal_field, field_of, member_text, period_field, word_field};
ghost use Rattle.act_json.specs.Results.{result_map};
ghost use Rattle.act_json.specs.Tree.{data_in, has_number, items_have_number, json_as_is, members_have_number, object_in, object_of, tree_of};

use crate::JsonFault;
use crate::fields::{cycle_said, day_said, decimal_said, period_said, word_said};
use act_date::{Cycle, Day};
use act_num::Fixed;
use json::{Error, Reader, Scratch, Value};
use std::alloc::Global;
use std::str;

/// The depth that lists and objects may nest, as `serde_json` has it.
const MAX_DEPTH: usize = 127;

/// The members of an object: they stand in a tree, and their texts in what it was read from.
#[derive(Clone, Copy)]
pub struct Object<'v, 'a> {
    members: &'v [(&'a str, Value<'a>)],
}

/// The JSON tree that the bytes are read as where they stand, with no number put in quotes; NotJson exactly where they have
/// no reading by `serde_json`: they aren't UTF-8 or no JSON, lists and objects nest more than 127 deep, or a number is out of
/// range. Texts are borrowed from the bytes, and from the scratch where they have escapes.
pub fn read_tree<'a>(
    alloc: Global,
    bytes: &'a [u8],
    scratch: &'a mut Scratch,
) -> Result<Value<'a>, JsonFault>
    ensures { result ≢ Err JsonFault.NoMemory → result_map data_in result ≡ json_as_is bytes.now }
{
    let Ok(text) = str::from_utf8(bytes) else {
        return Err(JsonFault::NotJson);
    };
    let tree = tree_of(alloc, text, scratch)?;
    check_numbers(alloc, text, &tree)?;
    Ok(tree)
}

/// The tree that a text is, with its numbers as they are written.
fn tree_of<'a>(
    alloc: Global,
    text: &'a str,
    scratch: &'a mut Scratch,
) -> Result<Value<'a>, JsonFault>
    ensures value { IfOk result (λ tree. tree_of text.now ≡ Some (value_view tree)) }
    ensures refused { IfErr result (λ fault. fault ≢ JsonFault.NoMemory
        → (fault ≡ JsonFault.NotJson) × (tree_of text.now ≡ None)) }
{
    let Ok(mut reader) = Reader::new(text, scratch) else {
        return Err(JsonFault::NoMemory);
    };
    let tree = match Value::read(alloc, &mut reader, MAX_DEPTH) {
        Ok(tree) => tree,
        Err(Error::OutOfMemory) => return Err(JsonFault::NoMemory),
        Err(_) => return Err(JsonFault::NotJson),
    };
    if reader.next().is_some() {
        return Err(JsonFault::NotJson);
    }
    Ok(tree)
}

/// Refuses a text that is a tree where `serde_json` does, which is where a number is out of range. A text whose numbers are
/// all in quotes isn't read again.
fn check_numbers(alloc: Global, text: &str, tree: &Value<'_>) -> Result<(), JsonFault>
    requires { tree_of text.now ≡ Some (value_view tree.now) }
    ensures read { OnOk result (read text.now ≡ Some (data_in tree.now)) }
    ensures refused { IfErr result (λ fault. fault ≢ JsonFault.NoMemory
        → (fault ≡ JsonFault.NotJson) × (read text.now ≡ None)) }
{
    if !has_number(tree) {
        return Ok(());
    }
    match serde_json::Value::from_str(alloc, text) {
        Ok(value) => {
            drop(value);
            Ok(())
        }
        Err(error) if error.is_memory() => Err(JsonFault::NoMemory),
        Err(_) => Err(JsonFault::NotJson),
    }
}

/// The text that a member of a tree gives, where it is there. None where it is null or the empty text, and WrongShape where it
/// is another value than a text.
fn text_given<'a>(member: Option<&Value<'a>>) -> Result<Option<&'a str>, JsonFault>
    ensures { result_map (option_map (λ text. text.now)) result ≡ member_text (option_map (λ value. data_in value.now) member.entry) }
{
    match member {
        None | Some(Value::Null) => Ok(None),
        Some(Value::String(text)) if text.is_empty() => Ok(None),
        Some(Value::String(text)) => Ok(Some(*text)),
        Some(_) => Err(JsonFault::WrongShape),
    }
}

/// The items of a value that is a list, or None where it is none.
pub fn items_of<'v, 'a>(value: &'v Value<'a>) -> Option<&'v [Value<'a>]>
    ensures { option_map (λ items. items_of (map data_in items.now)) result ≡ as_array (data_in value.now) }
{
    match value {
        Value::Array(items) => Some(items.as_slice()),
        _ => None,
    }
}

/// What the last member of that name has, where a value is an object that has the name; else None.
pub fn member<'v, 'a>(value: &'v Value<'a>, name: &str) -> Option<&'v Value<'a>>
    ensures { option_map (λ value. data_in value.now) result ≡ get name.now (data_in value.now) }
{
    match Object::of(value) {
        Some(object) => object.get(name),
        None => None,
    }
}

/// The text of the field of that name, as [`text`](crate::text) has it of a value of `serde_json`.
pub fn text_within<'a>(value: &Value<'a>, name: &str) -> Result<Option<&'a str>, JsonFault>
    ensures { result_map (option_map (λ text. text.now)) result ≡ field_of name.now (data_in value.now) }
{
    match Object::of(value) {
        Some(object) => object.text(name),
        None => Err(JsonFault::WrongShape),
    }
}

impl<'v, 'a> Object<'v, 'a> {
    /// The members of a value that is an object, or None where it is none.
    pub fn of(value: &'v Value<'a>) -> Option<Object<'v, 'a>>
        ensures { option_map object_of result ≡ option_map object (as_object (data_in value.now)) }
    {
        match value {
            Value::Object(members) => Some(Object {
                members: members.as_slice(),
            }),
            _ => None,
        }
    }

    /// The members. Of those of one name the last counts.
    pub fn members(&self) -> &'v [(&'a str, Value<'a>)]
        ensures { object_in result.now ≡ object_of self.now }
    {
        self.members
    }

    /// What the last member of that name has, or None where there is none. Only names of its length are compared with it.
    pub fn get(&self, name: &str) -> Option<&'v Value<'a>>
        ensures { option_map (λ value. data_in value.now) result ≡ get name.now (object_of self.now) }
    {
        let mut left = self.members.len();
        while left > 0 {
            left -= 1;
            let member = &self.members[left];
            if member.0.len() == name.len() && member.0 == name {
                return Some(&member.1);
            }
        }
        None
    }

    /// The text of the field of that name, as [`text`](crate::text) has it of the object.
    #[tactic(auto, unfolding(crate::specs::Fields::field_of))]
    pub fn text(&self, name: &str) -> Result<Option<&'a str>, JsonFault>
        ensures { result_map (option_map (λ text. text.now)) result ≡ field_of name.now (object_of self.now) }
    {
        text_given(self.get(name))
    }

    /// The number of a field, as [`decimal`](crate::decimal) has it of the object.
    pub fn decimal(&self, name: &str) -> Result<Option<Fixed>, JsonFault>
        ensures { result ≡ decimal_field name.now (object_of self.now) }
    {
        decimal_said(self.text(name)?)
    }

    /// The day of a field, as [`day`](crate::day) has it of the object.
    pub fn day(&self, name: &str) -> Result<Option<Day>, JsonFault>
        ensures { result ≡ day_field name.now (object_of self.now) }
    {
        day_said(self.text(name)?)
    }

    /// The cycle of a field, as [`cycle`](crate::cycle) has it of the object.
    pub fn cycle(&self, name: &str) -> Result<Option<Cycle>, JsonFault>
        ensures value { result ≡ cycle_field name.now (object_of self.now) }
        ensures leads_on { IfOk result (λ found. ForSome found (λ c. 1 ≤ c.count)) }
    {
        cycle_said(self.text(name)?)
    }

    /// The period of a field, as [`period`](crate::period) has it of the object.
    pub fn period(&self, name: &str) -> Result<Option<Cycle>, JsonFault>
        ensures { result ≡ period_field name.now (object_of self.now) }
    {
        period_said(self.text(name)?)
    }

    /// The name that a field gives, as [`word`](crate::word) has it of the object.
    pub fn word(&self, alloc: Global, name: &str) -> Result<Option<String>, JsonFault>
        ensures { result ≢ Err JsonFault.NoMemory
            → result_map (option_map string_bytes) result ≡ word_field name.now (object_of self.now) }
    {
        word_said(alloc, self.text(name)?)
    }
}

/// Whether a bare number stands in a tree.
#[cycle(has_number)]
fn has_number(value: &Value<'_>) -> bool
    ensures { result ≡ has_number (value_view value.now) }
{
    match value {
        Value::Null | Value::Bool(_) | Value::String(_) => false,
        Value::Number(_) => true,
        Value::Array(items) => items_have_number(items),
        Value::Object(members) => members_have_number(members),
    }
}

/// Whether a bare number stands in the items of a list.
#[cycle(has_number)]
fn items_have_number(items: &[Value<'_>]) -> bool
    ensures { result ≡ items_have_number (items_view items.now) }
{
    for item in items {
        if has_number(item) {
            return true;
        }
    }
    false
}

/// Whether a bare number stands in the members of an object.
#[cycle(has_number)]
fn members_have_number(members: &[(&str, Value<'_>)]) -> bool
    ensures { result ≡ members_have_number (members_view members.now) }
{
    for (_, value) in members {
        if has_number(value) {
            return true;
        }
    }
    false
}
