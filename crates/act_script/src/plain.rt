//! Rates, prepayments and dividends in the form that they are mostly written in, `{"rate":{"code":..,"date":..,"value":..}}` and
//! `{"event":{"contract":..,"type":..,"date":..,"value":..}}` with these names in this order and all in quotes. They are read
//! without a JSON value; what is written otherwise is left to that.
ghost use Rattle.std.specs.Prelude.{◌≡◌, ◌∷◌, [], Some, codes, IfOk, IfSome, IsTrue};
ghost use Rattle.std.specs.Option.{ForSome};
ghost use Rattle.json.specs.Token.{begin_object, end_object, key, string};
ghost use Rattle.act_script.specs.Form.{form_of};
ghost use Rattle.act_script.specs.Plain.{event_tokens, plain_event, plain_kind, plain_rate, rate_tokens};

use crate::form::{Form, Name};
use act_date::parse_day;
use act_json::is_quoted;
use act_model::{ObsKind, is_name};
use act_num::{Fixed, NoMemory};
use json::{Reader, Scratch, Token};
use std::alloc::Global;

/// What a rate in that form begins with.
const RATE: &[u8] = b"{\"rate\"";

/// What an event in that form begins with. A line that begins with neither isn't looked at further.
const EVENT: &[u8] = b"{\"event\"";

/// The texts of a rate.
#[derive(Clone, Copy)]
struct RateTexts<'a> {
    code: &'a str,
    date: &'a str,
    value: &'a str,
}

/// The texts of an event.
#[derive(Clone, Copy)]
struct EventTexts<'a> {
    contract: &'a str,
    kind: &'a str,
    date: &'a str,
    value: &'a str,
}

/// What a line says, where it is written in one of these forms and each of its texts has its own. `scratch` is room for
/// reading.
pub(crate) fn plain_form(
    alloc: Global,
    line: &[u8],
    scratch: &mut Scratch,
) -> Result<Option<Form>, NoMemory>
    ensures { IfOk result (λ found. ForSome found (λ form. form_of line.now ≡ Some form)) }
{
    let is_rate = line.starts_with(RATE);
    if !is_rate && !line.starts_with(EVENT) {
        return Ok(None);
    }
    if !is_quoted(line) {
        return Ok(None);
    }
    let Ok(text) = str::from_utf8(line) else {
        return Ok(None);
    };
    let Ok(mut reader) = Reader::new(text, scratch) else {
        return Ok(None);
    };
    if is_rate {
        match rate_tokens(&mut reader) {
            Some(texts) => rate_of(alloc, texts),
            None => Ok(None),
        }
    } else {
        match event_tokens(&mut reader) {
            Some(texts) => event_of(alloc, texts),
            None => Ok(None),
        }
    }
}

/// The texts of a rate, whose tokens are all that is left.
fn rate_tokens<'a>(reader: &mut Reader<'a>) -> Option<RateTexts<'a>>
    ensures { IfSome result (λ texts. reader.old ≡ rate_tokens texts.code.now texts.date.now texts.value.now) }
{
    if !begins(reader, "rate") {
        return None;
    }
    let code = member(reader, "code")?;
    let date = member(reader, "date")?;
    let value = member(reader, "value")?;
    if ends(reader) {
        Some(RateTexts { code, date, value })
    } else {
        None
    }
}

/// The texts of an event, whose tokens are all that is left.
fn event_tokens<'a>(reader: &mut Reader<'a>) -> Option<EventTexts<'a>>
    ensures { IfSome result (λ texts. reader.old ≡ event_tokens texts.contract.now texts.kind.now texts.date.now texts.value.now) }
{
    if !begins(reader, "event") {
        return None;
    }
    let contract = member(reader, "contract")?;
    let kind = member(reader, "type")?;
    let date = member(reader, "date")?;
    let value = member(reader, "value")?;
    if ends(reader) {
        Some(EventTexts {
            contract,
            kind,
            date,
            value,
        })
    } else {
        None
    }
}

/// Whether the tokens up to the members of what has that name come next, which are then passed.
fn begins(reader: &mut Reader<'_>, name: &str) -> bool
    ensures { IsTrue result → reader.old ≡ begin_object ∷ key name.now ∷ begin_object ∷ reader.new }
{
    opens(reader) && names(reader, name) && opens(reader)
}

/// Whether the tokens behind the members are all that is left.
fn ends(reader: &mut Reader<'_>) -> bool
    ensures { IsTrue result → reader.old ≡ end_object ∷ end_object ∷ [] }
{
    closes(reader) && closes(reader) && reader.next().is_none()
}

/// The text of a member of that name, where it comes next; it is then passed.
fn member<'a>(reader: &mut Reader<'a>, name: &str) -> Option<&'a str>
    ensures { IfSome result (λ text. reader.old ≡ key name.now ∷ string text.now ∷ reader.new) }
{
    if !names(reader, name) {
        return None;
    }
    match reader.next() {
        Some(Token::String(text)) => Some(text),
        _ => None,
    }
}

/// Whether an object begins next; its brace is then passed.
fn opens(reader: &mut Reader<'_>) -> bool
    ensures { IsTrue result → reader.old ≡ begin_object ∷ reader.new }
{
    matches!(reader.next(), Some(Token::BeginObject))
}

/// Whether an object ends next; its brace is then passed.
fn closes(reader: &mut Reader<'_>) -> bool
    ensures { IsTrue result → reader.old ≡ end_object ∷ reader.new }
{
    matches!(reader.next(), Some(Token::EndObject))
}

/// Whether that name of a member comes next; it is then passed.
fn names(reader: &mut Reader<'_>, name: &str) -> bool
    ensures { IsTrue result → reader.old ≡ key name.now ∷ reader.new }
{
    match reader.next() {
        Some(Token::Key(key)) => key == name,
        _ => false,
    }
}

/// The rate of three texts, where each has its form.
#[tactic(auto, unfolding(crate::specs::Plain::plain_rate))]
fn rate_of(alloc: Global, texts: RateTexts<'_>) -> Result<Option<Form>, NoMemory>
    ensures { IfOk result (λ found. ForSome found (λ form. plain_rate texts.entry.code.now texts.entry.date.now texts.entry.value.now ≡ Some form)) }
{
    if !is_name(texts.code) {
        return Ok(None);
    }
    let Ok(day) = parse_day(texts.date.as_bytes()) else {
        return Ok(None);
    };
    let Ok(value) = Fixed::parse(texts.value.as_bytes()) else {
        return Ok(None);
    };
    let code = Name::new(alloc, texts.code)?;
    Ok(Some(Form::Rate { code, day, value }))
}

/// The event of four texts, where each has its form.
#[tactic(auto, unfolding(crate::specs::Plain::plain_event))]
fn event_of(alloc: Global, texts: EventTexts<'_>) -> Result<Option<Form>, NoMemory>
    ensures { IfOk result (λ found. ForSome found (λ form. plain_event texts.entry.contract.now texts.entry.kind.now texts.entry.date.now texts.entry.value.now ≡ Some form)) }
{
    if !is_name(texts.contract) {
        return Ok(None);
    }
    let Ok(day) = parse_day(texts.date.as_bytes()) else {
        return Ok(None);
    };
    let Some(kind) = plain_kind(texts.kind) else {
        return Ok(None);
    };
    let Ok(value) = Fixed::parse(texts.value.as_bytes()) else {
        return Ok(None);
    };
    let contract = Name::new(alloc, texts.contract)?;
    Ok(Some(Form::Event {
        contract,
        kind,
        day,
        value,
    }))
}

/// The kind of an event of that type, where its value is an amount.
fn plain_kind(event_type: &str) -> Option<ObsKind>
    ensures { result ≡ plain_kind event_type.now }
{
    match event_type {
        "PP" => Some(ObsKind::PP),
        "DV" => Some(ObsKind::DV),
        _ => None,
    }
}
