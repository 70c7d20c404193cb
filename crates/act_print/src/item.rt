//! The lines of a journal's items.
ghost use Rattle.std.specs.Prelude.{◌≡◌, ◌+◌, ◌<◌, ◌≤◌, [], ◌∷◌, ◌++◌, length, true, OnOk, OnErr, codes, decimal};
ghost use Rattle.act_num.specs.Decimal.{printed};
ghost use Rattle.act_date.specs.Text.{date_text};
ghost use Rattle.act_model.specs.Name.{is_name};
ghost use Rattle.act_model.specs.declared.journal.Step.TheVariants.{Append};
ghost use Rattle.act_text.specs.Lines.{line_of};
ghost use Rattle.act_print.specs.Text.{entry_words, item_text, kind_text, value_text};
ghost use Rattle.act_model.specs.Journal.{is_known};

use act_date::Day;
use act_model::{Asked, Item, Names, Obs, ObsKind, Step};
use act_num::{Fixed, NoMemory};
use act_text::{MOST_LINE, TextLine, code_name, contract_name};
use itoa::Buffer;

/// Adds the line of an item to `out`: the caller, and what it did. The code or the contract that the step names has a
/// name. Where memory runs out, `out` is as before.
#[tactic(auto, unfolding(crate::specs::Text::item_text, act_model::specs::Name::has_form))]
pub fn item_line(names: &Names, item: &Item, out: &mut Vec<u8>) -> Result<(), NoMemory>
    requires names { is_known names.now item.now.step ≡ true }
    ensures ok { OnOk result (out.new.items ≡ out.old.items ++ item_text names.now item.now) }
    ensures err { OnErr result (out.new.items ≡ out.old.items) }
{
    match item.step {
        Step::Append(entry) => entry_line(names, item.caller, entry, out),
        Step::Ask(Asked::All) => ask_line(item.caller, "*", out),
        Step::Ask(Asked::One(contract)) => {
            ask_line(item.caller, contract_name(names, contract), out)
        }
    }
}

/// Adds the line of an entry.
fn entry_line(names: &Names, caller: u32, entry: Obs, out: &mut Vec<u8>) -> Result<(), NoMemory>
    requires names { is_known names.now (Append entry) ≡ true }
    ensures ok { OnOk result (out.new.items
        ≡ out.old.items ++ line_of (decimal caller) (entry_words names.now entry)) }
    ensures err { OnErr result (out.new.items ≡ out.old.items) }
{
    match entry {
        Obs::Rate { code, day, value } => {
            rate_line(caller, code_name(names, code), day, value, out)
        }
        Obs::Event {
            contract,
            kind,
            day,
            value,
        } => event_line(
            caller,
            contract_name(names, contract),
            kind,
            day,
            value,
            out,
        ),
    }
}

/// Adds the line of a rate.
fn rate_line(
    caller: u32,
    code: &str,
    day: Day,
    value: Fixed,
    out: &mut Vec<u8>,
) -> Result<(), NoMemory>
    requires { is_name code.now ≡ true }
    ensures ok { OnOk result (out.new.items ≡ out.old.items
        ++ line_of (decimal caller) (codes "rate" ∷ code.now ∷ date_text day ∷ printed value ∷ [])) }
    ensures err { OnErr result (out.new.items ≡ out.old.items) }
{
    let mut line = caller_line(caller);
    line.push_word(b"rate");
    line.push_name(code);
    line.push_bytes(b" ");
    line.push_day(day);
    line.push_number(value);
    line.end(out)
}

/// Adds the line of an event of a contract.
fn event_line(
    caller: u32,
    contract: &str,
    kind: ObsKind,
    day: Day,
    value: Fixed,
    out: &mut Vec<u8>,
) -> Result<(), NoMemory>
    requires { is_name contract.now ≡ true }
    ensures ok { OnOk result (out.new.items ≡ out.old.items ++ line_of (decimal caller)
        (codes "event" ∷ contract.now ∷ kind_text kind ∷ date_text day ∷ value_text kind value ∷ [])) }
    ensures err { OnErr result (out.new.items ≡ out.old.items) }
{
    let mut line = caller_line(caller);
    line.push_word(b"event");
    line.push_name(contract);
    line.push_word(kind_word(kind));
    line.push_bytes(b" ");
    line.push_day(day);
    push_value(&mut line, kind, value);
    line.end(out)
}

/// Adds the line of an ask.
fn ask_line(caller: u32, asked: &str, out: &mut Vec<u8>) -> Result<(), NoMemory>
    requires { is_name asked.now ≡ true }
    ensures ok { OnOk result (out.new.items
        ≡ out.old.items ++ line_of (decimal caller) (codes "ask" ∷ asked.now ∷ [])) }
    ensures err { OnErr result (out.new.items ≡ out.old.items) }
{
    let mut line = caller_line(caller);
    line.push_word(b"ask");
    line.push_name(asked);
    line.end(out)
}

/// A line that begins with a caller's number.
fn caller_line(caller: u32) -> TextLine
    ensures text { result ≡ decimal caller }
    ensures len { length result ≤ 40 }
{
    let mut digits = Buffer::new();
    let mut line = TextLine::new();
    line.push_bytes(digits.format(caller).as_bytes());
    line
}

/// The word of an event's kind; the three credit events have one.
fn kind_word(kind: ObsKind) -> &'static [u8]
    ensures text { result.now ≡ kind_text kind }
    ensures short { length result.now ≡ 2 }
{
    match kind {
        ObsKind::PP => b"PP",
        ObsKind::DV => b"DV",
        ObsKind::XD => b"XD",
        ObsKind::DL | ObsKind::DQ | ObsKind::DF => b"CE",
    }
}

/// Adds a space and the value of an event: an amount, and of a credit event which one it is.
fn push_value(line: &mut TextLine, kind: ObsKind, value: Fixed)
    requires { length line.old + 42 ≤ MOST_LINE }
    ensures text { line.new ≡ line.old ++ codes " " ++ value_text kind value }
    ensures len { length line.new ≤ length line.old + 42 }
{
    match kind {
        ObsKind::PP | ObsKind::DV | ObsKind::XD => line.push_number(value),
        ObsKind::DL => line.push_word(b"DL"),
        ObsKind::DQ => line.push_word(b"DQ"),
        ObsKind::DF => line.push_word(b"DF"),
    }
}
