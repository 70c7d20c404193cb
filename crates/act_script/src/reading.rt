//! Reading a script.
ghost use Rattle.std.specs.Prelude.{◌≡◌, ◌≢◌, ◌+◌, ◌≤◌, Ok, Err, true, length, count_by, IfOk, IfErr, OnOk};
ghost use Rattle.std.specs.List.{All};
ghost use Rattle.std.specs.Option.{ok_or};
ghost use Rattle.act_script.specs.Form.{form_of};
ghost use Rattle.act_model.specs.Journal.{appends_entry, is_append, is_known};
ghost use Rattle.act_script.specs.Reading.{AddsCodes, script_of, with_text};
ghost use Rattle.act_script.specs.declared.fault.ScriptFault.TheVariants.{NotLine};

use crate::ScriptFault;
use crate::form::{Form, read_form};
use crate::lines::{first_line, is_blank};
use crate::step::{entries_with, step};
use act_json::JsonFault;
use act_model::{Line, MOST_BYTES, MOST_ENTRIES, Names, Terms};
use json::Scratch;
use std::alloc::Global;

/// The lines read so far, and how many entries all scripts have then.
#[derive(Drop)]
struct Script {
    lines: Vec<Line>,
    entries: u64,
}

/// The steps of a script's lines.
///
/// A line is a JSON object with exactly one name, in one of three forms, once bare numbers are in quotes:
/// `{"rate":{"code":..,"date":..,"value":..}}`, `{"event":{"contract":..,"type":..,"date":..,"value":..}}` and
/// `{"ask":..}`. Lines of spaces, tabs and carriage returns alone are passed over. `kinds` holds the terms of each
/// contract of `names` at its place. `entries` counts the entries of all scripts so far.
///
/// The first line that has a refusal decides, and of its refusals the first in the order NotLine, UnknownName,
/// EventUnfit, TooManyEntries. A refusal may leave codes added to `names`; `entries` is as before.
pub fn read_script(
    alloc: Global,
    bytes: &[u8],
    names: &mut Names,
    kinds: &[Terms],
    entries: &mut u64,
) -> Result<Vec<Line>, ScriptFault>
    requires size { length bytes.now ≤ MOST_BYTES }
    requires entries { entries.old ≤ MOST_ENTRIES }
    ensures script { IfOk result (λ lines. script_of bytes.now names.old kinds.now entries.old
        ≡ Ok (record { lines = lines.items; names = names.new; entries = entries.new })) }
    ensures refused { IfErr result (λ fault. fault ≢ ScriptFault.NoMemory
        → script_of bytes.now names.old kinds.now entries.old ≡ Err fault) }
    ensures known { IfOk result (λ lines. All (λ line. is_known names.new line.step ≡ true) lines.items) }
    ensures appended { IfOk result (λ lines. All (λ line. appends_entry line.step ≡ true) lines.items) }
    ensures counted { IfOk result (λ lines.
        entries.new ≡ entries.old + count_by (λ line. is_append line.step) lines.items) }
    ensures names { AddsCodes names.old names.new }
    ensures few_codes { OnOk result (length names.new.codes + entries.old ≤ length names.old.codes + entries.new) }
    ensures few_entries { entries.new ≤ MOST_ENTRIES }
    ensures entries { IfErr result (λ _. entries.new ≡ entries.old) }
{
    let mut script = Script {
        lines: Vec::new(alloc),
        entries: *entries,
    };
    let mut scratch = Scratch::new(alloc);
    let mut number = 0;
    let mut rest = Some(bytes);
    'lines: while let Some(text) = rest {
        let (line, behind) = first_line(text);
        number += 1;
        script.add(number, line, names, kinds, &mut scratch)?;
        rest = behind;
    }
    *entries = script.entries;
    Ok(script.lines)
}

impl Script {
    /// Adds the line of that number, unless it is blank. `scratch` is room for reading.
    #[tactic(auto, unfolding(crate::specs::Reading::with_line))]
    fn add(
        &mut self,
        number: u32,
        text: &[u8],
        names: &mut Names,
        kinds: &[Terms],
        scratch: &mut Scratch,
    ) -> Result<(), ScriptFault>
        ensures script { IfOk result (λ _.
            with_text kinds.now (record { lines = self.old.lines.items; names = names.old; entries = self.old.entries }) number text.now
            ≡ Ok (record { lines = self.new.lines.items; names = names.new; entries = self.new.entries })) }
        ensures refused { IfErr result (λ fault. fault ≢ ScriptFault.NoMemory →
            with_text kinds.now (record { lines = self.old.lines.items; names = names.old; entries = self.old.entries }) number text.now
            ≡ Err fault) }
        ensures names { AddsCodes names.old names.new }
        ensures few_codes { OnOk result
            (length names.new.codes + self.old.entries ≤ length names.old.codes + self.new.entries) }
        ensures few_entries { self.old.entries ≤ MOST_ENTRIES → self.new.entries ≤ MOST_ENTRIES }
    {
        if is_blank(text) {
            return Ok(());
        }
        let form = line_form(*self.lines.allocator(), number, text, scratch)?;
        let step = step(form, number, names, kinds)?;
        self.entries = entries_with(number, self.entries, &step)?;
        match self.lines.push(Line { step, line: number }) {
            Ok(()) => Ok(()),
            Err(_) => Err(ScriptFault::NoMemory),
        }
    }
}

/// What the line of that number says, or NotLine.
fn line_form(
    alloc: Global,
    number: u32,
    text: &[u8],
    scratch: &mut Scratch,
) -> Result<Form, ScriptFault>
    ensures { result ≢ Err ScriptFault.NoMemory → result ≡ ok_or (form_of text.now) (NotLine number) }
{
    match read_form(alloc, text, scratch) {
        Ok(form) => Ok(form),
        Err(JsonFault::NoMemory) => Err(ScriptFault::NoMemory),
        Err(_) => Err(ScriptFault::NotLine(number)),
    }
}
