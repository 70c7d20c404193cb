//! Reading a text.
ghost use Rattle.std.specs.Prelude.{◌≡◌, ℕ, ◌-◌, ◌^◌, ◌<◌, ◌≤◌, length, List, IfOk, IfErr, option_map};
ghost use Rattle.act_model.specs.Names.{NameLists};
ghost use Rattle.act_print.specs.Conditions.{ContractsNamed};
ghost use Rattle.act_print.specs.Faults.{GivesBack, IsFaultOf, IsTextOf, lines_of};
ghost use Rattle.act_print.specs.Giving.{BeginsWithJournal, Finishes, PointsAt};
ghost use Rattle.act_print.specs.Laws.{OneJournal};
ghost use Rattle.act_print.specs.Printed.{Transcript};

use crate::TextFault;
use crate::line_fault::LineFault;
use crate::lines::{count_lines, is_ended};
use crate::printed::Printed;
use crate::reader::Reader;
use crate::transcript::count_contracts;
use act_model::{Item, Names};
use act_num::NoMemory;
use std::alloc::Global;

/// What is printed in a text of a journal and its answers, from `journal` on: the one value that has this text. The
/// names are those with which it was written, since contracts, codes and currencies are read as their numbers.
///
/// NotText comes exactly where there is no such value. Its number, counted from 1, is that of the first line such that
/// no text begins with the lines up to it; a last piece without a line feed counts as a line. Where a text begins with
/// all lines and the bytes aren't whole, it is the number of the last line plus 1, which is 1 for no bytes. The bytes
/// have fewer than 2^32 - 1 lines.
///
/// So what was printed is given back for its text, unless memory runs out.
pub fn read_text(alloc: Global, names: &Names, bytes: &[u8]) -> Result<Printed, TextFault>
    requires lines { length (lines_of bytes.now) < 2 ^ 32 - 1 }
    ensures text { IfOk result (λ printed. IsTextOf names.now bytes.now printed) }
    ensures only { IfOk result (λ printed. (other : Transcript) → IsTextOf names.now bytes.now other → other ≡ printed) }
    ensures fault { IfErr result (λ fault. IsFaultOf names.now bytes.now fault) }
    ensures back { (printed : Transcript) → IsTextOf names.now bytes.now printed → GivesBack printed result }
{
    let Ok(contracts) = count_contracts(names) else {
        return Err(TextFault::NoMemory);
    };
    let mut reader = Reader::new(bytes);
    match reader.transcript(alloc, names, contracts) {
        Ok(printed) => finish(bytes, &reader, printed),
        Err(LineFault::Wrong) => Err(fault_at(bytes, &reader)),
        Err(LineFault::NoMemory) => Err(TextFault::NoMemory),
    }
}

/// The items of the journal with which bytes begin, from `journal` on, or None where they begin with none. What stands behind it
/// is not looked at.
pub fn read_journal(
    alloc: Global,
    names: &Names,
    bytes: &[u8],
) -> Result<Option<Vec<Item>>, NoMemory>
    ensures { IfOk result (λ found. BeginsWithJournal names.now bytes.now (option_map (λ items. items.items) found)) }
{
    let mut reader = Reader::new(bytes);
    match reader.journal(alloc, names) {
        Ok(items) => Ok(Some(items)),
        Err(LineFault::Wrong) => Ok(None),
        Err(LineFault::NoMemory) => Err(NoMemory),
    }
}

/// A law of texts, which does nothing: where each contract has a name, what is printed differently has different texts.
pub fn different_transcripts_have_different_texts()
    ensures { (names : NameLists) (bytes : List ℕ) (one other : Transcript) → ContractsNamed names
        → IsTextOf names bytes one → IsTextOf names bytes other → one ≡ other }
{}

/// A law of texts, which does nothing: journals that differ have different texts, whatever their answers are, and whatever stands
/// behind these.
pub fn different_journals_have_different_texts()
    ensures { OneJournal }
{}

/// What was read, where no line is left and the last has a line feed; else the line that is left in front.
fn finish(bytes: &[u8], reader: &Reader<'_>, printed: Printed) -> Result<Printed, TextFault>
    requires few { length (lines_of bytes.now) < 2 ^ 32 - 1 }
    requires left { length reader.now ≤ length (lines_of bytes.now) }
    ensures { Finishes bytes.now reader.now printed result }
{
    if reader.is_done() && is_ended(bytes) {
        Ok(printed)
    } else {
        Err(fault_at(bytes, reader))
    }
}

/// The line that is left in front.
fn fault_at(bytes: &[u8], reader: &Reader<'_>) -> TextFault
    requires few { length (lines_of bytes.now) < 2 ^ 32 - 1 }
    requires left { length reader.now ≤ length (lines_of bytes.now) }
    ensures { PointsAt (lines_of bytes.now) reader.now result }
{
    TextFault::NotText(count_lines(bytes) - reader.lines_left() + 1)
}
