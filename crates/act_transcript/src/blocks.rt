//! The blocks of contracts, as they were put together last.
ghost use Rattle.std.specs.Prelude.{◌≡◌, ◌<◌, ◌≤◌, ℤ, Option, [], None, Some, IfOk, IfSome, OnOk, length, slice_get, take};
ghost use Rattle.std.specs.Arc.{arc_value};
ghost use Rattle.act_profile.specs.DayOrder.{AreInDayOrder};
ghost use Rattle.act_text.specs.Kept.{AreWrittenWith, Lines};
ghost use Rattle.act_text.specs.Lines.{close_text};
ghost use Rattle.act_transcript.specs.KnownLines.{AreOnesOf, IsBlock, IsKnown, IsKnownTo, IsPut, known_to};

use act_date::Day;
use act_model::{Names, Run};
use act_num::NoMemory;
use act_print::block_head;
use act_run::kept_rows;
use act_text::RowLines;
use std::alloc::Global;
use std::sync::Arc;

/// What is known of a block that was put together: how much of it is the same now.
#[derive(Clone, Copy)]
pub enum Known {
    /// Nothing is known.
    Nothing,
    /// The rows before this day are.
    Before(Day),
    /// All of it is.
    All,
}

/// The blocks of contracts, as they were put together last, and what of them is known to stay.
#[derive(Drop)]
pub struct Blocks<'a> {
    /// The names that they are written with.
    pub names: &'a Names,
    /// Room for a line.
    pub line: Vec<u8>,
    /// The lines of each contract's block, or of none where nothing is kept.
    pub kept: Vec<RowLines<'a>>,
    /// What is known of each.
    pub known: Vec<Known>,
    /// The version at which the blocks of all contracts were put together, where that is known.
    pub at: Option<u64>,
}

impl<'a> Blocks<'a> {
    /// Places for the blocks of contracts, so many, with none yet; no places where there is one answer at most.
    pub fn new(
        alloc: Global,
        names: &'a Names,
        contracts: usize,
        answers: usize,
    ) -> Result<Blocks<'a>, NoMemory>
        ensures names { IfOk result (λ blocks. blocks.names.now ≡ names.now) }
        ensures written { IfOk result (λ blocks. AreWrittenWith names.now blocks.kept.items) }
        ensures few { IfOk result (λ blocks. length blocks.kept.items ≤ contracts) }
        ensures at { IfOk result (λ blocks. blocks.at ≡ None) }
    {
        let places = if answers > 1 { contracts } else { 0 };
        let kept = no_lines(alloc, names, places)?;
        let known = nothing_known(alloc, places)?;
        Ok(Blocks {
            names,
            line: Vec::new(alloc),
            kept,
            known,
            at: None,
        })
    }

    /// No blocks, and no places for any.
    pub fn none(alloc: Global, names: &'a Names) -> Blocks<'a>
        ensures names { result.names.now ≡ names.now }
        ensures kept { result.kept.items ≡ [] }
        ensures at { result.at ≡ None }
    {
        Blocks {
            names,
            line: Vec::new(alloc),
            kept: Vec::new(alloc),
            known: Vec::new(alloc),
            at: None,
        }
    }

    /// Makes the lines that are kept of a contract, where it has a place, its block with a run.
    pub fn put(&mut self, contract: u32, run: &Arc<Run, Global>) -> Result<(), NoMemory>
        requires named { length self.old.kept.items ≤ length self.old.names.now.contracts }
        requires written { AreWrittenWith self.old.names.now self.old.kept.items }
        requires order { AreInDayOrder (arc_value run.now).rows }
        requires known { IsKnown self.old.known.items self.old.kept.items contract (arc_value run.now) }
        ensures same { AreOnesOf self.old self.new }
        ensures at { self.new.at ≡ self.old.at }
        ensures block { OnOk result ((lines : Lines) → slice_get self.new.kept.items contract ≡ Some lines → IsBlock contract (arc_value run.now) lines) }
        ensures put { OnOk result (IsPut contract (arc_value run.now) self.old self.new) }
    {
        let place = contract as usize;
        if place >= self.kept.len() {
            return Ok(());
        }
        let known = known_at(&self.known, place);
        renew_block(
            &mut self.line,
            self.names,
            &mut self.kept[place],
            known,
            contract,
            run,
        )?;
        if place < self.known.len() {
            self.known[place] = Known::All;
        }
        Ok(())
    }
}

/// A place for the lines of each contract's rows, so many, with none yet.
pub(crate) fn no_lines<'a>(
    alloc: Global,
    names: &'a Names,
    places: usize,
) -> Result<Vec<RowLines<'a>>, NoMemory>
    ensures written { IfOk result (λ kept. AreWrittenWith names.now kept.items) }
    ensures count { IfOk result (λ kept. length kept.items ≡ places) }
{
    let mut kept = Vec::with_capacity(alloc, places)?;
    'places: while kept.len() < places {
        kept.push(RowLines::new(alloc, names))?;
    }
    Ok(kept)
}

/// That nothing is known of blocks, so many.
fn nothing_known(alloc: Global, places: usize) -> Result<Vec<Known>, NoMemory> {
    let mut known = Vec::with_capacity(alloc, places)?;
    'places: while known.len() < places {
        known.push(Known::Nothing)?;
    }
    Ok(known)
}

/// What is known of the contract at a place.
pub(crate) fn known_at(known: &[Known], place: usize) -> Known
    ensures { (cut : Option ℤ) → result ≡ known_to cut → slice_get known.now place ≡ Some (known_to cut) }
{
    if place < known.len() {
        known[place]
    } else {
        Known::Nothing
    }
}

/// Makes kept lines the block of a contract with its run. Rows that are known to stand there aren't put together again, nor looked
/// at, and where the whole block is known nothing is.
pub(crate) fn renew_block(
    line: &mut Vec<u8>,
    names: &Names,
    lines: &mut RowLines<'_>,
    known: Known,
    contract: u32,
    run: &Arc<Run, Global>,
) -> Result<(), NoMemory>
    requires contract { contract < length names.now.contracts }
    requires named { lines.old.names ≡ names.now }
    requires order { (cut : Option ℤ) → known ≡ known_to cut → AreInDayOrder (arc_value run.now).rows }
    requires known { (cut : Option ℤ) → known ≡ known_to cut → IsKnownTo contract cut lines.old (arc_value run.now) }
    ensures named { lines.new.names ≡ names.now }
    ensures block { OnOk result (IsBlock contract (arc_value run.now) lines.new) }
{
    match known {
        Known::All => Ok(()),
        Known::Before(day) => renew_rows(lines, run, kept_rows(run, Some(day))),
        Known::Nothing => {
            line.clear();
            block_head(names, contract, line)?;
            lines.put_front(line)?;
            renew_rows(lines, run, 0)
        }
    }
}

/// Makes kept lines those of a run's rows, of which the first, so many, are known to be the same, and of how they close.
fn renew_rows(
    lines: &mut RowLines<'_>,
    run: &Arc<Run, Global>,
    known: usize,
) -> Result<(), NoMemory>
    requires here { known ≤ length lines.old.rows }
    requires there { known ≤ length (arc_value run.now).rows }
    requires same { take known lines.old.rows ≡ take known (arc_value run.now).rows }
    ensures names { lines.new.names ≡ lines.old.names }
    ensures front { lines.new.front ≡ lines.old.front }
    ensures rows { OnOk result (lines.new.rows ≡ (arc_value run.now).rows) }
    ensures back { OnOk result (lines.new.back ≡ close_text lines.old.names (arc_value run.now).close) }
{
    lines.renew(run, known)?;
    lines.put_close(&run.close)
}
