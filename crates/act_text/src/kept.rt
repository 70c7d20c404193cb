//! Lines of rows that are kept for when they come again.
ghost use Rattle.std.specs.Prelude.{◌≡◌, ◌⊎◌, ℕ, ◌++◌, ◌∷◌, [], ◌+◌, ◌-◌, ◌≤◌, ◌<◌, drop, length, map, take, Some, OnOk, OnErr, slice_get};
ghost use Rattle.std.specs.Arc.{arc_value};
ghost use Rattle.std.specs.List.{flat_map};
ghost use Rattle.act_text.specs.Kept.{AreLines, ArePrintedAlike, start_at};
ghost use Rattle.act_text.specs.Lines.{close_text, row_text};

use crate::row::{RowPrinter, close_line};
use act_model::{Close, Names, Rows, Run};
use act_num::NoMemory;
use std::alloc::Global;
use std::marker::Model;
use std::sync::Arc;

/// Most rows' lines have no more bytes than this.
const USUAL_LINE: usize = 80;

/// The lines of the first rows of a run, one behind the other, with what stands in front of them and behind, so that all of it
/// is written at once. Where the lines of another run are wanted which begins with rows that are found to be printed alike, as
/// after a correction, these lines stay.
#[derive(Drop)]
pub struct RowLines<'a> {
    names: &'a Names,
    run: Option<Arc<Run, Global>>,
    /// What stands in front, the lines, and what stands behind.
    text: Vec<u8>,
    /// Where the lines begin.
    begin: usize,
    /// Where the lines end.
    end: usize,
    /// Where each line ends, counted from where the lines begin.
    ends: Vec<usize>,
}

impl<'a> Model for RowLines<'a> {
    ghost use Rattle.std.specs.Prelude.{◌≤◌, drop, length, take};
    ghost use Rattle.act_text.specs.Kept.{AreLines, Lines, rows_of};

    ghost Value = { Lines };

    ghost view = { λ l. record { names = l.names.now; front = take l.begin l.text.items; rows = take (length l.ends.items) (rows_of l.run); back = drop l.end l.text.items } };

    ghost invariant = { λ l. (length l.ends.items ≤ length (rows_of l.run)) × (l.begin ≤ l.end) × (l.end ≤ length l.text.items)
        × AreLines l.names.now (take (length l.ends.items) (rows_of l.run)) (drop l.begin (take l.end l.text.items)) l.ends.items };
}

impl<'a> RowLines<'a> {
    /// No lines yet, and nothing in front of them. They are written with these names.
    pub fn new(alloc: Global, names: &'a Names) -> RowLines<'a>
        ensures names { result.names ≡ names.now }
        ensures front { result.front ≡ [] }
        ensures rows { result.rows ≡ [] }
        ensures back { result.back ≡ [] }
    {
        RowLines {
            names,
            run: None,
            text: Vec::new(alloc),
            begin: 0,
            end: 0,
            ends: Vec::new(alloc),
        }
    }

    /// All of the text: what stands in front, the lines one behind the other, and what stands behind.
    #[inline]
    pub fn text(&self) -> &[u8]
        ensures { result.now ≡ self.now.front ++ flat_map (row_text self.now.names) self.now.rows ++ self.now.back }
    {
        &self.text
    }

    /// Puts other bytes in front of the lines; nothing stands behind them then. Where memory runs out, what stood in front stays.
    pub fn put_front(&mut self, front: &[u8]) -> Result<(), NoMemory>
        ensures names { self.new.names ≡ self.old.names }
        ensures rows { self.new.rows ≡ self.old.rows }
        ensures front { OnOk result (self.new.front ≡ front.now) }
        ensures unchanged { OnErr result (self.new.front ≡ self.old.front) }
        ensures back { self.new.back ≡ [] }
    {
        self.text.truncate(self.end);
        put_first(&mut self.text, self.begin, front)?;
        self.begin = front.len();
        self.end = self.text.len();
        Ok(())
    }

    /// Puts the line of how rows close behind the lines, in place of what stood there. Where memory runs out, nothing stands there.
    pub fn put_close(&mut self, close: &Close) -> Result<(), NoMemory>
        ensures names { self.new.names ≡ self.old.names }
        ensures front { self.new.front ≡ self.old.front }
        ensures rows { self.new.rows ≡ self.old.rows }
        ensures back { OnOk result (self.new.back ≡ close_text self.old.names close.now) }
        ensures none { OnErr result (self.new.back ≡ []) }
    {
        self.text.truncate(self.end);
        close_line(self.names, close, &mut self.text)
    }

    /// Makes them the lines of a run's rows, of which the first, so many, are known to be the same. Those of the first rows stay,
    /// as far as rows are known or found to be printed alike. Nothing stands behind them then. Where memory runs out, they are the
    /// lines of the run's first rows, or, where the run couldn't be shared, all as before.
    pub fn renew(&mut self, run: &Arc<Run, Global>, known: usize) -> Result<(), NoMemory>
        requires here { known ≤ length self.old.rows }
        requires there { known ≤ length (arc_value run.now).rows }
        requires same { take known self.old.rows ≡ take known (arc_value run.now).rows }
        ensures names { self.new.names ≡ self.old.names }
        ensures front { self.new.front ≡ self.old.front }
        ensures rows { OnOk result (self.new.rows ≡ (arc_value run.now).rows) }
        ensures back { OnOk result (self.new.back ≡ []) }
        ensures fewer { OnErr result ((self.new ≡ self.old)
            ⊎ ((count : ℕ) × (self.new.rows ≡ take count (arc_value run.now).rows))) }
    {
        let kept = Arc::try_clone(run)?;
        let same = self.count_alike(&run.rows, known);
        self.text.truncate(self.end);
        self.text.truncate(self.begin + start_of(&self.ends, same));
        self.ends.truncate(same);
        self.run = Some(kept);
        let added = add_lines(
            self.names,
            &run.rows,
            &mut self.text,
            self.begin,
            &mut self.ends,
        );
        self.end = self.text.len();
        added
    }

    /// How many rows at the beginning are found to be printed alike, where the first, so many, are known to be the same.
    fn count_alike(&self, rows: &Rows, known: usize) -> usize
        requires here { known ≤ length self.now.rows }
        requires there { known ≤ length rows.now }
        requires same { take known self.now.rows ≡ take known rows.now }
        ensures here { result ≤ length self.now.rows }
        ensures there { result ≤ length rows.now }
        ensures alike { ArePrintedAlike (take result self.now.rows) (take result rows.now) }
    {
        match &self.run {
            Some(run) => run.rows.count_alike(rows, known, self.ends.len()),
            None => 0,
        }
    }
}

/// Where the line at a place begins, or would begin behind the last.
#[inline]
fn start_of(ends: &[usize], place: usize) -> usize
    requires { place ≤ length ends.now }
    ensures { start_at ends.now place ≡ Some result }
{
    match place.checked_sub(1) {
        Some(before) => ends[before],
        None => 0,
    }
}

/// Puts other bytes in place of the first, so many. Where memory runs out, all is as before.
fn put_first(text: &mut Vec<u8>, count: usize, first: &[u8]) -> Result<(), NoMemory>
    requires { count ≤ length text.old.items }
    ensures ok { OnOk result (text.new.items ≡ first.now ++ drop count text.old.items) }
    ensures err { OnErr result (text.new.items ≡ text.old.items) }
{
    if &text[..count] == first {
        return Ok(());
    }
    let mut whole = Vec::from_slice(*text.allocator(), first)?;
    whole.extend_from_slice(&text[count..])?;
    *text = whole;
    Ok(())
}

/// Adds the lines of the rows that have none yet, where the lines begin at a place. Where memory runs out, those of some of them.
fn add_lines(
    names: &Names,
    rows: &Rows,
    text: &mut Vec<u8>,
    begin: usize,
    ends: &mut Vec<usize>,
) -> Result<(), NoMemory>
    requires begin { begin ≤ length text.old.items }
    requires within { length ends.old.items ≤ length rows.now }
    requires are { AreLines names.now (take (length ends.old.items) rows.now) (drop begin text.old.items) ends.old.items }
    ensures begin { begin ≤ length text.new.items }
    ensures front { take begin text.new.items ≡ take begin text.old.items }
    ensures within { length ends.new.items ≤ length rows.now }
    ensures are { AreLines names.now (take (length ends.new.items) rows.now) (drop begin text.new.items) ends.new.items }
    ensures all { OnOk result (length ends.new.items ≡ length rows.now) }
{
    make_room(rows.count() - ends.len(), text, ends)?;
    let mut printer = RowPrinter::new(names);
    'lines: while ends.len() < rows.count() {
        printer.print(&rows.row(ends.len()));
        add_line(printer.line(), text, begin, ends)?;
    }
    Ok(())
}

/// Makes room for so many lines more of the usual length. What stands there stays.
fn make_room(count: usize, text: &mut Vec<u8>, ends: &mut Vec<usize>) -> Result<(), NoMemory>
    ensures text { text.new.items ≡ text.old.items }
    ensures ends { ends.new.items ≡ ends.old.items }
{
    ends.reserve(count)?;
    text.reserve(count.saturating_mul(USUAL_LINE))?;
    Ok(())
}

/// Adds a line, where the lines begin at a place. Where memory runs out, both are as before.
fn add_line(
    line: &[u8],
    text: &mut Vec<u8>,
    begin: usize,
    ends: &mut Vec<usize>,
) -> Result<(), NoMemory>
    requires begin { begin ≤ length text.old.items }
    ensures text { OnOk result (text.new.items ≡ text.old.items ++ line.now) }
    ensures ends { OnOk result (ends.new.items ≡ ends.old.items ++ (length text.new.items - begin) ∷ []) }
    ensures unchanged { OnErr result ((text.new.items ≡ text.old.items) × (ends.new.items ≡ ends.old.items)) }
{
    ends.reserve(1)?;
    text.extend_from_slice(line)?;
    let Ok(()) = ends.push(text.len() - begin) else {
        unreachable!()
    };
    Ok(())
}
