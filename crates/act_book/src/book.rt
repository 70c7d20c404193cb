//! A book of observations.
ghost use Rattle.std.specs.Prelude.{◌≡◌, ◌≤◌, ◌+◌, ◌*◌, ◌↔◌, [], ◌∷◌, ◌++◌, Err, true, length, take, IfOk, IfErr};
ghost use Rattle.act_model.specs.Observed.{is_entry};
ghost use Rattle.std.specs.Arc.{arc_value};
ghost use Rattle.act_book.specs.Runs.{AreRuns, EndsAt};
ghost use Rattle.act_book.specs.declared.book.BookFault.TheVariants.{BookFull};

use crate::recent::{PART, count_of, with_run};
use crate::run::Run;
use crate::snapshot::{Seen, Snapshot};
use act_model::{MOST_ENTRIES, Obs};
use act_num::NoMemory;
use std::alloc::Global;
use std::marker::Model;
use std::sync::Arc;

/// How many entries a chunk has. A run that ends with a chunk has one chunk, two, four, and so on.
pub const CHUNK: usize = 256;

/// Why an entry isn't added.
#[derive(Clone, Copy, Debug, PartialEq, Eq)]
pub enum BookFault {
    /// The book has 1,048,576 entries already.
    BookFull = 1,
    /// Memory ran out.
    NoMemory,
}

/// A book of observations: a list of entries, to which more are added at the end.
#[derive(Drop)]
pub struct Book {
    entries: Vec<Obs>,
    /// For each full chunk the run that ends with it; that of the last is made before the next entry is added. The run of chunk
    /// n, counted from 1, has as many chunks as the greatest power of two that divides n, so that the first n chunks are at
    /// most twelve runs.
    runs: Vec<Arc<Run, Global>>,
    /// Runs of the entries behind these chunks, one behind another, each longer than the next. They have all those entries but
    /// the last, of which there are no more than a part has.
    recent: Vec<Arc<Run, Global>>,
}

impl Model for Book {
    ghost use Rattle.act_model.specs.Limits.{most_entries};
    ghost use Rattle.std.specs.Prelude.{◌≤◌, List, length};
    ghost use Rattle.act_model.specs.declared.observed.Obs.{Obs};
    ghost use Rattle.act_book.specs.Entries.{AreEntries};
    ghost use Rattle.act_book.specs.Runs.{AreRecent, AreRuns};

    ghost Value = { List Obs };

    ghost view = { λ b. b.entries.items };

    ghost invariant = { λ b. AreEntries b.entries.items × (length b.entries.items ≤ most_entries) × AreRuns b.entries.items b.runs.items × AreRecent b.entries.items (length b.runs.items) b.recent.items };
}

impl Book {
    /// A book without entries. What is added later is allocated by `alloc`.
    pub fn new(alloc: Global) -> Book
        ensures { result ≡ [] }
    {
        Book {
            entries: Vec::new(alloc),
            runs: Vec::new(alloc),
            recent: Vec::new(alloc),
        }
    }

    /// How many entries it has.
    pub fn len(&self) -> u64
        ensures length { result ≡ length self.now }
        ensures within { result ≤ MOST_ENTRIES }
    {
        self.entries.len() as u64
    }

    /// Adds an entry at the end, and gives how many there are then. BookFull exactly where there are 1,048,576
    /// already. A book that refuses an entry is as before.
    pub fn append(&mut self, entry: Obs) -> Result<u64, BookFault>
        requires entry { is_entry entry ≡ true }
        ensures added { IfOk result (λ _. self.new ≡ self.old ++ entry ∷ []) }
        ensures length { IfOk result (λ len. len ≡ length self.new) }
        ensures full { (result ≡ Err BookFull) ↔ (length self.old ≡ MOST_ENTRIES) }
        ensures unchanged { IfErr result (λ _. self.new ≡ self.old) }
    {
        if self.len() == MOST_ENTRIES {
            return Err(BookFault::BookFull);
        }
        let Ok(()) = self.close_runs() else {
            return Err(BookFault::NoMemory);
        };
        let Ok(_) = self.entries.push(entry) else {
            return Err(BookFault::NoMemory);
        };
        Ok(self.len())
    }

    /// Makes the runs that end with the last entry, where there are none yet.
    fn close_runs(&mut self) -> Result<(), NoMemory>
        ensures { self.new ≡ self.old }
    {
        if self.entries.len() % PART != 0 {
            return Ok(());
        }
        self.close_part()?;
        self.close_chunk()
    }

    /// Makes a run of the next part without one, where all its entries are there.
    fn close_part(&mut self) -> Result<(), NoMemory>
        ensures { self.new ≡ self.old }
    {
        let start = CHUNK * self.runs.len() + count_of(&self.recent);
        if self.entries.len() - start < PART {
            return Ok(());
        }
        let alloc = *self.entries.allocator();
        let part = Run::new(alloc, &self.entries[start..start + PART])?;
        self.recent = with_run(alloc, &self.recent, part)?;
        Ok(())
    }

    /// Makes the run that ends with the next chunk, where a recent run has the whole chunk.
    fn close_chunk(&mut self) -> Result<(), NoMemory>
        ensures { self.new ≡ self.old }
    {
        let Some(chunk) = self.recent.first() else {
            return Ok(());
        };
        if chunk.entries().len() != CHUNK {
            return Ok(());
        }
        let run = next_run(&self.entries, &self.runs, chunk)?;
        self.runs.push(run)?;
        self.recent.clear();
        Ok(())
    }

    /// The first `v` entries, as they stay whatever is added later.
    pub fn snapshot(&self, v: u64) -> Result<Snapshot, NoMemory>
        requires within { v ≤ length self.now }
        ensures { IfOk result (λ seen. seen ≡ take v self.now) }
    {
        let seen = Seen::first(&self.entries, &self.runs, &self.recent, v)?;
        Snapshot::of(*self.entries.allocator(), seen)
    }
}

/// The run that ends with the first chunk that no run ends with, where a run has that chunk. It takes in each run before it
/// that is as long as it.
fn next_run(
    entries: &Vec<Obs>,
    runs: &[Arc<Run, Global>],
    chunk: &Arc<Run, Global>,
) -> Result<Arc<Run, Global>, NoMemory>
    requires runs { AreRuns entries.now.items runs.now }
    requires chunk { take (CHUNK * length runs.now) entries.now.items ++ arc_value chunk.now ≡ take (CHUNK * (length runs.now + 1)) entries.now.items }
    ensures { IfOk result (λ run. EndsAt entries.now.items (length runs.now + 1) (arc_value run)) }
{
    let mut front = runs.len();
    let mut chunks = 1;
    let mut run = Arc::try_clone(chunk)?;
    while front > 0 {
        let before = &runs[front - 1];
        if before.entries().len() != chunks * CHUNK {
            break;
        }
        run = Arc::new(*entries.allocator(), before.joined(&run)?)?;
        front -= chunks;
        chunks *= 2;
    }
    Ok(run)
}
