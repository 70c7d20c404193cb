//! A book, and what finds the cut between two of its versions.
ghost use Rattle.std.specs.Prelude.{◌≡◌, ◌≤◌, ◌↔◌, [], ◌∷◌, ◌++◌, Err, List, true, length, take, IfOk, IfErr};
ghost use Rattle.act_model.specs.Observed.{is_entry};
ghost use Rattle.act_model.specs.declared.observed.Obs.{Obs};
ghost use Rattle.act_book.specs.declared.book.BookFault.TheVariants.{BookFull};
ghost use Rattle.act_profile.specs.Reads.{cut_by};
ghost use Rattle.act_cut.specs.Cut.{AreAscending};
ghost use Rattle.act_cut.specs.Lows.{AreChanges};

use crate::changes::Changes;
use crate::versions::cut;
use act_book::{Book, BookFault, Snapshot};
use act_date::Day;
use act_model::{MOST_ENTRIES, Obs, Observed, Reads};
use act_num::NoMemory;
use std::alloc::Global;
use std::marker::Model;

/// A book of observations, with what finds the cut between two of its versions.
#[derive(Drop)]
pub struct IndexedBook {
    book: Book,
    /// Of the entries that were gone over.
    changes: Changes,
    /// How many these are.
    reached: u64,
    /// The snapshot that was asked for last.
    latest: Option<Snapshot>,
}

impl Model for IndexedBook {
    ghost use Rattle.std.specs.Prelude.{◌≡◌, ◌≤◌, List, length, take};
    ghost use Rattle.std.specs.Option.{ForSome};
    ghost use Rattle.act_model.specs.declared.observed.Obs.{Obs};
    ghost use Rattle.act_cut.specs.Lows.{AreChanges};

    ghost Value = { List Obs };

    ghost view = { λ b. b.book };

    ghost invariant = { λ b. (b.reached ≤ length b.book) × AreChanges (take b.reached b.book) b.changes
        × ForSome b.latest (λ seen. (length seen ≤ length b.book) × (seen ≡ take (length seen) b.book)) };
}

impl IndexedBook {
    /// A book without entries. Cuts are found without going over the entries between for what reads the first `codes` codes and
    /// the first `contracts` contracts alone, and only where there is memory for that. What is added later is allocated by
    /// `alloc`.
    pub fn new(alloc: Global, codes: usize, contracts: usize) -> IndexedBook
        ensures { result ≡ [] }
    {
        let changes = match Changes::new(alloc, codes, contracts) {
            Ok(changes) => changes,
            Err(NoMemory) => Changes::none(alloc),
        };
        IndexedBook {
            book: Book::new(alloc),
            changes,
            reached: 0,
            latest: None,
        }
    }

    /// How many entries it has.
    pub fn len(&self) -> u64
        ensures length { result ≡ length self.now }
        ensures within { result ≤ MOST_ENTRIES }
    {
        self.book.len()
    }

    /// Adds an entry at the end, and gives how many there are then. BookFull exactly where there are 1,048,576
    /// already. A book that refuses an entry is as before.
    pub fn append(&mut self, entry: Obs) -> Result<u64, BookFault>
        requires entry { is_entry entry ≡ true }
        ensures added { IfOk result (λ _. self.new ≡ self.old ++ entry ∷ []) }
        ensures length { IfOk result (λ len. len ≡ length self.new) }
        ensures full { (result ≡ Err BookFull) ↔ (length self.old ≡ MOST_ENTRIES) }
        ensures unchanged { IfErr result (λ _. self.new ≡ self.old) }
    {
        self.book.append(entry)
    }

    /// The first `v` entries, as they stay whatever is added later. The snapshot that was asked for last is kept, and shared with
    /// those that are asked for at the same version.
    pub fn snapshot(&mut self, v: u64) -> Result<Snapshot, NoMemory>
        requires within { v ≤ length self.old }
        ensures seen { IfOk result (λ seen. seen ≡ take v self.old) }
        ensures same { self.new ≡ self.old }
    {
        if let Some(latest) = &self.latest
            && latest.version() == v
        {
            return latest.shared();
        }
        let seen = self.book.snapshot(v)?;
        self.latest = Some(seen.shared()?);
        Ok(seen)
    }

    /// The cut from version `from` to version `to` for a contract that reads this, as [`cut`] finds it: by going over the entries
    /// between, where these are few, or there is no memory for more. The first `to` entries are seen.
    pub fn cut(&mut self, reads: &Reads, seen: &Snapshot, from: u64, to: u64) -> Option<Day>
        requires order { from ≤ to }
        requires within { to ≤ length self.old }
        requires seen { seen.now ≡ take to self.old }
        requires ascending { AreAscending reads.now }
        ensures cut { result ≡ cut_by reads.now.codes reads.now.contracts self.old from to }
        ensures same { self.new ≡ self.old }
    {
        if to - from > weight(reads) {
            self.reached = go_over(&mut self.changes, self.reached, seen, to);
            if to <= self.reached {
                if let Some(cut) = self.changes.cut(reads, from, to) {
                    return cut;
                }
            }
        }
        cut(reads, seen, from, to)
    }
}

/// How much is read: so many codes and contracts.
fn weight(reads: &Reads) -> u64 {
    (reads.codes.len() as u64).saturating_add(reads.contracts.len() as u64)
}

/// Goes over the entries from a place up to another, as far as memory lasts. It answers where it stopped.
fn go_over(changes: &mut Changes, from: u64, seen: &Snapshot, to: u64) -> u64
    requires within { to ≤ length seen.now }
    ensures gone { (book : List Obs) → AreChanges (take from book) changes.old → from ≤ length book → seen.now ≡ take to book
        → AreChanges (take result book) changes.new × (result ≤ length book) }
{
    let mut place = from;
    while place < to {
        let Some(entry) = seen.entry(place) else {
            unreachable!()
        };
        let Ok(()) = changes.add(place, &entry) else {
            break;
        };
        place += 1;
    }
    place
}
