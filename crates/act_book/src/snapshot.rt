//! What is seen of a book.
ghost use Rattle.std.specs.Prelude.{◌≡◌, ◌≤◌, ◌*◌, ◌++◌, true, length, take, slice_get, IfOk, IfSome};
ghost use Rattle.act_model.specs.Limits.{most_entries};
ghost use Rattle.act_model.specs.Observed.{is_entry, observed_events};
ghost use Rattle.act_book.specs.Entries.{AreEntries};
ghost use Rattle.act_book.specs.Rates.{latest_rate};
ghost use Rattle.act_book.specs.Runs.{AreRecent, AreRuns, entries_of};

use crate::book::CHUNK;
use crate::rates::{later, latest_among};
use crate::recent::push_within;
use crate::run::{Run, push_events};
use act_date::Day;
use act_model::{Obs, Observed};
use act_num::{Fixed, NoMemory};
use std::alloc::Global;
use std::marker::Model;
use std::sync::Arc;

/// The first entries of a book, as they stay whatever is added to it. Copies share them.
#[derive(Drop)]
pub struct Snapshot {
    seen: Arc<Seen, Global>,
}

impl Model for Snapshot {
    ghost use Rattle.std.specs.Prelude.{List};
    ghost use Rattle.std.specs.Arc.{arc_value};
    ghost use Rattle.act_model.specs.declared.observed.Obs.{Obs};

    ghost Value = { List Obs };

    ghost view = { λ s. arc_value s.seen };
}

/// What a snapshot sees. It shares runs with the book, and has a copy of the entries behind them.
#[derive(Drop)]
pub(crate) struct Seen {
    version: u64,
    /// Runs of the book, one behind another.
    runs: Vec<Arc<Run, Global>>,
    /// The entries behind them.
    rest: Vec<Obs>,
}

impl Model for Seen {
    ghost use Rattle.std.specs.Prelude.{◌≡◌, List, ◌++◌, length};
    ghost use Rattle.act_model.specs.declared.observed.Obs.{Obs};
    ghost use Rattle.act_book.specs.Entries.{AreEntries};
    ghost use Rattle.act_book.specs.Runs.{entries_of};

    ghost Value = { List Obs };

    ghost view = { λ s. entries_of s.runs.items ++ s.rest.items };

    ghost invariant = { λ s. AreEntries (entries_of s.runs.items ++ s.rest.items) × (s.version ≡ length (entries_of s.runs.items ++ s.rest.items)) };
}

impl Snapshot {
    /// A snapshot that sees this.
    pub(crate) fn of(alloc: Global, seen: Seen) -> Result<Snapshot, NoMemory>
        ensures { IfOk result (λ snapshot. snapshot ≡ seen) }
    {
        Ok(Snapshot {
            seen: Arc::new(alloc, seen)?,
        })
    }

    /// The same entries, which it shares with this one.
    pub fn shared(&self) -> Result<Snapshot, NoMemory>
        ensures { IfOk result (λ shared. shared ≡ self.now) }
    {
        Ok(Snapshot {
            seen: Arc::try_clone(&self.seen)?,
        })
    }
}

impl Observed for Snapshot {
    ghost entries = { λ s. s };

    #[inline]
    fn version(&self) -> u64 {
        self.seen.version()
    }

    #[inline]
    fn entry(&self, place: u64) -> Option<Obs>
        ensures place { result ≡ slice_get self.now place }
        ensures entry { IfSome result (λ entry. is_entry entry ≡ true) }
    {
        self.seen.entry(place)
    }

    #[inline]
    fn value(&self, code: u32, day: Day) -> Option<Fixed> {
        self.seen.value(code, day)
    }

    #[inline]
    fn events_of(&self, alloc: Global, contract: u32) -> Result<Vec<Obs>, NoMemory>
        ensures events { IfOk result (λ events. events.items ≡ observed_events self.now contract) }
        ensures entries { IfOk result (λ events. AreEntries events.items) }
    {
        self.seen.events_of(alloc, contract)
    }
}

impl Seen {
    /// The first `v` entries of a book, whose runs it shares. `recent` has the runs behind those that end with chunks.
    pub(crate) fn first(
        entries: &Vec<Obs>,
        runs: &[Arc<Run, Global>],
        recent: &[Arc<Run, Global>],
        v: u64,
    ) -> Result<Seen, NoMemory>
        requires within { v ≤ length entries.now.items }
        requires most { length entries.now.items ≤ most_entries }
        requires entries { AreEntries entries.now.items }
        requires runs { AreRuns entries.now.items runs.now }
        requires recent { AreRecent entries.now.items (length runs.now) recent.now }
        ensures { IfOk result (λ seen. seen ≡ take v entries.now.items) }
    {
        let v = v as usize;
        let chunks = (v / CHUNK).min(runs.len());
        let mut shared = runs_until(entries, runs, chunks)?;
        let mut end = chunks * CHUNK;
        if chunks == runs.len() {
            end += push_within(&mut shared, recent, v - end)?;
        }
        let rest = entries[end..v].to_vec(*entries.allocator())?;
        Ok(Seen {
            version: v as u64,
            runs: shared,
            rest,
        })
    }
}

/// The runs that have the entries of the first chunks.
fn runs_until(
    entries: &Vec<Obs>,
    runs: &[Arc<Run, Global>],
    chunks: usize,
) -> Result<Vec<Arc<Run, Global>>, NoMemory>
    requires runs { AreRuns entries.now.items runs.now }
    requires chunks { chunks ≤ length runs.now }
    ensures { IfOk result (λ shared. entries_of shared.items ≡ take (CHUNK * chunks) entries.now.items) }
{
    let mut shared = Vec::new(*entries.allocator());
    let mut front = chunks;
    while front > 0 {
        let run = Arc::try_clone(&runs[front - 1])?;
        front -= run.entries().len() / CHUNK;
        shared.push(run)?;
    }
    shared.reverse();
    Ok(shared)
}

impl Observed for Seen {
    ghost entries = { λ s. s };

    fn version(&self) -> u64 {
        self.version
    }

    fn entry(&self, place: u64) -> Option<Obs>
        ensures place { result ≡ slice_get self.now place }
        ensures entry { IfSome result (λ entry. is_entry entry ≡ true) }
    {
        let mut left = place as usize;
        for run in &self.runs {
            let entries = run.entries();
            if left < entries.len() {
                return entry_at(entries, left);
            }
            left -= entries.len();
        }
        entry_at(&self.rest, left)
    }

    fn value(&self, code: u32, day: Day) -> Option<Fixed> {
        let latest = later(
            latest_in(&self.runs, code, day),
            latest_among(&self.rest, code, day),
        );
        latest.map(|(_, value)| value)
    }

    fn events_of(&self, alloc: Global, contract: u32) -> Result<Vec<Obs>, NoMemory>
        ensures events { IfOk result (λ events. events.items ≡ observed_events self.now contract) }
        ensures entries { IfOk result (λ events. AreEntries events.items) }
    {
        let mut events = Vec::new(alloc);
        for run in &self.runs {
            run.push_events(&mut events, contract)?;
        }
        push_events(&mut events, &self.rest, contract)?;
        Ok(events)
    }
}

/// The entry at a place, or None past the end.
fn entry_at(entries: &[Obs], place: usize) -> Option<Obs>
    ensures { result ≡ slice_get entries.now place }
{
    entries.get(place).copied()
}

/// The day and the value of the latest rate of a code dated not after a day, among the entries of some runs.
fn latest_in(runs: &[Arc<Run, Global>], code: u32, until: Day) -> Option<(Day, Fixed)>
    ensures { result ≡ latest_rate (entries_of runs.now) code until }
{
    let mut latest = None;
    for run in runs {
        latest = later(latest, run.latest(code, until));
    }
    latest
}
