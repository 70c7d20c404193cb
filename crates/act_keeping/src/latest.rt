//! The latest result of each contract, the one at the greatest version, and what its evaluation at another version goes on from.
ghost use Rattle.std.specs.Prelude.{◌≡◌, ℕ, ◌≤◌, ◌<◌, false, length, max, min, slice_index_or, slice_set, Some, None, take, true, ◌≤ℤ◌, IfOk, IfSome};
ghost use Rattle.std.specs.List.{All};
ghost use Rattle.std.specs.List.Sorted.{IsStrictlyIncreasing};
ghost use Rattle.act_cut.specs.Cut.{AreAscending};
ghost use Rattle.act_date.specs.Civil.{last_day};
ghost use Rattle.act_profile.specs.Reads.{cut_by};
ghost use Rattle.act_keeping.specs.Latest.{NoneYet, is_later};

use act_book::Snapshot as Entries;
use act_cut::IndexedBook;
use act_date::Day;
use act_model::{Reads, Run};
use act_num::NoMemory;
use std::alloc::Global;
use std::sync::Arc;

/// The latest result of a contract: that at the greatest version.
#[derive(Drop)]
pub struct LatestResult {
    /// Over how many entries of the book it was evaluated.
    pub version: u64,
    /// Its run over them.
    pub run: Arc<Run, Global>,
}

/// What an evaluation goes on from: the contract's latest result, where it has one, of which the rows before a cut are kept, and
/// the whole run where there is no cut or it stops before it.
#[derive(Drop)]
pub struct Cached {
    /// The run.
    pub run: Option<Arc<Run, Global>>,
    /// The cut.
    pub cut: Option<Day>,
}

/// A place for each contract, without results. NoMemory where memory runs out.
pub fn none_yet(alloc: Global, contracts: usize) -> Result<Vec<Option<LatestResult>>, NoMemory>
    ensures { IfOk result (λ latest. NoneYet contracts latest.items) }
{
    let mut latest = Vec::with_capacity(alloc, contracts)?;
    while latest.len() < contracts {
        latest.push(None)?;
    }
    Ok(latest)
}

/// The number behind the last of ascending numbers, or 0 where there are none.
pub fn end_of(numbers: &[u32]) -> usize
    requires ascending { IsStrictlyIncreasing numbers.now }
    ensures above { All (λ number. number < result) numbers.now }
    ensures least { (n : ℕ) → All (λ number. number < n) numbers.now → result ≤ n }
{
    match numbers.last() {
        Some(last) => *last as usize + 1,
        None => 0,
    }
}

/// Whether a latest result is of a later version.
fn is_later(latest: &Option<LatestResult>, version: u64) -> bool
    ensures { result ≡ is_later latest.now version }
{
    match latest {
        Some(latest) => version < latest.version,
        None => false,
    }
}

/// Takes a result as a contract's latest, unless that is of a later version.
pub fn put_latest(
    latest: &mut [Option<LatestResult>],
    contract: u32,
    version: u64,
    run: Arc<Run, Global>,
)
    requires within { contract < length latest.old }
    ensures later { is_later (slice_index_or latest.old contract None) version ≡ true → latest.new ≡ latest.old }
    ensures put { is_later (slice_index_or latest.old contract None) version ≡ false
        → latest.new ≡ slice_set latest.old contract (Some (record { version = version; run = run })) }
{
    let place = contract as usize;
    if is_later(&latest[place], version) {
        drop(run);
        return;
    }
    latest[place] = Some(LatestResult { version, run });
}

/// The cut from the smaller to the greater of two versions of a book, of which the entries of the second are seen. NoMemory where
/// memory runs out. The entries stay.
pub fn cut_between(
    reads: &Reads,
    book: &mut IndexedBook,
    seen: &Entries,
    other: u64,
    version: u64,
) -> Result<Option<Day>, NoMemory>
    requires ascending { AreAscending reads.now }
    requires other { other ≤ length book.old }
    requires version { version ≤ length book.old }
    requires seen { seen.now ≡ take version book.old }
    ensures cut { IfOk result (λ cut. cut ≡ cut_by reads.now.codes reads.now.contracts book.old (min other version) (max other version)) }
    ensures in_range { IfOk result (λ cut. IfSome cut (λ day. day ≤ℤ last_day)) }
    ensures same { book.new ≡ book.old }
{
    if other <= version {
        Ok(in_range(book.cut(reads, seen, other, version)))
    } else {
        let newer = book.snapshot(other)?;
        Ok(in_range(book.cut(reads, &newer, version, other)))
    }
}

/// The same cut: a day that can be.
fn in_range(cut: Option<Day>) -> Option<Day>
    ensures same { result ≡ cut }
    ensures in_range { IfSome result (λ day. day ≤ℤ last_day) }
{
    // A day tells that it is in range only where it is asked for its number.
    match cut {
        Some(day) => {
            let _ = day.number();
            Some(day)
        }
        None => None,
    }
}
