//! A contract at a version that was asked for, and lists of these by version and then by rank.
ghost use Rattle.std.specs.Prelude.{◌≡◌, ◌==◌, ◌&&◌, ◌<◌, ◌≤◌, true, false, length, vec_capacity, MatchOption, Some};
ghost use Rattle.std.specs.List.{slice_get};
ghost use Rattle.act_keeping.specs.Keeping.{AreSorted, HasAt, IsListed, IsPast, IsPut, IsUnderWay, is_before, is_done, is_under_way, is_waiting};
ghost use Rattle.act_keeping.specs.Wanting.{IsAdded, IsPlaceOf};
ghost use Rattle.act_keeping.specs.declared.pair.Pair.{Pair};

use act_model::Run;
use std::alloc::Global;
use std::sync::Arc;

/// A contract at a version that was asked for.
#[derive(Drop)]
pub struct Pair {
    /// How many entries of the book it is evaluated over.
    pub version: u64,
    /// The contract's place in the reference order.
    pub rank: u32,
    /// How far it is.
    pub progress: Progress,
}

/// How far an evaluation is.
#[derive(Drop)]
pub enum Progress {
    /// It wasn't claimed yet.
    Waiting,
    /// It was claimed.
    Claimed,
    /// It came back.
    Done(Arc<Run, Global>),
    /// It came back, and nobody can ask for it any more.
    Dropped,
}

/// Whether it wasn't claimed yet.
pub(crate) fn is_waiting(progress: &Progress) -> bool
    ensures { result ≡ is_waiting progress.now }
{
    matches!(progress, Progress::Waiting)
}

/// Whether it was claimed and hasn't come back.
fn is_under_way(progress: &Progress) -> bool
    ensures { result ≡ is_under_way progress.now }
{
    matches!(progress, Progress::Claimed)
}

/// Whether it came back.
pub fn is_done(progress: &Progress) -> bool
    ensures { result ≡ is_done progress.now }
{
    matches!(progress, Progress::Done(_) | Progress::Dropped)
}

/// Whether a pair stands before those of a version and a rank.
fn is_before(pair: &Pair, version: u64, rank: u32) -> bool
    ensures { result ≡ is_before pair.now version rank }
{
    pair.version < version || (pair.version == version && pair.rank < rank)
}

/// The place of the first pair that doesn't stand before those of a version and a rank.
pub fn place_of(pairs: &[Pair], version: u64, rank: u32) -> usize
    requires sorted { AreSorted pairs.now }
    ensures { IsPlaceOf pairs.now version rank result }
{
    match pairs.last() {
        Some(last) if is_before(last, version, rank) => pairs.len(),
        _ => place_by_halving(pairs, version, rank),
    }
}

/// The same place, where the pairs are halved until it is found.
fn place_by_halving(pairs: &[Pair], version: u64, rank: u32) -> usize
    requires sorted { AreSorted pairs.now }
    ensures { IsPlaceOf pairs.now version rank result }
{
    let mut low = 0;
    let mut high = pairs.len();
    while low < high {
        let middle = low + (high - low) / 2;
        if is_before(&pairs[middle], version, rank) {
            low = middle + 1;
        } else {
            high = middle;
        }
    }
    low
}

/// Whether a pair is that of a version and a rank.
fn is_of(pair: &Pair, version: u64, rank: u32) -> bool
    ensures { result ≡ ((pair.now.version == version) && (pair.now.rank == rank)) }
{
    pair.version == version && pair.rank == rank
}

/// The place of the pair of a version and a rank, where there is one.
pub fn find(pairs: &[Pair], version: u64, rank: u32) -> Option<usize>
    requires sorted { AreSorted pairs.now }
    ensures { MatchOption result (¬ (IsListed pairs.now version rank)) (λ place. HasAt pairs.now version rank place) }
{
    let near = place_near(pairs, rank);
    if near < pairs.len() && is_of(&pairs[near], version, rank) {
        return Some(near);
    }
    search(pairs, version, rank)
}

/// The place where a rank stands if the last pairs are of the ranks one after another, as they are once all contracts were asked
/// for.
fn place_near(pairs: &[Pair], rank: u32) -> usize {
    match pairs.last() {
        Some(last) => (pairs.len() - 1).saturating_sub(last.rank.saturating_sub(rank) as usize),
        None => 0,
    }
}

/// The same by a binary search.
fn search(pairs: &[Pair], version: u64, rank: u32) -> Option<usize>
    requires sorted { AreSorted pairs.now }
    ensures { MatchOption result (¬ (IsListed pairs.now version rank)) (λ place. HasAt pairs.now version rank place) }
{
    let place = place_of(pairs, version, rank);
    if place < pairs.len() && is_of(&pairs[place], version, rank) {
        Some(place)
    } else {
        None
    }
}

/// Whether the pair of a version and a rank was claimed and hasn't come back.
pub fn is_claimed(pairs: &[Pair], version: u64, rank: u32) -> bool
    requires sorted { AreSorted pairs.now }
    ensures yes { result ≡ true → IsUnderWay pairs.now version rank }
    ensures no { result ≡ false → ¬ (IsUnderWay pairs.now version rank) }
{
    match find(pairs, version, rank) {
        Some(place) => is_under_way(&pairs[place].progress),
        None => false,
    }
}

/// Writes how far the pair of a version and a rank is.
pub fn put_progress(pairs: &mut [Pair], version: u64, rank: u32, progress: Progress)
    requires sorted { AreSorted pairs.old }
    requires listed { IsListed pairs.old version rank }
    ensures { IsPut pairs.old version rank progress pairs.new }
{
    match find(pairs, version, rank) {
        Some(place) => pairs[place].progress = progress,
        None => unreachable!(),
    }
}

/// The place of the first pair that waits, from a place on before which none does; where none waits, a place behind all pairs.
pub fn first_waiting(pairs: &[Pair], front: usize) -> usize
    requires past { IsPast pairs.now front }
    ensures past { IsPast pairs.now result }
    ensures waits { (pair : Pair) → slice_get pairs.now result ≡ Some pair → is_waiting pair.progress ≡ true }
{
    let mut place = front;
    while place < pairs.len() && !is_waiting(&pairs[place].progress) {
        place += 1;
    }
    place
}

/// Adds the pair of a version and a rank, where it isn't there. There is room for it.
pub fn want(pairs: &mut Vec<Pair>, version: u64, rank: u32)
    requires sorted { AreSorted pairs.old.items }
    requires room { length pairs.old.items < vec_capacity pairs.old }
    ensures added { IsAdded pairs.old.items version rank pairs.new.items }
    ensures room { vec_capacity pairs.old ≤ vec_capacity pairs.new }
{
    if find(pairs, version, rank).is_some() {
        return;
    }
    let place = place_of(pairs, version, rank);
    let pair = Pair {
        version,
        rank,
        progress: Progress::Waiting,
    };
    let Ok(()) = pairs.insert(place, pair) else {
        unreachable!()
    };
}
