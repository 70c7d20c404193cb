//! Which pairs may be claimed.
ghost use Rattle.std.specs.Prelude.{◌≡◌, ℕ, suc, true, false, ◌+◌, ◌<◌, ◌≤◌, [], Some, length, vec_capacity, OnOk};
ghost use Rattle.std.specs.List.{slice_get};
ghost use Rattle.act_keeping.specs.Keeping.{AreSorted, IsPast};
ghost use Rattle.act_keeping.specs.Ready.{AreDescending, AreFree, IsFree, IsNoted, IsPlaced, IsRanked, Lowers, MayLower, blocked};

use crate::pair::{Pair, find, is_waiting};
use act_num::NoMemory;
use std::alloc::Global;

/// What may be claimed of pairs that stand by version and then by rank: those that wait, where all children of the contract
/// have results at the version.
#[derive(Drop)]
pub struct Ready {
    /// Of each pair, how many of its contract's children lack a result at its version.
    pub lacking: Vec<usize>,
    /// The places of the pairs that may be claimed, the greatest first.
    pub places: Vec<usize>,
}

/// Of no pairs.
pub fn nothing_ready(alloc: Global) -> Ready
    ensures lacking { result.lacking.items ≡ [] }
    ensures places { result.places.items ≡ [] }
{
    Ready {
        lacking: Vec::new(alloc),
        places: Vec::new(alloc),
    }
}

/// Makes room for the counts of so many pairs, and for listing all of them. NoMemory where memory runs out. What is counted and
/// listed stays.
pub fn make_room_for_pairs(ready: &mut Ready, pairs: usize) -> Result<(), NoMemory>
    ensures lacking { ready.new.lacking.items ≡ ready.old.lacking.items }
    ensures places { ready.new.places.items ≡ ready.old.places.items }
    ensures kept { vec_capacity ready.old.places ≤ vec_capacity ready.new.places }
    ensures counts { OnOk result (pairs ≤ vec_capacity ready.new.lacking) }
    ensures room { OnOk result (pairs ≤ vec_capacity ready.new.places) }
{
    let counted = ready.lacking.len();
    ready.lacking.reserve(pairs.saturating_sub(counted))?;
    let listed = ready.places.len();
    Ok(ready.places.reserve(pairs.saturating_sub(listed))?)
}

/// Lists the places of the pairs that wait for no result, the greatest first. No pair before `front` waits, and there is room.
pub fn list_free(places: &mut Vec<usize>, lacking: &[usize], pairs: &[Pair], front: usize)
    requires count { length lacking.now ≡ length pairs.now }
    requires past { IsPast pairs.now front }
    requires room { length pairs.now ≤ vec_capacity places.old }
    ensures free { AreFree pairs.now lacking.now places.new.items }
    ensures room { length places.new.items + blocked lacking.now ≤ vec_capacity places.new }
{
    places.clear();
    let mut place = pairs.len();
    while place > front {
        place -= 1;
        if is_free(pairs, lacking, place) {
            let Ok(()) = places.push(place) else {
                unreachable!()
            };
        }
    }
}

/// Whether the pair at a place waits for no result.
fn is_free(pairs: &[Pair], lacking: &[usize], place: usize) -> bool
    requires within { place < length pairs.now }
    requires count { length lacking.now ≡ length pairs.now }
    ensures yes { result ≡ true → IsFree pairs.now lacking.now place }
    ensures no { result ≡ false → ¬ (IsFree pairs.now lacking.now place) }
{
    is_waiting(&pairs[place].progress) && lacking[place] == 0
}

/// Counts one result more for the pair of a version and a rank, where there is one that waits.
pub fn note(ready: &mut Ready, pairs: &[Pair], version: u64, rank: u32)
    requires sorted { AreSorted pairs.now }
    requires count { length ready.old.lacking.items ≡ length pairs.now }
    requires free { AreFree pairs.now ready.old.lacking.items ready.old.places.items }
    requires lacks { MayLower pairs.now version rank ready.old.lacking.items }
    requires room { length ready.old.places.items + blocked ready.old.lacking.items ≤ vec_capacity ready.old.places }
    ensures count { length ready.new.lacking.items ≡ length pairs.now }
    ensures free { AreFree pairs.now ready.new.lacking.items ready.new.places.items }
    ensures noted { IsNoted pairs.now version rank ready.old.lacking.items ready.new.lacking.items }
    ensures room { length ready.new.places.items + blocked ready.new.lacking.items ≤ vec_capacity ready.new.places }
{
    let Some(place) = find(pairs, version, rank) else {
        return;
    };
    if is_waiting(&pairs[place].progress) {
        lower(ready, place);
    }
}

/// Counts one result more for the pair at a place, which waits for one.
fn lower(ready: &mut Ready, place: usize)
    requires waits { (count : ℕ) × (slice_get ready.old.lacking.items place ≡ Some (suc count)) }
    requires descending { AreDescending ready.old.places.items }
    requires room { length ready.old.places.items + blocked ready.old.lacking.items ≤ vec_capacity ready.old.places }
    ensures lowered { Lowers place ready.old.lacking.items ready.old.places.items ready.new.lacking.items ready.new.places.items }
    ensures room { length ready.new.places.items + blocked ready.new.lacking.items ≤ vec_capacity ready.new.places }
{
    ready.lacking[place] -= 1;
    if ready.lacking[place] == 0 {
        put_place(&mut ready.places, place);
    }
}

/// Puts a place among others, the greatest first. There is room for it.
fn put_place(places: &mut Vec<usize>, place: usize)
    requires descending { AreDescending places.old.items }
    requires room { length places.old.items < vec_capacity places.old }
    ensures placed { IsPlaced places.old.items place places.new.items }
    ensures kept { vec_capacity places.old ≤ vec_capacity places.new }
{
    let index = index_of(places, place);
    let Ok(()) = places.insert(index, place) else {
        unreachable!()
    };
}

/// How many places are greater than one.
fn index_of(places: &[usize], place: usize) -> usize
    requires descending { AreDescending places.now }
    ensures { IsRanked places.now place result }
{
    let mut low = 0;
    let mut high = places.len();
    while low < high {
        let middle = low + (high - low) / 2;
        if places[middle] > place {
            low = middle + 1;
        } else {
            high = middle;
        }
    }
    low
}
