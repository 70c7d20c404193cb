//! What may be least in the cut from any place of a book on.
ghost use Rattle.std.specs.Prelude.{◌≡◌, ◌<◌, ◌≤◌, ◌==◌, ◌∷◌, ◌++◌, [], ℕ, Bool, List, length, IfErr, IfOk, IfSome, IsSome};
ghost use Rattle.std.specs.List.{All, list_any};
ghost use Rattle.act_model.specs.declared.observed.Obs.{Obs};
ghost use Rattle.act_profile.specs.Reads.{cut_by, day_of_entry};
ghost use Rattle.act_cut.specs.Cut.{lesser};
ghost use Rattle.act_cut.specs.Lows.{AreChanges, AreListed, least_by};

use crate::lows::{Low, least_day, put_low};
use act_date::Day;
use act_model::{Obs, Reads};
use act_num::NoMemory;
use std::alloc::Global;

/// For each code the days of its rates, and for each contract those of its events, of which any may be the least from some
/// place of a book on.
#[derive(Drop)]
pub(crate) struct Changes {
    pub rates: Vec<Vec<Low>>,
    pub events: Vec<Vec<Low>>,
}

impl Changes {
    /// Of no entries, for so many codes and so many contracts.
    pub fn new(alloc: Global, codes: usize, contracts: usize) -> Result<Changes, NoMemory>
        ensures none { IfOk result (λ changes. AreChanges [] changes) }
        ensures codes { IfOk result (λ changes. length changes.rates.items ≡ codes) }
        ensures contracts { IfOk result (λ changes. length changes.events.items ≡ contracts) }
    {
        let rates = no_lows(alloc, codes)?;
        let events = no_lows(alloc, contracts)?;
        Ok(Changes { rates, events })
    }

    /// Of no entries, for no code and no contract.
    pub fn none(alloc: Global) -> Changes
        ensures { AreChanges [] result }
    {
        Changes {
            rates: Vec::new(alloc),
            events: Vec::new(alloc),
        }
    }

    /// Takes in the entry behind those that were gone over.
    pub fn add(&mut self, place: u64, entry: &Obs) -> Result<(), NoMemory>
        ensures added { IfOk result (λ _. (entries : List Obs) → AreChanges entries self.old → place ≡ length entries → AreChanges (entries ++ entry.now ∷ []) self.new) }
        ensures unchanged { IfErr result (λ _. (entries : List Obs) → AreChanges entries self.old → AreChanges entries self.new) }
    {
        match *entry {
            Obs::Rate { code, day, .. } => add_day(&mut self.rates, code, place, day),
            Obs::Event { contract, day, .. } => add_day(&mut self.events, contract, place, day),
        }
    }

    /// The cut from place `from` up to `to` for a contract that reads this, or None where the days don't tell it.
    pub fn cut(&self, reads: &Reads, from: u64, to: u64) -> Option<Option<Day>>
        ensures cut { IfSome result (λ cut. (entries : List Obs) → AreChanges entries self.now → to ≤ length entries
            → cut ≡ cut_by reads.now.codes reads.now.contracts entries from to) }
        ensures told { (entries : List Obs) → AreChanges entries self.now → to ≡ length entries
            → All (λ code. code < length self.now.rates.items) reads.now.codes
            → All (λ contract. contract < length self.now.events.items) reads.now.contracts → IsSome result }
    {
        let of_rates = least_of(&self.rates, &reads.codes, from, to)?;
        let of_events = least_of(&self.events, &reads.contracts, from, to)?;
        Some(lesser(of_rates, of_events))
    }
}

/// So many lists without days.
fn no_lows(alloc: Global, count: usize) -> Result<Vec<Vec<Low>>, NoMemory>
    ensures count { IfOk result (λ lists. length lists.items ≡ count) }
    ensures none { IfOk result (λ lists. All (λ lows. lows.items ≡ []) lists.items) }
{
    let mut lists = Vec::with_capacity(alloc, count)?;
    for _list in 0..count {
        lists.push(Vec::new(alloc))?;
    }
    Ok(lists)
}

/// Takes in the entry behind those that were gone over, in the list of its number, where there is one.
fn add_day(lists: &mut [Vec<Low>], number: u32, place: u64, day: Day) -> Result<(), NoMemory>
    ensures added { IfOk result (λ _. (test : ℕ → Obs → Bool) (entries : List Obs) (entry : Obs) → AreListed test entries lists.old
        → place ≡ length entries → ((n : ℕ) → test n entry ≡ (n == number)) → day ≡ day_of_entry entry
        → AreListed test (entries ++ entry ∷ []) lists.new) }
    ensures unchanged { IfErr result (λ _. (test : ℕ → Obs → Bool) (entries : List Obs) → AreListed test entries lists.old → AreListed test entries lists.new) }
    ensures count { length lists.new ≡ length lists.old }
{
    let list = number as usize;
    if list < lists.len() {
        return put_low(&mut lists[list], place, day);
    }
    Ok(())
}

/// The least day of the entries of these numbers from place `from` up to `to`, or None where the days don't tell it.
fn least_of(lists: &[Vec<Low>], numbers: &[u32], from: u64, to: u64) -> Option<Option<Day>>
    ensures least { IfSome result (λ least. (test : ℕ → Obs → Bool) (entries : List Obs) → AreListed test entries lists.now
        → to ≤ length entries → least ≡ least_by (λ entry. list_any (λ n. test n entry) numbers.now) entries from to) }
    ensures told { (test : ℕ → Obs → Bool) (entries : List Obs) → AreListed test entries lists.now
        → to ≡ length entries → All (λ n. n < length lists.now) numbers.now → IsSome result }
{
    let mut least = None;
    for number in numbers {
        let lows = lists.get(*number as usize)?;
        least = lesser(least, least_day(lows, from, to)?);
    }
    Some(least)
}

/// The lesser of two days, where there are two.
fn lesser(first: Option<Day>, second: Option<Day>) -> Option<Day>
    ensures { result ≡ lesser first second }
{
    match (first, second) {
        (Some(first), Some(second)) => Some(first.min(second)),
        (first, None) => first,
        (None, second) => second,
    }
}
