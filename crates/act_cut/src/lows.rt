//! The days of some of a book's entries, of which any may be the least from some place on.
ghost use Rattle.std.specs.Prelude.{◌≡◌, ◌≤◌, ◌∷◌, ◌++◌, [], Bool, List, length, true, IfErr, IfOk, IfSome, IsSome};
ghost use Rattle.act_model.specs.declared.observed.Obs.{Obs};
ghost use Rattle.act_profile.specs.Reads.{day_of_entry};
ghost use Rattle.act_cut.specs.Lows.{AreLows, least_by};

use act_date::Day;
use act_num::NoMemory;

/// The day of an entry, and the entry's place among those of a book, from 0.
#[derive(Clone, Copy)]
pub(crate) struct Low {
    pub place: u64,
    pub day: Day,
}

/// Takes in the entry behind those that were gone over: days that aren't before its own can't be the least any more.
pub(crate) fn put_low(lows: &mut Vec<Low>, place: u64, day: Day) -> Result<(), NoMemory>
    ensures put { IfOk result (λ _. (test : Obs → Bool) (entries : List Obs) (entry : Obs) → AreLows test entries lows.old.items
        → place ≡ length entries → test entry ≡ true → day ≡ day_of_entry entry → AreLows test (entries ++ entry ∷ []) lows.new.items) }
    ensures unchanged { IfErr result (λ _. lows.new.items ≡ lows.old.items) }
{
    let kept = lows.partition_point(|low| low.day < day);
    if kept < lows.len() {
        lows[kept] = Low { place, day };
        lows.truncate(kept + 1);
        return Ok(());
    }
    lows.push(Low { place, day })?;
    Ok(())
}

/// The least day of the entries from place `from` up to `to`, or None where these days don't tell it: never where they are of
/// the entries up to `to`.
pub(crate) fn least_day(lows: &[Low], from: u64, to: u64) -> Option<Option<Day>>
    ensures least { IfSome result (λ least. (test : Obs → Bool) (entries : List Obs) → AreLows test entries lows.now
        → to ≤ length entries → least ≡ least_by test entries from to) }
    ensures told { (test : Obs → Bool) (entries : List Obs) → AreLows test entries lows.now → to ≡ length entries → IsSome result }
{
    let first = lows.partition_point(|low| low.place < from);
    match lows.get(first) {
        Some(low) if low.place < to => Some(Some(low.day)),
        Some(_) => None,
        None => Some(None),
    }
}
