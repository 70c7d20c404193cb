//! Runs that nobody can ask for any more.
ghost use Rattle.std.specs.Prelude.{◌≡◌, ◌≤◌, ◌<◌, ℕ, true, false, Some};
ghost use Rattle.std.specs.List.{slice_get};
ghost use Rattle.act_keeping.specs.Dropping.{Drops, IsDropped, IsLeast, NoneOf};
ghost use Rattle.act_keeping.specs.Keeping.{is_kept};
ghost use Rattle.act_keeping.specs.declared.pair.Pair.{Pair};

use crate::caller::Caller;
use crate::pair::{Pair, Progress, is_done};
use act_model::Asking;
use std::collections::VecDeque;

/// Drops runs of pairs, from a place on, none but those of versions before a given one that no open ask is of. It answers where it
/// stopped: from the first place up to there no run is left.
pub fn drop_runs(pairs: &mut [Pair], from: usize, callers: &[Caller], version: u64) -> usize
    ensures dropped { Drops pairs.old callers.now version pairs.new }
    ensures gone { (k : ℕ) (pair : Pair) → from ≤ k → k < result → slice_get pairs.new k ≡ Some pair → is_kept pair.progress ≡ false }
{
    if from >= pairs.len() || !is_before(&pairs[from], version) {
        return from;
    }
    let least = least_open(callers, version);
    let mut place = from;
    while place < pairs.len() && is_before(&pairs[place], least) {
        drop_run(&mut pairs[place]);
        place += 1;
    }
    place
}

/// Drops the run of a pair, where it has one.
fn drop_run(pair: &mut Pair)
    ensures dropped { IsDropped pair.old pair.new }
    ensures gone { is_kept pair.new.progress ≡ false }
{
    if is_done(&pair.progress) {
        pair.progress = Progress::Dropped;
    }
}

/// Whether a pair is of a version before one.
fn is_before(pair: &Pair, version: u64) -> bool
    ensures { result ≡ true → pair.now.version < version }
{
    pair.version < version
}

/// The least version that open asks are of, or another one, where that is less.
fn least_open(callers: &[Caller], version: u64) -> u64
    ensures { IsLeast callers.now version result }
{
    let mut least = version;
    for caller in callers {
        least = least_of(&caller.open_asks, least);
    }
    least
}

/// The least version that some asks are of, or another one, where that is less.
fn least_of(asks: &VecDeque<Asking>, version: u64) -> u64
    ensures within { result ≤ version }
    ensures least { (v : ℕ) → v < result → NoneOf asks.now.items v }
{
    let mut least = version;
    for place in 0..asks.len() {
        least = least.min(asks[place].version);
    }
    least
}
