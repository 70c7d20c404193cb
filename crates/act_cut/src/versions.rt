//! Two versions of a book, and the cut between them.
ghost use Rattle.std.specs.Prelude.{◌≡◌, ◌≤◌, if◌then◌else◌, length, Some};
ghost use Rattle.std.specs.List.Sorted.{IsStrictlyIncreasing};
ghost use Rattle.act_profile.specs.Reads.{cut_by, day_of_entry, is_in, touches};
ghost use Rattle.act_cut.specs.Cut.{AreAscending, earlier};

use act_date::Day;
use act_model::{Obs, Observed, Reads};

/// The cut between two versions of a book for a contract that reads this: the least day, counted from 1970-01-01, of the
/// entries from place `from` up to `to` that touch it, or None where no entry between does. It takes no memory.
pub fn cut<O: Observed>(reads: &Reads, seen: &O, from: u64, to: u64) -> Option<Day>
    requires order { from ≤ to }
    requires within { to ≤ length (O.entries seen.now) }
    requires ascending { AreAscending reads.now }
    ensures cut { result ≡ cut_by reads.now.codes reads.now.contracts (O.entries seen.now) from to }
{
    let mut least = None;
    for place in from..to {
        if let Some(entry) = seen.entry(place) {
            least = with_entry(least, reads, &entry);
        }
    }
    least
}

/// The least day once there is an entry more: a day more where the entry touches what is read, and else the same.
fn with_entry(least: Option<Day>, reads: &Reads, entry: &Obs) -> Option<Day>
    requires ascending { AreAscending reads.now }
    ensures { result ≡ if touches reads.now.codes reads.now.contracts entry.now then Some (earlier least (day_of_entry entry.now)) else least }
{
    if touches(reads, entry) {
        Some(earlier(least, day_of(entry)))
    } else {
        least
    }
}

/// The least day once there is a day more.
fn earlier(least: Option<Day>, day: Day) -> Day
    ensures { result ≡ earlier least day }
{
    match least {
        Some(least) => least.min(day),
        None => day,
    }
}

/// Whether an entry touches what is read: it is a rate of one of the codes, or an event of one of the contracts.
fn touches(reads: &Reads, entry: &Obs) -> bool
    requires ascending { AreAscending reads.now }
    ensures { result ≡ touches reads.now.codes reads.now.contracts entry.now }
{
    match *entry {
        Obs::Rate { code, .. } => is_in(&reads.codes, code),
        Obs::Event { contract, .. } => is_in(&reads.contracts, contract),
    }
}

/// Whether a number is one of an ascending list, which is halved until it is found.
fn is_in(numbers: &[u32], number: u32) -> bool
    requires ascending { IsStrictlyIncreasing numbers.now }
    ensures { result ≡ is_in numbers.now number }
{
    numbers.binary_search(&number).is_ok()
}

/// The day of an entry.
fn day_of(entry: &Obs) -> Day
    ensures { result ≡ day_of_entry entry.now }
{
    match *entry {
        Obs::Rate { day, .. } | Obs::Event { day, .. } => day,
    }
}
