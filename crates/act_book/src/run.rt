//! Runs of a book's entries.
ghost use Rattle.std.specs.Prelude.{◌≡◌, ◌++◌, length, IfOk};
ghost use Rattle.act_model.specs.Observed.{is_event_of, observed_events};
ghost use Rattle.std.specs.List.Sorted.{IsSortedBy};
ghost use Rattle.std.specs.Ordering.{is_ge};
ghost use Rattle.act_book.specs.Order.{AreSorted, before, is_before, order_of, rate_on};
ghost use Rattle.act_book.specs.Rates.{latest_rate};

use crate::order::order;
use crate::rates::rate_until;
use act_date::Day;
use act_model::Obs;
use act_num::{Fixed, NoMemory};
use std::alloc::Global;
use std::marker::Model;

/// Entries that stand one behind another in a book, with a copy of them in which those of one code, by day, and those of one
/// contract stand together.
#[derive(Drop)]
pub struct Run {
    entries: Vec<Obs>,
    sorted: Vec<Obs>,
}

impl Model for Run {
    ghost use Rattle.std.specs.Prelude.{List};
    ghost use Rattle.act_model.specs.declared.observed.Obs.{Obs};
    ghost use Rattle.act_book.specs.Order.{AreSorted};

    ghost Value = { List Obs };

    ghost view = { λ r. r.entries.items };

    ghost invariant = { λ r. AreSorted r.entries.items r.sorted.items };
}

impl Run {
    /// The run of these entries.
    pub fn new(alloc: Global, entries: &[Obs]) -> Result<Run, NoMemory>
        ensures { IfOk result (λ run. run ≡ entries.now) }
    {
        let sorted = sorted(entries.to_vec(alloc)?)?;
        let entries = entries.to_vec(alloc)?;
        Ok(Run { entries, sorted })
    }

    /// The run of this one's entries, and of those of one that follows it.
    pub fn joined(&self, next: &Run) -> Result<Run, NoMemory>
        ensures { IfOk result (λ run. run ≡ self.now ++ next.now) }
    {
        let entries = joined(&self.entries, &next.entries)?;
        let sorted = sorted(joined(&self.sorted, &next.sorted)?)?;
        Ok(Run { entries, sorted })
    }

    /// Its entries, in the order of the book.
    pub fn entries(&self) -> &[Obs]
        ensures { result.now ≡ self.now }
    {
        &self.entries
    }

    /// The day and the value of the latest rate of a code dated not after a day.
    pub fn latest(&self, code: u32, until: Day) -> Option<(Day, Fixed)>
        ensures { result ≡ latest_rate self.now code until }
    {
        latest_in_order(&self.sorted, code, until)
    }

    /// Puts the event entries of a contract behind some events, in the order of the book.
    pub fn push_events(&self, events: &mut Vec<Obs>, contract: u32) -> Result<(), NoMemory>
        ensures { IfOk result (λ _. events.new.items ≡ events.old.items ++ observed_events self.now contract) }
    {
        events.extend_from_slice(events_in_order(&self.sorted, contract))?;
        Ok(())
    }
}

/// The day and the value of the latest rate of a code dated not after a day, among entries in order.
fn latest_in_order(sorted: &[Obs], code: u32, until: Day) -> Option<(Day, Fixed)>
    requires { IsSortedBy before sorted.now }
    ensures { result ≡ latest_rate sorted.now code until }
{
    let end = sorted.partition_point(|entry| is_until(entry, code, until));
    match sorted[..end].last() {
        Some(entry) => rate_until(entry, code, until),
        None => None,
    }
}

/// The event entries of a contract, among entries in order.
fn events_in_order(sorted: &[Obs], contract: u32) -> &[Obs]
    requires { IsSortedBy before sorted.now }
    ensures { result.now ≡ observed_events sorted.now contract }
{
    let start = sorted.partition_point(|entry| is_before(entry, contract));
    let rest = &sorted[start..];
    let end = rest.partition_point(|entry| is_event_of(entry, contract));
    &rest[..end]
}

/// Puts the event entries of a contract behind some events, in one pass over the entries.
pub fn push_events(events: &mut Vec<Obs>, entries: &[Obs], contract: u32) -> Result<(), NoMemory>
    ensures { IfOk result (λ _. events.new.items ≡ events.old.items ++ observed_events entries.now contract) }
{
    for entry in entries {
        if is_event_of(entry, contract) {
            events.push(*entry)?;
        }
    }
    Ok(())
}

/// A list with another behind it.
fn joined(first: &Vec<Obs>, second: &[Obs]) -> Result<Vec<Obs>, NoMemory>
    ensures { IfOk result (λ both. both.items ≡ first.now.items ++ second.now) }
{
    let mut both = Vec::with_capacity(*first.allocator(), first.len() + second.len())?;
    both.extend_from_slice(first)?;
    both.extend_from_slice(second)?;
    Ok(both)
}

/// The entries sorted; those that the order doesn't tell apart stay in theirs.
fn sorted(entries: Vec<Obs>) -> Result<Vec<Obs>, NoMemory>
    ensures { IfOk result (λ sorted. AreSorted entries.items sorted.items) }
{
    let mut sorted = entries;
    sorted.sort_by(order)?;
    Ok(sorted)
}

/// Whether an entry is a rate of a code dated not after a day, or stands before those.
fn is_until(entry: &Obs, code: u32, until: Day) -> bool
    ensures { result ≡ is_ge (order_of (rate_on code until) entry.now) }
{
    match *entry {
        Obs::Rate { code: of, day, .. } => (of < code) | ((of == code) & (day <= until)),
        Obs::Event { .. } => false,
    }
}

/// Whether an entry stands before the events of a contract.
fn is_before(entry: &Obs, contract: u32) -> bool
    ensures { result ≡ is_before contract entry.now }
{
    match *entry {
        Obs::Rate { .. } => true,
        Obs::Event { contract: of, .. } => of < contract,
    }
}

/// Whether an entry is an event entry of a contract.
fn is_event_of(entry: &Obs, contract: u32) -> bool
    ensures { result ≡ is_event_of contract entry.now }
{
    matches!(*entry, Obs::Event { contract: of, .. } if of == contract)
}
