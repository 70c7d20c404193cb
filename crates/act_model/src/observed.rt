//! Observations, and what is seen of them.
ghost use Rattle.std.specs.Prelude.{◌≡◌, ℕ, ℤ, ◌↔◌, List, None, Some, length, option_map, slice_get, IfOk};
ghost use Rattle.act_model.specs.Latest.{later};
ghost use Rattle.act_model.specs.Observed.{HasNoRate, IsLatestRate, is_event_of, observation, observed_events, rate_until};
ghost use Rattle.act_model.specs.declared.observed.Obs.{Obs};

use act_date::Day;
use act_num::{Fixed, NoMemory};
use std::alloc::Global;
use std::marker::Model;

/// An entry of a book of observations.
#[derive(Clone, Copy, PartialEq, Eq)]
pub enum Obs {
    /// The value of a market object.
    Rate {
        /// The number of its code.
        code: u32,
        /// The day of the value.
        day: Day,
        /// The value, in units of 10^-9.
        value: Fixed,
    },
    /// What a contract's parties did.
    Event {
        /// The contract's number.
        contract: u32,
        /// What they did.
        kind: ObsKind,
        /// The day on which they did it.
        day: Day,
        /// The amount, in units of 10^-9; of a credit event 0.
        value: Fixed,
    },
}

/// What is observed of contracts.
#[derive(Clone, Copy, Debug, PartialEq, Eq)]
pub enum ObsKind {
    /// A prepayment.
    PP,
    /// A dividend.
    DV,
    /// An exercise.
    XD,
    /// The credit event 'delayed'.
    DL,
    /// The credit event 'delinquent'.
    DQ,
    /// The credit event 'default'.
    DF,
}

/// A list of entries that can be looked through.
pub trait Observed {
    /// The entries.
    ghost entries: { Self → List Obs };

    /// How many entries there are.
    fn version(&self) -> u64
        ensures { result ≡ length (entries self.now) };

    /// The entry at a place from 0, or None past the end.
    fn entry(&self, place: u64) -> Option<Obs>
        ensures { result ≡ slice_get (entries self.now) place };

    /// The value of a market object on a day: among the entries of its code dated not after the day, those of
    /// the greatest day are taken, and of these the last in the list. None where there is none.
    fn value(&self, code: u32, day: Day) -> Option<Fixed>
        ensures { result ≡ observation (entries self.now) code day };

    /// The event entries of a contract, in the order of the list.
    fn events_of(&self, alloc: Global, contract: u32) -> Result<Vec<Obs>, NoMemory>
        ensures { IfOk result (λ events. events.items ≡ observed_events (entries self.now) contract) };
}

/// Entries as a plain list, which is looked through from end to end.
#[derive(Drop)]
pub struct Listed {
    entries: Vec<Obs>,
}

impl Model for Listed {
    ghost use Rattle.std.specs.Prelude.{List};
    ghost use Rattle.act_model.specs.declared.observed.Obs.{Obs};

    ghost Value = { List Obs };

    ghost view = { λ l. l.entries.items };
}

impl Listed {
    /// The entries of that vector.
    pub fn new(entries: Vec<Obs>) -> Listed
        ensures { result ≡ entries.items }
    {
        Listed { entries }
    }
}

impl Observed for Listed {
    ghost entries = { λ l. l };

    fn version(&self) -> u64 {
        self.entries.len() as u64
    }

    fn entry(&self, place: u64) -> Option<Obs> {
        self.entries.get(place as usize).copied()
    }

    fn value(&self, code: u32, day: Day) -> Option<Fixed> {
        value(&self.entries, code, day)
    }

    fn events_of(&self, alloc: Global, contract: u32) -> Result<Vec<Obs>, NoMemory> {
        events_of(&self.entries, alloc, contract)
    }
}

/// A law of the value of a market object on a day, which does nothing: some value is observed exactly where it
/// stands in a rate entry of the code dated not after the day, no such entry has a later day, and those behind it
/// have earlier days. None is observed exactly where there is no such entry.
pub fn observed_is_last_of_latest_day()
    ensures some { (entries : List Obs) (code : ℕ) (t value : ℤ) → (observation entries code t ≡ Some value) ↔ IsLatestRate entries code t value }
    ensures none { (entries : List Obs) (code : ℕ) (t : ℤ) → (observation entries code t ≡ None) ↔ HasNoRate entries code t }
{}

/// The value of a market object on a day, in one pass over all entries.
fn value(entries: &[Obs], code: u32, until: Day) -> Option<Fixed>
    ensures { result ≡ observation entries.now code until }
{
    let mut latest = None;
    for entry in entries {
        latest = later(latest, rate_until(*entry, code, until));
    }
    latest.map(|(_, value)| value)
}

/// The day and the value of an entry, where it is a rate of the code dated not after a day.
fn rate_until(entry: Obs, code: u32, until: Day) -> Option<(Day, Fixed)>
    ensures { result ≡ rate_until code until entry }
{
    match entry {
        Obs::Rate {
            code: of,
            day,
            value,
        } => (of == code && day <= until).then_some((day, value)),
        Obs::Event { .. } => None,
    }
}

/// The latest rate once there is a next one: the next, unless its day is before.
fn later(latest: Option<(Day, Fixed)>, next: Option<(Day, Fixed)>) -> Option<(Day, Fixed)>
    ensures { result ≡ later latest next }
{
    match (latest, next) {
        (Some(latest), Some(next)) => Some(if next.0 < latest.0 { latest } else { next }),
        (latest, None) => latest,
        (None, next) => next,
    }
}

/// The event entries of a contract, in order.
fn events_of(entries: &[Obs], alloc: Global, contract: u32) -> Result<Vec<Obs>, NoMemory>
    ensures { IfOk result (λ events. events.items ≡ observed_events entries.now contract) }
{
    let mut events = Vec::new(alloc);
    for entry in entries {
        if is_event_of(*entry, contract) {
            events.push(*entry)?;
        }
    }
    Ok(events)
}

/// Whether an entry is an event entry of the contract.
fn is_event_of(entry: Obs, contract: u32) -> bool
    ensures { result ≡ is_event_of contract entry }
{
    matches!(entry, Obs::Event { contract: of, .. } if of == contract)
}
