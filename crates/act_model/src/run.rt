//! Plans and runs.
ghost use Rattle.std.specs.Prelude.{◌≡◌, IfOk};
ghost use Rattle.std.specs.List.{All, filter};
ghost use Rattle.act_date.specs.Civil.{IsDay};
ghost use Rattle.act_model.specs.Bounds.{IsDated};
ghost use Rattle.act_model.specs.Run.{may_end, row_with};
ghost use Rattle.act_model.specs.declared.event.Event.{Event};
ghost use Rattle.act_model.specs.declared.run.PlanFault.TheVariants as faults;

use crate::event::{Event, EventType};
use crate::rows::Rows;
use crate::state::State;
use act_date::{Day, Frac};
use act_num::{Fixed, NoMemory};
use std::alloc::{AllocError, AllocFailed, Global};
use std::marker::Model;

/// What a row has beside the state: the event, and what it pays.
#[derive(Clone, Copy)]
pub struct RowHead {
    /// The event's day.
    pub day: Day,
    /// The event's type.
    pub kind: EventType,
    /// The currency of the payoff, by its number.
    pub currency: u32,
    /// The payoff, in units of 10^-9.
    pub payoff: Fixed,
}

/// What an event pays, and the state that it leaves.
#[derive(Clone, Copy, PartialEq, Eq)]
pub struct Row {
    /// The event's day.
    pub day: Day,
    /// The event's type.
    pub kind: EventType,
    /// The currency of the payoff.
    pub currency: u32,
    /// The payoff, in units of 10^-9.
    pub payoff: Fixed,
    /// The state after the event.
    pub state: State,
}

impl Row {
    /// What it has beside the state.
    pub fn head(&self) -> RowHead
        ensures { row_with result self.now.state ≡ self.now }
    {
        RowHead {
            day: self.day,
            kind: self.kind,
            currency: self.currency,
            payoff: self.payoff,
        }
    }
}

// A run of a thousand rows takes at most a quarter of a megabyte.
const _: () = prove!(size_of::<Row>() <= 256);

/// Why a run has no further rows.
#[derive(Clone, Copy, PartialEq, Eq)]
pub enum Close {
    /// All events were taken.
    End,
    /// An observation that the next event reads isn't there.
    Missing {
        /// The code that has none.
        code: u32,
        /// The day on which it was read.
        day: Day,
    },
    /// An amount of the next event is undefined: it isn't a number of the range, or a divisor isn't positive.
    Overflow {
        /// The event's day.
        day: Day,
        /// The event's type.
        kind: EventType,
    },
}

/// Why a run stops before its end.
#[derive(Clone, Copy, PartialEq, Eq)]
pub enum Stop {
    /// An observation that an event reads isn't there.
    Missing {
        /// The code that has none.
        code: u32,
        /// The day on which it was read.
        day: Day,
    },
    /// An amount of an event is undefined: it isn't a number of the range, or a divisor isn't positive.
    Overflow {
        /// The event's day.
        day: Day,
        /// The event's type.
        kind: EventType,
    },
}

/// The rows of a contract, and why there are no more.
#[derive(Drop)]
pub struct Run {
    /// Why there are no more rows.
    pub close: Close,
    /// One row for each event, in order.
    pub rows: Rows,
}

impl Model for Run {
    ghost use Rattle.act_model.specs.Run.{Stream};

    ghost Value = { Stream };

    ghost view = { λ r. record { rows = r.rows; close = r.close } };
}

/// The scheduled events of a contract.
#[derive(Drop)]
pub struct Plan {
    /// The events, ordered by day, type and unshifted date.
    pub events: Vec<Event>,
    /// The days that an annuity's redemptions go by, and then the day that its maturity goes by.
    pub redemptions: Vec<Day>,
    /// The parts of a year between these days.
    pub periods: Vec<Frac>,
    /// Of the events the terminations and the maturities, which are asked for at each event before a purchase, and where a plan's
    /// end is looked for.
    ends: Vec<Event>,
}

impl Model for Plan {
    ghost use Rattle.std.specs.Prelude.{◌≡◌};
    ghost use Rattle.std.specs.List.{All, filter};
    ghost use Rattle.act_date.specs.Civil.{IsDay};
    ghost use Rattle.act_model.specs.Run.{EventPlan, may_end};
    ghost use Rattle.act_model.specs.declared.event.Event.{Event};

    ghost Value = { EventPlan };

    ghost view = { λ p. record { events = p.events.items; redemptions = p.redemptions.items; periods = p.periods.items } };

    ghost invariant = { λ p. (p.ends.items ≡ filter may_end p.events.items) × All (λ (event : Event). IsDay event.day) p.events.items };
}

impl Plan {
    /// The plan of these events, redemptions and periods.
    pub fn new(
        events: Vec<Event>,
        redemptions: Vec<Day>,
        periods: Vec<Frac>,
    ) -> Result<Plan, NoMemory>
        ensures { IfOk result (λ plan. plan
            ≡ record { events = events.items; redemptions = redemptions.items; periods = periods.items }) }
    {
        are_dated(&events);
        let ends = ends_of(*events.allocator(), &events)?;
        Ok(Plan {
            events,
            redemptions,
            periods,
            ends,
        })
    }

    /// Of the events the terminations and the maturities, in order: each event that can end the contract.
    pub fn ends(&self) -> &[Event]
        ensures { result.now ≡ filter may_end self.now.events }
    {
        &self.ends
    }

    /// Its events stand on days. It does nothing, and stands where a proof needs this.
    #[inline(always)]
    pub fn is_dated(&self)
        ensures { IsDated self.now }
    {
        let _ = &self.ends;
    }
}

/// Events stand on days.
fn are_dated(events: &[Event])
    ensures { All (λ (event : Event). IsDay event.day) events.now }
{
    'events: for event in events {
        let _ = event.day.number();
    }
}

/// Of events the terminations and the maturities.
fn ends_of(alloc: Global, events: &[Event]) -> Result<Vec<Event>, NoMemory>
    ensures { IfOk result (λ ends. ends.items ≡ filter may_end events.now) }
{
    let mut ends = Vec::new(alloc);
    'events: for event in events {
        if may_end(event) {
            ends.push(*event)?;
        }
    }
    Ok(ends)
}

/// Whether an event is a termination or a maturity.
fn may_end(event: &Event) -> bool
    ensures { result ≡ may_end event.now }
{
    matches!(event.kind, EventType::TD | EventType::MD)
}

/// Why terms have no plan.
#[derive(Clone, Copy, PartialEq, Eq)]
pub enum PlanFault {
    /// There are more than 4,096 scheduled events, or redemptions of a LAM whose maturity is derived.
    TooManyDates,
    /// A date leaves 1900 to 2299, or a derived maturity isn't after the initial exchange.
    DateRange,
    /// Memory ran out.
    NoMemory,
}

impl From<AllocError> for PlanFault {
    ghost from_gives = { λ _ fault. fault ≡ faults.NoMemory };

    fn from(_error: AllocError) -> PlanFault {
        PlanFault::NoMemory
    }
}

impl<T: Drop> From<AllocFailed<T>> for PlanFault {
    ghost from_gives = { λ _ fault. fault ≡ faults.NoMemory };

    fn from(_error: AllocFailed<T>) -> PlanFault {
        PlanFault::NoMemory
    }
}

impl From<NoMemory> for PlanFault {
    ghost from_gives = { λ _ fault. fault ≡ faults.NoMemory };

    fn from(_error: NoMemory) -> PlanFault {
        PlanFault::NoMemory
    }
}
