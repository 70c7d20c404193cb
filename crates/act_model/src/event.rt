//! Events.
use act_date::Day;
use act_num::Fixed;

/// The types of events, in the order in which events of one day are taken (this profile's own).
#[derive(Clone, Copy, Debug, PartialEq, Eq, PartialOrd, Ord)]
pub enum EventType {
    /// Initial exchange.
    IED,
    /// Principal redemption.
    PR,
    /// Principal prepayment.
    PP,
    /// Penalty payment.
    PY,
    /// Fee payment.
    FP,
    /// Purchase.
    PRD,
    /// Termination.
    TD,
    /// Interest payment.
    IP,
    /// Interest capitalization.
    IPCI,
    /// Rate reset to the rate that is fixed already.
    RRF,
    /// Rate reset to an observed rate.
    RR,
    /// Fixing of the annuity payment.
    PRF,
    /// Fixing of the interest calculation base.
    IPCB,
    /// Fixing of the scaling multipliers.
    SC,
    /// Dividend.
    DV,
    /// Maturity.
    MD,
    /// Credit event.
    CE,
    /// Exercise.
    XD,
    /// Settlement.
    STD,
}

/// An event of a contract.
#[derive(Clone, Copy, PartialEq, Eq)]
pub struct Event {
    /// Its day.
    pub day: Day,
    /// The day that its computations go by.
    pub calc: Day,
    /// Its type.
    pub kind: EventType,
    /// The value of an observed event, in units of 10^-9; otherwise 0.
    pub value: Fixed,
    /// Where it comes from.
    pub source: Source,
}

/// Where an event comes from.
#[derive(Clone, Copy, PartialEq, Eq)]
pub enum Source {
    /// The contract's plan or its exercise, with the place of its date, from 0, among those of its line of the
    /// schedule; RR and RRF are one line.
    Scheduled(u32),
    /// An observation, with its place in the list of the contract's event entries, from 0.
    Observed(u64),
    /// A row of a child.
    Leg {
        /// The child's place, from 0.
        leg: u8,
        /// The row's place in the child's run, from 0.
        row: u32,
    },
    /// Two interest rows, paid net.
    Net {
        /// The place of the first leg's row, or of the underlying's.
        first: u32,
        /// The place of the second leg's row, or of the shadow's.
        second: u32,
    },
}
