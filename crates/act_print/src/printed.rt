//! What is printed of a journal and its answers.
use act_date::Day;
use act_model::{Close, EventType, Item};
use act_num::Fixed;
use std::marker::Model;

/// A journal and its answers, as they are printed.
#[derive(Drop)]
pub struct Printed {
    /// The items of the journal.
    pub items: Vec<Item>,
    /// The answers, by caller and then by number.
    pub answers: Vec<PrintedAnswer>,
}

impl Model for Printed {
    ghost use Rattle.act_print.specs.Printed.{Transcript};

    ghost Value = { Transcript };

    ghost view = { λ p. record { items = p.items.items; answers = p.answers.items } };
}

/// The answer to an ask, as it is printed.
#[derive(Drop)]
pub struct PrintedAnswer {
    /// The caller's number, from 1.
    pub caller: u32,
    /// The ask's number among the caller's, from 1.
    pub number: u32,
    /// How many entries of the book it was evaluated over.
    pub version: u64,
    /// The contracts asked for, in portfolio order.
    pub blocks: Vec<PrintedBlock>,
}

impl Model for PrintedAnswer {
    ghost use Rattle.act_print.specs.Printed.{Response};

    ghost Value = { Response };

    ghost view = { λ a. record { caller = a.caller; number = a.number; version = a.version; blocks = a.blocks.items } };
}

/// The rows of a contract, as they are printed, and why there are no more.
#[derive(Drop)]
pub struct PrintedBlock {
    /// The contract's number.
    pub contract: u32,
    /// The rows, in the order in which they stand.
    pub rows: Vec<PrintedRow>,
    /// Why there are no more.
    pub close: Close,
}

impl Model for PrintedBlock {
    ghost use Rattle.act_print.specs.Printed.{Block};

    ghost Value = { Block };

    ghost view = { λ b. record { contract = b.contract; rows = b.rows.items; close = b.close } };
}

/// What is printed of a row. Amounts and rates are in units of 10^-9.
#[derive(Clone, Copy, PartialEq, Eq)]
pub struct PrintedRow {
    /// The event's day.
    pub day: Day,
    /// The event's type.
    pub kind: EventType,
    /// The number of the currency of the payoff.
    pub currency: u32,
    /// The payoff.
    pub payoff: Fixed,
    /// The notional after the event.
    pub nt: Fixed,
    /// The rate of interest after the event.
    pub ipnr: Fixed,
    /// The interest accrued after the event.
    pub ipac: Fixed,
}
