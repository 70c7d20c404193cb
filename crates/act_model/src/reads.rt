//! What evaluations read.

use std::marker::Model;

/// What the evaluation of a contract reads, with that of all contracts that it reaches: an entry of a book touches it where
/// it is a rate of one of these codes or an event of one of these contracts.
#[derive(Drop)]
pub struct Reads {
    /// The codes, ascending.
    pub codes: Vec<u32>,
    /// The contracts whose events are observed, ascending; a shadow has those of its underlying.
    pub contracts: Vec<u32>,
}

impl Model for Reads {
    ghost use Rattle.act_model.specs.Reads.{Readings};

    ghost Value = { Readings };

    ghost view = { λ r. record { codes = r.codes.items; contracts = r.contracts.items } };
}
