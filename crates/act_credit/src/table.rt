//! The table of steps of a guarantee, but for its credit event, which reads many codes.
use act_kind::{Payment, Table, pass, signed};
use act_model::{Common, Event, EventType, State};
use act_num::Fixed;
use std::marker::Model;

/// The table of a guarantee's steps. Contracts see the terms that every contract has.
#[derive(Drop)]
pub(crate) struct CreditTable<'a> {
    common: &'a Common,
}

impl<'a> Model for CreditTable<'a> {
    ghost use Rattle.act_model.specs.declared.terms.Common.{Common};

    ghost Value = { Common };

    ghost view = { λ t. t.common.now };
}

impl<'a> CreditTable<'a> {
    ghost use Rattle.std.specs.Prelude.{◌≡◌};

    /// The table of a guarantee with these terms.
    pub(crate) fn new(common: &'a Common) -> CreditTable<'a>
        ensures { result ≡ common.now }
    {
        CreditTable { common }
    }
}

impl Table for CreditTable<'_> {
    ghost use Rattle.act_profile.specs.Credit.{credit_line};
    ghost use Rattle.act_profile.specs.Trade.{passed};

    ghost line = { λ t event. credit_line t event.kind };

    ghost accrual = { λ t event state. passed event.kind event.calc state };

    fn payment(&self, event: &Event) -> Payment {
        match event.kind {
            EventType::STD => Payment::Amount,
            _ => Payment::Nothing,
        }
    }

    fn change_code(&self, _event: &Event) -> Option<u32> {
        None
    }

    fn accrue(&self, event: &Event, state: &mut State) -> Option<()> {
        pass(event.kind, event.calc, state);
        Some(())
    }

    fn payoff(&self, event: &Event, _value: Option<Fixed>, state: &State) -> Option<Fixed> {
        match event.kind {
            EventType::STD => Some(signed(self.common.contract_role, state.xa)),
            _ => Some(Fixed::ZERO),
        }
    }

    fn change(&self, event: &Event, _value: Option<Fixed>, state: &mut State) -> Option<()> {
        match event.kind {
            EventType::STD => state.xa = Fixed::ZERO,
            _ => {}
        }
        Some(())
    }
}
