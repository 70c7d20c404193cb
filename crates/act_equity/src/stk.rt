//! STK: a stock, which pays the dividends that are observed.
use act_kind::{Payment, Table, pass, signed, trade_payoff};
use act_model::{Common, Event, EventType, State};
use act_num::Fixed;
use std::marker::Model;

/// A stock: its terms, which are those that every contract has. Contracts see them.
#[derive(Drop)]
pub(crate) struct Stock<'a> {
    common: &'a Common,
}

impl<'a> Model for Stock<'a> {
    ghost use Rattle.act_model.specs.declared.terms.Common.{Common};

    ghost Value = { Common };

    ghost view = { λ s. s.common.now };
}

impl<'a> Stock<'a> {
    ghost use Rattle.std.specs.Prelude.{◌≡◌};

    /// The stock of these terms.
    pub(crate) fn new(common: &'a Common) -> Stock<'a>
        ensures { result ≡ common.now }
    {
        Stock { common }
    }
}

impl Table for Stock<'_> {
    ghost use Rattle.act_profile.specs.Equity.{stock_line};
    ghost use Rattle.act_profile.specs.Trade.{passed};

    ghost line = { λ s event. stock_line s event event.kind };

    ghost accrual = { λ s event state. passed event.kind event.calc state };

    fn payment(&self, event: &Event) -> Payment {
        match event.kind {
            EventType::DV | EventType::PRD | EventType::TD => Payment::Amount,
            _ => Payment::Nothing,
        }
    }

    fn change_code(&self, _event: &Event) -> Option<u32> {
        None
    }

    fn accrue(&self, event: &Event, state: &mut State) -> Option<()> {
        pass(event.kind, event.calc, state);
        Some(())
    }

    fn payoff(&self, event: &Event, _value: Option<Fixed>, _state: &State) -> Option<Fixed> {
        match event.kind {
            EventType::DV => Some(signed(self.common.contract_role, event.value)),
            other => Some(trade_payoff(self.common, other)),
        }
    }

    fn change(&self, _event: &Event, _value: Option<Fixed>, _state: &mut State) -> Option<()> {
        Some(())
    }
}
