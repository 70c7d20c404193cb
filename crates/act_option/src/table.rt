//! The tables of steps of options and futures.
ghost use Rattle.std.specs.Prelude.{◌≡◌, ℤ, Option};
ghost use Rattle.act_kind.specs.Payment.{payment_of};
ghost use Rattle.act_model.specs.declared.event.Event.{Event};
ghost use Rattle.act_model.specs.declared.terms.Common.{Common};
ghost use Rattle.act_model.specs.declared.terms.Futur.{Futur};
ghost use Rattle.act_model.specs.declared.terms.Optns.{Optns};
ghost use Rattle.act_profile.specs.Exercise.{future_line, option_line};
ghost use Rattle.act_profile.specs.Step.{amount_of};

use crate::amounts::{exercise, option_amount, settle};
use act_kind::{Payment, Table, pass, signed, trade_payoff};
use act_model::{Common, Event, EventType, Futur, Optns, State};
use act_num::Fixed;
use std::marker::Model;

/// The table of steps of an option. Contracts see its terms.
#[derive(Drop)]
pub(crate) struct OptionTable<'a> {
    common: &'a Common,
    optns: &'a Optns,
}

impl<'a> Model for OptionTable<'a> {
    ghost use Rattle.act_model.specs.declared.terms.Common.{Common};
    ghost use Rattle.act_model.specs.declared.terms.Optns.{Optns};

    ghost Value = { Common × Optns };

    ghost view = { λ t. (t.common.now, t.optns.now) };
}

impl<'a> OptionTable<'a> {
    ghost use Rattle.std.specs.Prelude.{◌≡◌};

    /// The table of an option's terms.
    pub(crate) fn new(common: &'a Common, optns: &'a Optns) -> OptionTable<'a>
        ensures { result ≡ (common.now, optns.now) }
    {
        OptionTable { common, optns }
    }
}

impl Table for OptionTable<'_> {
    ghost use Rattle.act_profile.specs.Exercise.{option_line};
    ghost use Rattle.act_profile.specs.Trade.{passed};

    ghost line = { λ t event. option_line t.0 t.1 event event.kind };

    ghost accrual = { λ t event state. passed event.kind event.calc state };

    fn payment(&self, event: &Event) -> Payment {
        payment(event.kind)
    }

    fn change_code(&self, event: &Event) -> Option<u32> {
        match event.kind {
            EventType::XD => Some(self.optns.underlying),
            _ => None,
        }
    }

    fn accrue(&self, event: &Event, state: &mut State) -> Option<()> {
        pass(event.kind, event.calc, state);
        Some(())
    }

    fn payoff(&self, event: &Event, _value: Option<Fixed>, state: &State) -> Option<Fixed> {
        payoff(self.common, event.kind, state)
    }

    fn change(&self, event: &Event, value: Option<Fixed>, state: &mut State) -> Option<()> {
        match event.kind {
            EventType::XD => exercise(event.day, option_amount(self.optns, value?), state),
            EventType::STD => {
                settle(state);
                Some(())
            }
            _ => Some(()),
        }
    }
}

/// The table of steps of a future. Contracts see its terms.
#[derive(Drop)]
pub(crate) struct FutureTable<'a> {
    common: &'a Common,
    futur: &'a Futur,
}

impl<'a> Model for FutureTable<'a> {
    ghost use Rattle.act_model.specs.declared.terms.Common.{Common};
    ghost use Rattle.act_model.specs.declared.terms.Futur.{Futur};

    ghost Value = { Common × Futur };

    ghost view = { λ t. (t.common.now, t.futur.now) };
}

impl<'a> FutureTable<'a> {
    ghost use Rattle.std.specs.Prelude.{◌≡◌};

    /// The table of a future's terms.
    pub(crate) fn new(common: &'a Common, futur: &'a Futur) -> FutureTable<'a>
        ensures { result ≡ (common.now, futur.now) }
    {
        FutureTable { common, futur }
    }
}

impl Table for FutureTable<'_> {
    ghost use Rattle.act_profile.specs.Exercise.{future_line};
    ghost use Rattle.act_profile.specs.Trade.{passed};

    ghost line = { λ t event. future_line t.0 t.1 event event.kind };

    ghost accrual = { λ t event state. passed event.kind event.calc state };

    fn payment(&self, event: &Event) -> Payment {
        payment(event.kind)
    }

    fn change_code(&self, event: &Event) -> Option<u32> {
        match event.kind {
            EventType::XD => Some(self.futur.underlying),
            _ => None,
        }
    }

    fn accrue(&self, event: &Event, state: &mut State) -> Option<()> {
        pass(event.kind, event.calc, state);
        Some(())
    }

    fn payoff(&self, event: &Event, _value: Option<Fixed>, state: &State) -> Option<Fixed> {
        payoff(self.common, event.kind, state)
    }

    fn change(&self, event: &Event, value: Option<Fixed>, state: &mut State) -> Option<()> {
        match event.kind {
            EventType::XD => exercise(event.day, value?.sub(self.futur.futures_price), state),
            EventType::STD => {
                settle(state);
                Some(())
            }
            _ => Some(()),
        }
    }
}

/// What an event pays: an exercise pays nothing, and its settlement an amount.
fn payment(kind: EventType) -> Payment
    ensures option { (common : Common) (optns : Optns) (event : Event) → result ≡ payment_of (option_line common optns event kind).payoff }
    ensures future { (common : Common) (futur : Futur) (event : Event) → result ≡ payment_of (future_line common futur event kind).payoff }
{
    match kind {
        EventType::PRD | EventType::TD | EventType::STD => Payment::Amount,
        _ => Payment::Nothing,
    }
}

/// What is paid: at a settlement the amount of exercise by the sign of the role.
fn payoff(common: &Common, kind: EventType, state: &State) -> Option<Fixed>
    ensures option { (optns : Optns) (event : Event) (value : Option ℤ) →
        result ≡ amount_of (option_line common.now optns event kind).payoff value state.now }
    ensures future { (futur : Futur) (event : Event) (value : Option ℤ) →
        result ≡ amount_of (future_line common.now futur event kind).payoff value state.now }
{
    match kind {
        EventType::STD => Some(signed(common.contract_role, state.xa)),
        other => Some(trade_payoff(common, other)),
    }
}
