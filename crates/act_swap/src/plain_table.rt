//! The table of steps of a plain swap.
ghost use Rattle.std.specs.Prelude.{◌≡◌, pos};
ghost use Rattle.act_profile.specs.States.{with_ipac, with_ipac2, with_nt, with_sd};
ghost use Rattle.act_profile.specs.Swap.{plain_swap_begun};

use crate::plain_swap::PlainSwap;
use act_date::Day;
use act_kind::{Payment, Table, trade_payoff};
use act_model::{Event, EventType, State};
use act_num::Fixed;

impl Table for PlainSwap<'_> {
    ghost use Rattle.act_profile.specs.Swap.{plain_swap_before_event, plain_swap_line};

    ghost line = { λ s event. plain_swap_line s.common s.swap event event.kind };

    ghost accrual = { λ s event state. plain_swap_before_event s.common s.swap event.kind event.calc state };

    fn payment(&self, event: &Event) -> Payment {
        match event.kind {
            EventType::PRD | EventType::TD | EventType::IP => Payment::Amount,
            _ => Payment::Nothing,
        }
    }

    fn change_code(&self, event: &Event) -> Option<u32> {
        match event.kind {
            EventType::RR => self.swap.rate_reset.market_object_code_of_rate_reset,
            _ => None,
        }
    }

    fn accrue(&self, event: &Event, state: &mut State) -> Option<()> {
        self.accrue_before(event.kind, event.calc, state)
    }

    fn payoff(&self, event: &Event, _value: Option<Fixed>, state: &State) -> Option<Fixed> {
        match event.kind {
            EventType::IP => state.ipac.sub(state.ipac2),
            other => Some(trade_payoff(self.common, other)),
        }
    }

    fn change(&self, event: &Event, value: Option<Fixed>, state: &mut State) -> Option<()> {
        match event.kind {
            EventType::IED => self.exchange(event.calc, state),
            EventType::TD => end(state),
            EventType::IP => clear_interest(state),
            EventType::RRF => self.reset_as_given(state)?,
            EventType::RR => self.reset(value, state)?,
            EventType::MD => clear_notional(state),
            _ => {}
        }
        Some(())
    }
}

impl PlainSwap<'_> {
    /// IED: the swap begins.
    fn exchange(&self, calc: Day, state: &mut State)
        ensures { state.new ≡ with_sd calc (plain_swap_begun self.now.common self.now.swap state.old) }
    {
        self.begin(state);
        state.sd = Some(calc);
    }
}

/// TD: there is no notional any more, and nothing has accrued.
fn end(state: &mut State)
    ensures { state.new ≡ with_nt (pos 0) (with_ipac (pos 0) (with_ipac2 (pos 0) state.old)) }
{
    clear_interest(state);
    clear_notional(state);
}

/// Nothing has accrued any more at either rate.
fn clear_interest(state: &mut State)
    ensures { state.new ≡ with_ipac (pos 0) (with_ipac2 (pos 0) state.old) }
{
    state.ipac = Fixed::ZERO;
    state.ipac2 = Fixed::ZERO;
}

/// There is no notional any more.
fn clear_notional(state: &mut State)
    ensures { state.new ≡ with_nt (pos 0) state.old }
{
    state.nt = Fixed::ZERO;
}
