//! The states of a plain swap: what it begins with, what accrues from day to day, and resets.
ghost use Rattle.std.specs.Prelude.{◌≡◌, Some, option_map, IfSome};
ghost use Rattle.act_profile.specs.Built.{PlainSwapLeadsOn};
ghost use Rattle.act_profile.specs.Dates.{latest_until};
ghost use Rattle.act_profile.specs.Formula.{interest_on, plus};
ghost use Rattle.act_profile.specs.Loan.{becomes_by_given, reset_rate};
ghost use Rattle.act_profile.specs.States.{with_ipnr2};
ghost use Rattle.act_profile.specs.Step.{changed, state_after};
ghost use Rattle.act_profile.specs.Swap.{plain_swap_accrued, plain_swap_before_event, plain_swap_begun, plain_swap_interest_dates, plain_swap_started, plain_swap_state};
ghost use Rattle.act_sched.specs.Schedule.{LeadsOn, dates_of};

use crate::plain_swap::PlainSwap;
use act_date::{Day, Frac};
use act_kind::{first_state, later_day, recurrence_or_end};
use act_loan::reset_rate;
use act_model::{EventType, State};
use act_num::Fixed;
use act_sched::Schedule;

impl PlainSwap<'_> {
    /// The state that a plain swap begins with, or None where it is undefined.
    pub(crate) fn first_state(&self) -> Option<State>
        requires { PlainSwapLeadsOn self.now.swap }
        ensures { result ≡ plain_swap_state self.now.common self.now.swap }
    {
        let state = first_state(self.common.status_date);
        if self.common.status_date < self.swap.initial_exchange_date {
            Some(state)
        } else {
            self.started(state)
        }
    }

    /// Sets the notional and the rates that the swap begins with.
    pub(crate) fn begin(&self, state: &mut State)
        ensures { state.new ≡ plain_swap_begun self.now.common self.now.swap state.old }
    {
        state.nt = self.own_sign(self.swap.notional_principal);
        state.ipnr = self.swap.nominal_interest_rate;
        state.ipnr2 = self.swap.nominal_interest_rate2;
    }

    /// The state of a started swap: interest has accrued since the latest interest date.
    fn started(&self, mut state: State) -> Option<State>
        requires { PlainSwapLeadsOn self.now.swap }
        ensures { result ≡ plain_swap_started self.now.common self.now.swap (plain_swap_begun self.now.common self.now.swap state) }
    {
        self.begin(&mut state);
        let first = self.accrues_from()?;
        let part = self.part_of_year(first, self.common.status_date);
        state.ipac = interest_on(state.nt, state.ipnr, part)?;
        state.ipac2 = interest_on(state.nt, state.ipnr2, part)?;
        Some(state)
    }

    /// The day from which the interest of a started swap has accrued: the latest of the initial exchange and the
    /// interest dates, before they are moved, that isn't after the status date. Finding it takes no memory.
    fn accrues_from(&self) -> Option<Day>
        requires { PlainSwapLeadsOn self.now.swap }
        ensures { result ≡ option_map (latest_until self.now.common.status_date self.now.swap.initial_exchange_date)
            (plain_swap_interest_dates self.now.common self.now.swap) }
    {
        let dates = self.interest_schedule()?;
        Some(dates.latest(
            None,
            self.common.status_date,
            self.swap.initial_exchange_date,
        ))
    }

    /// The dates of interest up to maturity, or maturity alone where they have no anchor.
    fn interest_schedule(&self) -> Option<Schedule>
        requires { PlainSwapLeadsOn self.now.swap }
        ensures dates { option_map dates_of result ≡ plain_swap_interest_dates self.now.common self.now.swap }
        ensures leads_on { IfSome result (λ schedule. LeadsOn schedule.cycle) }
    {
        recurrence_or_end(
            self.common.end_of_month_convention,
            self.swap.initial_exchange_date,
            self.swap.maturity_date,
            self.swap.cycle_anchor_date_of_interest_payment,
            self.swap.cycle_of_interest_payment,
        )
    }

    /// Makes the state the one before an event: what has accrued up to its day. Nothing accrues before IED and CE.
    pub(crate) fn accrue_before(&self, kind: EventType, calc: Day, state: &mut State) -> Option<()>
        ensures { option_map (λ _. state.new) result ≡ plain_swap_before_event self.now.common self.now.swap kind calc state.old }
    {
        match kind {
            EventType::IED | EventType::CE => Some(()),
            _ => self.accrue(calc, state),
        }
    }

    /// Lets interest accrue at both rates up to a day. Sd never goes back.
    fn accrue(&self, calc: Day, state: &mut State) -> Option<()>
        ensures { option_map (λ _. state.new) result ≡ plain_swap_accrued self.now.common self.now.swap calc state.old }
    {
        let part = self.part_of_year(state.sd.unwrap_or(calc), calc);
        state.ipac = with_interest(state.ipac, state.nt, state.ipnr, part)?;
        state.ipac2 = with_interest(state.ipac2, state.nt, state.ipnr2, part)?;
        state.sd = Some(later_day(state.sd, calc));
        Some(())
    }

    /// RR: the second rate is reset, by the value of the reset code.
    pub(crate) fn reset(&self, value: Option<Fixed>, state: &mut State) -> Option<()>
        ensures { option_map (λ _. state.new) result
            ≡ state_after (becomes_by_given self.now.swap.rate_reset.market_object_code_of_rate_reset
            (λ o s. changed with_ipnr2 (reset_rate self.now.swap.rate_reset o s.ipnr2) s)) value state.old }
    {
        self.swap.rate_reset.market_object_code_of_rate_reset?;
        self.reset_to(value?, state)
    }

    /// Resets the second rate to the one that is observed.
    fn reset_to(&self, observed: Fixed, state: &mut State) -> Option<()>
        ensures { option_map (λ _. state.new) result
            ≡ changed with_ipnr2 (reset_rate self.now.swap.rate_reset observed state.old.ipnr2) state.old }
    {
        state.ipnr2 = reset_rate(&self.swap.rate_reset, observed, state.ipnr2)?;
        Some(())
    }

    /// RRF: the second rate is the one that is given.
    pub(crate) fn reset_as_given(&self, state: &mut State) -> Option<()>
        ensures { option_map (λ _. state.new) result ≡ changed with_ipnr2 self.now.swap.rate_reset.next_reset_rate state.old }
    {
        state.ipnr2 = self.swap.rate_reset.next_reset_rate?;
        Some(())
    }
}

/// The interest on an amount at a yearly rate for a part of a year, rounded once.
fn interest_on(amount: Fixed, rate: Fixed, part: Frac) -> Option<Fixed>
    ensures { result ≡ interest_on amount rate part }
{
    amount.mul_frac(rate, part.num, part.den)
}

/// Interest accrued so far, with that on an amount at a yearly rate for a part of a year.
fn with_interest(accrued: Fixed, amount: Fixed, rate: Fixed, part: Frac) -> Option<Fixed>
    ensures { result ≡ plus (Some accrued) (interest_on amount rate part) }
{
    accrued.add(interest_on(amount, rate, part)?)
}
