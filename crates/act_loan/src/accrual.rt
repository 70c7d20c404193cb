//! What accrues from day to day: interest and fees.
ghost use Rattle.std.specs.Prelude.{◌≡◌, option_map};
ghost use Rattle.act_profile.specs.Formula.{interest_on};
ghost use Rattle.act_profile.specs.Loan.{accrued, accrued_fee, accrued_interest, before_event, interest_base};

use crate::terms::LoanTerms;
use act_date::{Day, Frac};
use act_kind::later_day;
use act_model::{ContractType, EventType, FeeBasis, State};
use act_num::Fixed;

impl LoanTerms<'_> {
    /// Makes the state the one before an event: what has accrued up to its day. Nothing accrues before IED and CE.
    pub(crate) fn accrue_before(&self, kind: EventType, calc: Day, state: &mut State) -> Option<()>
        ensures { option_map (λ _. state.new) result ≡ before_event self.now kind calc state.old }
    {
        match kind {
            EventType::IED | EventType::CE => Some(()),
            _ => self.accrue(calc, state),
        }
    }

    /// Lets interest and fee accrue up to a day. Sd never goes back.
    fn accrue(&self, calc: Day, state: &mut State) -> Option<()>
        ensures { option_map (λ _. state.new) result ≡ accrued self.now calc state.old }
    {
        let ipac = self.accrued_interest(calc, state)?;
        let feac = self.accrued_fee(calc, state)?;
        state.sd = Some(later_day(state.sd, calc));
        state.ipac = ipac;
        state.feac = feac;
        Some(())
    }

    /// The interest accrued up to a day.
    fn accrued_interest(&self, calc: Day, state: &State) -> Option<Fixed>
        ensures { result ≡ accrued_interest self.now calc state.now }
    {
        let part = self.part_of_year(state.sd.unwrap_or(calc), calc);
        state
            .ipac
            .add(interest_on(self.interest_base(state), state.ipnr, part)?)
    }

    /// The fee accrued up to a day. One of basis N accrues on the notional, one of basis A doesn't (this
    /// profile's own).
    fn accrued_fee(&self, calc: Day, state: &State) -> Option<Fixed>
        ensures { result ≡ accrued_fee self.now calc state.now }
    {
        match (self.loan.fee.fee_basis, self.loan.fee.fee_rate) {
            (Some(FeeBasis::N), Some(rate)) => {
                let part = self.part_of_year(state.sd.unwrap_or(calc), calc);
                state.feac.add(interest_on(state.nt, rate, part)?)
            }
            _ => Some(state.feac),
        }
    }

    /// What interest is computed on: the notional of a PAM, and the base of the others.
    pub(crate) fn interest_base(&self, state: &State) -> Fixed
        ensures { result ≡ interest_base self.now.type state.now }
    {
        match self.kind {
            ContractType::PAM => state.nt,
            _ => state.ipcb,
        }
    }
}

/// The interest on an amount at a yearly rate for a part of a year, rounded once.
pub(crate) fn interest_on(amount: Fixed, rate: Fixed, part: Frac) -> Option<Fixed>
    ensures { result ≡ interest_on amount rate part }
{
    amount.mul_frac(rate, part.num, part.den)
}
