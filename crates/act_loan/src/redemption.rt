//! Redemptions and prepayments of principal.
ghost use Rattle.std.specs.Prelude.{◌≡◌, option_and_then, option_map};
ghost use Rattle.act_num.specs.Number.{mul_of};
ghost use Rattle.act_profile.specs.Loan.{after_redemption, own_opposite, prepaid, redeemable, redeemed, with_notional};
ghost use Rattle.act_profile.specs.LoanTerms.{own_sign};
ghost use Rattle.act_profile.specs.States.{with_xa};

use crate::terms::LoanTerms;
use act_model::{ContractType, Event, InterestCalculationBase, State};
use act_num::Fixed;

impl LoanTerms<'_> {
    /// What PR pays.
    pub(crate) fn redemption_payoff(&self, state: &State) -> Option<Fixed>
        ensures { result
            ≡ option_and_then (λ r. mul_of state.now.nsc (own_sign self.now r)) (redeemed self.now self.now.type state.now) }
    {
        let redeemed = self.redeemed(state)?;
        state.nsc.mul(self.own_sign(redeemed))
    }

    /// PR: the notional is redeemed.
    pub(crate) fn redeem(&self, state: &mut State) -> Option<()>
        ensures { option_map (λ _. state.new) result
            ≡ option_and_then (λ r. after_redemption self.now r state.old) (redeemed self.now self.now.type state.old) }
    {
        let redeemed = self.redeemed(state)?;
        self.take_off(redeemed, state)
    }

    /// What PP pays.
    pub(crate) fn prepayment_payoff(&self, event: &Event, state: &State) -> Fixed
        ensures { result ≡ own_sign self.now (prepaid self.now event.now state.now) }
    {
        self.own_sign(self.prepaid(event, state))
    }

    /// PP: what is prepaid is kept in Xa.
    pub(crate) fn prepay(&self, event: &Event, state: &mut State) -> Option<()>
        ensures { let paid = prepaid self.now event.now state.old in
            option_map (λ _. state.new) result ≡ option_map (with_xa paid) (after_redemption self.now paid state.old) }
    {
        let paid = self.prepaid(event, state);
        self.take_off(paid, state)?;
        state.xa = paid;
        Some(())
    }

    /// N: what can be redeemed at most.
    fn redeemable(&self, state: &State) -> Fixed
        ensures { result ≡ redeemable self.now state.now }
    {
        self.own_sign(state.nt).max(Fixed::ZERO)
    }

    /// The amount that PR redeems: of a LAM the payment, and of the others what the payment exceeds the accrued
    /// interest by, which may be below 0. It is never more than is owed.
    fn redeemed(&self, state: &State) -> Option<Fixed>
        ensures { result ≡ redeemed self.now self.now.type state.now }
    {
        let payment = match self.kind {
            ContractType::LAM => state.prnxt,
            _ => state.prnxt.sub(self.own_sign(state.ipac))?,
        };
        Some(payment.min(self.redeemable(state)))
    }

    /// The amount that is prepaid: the event's value, and never more than is owed.
    fn prepaid(&self, event: &Event, state: &State) -> Fixed
        ensures { result ≡ prepaid self.now event.now state.now }
    {
        event.value.min(self.redeemable(state))
    }

    /// Takes an amount off the notional.
    fn take_off(&self, amount: Fixed, state: &mut State) -> Option<()>
        ensures { option_map (λ _. state.new) result ≡ after_redemption self.now amount state.old }
    {
        let nt = state.nt.sub(self.own_sign(amount))?;
        self.set_notional(nt, state);
        Some(())
    }

    /// Sets a new notional, and where the base of interest is NT a new base.
    pub(crate) fn set_notional(&self, nt: Fixed, state: &mut State)
        ensures { state.new ≡ with_notional self.now nt state.old }
    {
        state.ipcb = match self.interest_calculation_base() {
            InterestCalculationBase::NT => nt,
            _ => state.ipcb,
        };
        state.nt = nt;
    }
}
