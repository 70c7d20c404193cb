//! Purchase, termination and maturity.
ghost use Rattle.std.specs.Prelude.{◌≡◌, pos, Some};
ghost use Rattle.act_num.specs.Number.{add_of, mul_of, sub_of};
ghost use Rattle.act_profile.specs.Formula.{plus};
ghost use Rattle.act_profile.specs.Loan.{own_opposite, with_notional};
ghost use Rattle.act_profile.specs.LoanTerms.{own_sign};
ghost use Rattle.act_profile.specs.States.{with_feac, with_ipac, with_ipnr};

use crate::terms::LoanTerms;
use act_model::State;
use act_num::Fixed;

impl LoanTerms<'_> {
    /// What PRD pays: the price and the interest accrued, with the opposite sign.
    pub(crate) fn purchase_payoff(&self, state: &State) -> Option<Fixed>
        ensures { result ≡ sub_of (own_opposite self.now self.now.common.price_at_purchase_date) state.now.ipac }
    {
        self.own_opposite(self.common.price_at_purchase_date)
            .sub(state.ipac)
    }

    /// What TD pays: the price and the interest accrued.
    pub(crate) fn termination_payoff(&self, state: &State) -> Option<Fixed>
        ensures { result ≡ add_of (own_sign self.now self.now.common.price_at_termination_date) state.now.ipac }
    {
        self.own_sign(self.common.price_at_termination_date)
            .add(state.ipac)
    }

    /// TD: nothing is owed any more, and no interest accrues.
    pub(crate) fn terminate(&self, state: &mut State)
        ensures { state.new
            ≡ with_notional self.now (pos 0) (with_ipnr (pos 0) (with_ipac (pos 0) (with_feac (pos 0) state.old))) }
    {
        self.repay(state);
        state.ipnr = Fixed::ZERO;
    }

    /// MD: nothing is owed any more.
    pub(crate) fn repay(&self, state: &mut State)
        ensures { state.new ≡ with_notional self.now (pos 0) (with_ipac (pos 0) (with_feac (pos 0) state.old)) }
    {
        state.ipac = Fixed::ZERO;
        state.feac = Fixed::ZERO;
        self.set_notional(Fixed::ZERO, state);
    }
}

/// What MD pays: the notional, the interest and the fee that are owed.
pub(crate) fn maturity_payoff(state: &State) -> Option<Fixed>
    ensures { result
        ≡ plus (plus (mul_of state.now.nsc state.now.nt) (mul_of state.now.isc state.now.ipac)) (Some state.now.feac) }
{
    let principal = state.nsc.mul(state.nt)?;
    let interest = state.isc.mul(state.ipac)?;
    principal.add(interest)?.add(state.feac)
}
