//! Fees.
ghost use Rattle.std.specs.Prelude.{◌≡◌, pos, None};
ghost use Rattle.act_profile.specs.Loan.{fee_payoff};
ghost use Rattle.act_profile.specs.States.{with_feac};
ghost use Rattle.act_profile.specs.Step.{amount_of};

use crate::terms::LoanTerms;
use act_model::{FeeBasis, State};
use act_num::Fixed;

impl LoanTerms<'_> {
    /// What FP pays: of basis A the amount, of basis N what has accrued.
    pub(crate) fn fee_payoff(&self, state: &State) -> Option<Fixed>
        ensures { result
            ≡ amount_of (fee_payoff self.now self.now.loan.fee.fee_basis self.now.loan.fee.fee_rate) None state.now }
    {
        match self.loan.fee.fee_basis? {
            FeeBasis::N => Some(state.feac),
            FeeBasis::A => Some(self.own_sign(self.loan.fee.fee_rate?)),
        }
    }
}

/// FP: no fee has accrued any more.
pub(crate) fn clear_fee(state: &mut State)
    ensures { state.new ≡ with_feac (pos 0) state.old }
{
    state.feac = Fixed::ZERO;
}
