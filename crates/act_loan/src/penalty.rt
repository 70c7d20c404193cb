//! Penalties of prepayments.
ghost use Rattle.std.specs.Prelude.{◌≡◌};
ghost use Rattle.act_kind.specs.Payment.{payment_of};
ghost use Rattle.act_profile.specs.Loan.{lost_interest, penalty_payoff};
ghost use Rattle.act_profile.specs.Step.{amount_of};

use crate::accrual::interest_on;
use crate::terms::LoanTerms;
use act_date::Day;
use act_kind::Payment;
use act_model::{PenaltyType, State};
use act_num::Fixed;

impl LoanTerms<'_> {
    /// How PY pays: only the interest that is lost is by an observed rate.
    pub(crate) fn penalty_payment(&self, calc: Day) -> Payment
        ensures { result ≡ payment_of (penalty_payoff self.now calc self.now.loan.penalty_type) }
    {
        match self.loan.penalty_type {
            PenaltyType::O => Payment::Nothing,
            PenaltyType::A | PenaltyType::N => Payment::Amount,
            PenaltyType::I => match self.loan.rate_reset.market_object_code_of_rate_reset {
                Some(code) => Payment::AmountBy(code),
                None => Payment::Amount,
            },
        }
    }

    /// What PY pays: an amount, a part of what was prepaid last, or the interest that is lost.
    pub(crate) fn penalty_payoff(
        &self,
        calc: Day,
        value: Option<Fixed>,
        state: &State,
    ) -> Option<Fixed>
        ensures { result ≡ amount_of (penalty_payoff self.now calc self.now.loan.penalty_type) value state.now }
    {
        match self.loan.penalty_type {
            PenaltyType::O => Some(Fixed::ZERO),
            PenaltyType::A => Some(self.own_sign(self.loan.penalty_rate)),
            PenaltyType::N => Some(self.own_sign(state.xa.mul(self.loan.penalty_rate)?)),
            PenaltyType::I => {
                self.loan.rate_reset.market_object_code_of_rate_reset?;
                self.lost_interest(calc, value?, state)
            }
        }
    }

    /// The interest on what was prepaid last that is lost from a day up to maturity, by the rate that is observed.
    fn lost_interest(&self, calc: Day, observed: Fixed, state: &State) -> Option<Fixed>
        ensures { result ≡ lost_interest self.now calc observed state.now }
    {
        let excess = state.ipnr.sub(observed)?.max(Fixed::ZERO);
        let part = self.part_of_year(calc, self.maturity);
        Some(self.own_sign(interest_on(state.xa, excess, part)?))
    }
}
