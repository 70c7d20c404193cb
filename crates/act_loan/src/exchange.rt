//! The initial exchange, and what a loan begins with.
ghost use Rattle.std.specs.Prelude.{◌≡◌, option_map};
ghost use Rattle.act_num.specs.Number.{add_of};
ghost use Rattle.act_profile.specs.Loan.{after_exchange, anchor_before, exchanged, first_base, first_interest, interest_since, own_opposite};

use crate::accrual::interest_on;
use crate::terms::LoanTerms;
use act_date::Day;
use act_model::{InterestCalculationBase, State};
use act_num::Fixed;

impl LoanTerms<'_> {
    /// What IED pays: the notional and the premium, with the opposite sign.
    pub(crate) fn exchange_payoff(&self) -> Option<Fixed>
        ensures { result
            ≡ option_map (own_opposite self.now) (add_of self.now.loan.notional_principal self.now.loan.premium_discount_at_ied) }
    {
        let paid = self
            .loan
            .notional_principal
            .add(self.loan.premium_discount_at_ied)?;
        Some(self.own_opposite(paid))
    }

    /// IED: the loan begins.
    pub(crate) fn exchange(&self, calc: Day, state: &mut State) -> Option<()>
        ensures { option_map (λ _. state.new) result ≡ after_exchange self.now calc state.old }
    {
        let first = anchor_before(self.loan.cycle_anchor_date_of_interest_payment, calc);
        state.sd = Some(calc);
        self.begin(state);
        state.ipac = self.first_interest(first, calc, state)?;
        Some(())
    }

    /// Sets the notional, the rate, the base and the fee that the contract begins with.
    pub(crate) fn begin(&self, state: &mut State)
        ensures { state.new ≡ exchanged self.now state.old }
    {
        let nt = self.own_sign(self.loan.notional_principal);
        state.nt = nt;
        state.ipnr = self.loan.nominal_interest_rate.unwrap_or(Fixed::ZERO);
        state.ipcb = self.first_base(nt);
        state.feac = self.own_sign(self.loan.fee.fee_accrued);
    }

    /// The base of interest at first: the notional, or the given amount where the base isn't NT.
    fn first_base(&self, nt: Fixed) -> Fixed
        ensures { result ≡ first_base self.now nt }
    {
        match self.redemption {
            Some(redemption)
                if redemption.interest_calculation_base != InterestCalculationBase::NT => {
                match redemption.interest_calculation_base_amount {
                    Some(amount) => self.own_sign(amount),
                    None => nt,
                }
            }
            _ => nt,
        }
    }

    /// The given accrued interest, or else what has accrued from a first day on.
    pub(crate) fn first_interest(
        &self,
        first: Option<Day>,
        day: Day,
        state: &State,
    ) -> Option<Fixed>
        ensures { result ≡ first_interest self.now self.now.loan.accrued_interest first day state.now }
    {
        match self.loan.accrued_interest {
            Some(interest) => Some(self.own_sign(interest)),
            None => self.interest_since(first, day, state),
        }
    }

    /// The interest from a day on, or 0 without one.
    fn interest_since(&self, first: Option<Day>, day: Day, state: &State) -> Option<Fixed>
        ensures { result ≡ interest_since self.now first day state.now }
    {
        match first {
            Some(first) => interest_on(
                self.interest_base(state),
                state.ipnr,
                self.part_of_year(first, day),
            ),
            None => Some(Fixed::ZERO),
        }
    }
}

/// The anchor of the interest dates, where it is before a day.
fn anchor_before(anchor: Option<Day>, day: Day) -> Option<Day>
    ensures { result ≡ anchor_before anchor day }
{
    anchor.filter(|anchor| *anchor < day)
}
