//! The state that a loan begins with.
ghost use Rattle.std.specs.Prelude.{◌≡◌, ◌<◌, ◌≤◌, length, option_map, IfSome};
ghost use Rattle.act_profile.specs.Built.{CyclesLeadOn};
ghost use Rattle.act_num.specs.Number.{rnd};
ghost use Rattle.act_profile.specs.Loan.{initial_redemption_payment, is_started, loan_state, started_redemption_payment, started_state};
ghost use Rattle.act_profile.specs.LoanPlan.{parts_between, redemption_dates};
ghost use Rattle.act_profile.specs.States.{first_state, with_md};

use crate::terms::LoanTerms;
use act_date::Day;
use act_kind::first_state;
use act_model::{ContractType, Plan, State};
use act_num::{Fixed, rnd};

impl LoanTerms<'_> {
    /// The state that a loan begins with, or None where it is undefined.
    pub fn first_state(&self, plan: &Plan) -> Option<State>
        requires cycles { CyclesLeadOn self.now }
        requires periods { plan.now.periods ≡ parts_between self.now plan.now.redemptions }
        ensures { result ≡ loan_state self.now plan.now }
    {
        let state = nothing_owed(self.common.status_date, self.maturity);
        if self.is_started() {
            return self.started_state(plan, &state);
        }
        let prnxt = self.initial_redemption_payment()?;
        Some(State { prnxt, ..state })
    }

    /// Whether it is started: its initial exchange isn't after the status date.
    fn is_started(&self) -> bool
        ensures { result ≡ is_started self.now }
    {
        self.loan.initial_exchange_date <= self.common.status_date
    }

    /// The state of a started loan.
    fn started_state(&self, plan: &Plan, state: &State) -> Option<State>
        requires cycles { CyclesLeadOn self.now }
        requires periods { plan.now.periods ≡ parts_between self.now plan.now.redemptions }
        ensures { result ≡ started_state self.now plan.now state.now }
    {
        let first = self.accrues_from()?;
        let mut next = *state;
        self.begin(&mut next);
        next.ipac = self.first_interest(Some(first), self.common.status_date, &next)?;
        next.prnxt = self.started_redemption_payment(plan, &next)?;
        Some(next)
    }

    /// Prnxt of a started loan: of an annuity without a given payment the annuity payment at the status date.
    fn started_redemption_payment(&self, plan: &Plan, state: &State) -> Option<Fixed>
        requires cycles { CyclesLeadOn self.now }
        requires periods { plan.now.periods ≡ parts_between self.now plan.now.redemptions }
        ensures { result
            ≡ started_redemption_payment self.now plan.now self.now.type self.now.payment state.now }
    {
        match (self.kind, self.payment) {
            (ContractType::ANN, None) => {
                self.annuity_payment_at(plan, self.common.status_date, state)
            }
            _ => self.initial_redemption_payment(),
        }
    }

    /// Prnxt at first: the given payment; of a LAM without one the notional by the number of its redemption dates and
    /// one more; else 0.
    fn initial_redemption_payment(&self) -> Option<Fixed>
        requires { CyclesLeadOn self.now }
        ensures { result ≡ initial_redemption_payment self.now }
    {
        match (self.payment, self.kind) {
            (Some(payment), _) => Some(payment),
            (None, ContractType::LAM) => {
                let redemptions = self.redemption_count()? + 1;
                divided(self.loan.notional_principal, redemptions)
            }
            (None, _) => Some(Fixed::ZERO),
        }
    }

    /// How many dates of redemption there are.
    fn redemption_count(&self) -> Option<u32>
        requires { CyclesLeadOn self.now }
        ensures count { result ≡ option_map length (redemption_dates self.now) }
        ensures few { IfSome result (λ count. count ≤ 146_096) }
    {
        match self.redemption {
            Some(redemption) => self.redemptions_before(redemption, self.maturity),
            None => Some(0),
        }
    }
}

/// An amount in so many equal parts, rounded.
fn divided(amount: Fixed, parts: u32) -> Option<Fixed>
    requires { 0 < parts }
    ensures { result ≡ Some (rnd amount parts) }
{
    Fixed::from_units(rnd(amount.units(), i128::from(parts)))
}

/// The state in which nothing is owed, and both multipliers are 1.
fn nothing_owed(status_date: Day, maturity: Day) -> State
    ensures { result ≡ with_md maturity (first_state status_date) }
{
    State {
        md: Some(maturity),
        ..first_state(status_date)
    }
}
