//! The payment of an annuity.
ghost use Rattle.std.specs.Prelude.{◌≡◌, ◌≤◌, Some, drop, length, option_and_then, option_map};
ghost use Rattle.act_annuity.specs.Payment.{annuity_payment};
ghost use Rattle.act_profile.specs.Formula.{interest_on, plus};
ghost use Rattle.act_profile.specs.Loan.{annuity_payment_at, annuity_payment_over, days_after};
ghost use Rattle.act_profile.specs.LoanPlan.{parts_between};
ghost use Rattle.act_profile.specs.LoanTerms.{own_sign, part_of_year};
ghost use Rattle.act_profile.specs.States.{with_prnxt};
ghost use Rattle.act_profile.specs.Step.{changed};

use crate::accrual::interest_on;
use crate::terms::LoanTerms;
use act_annuity::payment;
use act_date::{Day, Frac};
use act_model::{Plan, State};
use act_num::Fixed;

impl LoanTerms<'_> {
    /// PRF: the payment of each redemption is the annuity payment.
    pub(crate) fn fix_payment(&self, plan: &Plan, calc: Day, state: &mut State) -> Option<()>
        requires { plan.now.periods ≡ parts_between self.now plan.now.redemptions }
        ensures { option_map (λ _. state.new) result ≡ changed with_prnxt (annuity_payment_at self.now plan.now calc state.old) state.old }
    {
        state.prnxt = self.annuity_payment_at(plan, calc, state)?;
        Some(())
    }

    /// The payment that redeems the notional if it is paid on each of the plan's redemptions after a day. It takes
    /// no memory: the periods between these redemptions are the last of the plan's.
    pub(crate) fn annuity_payment_at(&self, plan: &Plan, day: Day, state: &State) -> Option<Fixed>
        requires { plan.now.periods ≡ parts_between self.now plan.now.redemptions }
        ensures { result ≡ annuity_payment_at self.now plan.now day state.now }
    {
        self.payment_over(&plan.redemptions, &plan.periods, day, state)
    }

    /// The payment on those of some days that are after a day, by the periods between all of them.
    #[tactic(auto, using(crate::proofs::Redemptions::parts_count, crate::proofs::Redemptions::payment_on_last))]
    fn payment_over(&self, days: &[Day], periods: &[Frac], day: Day, state: &State) -> Option<Fixed>
        requires { periods.now ≡ parts_between self.now days.now }
        ensures { result ≡ annuity_payment_over self.now day state.now (days_after day days.now) }
    {
        let place = place_after(days, day);
        if place < days.len() {
            self.payment_from(day, days[place], state, &periods[place..])
        } else {
            self.own_sign(state.nt).add(self.own_sign(state.ipac))
        }
    }

    /// The payment that redeems the notional on a first day and after each of the periods that follow it.
    fn payment_from(&self, day: Day, first: Day, state: &State, periods: &[Frac]) -> Option<Fixed>
        ensures { let n = own_sign self.now state.now.nt in
            result ≡ option_and_then (λ a. annuity_payment n a state.now.ipnr periods.now) (plus (Some (own_sign self.now state.now.ipac)) (interest_on n state.now.ipnr (part_of_year self.now day first))) }
    {
        let notional = self.own_sign(state.nt);
        let rest = interest_on(notional, state.ipnr, self.part_of_year(day, first))?;
        let interest = self.own_sign(state.ipac).add(rest)?;
        payment(notional, interest, state.ipnr, periods)
    }
}

/// The place of the first of some days that is after a day, or how many they are where there is none.
#[tactic(auto, using(crate::proofs::Redemptions::passed_over, crate::proofs::Redemptions::reached, crate::proofs::Redemptions::none_left))]
pub(crate) fn place_after(days: &[Day], day: Day) -> usize
    ensures after { drop result days.now ≡ days_after day days.now }
    ensures within { result ≤ length days.now }
{
    for (place, later) in days.iter().enumerate() {
        if day < *later {
            return place;
        }
    }
    days.len()
}
