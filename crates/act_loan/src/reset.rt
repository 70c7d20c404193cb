//! Resets of the rate of interest.
ghost use Rattle.std.specs.Prelude.{◌≡◌, option_map};
ghost use Rattle.act_profile.specs.Loan.{after_reset, becomes_by_given, reset_rate};
ghost use Rattle.act_profile.specs.States.{with_ipnr};
ghost use Rattle.act_profile.specs.Step.{changed, state_after};

use crate::terms::LoanTerms;
use act_model::{RateReset, State};
use act_num::Fixed;

impl LoanTerms<'_> {
    /// RR: the rate is reset, by the value of the reset code.
    pub(crate) fn reset(&self, value: Option<Fixed>, state: &mut State) -> Option<()>
        ensures { option_map (λ _. state.new) result
            ≡ state_after (becomes_by_given self.now.loan.rate_reset.market_object_code_of_rate_reset (after_reset self.now)) value state.old }
    {
        self.loan.rate_reset.market_object_code_of_rate_reset?;
        self.reset_to(value?, state)
    }

    /// Resets the rate to the one that is observed.
    fn reset_to(&self, observed: Fixed, state: &mut State) -> Option<()>
        ensures { option_map (λ _. state.new) result ≡ after_reset self.now observed state.old }
    {
        state.ipnr = reset_rate(&self.loan.rate_reset, observed, state.ipnr)?;
        Some(())
    }

    /// RRF: the rate is the one that is given.
    pub(crate) fn reset_as_given(&self, state: &mut State) -> Option<()>
        ensures { option_map (λ _. state.new) result ≡ changed with_ipnr self.now.loan.rate_reset.next_reset_rate state.old }
    {
        state.ipnr = self.loan.rate_reset.next_reset_rate?;
        Some(())
    }
}

/// The rate that an observed one resets a rate to: multiplied, with the spread, its change within the bounds of a
/// period and itself within those of the contract's life.
pub fn reset_rate(terms: &RateReset, observed: Fixed, rate: Fixed) -> Option<Fixed>
    ensures { result ≡ reset_rate terms.now observed rate }
{
    let target = observed.mul(terms.rate_multiplier)?.add(terms.rate_spread)?;
    let change = target.sub(rate)?.clip(terms.period_floor, terms.period_cap);
    Some(rate.add(change)?.clip(terms.life_floor, terms.life_cap))
}
