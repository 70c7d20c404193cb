//! Scaling of payments by an index.
ghost use Rattle.std.specs.Prelude.{◌≡◌, option_map};
ghost use Rattle.act_profile.specs.Loan.{after_scaling, becomes_by_given, scaled};
ghost use Rattle.act_profile.specs.Step.{state_after};

use crate::terms::LoanTerms;
use act_model::{ScalingEffect, State};
use act_num::Fixed;

impl LoanTerms<'_> {
    /// SC: the multipliers follow the scaling index, by the value of its code.
    pub(crate) fn scale(&self, value: Option<Fixed>, state: &mut State) -> Option<()>
        ensures { option_map (λ _. state.new) result
            ≡ state_after (becomes_by_given self.now.loan.scaling.market_object_code_of_scaling_index (after_scaling self.now)) value state.old }
    {
        self.loan.scaling.market_object_code_of_scaling_index?;
        self.scale_by(value?, state)
    }

    /// Sets the multipliers that follow from the index that is observed.
    fn scale_by(&self, observed: Fixed, state: &mut State) -> Option<()>
        ensures { option_map (λ _. state.new) result ≡ after_scaling self.now observed state.old }
    {
        let first = self.loan.scaling.scaling_index_at_contract_deal_date?;
        let multiplier = observed.ratio(first)?;
        set_multipliers(self.loan.scaling.scaling_effect, multiplier, state);
        Some(())
    }
}

/// Sets the multipliers that the effect names.
fn set_multipliers(effect: ScalingEffect, multiplier: Fixed, state: &mut State)
    ensures { state.new ≡ scaled effect multiplier state.old }
{
    if effect.interest {
        state.isc = multiplier;
    }
    if effect.notional {
        state.nsc = multiplier;
    }
}
