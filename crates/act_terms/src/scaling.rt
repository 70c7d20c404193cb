//! The terms of a loan's scaling.
ghost use Rattle.std.specs.Prelude.{◌≡◌, ◌≢◌, Ok, Err, IfOk, IfErr};
ghost use Rattle.act_json.specs.Tree.{object_of};
ghost use Rattle.act_profile.specs.Built.{LeadsOn};
ghost use Rattle.act_terms.specs.Loan.{no_effect, scales, scaling_of};

use crate::choices::choice_in;
use crate::currencies::code_where;
use crate::fault::TermsFault;
use crate::fields::{needed_where, optional, optional_cycle, optional_day, positive};
use act_json::Object;
use act_model::{Names, Scaling, ScalingEffect};
use std::alloc::Global;

/// Nothing is scaled.
const NO_EFFECT: ScalingEffect = ScalingEffect {
    interest: false,
    notional: false,
};

/// How payments are scaled. Where something is scaled the code of the index and the index at the deal are required.
#[tactic(auto, unfolding(crate::specs::Loan::scaling_of))]
pub(crate) fn read_scaling(
    alloc: Global,
    contract: &Object,
    names: &mut Names,
) -> Result<Scaling, TermsFault>
    ensures read { IfOk result (λ scaling. scaling_of names.old (object_of contract.now) ≡ Ok (scaling, names.new)) }
    ensures refused { IfErr result (λ fault. fault ≢ TermsFault.NoMemory
        → scaling_of names.old (object_of contract.now) ≡ Err fault) }
    ensures cycle { IfOk result (λ scaling. LeadsOn scaling.cycle_of_scaling_index) }
{
    let given = optional("scalingEffect", choice_in(contract, "scalingEffect"))?;
    let effect = given.unwrap_or(NO_EFFECT);
    let scales = scales(effect);
    let anchor = optional_day(contract, "cycleAnchorDateOfScalingIndex")?;
    let cycle = optional_cycle(contract, "cycleOfScalingIndex")?;
    let code = code_where(
        alloc,
        scales,
        "marketObjectCodeOfScalingIndex",
        contract,
        names,
    )?;
    let index = needed_where(
        scales,
        "scalingIndexAtContractDealDate",
        positive(contract, "scalingIndexAtContractDealDate"),
    )?;
    Ok(Scaling {
        scaling_effect: effect,
        cycle_anchor_date_of_scaling_index: anchor,
        cycle_of_scaling_index: cycle,
        market_object_code_of_scaling_index: code,
        scaling_index_at_contract_deal_date: index,
    })
}

/// Whether something is scaled.
fn scales(effect: ScalingEffect) -> bool
    ensures { result ≡ scales effect }
{
    effect.interest || effect.notional
}
