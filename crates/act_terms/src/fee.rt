//! The terms of a loan's fees.
ghost use Rattle.std.specs.Prelude.{◌≡◌, IfOk};
ghost use Rattle.act_json.specs.Tree.{object_of};
ghost use Rattle.act_profile.specs.Built.{LeadsOn};
ghost use Rattle.act_terms.specs.Loan.{fee_of};

use crate::choices::choice_in;
use crate::fault::TermsFault;
use crate::fields::{needed_where, optional_cycle, optional_day, optional_decimal};
use act_json::Object;
use act_model::Fee;
use act_num::Fixed;

/// The fees. Where there is a fee its basis is required.
#[tactic(auto, unfolding(crate::specs::Loan::fee_of))]
pub(crate) fn read_fee(contract: &Object) -> Result<Fee, TermsFault>
    ensures fee { result ≡ fee_of (object_of contract.now) }
    ensures cycle { IfOk result (λ fee. LeadsOn fee.cycle_of_fee) }
{
    let anchor = optional_day(contract, "cycleAnchorDateOfFee")?;
    let cycle = optional_cycle(contract, "cycleOfFee")?;
    let rate = optional_decimal(contract, "feeRate")?;
    let basis = needed_where(rate.is_some(), "feeBasis", choice_in(contract, "feeBasis"))?;
    let accrued = optional_decimal(contract, "feeAccrued")?;
    Ok(Fee {
        cycle_anchor_date_of_fee: anchor,
        cycle_of_fee: cycle,
        fee_rate: rate,
        fee_basis: basis,
        fee_accrued: accrued.unwrap_or(Fixed::ZERO),
    })
}
