//! The terms of penalties of prepayments.
ghost use Rattle.std.specs.Prelude.{◌≡◌};
ghost use Rattle.act_json.specs.Tree.{object_of};
ghost use Rattle.act_terms.specs.Loan.{penalty_of, reset_code_for};

use crate::choices::choice_in;
use crate::fault::{TermCause, TermsFault, refused};
use crate::fields::{optional, optional_decimal};
use act_json::Object;
use act_model::PenaltyType;
use act_num::Fixed;

/// The penalty of a prepayment.
#[derive(Clone, Copy)]
pub(crate) struct Penalty {
    pub(crate) penalty_type: PenaltyType,
    pub(crate) penalty_rate: Fixed,
}

/// The penalty of a prepayment.
#[tactic(auto, unfolding(crate::specs::Loan::penalty_of))]
pub(crate) fn read_penalty(contract: &Object) -> Result<Penalty, TermsFault>
    ensures { result ≡ penalty_of (object_of contract.now) }
{
    let penalty_type = optional("penaltyType", choice_in(contract, "penaltyType"))?;
    let rate = optional_decimal(contract, "penaltyRate")?;
    Ok(Penalty {
        penalty_type: penalty_type.unwrap_or(PenaltyType::O),
        penalty_rate: rate.unwrap_or(Fixed::ZERO),
    })
}

/// The penalty of lost interest is computed by the rate of resets, so it needs the code of that rate.
pub(crate) fn reset_code_for(
    penalty_type: PenaltyType,
    code: Option<u32>,
) -> Result<Option<u32>, TermsFault>
    ensures { result ≡ reset_code_for penalty_type code }
{
    match (penalty_type, code) {
        (PenaltyType::I, None) => Err(refused(
            TermCause::MissingTerm,
            "marketObjectCodeOfRateReset",
        )),
        _ => Ok(code),
    }
}
