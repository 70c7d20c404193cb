//! The terms of options and futures. The underlying is bound behind them, to what the contract's structure refers to.
ghost use Rattle.std.specs.Prelude.{◌≡◌};
ghost use Rattle.act_json.specs.Tree.{object_of};
ghost use Rattle.act_terms.specs.Exercise.{futur_of, has_two_strikes, optns_of, settlement_period_of};

use crate::choices::choice_in;
use crate::fault::TermsFault;
use crate::fields::{needed, needed_day, needed_where, optional};
use act_date::{Cycle, Stub, Unit};
use act_json::Object;
use act_model::{ExerciseType, Futur, OptionType, Optns};

/// No time, `P0D`.
const NO_TIME: Cycle = Cycle {
    count: 0,
    unit: Unit::D,
    stub: Stub::Short,
};

/// The terms of an OPTNS. A call and put has two strikes.
#[tactic(auto, unfolding(crate::specs::Exercise::optns_of))]
pub(crate) fn read_optns(contract: &Object) -> Result<Optns, TermsFault>
    ensures { result ≡ optns_of (object_of contract.now) }
{
    let maturity_date = needed_day(contract, "maturityDate")?;
    let option_type = needed("optionType", choice_in(contract, "optionType"))?;
    let option_strike1 = needed("optionStrike1", contract.decimal("optionStrike1"))?;
    let option_strike2 = needed_where(
        has_two_strikes(option_type),
        "optionStrike2",
        contract.decimal("optionStrike2"),
    )?;
    let exercise = optional(
        "optionExerciseType",
        choice_in(contract, "optionExerciseType"),
    )?;
    let settlement_period = read_settlement_period(contract)?;
    Ok(Optns {
        maturity_date,
        option_type,
        option_strike1,
        option_strike2,
        option_exercise_type: exercise.unwrap_or(ExerciseType::E),
        settlement_period,
        underlying: 0,
    })
}

/// Whether an option is a call and a put, with a strike of each.
fn has_two_strikes(option_type: OptionType) -> bool
    ensures { result ≡ has_two_strikes option_type }
{
    match option_type {
        OptionType::C | OptionType::P => false,
        OptionType::CP => true,
    }
}

/// The terms of a FUTUR.
#[tactic(auto, unfolding(crate::specs::Exercise::futur_of))]
pub(crate) fn read_futur(contract: &Object) -> Result<Futur, TermsFault>
    ensures { result ≡ futur_of (object_of contract.now) }
{
    let maturity_date = needed_day(contract, "maturityDate")?;
    let futures_price = needed("futuresPrice", contract.decimal("futuresPrice"))?;
    let settlement_period = read_settlement_period(contract)?;
    Ok(Futur {
        maturity_date,
        futures_price,
        settlement_period,
        underlying: 0,
    })
}

/// The time from exercise to payment.
#[tactic(auto, unfolding(crate::specs::Exercise::settlement_period_of))]
pub(crate) fn read_settlement_period(contract: &Object) -> Result<Cycle, TermsFault>
    ensures { result ≡ settlement_period_of (object_of contract.now) }
{
    let given = optional("settlementPeriod", contract.period("settlementPeriod"))?;
    Ok(given.unwrap_or(NO_TIME))
}
