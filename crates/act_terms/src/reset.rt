//! The terms of rate resets.
ghost use Rattle.std.specs.Prelude.{◌≡◌, ◌≢◌, ◌||◌, Ok, Err, IfOk, IfErr, is_some};
ghost use Rattle.act_json.specs.Tree.{object_of};
ghost use Rattle.act_profile.specs.Built.{LeadsOn};
ghost use Rattle.act_terms.specs.Loan.{rate_limits_of, rate_reset_of};

use crate::currencies::code_where;
use crate::fault::TermsFault;
use crate::fields::{optional_cycle, optional_day, optional_decimal};
use act_date::{Cycle, Day};
use act_json::Object;
use act_model::{Names, RateReset};
use act_num::Fixed;
use std::alloc::Global;

/// The greatest and the least rate, and the greatest and the least change at one reset.
#[derive(Clone, Copy)]
struct RateLimits {
    life_cap: Option<Fixed>,
    life_floor: Option<Fixed>,
    period_cap: Option<Fixed>,
    period_floor: Option<Fixed>,
}

/// How the rate is reset. Where there are resets the code of the rate is required.
#[tactic(auto, unfolding(crate::specs::Loan::rate_reset_of))]
pub(crate) fn read_rate_reset(
    alloc: Global,
    contract: &Object,
    names: &mut Names,
) -> Result<RateReset, TermsFault>
    ensures read { IfOk result (λ reset. rate_reset_of names.old (object_of contract.now) ≡ Ok (reset, names.new)) }
    ensures refused { IfErr result (λ fault. fault ≢ TermsFault.NoMemory
        → rate_reset_of names.old (object_of contract.now) ≡ Err fault) }
    ensures cycle { IfOk result (λ reset. LeadsOn reset.cycle_of_rate_reset) }
{
    let anchor = optional_day(contract, "cycleAnchorDateOfRateReset")?;
    let cycle = optional_cycle(contract, "cycleOfRateReset")?;
    let code = code_where(
        alloc,
        is_reset(&anchor, &cycle),
        "marketObjectCodeOfRateReset",
        contract,
        names,
    )?;
    let next_reset_rate = optional_decimal(contract, "nextResetRate")?;
    let spread = optional_decimal(contract, "rateSpread")?;
    let multiplier = optional_decimal(contract, "rateMultiplier")?;
    let limits = read_rate_limits(contract)?;
    Ok(RateReset {
        cycle_anchor_date_of_rate_reset: anchor,
        cycle_of_rate_reset: cycle,
        market_object_code_of_rate_reset: code,
        next_reset_rate,
        rate_spread: spread.unwrap_or(Fixed::ZERO),
        rate_multiplier: multiplier.unwrap_or(Fixed::ONE),
        life_cap: limits.life_cap,
        life_floor: limits.life_floor,
        period_cap: limits.period_cap,
        period_floor: limits.period_floor,
    })
}

/// Whether the rate is reset: the first date or the cycle of resets is given.
fn is_reset(anchor: &Option<Day>, cycle: &Option<Cycle>) -> bool
    ensures { result ≡ (is_some anchor.now || is_some cycle.now) }
{
    anchor.is_some() || cycle.is_some()
}

/// The greatest and the least rate, and the greatest and the least change at one reset.
#[tactic(auto, unfolding(crate::specs::Loan::rate_limits_of))]
fn read_rate_limits(contract: &Object) -> Result<RateLimits, TermsFault>
    ensures { result ≡ rate_limits_of (object_of contract.now) }
{
    Ok(RateLimits {
        life_cap: optional_decimal(contract, "lifeCap")?,
        life_floor: optional_decimal(contract, "lifeFloor")?,
        period_cap: optional_decimal(contract, "periodCap")?,
        period_floor: optional_decimal(contract, "periodFloor")?,
    })
}
