//! The terms of swaps, caps and floors. What a swap of two contracts and a cap and floor refer to is bound behind them, to
//! what the contract's structure refers to.
ghost use Rattle.std.specs.Prelude.{◌≡◌, ◌≢◌, Ok, Err, IfOk, IfErr};
ghost use Rattle.act_json.specs.Tree.{object_of};
ghost use Rattle.act_profile.specs.Built.{LeadsOn, PlainSwapLeadsOn};
ghost use Rattle.act_terms.specs.Swap.{capfl_of, limited, plain_interest_of, swaps_of, swppv_of};

use crate::choices::choice_in;
use crate::fault::{TermCause, TermsFault, refused};
use crate::fields::{
    day_after, needed, needed_day, not_negative, optional, optional_cycle, optional_day,
    optional_decimal,
};
use crate::reset::read_rate_reset;
use act_date::{Cycle, Day, DayCount};
use act_json::Object;
use act_model::{Capfl, DeliverySettlement, Names, Swaps, Swppv};
use act_num::Fixed;
use std::alloc::Global;

/// Both rates of a plain swap, how parts of a year are counted, and the dates of interest.
#[derive(Clone, Copy)]
struct PlainInterest {
    nominal_interest_rate: Fixed,
    nominal_interest_rate2: Fixed,
    day_count_convention: DayCount,
    cycle_anchor_date_of_interest_payment: Option<Day>,
    cycle_of_interest_payment: Option<Cycle>,
}

/// The terms of a SWPPV.
#[tactic(auto, unfolding(crate::specs::Swap::swppv_of))]
pub(crate) fn read_swppv(
    alloc: Global,
    contract: &Object,
    names: &mut Names,
) -> Result<Swppv, TermsFault>
    ensures read { IfOk result (λ swppv. swppv_of names.old (object_of contract.now) ≡ Ok (swppv, names.new)) }
    ensures refused { IfErr result (λ fault. fault ≢ TermsFault.NoMemory
        → swppv_of names.old (object_of contract.now) ≡ Err fault) }
    ensures leads_on { IfOk result (λ swppv. PlainSwapLeadsOn swppv) }
{
    let initial_exchange_date = needed_day(contract, "initialExchangeDate")?;
    let maturity_date = needed(
        "maturityDate",
        day_after(initial_exchange_date, contract, "maturityDate"),
    )?;
    let notional_principal = needed(
        "notionalPrincipal",
        not_negative(contract, "notionalPrincipal"),
    )?;
    let interest = read_plain_interest(contract)?;
    let rate_reset = read_rate_reset(alloc, contract, names)?;
    Ok(Swppv {
        initial_exchange_date,
        maturity_date,
        notional_principal,
        nominal_interest_rate: interest.nominal_interest_rate,
        nominal_interest_rate2: interest.nominal_interest_rate2,
        day_count_convention: interest.day_count_convention,
        cycle_anchor_date_of_interest_payment: interest.cycle_anchor_date_of_interest_payment,
        cycle_of_interest_payment: interest.cycle_of_interest_payment,
        rate_reset,
    })
}

/// Both rates of a plain swap, how parts of a year are counted, and the dates of interest.
#[tactic(auto, unfolding(crate::specs::Swap::plain_interest_of))]
fn read_plain_interest(contract: &Object) -> Result<PlainInterest, TermsFault>
    ensures interest { result ≡ plain_interest_of (object_of contract.now) }
    ensures cycle { IfOk result (λ interest. LeadsOn interest.cycle_of_interest_payment) }
{
    let rate = needed(
        "nominalInterestRate",
        contract.decimal("nominalInterestRate"),
    )?;
    let rate2 = optional_decimal(contract, "nominalInterestRate2")?;
    let day_count = optional(
        "dayCountConvention",
        choice_in(contract, "dayCountConvention"),
    )?;
    let anchor = optional_day(contract, "cycleAnchorDateOfInterestPayment")?;
    let cycle = optional_cycle(contract, "cycleOfInterestPayment")?;
    Ok(PlainInterest {
        nominal_interest_rate: rate,
        nominal_interest_rate2: rate2.unwrap_or(Fixed::ZERO),
        day_count_convention: day_count.unwrap_or(DayCount::Aa),
        cycle_anchor_date_of_interest_payment: anchor,
        cycle_of_interest_payment: cycle,
    })
}

/// The terms of a SWAPS.
#[tactic(auto, unfolding(crate::specs::Swap::swaps_of))]
pub(crate) fn read_swaps(contract: &Object) -> Result<Swaps, TermsFault>
    ensures { result ≡ swaps_of (object_of contract.now) }
{
    let delivery = optional(
        "deliverySettlement",
        choice_in(contract, "deliverySettlement"),
    )?;
    Ok(Swaps {
        delivery_settlement: delivery.unwrap_or(DeliverySettlement::D),
        first: 0,
        second: 0,
        swapped: false,
    })
}

/// The terms of a CAPFL, which has a cap, a floor or both.
#[tactic(auto, unfolding(crate::specs::Swap::capfl_of))]
pub(crate) fn read_capfl(contract: &Object) -> Result<Capfl, TermsFault>
    ensures { result ≡ capfl_of (object_of contract.now) }
{
    let maturity_date = optional_day(contract, "maturityDate")?;
    let life_cap = optional_decimal(contract, "lifeCap")?;
    let life_floor = optional_decimal(contract, "lifeFloor")?;
    limited(Capfl {
        maturity_date,
        life_cap,
        life_floor,
        underlying: 0,
        shadow: 0,
    })
}

/// The terms, where they have a cap or a floor.
fn limited(capfl: Capfl) -> Result<Capfl, TermsFault>
    ensures { result ≡ limited capfl }
{
    if capfl.life_cap.is_some() || capfl.life_floor.is_some() {
        Ok(capfl)
    } else {
        Err(refused(TermCause::MissingTerm, "lifeCap"))
    }
}
