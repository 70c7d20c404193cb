//! The terms of foreign exchange outrights.
ghost use Rattle.std.specs.Prelude.{◌≡◌, ◌≢◌, Ok, Err, IfOk, IfErr, string_bytes, true};
ghost use Rattle.act_json.specs.Tree.{object_of};
ghost use Rattle.act_model.specs.Name.{is_name};
ghost use Rattle.act_terms.specs.Exchange.{currency2_of, fxout_of, pair_of, rate_name};
ghost use Rattle.act_terms.specs.Fault.{read_map};

use crate::choices::choice_in;
use crate::currencies::{currency_in, pair_name};
use crate::fault::TermsFault;
use crate::fields::{needed, needed_day, not_negative, optional};
use act_json::Object;
use act_model::{DeliverySettlement, Fxout, Names};
use std::alloc::Global;

/// The terms of a FXOUT.
#[tactic(auto, unfolding(crate::specs::Exchange::fxout_of))]
pub(crate) fn read_fxout(
    alloc: Global,
    contract: &Object,
    names: &mut Names,
) -> Result<Fxout, TermsFault>
    ensures read { IfOk result (λ fxout. fxout_of names.old (object_of contract.now) ≡ Ok (fxout, names.new)) }
    ensures refused { IfErr result (λ fault. fault ≢ TermsFault.NoMemory
        → fxout_of names.old (object_of contract.now) ≡ Err fault) }
{
    let maturity_date = needed_day(contract, "maturityDate")?;
    let notional_principal = needed(
        "notionalPrincipal",
        not_negative(contract, "notionalPrincipal"),
    )?;
    let currency2 = read_currency2(contract, names)?;
    let notional_principal2 = needed(
        "notionalPrincipal2",
        not_negative(contract, "notionalPrincipal2"),
    )?;
    let delivery = optional(
        "deliverySettlement",
        choice_in(contract, "deliverySettlement"),
    )?;
    let delivery_settlement = delivery.unwrap_or(DeliverySettlement::D);
    let pair = read_pair(alloc, delivery_settlement, contract, names)?;
    Ok(Fxout {
        maturity_date,
        notional_principal,
        currency2,
        notional_principal2,
        delivery_settlement,
        pair,
    })
}

/// The number of the other currency.
#[tactic(auto, using(crate::proofs::CodeNames::currency_is_name), unfolding(crate::specs::Exchange::currency2_of))]
fn read_currency2(contract: &Object, names: &mut Names) -> Result<u32, TermsFault>
    ensures read { IfOk result (λ currency2. currency2_of names.old (object_of contract.now) ≡ Ok (currency2, names.new)) }
    ensures refused { IfErr result (λ fault. fault ≢ TermsFault.NoMemory
        → currency2_of names.old (object_of contract.now) ≡ Err fault) }
{
    let currency2 = needed("currency2", currency_in(contract, "currency2"))?;
    Ok(names.intern_currency(currency2)?)
}

/// The number of the code of the rate between the two currencies, where the difference is settled by it.
#[tactic(auto, unfolding(crate::specs::Exchange::pair_of))]
fn read_pair(
    alloc: Global,
    delivery: DeliverySettlement,
    contract: &Object,
    names: &mut Names,
) -> Result<Option<u32>, TermsFault>
    ensures read { IfOk result (λ pair. pair_of delivery names.old (object_of contract.now) ≡ Ok (pair, names.new)) }
    ensures refused { IfErr result (λ fault. fault ≢ TermsFault.NoMemory
        → pair_of delivery names.old (object_of contract.now) ≡ Err fault) }
{
    match delivery {
        DeliverySettlement::D => Ok(None),
        DeliverySettlement::S => {
            let pair = rate_name(alloc, contract)?;
            Ok(Some(names.intern_code(pair.as_str())?))
        }
    }
}

/// The name of the rate of the other currency in the contract's, as `USD/EUR`.
#[tactic(auto, using(crate::proofs::CodeNames::pair_is_name), unfolding(crate::specs::Exchange::rate_name))]
fn rate_name(alloc: Global, contract: &Object) -> Result<String, TermsFault>
    ensures name { result ≢ Err TermsFault.NoMemory → read_map string_bytes result ≡ rate_name (object_of contract.now) }
    ensures is_name { IfOk result (λ pair. is_name (string_bytes pair) ≡ true) }
{
    let currency2 = needed("currency2", currency_in(contract, "currency2"))?;
    let currency = needed("currency", currency_in(contract, "currency"))?;
    Ok(pair_name(alloc, currency2, currency)?)
}
