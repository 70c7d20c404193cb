//! The names that terms give, and their numbers.
ghost use Rattle.std.specs.Prelude.{◌≡◌, ◌≢◌, ◌++◌, Ok, Err, Some, true, false, IfOk, IfErr, codes, option_map, string_bytes};
ghost use Rattle.std.specs.Str.{bytes_eq};
ghost use Rattle.act_json.specs.Tree.{object_of};
ghost use Rattle.act_json.specs.Results.{result_map};
ghost use Rattle.std.specs.Option.{ForSome};
ghost use Rattle.act_model.specs.Name.{is_currency, is_name};
ghost use Rattle.act_terms.specs.Fault.{read_map};
ghost use Rattle.act_terms.specs.Names.{code_where, contract_id, currencies_of, currency_field, id_named, may_settle, numbered, numbered_currencies, pair_name, settlement_of, with_currency, with_factor};

use crate::fault::{TermCause, TermsFault, refused};
use crate::fields::{needed, needed_where, optional};
use act_json::{JsonFault, Object};
use act_model::{ContractType, Names, is_currency};
use act_num::NoMemory;
use std::alloc::Global;
use std::marker::Model;

/// The currencies of a contract, and the code of the rate between them.
#[derive(Clone, Copy)]
pub(crate) struct Currencies {
    /// The currency of the amounts.
    pub(crate) currency: u32,
    /// The one in which they are settled, where it is given.
    pub(crate) settlement_currency: Option<u32>,
    /// The number of the code CUR/SETTLEMENT, where the two differ.
    pub(crate) factor: Option<u32>,
}

/// The contract's name: any name but a star.
#[tactic(auto, unfolding(crate::specs::Names::contract_id))]
pub(crate) fn contract_id(alloc: Global, contract: &Object) -> Result<String, TermsFault>
    ensures id { result ≢ Err TermsFault.NoMemory → read_map string_bytes result ≡ contract_id (object_of contract.now) }
    ensures name { IfOk result (λ id. is_name (string_bytes id) ≡ true) }
    ensures no_star { IfOk result (λ id. bytes_eq (string_bytes id) (codes "*") ≡ false) }
{
    let id = needed("contractID", contract.word(alloc, "contractID"))?;
    if id.as_str() == "*" {
        return Err(refused(TermCause::BadName, "contractID"));
    }
    Ok(id)
}

/// The number of the market object that a term names, which is required where something holds.
#[tactic(auto, unfolding(crate::specs::Names::code_where))]
pub(crate) fn code_where(
    alloc: Global,
    wanted: bool,
    term: &'static str,
    contract: &Object,
    names: &mut Names,
) -> Result<Option<u32>, TermsFault>
    ensures read { IfOk result (λ code. code_where wanted term.now names.old (object_of contract.now) ≡ Ok (code, names.new)) }
    ensures refused { IfErr result (λ fault. fault ≢ TermsFault.NoMemory
        → code_where wanted term.now names.old (object_of contract.now) ≡ Err fault) }
{
    match needed_where(wanted, term, contract.word(alloc, term))? {
        Some(code) => Ok(Some(names.intern_code(code.as_str())?)),
        None => Ok(None),
    }
}

/// The currency of the amounts of a contract of that type, the one in which they are settled, and the code of the rate
/// between them where they differ.
#[tactic(auto, using(crate::proofs::CodeNames::currency_is_name), unfolding(crate::specs::Names::currencies_of))]
pub(crate) fn read_currencies(
    alloc: Global,
    contract_type: ContractType,
    contract: &Object,
    names: &mut Names,
) -> Result<Currencies, TermsFault>
    ensures read { IfOk result (λ money. currencies_of contract_type names.old (object_of contract.now) ≡ Ok (money, names.new)) }
    ensures refused { IfErr result (λ fault. fault ≢ TermsFault.NoMemory
        → currencies_of contract_type names.old (object_of contract.now) ≡ Err fault) }
{
    let currency = needed("currency", currency_in(contract, "currency"))?;
    match settlement_currency(contract_type, contract)? {
        Some(settlement) => Ok(settled(alloc, currency, settlement, names)?),
        None => Ok(Currencies {
            currency: names.intern_currency(currency)?,
            settlement_currency: None,
            factor: None,
        }),
    }
}

/// Whether contracts of a type may be settled in another currency.
pub(crate) fn may_settle(contract_type: ContractType) -> bool
    ensures { result ≡ may_settle contract_type }
{
    match contract_type {
        ContractType::FXOUT => false,
        _ => true,
    }
}

/// The currency in which amounts are settled, where it is given, of a type that uses it.
#[tactic(auto, unfolding(crate::specs::Names::settlement_of))]
fn settlement_currency<'a>(
    contract_type: ContractType,
    contract: &Object<'_, 'a>,
) -> Result<Option<&'a str>, TermsFault>
    ensures read { read_map (option_map (λ text. text.now)) result ≡ settlement_of contract_type (object_of contract.now) }
    ensures name { IfOk result (λ found. ForSome found (λ currency. is_currency currency.now ≡ true)) }
{
    if may_settle(contract_type) {
        optional(
            "settlementCurrency",
            currency_in(contract, "settlementCurrency"),
        )
    } else {
        Ok(None)
    }
}

/// The numbers of two currencies, and of the code of the rate between them where they differ.
#[tactic(auto, using(crate::proofs::CodeNames::currency_is_name))]
fn settled(
    alloc: Global,
    currency: &str,
    settlement: &str,
    names: &mut Names,
) -> Result<Currencies, NoMemory>
    requires currency { is_currency currency.now ≡ true }
    requires settlement { is_currency settlement.now ≡ true }
    ensures numbered { IfOk result (λ money. numbered_currencies currency.now (Some settlement.now) names.old ≡ (money, names.new)) }
{
    let first = names.intern_currency(currency)?;
    let second = names.intern_currency(settlement)?;
    Ok(Currencies {
        currency: first,
        settlement_currency: Some(second),
        factor: factor(alloc, currency, settlement, names)?,
    })
}

/// The number of the code of the rate between two currencies, where they differ.
#[tactic(auto, using(crate::proofs::CodeNames::pair_is_name))]
fn factor(
    alloc: Global,
    currency: &str,
    settlement: &str,
    names: &mut Names,
) -> Result<Option<u32>, NoMemory>
    requires currency { is_currency currency.now ≡ true }
    requires settlement { is_currency settlement.now ≡ true }
    ensures numbered { IfOk result (λ code. with_factor currency.now settlement.now names.old ≡ (code, names.new)) }
{
    if currency == settlement {
        return Ok(None);
    }
    let pair = pair_name(alloc, currency, settlement)?;
    Ok(Some(names.intern_code(pair.as_str())?))
}

/// The name of the rate between two currencies, as `EUR/USD`.
pub(crate) fn pair_name(alloc: Global, currency: &str, other: &str) -> Result<String, NoMemory>
    ensures { IfOk result (λ pair. string_bytes pair ≡ pair_name currency.now other.now) }
{
    let mut pair = String::from_str(alloc, currency)?;
    pair.push_str("/")?;
    pair.push_str(other)?;
    Ok(pair)
}

/// The currency that a term names, where it stands in the object. BadName where the text is none. It takes no memory.
pub(crate) fn currency_in<'a>(
    contract: &Object<'_, 'a>,
    term: &str,
) -> Result<Option<&'a str>, JsonFault>
    ensures field { result_map (option_map (λ text. text.now)) result ≡ currency_field term.now (object_of contract.now) }
    ensures name { IfOk result (λ found. ForSome found (λ currency. is_currency currency.now ≡ true)) }
{
    match contract.text(term)? {
        Some(currency) if !is_currency(currency) => Err(JsonFault::BadName),
        found => Ok(found),
    }
}
