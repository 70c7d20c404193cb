//! The terms that every contract has.
ghost use Rattle.std.specs.Prelude.{◌≡◌, ◌≢◌, Ok, Err, IfOk, IfErr};
ghost use Rattle.act_json.specs.Tree.{object_of};
ghost use Rattle.act_terms.specs.Common.{business_days_of, common_of, given_trades_of, may_trade, position_of, trades_of};

use crate::choices::choice_in;
use crate::currencies::{code_where, read_currencies};
use crate::fault::TermsFault;
use crate::fields::{needed, needed_day, optional, optional_day, optional_decimal};
use act_date::{Calendar, Convention, Day, MonthRule};
use act_json::Object;
use act_model::{Common, ContractRole, ContractType, Names};
use act_num::Fixed;
use std::alloc::Global;

/// The role, and the day as of which the terms are given.
#[derive(Clone, Copy)]
struct Position {
    contract_role: ContractRole,
    status_date: Day,
}

/// The calendar and the conventions.
#[derive(Clone, Copy)]
struct BusinessDays {
    calendar: Calendar,
    business_day_convention: Convention,
    end_of_month_convention: MonthRule,
}

/// Purchase and termination.
#[derive(Clone, Copy)]
struct Trades {
    purchase_date: Option<Day>,
    price_at_purchase_date: Fixed,
    termination_date: Option<Day>,
    price_at_termination_date: Fixed,
}

/// The common terms of the contract of that type and number.
#[tactic(auto, unfolding(crate::specs::Common::common_of))]
pub(crate) fn read_common(
    alloc: Global,
    contract_type: ContractType,
    contract: &Object,
    number: u32,
    names: &mut Names,
) -> Result<Common, TermsFault>
    ensures read { IfOk result (λ common. common_of contract_type number names.old (object_of contract.now) ≡ Ok (common, names.new)) }
    ensures refused { IfErr result (λ fault. fault ≢ TermsFault.NoMemory
        → common_of contract_type number names.old (object_of contract.now) ≡ Err fault) }
{
    let position = read_position(contract)?;
    let money = read_currencies(alloc, contract_type, contract, names)?;
    let days = read_business_days(contract)?;
    let market_object_code = code_where(alloc, false, "marketObjectCode", contract, names)?;
    let trades = read_trades(contract_type, contract)?;
    Ok(Common {
        contract: number,
        underlying: None,
        factor: money.factor,
        contract_role: position.contract_role,
        status_date: position.status_date,
        currency: money.currency,
        settlement_currency: money.settlement_currency,
        calendar: days.calendar,
        business_day_convention: days.business_day_convention,
        end_of_month_convention: days.end_of_month_convention,
        market_object_code,
        purchase_date: trades.purchase_date,
        price_at_purchase_date: trades.price_at_purchase_date,
        termination_date: trades.termination_date,
        price_at_termination_date: trades.price_at_termination_date,
    })
}

/// The role, and the day as of which the terms are given.
#[tactic(auto, unfolding(crate::specs::Common::position_of))]
fn read_position(contract: &Object) -> Result<Position, TermsFault>
    ensures { result ≡ position_of (object_of contract.now) }
{
    Ok(Position {
        contract_role: needed("contractRole", choice_in(contract, "contractRole"))?,
        status_date: needed_day(contract, "statusDate")?,
    })
}

/// The calendar and the conventions.
#[tactic(auto, unfolding(crate::specs::Common::business_days_of))]
fn read_business_days(contract: &Object) -> Result<BusinessDays, TermsFault>
    ensures { result ≡ business_days_of (object_of contract.now) }
{
    let calendar = optional("calendar", choice_in(contract, "calendar"))?;
    let convention = optional(
        "businessDayConvention",
        choice_in(contract, "businessDayConvention"),
    )?;
    let month_rule = optional(
        "endOfMonthConvention",
        choice_in(contract, "endOfMonthConvention"),
    )?;
    Ok(BusinessDays {
        calendar: calendar.unwrap_or(Calendar::Nc),
        business_day_convention: convention.unwrap_or(Convention::Nos),
        end_of_month_convention: month_rule.unwrap_or(MonthRule::Sd),
    })
}

/// Whether contracts of a type may be bought and sold.
pub(crate) fn may_trade(contract_type: ContractType) -> bool
    ensures { result ≡ may_trade contract_type }
{
    match contract_type {
        ContractType::CEG | ContractType::CEC => false,
        _ => true,
    }
}

/// Purchase and termination, of a type that has them.
#[tactic(auto, unfolding(crate::specs::Common::trades_of))]
fn read_trades(contract_type: ContractType, contract: &Object) -> Result<Trades, TermsFault>
    ensures { result ≡ trades_of contract_type (object_of contract.now) }
{
    if may_trade(contract_type) {
        return given_trades(contract);
    }
    Ok(Trades {
        purchase_date: None,
        price_at_purchase_date: Fixed::ZERO,
        termination_date: None,
        price_at_termination_date: Fixed::ZERO,
    })
}

/// Purchase and termination.
#[tactic(auto, unfolding(crate::specs::Common::given_trades_of))]
fn given_trades(contract: &Object) -> Result<Trades, TermsFault>
    ensures { result ≡ given_trades_of (object_of contract.now) }
{
    let purchase = optional_day(contract, "purchaseDate")?;
    let purchase_price = optional_decimal(contract, "priceAtPurchaseDate")?;
    let termination = optional_day(contract, "terminationDate")?;
    let termination_price = optional_decimal(contract, "priceAtTerminationDate")?;
    Ok(Trades {
        purchase_date: purchase,
        price_at_purchase_date: purchase_price.unwrap_or(Fixed::ZERO),
        termination_date: termination,
        price_at_termination_date: termination_price.unwrap_or(Fixed::ZERO),
    })
}
