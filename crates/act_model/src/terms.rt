//! The terms of contracts, as the ACTUS data dictionary names them.
//!
//! Each term is one field. A field is an `Option` where an accepted contract of the kind may lack the term and
//! no fixed value stands for it; a default is filled in. Contracts, codes of market objects and currencies are
//! numbers of `Names`; days are counted from 1970-01-01, decimals in units of 10^-9.
ghost use Rattle.std.specs.Prelude.{◌≡◌, option_map};
ghost use Rattle.act_model.specs.Kind.{exchange_of, loan_of, type_of};

use crate::choice::{
    ContractRole, ContractType, DeliverySettlement, ExerciseType, FeeBasis, GuaranteedExposure,
    InterestCalculationBase, OptionType, PenaltyType, ScalingEffect,
};
use crate::observed::ObsKind;
use crate::run::Stop;
use crate::state::State;
use act_date::{Calendar, Convention, Cycle, Day, DayCount, MonthRule};
use act_num::Fixed;
use std::marker::Model;

/// The terms of one contract.
#[derive(Drop)]
pub struct Terms {
    /// What every contract has.
    pub common: Common,
    /// What its kind has besides.
    pub kind: Kind,
}

/// The terms that every contract has.
#[derive(Clone, Copy)]
pub struct Common {
    /// The contract's own number.
    pub contract: u32,
    /// The contract whose shadow this is. A shadow alone has one.
    pub underlying: Option<u32>,
    /// The number of the code CUR/SETTLEMENT, where amounts are settled in another currency by its rate.
    pub factor: Option<u32>,
    /// Which side of the contract the record's owner is on.
    pub contract_role: ContractRole,
    /// The day as of which the terms are given.
    pub status_date: Day,
    /// The currency of the amounts.
    pub currency: u32,
    /// The currency in which amounts are settled, where it is given.
    pub settlement_currency: Option<u32>,
    /// The calendar that says which days are business days.
    pub calendar: Calendar,
    /// How dates that aren't business days are moved.
    pub business_day_convention: Convention,
    /// Which day of the month dates of a schedule fall on that begins at a month's end.
    pub end_of_month_convention: MonthRule,
    /// The market object whose value is the contract's.
    pub market_object_code: Option<u32>,
    /// The day on which the contract was or will be bought.
    pub purchase_date: Option<Day>,
    /// The price at purchase.
    pub price_at_purchase_date: Fixed,
    /// The day on which the contract was or will be sold.
    pub termination_date: Option<Day>,
    /// The price at termination.
    pub price_at_termination_date: Fixed,
}

/// The terms of a contract's kind.
#[derive(Drop)]
pub enum Kind {
    /// Principal at maturity.
    PAM(Pam),
    /// Linear amortizer.
    LAM(Lam),
    /// Negative amortizer.
    NAM(Nam),
    /// Annuity.
    ANN(Ann),
    /// Stock.
    STK(Stk),
    /// Foreign exchange outright.
    FXOUT(Fxout),
    /// Plain vanilla interest rate swap.
    SWPPV(Swppv),
    /// Swap of two contracts.
    SWAPS(Swaps),
    /// Cap and floor.
    CAPFL(Capfl),
    /// Option.
    OPTNS(Optns),
    /// Future.
    FUTUR(Futur),
    /// Guarantee.
    CEG(Ceg),
    /// Collateral.
    CEC(Cec),
}

impl Kind {
    /// The type of the contract.
    pub fn contract_type(&self) -> ContractType
        ensures { result ≡ type_of self.now }
    {
        match self {
            Kind::PAM(_) => ContractType::PAM,
            Kind::LAM(_) => ContractType::LAM,
            Kind::NAM(_) => ContractType::NAM,
            Kind::ANN(_) => ContractType::ANN,
            Kind::STK(_) => ContractType::STK,
            Kind::FXOUT(_) => ContractType::FXOUT,
            Kind::SWPPV(_) => ContractType::SWPPV,
            Kind::SWAPS(_) => ContractType::SWAPS,
            Kind::CAPFL(_) => ContractType::CAPFL,
            Kind::OPTNS(_) => ContractType::OPTNS,
            Kind::FUTUR(_) => ContractType::FUTUR,
            Kind::CEG(_) => ContractType::CEG,
            Kind::CEC(_) => ContractType::CEC,
        }
    }

    /// The terms that all loans have, or None of another kind.
    pub fn loan(&self) -> Option<&Loan>
        ensures { option_map (λ loan. loan.now) result ≡ loan_of self.now }
    {
        match self {
            Kind::PAM(pam) => Some(&pam.loan),
            Kind::LAM(lam) => Some(&lam.loan),
            Kind::NAM(nam) => Some(&nam.loan),
            Kind::ANN(ann) => Some(&ann.loan),
            _ => None,
        }
    }

    /// The initial exchange of a loan or a plain swap; the other kinds have none.
    pub fn initial_exchange_date(&self) -> Option<Day>
        ensures { result ≡ exchange_of self.now }
    {
        match self {
            Kind::PAM(pam) => Some(pam.loan.initial_exchange_date),
            Kind::LAM(lam) => Some(lam.loan.initial_exchange_date),
            Kind::NAM(nam) => Some(nam.loan.initial_exchange_date),
            Kind::ANN(ann) => Some(ann.loan.initial_exchange_date),
            Kind::SWPPV(swppv) => Some(swppv.initial_exchange_date),
            _ => None,
        }
    }
}

/// The terms that all loans have: PAM, LAM, NAM and ANN.
#[derive(Clone, Copy)]
pub struct Loan {
    /// The day on which the notional is paid out.
    pub initial_exchange_date: Day,
    /// The notional, not below 0.
    pub notional_principal: Fixed,
    /// The yearly rate of interest. Without one there are no interest dates.
    pub nominal_interest_rate: Option<Fixed>,
    /// The interest accrued so far, at the status date or, before the initial exchange, at that day.
    pub accrued_interest: Option<Fixed>,
    /// The premium, or below 0 the discount, paid with the notional.
    pub premium_discount_at_ied: Fixed,
    /// How parts of a year are counted.
    pub day_count_convention: DayCount,
    /// The first day of the interest dates.
    pub cycle_anchor_date_of_interest_payment: Option<Day>,
    /// The time between interest dates.
    pub cycle_of_interest_payment: Option<Cycle>,
    /// The last day on which interest is added to the notional in place of being paid.
    pub capitalization_end_date: Option<Day>,
    /// How the rate is reset.
    pub rate_reset: RateReset,
    /// The fees.
    pub fee: Fee,
    /// How payments are scaled by an index.
    pub scaling: Scaling,
    /// How the penalty of a prepayment is computed.
    pub penalty_type: PenaltyType,
    /// The penalty, an amount or a rate.
    pub penalty_rate: Fixed,
}

/// The terms of rate resets, of loans and of SWPPV.
#[derive(Clone, Copy)]
pub struct RateReset {
    /// The first day of the reset dates.
    pub cycle_anchor_date_of_rate_reset: Option<Day>,
    /// The time between reset dates.
    pub cycle_of_rate_reset: Option<Cycle>,
    /// The market object whose value the rate is reset to. Given where there is a reset.
    pub market_object_code_of_rate_reset: Option<u32>,
    /// The rate that the next reset after the status date sets, where it is fixed already.
    pub next_reset_rate: Option<Fixed>,
    /// What is added to the observed rate.
    pub rate_spread: Fixed,
    /// What the observed rate is multiplied with.
    pub rate_multiplier: Fixed,
    /// The greatest rate.
    pub life_cap: Option<Fixed>,
    /// The least rate.
    pub life_floor: Option<Fixed>,
    /// The greatest change at one reset.
    pub period_cap: Option<Fixed>,
    /// The least change at one reset.
    pub period_floor: Option<Fixed>,
}

/// The terms of a loan's fees.
#[derive(Clone, Copy)]
pub struct Fee {
    /// The first day of the fee dates.
    pub cycle_anchor_date_of_fee: Option<Day>,
    /// The time between fee dates.
    pub cycle_of_fee: Option<Cycle>,
    /// The fee, an amount or a yearly rate. Without one there are no fee dates.
    pub fee_rate: Option<Fixed>,
    /// Whether the fee is an amount or a rate. Given where the fee is.
    pub fee_basis: Option<FeeBasis>,
    /// The fee accrued at the status date or, before the initial exchange, at that day.
    pub fee_accrued: Fixed,
}

/// The terms of a loan's scaling.
#[derive(Clone, Copy)]
pub struct Scaling {
    /// What is scaled.
    pub scaling_effect: ScalingEffect,
    /// The first day of the scaling dates.
    pub cycle_anchor_date_of_scaling_index: Option<Day>,
    /// The time between scaling dates.
    pub cycle_of_scaling_index: Option<Cycle>,
    /// The market object whose value is the index. Given where something is scaled.
    pub market_object_code_of_scaling_index: Option<u32>,
    /// The index at the contract's deal, above 0. Given where something is scaled.
    pub scaling_index_at_contract_deal_date: Option<Fixed>,
}

/// The terms of principal redemption, of LAM, NAM and ANN.
#[derive(Clone, Copy)]
pub struct Redemption {
    /// The first day of the redemption dates.
    pub cycle_anchor_date_of_principal_redemption: Option<Day>,
    /// The time between redemption dates.
    pub cycle_of_principal_redemption: Option<Cycle>,
    /// What interest is computed on.
    pub interest_calculation_base: InterestCalculationBase,
    /// The amount that interest is computed on at first.
    pub interest_calculation_base_amount: Option<Fixed>,
    /// The first day on which the base is set to the notional.
    pub cycle_anchor_date_of_interest_calculation_base: Option<Day>,
    /// The time between such days.
    pub cycle_of_interest_calculation_base: Option<Cycle>,
}

/// Principal at maturity.
#[derive(Clone, Copy)]
pub struct Pam {
    /// The day on which the notional is paid back, after the initial exchange.
    pub maturity_date: Day,
    /// What all loans have.
    pub loan: Loan,
}

/// Linear amortizer: equal redemptions of the notional.
#[derive(Clone, Copy)]
pub struct Lam {
    /// The day on which the rest is paid back, after the initial exchange. Without one it is derived.
    pub maturity_date: Option<Day>,
    /// What all loans have.
    pub loan: Loan,
    /// The terms of redemption.
    pub redemption: Redemption,
    /// The amount of each redemption. Without one it is derived.
    pub next_principal_redemption_payment: Option<Fixed>,
}

/// Negative amortizer: payments of interest and principal together, of a given amount.
#[derive(Clone, Copy)]
pub struct Nam {
    /// The day on which the rest is paid back, after the initial exchange.
    pub maturity_date: Day,
    /// What all loans have.
    pub loan: Loan,
    /// The terms of redemption.
    pub redemption: Redemption,
    /// The amount of interest and principal together.
    pub next_principal_redemption_payment: Fixed,
}

/// Annuity: equal payments of interest and principal together.
#[derive(Clone, Copy)]
pub struct Ann {
    /// The day on which the rest is paid back, after the initial exchange.
    pub maturity_date: Day,
    /// What all loans have.
    pub loan: Loan,
    /// The terms of redemption.
    pub redemption: Redemption,
    /// The amount of interest and principal together. Without one it is the annuity payment.
    pub next_principal_redemption_payment: Option<Fixed>,
}

/// Stock. It has no terms of its own.
#[derive(Clone, Copy)]
pub struct Stk {}

/// Foreign exchange outright: an amount in one currency against one in another.
#[derive(Clone, Copy)]
pub struct Fxout {
    /// The day of the exchange.
    pub maturity_date: Day,
    /// The amount in the contract's currency, not below 0.
    pub notional_principal: Fixed,
    /// The other currency.
    pub currency2: u32,
    /// The amount in the other currency, not below 0.
    pub notional_principal2: Fixed,
    /// Whether both amounts are paid, or their difference.
    pub delivery_settlement: DeliverySettlement,
    /// The number of the code CUR2/CUR, where the difference is paid.
    pub pair: Option<u32>,
}

/// Plain vanilla interest rate swap: a fixed rate against one that is reset.
#[derive(Clone, Copy)]
pub struct Swppv {
    /// The day on which it begins.
    pub initial_exchange_date: Day,
    /// The day on which it ends, after the initial exchange.
    pub maturity_date: Day,
    /// The notional, not below 0.
    pub notional_principal: Fixed,
    /// The fixed rate.
    pub nominal_interest_rate: Fixed,
    /// The rate that is reset, at first.
    pub nominal_interest_rate2: Fixed,
    /// How parts of a year are counted.
    pub day_count_convention: DayCount,
    /// The first day of the interest dates.
    pub cycle_anchor_date_of_interest_payment: Option<Day>,
    /// The time between interest dates.
    pub cycle_of_interest_payment: Option<Cycle>,
    /// How the rate is reset.
    pub rate_reset: RateReset,
}

/// Swap of two contracts.
#[derive(Clone, Copy)]
pub struct Swaps {
    /// Whether interest of one day and currency is paid net.
    pub delivery_settlement: DeliverySettlement,
    /// The first leg, FIL.
    pub first: u32,
    /// The second leg, SEL.
    pub second: u32,
    /// Whether SEL stands before FIL in the structure; then the first of the children is SEL.
    pub swapped: bool,
}

/// Cap and floor: by how much the interest payments of an underlying change where its rate is limited.
#[derive(Clone, Copy)]
pub struct Capfl {
    /// The last day, where there is one.
    pub maturity_date: Option<Day>,
    /// The greatest rate.
    pub life_cap: Option<Fixed>,
    /// The least rate.
    pub life_floor: Option<Fixed>,
    /// The underlying.
    pub underlying: u32,
    /// Its shadow: the underlying with this cap and floor in place of its own.
    pub shadow: u32,
}

/// Option on a market object.
#[derive(Clone, Copy)]
pub struct Optns {
    /// The last day of exercise.
    pub maturity_date: Day,
    /// Call, put or both.
    pub option_type: OptionType,
    /// The strike; of both the call's.
    pub option_strike1: Fixed,
    /// The put's strike of both.
    pub option_strike2: Option<Fixed>,
    /// When it may be exercised.
    pub option_exercise_type: ExerciseType,
    /// The time from exercise to payment.
    pub settlement_period: Cycle,
    /// The market object.
    pub underlying: u32,
}

/// Future on a market object.
#[derive(Clone, Copy)]
pub struct Futur {
    /// The day of exercise.
    pub maturity_date: Day,
    /// The agreed price.
    pub futures_price: Fixed,
    /// The time from exercise to payment.
    pub settlement_period: Cycle,
    /// The market object.
    pub underlying: u32,
}

/// Guarantee: it pays a part of what the covered contracts owe after a credit event.
#[derive(Drop)]
pub struct Ceg {
    /// The last day of the cover, where there is one.
    pub maturity_date: Option<Day>,
    /// The part of the exposure that is covered.
    pub coverage_of_credit_enhancement: Fixed,
    /// What the exposure is.
    pub guaranteed_exposure: GuaranteedExposure,
    /// The credit events that are covered.
    pub credit_event_type_covered: Vec<ObsKind>,
    /// The time from the credit event to payment.
    pub settlement_period: Cycle,
    /// The covered contracts, in structure order.
    pub covered: Vec<Covered>,
}

impl Model for Ceg {
    ghost use Rattle.act_model.specs.Terms.{Guarantee};

    ghost Value = { Guarantee };

    ghost view = { λ g. record { maturity_date = g.maturity_date; coverage_of_credit_enhancement = g.coverage_of_credit_enhancement; guaranteed_exposure = g.guaranteed_exposure; credit_event_type_covered = g.credit_event_type_covered.items; settlement_period = g.settlement_period; covered = g.covered.items } };
}

/// Collateral: a guarantee that pays at most what the collateral is worth.
#[derive(Drop)]
pub struct Cec {
    /// What a guarantee has.
    pub guarantee: Ceg,
    /// The codes of the collateral, in structure order.
    pub covering: Vec<u32>,
}

impl Model for Cec {
    ghost use Rattle.act_model.specs.Terms.{Collateral};

    ghost Value = { Collateral };

    ghost view = { λ c. record { guarantee = c.guarantee; covering = c.covering.items } };
}

/// What a guarantee knows of a covered contract.
#[derive(Clone, Copy)]
pub struct Covered {
    /// Its number.
    pub contract: u32,
    /// Its place among the guarantee's children, from 0.
    pub child: u32,
    /// Its kind.
    pub kind: ContractType,
    /// Its day count convention, where its kind has one.
    pub count: Option<DayCount>,
    /// Its calendar.
    pub calendar: Calendar,
    /// Its maturity, where there is one; of a LAM without one the derived.
    pub maturity: Option<Day>,
    /// The market object whose value is the contract's.
    pub market: Option<u32>,
    /// Its starting state, or the stop of a run that has none.
    pub start: Result<State, Stop>,
}
