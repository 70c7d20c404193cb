//! What days and amounts are that the program holds. These calls do nothing, and stand where a proof needs what they say.
ghost use Rattle.std.specs.Prelude.{IfSome};
ghost use Rattle.act_num.specs.Number.{InRange};
ghost use Rattle.act_date.specs.Civil.{IsDay};
ghost use Rattle.act_model.specs.Bounds.{AreBounded, EntryIsBounded, KindIsBounded, LoanIsBounded, RedemptionIsBounded, ResetIsBounded};

use crate::observed::Obs;
use crate::terms::{Kind, Loan, RateReset, Redemption, Terms};
use act_date::Day;
use act_num::Fixed;

impl Obs {
    /// Its day is a day, and its value a number of the range. It does nothing, and stands where a proof needs this.
    #[inline(always)]
    pub fn is_bounded(&self)
        ensures { EntryIsBounded self.now }
    {
        let (Obs::Rate { day, value, .. } | Obs::Event { day, value, .. }) = *self;
        let _ = (day.number(), value.units());
    }
}

impl Terms {
    /// Its days are days, and its amounts numbers of the range. It does nothing, and stands where a proof needs this.
    #[inline(always)]
    pub fn are_bounded(&self)
        ensures { AreBounded self.now }
    {
        let common = self.common;
        let _ = common.status_date.number();
        is_day(common.purchase_date);
        let _ = common.price_at_purchase_date.units();
        is_day(common.termination_date);
        let _ = common.price_at_termination_date.units();
        kind_is_bounded(&self.kind);
    }
}

/// What a kind has is bounded.
fn kind_is_bounded(kind: &Kind)
    ensures { KindIsBounded kind.now }
{
    match kind {
        Kind::PAM(pam) => loan_is_bounded(&pam.loan),
        Kind::LAM(lam) => redemption_is_bounded(
            &lam.loan,
            &lam.redemption,
            lam.next_principal_redemption_payment,
        ),
        Kind::NAM(nam) => redemption_is_bounded(
            &nam.loan,
            &nam.redemption,
            Some(nam.next_principal_redemption_payment),
        ),
        Kind::ANN(ann) => redemption_is_bounded(
            &ann.loan,
            &ann.redemption,
            ann.next_principal_redemption_payment,
        ),
        Kind::FXOUT(fxout) => {
            let _ = (
                fxout.notional_principal.units(),
                fxout.notional_principal2.units(),
            );
        }
        Kind::SWPPV(swppv) => {
            let _ = swppv.notional_principal.units();
            let _ = swppv.nominal_interest_rate.units();
            let _ = swppv.nominal_interest_rate2.units();
            reset_is_bounded(&swppv.rate_reset);
        }
        Kind::OPTNS(optns) => {
            let _ = optns.maturity_date.number();
        }
        _ => {}
    }
}

/// What a loan that redeems has is bounded.
fn redemption_is_bounded(loan: &Loan, redemption: &Redemption, payment: Option<Fixed>)
    ensures { RedemptionIsBounded loan.now redemption.now payment }
{
    loan_is_bounded(loan);
    is_number(redemption.interest_calculation_base_amount);
    is_number(payment);
}

/// What a loan has is bounded.
fn loan_is_bounded(loan: &Loan)
    ensures { LoanIsBounded loan.now }
{
    let _ = loan.notional_principal.units();
    is_number(loan.nominal_interest_rate);
    is_number(loan.accrued_interest);
    reset_is_bounded(&loan.rate_reset);
    is_number(loan.fee.fee_rate);
    let _ = loan.fee.fee_accrued.units();
    let _ = loan.penalty_rate.units();
}

/// What a rate is reset to is bounded.
fn reset_is_bounded(reset: &RateReset)
    ensures { ResetIsBounded reset.now }
{
    is_number(reset.next_reset_rate);
    is_number(reset.life_cap);
    is_number(reset.life_floor);
}

/// A date that is given is a day.
fn is_day(date: Option<Day>)
    ensures { IfSome date IsDay }
{
    if let Some(date) = date {
        let _ = date.number();
    }
}

/// An amount that is given is a number of the range.
fn is_number(amount: Option<Fixed>)
    ensures { IfSome amount InRange }
{
    if let Some(amount) = amount {
        let _ = amount.units();
    }
}
