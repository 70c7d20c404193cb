//! The terms of loans whose principal is redeemed.
ghost use Rattle.std.specs.Prelude.{◌≡◌, ◌≢◌, ◌&&◌, not, Ok, Err, None, IfOk, IfErr, IsTrue, is_some, int_lt, pos, false, true};
ghost use Rattle.std.specs.Option.{ForSome};
ghost use Rattle.act_json.specs.Tree.{object_of};
ghost use Rattle.act_profile.specs.Built.{AmortizingLeadsOn, LamIsBuilt, LeadsOn};
ghost use Rattle.act_terms.specs.Redemption.{ann_of, calculation_base_of, lam_of, lam_payment_of, nam_of, redemption_dates_of, redemption_with};

use crate::choices::choice_in;
use crate::fault::TermsFault;
use crate::fields::{
    cycle_where, day_after, needed, needed_day, needed_where, optional, optional_cycle,
    optional_day, optional_decimal, positive,
};
use crate::loan::{read_loan, read_pam};
use act_date::{Cycle, Day};
use act_json::Object;
use act_model::{Ann, InterestCalculationBase, Lam, Nam, Names, Redemption};
use act_num::Fixed;
use std::alloc::Global;

/// The days on which principal is redeemed.
#[derive(Clone, Copy)]
struct RedemptionDates {
    cycle_anchor_date_of_principal_redemption: Option<Day>,
    cycle_of_principal_redemption: Option<Cycle>,
}

/// What interest is computed on, and the days on which that is set to the notional.
#[derive(Clone, Copy)]
struct CalculationBase {
    interest_calculation_base: InterestCalculationBase,
    interest_calculation_base_amount: Option<Fixed>,
    cycle_anchor_date_of_interest_calculation_base: Option<Day>,
    cycle_of_interest_calculation_base: Option<Cycle>,
}

/// The terms of a LAM. Its maturity may be left out, and is then derived from its payment and cycle.
#[tactic(auto, unfolding(crate::specs::Redemption::lam_of))]
pub(crate) fn read_lam(
    alloc: Global,
    contract: &Object,
    names: &mut Names,
) -> Result<Lam, TermsFault>
    ensures read { IfOk result (λ lam. lam_of names.old (object_of contract.now) ≡ Ok (lam, names.new)) }
    ensures refused { IfErr result (λ fault. fault ≢ TermsFault.NoMemory
        → lam_of names.old (object_of contract.now) ≡ Err fault) }
    ensures built { IfOk result (λ lam. LamIsBuilt lam) }
{
    let exchange = needed_day(contract, "initialExchangeDate")?;
    let maturity_date = optional(
        "maturityDate",
        day_after(exchange, contract, "maturityDate"),
    )?;
    let loan = read_loan(alloc, exchange, contract, names)?;
    let dates = read_redemption_dates(maturity_date.is_some(), contract)?;
    let payment = read_lam_payment(maturity_date, contract)?;
    let base = read_calculation_base(contract)?;
    Ok(Lam {
        maturity_date,
        loan,
        redemption: redemption(dates, base),
        next_principal_redemption_payment: payment,
    })
}

/// The terms of a NAM: those of a PAM, and behind them those of redemption with the payment.
#[tactic(auto, unfolding(crate::specs::Redemption::nam_of))]
pub(crate) fn read_nam(
    alloc: Global,
    contract: &Object,
    names: &mut Names,
) -> Result<Nam, TermsFault>
    ensures read { IfOk result (λ nam. nam_of names.old (object_of contract.now) ≡ Ok (nam, names.new)) }
    ensures refused { IfErr result (λ fault. fault ≢ TermsFault.NoMemory
        → nam_of names.old (object_of contract.now) ≡ Err fault) }
    ensures cycles { IfOk result (λ nam. AmortizingLeadsOn nam.loan nam.redemption) }
{
    let pam = read_pam(alloc, contract, names)?;
    let dates = read_redemption_dates(true, contract)?;
    let payment = needed(
        "nextPrincipalRedemptionPayment",
        contract.decimal("nextPrincipalRedemptionPayment"),
    )?;
    let base = read_calculation_base(contract)?;
    Ok(Nam {
        maturity_date: pam.maturity_date,
        loan: pam.loan,
        redemption: redemption(dates, base),
        next_principal_redemption_payment: payment,
    })
}

/// The terms of an ANN: the same, but that the payment may be left out, and is then the annuity's.
#[tactic(auto, unfolding(crate::specs::Redemption::ann_of))]
pub(crate) fn read_ann(
    alloc: Global,
    contract: &Object,
    names: &mut Names,
) -> Result<Ann, TermsFault>
    ensures read { IfOk result (λ ann. ann_of names.old (object_of contract.now) ≡ Ok (ann, names.new)) }
    ensures refused { IfErr result (λ fault. fault ≢ TermsFault.NoMemory
        → ann_of names.old (object_of contract.now) ≡ Err fault) }
    ensures cycles { IfOk result (λ ann. AmortizingLeadsOn ann.loan ann.redemption) }
{
    let pam = read_pam(alloc, contract, names)?;
    let dates = read_redemption_dates(true, contract)?;
    let payment = optional_decimal(contract, "nextPrincipalRedemptionPayment")?;
    let base = read_calculation_base(contract)?;
    Ok(Ann {
        maturity_date: pam.maturity_date,
        loan: pam.loan,
        redemption: redemption(dates, base),
        next_principal_redemption_payment: payment,
    })
}

/// The days on which principal is redeemed. The cycle may be left out where a maturity is given, and a first day.
#[tactic(auto, unfolding(crate::specs::Redemption::redemption_dates_of))]
fn read_redemption_dates(
    has_maturity: bool,
    contract: &Object,
) -> Result<RedemptionDates, TermsFault>
    ensures dates { result ≡ redemption_dates_of has_maturity (object_of contract.now) }
    ensures cycle { IfOk result (λ dates. LeadsOn dates.cycle_of_principal_redemption) }
    ensures given { IfOk result (λ dates. has_maturity ≡ false
        → IsTrue (is_some dates.cycle_of_principal_redemption)) }
{
    let anchor = optional_day(contract, "cycleAnchorDateOfPrincipalRedemption")?;
    let cycle = cycle_where(
        needs_cycle(has_maturity, &anchor),
        contract,
        "cycleOfPrincipalRedemption",
    )?;
    Ok(RedemptionDates {
        cycle_anchor_date_of_principal_redemption: anchor,
        cycle_of_principal_redemption: cycle,
    })
}

/// Whether the cycle of redemption is required: unless a maturity is given, and a first day.
fn needs_cycle(has_maturity: bool, anchor: &Option<Day>) -> bool
    ensures { result ≡ not (has_maturity && is_some anchor.now) }
{
    !(has_maturity && anchor.is_some())
}

/// The payment of a LAM. Where no maturity is given it is required, and above 0.
#[tactic(auto, unfolding(crate::specs::Redemption::lam_payment_of))]
fn read_lam_payment(maturity: Option<Day>, contract: &Object) -> Result<Option<Fixed>, TermsFault>
    ensures payment { result ≡ lam_payment_of maturity (object_of contract.now) }
    ensures above_zero { IfOk result (λ payment. maturity ≡ None
        → ForSome payment (λ p. int_lt (pos 0) p ≡ true)) }
    ensures given { IfOk result (λ payment. maturity ≡ None → IsTrue (is_some payment)) }
{
    match maturity {
        Some(_) => optional_decimal(contract, "nextPrincipalRedemptionPayment"),
        None => needed_where(
            true,
            "nextPrincipalRedemptionPayment",
            positive(contract, "nextPrincipalRedemptionPayment"),
        ),
    }
}

/// What interest is computed on, and the days on which that is set to the notional.
#[tactic(auto, unfolding(crate::specs::Redemption::calculation_base_of))]
fn read_calculation_base(contract: &Object) -> Result<CalculationBase, TermsFault>
    ensures base { result ≡ calculation_base_of (object_of contract.now) }
    ensures cycle { IfOk result (λ base. LeadsOn base.cycle_of_interest_calculation_base) }
{
    let base = optional(
        "interestCalculationBase",
        choice_in(contract, "interestCalculationBase"),
    )?;
    let amount = optional_decimal(contract, "interestCalculationBaseAmount")?;
    let anchor = optional_day(contract, "cycleAnchorDateOfInterestCalculationBase")?;
    let cycle = optional_cycle(contract, "cycleOfInterestCalculationBase")?;
    Ok(CalculationBase {
        interest_calculation_base: base.unwrap_or(InterestCalculationBase::NT),
        interest_calculation_base_amount: amount,
        cycle_anchor_date_of_interest_calculation_base: anchor,
        cycle_of_interest_calculation_base: cycle,
    })
}

/// The terms of redemption together.
fn redemption(dates: RedemptionDates, base: CalculationBase) -> Redemption
    ensures { result ≡ redemption_with dates base }
{
    Redemption {
        cycle_anchor_date_of_principal_redemption: dates.cycle_anchor_date_of_principal_redemption,
        cycle_of_principal_redemption: dates.cycle_of_principal_redemption,
        interest_calculation_base: base.interest_calculation_base,
        interest_calculation_base_amount: base.interest_calculation_base_amount,
        cycle_anchor_date_of_interest_calculation_base: base.cycle_anchor_date_of_interest_calculation_base,
        cycle_of_interest_calculation_base: base.cycle_of_interest_calculation_base,
    }
}
