//! The dates of interest of loans whose principal is redeemed.
ghost use Rattle.std.specs.Prelude.{◌≡◌, [], ◌∷◌, ◌++◌, if◌then◌else◌, false, Some, option_map, IfOk, IfErr, IsSome};
ghost use Rattle.act_amort.specs.Payments.{with_later};
ghost use Rattle.act_kind.specs.Types.{IsAnswer};
ghost use Rattle.act_loan.specs.Kinds.{pays_interest_alone};
ghost use Rattle.act_profile.specs.Built.{CyclesLeadOn};
ghost use Rattle.act_profile.specs.Dates.{after};
ghost use Rattle.act_profile.specs.LoanPlan.{interest_dates_until, interest_payment_dates, redemption_dates};
ghost use Rattle.act_profile.specs.Planning.{shifting};

use act_date::Day;
use act_kind::{Planned, shifting, united};
use act_loan::LoanTerms;
use act_model::{ContractType, EventType, PlanFault};
use std::alloc::{AllocError, Global};

/// The dates of IP. A NAM and an ANN pay interest on their redemption dates and at maturity besides.
pub(crate) fn interest_payments(
    alloc: Global,
    loan: &LoanTerms,
    redemptions: &[Day],
) -> Result<Vec<Planned>, PlanFault>
    requires redemptions { redemption_dates loan.now ≡ Some redemptions.now }
    requires cycles { CyclesLeadOn loan.now }
    ensures { IsAnswer result (option_map (shifting EventType.IP) (interest_payment_dates loan.now)) }
{
    match loan.kind {
        ContractType::NAM | ContractType::ANN => payments_with(alloc, loan, redemptions),
        _ => loan.interest_payments(alloc),
    }
}

/// The dates of IP of a loan that pays interest on its redemption dates and at maturity besides.
fn payments_with(
    alloc: Global,
    loan: &LoanTerms,
    redemptions: &[Day],
) -> Result<Vec<Planned>, PlanFault>
    requires redemptions { redemption_dates loan.now ≡ Some redemptions.now }
    requires cycles { CyclesLeadOn loan.now }
    requires kind { pays_interest_alone loan.now.type ≡ false }
    ensures { IsAnswer result (option_map (shifting EventType.IP) (interest_payment_dates loan.now)) }
{
    if loan.loan.nominal_interest_rate.is_none() {
        return Ok(Vec::new(alloc));
    }
    let dates = payment_dates(alloc, loan, redemptions)?;
    shifting(alloc, EventType::IP, &dates)
}

/// The same dates before they are shifted, where there is a rate: those of interest, those of redemption and the
/// maturity, as far as they come after a capitalization.
fn payment_dates(
    alloc: Global,
    loan: &LoanTerms,
    redemptions: &[Day],
) -> Result<Vec<Day>, PlanFault>
    requires redemptions { redemption_dates loan.now ≡ Some redemptions.now }
    requires cycles { CyclesLeadOn loan.now }
    requires kind { pays_interest_alone loan.now.type ≡ false }
    requires rate { IsSome loan.now.loan.nominal_interest_rate }
    ensures { IsAnswer result (interest_payment_dates loan.now) }
{
    match own_dates(alloc, loan) {
        Ok(dates) => with_redemptions(alloc, loan, dates, redemptions),
        Err(fault) => Err(fault),
    }
}

/// The interest dates up to the maturity that come after a capitalization, or the maturity alone where they have no
/// anchor.
fn own_dates(alloc: Global, loan: &LoanTerms) -> Result<Vec<Day>, PlanFault>
    requires { CyclesLeadOn loan.now }
    ensures { IsAnswer result (option_map (after loan.now.loan.capitalization_end_date) (interest_dates_until loan.now loan.now.maturity)) }
{
    loan.interest_dates(alloc, loan.maturity, loan.loan.capitalization_end_date)
}

/// Some dates with those of redemption and the maturity, as far as these come after a capitalization.
fn with_redemptions(
    alloc: Global,
    loan: &LoanTerms,
    dates: Vec<Day>,
    redemptions: &[Day],
) -> Result<Vec<Day>, PlanFault>
    ensures dates { IfOk result (λ all. all.items
        ≡ with_later loan.now.loan.capitalization_end_date (redemptions.now ++ loan.now.maturity ∷ []) dates.items) }
    ensures no_memory { IfErr result (λ fault. fault ≡ PlanFault.NoMemory) }
{
    match redemptions_and_end(alloc, loan, redemptions) {
        Ok(others) => united(dates, &others),
        Err(_) => Err(PlanFault::NoMemory),
    }
}

/// The dates of redemption and the maturity, as far as they come after a capitalization.
fn redemptions_and_end(
    alloc: Global,
    loan: &LoanTerms,
    redemptions: &[Day],
) -> Result<Vec<Day>, AllocError>
    ensures { IfOk result (λ dates. dates.items
        ≡ after loan.now.loan.capitalization_end_date (redemptions.now ++ loan.now.maturity ∷ [])) }
{
    let mut dates = dates_after(alloc, redemptions, loan.loan.capitalization_end_date)?;
    if is_after(loan.loan.capitalization_end_date, loan.maturity) {
        dates.push(loan.maturity)?;
    }
    Ok(dates)
}

/// The dates after a day, where one is given.
fn dates_after(alloc: Global, dates: &[Day], day: Option<Day>) -> Result<Vec<Day>, AllocError>
    ensures { IfOk result (λ later. later.items ≡ after day dates.now) }
{
    match day {
        Some(day) => dates
            .iter()
            .copied()
            .filter(|date| day < *date)
            .collect(alloc),
        None => Vec::from_slice(alloc, dates),
    }
}

/// Whether a date comes after a day, where one is given.
fn is_after(day: Option<Day>, date: Day) -> bool
    ensures { (if result then date ∷ [] else []) ≡ after day (date ∷ []) }
{
    day.is_none_or(|day| day < date)
}
