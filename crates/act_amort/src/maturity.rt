//! The maturity of a LAM.
ghost use Rattle.std.specs.Prelude.{◌≡◌, ◌≤◌, ◌<◌, ◌+◌, true, int_lt, pos, unsigned_abs, Some, Err};
ghost use Rattle.act_model.specs.Limits.{most_dates};
ghost use Rattle.act_profile.specs.Built.{DerivesMaturity};
ghost use Rattle.act_profile.specs.Dates.{derived_maturity, last_redemption, maturity_after, maturity_of_lam, redemptions_needed};

use act_date::{Day, add_cycles};
use act_model::{Lam, MOST_DATES, PlanFault};
use act_num::Fixed;

/// The maturity T of a LAM: the given one, or the day of the last redemption that its payment leads to. `TooManyDates`
/// says that it needs more than 4,096 redemptions, `DateRange` that T is past 2299 or isn't after the initial exchange.
pub fn maturity_of(lam: &Lam) -> Result<Day, PlanFault>
    requires { DerivesMaturity lam.now lam.now.maturity_date }
    ensures { result ≡ maturity_of_lam lam.now }
{
    match (lam.maturity_date, lam.next_principal_redemption_payment) {
        (Some(maturity), _) => Ok(maturity),
        (None, Some(payment)) => derived_maturity(lam, payment),
        (None, None) => unreachable!(),
    }
}

/// The maturity that a payment leads to.
fn derived_maturity(lam: &Lam, payment: Fixed) -> Result<Day, PlanFault>
    requires { int_lt (pos 0) payment ≡ true }
    ensures { result ≡ derived_maturity lam.now payment }
{
    let count = redemptions_needed(lam.loan.notional_principal, payment);
    if count > MOST_DATES as u128 {
        return Err(PlanFault::TooManyDates);
    }
    maturity_after(
        lam.loan.initial_exchange_date,
        last_redemption(lam, count as u32),
    )
}

/// How often a payment redeems a notional: at least once.
fn redemptions_needed(notional: Fixed, payment: Fixed) -> u128
    requires { int_lt (pos 0) payment ≡ true }
    ensures needed { result ≡ redemptions_needed notional payment }
    ensures some { 1 ≤ result }
{
    let owed = notional.units().unsigned_abs();
    let each = payment.units().unsigned_abs();
    ((owed + each - 1) / each).max(1)
}

/// The day of the last of so many redemptions, or None where it is past 2299 or there is no cycle.
fn last_redemption(lam: &Lam, count: u32) -> Option<Day>
    requires { 1 ≤ count }
    ensures { result ≡ last_redemption lam.now count }
{
    let cycle = lam.redemption.cycle_of_principal_redemption?;
    let first = match lam.redemption.cycle_anchor_date_of_principal_redemption {
        Some(anchor) => anchor,
        None => add_cycles(lam.loan.initial_exchange_date, cycle, 1)?,
    };
    add_cycles(first, cycle, count - 1)
}

/// The day, where it is after the initial exchange.
fn maturity_after(exchange: Day, day: Option<Day>) -> Result<Day, PlanFault>
    ensures { result ≡ maturity_after exchange day }
{
    match day {
        Some(day) if exchange < day => Ok(day),
        _ => Err(PlanFault::DateRange),
    }
}
