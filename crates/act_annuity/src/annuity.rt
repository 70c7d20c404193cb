//! The payment of an annuity.
ghost use Rattle.std.specs.Prelude.{◌≡◌, pos, ◌-ℤ◌, ◌*ℤ◌, ◌<ℤ◌, unsigned_abs, option_map, option_and_then, IfSome};
ghost use Rattle.act_num.specs.Number.{number_in_range, rnd};
ghost use Rattle.act_annuity.specs.Passes.{changed, first_and_divisor, passed, product_from};
ghost use Rattle.act_annuity.specs.Payment.{annuity_payment, products_at};
ghost use Rattle.act_annuity.specs.declared.annuity.Change.TheVariants.{Raise};

use crate::factors::Factors;
use act_date::Frac;
use act_num::{Factor, Fixed, rnd};

/// The units of the factor 1.
const ONE_IN_UNITS: i128 = 1_000_000_000_000;

/// The greatest number in range.
const LARGEST: u128 = i128::MAX as u128;

/// What a pass over the periods does with the products.
#[derive(Clone, Copy)]
enum Change {
    /// Each is added, and the sum wraps around past the range of an `i128`.
    Add,
    /// Each is taken away, and each rest has to be in range.
    TakeAway,
    /// Each is added. None may be below 0, and each sum has to be in range.
    Raise,
}

/// The payment that redeems the notional `n` and the interest `a` accrued on it at the yearly rate `r`, if it is
/// paid on each of some days, where `periods` are the fractions of a year from each day to the next. On one day
/// it is `n + a`. On more it is `(n + a) * q_1 / (1 + q_1 + q_2 + ..)`, rounded once, where q_i is the product of
/// the factors `1 + r * period` from the ith period on, multiplied from the last one back. None where a sum or a
/// product is out of range, the divisor being added up from the left, or the divisor isn't positive. It takes no
/// memory, and time in proportion to the periods.
pub fn payment(n: Fixed, a: Fixed, r: Fixed, periods: &[Frac]) -> Option<Fixed>
    ensures { result ≡ annuity_payment n a r periods.now }
{
    let owed = n.add(a)?;
    let (product, divisor) = product_and_divisor(r, periods)?;
    let Some(product) = product else {
        return Some(owed);
    };
    quotient(owed, product, divisor)
}

/// The product of the amount and the factor over the divisor, rounded once, or None where the product is out
/// of range.
fn quotient(owed: Fixed, product: Factor, divisor: i128) -> Option<Fixed>
    requires { pos 0 <ℤ divisor }
    ensures { result
        ≡ option_map (λ p. rnd p (unsigned_abs divisor)) (number_in_range (owed *ℤ product)) }
{
    let dividend = Fixed::from_units(owed.units().checked_mul(product.units())?)?;
    Fixed::from_units(rnd(dividend.units(), divisor))
}

/// The product of all factors, where there are periods, and the divisor, or None where one of them is undefined.
///
/// Where no product is below 0, as at all rates that are paid, no sum on the way is greater than the last one, in
/// whatever order they are added. Else the sums have to be looked at one by one.
fn product_and_divisor(r: Fixed, periods: &[Frac]) -> Option<(Option<Factor>, i128)>
    ensures value { result ≡ option_and_then first_and_divisor (products_at r periods.now) }
    ensures positive { IfSome result (λ found. pos 0 <ℤ found.1) }
{
    match pass(r, periods, ONE_IN_UNITS, Change::Raise) {
        Some(found) => Some(found),
        None => by_two_passes(r, periods),
    }
}

/// The same, whatever the products are. They come from the last period back, and aren't kept. So a first pass adds
/// them up as they come, where the sum may wrap around. A second one takes them away again, which leads from the sum
/// back over the very sums that have to be in range.
fn by_two_passes(r: Fixed, periods: &[Frac]) -> Option<(Option<Factor>, i128)>
    ensures value { result ≡ option_and_then first_and_divisor (products_at r periods.now) }
    ensures positive { IfSome result (λ found. pos 0 <ℤ found.1) }
{
    let (product, sum) = pass(r, periods, ONE_IN_UNITS, Change::Add)?;
    if sum <= 0 {
        return None;
    }
    pass(r, periods, sum, Change::TakeAway)?;
    Some((product, sum))
}

/// The product of all factors, where there are periods, and what the products from each period on, from the
/// last one back, make of a number, or None where one of them or a change is undefined.
fn pass(r: Fixed, periods: &[Frac], start: i128, change: Change) -> Option<(Option<Factor>, i128)>
    ensures { result ≡ passed change start r periods.now }
{
    let mut factors = Factors::at(r);
    let mut product = None;
    let mut number = start;
    for period in periods.iter().rev() {
        let earlier = product_from(&mut factors, *period, product)?;
        number = changed(number, earlier.units(), change)?;
        product = Some(earlier);
    }
    Some((product, number))
}

/// The product of the factors from a period on, by the one of the later periods, where there are some.
fn product_from(factors: &mut Factors, period: Frac, later: Option<Factor>) -> Option<Factor>
    ensures value { result ≡ product_from factors.old period later }
    ensures same { factors.new ≡ factors.old }
{
    let factor = factors.of(period)?;
    match later {
        Some(later) => later.times(factor),
        None => Some(factor),
    }
}

/// The number with the product added or taken away, or None where it isn't in range.
fn changed(number: i128, product: i128, change: Change) -> Option<i128>
    ensures { result ≡ changed change number product }
{
    match change {
        Change::Add => Some(number.wrapping_add(product)),
        Change::TakeAway => difference(number, product),
        Change::Raise => raised(number, product),
    }
}

/// The sum, or None where the product is below 0 or the sum out of range.
fn raised(number: i128, product: i128) -> Option<i128>
    ensures { result ≡ changed Raise number product }
{
    if product < 0 {
        return None;
    }
    // It never is below 0: `Raise` begins at the factor 1, and only adds.
    if number < 0 {
        return in_range(number + product);
    }
    let sum = number as u128 + product as u128;
    if sum <= LARGEST {
        Some(sum as i128)
    } else {
        None
    }
}

/// The number, where it is in range.
fn in_range(number: i128) -> Option<i128>
    ensures { result ≡ number_in_range number }
{
    (number != i128::MIN).then_some(number)
}

/// The difference, or None where it is out of range.
fn difference(a: i128, b: i128) -> Option<i128>
    ensures { result ≡ number_in_range (a -ℤ b) }
{
    in_range(a.checked_sub(b)?)
}
