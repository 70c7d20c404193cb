//! Rounding to the nearest whole number. Numbers that fit into words of 64 bits are divided as such. What most products are
//! rounded to is found by an estimate of the quotient: a product with the inverse of the divisor.
ghost use Rattle.std.specs.Prelude.{◌≡◌, ◌<◌, ◌≤◌, ◌+◌, ◌*◌, ◌/◌, ◌%◌, ◌^◌, pos, ◌<ℤ◌, unsigned_abs, IfSome};
ghost use Rattle.act_num.specs.Factor.{factor_one};
ghost use Rattle.act_num.specs.Number.{InRange, IsNearest, nearest_number, one, rnd, rounds_up};

use crate::fixed::ONE_IN_UNITS;

/// The units of the number 1.
pub(crate) const ONE: u64 = ONE_IN_UNITS as u64;

/// The first number past 32 bits.
const PAST_32: u64 = 1 << 32;

/// The first number that `by_one` can't divide: its quotient would have more than 64 bits.
const PAST_WORDS: u128 = (1 << 64) * 1_000_000_000;

/// The first number past those that are estimated, whose bits from the 28th on are a word.
const PAST_ESTIMATES: u128 = 1 << 92;

/// The inverse of 10^9 in units of 2^-92, cut to a whole number.
const INVERSE_OF_ONE: u64 = 4_951_760_157_141_521_099;

/// The same of 10^12.
const INVERSE_OF_FACTOR: u64 = 4_951_760_157_141_521;

/// The first number past those whose quotient by 10^12 is estimated with its fraction.
const PAST_FRACTIONS: u128 = 1 << 86;

/// The first fraction, in units of 2^-64, to which what an estimate lacks may add up to a whole.
const NEAR_WHOLE: u128 = (1 << 64) - (1 << 55);

/// The whole number nearest to `p/q`. A tie goes to the even one.
pub fn rnd(p: i128, q: i128) -> i128
    requires divisor { pos 0 <ℤ q }
    requires in_range { InRange p }
    ensures value { result ≡ rnd p (unsigned_abs q) }
    ensures nearest { IsNearest p (unsigned_abs q) result }
    ensures bound { unsigned_abs result ≤ unsigned_abs p }
{
    let magnitude = nearest(p.unsigned_abs(), q.unsigned_abs()) as i128;
    if p < 0 { -magnitude } else { magnitude }
}

/// The whole number nearest to `p / (den * 10^9)`. A tie goes to the even one.
#[inline]
pub(crate) fn rnd_by_ones(p: i128, den: u64) -> i128
    requires den_above { 1 ≤ den }
    requires den_in { den ≤ 133_590 }
    requires in_range { InRange p }
    ensures value { result ≡ rnd p (den * one) }
    ensures bound { unsigned_abs result ≤ unsigned_abs p }
{
    let magnitude = nearest_by_ones(p.unsigned_abs(), den) as i128;
    if p < 0 { -magnitude } else { magnitude }
}

/// The whole number nearest to `n/d`. A tie goes to the even one.
fn nearest(n: u128, d: u128) -> u128
    requires divisor { 0 < d }
    ensures value { result ≡ nearest_number n d }
    ensures bound { result ≤ n }
{
    if n <= u128::from(u64::MAX) && d <= u128::from(u64::MAX) {
        u128::from(nearest_word(n as u64, d as u64))
    } else {
        nearest_wide(n, d)
    }
}

/// The same, by words of 64 bits.
#[tactic(auto, unfolding(crate::specs::Number::nearest_number))]
fn nearest_word(n: u64, d: u64) -> u64
    requires divisor { 0 < d }
    ensures value { result ≡ nearest_number n d }
    ensures bound { result ≤ n }
{
    let quotient = n / d;
    if rounds_up(quotient, n % d, d) {
        quotient + 1
    } else {
        quotient
    }
}

/// The same, by 128 bits.
#[tactic(auto, unfolding(crate::specs::Number::nearest_number))]
fn nearest_wide(n: u128, d: u128) -> u128
    requires divisor { 0 < d }
    ensures value { result ≡ nearest_number n d }
    ensures bound { result ≤ n }
{
    let quotient = n / d;
    let rest = n % d;
    let short = d - rest;
    if rest > short || (rest == short && quotient % 2 == 1) {
        quotient + 1
    } else {
        quotient
    }
}

/// The whole number nearest to `n / (den * 10^9)`. A tie goes to the even one.
#[inline]
fn nearest_by_ones(n: u128, den: u64) -> u128
    requires den_above { 1 ≤ den }
    requires den_in { den ≤ 133_590 }
    ensures value { result ≡ nearest_number n (den * one) }
    ensures bound { result ≤ n }
{
    if n < PAST_WORDS {
        let (ones, rest) = by_one(n);
        let quotient = ones / den;
        let up = rounds_up(quotient, ones % den * ONE + rest, den * ONE);
        u128::from(quotient) + u128::from(up)
    } else {
        nearest_wide(n, u128::from(den * ONE))
    }
}

/// The quotient by 10^9 and the rest, digit by digit of 32 bits.
#[inline]
fn by_one(n: u128) -> (u64, u64)
    requires { n < one * 2 ^ 64 }
    ensures quotient { result.0 ≡ n / one }
    ensures rest { result.1 ≡ n % one }
{
    let front = (n >> 32) as u64;
    let back = front % ONE * PAST_32 + (n % u128::from(PAST_32)) as u64;
    (front / ONE * PAST_32 + back / ONE, back % ONE)
}

/// Whether a quotient and a rest of `d` round to the next whole number.
#[inline]
fn rounds_up(quotient: u64, rest: u64, d: u64) -> bool
    requires { rest < d }
    ensures { result ≡ rounds_up quotient rest d }
{
    let short = d - rest;
    rest > short || (rest == short && quotient % 2 == 1)
}

/// The whole number nearest to `n / (den * 10^9)`, where an estimate shows which one it is: not near ties, and not past
/// 92 bits.
#[inline]
pub(crate) fn estimated_by_ones(n: u128, den: u64) -> Option<u64>
    requires den_above { 1 ≤ den }
    requires den_in { den ≤ 133_590 }
    ensures { IfSome result (λ nearest. nearest ≡ nearest_number n (den * one)) }
{
    if n >= PAST_ESTIMATES {
        return None;
    }
    let ones = estimated_ones(n);
    // By how much twice the rest is short of the divisor. With what the estimate lacks, the rest is less than 2 greater.
    let short = den as i64 - 2 * (ones % den) as i64;
    if short < 0 || short > 3 {
        Some(ones / den + u64::from(short < 0))
    } else {
        None
    }
}

/// The quotient by 10^9, or one less.
#[inline]
fn estimated_ones(n: u128) -> u64
    requires { n < 2 ^ 92 }
    ensures low { result * one ≤ n }
    ensures high { n < (result + 2) * one }
{
    ((u128::from(front(n)) * u128::from(INVERSE_OF_ONE)) >> 64) as u64
}

/// The whole number nearest to `n / 10^12`, where an estimate shows which one it is: not near ties, and not past 86 bits.
/// The estimate lacks a little, so with a half its whole part is that number, if the fraction isn't near the next whole.
#[inline]
pub(crate) fn estimated_by_factor(n: u128) -> Option<u64>
    ensures { IfSome result (λ nearest. nearest ≡ nearest_number n factor_one) }
{
    if n >= PAST_FRACTIONS {
        return None;
    }
    let estimate = u128::from(front(n)) * u128::from(INVERSE_OF_FACTOR) + (1 << 63);
    if estimate % (1 << 64) < NEAR_WHOLE {
        Some((estimate >> 64) as u64)
    } else {
        None
    }
}

/// The bits from the 28th on.
#[inline]
fn front(n: u128) -> u64
    requires { n < 2 ^ 92 }
    ensures { result ≡ n / 2 ^ 28 }
{
    let high = (n >> 64) as u64;
    let low = (n % (1 << 64)) as u64;
    (high << 36) + (low >> 28)
}
