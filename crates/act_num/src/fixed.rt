//! Amounts, rates and prices.
ghost use Rattle.std.specs.Prelude.{◌≡◌, ◌≤◌, ◌*◌, ◌^◌, ℤ, pos, ◌+ℤ◌, ◌-ℤ◌, ◌*ℤ◌, ◌<ℤ◌, ◌≤ℤ◌, neg_ℤ, unsigned_abs, IfSome, IsTrue, Some};
ghost use Rattle.std.specs.Int.{int_max, int_min};
ghost use Rattle.act_num.specs.Number.{InRange, largest, number_in_range, one, rnd, add_of, sub_of, mul_of, mul_frac_of, ratio_of, clip_of};

use crate::rounding::{estimated_by_ones, rnd, rnd_by_ones};
use std::cmp::Ordering;
use std::marker::Model;

/// The units of the number 1.
pub(crate) const ONE_IN_UNITS: i128 = 1_000_000_000;

/// The most units of a number.
pub(crate) const LARGEST: u128 = (1 << 127) - 1;

/// The first numbers past 31 and 95 bits.
const PAST_31: i128 = 1 << 31;

const PAST_95: i128 = 1 << 95;

/// A number in whole units of 10^-9, from `-(2^127 - 1)` to `2^127 - 1` of them.
#[derive(Clone, Copy, PartialEq, Eq, PartialOrd, Ord)]
pub struct Fixed {
    units: i128,
}

impl Model for Fixed {
    ghost use Rattle.std.specs.Prelude.{ℤ};
    ghost use Rattle.act_num.specs.Number.{InRange};

    ghost Value = { ℤ };

    ghost view = { λ f. f.units };

    ghost invariant = { λ f. InRange f.units };

    ghost inverse = { λ z. record { units = z } };
}

impl Fixed {
    /// The number 0.
    pub const ZERO: Fixed = Fixed { units: 0 };

    /// The number 1.
    pub const ONE: Fixed = Fixed {
        units: ONE_IN_UNITS,
    };

    /// The number of so many units of 10^-9, or None where that is out of range.
    pub fn from_units(units: i128) -> Option<Fixed>
        ensures { result ≡ number_in_range units }
    {
        let units = in_range(units)?;
        Some(Fixed { units })
    }

    /// How many units of 10^-9 it has.
    pub fn units(self) -> i128
        ensures value { result ≡ self }
        ensures in_range { InRange result }
    {
        self.units
    }

    /// The sum, or None where it is out of range.
    pub fn add(self, b: Fixed) -> Option<Fixed>
        ensures { result ≡ add_of self b }
    {
        Fixed::from_units(self.units.checked_add(b.units)?)
    }

    /// The difference, or None where it is out of range.
    pub fn sub(self, b: Fixed) -> Option<Fixed>
        ensures { result ≡ sub_of self b }
    {
        Fixed::from_units(self.units.checked_sub(b.units)?)
    }

    /// The product, rounded once, or None where the product of the units is out of range. Multipliers, which stand on the left,
    /// are mostly 1.
    pub fn mul(self, b: Fixed) -> Option<Fixed>
        ensures { result ≡ mul_of self b }
    {
        if self.units == ONE_IN_UNITS && is_word(b.units) {
            return Some(b);
        }
        self.rounded_product(b)
    }

    /// The product, as `mul` answers it, of any two numbers.
    #[inline(never)]
    fn rounded_product(self, b: Fixed) -> Option<Fixed>
        ensures { result ≡ mul_of self b }
    {
        Some(by_ones(product(self.units, b.units)?, 1))
    }

    /// The product with the fraction `num/den`, rounded once, or None where a product of the units, from
    /// left to right, is out of range.
    #[inline(never)]
    pub fn mul_frac(self, b: Fixed, num: i64, den: i64) -> Option<Fixed>
        requires num_in { pos 0 ≤ℤ num }
        requires den_above { pos 1 ≤ℤ den }
        requires den_in { den ≤ℤ pos 133_590 }
        ensures { result ≡ mul_frac_of self b num (unsigned_abs den) }
    {
        match estimated_frac(self.units, b.units, num, den as u64) {
            Some(units) => Some(Fixed { units }),
            None => self.rounded_frac(b, num, den),
        }
    }

    /// The product with the fraction, as `mul_frac` answers it, worked out by divisions.
    #[inline(never)]
    fn rounded_frac(self, b: Fixed, num: i64, den: i64) -> Option<Fixed>
        requires num_in { pos 0 ≤ℤ num }
        requires den_above { pos 1 ≤ℤ den }
        requires den_in { den ≤ℤ pos 133_590 }
        ensures { result ≡ mul_frac_of self b num (unsigned_abs den) }
    {
        let product = times(product(self.units, b.units)?, num)?;
        Some(by_ones(product, den as u64))
    }

    /// The ratio, rounded once, or None where `b` is 0 or this number times 10^9 is out of range.
    pub fn ratio(self, b: Fixed) -> Option<Fixed>
        ensures { result ≡ ratio_of self b }
    {
        let dividend = product(self.units, ONE_IN_UNITS)?;
        match b.units.cmp(&0) {
            Ordering::Less => Some(rounded(-dividend, -b.units)),
            Ordering::Equal => None,
            Ordering::Greater => Some(rounded(dividend, b.units)),
        }
    }

    /// The lesser of the two.
    pub fn min(self, b: Fixed) -> Fixed
        ensures { result ≡ int_min self b }
    {
        if b.units < self.units { b } else { self }
    }

    /// The greater of the two.
    pub fn max(self, b: Fixed) -> Fixed
        ensures { result ≡ int_max self b }
    {
        if b.units < self.units { self } else { b }
    }

    /// The number, raised to the lower bound and then lowered to the upper one. A bound that isn't given is
    /// passed over.
    pub fn clip(self, lo: Option<Fixed>, hi: Option<Fixed>) -> Fixed
        ensures { result ≡ clip_of self lo hi }
    {
        let raised = match lo {
            Some(lo) => self.max(lo),
            None => self,
        };
        match hi {
            Some(hi) => raised.min(hi),
            None => raised,
        }
    }

    /// The number with the other sign.
    pub fn neg(self) -> Fixed
        ensures { result ≡ neg_ℤ self }
    {
        Fixed { units: -self.units }
    }

    /// The number without its sign.
    pub fn abs(self) -> Fixed
        ensures { result ≡ pos (unsigned_abs self) }
    {
        Fixed {
            units: self.units.abs(),
        }
    }

    /// The number of so many units.
    pub(crate) fn from_magnitude(units: u128) -> Fixed
        requires { units ≤ largest }
        ensures { result ≡ pos units }
    {
        Fixed {
            units: units as i128,
        }
    }
}

/// The number of units that is nearest to the quotient.
fn rounded(units: i128, divisor: i128) -> Fixed
    requires divisor { pos 0 <ℤ divisor }
    requires in_range { InRange units }
    ensures { result ≡ rnd units (unsigned_abs divisor) }
{
    Fixed {
        units: rnd(units, divisor),
    }
}

/// The number of units that is nearest to the quotient by so many ones.
fn by_ones(units: i128, den: u64) -> Fixed
    requires den_above { 1 ≤ den }
    requires den_in { den ≤ 133_590 }
    requires in_range { InRange units }
    ensures { result ≡ rnd units (den * one) }
{
    Fixed {
        units: rnd_by_ones(units, den),
    }
}

/// The units of the product of two numbers with the fraction `num/den`, where they are words and an estimate shows them.
#[inline]
fn estimated_frac(a: i128, b: i128, num: i64, den: u64) -> Option<i128>
    requires num_in { pos 0 ≤ℤ num }
    requires den_above { 1 ≤ den }
    requires den_in { den ≤ 133_590 }
    ensures value { IfSome result (λ units. Some units ≡ mul_frac_of a b num den) }
    ensures in_range { IfSome result InRange }
{
    if !is_word(a) || !is_word(b) {
        return None;
    }
    let (a, b) = (a as i64, b as i64);
    let product = product_of_words(a.unsigned_abs(), b.unsigned_abs(), num as u64)?;
    let nearest = i128::from(estimated_by_ones(product, den)?);
    Some(if (a < 0) == (b < 0) {
        nearest
    } else {
        -nearest
    })
}

/// The product of two words and a count, or None where it may be out of range.
#[inline]
fn product_of_words(a: u64, b: u64, count: u64) -> Option<u128>
    ensures value { IfSome result (λ product. product ≡ a * b * count) }
    ensures in_range { IfSome result (λ product. product ≤ largest) }
{
    let product = u128::from(a) * u128::from(b);
    if product < PAST_95 as u128 && count < PAST_31 as u64 {
        Some(product * u128::from(count))
    } else {
        None
    }
}

/// The product, or None where it is out of range. Words are multiplied as such.
pub(crate) fn product(a: i128, b: i128) -> Option<i128>
    ensures value { result ≡ number_in_range (a *ℤ b) }
    ensures in_range { IfSome result InRange }
{
    if is_word(a) && is_word(b) {
        return Some(small_product(i128::from(a as i64), i128::from(b as i64)));
    }
    if -PAST_95 <= a && a < PAST_95 && -PAST_31 <= b && b < PAST_31 {
        return Some(small_product(a, b));
    }
    in_range(a.checked_mul(b)?)
}

/// The product of two numbers for which it is in range.
#[inline]
fn small_product(a: i128, b: i128) -> i128
    requires { unsigned_abs a * unsigned_abs b ≤ largest }
    ensures value { Some result ≡ number_in_range (a *ℤ b) }
    ensures in_range { InRange result }
{
    a * b
}

/// The product with a count, or None where it is out of range. A short count is multiplied as a word.
#[inline]
fn times(a: i128, count: i64) -> Option<i128>
    requires { pos 0 ≤ℤ count }
    ensures value { result ≡ number_in_range (a *ℤ count) }
    ensures in_range { IfSome result InRange }
{
    let count = i128::from(count);
    if -PAST_95 <= a && a < PAST_95 && count < PAST_31 {
        return Some(a * i128::from(count as u32));
    }
    in_range(a.checked_mul(count)?)
}

/// Whether the number fits into a word of 64 bits.
#[inline]
fn is_word(number: i128) -> bool
    ensures low { IsTrue result → neg_ℤ (pos (2 ^ 63)) ≤ℤ number }
    ensures high { IsTrue result → number <ℤ pos (2 ^ 63) }
{
    i128::from(i64::MIN) <= number && number <= i128::from(i64::MAX)
}

/// The sum, or None where it is out of range.
pub(crate) fn sum(a: i128, b: i128) -> Option<i128>
    ensures value { result ≡ number_in_range (a +ℤ b) }
    ensures in_range { IfSome result InRange }
{
    in_range(a.checked_add(b)?)
}

/// The units, or None where they are out of range.
fn in_range(units: i128) -> Option<i128>
    ensures value { result ≡ number_in_range units }
    ensures in_range { IfSome result InRange }
{
    (units != i128::MIN).then_some(units)
}
