//! Scaling factors.
ghost use Rattle.std.specs.Prelude.{◌≡◌, pos, ◌≤ℤ◌, unsigned_abs, IfSome, Some};
ghost use Rattle.act_num.specs.Factor.{one_plus_of, times_of};
ghost use Rattle.act_num.specs.Number.{InRange};

use crate::Fixed;
use crate::fixed::{product, sum};
use crate::rounding::{estimated_by_factor, rnd, rnd_by_ones};
use std::marker::Model;

/// The units of the factor 1.
const ONE_IN_UNITS: i128 = 1_000_000_000_000;

/// The first number past 63 bits.
const PAST_63: i128 = 1 << 63;

/// How many units of a factor make one unit of a rate.
const UNITS_IN_RATE_UNIT: u64 = 1_000;

/// A scaling factor in whole units of 10^-12, from `-(2^127 - 1)` to `2^127 - 1` of them.
#[derive(Clone, Copy, PartialEq, Eq, PartialOrd, Ord)]
pub struct Factor {
    units: i128,
}

impl Model for Factor {
    ghost use Rattle.std.specs.Prelude.{ℤ};
    ghost use Rattle.act_num.specs.Number.{InRange};

    ghost Value = { ℤ };

    ghost view = { λ f. f.units };

    ghost invariant = { λ f. InRange f.units };

    ghost inverse = { λ z. record { units = z } };
}

impl Factor {
    /// The factor `1 + rate * num/den` of a yearly rate and the fraction `num/den` of a year, rounded once, or
    /// None where the product of the rate's units with `num`, that times 1000, or the sum is out of range.
    pub fn one_plus(rate: Fixed, num: i64, den: i64) -> Option<Factor>
        requires num_in { pos 0 ≤ℤ num }
        requires den_above { pos 1 ≤ℤ den }
        requires den_in { den ≤ℤ pos 133_590 }
        ensures { result ≡ one_plus_of rate num (unsigned_abs den) }
    {
        let product = product(
            product(rate.units(), i128::from(num))?,
            i128::from(UNITS_IN_RATE_UNIT),
        )?;
        let units = sum(ONE_IN_UNITS, rnd(product, i128::from(den)))?;
        Some(Factor { units })
    }

    /// The product, rounded once, or None where the product of the units is out of range.
    pub fn times(self, b: Factor) -> Option<Factor>
        ensures { result ≡ times_of self b }
    {
        match estimated_product(self.units, b.units) {
            Some(units) => Some(Factor {
                units: i128::from(units),
            }),
            None => self.rounded_product(b),
        }
    }

    /// The product, as `times` answers it, worked out by divisions.
    #[inline(never)]
    fn rounded_product(self, b: Factor) -> Option<Factor>
        ensures { result ≡ times_of self b }
    {
        let product = product(self.units, b.units)?;
        let units = rnd_by_ones(product, UNITS_IN_RATE_UNIT);
        Some(Factor { units })
    }

    /// How many units of 10^-12 it has.
    pub fn units(self) -> i128
        ensures value { result ≡ self }
        ensures in_range { InRange result }
    {
        self.units
    }
}

/// The units of the product of two factors from 0 on, as far as they are words and an estimate shows it.
#[inline]
fn estimated_product(a: i128, b: i128) -> Option<u64>
    ensures { IfSome result (λ units. Some (pos units) ≡ times_of a b) }
{
    if 0 <= a && a < PAST_63 && 0 <= b && b < PAST_63 {
        estimated_by_factor(u128::from(a as u64) * u128::from(b as u64))
    } else {
        None
    }
}
