//! The factors by which a rate makes an amount grow in periods.
ghost use Rattle.std.specs.Prelude.{◌≡◌};
ghost use Rattle.act_annuity.specs.Payment.{factor_of};

use act_date::Frac;
use act_num::{Factor, Fixed};
use std::marker::Model;

/// How many factors are kept.
const SLOTS: usize = 4;

/// The factors of periods at a yearly rate. The last ones are kept, each in the slot whose number is its period's
/// numerator modulo 4. Where the numerator counts days, the months of 28 to 31 days are worked out once, and so are
/// quarters of 90 to 92 days and half years of 181 to 184: none of them takes the slot of another.
#[derive(Drop)]
pub(crate) struct Factors {
    rate: Fixed,
    kept: [Option<(Frac, Factor)>; SLOTS],
}

impl Model for Factors {
    ghost use Rattle.std.specs.Prelude.{ℤ};
    ghost use Rattle.act_annuity.specs.Kept.{AreKept};

    ghost Value = { ℤ };

    ghost view = { λ f. f.rate };

    ghost invariant = { λ f. AreKept f.rate f.kept };
}

impl Factors {
    /// Those at the rate, none of which is kept yet.
    pub(crate) fn at(rate: Fixed) -> Factors
        ensures { result ≡ rate }
    {
        Factors {
            rate,
            kept: [None; SLOTS],
        }
    }

    /// The factor of the period, or None where it is undefined.
    pub(crate) fn of(&mut self, period: Frac) -> Option<Factor>
        ensures value { result ≡ factor_of self.old period }
        ensures same { self.new ≡ self.old }
    {
        let slot = period.num as usize % SLOTS;
        if let Some((known, factor)) = self.kept[slot] {
            if known == period {
                return Some(factor);
            }
        }
        let factor = worked_out(self.rate, period)?;
        self.kept[slot] = Some((period, factor));
        Some(factor)
    }
}

/// The factor of the period at the rate, or None where it is undefined.
#[inline(never)]
fn worked_out(rate: Fixed, period: Frac) -> Option<Factor>
    ensures { result ≡ factor_of rate period }
{
    Factor::one_plus(rate, period.num, period.den)
}
