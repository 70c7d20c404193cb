//! Numbers that are drawn one after the other.
ghost use Rattle.std.specs.Prelude.{◌<◌};

use act_date::Day;
use act_num::Fixed;

/// The number of 2020-01-01.
const FIRST_DAY: u32 = 18_262;

/// Numbers that are drawn one after the other.
#[derive(Drop)]
pub struct Draws {
    x: u64,
}

impl Draws {
    /// Those that begin so.
    pub fn of(seed: u32) -> Draws {
        Draws { x: u64::from(seed) }
    }

    /// The next one, below a bound.
    pub fn below(&mut self, bound: u32) -> u32
        requires { 0 < bound }
        ensures { result < bound }
    {
        self.x = self
            .x
            .wrapping_mul(6_364_136_223_846_793_005)
            .wrapping_add(1_442_695_040_888_963_407);
        (self.x >> 33) as u32 % bound
    }

    /// An amount below a millionth.
    pub fn amount(&mut self) -> Option<Fixed> {
        Fixed::from_units(i128::from(self.below(1_000)))
    }

    /// A day of 400.
    pub fn day(&mut self) -> Option<Day> {
        Day::from_number(i64::from(FIRST_DAY + self.below(400)))
    }
}
