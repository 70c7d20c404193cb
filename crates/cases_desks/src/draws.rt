//! Numbers that are drawn one after the other.
ghost use Rattle.std.specs.Prelude.{◌≡◌, ◌<◌, true, IfSome};
ghost use Rattle.act_model.specs.Observed.{is_entry};

use act_date::Day;
use act_model::{Obs, ObsKind};
use act_num::Fixed;

/// The number of 2020-01-02.
const FIRST_DAY: u32 = 18_263;

/// Numbers that are drawn one after the other.
#[derive(Drop)]
pub struct Draws {
    /// What the next one is made of.
    pub seed: u64,
}

impl Draws {
    /// The next one, below a bound.
    pub fn below(&mut self, bound: u32) -> u32
        requires { 0 < bound }
        ensures { result < bound }
    {
        self.seed = self
            .seed
            .wrapping_mul(6_364_136_223_846_793_005)
            .wrapping_add(1_442_695_040_888_963_407);
        (self.seed >> 33) as u32 % bound
    }

    /// A rate of the one code, or rarely a prepayment of the contract of number 1.
    pub fn entry(&mut self) -> Option<Obs>
        ensures { IfSome result (λ entry. is_entry entry ≡ true) }
    {
        let sort = self.below(256);
        let day = Day::from_number(i64::from(FIRST_DAY + self.below(720)))?;
        let value = Fixed::from_units(i128::from(self.below(90_000_000)))?;
        Some(if sort == 0 {
            Obs::Event {
                contract: 1,
                kind: ObsKind::PP,
                day,
                value,
            }
        } else {
            Obs::Rate {
                code: 0,
                day,
                value,
            }
        })
    }
}
