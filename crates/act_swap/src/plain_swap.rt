//! SWPPV: a plain vanilla interest rate swap, a fixed rate against one that is reset.
ghost use Rattle.std.specs.Prelude.{◌≡◌};
ghost use Rattle.act_profile.specs.Formula.{signed};
ghost use Rattle.act_profile.specs.Swap.{plain_swap_part};

use act_date::{Day, Frac, year_frac};
use act_kind::signed;
use act_model::{Common, Swppv};
use act_num::Fixed;
use std::marker::Model;

/// A plain swap: the terms that every contract has, and its own. Contracts see both.
#[derive(Drop)]
pub(crate) struct PlainSwap<'a> {
    /// What every contract has.
    pub common: &'a Common,
    /// The swap's own.
    pub swap: &'a Swppv,
}

impl<'a> Model for PlainSwap<'a> {
    ghost use Rattle.act_swap.specs.PlainSwap.{PlainSwapTerms};

    ghost Value = { PlainSwapTerms };

    ghost view = { λ s. record { common = s.common.now; swap = s.swap.now } };
}

impl<'a> PlainSwap<'a> {
    /// The swap of these terms.
    pub(crate) fn new(common: &'a Common, swap: &'a Swppv) -> PlainSwap<'a>
        ensures { result ≡ record { common = common.now; swap = swap.now } }
    {
        PlainSwap { common, swap }
    }

    /// Y(s, t): the part of a year between two days.
    pub(crate) fn part_of_year(&self, s: Day, t: Day) -> Frac
        ensures { result ≡ plain_swap_part self.now.common self.now.swap s t }
    {
        year_frac(
            self.swap.day_count_convention,
            self.common.calendar,
            s,
            t,
            Some(self.swap.maturity_date),
        )
    }

    /// R*x: the amount by the sign of the contract's role.
    pub(crate) fn own_sign(&self, amount: Fixed) -> Fixed
        ensures { result ≡ signed self.now.common.contract_role amount }
    {
        signed(self.common.contract_role, amount)
    }
}
