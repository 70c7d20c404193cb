//! The terms of a loan, whatever its kind.
ghost use Rattle.std.specs.Prelude.{◌≡◌, Some};
ghost use Rattle.act_model.specs.declared.terms.Kind.TheVariants as kinds;
ghost use Rattle.act_profile.specs.LoanTerms.{interest_calculation_base_of, loan_terms_of, own_sign, part_of_year};
ghost use Rattle.act_profile.specs.Loan.{own_opposite};

use act_date::{Day, Frac, year_frac};
use act_kind::{opposite, signed};
use act_model::{Common, ContractType, InterestCalculationBase, Loan, Pam, Redemption};
use act_num::Fixed;
use std::marker::Model;

/// The terms of a loan of the kinds PAM, LAM, NAM and ANN. They are borrowed, so that making them for each step costs
/// nothing. Contracts see the terms themselves.
#[derive(Drop)]
pub struct LoanTerms<'a> {
    /// Its kind.
    pub kind: ContractType,
    /// What every contract has.
    pub common: &'a Common,
    /// What all loans have.
    pub loan: &'a Loan,
    /// The terms of redemption, which a PAM hasn't.
    pub redemption: Option<&'a Redemption>,
    /// The given amount of each redemption, in units of 10^-9.
    pub payment: Option<Fixed>,
    /// The maturity T, given or derived.
    pub maturity: Day,
}

impl<'a> Model for LoanTerms<'a> {
    ghost use Rattle.std.specs.Prelude.{option_map};
    ghost use Rattle.act_profile.specs.LoanTerms.{LoanTerms};

    ghost Value = { LoanTerms };

    ghost view = { λ l. record { type = l.kind; common = l.common.now; loan = l.loan.now; redemption = option_map (λ r. r.now) l.redemption; payment = l.payment; maturity = l.maturity } };
}

impl<'a> LoanTerms<'a> {
    /// The terms of a PAM, which redeems nothing before its maturity.
    pub fn of_pam(common: &'a Common, pam: &'a Pam) -> LoanTerms<'a>
        ensures { loan_terms_of common.now (kinds.PAM pam.now) ≡ Some result }
    {
        LoanTerms {
            kind: ContractType::PAM,
            common,
            loan: &pam.loan,
            redemption: None,
            payment: None,
            maturity: pam.maturity_date,
        }
    }

    /// Y(s, t): the part of a year between two days.
    pub(crate) fn part_of_year(&self, s: Day, t: Day) -> Frac
        ensures { result ≡ part_of_year self.now s t }
    {
        year_frac(
            self.loan.day_count_convention,
            self.common.calendar,
            s,
            t,
            Some(self.maturity),
        )
    }

    /// R*x: the amount by the sign of the contract's role.
    pub(crate) fn own_sign(&self, amount: Fixed) -> Fixed
        ensures { result ≡ own_sign self.now amount }
    {
        signed(self.common.contract_role, amount)
    }

    /// -R*x: the opposite.
    pub(crate) fn own_opposite(&self, amount: Fixed) -> Fixed
        ensures { result ≡ own_opposite self.now amount }
    {
        opposite(self.common.contract_role, amount)
    }

    /// What interest is computed on: of a PAM the notional.
    pub(crate) fn interest_calculation_base(&self) -> InterestCalculationBase
        ensures { result ≡ interest_calculation_base_of self.now }
    {
        match self.redemption {
            Some(redemption) => redemption.interest_calculation_base,
            None => InterestCalculationBase::NT,
        }
    }
}
