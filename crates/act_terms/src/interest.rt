//! The terms of a loan's interest.
ghost use Rattle.std.specs.Prelude.{◌≡◌, IfOk};
ghost use Rattle.act_json.specs.Tree.{object_of};
ghost use Rattle.act_profile.specs.Built.{LeadsOn};
ghost use Rattle.act_terms.specs.Loan.{interest_dates_of, interest_of};

use crate::choices::choice_in;
use crate::fault::TermsFault;
use crate::fields::{optional, optional_cycle, optional_day, optional_decimal};
use act_date::{Cycle, Day, DayCount};
use act_json::Object;
use act_num::Fixed;

/// The rate, what has accrued, the premium, and how parts of a year are counted.
#[derive(Clone, Copy)]
pub(crate) struct Interest {
    pub(crate) nominal_interest_rate: Option<Fixed>,
    pub(crate) accrued_interest: Option<Fixed>,
    pub(crate) premium_discount_at_ied: Fixed,
    pub(crate) day_count_convention: DayCount,
}

/// The dates of interest, and the end of its capitalisation.
#[derive(Clone, Copy)]
pub(crate) struct InterestDates {
    pub(crate) cycle_anchor_date_of_interest_payment: Option<Day>,
    pub(crate) cycle_of_interest_payment: Option<Cycle>,
    pub(crate) capitalization_end_date: Option<Day>,
}

/// The rate, what has accrued, the premium, and how parts of a year are counted.
#[tactic(auto, unfolding(crate::specs::Loan::interest_of))]
pub(crate) fn read_interest(contract: &Object) -> Result<Interest, TermsFault>
    ensures { result ≡ interest_of (object_of contract.now) }
{
    let rate = optional_decimal(contract, "nominalInterestRate")?;
    let accrued = optional_decimal(contract, "accruedInterest")?;
    let premium = optional_decimal(contract, "premiumDiscountAtIED")?;
    let day_count = optional(
        "dayCountConvention",
        choice_in(contract, "dayCountConvention"),
    )?;
    Ok(Interest {
        nominal_interest_rate: rate,
        accrued_interest: accrued,
        premium_discount_at_ied: premium.unwrap_or(Fixed::ZERO),
        day_count_convention: day_count.unwrap_or(DayCount::Aa),
    })
}

/// The dates of interest, and the end of its capitalisation.
#[tactic(auto, unfolding(crate::specs::Loan::interest_dates_of))]
pub(crate) fn read_interest_dates(contract: &Object) -> Result<InterestDates, TermsFault>
    ensures dates { result ≡ interest_dates_of (object_of contract.now) }
    ensures cycle { IfOk result (λ dates. LeadsOn dates.cycle_of_interest_payment) }
{
    Ok(InterestDates {
        cycle_anchor_date_of_interest_payment: optional_day(
            contract,
            "cycleAnchorDateOfInterestPayment",
        )?,
        cycle_of_interest_payment: optional_cycle(contract, "cycleOfInterestPayment")?,
        capitalization_end_date: optional_day(contract, "capitalizationEndDate")?,
    })
}
