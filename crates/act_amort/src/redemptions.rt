//! The dates on which principal is redeemed.
ghost use Rattle.std.specs.Prelude.{◌≡◌};
ghost use Rattle.act_kind.specs.Types.{IsAnswer};
ghost use Rattle.act_profile.specs.Built.{CyclesLeadOn};
ghost use Rattle.act_profile.specs.LoanPlan.{redemption_dates};

use act_date::Day;
use act_kind::recurring_before;
use act_loan::LoanTerms;
use act_model::PlanFault;
use std::alloc::Global;

/// The dates of PR before they are shifted: those before the maturity.
pub(crate) fn redemption_dates(alloc: Global, loan: &LoanTerms) -> Result<Vec<Day>, PlanFault>
    requires { CyclesLeadOn loan.now }
    ensures { IsAnswer result (redemption_dates loan.now) }
{
    let Some(redemption) = loan.redemption else {
        return Ok(Vec::new(alloc));
    };
    recurring_before(
        alloc,
        loan.common.end_of_month_convention,
        loan.loan.initial_exchange_date,
        loan.maturity,
        redemption.cycle_anchor_date_of_principal_redemption,
        redemption.cycle_of_principal_redemption,
    )
}
