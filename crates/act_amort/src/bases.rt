//! The dates on which the base of interest is fixed.
ghost use Rattle.std.specs.Prelude.{◌≡◌, option_map};
ghost use Rattle.act_kind.specs.Types.{IsAnswer};
ghost use Rattle.act_profile.specs.Built.{CyclesLeadOn};
ghost use Rattle.act_profile.specs.LoanPlan.{base_dates};
ghost use Rattle.act_profile.specs.Planning.{shifting};

use act_kind::{Planned, recurring_before, shifting};
use act_loan::LoanTerms;
use act_model::{EventType, InterestCalculationBase, PlanFault};
use std::alloc::Global;

/// The dates of IPCB, where the base of interest is fixed from time to time.
pub(crate) fn base_fixings(alloc: Global, loan: &LoanTerms) -> Result<Vec<Planned>, PlanFault>
    requires { CyclesLeadOn loan.now }
    ensures { IsAnswer result (option_map (shifting EventType.IPCB) (base_dates loan.now)) }
{
    let Some(redemption) = loan.redemption else {
        return Ok(Vec::new(alloc));
    };
    if redemption.interest_calculation_base != InterestCalculationBase::NTL {
        return Ok(Vec::new(alloc));
    }
    let dates = recurring_before(
        alloc,
        loan.common.end_of_month_convention,
        loan.loan.initial_exchange_date,
        loan.maturity,
        redemption.cycle_anchor_date_of_interest_calculation_base,
        redemption.cycle_of_interest_calculation_base,
    )?;
    shifting(alloc, EventType::IPCB, &dates)
}
