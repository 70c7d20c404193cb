//! The dates of each type of event of a LAM, a NAM or an ANN.
ghost use Rattle.std.specs.Prelude.{◌≡◌, Some, Err, IfOk};
ghost use Rattle.act_kind.specs.Types.{AreTypes, IsAnswer};
ghost use Rattle.act_profile.specs.Built.{CyclesLeadOn};
ghost use Rattle.act_profile.specs.LoanPlan.{loan_dates, redemption_dates};

use crate::bases::base_fixings;
use crate::fixings::payment_fixings;
use crate::interest::interest_payments;
use crate::redemptions::redemption_dates;
use act_date::Day;
use act_kind::{Planned, shifting};
use act_loan::LoanTerms;
use act_model::{EventType, PlanFault};
use std::alloc::{AllocError, Global};

/// The dates of each type of event, as far as redemptions have dates.
pub(crate) fn dates_by_type(
    alloc: Global,
    loan: &LoanTerms,
) -> Result<Vec<Result<Vec<Planned>, PlanFault>>, AllocError>
    requires { CyclesLeadOn loan.now }
    ensures { IfOk result (λ types. AreTypes types.items (loan_dates loan.now)) }
{
    match redemption_dates(alloc, loan) {
        Ok(redemptions) => dates_with(alloc, loan, &redemptions),
        Err(fault) => dates_without(alloc, loan, fault),
    }
}

/// The dates of each type of event, by those of redemption.
fn dates_with(
    alloc: Global,
    loan: &LoanTerms,
    redemptions: &[Day],
) -> Result<Vec<Result<Vec<Planned>, PlanFault>>, AllocError>
    requires redemptions { redemption_dates loan.now ≡ Some redemptions.now }
    requires cycles { CyclesLeadOn loan.now }
    ensures { IfOk result (λ types. AreTypes types.items (loan_dates loan.now)) }
{
    Ok(vec![in alloc;
        loan.exchanges(alloc),
        loan.purchases(alloc),
        loan.terminations(alloc),
        shifting(alloc, EventType::PR, redemptions),
        loan.capitalizations(alloc),
        interest_payments(alloc, loan, redemptions),
        loan.fees(alloc),
        loan.resets(alloc),
        payment_fixings(alloc, loan),
        base_fixings(alloc, loan),
        loan.scalings(alloc),
        loan.maturities(alloc),
    ]?)
}

/// The dates of the types of events up to redemptions, which have none.
fn dates_without(
    alloc: Global,
    loan: &LoanTerms,
    fault: PlanFault,
) -> Result<Vec<Result<Vec<Planned>, PlanFault>>, AllocError>
    requires { IsAnswer (Err fault) (redemption_dates loan.now) }
    ensures { IfOk result (λ types. AreTypes types.items (loan_dates loan.now)) }
{
    Ok(vec![in alloc;
        loan.exchanges(alloc),
        loan.purchases(alloc),
        loan.terminations(alloc),
        Err(fault),
    ]?)
}
