//! When the payment of an annuity is fixed.
ghost use Rattle.std.specs.Prelude.{◌≡◌, ◌≤◌, Some, length, IfOk, IfErr};
ghost use Rattle.std.specs.List.{prefix_len};
ghost use Rattle.act_kind.specs.Types.{IsAnswer};
ghost use Rattle.act_profile.specs.Built.{CyclesLeadOn};
ghost use Rattle.act_profile.specs.Lists.{insert_by};
ghost use Rattle.act_profile.specs.LoanPlan.{fixings_by, is_earlier, with_first_fixing};
ghost use Rattle.act_profile.specs.Planning.{shifting};

use act_date::Day;
use act_kind::{Planned, shifting};
use act_loan::LoanTerms;
use act_model::{ContractType, EventType, PlanFault};
use std::alloc::Global;

/// The dates of PRF: with each reset of an ANN, and where its payment isn't given on its initial exchange.
pub(crate) fn payment_fixings(alloc: Global, loan: &LoanTerms) -> Result<Vec<Planned>, PlanFault>
    requires { CyclesLeadOn loan.now }
    ensures { IsAnswer result (fixings_by loan.now loan.now.type) }
{
    if loan.kind != ContractType::ANN {
        return Ok(Vec::new(alloc));
    }
    match loan.reset_dates(alloc) {
        Ok(resets) => fixings_on(alloc, loan, &resets),
        Err(fault) => Err(fault),
    }
}

/// Fixings with resets on some dates.
fn fixings_on(alloc: Global, loan: &LoanTerms, resets: &[Day]) -> Result<Vec<Planned>, PlanFault>
    ensures { IsAnswer result
        (Some (with_first_fixing loan.now.loan.initial_exchange_date loan.now.payment (shifting EventType.PRF resets.now))) }
{
    let mut fixings = shifting(alloc, EventType::PRF, resets)?;
    if loan.payment.is_none() {
        let first = Planned {
            kind: EventType::PRF,
            date: loan.loan.initial_exchange_date,
            shifts: false,
        };
        insert_by_date(&mut fixings, first)?;
    }
    Ok(fixings)
}

/// Puts a date behind those that are earlier.
fn insert_by_date(dates: &mut Vec<Planned>, date: Planned) -> Result<(), PlanFault>
    ensures inserted { IfOk result (λ _. dates.new.items ≡ insert_by is_earlier date dates.old.items) }
    ensures no_memory { IfErr result (λ fault. fault ≡ PlanFault.NoMemory) }
{
    let place = count_earlier(dates, date);
    Ok(dates.insert(place, date)?)
}

/// How many dates are earlier, from the front on.
fn count_earlier(dates: &[Planned], date: Planned) -> usize
    ensures count { result ≡ prefix_len (λ d. is_earlier d date) dates.now }
    ensures within { result ≤ length dates.now }
{
    dates
        .iter()
        .take_while(|earlier| earlier.date < date.date)
        .count()
}
