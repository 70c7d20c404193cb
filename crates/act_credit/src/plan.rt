//! The plan of a guarantee: its maturity, where it has one.
ghost use Rattle.std.specs.Prelude.{◌≡◌, ◌≢◌, [], ◌∷◌, Ok, Err};
ghost use Rattle.act_profile.specs.Credit.{guarantee_plan, maturity_plan};
ghost use Rattle.act_profile.specs.Trade.{plain_plan};

use act_calendar::shift;
use act_date::Day;
use act_model::{Ceg, Common, Event, EventType, Plan, PlanFault};
use act_option::{event_on, not_before};
use std::alloc::Global;

/// The plan of a guarantee: its maturity, where it has one. `DateRange` says that it is shifted past 2299.
#[tactic(auto, unfolding(act_profile::specs::Credit::guarantee_plan))]
pub(crate) fn guarantee_plan(
    alloc: Global,
    common: &Common,
    guarantee: &Ceg,
) -> Result<Plan, PlanFault>
    ensures { result ≢ Err PlanFault.NoMemory → result ≡ guarantee_plan common.now guarantee.now }
{
    maturity_plan(alloc, common, guarantee.maturity_date)
}

/// The plan with a maturity alone, where there is one: shifted, and not before the maturity.
fn maturity_plan(alloc: Global, common: &Common, maturity: Option<Day>) -> Result<Plan, PlanFault>
    ensures { result ≢ Err PlanFault.NoMemory → result ≡ maturity_plan common.now maturity }
{
    let Some(maturity) = maturity else {
        return plain_plan(alloc, Vec::new(alloc));
    };
    match shift(maturity, common.business_day_convention, common.calendar) {
        Some(shifted) => plan_of_one(
            alloc,
            event_on(EventType::MD, not_before(maturity, shifted)),
        ),
        None => Err(PlanFault::DateRange),
    }
}

/// The plan with one event. The one fault is `NoMemory`.
fn plan_of_one(alloc: Global, event: Event) -> Result<Plan, PlanFault>
    ensures { result ≢ Err PlanFault.NoMemory → result ≡ Ok (plain_plan (event ∷ [])) }
{
    let mut events = Vec::new(alloc);
    events.push(event)?;
    plain_plan(alloc, events)
}

/// The plan with those events, and without redemptions. The one fault is `NoMemory`.
fn plain_plan(alloc: Global, events: Vec<Event>) -> Result<Plan, PlanFault>
    ensures { result ≢ Err PlanFault.NoMemory → result ≡ Ok (plain_plan events.items) }
{
    Ok(Plan::new(events, Vec::new(alloc), Vec::new(alloc))?)
}
