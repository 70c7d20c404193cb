//! The scheduled events of a plain swap, and its plan.
ghost use Rattle.std.specs.Prelude.{◌≡◌, ◌≢◌, [], ◌∷◌, Some, Ok, Err, option_map, IfOk, IfErr};
ghost use Rattle.act_kind.specs.Types.{AreTypes, IsAnswer};
ghost use Rattle.act_profile.specs.Built.{PlainSwapLeadsOn};
ghost use Rattle.act_profile.specs.LoanPlan.{resets_on};
ghost use Rattle.act_profile.specs.Order.{in_order};
ghost use Rattle.act_profile.specs.Planning.{shifting, unshifted, unshifted_where_given};
ghost use Rattle.act_profile.specs.Swap.{plain_swap_dates, plain_swap_interest_dates, plain_swap_plan, plain_swap_reset_dates};
ghost use Rattle.act_profile.specs.Trade.{plain_plan};

use crate::plain_swap::PlainSwap;
use act_date::Day;
use act_kind::{
    Planned, events_by_type, put_in_order, recurring_before, recurring_or_end_after, shifting,
    unshifted,
};
use act_loan::resets_on;
use act_model::{Event, EventType, Plan, PlanFault};
use std::alloc::{AllocError, Global};

impl PlainSwap<'_> {
    /// The plan: the scheduled events in order, or the first fault.
    pub(crate) fn plan(&self, alloc: Global) -> Result<Plan, PlanFault>
        requires { PlainSwapLeadsOn self.now.swap }
        ensures { result ≢ Err PlanFault.NoMemory → result ≡ plain_swap_plan self.now.common self.now.swap }
    {
        match self.dates_by_type(alloc) {
            Ok(types) => self.plan_by_types(alloc, &types),
            Err(_) => Err(PlanFault::NoMemory),
        }
    }

    /// The plan by the dates of each type of event.
    fn plan_by_types(
        &self,
        alloc: Global,
        types: &[Result<Vec<Planned>, PlanFault>],
    ) -> Result<Plan, PlanFault>
        requires { AreTypes types.now (plain_swap_dates self.now.common self.now.swap) }
        ensures { result ≢ Err PlanFault.NoMemory → result ≡ plain_swap_plan self.now.common self.now.swap }
    {
        let events = self.events_in_order(alloc, types)?;
        Ok(Plan::new(events, Vec::new(alloc), Vec::new(alloc))?)
    }

    /// The scheduled events in order, or the first fault.
    #[tactic(auto, using(crate::proofs::Plans::plan_of_events, crate::proofs::Plans::no_plan))]
    fn events_in_order(
        &self,
        alloc: Global,
        types: &[Result<Vec<Planned>, PlanFault>],
    ) -> Result<Vec<Event>, PlanFault>
        requires { AreTypes types.now (plain_swap_dates self.now.common self.now.swap) }
        ensures events { IfOk result (λ events. plain_swap_plan self.now.common self.now.swap ≡ Ok (plain_plan events.items)) }
        ensures fault { IfErr result (λ fault. fault ≢ PlanFault.NoMemory →
            plain_swap_plan self.now.common self.now.swap ≡ Err fault) }
    {
        match events_by_type(alloc, self.common, types) {
            Ok(events) => in_order(events),
            Err(fault) => Err(fault),
        }
    }

    /// The dates of each type of event.
    fn dates_by_type(
        &self,
        alloc: Global,
    ) -> Result<Vec<Result<Vec<Planned>, PlanFault>>, AllocError>
        requires { PlainSwapLeadsOn self.now.swap }
        ensures { IfOk result (λ types. AreTypes types.items (plain_swap_dates self.now.common self.now.swap)) }
    {
        Ok(vec![in alloc;
            self.exchanges(alloc),
            self.purchases(alloc),
            self.terminations(alloc),
            self.interest_payments(alloc),
            self.resets(alloc),
            self.maturities(alloc),
        ]?)
    }

    /// The date of IED.
    fn exchanges(&self, alloc: Global) -> Result<Vec<Planned>, PlanFault>
        ensures { IsAnswer result (Some (unshifted EventType.IED self.now.swap.initial_exchange_date)) }
    {
        unshifted(alloc, EventType::IED, Some(self.swap.initial_exchange_date))
    }

    /// The date of PRD, where it is given.
    fn purchases(&self, alloc: Global) -> Result<Vec<Planned>, PlanFault>
        ensures { IsAnswer result (Some (unshifted_where_given EventType.PRD self.now.common.purchase_date)) }
    {
        unshifted(alloc, EventType::PRD, self.common.purchase_date)
    }

    /// The date of TD, where it is given.
    fn terminations(&self, alloc: Global) -> Result<Vec<Planned>, PlanFault>
        ensures { IsAnswer result (Some (unshifted_where_given EventType.TD self.now.common.termination_date)) }
    {
        unshifted(alloc, EventType::TD, self.common.termination_date)
    }

    /// The dates of IP.
    fn interest_payments(&self, alloc: Global) -> Result<Vec<Planned>, PlanFault>
        requires { PlainSwapLeadsOn self.now.swap }
        ensures { IsAnswer result (option_map (shifting EventType.IP) (plain_swap_interest_dates self.now.common self.now.swap)) }
    {
        let dates = self.interest_dates(alloc)?;
        shifting(alloc, EventType::IP, &dates)
    }

    /// The interest dates up to maturity, or maturity alone where they have no anchor.
    fn interest_dates(&self, alloc: Global) -> Result<Vec<Day>, PlanFault>
        requires { PlainSwapLeadsOn self.now.swap }
        ensures { IsAnswer result (plain_swap_interest_dates self.now.common self.now.swap) }
    {
        recurring_or_end_after(
            alloc,
            self.common.end_of_month_convention,
            self.swap.initial_exchange_date,
            self.swap.maturity_date,
            self.swap.cycle_anchor_date_of_interest_payment,
            self.swap.cycle_of_interest_payment,
            None,
        )
    }

    /// The dates of RR, and of RRF where the next rate is given.
    #[tactic(auto, using(act_loan::proofs::Plans::no_resets))]
    fn resets(&self, alloc: Global) -> Result<Vec<Planned>, PlanFault>
        requires { PlainSwapLeadsOn self.now.swap }
        ensures { IsAnswer result
            (option_map (resets_on self.now.common.status_date self.now.swap.rate_reset.next_reset_rate)
            (plain_swap_reset_dates self.now.common self.now.swap)) }
    {
        match self.reset_dates(alloc) {
            Ok(dates) => resets_on(
                alloc,
                self.common.status_date,
                self.swap.rate_reset.next_reset_rate,
                &dates,
            ),
            Err(fault) => Err(fault),
        }
    }

    /// The dates before maturity on which the second rate is reset.
    fn reset_dates(&self, alloc: Global) -> Result<Vec<Day>, PlanFault>
        requires { PlainSwapLeadsOn self.now.swap }
        ensures { IsAnswer result (plain_swap_reset_dates self.now.common self.now.swap) }
    {
        recurring_before(
            alloc,
            self.common.end_of_month_convention,
            self.swap.initial_exchange_date,
            self.swap.maturity_date,
            self.swap.rate_reset.cycle_anchor_date_of_rate_reset,
            self.swap.rate_reset.cycle_of_rate_reset,
        )
    }

    /// The date of MD.
    fn maturities(&self, alloc: Global) -> Result<Vec<Planned>, PlanFault>
        ensures { IsAnswer result (Some (shifting EventType.MD (self.now.swap.maturity_date ∷ []))) }
    {
        shifting(alloc, EventType::MD, &[self.swap.maturity_date])
    }
}

/// The events in order. The one fault is `NoMemory`.
fn in_order(mut events: Vec<Event>) -> Result<Vec<Event>, PlanFault>
    ensures in_order { IfOk result (λ sorted. sorted.items ≡ in_order events.items) }
    ensures no_memory { IfErr result (λ fault. fault ≡ PlanFault.NoMemory) }
{
    put_in_order(&mut events)?;
    Ok(events)
}
