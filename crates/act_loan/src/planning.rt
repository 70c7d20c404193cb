//! The scheduled events of a loan, and its plan.
ghost use Rattle.std.specs.Prelude.{◌≡◌, ◌≢◌, [], ◌∷◌, ◌++◌, ◌==◌, map, Ok, Err, Some, option_map, IfOk, IfErr, IsTrue};
ghost use Rattle.std.specs.List.{enumerate_from};
ghost use Rattle.act_kind.specs.Types.{AreTypes, IsAnswer};
ghost use Rattle.act_profile.specs.Built.{CyclesLeadOn};
ghost use Rattle.act_loan.specs.Kinds.{pays_interest_alone};
ghost use Rattle.act_loan.specs.Resets.{reset_on};
ghost use Rattle.act_profile.specs.Dates.{after};
ghost use Rattle.act_profile.specs.LoanPlan.{annuity_days, calculation_days, capitalization_dates, fee_dates, interest_dates_until, interest_payment_dates, loan_dates, loan_plan, parts_between, parts_from, reset_dates, resets_on, scaling_dates, with_first_given, with_redemptions};
ghost use Rattle.act_profile.specs.Order.{in_order, is_type};
ghost use Rattle.act_profile.specs.Planning.{shifting, unshifted, unshifted_where_given};

use crate::annuity::place_after;
use crate::terms::LoanTerms;
use act_date::{Day, Frac};
use act_kind::{
    Planned, events_by_type, put_in_order, recurring, recurring_before, recurring_or_end_after,
    shifting, unshifted,
};
use act_model::{ContractType, Event, EventType, Plan, PlanFault};
use act_num::Fixed;
use std::alloc::{AllocError, Global};

impl LoanTerms<'_> {
    /// The plan by the dates of each type of event, in the order of the types: the scheduled events in order, and of an
    /// annuity the days that redemptions and the maturity go by, with the parts of a year between them; or the first
    /// fault.
    pub fn plan_by_types(
        &self,
        alloc: Global,
        types: &[Result<Vec<Planned>, PlanFault>],
    ) -> Result<Plan, PlanFault>
        requires { AreTypes types.now (loan_dates self.now) }
        ensures { result ≢ Err PlanFault.NoMemory → result ≡ loan_plan self.now }
    {
        let events = self.events_in_order(alloc, types)?;
        let redemptions = self.annuity_days(alloc, &events)?;
        let periods = self.parts_between(alloc, &redemptions)?;
        Ok(Plan::new(events, redemptions, periods)?)
    }

    /// The scheduled events in order, or the first fault.
    #[tactic(auto, using(crate::proofs::Plans::plan_of_events, crate::proofs::Plans::no_plan))]
    fn events_in_order(
        &self,
        alloc: Global,
        types: &[Result<Vec<Planned>, PlanFault>],
    ) -> Result<Vec<Event>, PlanFault>
        requires { AreTypes types.now (loan_dates self.now) }
        ensures events { IfOk result (λ events. loan_plan self.now ≡ Ok (with_redemptions self.now events.items)) }
        ensures fault { IfErr result (λ fault. fault ≢ PlanFault.NoMemory → loan_plan self.now ≡ Err fault) }
    {
        match events_by_type(alloc, self.common, types) {
            Ok(events) => in_order(events),
            Err(fault) => Err(fault),
        }
    }

    /// The days that an annuity's redemptions and then its maturity go by.
    fn annuity_days(&self, alloc: Global, events: &[Event]) -> Result<Vec<Day>, PlanFault>
        ensures days { IfOk result (λ days. days.items ≡ annuity_days self.now.type events.now) }
        ensures no_memory { IfErr result (λ fault. fault ≡ PlanFault.NoMemory) }
    {
        if self.kind != ContractType::ANN {
            return Ok(Vec::new(alloc));
        }
        Ok(redemption_days_and_end(alloc, events)?)
    }

    /// The parts of a year between successive days.
    fn parts_between(&self, alloc: Global, days: &[Day]) -> Result<Vec<Frac>, PlanFault>
        ensures parts { IfOk result (λ parts. parts.items ≡ parts_between self.now days.now) }
        ensures no_memory { IfErr result (λ fault. fault ≡ PlanFault.NoMemory) }
    {
        match days {
            [first, later @ ..] => self.parts_from(alloc, *first, later),
            [] => Ok(Vec::new(alloc)),
        }
    }

    /// The parts of a year from a day to the first of some days, and between these.
    fn parts_from(&self, alloc: Global, first: Day, later: &[Day]) -> Result<Vec<Frac>, PlanFault>
        ensures parts { IfOk result (λ parts. parts.items ≡ parts_from self.now first later.now) }
        ensures no_memory { IfErr result (λ fault. fault ≡ PlanFault.NoMemory) }
    {
        let mut parts = Vec::new(alloc);
        let mut previous = first;
        'days: for day in later {
            parts.push(self.part_of_year(previous, *day))?;
            previous = *day;
        }
        Ok(parts)
    }

    /// The date of IED.
    pub fn exchanges(&self, alloc: Global) -> Result<Vec<Planned>, PlanFault>
        ensures { IsAnswer result (Some (unshifted EventType.IED self.now.loan.initial_exchange_date)) }
    {
        unshifted(alloc, EventType::IED, Some(self.loan.initial_exchange_date))
    }

    /// The date of PRD, where it is given.
    pub fn purchases(&self, alloc: Global) -> Result<Vec<Planned>, PlanFault>
        ensures { IsAnswer result (Some (unshifted_where_given EventType.PRD self.now.common.purchase_date)) }
    {
        unshifted(alloc, EventType::PRD, self.common.purchase_date)
    }

    /// The date of TD, where it is given.
    pub fn terminations(&self, alloc: Global) -> Result<Vec<Planned>, PlanFault>
        ensures { IsAnswer result (Some (unshifted_where_given EventType.TD self.now.common.termination_date)) }
    {
        unshifted(alloc, EventType::TD, self.common.termination_date)
    }

    /// The date of MD.
    pub fn maturities(&self, alloc: Global) -> Result<Vec<Planned>, PlanFault>
        ensures { IsAnswer result (Some (shifting EventType.MD (self.now.maturity ∷ []))) }
    {
        shifting(alloc, EventType::MD, &[self.maturity])
    }

    /// The dates of IPCI.
    pub fn capitalizations(&self, alloc: Global) -> Result<Vec<Planned>, PlanFault>
        requires { CyclesLeadOn self.now }
        ensures { IsAnswer result (option_map (shifting EventType.IPCI) (capitalization_dates self.now)) }
    {
        let (Some(_), Some(end)) = (
            self.loan.nominal_interest_rate,
            self.loan.capitalization_end_date,
        ) else {
            return Ok(Vec::new(alloc));
        };
        let dates = self.interest_dates(alloc, end, None)?;
        shifting(alloc, EventType::IPCI, &dates)
    }

    /// The dates of IP of a loan that doesn't pay interest on its redemption dates besides.
    pub fn interest_payments(&self, alloc: Global) -> Result<Vec<Planned>, PlanFault>
        requires cycles { CyclesLeadOn self.now }
        requires alone { IsTrue (pays_interest_alone self.now.type) }
        ensures { IsAnswer result (option_map (shifting EventType.IP) (interest_payment_dates self.now)) }
    {
        if self.loan.nominal_interest_rate.is_none() {
            return Ok(Vec::new(alloc));
        }
        let dates = self.interest_dates(alloc, self.maturity, self.loan.capitalization_end_date)?;
        shifting(alloc, EventType::IP, &dates)
    }

    /// The interest dates up to a day, or that day alone where they have no anchor; of these the dates after a day,
    /// where one is given.
    pub fn interest_dates(
        &self,
        alloc: Global,
        end: Day,
        day: Option<Day>,
    ) -> Result<Vec<Day>, PlanFault>
        requires { CyclesLeadOn self.now }
        ensures { IsAnswer result (option_map (after day) (interest_dates_until self.now end)) }
    {
        recurring_or_end_after(
            alloc,
            self.common.end_of_month_convention,
            self.loan.initial_exchange_date,
            end,
            self.loan.cycle_anchor_date_of_interest_payment,
            self.loan.cycle_of_interest_payment,
            day,
        )
    }

    /// The dates of FP, where there is a fee other than 0.
    pub fn fees(&self, alloc: Global) -> Result<Vec<Planned>, PlanFault>
        requires { CyclesLeadOn self.now }
        ensures { IsAnswer result (option_map (shifting EventType.FP) (fee_dates self.now)) }
    {
        let fee = &self.loan.fee;
        if fee.fee_rate.is_none_or(|rate| rate == Fixed::ZERO) {
            return Ok(Vec::new(alloc));
        }
        let dates = recurring(
            alloc,
            self.common.end_of_month_convention,
            self.loan.initial_exchange_date,
            self.maturity,
            fee.cycle_anchor_date_of_fee,
            fee.cycle_of_fee,
        )?;
        shifting(alloc, EventType::FP, &dates)
    }

    /// The dates of RR, and of RRF where the next rate is given.
    #[tactic(auto, using(crate::proofs::Plans::no_resets))]
    pub fn resets(&self, alloc: Global) -> Result<Vec<Planned>, PlanFault>
        requires { CyclesLeadOn self.now }
        ensures { IsAnswer result
            (option_map (resets_on self.now.common.status_date self.now.loan.rate_reset.next_reset_rate) (reset_dates self.now)) }
    {
        match self.reset_dates(alloc) {
            Ok(dates) => resets_on(
                alloc,
                self.common.status_date,
                self.loan.rate_reset.next_reset_rate,
                &dates,
            ),
            Err(fault) => Err(fault),
        }
    }

    /// The dates before T on which the rate is reset.
    pub fn reset_dates(&self, alloc: Global) -> Result<Vec<Day>, PlanFault>
        requires { CyclesLeadOn self.now }
        ensures { IsAnswer result (reset_dates self.now) }
    {
        recurring_before(
            alloc,
            self.common.end_of_month_convention,
            self.loan.initial_exchange_date,
            self.maturity,
            self.loan.rate_reset.cycle_anchor_date_of_rate_reset,
            self.loan.rate_reset.cycle_of_rate_reset,
        )
    }

    /// The dates of SC, where something is scaled.
    pub fn scalings(&self, alloc: Global) -> Result<Vec<Planned>, PlanFault>
        requires { CyclesLeadOn self.now }
        ensures { IsAnswer result (option_map (shifting EventType.SC) (scaling_dates self.now)) }
    {
        let scaling = &self.loan.scaling;
        if !(scaling.scaling_effect.interest || scaling.scaling_effect.notional) {
            return Ok(Vec::new(alloc));
        }
        let dates = recurring_before(
            alloc,
            self.common.end_of_month_convention,
            self.loan.initial_exchange_date,
            self.maturity,
            scaling.cycle_anchor_date_of_scaling_index,
            scaling.cycle_of_scaling_index,
        )?;
        shifting(alloc, EventType::SC, &dates)
    }
}

/// Resets on some dates: RR, and where the next rate is given RRF in place of the first after the status date. The one
/// fault is `NoMemory`.
pub fn resets_on(
    alloc: Global,
    status_date: Day,
    next_rate: Option<Fixed>,
    dates: &[Day],
) -> Result<Vec<Planned>, PlanFault>
    ensures { IsAnswer result (Some (resets_on status_date next_rate dates.now)) }
{
    match next_rate {
        Some(_) => with_first_given(alloc, status_date, dates),
        None => shifting(alloc, EventType::RR, dates),
    }
}

/// Resets of which the first after the status date is to the given rate.
#[tactic(auto, using(crate::proofs::Plans::first_given))]
fn with_first_given(
    alloc: Global,
    status_date: Day,
    dates: &[Day],
) -> Result<Vec<Planned>, PlanFault>
    ensures { IsAnswer result (Some (with_first_given status_date dates.now)) }
{
    let given = place_after(dates, status_date);
    Ok(with_given(alloc, dates, given)?)
}

/// Resets of which the one at a place is to the given rate.
fn with_given(alloc: Global, dates: &[Day], given: usize) -> Result<Vec<Planned>, AllocError>
    ensures { IfOk result (λ resets. resets.items ≡ map (λ p. reset_on (p.0 == given) p.1) (enumerate_from 0 dates.now)) }
{
    dates
        .iter()
        .enumerate()
        .map(|(place, date)| reset_on(place == given, *date))
        .collect(alloc)
}

/// A reset, to the given rate or to the observed one.
fn reset_on(is_given: bool, date: Day) -> Planned
    ensures { result ≡ reset_on is_given date }
{
    Planned {
        kind: if is_given {
            EventType::RRF
        } else {
            EventType::RR
        },
        date,
        shifts: true,
    }
}

/// The days that redemptions and then maturity go by.
fn redemption_days_and_end(alloc: Global, events: &[Event]) -> Result<Vec<Day>, AllocError>
    ensures { IfOk result (λ days. days.items ≡ annuity_days ContractType.ANN events.now) }
{
    let mut days = Vec::new(alloc);
    push_days(&mut days, events, EventType::PR)?;
    push_days(&mut days, events, EventType::MD)?;
    Ok(days)
}

/// Adds the days that the events of a type go by at the end.
fn push_days(days: &mut Vec<Day>, events: &[Event], kind: EventType) -> Result<(), AllocError>
    ensures { IfOk result (λ _. days.new.items ≡ days.old.items ++ calculation_days (λ e. is_type e.kind kind) events.now) }
{
    for event in events {
        if event.kind == kind {
            days.push(event.calc)?;
        }
    }
    Ok(())
}

/// The events in order.
fn in_order(mut events: Vec<Event>) -> Result<Vec<Event>, PlanFault>
    ensures in_order { IfOk result (λ sorted. sorted.items ≡ in_order events.items) }
    ensures no_memory { IfErr result (λ fault. fault ≡ PlanFault.NoMemory) }
{
    put_in_order(&mut events)?;
    Ok(events)
}
