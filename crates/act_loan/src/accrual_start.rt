//! The day from which the interest of a started loan has accrued. Finding it takes no memory.
ghost use Rattle.std.specs.Prelude.{◌≡◌, [], ◌∷◌, ◌++◌, ◌≤◌, length, option_and_then, option_map, IfSome};
ghost use Rattle.act_loan.specs.RedemptionDates.{all_redemption_dates};
ghost use Rattle.act_profile.specs.Built.{CyclesLeadOn};
ghost use Rattle.act_profile.specs.Dates.{latest_until, recurring, recurring_before};
ghost use Rattle.act_profile.specs.Loan.{accrues_from};
ghost use Rattle.act_profile.specs.LoanPlan.{capitalization_dates, interest_dates_until, interest_payment_dates, redemption_dates, with_redemption_dates};
ghost use Rattle.act_sched.specs.Schedule.{LeadsOn, dates_of, latest_in};

use crate::terms::LoanTerms;
use act_date::Day;
use act_kind::{recurrence, recurrence_or_end};
use act_model::{ContractType, Redemption};
use act_sched::Schedule;

impl LoanTerms<'_> {
    /// The day from which a started loan's interest has accrued: the latest of the initial exchange and the interest
    /// dates, before they are moved, that isn't after the status date.
    pub(crate) fn accrues_from(&self) -> Option<Day>
        requires { CyclesLeadOn self.now }
        ensures { result ≡ accrues_from self.now }
    {
        let paid = self.latest_payment(self.loan.initial_exchange_date)?;
        self.latest_capitalization(paid)
    }

    /// The latest of a first day and the dates of IP that aren't after the status date.
    fn latest_payment(&self, first: Day) -> Option<Day>
        requires { CyclesLeadOn self.now }
        ensures { result
            ≡ option_map (latest_until self.now.common.status_date first) (interest_payment_dates self.now) }
    {
        match self.loan.nominal_interest_rate {
            Some(_) => self.latest_interest_date(first),
            None => Some(first),
        }
    }

    /// The latest of a first day and the dates up to T, but for the capitalized ones, that aren't after the status
    /// date.
    fn latest_interest_date(&self, first: Day) -> Option<Day>
        requires { CyclesLeadOn self.now }
        ensures { result
            ≡ option_map (latest_in self.now.common.status_date self.now.loan.capitalization_end_date first)
            (option_and_then (with_redemption_dates self.now self.now.type) (interest_dates_until self.now self.now.maturity)) }
    {
        let latest = self.latest_paid(self.interest_schedule(self.maturity)?, first);
        match self.kind {
            ContractType::NAM | ContractType::ANN => self.latest_redemption_or_end(latest),
            _ => Some(latest),
        }
    }

    /// The latest of a first day and those dates of redemption and T on which interest is paid, and that aren't after
    /// the status date.
    #[tactic(auto, using(crate::proofs::Latest::with_end))]
    fn latest_redemption_or_end(&self, first: Day) -> Option<Day>
        requires { CyclesLeadOn self.now }
        ensures { result
            ≡ option_map (λ dates. latest_in self.now.common.status_date self.now.loan.capitalization_end_date first (dates ++ self.now.maturity ∷ []))
            (redemption_dates self.now) }
    {
        let latest = self.latest_redemption(first)?;
        Some(self.latest_paid(Schedule::of_day(self.maturity), latest))
    }

    /// The latest of a first day and the dates of redemption, maybe with T, on which interest is paid, and that aren't
    /// after the status date.
    fn latest_redemption(&self, first: Day) -> Option<Day>
        requires { CyclesLeadOn self.now }
        ensures { result
            ≡ option_map (latest_in self.now.common.status_date self.now.loan.capitalization_end_date first)
            (all_redemption_dates self.now) }
    {
        let Some(redemption) = self.redemption else {
            return Some(first);
        };
        let dates = self.redemption_schedule(redemption, self.maturity)?;
        Some(self.latest_paid(dates, first))
    }

    /// The latest of a first day and those dates of a schedule on which interest is paid, and that aren't after the
    /// status date.
    fn latest_paid(&self, dates: Schedule, first: Day) -> Day
        requires { LeadsOn dates.cycle }
        ensures { result
            ≡ latest_in self.now.common.status_date self.now.loan.capitalization_end_date first (dates_of dates) }
    {
        let capitalized_until = self.loan.capitalization_end_date;
        dates.latest(capitalized_until, self.common.status_date, first)
    }

    /// The latest of a first day and the dates of IPCI that aren't after the status date.
    fn latest_capitalization(&self, first: Day) -> Option<Day>
        requires { CyclesLeadOn self.now }
        ensures { result
            ≡ option_map (latest_until self.now.common.status_date first) (capitalization_dates self.now) }
    {
        match (
            self.loan.nominal_interest_rate,
            self.loan.capitalization_end_date,
        ) {
            (Some(_), Some(end)) => {
                let dates = self.interest_schedule(end)?;
                Some(dates.latest(None, self.common.status_date, first))
            }
            _ => Some(first),
        }
    }

    /// The dates of interest up to a day, or that day alone where they have no anchor (this profile's own).
    fn interest_schedule(&self, end: Day) -> Option<Schedule>
        requires { CyclesLeadOn self.now }
        ensures dates { option_map dates_of result ≡ interest_dates_until self.now end }
        ensures leads_on { IfSome result (λ schedule. LeadsOn schedule.cycle) }
    {
        recurrence_or_end(
            self.common.end_of_month_convention,
            self.loan.initial_exchange_date,
            end,
            self.loan.cycle_anchor_date_of_interest_payment,
            self.loan.cycle_of_interest_payment,
        )
    }

    /// How many dates of redemption there are before a day.
    pub(crate) fn redemptions_before(&self, redemption: &Redemption, end: Day) -> Option<u32>
        requires { LeadsOn redemption.now.cycle_of_principal_redemption }
        ensures count { result
            ≡ option_map length (recurring_before self.now.common.end_of_month_convention self.now.loan.initial_exchange_date end redemption.now.cycle_anchor_date_of_principal_redemption redemption.now.cycle_of_principal_redemption) }
        ensures few { IfSome result (λ count. count ≤ 146_096) }
    {
        let dates = self.redemption_schedule(redemption, end)?;
        Some(dates.count_before_end())
    }

    /// The dates of redemption up to a day, with it.
    fn redemption_schedule(&self, redemption: &Redemption, end: Day) -> Option<Schedule>
        requires { LeadsOn redemption.now.cycle_of_principal_redemption }
        ensures dates { option_map dates_of result
            ≡ recurring self.now.common.end_of_month_convention self.now.loan.initial_exchange_date end redemption.now.cycle_anchor_date_of_principal_redemption redemption.now.cycle_of_principal_redemption }
        ensures leads_on { IfSome result (λ schedule. LeadsOn schedule.cycle) }
        ensures end { IfSome result (λ schedule. schedule.end ≡ end) }
    {
        recurrence(
            self.common.end_of_month_convention,
            self.loan.initial_exchange_date,
            end,
            redemption.cycle_anchor_date_of_principal_redemption,
            redemption.cycle_of_principal_redemption,
        )
    }
}
