//! FXOUT: a foreign exchange outright, an amount in one currency against one in another.
ghost use Rattle.std.specs.Prelude.{◌≡◌, ◌≢◌, Some, Ok, Err, IfOk, IfErr};
ghost use Rattle.act_equity.specs.Outright.{outright_dates};
ghost use Rattle.act_kind.specs.Payment.{payment_of};
ghost use Rattle.act_kind.specs.Types.{AreTypes, IsAnswer, IsCounted};
ghost use Rattle.act_model.specs.declared.state.State as variables;
ghost use Rattle.act_profile.specs.Equity.{difference, exchange_dates, exchanged_amount, exchanged_currency, outright_currency, outright_plan, settled_difference};
ghost use Rattle.act_profile.specs.Order.{in_order};
ghost use Rattle.act_profile.specs.Planning.{unshifted_where_given};
ghost use Rattle.act_profile.specs.Step.{amount_of};
ghost use Rattle.act_profile.specs.Trade.{plain_plan};

use act_kind::{
    Payment, Planned, Table, events_by_type, opposite, pass, put_in_order, shifting, signed,
    trade_payoff, unshifted,
};
use act_model::{
    Common, DeliverySettlement, Event, EventType, Fxout, Plan, PlanFault, Source, State,
};
use act_num::Fixed;
use std::alloc::{AllocError, Global};
use std::marker::Model;

/// A foreign exchange outright: the terms that every contract has, and its own. Contracts see both.
#[derive(Drop)]
pub(crate) struct Outright<'a> {
    common: &'a Common,
    fxout: &'a Fxout,
}

impl<'a> Model for Outright<'a> {
    ghost use Rattle.act_equity.specs.Outright.{OutrightTerms};

    ghost Value = { OutrightTerms };

    ghost view = { λ o. record { common = o.common.now; fxout = o.fxout.now } };
}

impl<'a> Outright<'a> {
    /// The outright of these terms.
    pub(crate) fn new(common: &'a Common, fxout: &'a Fxout) -> Outright<'a>
        ensures { result ≡ record { common = common.now; fxout = fxout.now } }
    {
        Outright { common, fxout }
    }

    /// The plan: the scheduled events in order. `DateRange` says that the maturity is shifted past 2299.
    pub(crate) fn plan(&self, alloc: Global) -> Result<Plan, PlanFault>
        ensures { result ≢ Err PlanFault.NoMemory → result ≡ outright_plan self.now.common self.now.fxout }
    {
        match self.dates_by_type(alloc) {
            Ok(types) => self.plan_by_types(alloc, &types),
            Err(_) => Err(PlanFault::NoMemory),
        }
    }

    /// The plan by the dates of each type of event.
    fn plan_by_types(
        &self,
        alloc: Global,
        types: &[Result<Vec<Planned>, PlanFault>],
    ) -> Result<Plan, PlanFault>
        requires types { AreTypes types.now (outright_dates self.now.common self.now.fxout) }
        requires counted { IsCounted types.now (outright_dates self.now.common self.now.fxout) }
        ensures { result ≢ Err PlanFault.NoMemory → result ≡ outright_plan self.now.common self.now.fxout }
    {
        let events = self.events_in_order(alloc, types)?;
        Ok(Plan::new(events, Vec::new(alloc), Vec::new(alloc))?)
    }

    /// The scheduled events in order, or the fault.
    #[tactic(auto, using(crate::proofs::Outrights::plan_of_events, crate::proofs::Outrights::no_plan))]
    fn events_in_order(
        &self,
        alloc: Global,
        types: &[Result<Vec<Planned>, PlanFault>],
    ) -> Result<Vec<Event>, PlanFault>
        requires types { AreTypes types.now (outright_dates self.now.common self.now.fxout) }
        requires counted { IsCounted types.now (outright_dates self.now.common self.now.fxout) }
        ensures events { IfOk result (λ events. outright_plan self.now.common self.now.fxout ≡ Ok (plain_plan events.items)) }
        ensures fault { IfErr result (λ fault. fault ≢ PlanFault.NoMemory →
            outright_plan self.now.common self.now.fxout ≡ Err fault) }
    {
        match events_by_type(alloc, self.common, types) {
            Ok(events) => in_order(events),
            Err(fault) => Err(fault),
        }
    }

    /// The dates of each type of event.
    fn dates_by_type(
        &self,
        alloc: Global,
    ) -> Result<Vec<Result<Vec<Planned>, PlanFault>>, AllocError>
        ensures types { IfOk result (λ types. AreTypes types.items (outright_dates self.now.common self.now.fxout)) }
        ensures counted { IfOk result (λ types. IsCounted types.items (outright_dates self.now.common self.now.fxout)) }
    {
        Ok(vec![in alloc;
            self.purchases(alloc),
            self.terminations(alloc),
            self.exchanges(alloc),
        ]?)
    }

    /// The date of PRD, where it is given. The one fault is `NoMemory`.
    fn purchases(&self, alloc: Global) -> Result<Vec<Planned>, PlanFault>
        ensures answer { IsAnswer result (Some (unshifted_where_given EventType.PRD self.now.common.purchase_date)) }
        ensures no_memory { IfErr result (λ fault. fault ≡ PlanFault.NoMemory) }
    {
        unshifted(alloc, EventType::PRD, self.common.purchase_date)
    }

    /// The date of TD, where it is given. The one fault is `NoMemory`.
    fn terminations(&self, alloc: Global) -> Result<Vec<Planned>, PlanFault>
        ensures answer { IsAnswer result (Some (unshifted_where_given EventType.TD self.now.common.termination_date)) }
        ensures no_memory { IfErr result (λ fault. fault ≡ PlanFault.NoMemory) }
    {
        unshifted(alloc, EventType::TD, self.common.termination_date)
    }

    /// The dates of both MD, where the amounts are delivered, or else that of STD. The one fault is `NoMemory`.
    fn exchanges(&self, alloc: Global) -> Result<Vec<Planned>, PlanFault>
        ensures answer { IsAnswer result
            (Some (exchange_dates self.now.fxout.maturity_date self.now.fxout.delivery_settlement)) }
        ensures no_memory { IfErr result (λ fault. fault ≡ PlanFault.NoMemory) }
    {
        let maturity = self.fxout.maturity_date;
        match self.fxout.delivery_settlement {
            DeliverySettlement::D => shifting(alloc, EventType::MD, &[maturity, maturity]),
            DeliverySettlement::S => shifting(alloc, EventType::STD, &[maturity]),
        }
    }

    /// What an MD pays: the first the amount in the contract's currency, the second the other one, with the other sign.
    fn exchanged_amount(&self, source: Source) -> Fixed
        ensures { result ≡ exchanged_amount self.now.common self.now.fxout source }
    {
        match source {
            Source::Scheduled(0) => {
                signed(self.common.contract_role, self.fxout.notional_principal)
            }
            _ => opposite(self.common.contract_role, self.fxout.notional_principal2),
        }
    }

    /// What STD pays by: the code of the two currencies. Where that isn't given it is an amount that is undefined.
    fn settlement_payment(&self) -> Payment
        ensures { result ≡ payment_of (settled_difference self.now.common self.now.fxout self.now.fxout.pair) }
    {
        match self.fxout.pair {
            Some(pair) => Payment::AmountBy(pair),
            None => Payment::Amount,
        }
    }

    /// What STD pays by the rate of the two currencies, or None where that is undefined or there is no code of them.
    fn settled_difference(&self, rate: Option<Fixed>) -> Option<Fixed>
        ensures { (state : variables.State) →
            result ≡ amount_of (settled_difference self.now.common self.now.fxout self.now.fxout.pair) rate state }
    {
        match (self.fxout.pair, rate) {
            (Some(_), Some(rate)) => self.difference(rate),
            _ => None,
        }
    }

    /// The amount less the other one at a rate, by the sign of the role; None where that is out of range.
    fn difference(&self, rate: Fixed) -> Option<Fixed>
        ensures { result ≡ difference self.now.common self.now.fxout rate }
    {
        let other = rate.mul(self.fxout.notional_principal2)?;
        let difference = self.fxout.notional_principal.sub(other)?;
        Some(signed(self.common.contract_role, difference))
    }

    /// The currency of an event's payoff, by its number.
    pub(crate) fn currency_of(&self, event: &Event) -> u32
        ensures { result ≡ outright_currency self.now.common self.now.fxout event.now event.now.kind }
    {
        match event.kind {
            EventType::MD => self.exchanged_currency(event.source),
            _ => self.common.currency,
        }
    }

    /// The currency of an MD: of the second the other one.
    fn exchanged_currency(&self, source: Source) -> u32
        ensures { result ≡ exchanged_currency self.now.common self.now.fxout source }
    {
        match source {
            Source::Scheduled(0) => self.common.currency,
            _ => self.fxout.currency2,
        }
    }
}

impl Table for Outright<'_> {
    ghost use Rattle.act_profile.specs.Equity.{outright_line};
    ghost use Rattle.act_profile.specs.Trade.{passed};

    ghost line = { λ o event. outright_line o.common o.fxout event event.kind };

    ghost accrual = { λ o event state. passed event.kind event.calc state };

    fn payment(&self, event: &Event) -> Payment {
        match event.kind {
            EventType::MD | EventType::PRD | EventType::TD => Payment::Amount,
            EventType::STD => self.settlement_payment(),
            _ => Payment::Nothing,
        }
    }

    fn change_code(&self, _event: &Event) -> Option<u32> {
        None
    }

    fn accrue(&self, event: &Event, state: &mut State) -> Option<()> {
        pass(event.kind, event.calc, state);
        Some(())
    }

    fn payoff(&self, event: &Event, value: Option<Fixed>, _state: &State) -> Option<Fixed> {
        match event.kind {
            EventType::MD => Some(self.exchanged_amount(event.source)),
            EventType::STD => self.settled_difference(value),
            other => Some(trade_payoff(self.common, other)),
        }
    }

    fn change(&self, _event: &Event, _value: Option<Fixed>, _state: &mut State) -> Option<()> {
        Some(())
    }
}

/// The events in order. The one fault is `NoMemory`.
fn in_order(mut events: Vec<Event>) -> Result<Vec<Event>, PlanFault>
    ensures in_order { IfOk result (λ sorted. sorted.items ≡ in_order events.items) }
    ensures no_memory { IfErr result (λ fault. fault ≡ PlanFault.NoMemory) }
{
    put_in_order(&mut events)?;
    Ok(events)
}
