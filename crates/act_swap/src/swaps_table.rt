//! SWAPS: a swap of two contracts, which pays what the rows of its legs pay.
ghost use Rattle.std.specs.Prelude.{◌≡◌, map, option_map};
ghost use Rattle.std.specs.Arc.{arc_value};
ghost use Rattle.act_kind.specs.Payment.{payment_of};
ghost use Rattle.act_model.specs.declared.terms.Common.{Common};
ghost use Rattle.act_profile.specs.Formula.{opposite, signed};
ghost use Rattle.act_profile.specs.Legs.{swaps_amount, swaps_row};
ghost use Rattle.act_profile.specs.Trade.{trade_line};
ghost use Rattle.act_swap.specs.Signs.{by_leg};

use crate::children::{paid_at, row_at};
use crate::netting::{first_leg, second_leg};
use act_kind::{Payment, Table, opposite, pass, signed, trade_payoff};
use act_model::{Common, ContractRole, Event, EventType, Row, Run, Source, State, Swaps};
use act_num::Fixed;
use std::alloc::Global;
use std::marker::Model;
use std::sync::Arc;

/// The table of steps of a swap of two contracts. Contracts see its terms and its children's runs.
#[derive(Drop)]
pub(crate) struct SwapsTable<'a> {
    common: &'a Common,
    swaps: &'a Swaps,
    children: &'a [Arc<Run, Global>],
}

impl<'a> Model for SwapsTable<'a> {
    ghost use Rattle.std.specs.Arc.{arc_value};
    ghost use Rattle.std.specs.Prelude.{List, map};
    ghost use Rattle.act_model.specs.Run.{Stream};
    ghost use Rattle.act_model.specs.declared.terms.Common.{Common};
    ghost use Rattle.act_model.specs.declared.terms.Swaps.{Swaps};

    ghost Value = { Common × Swaps × List Stream };

    ghost view = { λ t. (t.common.now, t.swaps.now, map arc_value t.children.now) };
}

impl<'a> SwapsTable<'a> {
    /// The table of a swap's terms over its children's runs.
    pub(crate) fn new(
        common: &'a Common,
        swaps: &'a Swaps,
        children: &'a [Arc<Run, Global>],
    ) -> SwapsTable<'a>
        ensures { result ≡ (common.now, swaps.now, map arc_value children.now) }
    {
        SwapsTable {
            common,
            swaps,
            children,
        }
    }

    /// What an event of a leg's row pays, or of two the difference. None where there is no such row, or where the amount
    /// is undefined.
    fn amount(&self, source: Source) -> Option<Fixed>
        ensures { result ≡ swaps_amount self.now.0 self.now.1 self.now.2 source }
    {
        match source {
            Source::Leg { leg, row } => self.leg_amount(leg, row),
            Source::Net { first, second } => self.net_amount(first, second),
            _ => None,
        }
    }

    /// What a row of a leg pays.
    fn leg_amount(&self, leg: u8, row: u32) -> Option<Fixed>
        ensures { result ≡ swaps_amount self.now.0 self.now.1 self.now.2 (Source.Leg leg row) }
    {
        let payoff = paid_at(self.children, leg, row)?;
        let is_first = leg == first_leg(self.swaps);
        Some(by_leg(self.common.contract_role, is_first, payoff))
    }

    /// What two netted rows pay: the first leg's less the second's.
    fn net_amount(&self, first: u32, second: u32) -> Option<Fixed>
        ensures { result ≡ swaps_amount self.now.0 self.now.1 self.now.2 (Source.Net first second) }
    {
        let first = paid_at(self.children, first_leg(self.swaps), first)?;
        let second = paid_at(self.children, second_leg(self.swaps), second)?;
        let role = self.common.contract_role;
        signed(role, first).sub(signed(role, second))
    }
}

impl Table for SwapsTable<'_> {
    ghost use Rattle.act_profile.specs.Legs.{swaps_line};
    ghost use Rattle.act_profile.specs.Order.{is_own};
    ghost use Rattle.act_profile.specs.Steps.{own_or_row_line};
    ghost use Rattle.act_profile.specs.Trade.{passed, trade_line};

    ghost line = { λ t event. own_or_row_line (is_own event.source) (trade_line t.0 event.kind) (swaps_line t.0 t.1 t.2 event) };

    ghost accrual = { λ t event state. passed event.kind event.calc state };

    fn payment(&self, event: &Event) -> Payment {
        match event.source {
            Source::Leg { .. } | Source::Net { .. } => Payment::Amount,
            _ => trade_payment(event.kind),
        }
    }

    fn change_code(&self, _event: &Event) -> Option<u32> {
        None
    }

    fn accrue(&self, event: &Event, state: &mut State) -> Option<()> {
        pass(event.kind, event.calc, state);
        Some(())
    }

    fn payoff(&self, event: &Event, _value: Option<Fixed>, _state: &State) -> Option<Fixed> {
        match event.source {
            Source::Leg { .. } | Source::Net { .. } => self.amount(event.source),
            _ => Some(trade_payoff(self.common, event.kind)),
        }
    }

    fn change(&self, _event: &Event, _value: Option<Fixed>, _state: &mut State) -> Option<()> {
        Some(())
    }
}

/// The row of a leg that an event is of, of two the first leg's, or None where there is none.
pub(crate) fn swaps_row(swaps: &Swaps, children: &[Arc<Run, Global>], source: Source) -> Option<Row>
    ensures { result ≡ swaps_row swaps.now (map arc_value children.now) source }
{
    match source {
        Source::Leg { leg, row } => row_at(children, leg, row),
        Source::Net { first, .. } => row_at(children, first_leg(swaps), first),
        _ => None,
    }
}

/// What is paid before the settlement factor by an event of the contract itself: a purchase or a termination pays an
/// amount, and another nothing.
pub(crate) fn trade_payment(kind: EventType) -> Payment
    ensures { (common : Common) → result ≡ payment_of (trade_line common kind).payoff }
{
    match kind {
        EventType::PRD | EventType::TD => Payment::Amount,
        _ => Payment::Nothing,
    }
}

/// A payoff of the first leg with the role's sign, or one of the second leg with the opposite one.
fn by_leg(role: ContractRole, is_first: bool, payoff: Fixed) -> Fixed
    ensures { result ≡ by_leg role is_first payoff }
{
    if is_first {
        signed(role, payoff)
    } else {
        opposite(role, payoff)
    }
}
