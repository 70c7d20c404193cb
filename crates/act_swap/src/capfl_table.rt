//! CAPFL: a cap and floor, which pays by how much the interest of its underlying changes.
ghost use Rattle.std.specs.Prelude.{◌≡◌, map, option_map};
ghost use Rattle.std.specs.Arc.{arc_value};
ghost use Rattle.act_profile.specs.Legs.{capfl_amount, capfl_row};

use crate::children::{paid_at, row_at};
use crate::swaps_table::trade_payment;
use act_kind::{Payment, Table, pass, signed, trade_payoff};
use act_model::{Common, Event, Row, Run, Source, State};
use act_num::Fixed;
use std::alloc::Global;
use std::marker::Model;
use std::sync::Arc;

/// The place of the underlying among the children, and of its shadow.
const UNDERLYING: u8 = 0;

const SHADOW: u8 = 1;

/// The table of steps of a cap and floor. Contracts see the terms that every contract has, and its children's runs.
#[derive(Drop)]
pub(crate) struct CapTable<'a> {
    common: &'a Common,
    children: &'a [Arc<Run, Global>],
}

impl<'a> Model for CapTable<'a> {
    ghost use Rattle.std.specs.Arc.{arc_value};
    ghost use Rattle.std.specs.Prelude.{List, map};
    ghost use Rattle.act_model.specs.Run.{Stream};
    ghost use Rattle.act_model.specs.declared.terms.Common.{Common};

    ghost Value = { Common × List Stream };

    ghost view = { λ t. (t.common.now, map arc_value t.children.now) };
}

impl<'a> CapTable<'a> {
    /// The table of a cap and floor over its children's runs.
    pub(crate) fn new(common: &'a Common, children: &'a [Arc<Run, Global>]) -> CapTable<'a>
        ensures { result ≡ (common.now, map arc_value children.now) }
    {
        CapTable { common, children }
    }

    /// What an event of two rows pays: the magnitude of their difference, with the role's sign. None where a row isn't
    /// there, or where the difference is undefined.
    fn amount(&self, source: Source) -> Option<Fixed>
        ensures { result ≡ capfl_amount self.now.0 self.now.1 source }
    {
        let Source::Net { first, second } = source else {
            return None;
        };
        let underlying = paid_at(self.children, UNDERLYING, first)?;
        let shadow = paid_at(self.children, SHADOW, second)?;
        let change = underlying.sub(shadow)?;
        Some(signed(self.common.contract_role, change.abs()))
    }
}

impl Table for CapTable<'_> {
    ghost use Rattle.act_profile.specs.Legs.{capfl_line};
    ghost use Rattle.act_profile.specs.Order.{is_own};
    ghost use Rattle.act_profile.specs.Steps.{own_or_row_line};
    ghost use Rattle.act_profile.specs.Trade.{passed, trade_line};

    ghost line = { λ t event. own_or_row_line (is_own event.source) (trade_line t.0 event.kind) (capfl_line t.0 t.1 event) };

    ghost accrual = { λ t event state. passed event.kind event.calc state };

    fn payment(&self, event: &Event) -> Payment {
        match event.source {
            Source::Leg { .. } | Source::Net { .. } => Payment::Amount,
            _ => trade_payment(event.kind),
        }
    }

    fn change_code(&self, _event: &Event) -> Option<u32> {
        None
    }

    fn accrue(&self, event: &Event, state: &mut State) -> Option<()> {
        pass(event.kind, event.calc, state);
        Some(())
    }

    fn payoff(&self, event: &Event, _value: Option<Fixed>, _state: &State) -> Option<Fixed> {
        match event.source {
            Source::Leg { .. } | Source::Net { .. } => self.amount(event.source),
            _ => Some(trade_payoff(self.common, event.kind)),
        }
    }

    fn change(&self, _event: &Event, _value: Option<Fixed>, _state: &mut State) -> Option<()> {
        Some(())
    }
}

/// The row of the underlying that an event is of, or None where there is none.
pub(crate) fn capfl_row(children: &[Arc<Run, Global>], source: Source) -> Option<Row>
    ensures { result ≡ capfl_row (map arc_value children.now) source }
{
    match source {
        Source::Net { first, .. } => row_at(children, UNDERLYING, first),
        _ => None,
    }
}
