//! The calls of SWPPV, SWAPS and CAPFL.
ghost use Rattle.std.specs.Prelude.{◌≡◌, ◌≢◌, ◌++◌, true, map, option_map, Ok, Err, IfOk};
ghost use Rattle.std.specs.Arc.{arc_value};
ghost use Rattle.act_kind.specs.Takes.{Takes, with_state};
ghost use Rattle.act_model.specs.Kind.{type_of};
ghost use Rattle.act_profile.specs.Events.{events_of_children};
ghost use Rattle.act_profile.specs.Plan.{plan_of};
ghost use Rattle.act_profile.specs.Steps.{currency_of, currency_of_row, start_of, step_of};
ghost use Rattle.act_profile.specs.DayOrder.{RunsAreInDayOrder};
ghost use Rattle.act_swap.specs.Kinds.{SwapLeadsOn, is_over_children, is_swap_or_cap};

use crate::capfl_table::{CapTable, capfl_row};
use crate::limits::add_capfl_events;
use crate::netting::add_swaps_events;
use crate::plain_swap::PlainSwap;
use crate::swaps_table::{SwapsTable, swaps_row};
use act_kind::{first_state, trade_plan, with_state};
use act_model::{
    Common, Event, EventType, Kind, Observed, Plan, PlanFault, Row, Run, State, Stop, Terms,
};
use act_num::{Fixed, NoMemory, Steps};
use std::alloc::Global;
use std::sync::Arc;
use std::sync::ledger::Ledger;

/// The scheduled events of a SWPPV, a SWAPS or a CAPFL: the purchase and the termination, and of a SWPPV its initial
/// exchange, interest payments, resets and maturity. `TooManyDates` comes where a SWPPV has more than 4,096,
/// `DateRange` where one of its dates leaves 1900 to 2299, and of both the one whose type of event comes first.
pub fn schedule(alloc: Global, terms: &Terms) -> Result<Plan, PlanFault>
    requires kind { is_swap_or_cap (type_of terms.now.kind) ≡ true }
    requires cycles { SwapLeadsOn terms.now.kind }
    ensures { result ≢ Err PlanFault.NoMemory → result ≡ plan_of terms.now }
{
    match &terms.kind {
        Kind::SWPPV(swap) => PlainSwap::new(&terms.common, swap).plan(alloc),
        Kind::SWAPS(_) | Kind::CAPFL(_) => trade_plan(alloc, &terms.common),
        _ => unreachable!(),
    }
}

/// The state that a SWPPV, a SWAPS or a CAPFL begins with, or an overflow at the initial exchange on the status date
/// where that of a SWPPV is undefined. It takes no memory.
pub fn start(terms: &Terms, plan: &Plan) -> Result<State, Stop>
    requires kind { is_swap_or_cap (type_of terms.now.kind) ≡ true }
    requires cycles { SwapLeadsOn terms.now.kind }
    ensures { result ≡ start_of terms.now plan.now }
{
    match &terms.kind {
        Kind::SWPPV(swap) => match PlainSwap::new(&terms.common, swap).first_state() {
            Some(state) => Ok(state),
            None => Err(Stop::Overflow {
                day: terms.common.status_date,
                kind: EventType::IED,
            }),
        },
        Kind::SWAPS(_) => Ok(first_state(terms.common.status_date)),
        Kind::CAPFL(_) => Ok(first_state(terms.common.status_date)),
        _ => unreachable!(),
    }
}

/// What an event of a SWPPV, a SWAPS or a CAPFL pays and the state after it, over the runs of its children, which a SWPPV
/// hasn't; or why the run stops there: first an observation that is missing, and then an amount that is undefined. An event
/// of children's rows pays by these rows, in their currency and without a settlement factor. Where it is Ok it ticks once,
/// and else not at all. It takes no memory.
pub fn step<O: Observed, L: Ledger>(
    terms: &Terms,
    plan: &Plan,
    state: &State,
    event: &Event,
    children: &[Arc<Run, Global>],
    seen: &O,
    steps: &mut Steps<L>,
) -> Result<(Fixed, State), Stop>
    requires { is_swap_or_cap (type_of terms.now.kind) ≡ true }
    ensures { Takes result
        (step_of terms.now plan.now (O.entries seen.now) (map arc_value children.now) state.now event.now) steps.old steps.new }
{
    let mut next = *state;
    let taken = advance(terms, plan, &mut next, event, children, seen, steps);
    with_state(next, taken)
}

/// Takes the step of an event of a SWPPV, a SWAPS or a CAPFL, as [`step`] does, in place: the state becomes the one after the
/// event, and what the event pays is answered. Where the run stops the state is of no use.
pub fn advance<O: Observed, L: Ledger>(
    terms: &Terms,
    plan: &Plan,
    state: &mut State,
    event: &Event,
    children: &[Arc<Run, Global>],
    seen: &O,
    steps: &mut Steps<L>,
) -> Result<Fixed, Stop>
    requires { is_swap_or_cap (type_of terms.now.kind) ≡ true }
    ensures { Takes (with_state state.new result)
        (step_of terms.now plan.now (O.entries seen.now) (map arc_value children.now) state.old event.now) steps.old steps.new }
{
    match &terms.kind {
        Kind::SWPPV(swap) => {
            let table = PlainSwap::new(&terms.common, swap);
            act_kind::advance(terms, plan, &table, state, event, seen, steps)
        }
        Kind::SWAPS(swaps) => {
            let table = SwapsTable::new(&terms.common, swaps, children);
            act_kind::advance(terms, plan, &table, state, event, seen, steps)
        }
        Kind::CAPFL(_) => {
            let table = CapTable::new(&terms.common, children);
            act_kind::advance(terms, plan, &table, state, event, seen, steps)
        }
        _ => unreachable!(),
    }
}

/// The currency of an event's payoff of a SWAPS or a CAPFL, by its number: of a child's row that row's, of two the first
/// leg's or the underlying's, and else the settlement currency where it is given, or the contract's.
pub fn currency_of(terms: &Terms, children: &[Arc<Run, Global>], event: &Event) -> u32
    requires { is_over_children (type_of terms.now.kind) ≡ true }
    ensures { result ≡ currency_of terms.now (map arc_value children.now) event.now }
{
    match &terms.kind {
        Kind::SWAPS(swaps) => {
            currency_of_row(&terms.common, swaps_row(swaps, children, event.source))
        }
        Kind::CAPFL(_) => currency_of_row(&terms.common, capfl_row(children, event.source)),
        _ => unreachable!(),
    }
}

/// The currency of a child's row, or of an event of the contract itself.
fn currency_of_row(common: &Common, row: Option<Row>) -> u32
    ensures { result ≡ currency_of_row common.now row }
{
    match row {
        Some(row) => row.currency,
        None => common.settlement_currency.unwrap_or(common.currency),
    }
}

/// Events, and behind them those that a contract makes of its children's rows, in the order of the first leg's rows and then
/// of the second's: of a SWAPS the rows of both legs after the status date, of which interest of one day and currency may
/// be paid net, and of a CAPFL the interest of its underlying and of its shadow. Another kind makes none. It takes time in
/// proportion to the rows, where few of them are of one day. `NoMemory` comes too where a child has 2^32 rows or more,
/// which can't be numbered; with it the events are gone.
pub fn with_rows_of_children(
    mut events: Vec<Event>,
    common: &Common,
    kind: &Kind,
    children: &[Arc<Run, Global>],
) -> Result<Vec<Event>, NoMemory>
    requires { RunsAreInDayOrder (map arc_value children.now) }
    ensures { IfOk result (λ all. all.items
        ≡ events.items ++ events_of_children common.now kind.now (map arc_value children.now)) }
{
    match kind {
        Kind::SWAPS(swaps) => add_swaps_events(&mut events, common, swaps, children)?,
        Kind::CAPFL(capfl) => add_capfl_events(&mut events, common, capfl, children)?,
        _ => {}
    }
    Ok(events)
}
