//! The rows of events.
ghost use Rattle.std.specs.Prelude.{◌≡◌, ◌+◌, ◌≤◌, length, map, take, IfOk};
ghost use Rattle.std.specs.Arc.{arc_value};
ghost use Rattle.act_profile.specs.Run.{close_of, rows_from, stopped_at_once};
ghost use Rattle.act_profile.specs.Steps.{currency_of, start_of, step_of};
ghost use Rattle.act_run.specs.Resuming.{state_or_start, with_rows};

use crate::inputs::Inputs;
use act_contract::{advance, currency_of, loan_table, start};
use act_model::{Close, Event, Observed, RowHead, Rows, Run, State, Stop, Terms};
use act_num::{Fixed, NoMemory, Steps};
use std::alloc::Global;
use std::sync::Arc;
use std::sync::ledger::Ledger;

/// The state behind the first rows of a run, so many: that of the last of them, and of none what the contract begins with, or the
/// stop where its starting state is undefined.
pub(crate) fn state_or_start<O: Observed>(
    inputs: &Inputs<'_, O>,
    rows: &Rows,
    count: usize,
) -> Result<State, Stop>
    requires within { count ≤ length rows.now }
    ensures { result ≡ state_or_start (start_of inputs.now.terms inputs.now.plan) (take count rows.now) }
{
    match count.checked_sub(1) {
        Some(last) => Ok(rows.row(last).state),
        None => start(inputs.terms, inputs.plan),
    }
}

/// Rows, and behind them those of events from a state on, one for each, up to the first stop. It ticks once for each row that
/// it adds.
pub(crate) fn rows_behind<O: Observed, L: Ledger>(
    inputs: &Inputs<'_, O>,
    mut rows: Rows,
    first: State,
    events: &[Event],
    steps: &mut Steps<L>,
) -> Result<Run, NoMemory>
    ensures run { IfOk result (λ run. run
        ≡ with_rows rows (rows_from (step_of inputs.now.terms inputs.now.plan inputs.now.entries inputs.now.children)
        (currency_of inputs.now.terms inputs.now.children) first events.now)) }
    ensures ticked { IfOk result (λ run. steps.new + length rows ≡ steps.old + length run.rows) }
{
    let &Inputs {
        terms,
        plan,
        children,
        seen,
    } = inputs;
    let table = loan_table(terms, plan);
    let mut state = first;
    'events: for event in events {
        match advance(
            terms, &table, plan, &mut state, event, children, seen, steps,
        ) {
            Ok(payoff) => rows.push(&head_of(terms, children, event, payoff), &state)?,
            Err(stop) => {
                let close = close_of(stop);
                return Ok(Run { rows, close });
            }
        }
    }
    Ok(Run {
        rows,
        close: Close::End,
    })
}

/// No rows, and a stop.
pub(crate) fn stopped_at_once(alloc: Global, stop: Stop) -> Run
    ensures { result ≡ stopped_at_once stop }
{
    Run {
        rows: Rows::new(alloc),
        close: close_of(stop),
    }
}

/// The head of an event's row, by what it pays.
#[inline(always)]
fn head_of(terms: &Terms, children: &[Arc<Run, Global>], event: &Event, payoff: Fixed) -> RowHead
    ensures { result ≡ record { day = event.now.day; kind = event.now.kind; currency = currency_of terms.now (map arc_value children.now) event.now; payoff = payoff } }
{
    RowHead {
        day: event.day,
        kind: event.kind,
        currency: currency_of(terms, children, event),
        payoff,
    }
}

/// The close of a stop.
fn close_of(stop: Stop) -> Close
    ensures { result ≡ close_of stop }
{
    match stop {
        Stop::Missing { code, day } => Close::Missing { code, day },
        Stop::Overflow { day, kind } => Close::Overflow { day, kind },
    }
}
