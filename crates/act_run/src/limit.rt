//! Where the runs of its children stop a contract's run.
ghost use Rattle.std.specs.Prelude.{◌≡◌, ◌≤◌, take, map, length, IfOk};
ghost use Rattle.std.specs.Arc.{arc_value};
ghost use Rattle.std.specs.List.{fold};
ghost use Rattle.act_profile.specs.Credit.{credit_day};
ghost use Rattle.act_profile.specs.Stops.{chosen_close, comes_before, earlier_close, earlier_day, is_until, last_reading_day, stop_at_credit, stop_day};
ghost use Rattle.act_run.specs.Inputs.{limit_given};
ghost use Rattle.act_run.specs.Limits.{limit_at_credit, limit_until};

use crate::inputs::Inputs;
use act_credit::credit_day;
use act_date::Day;
use act_model::{Ceg, Close, Common, EventType, Kind, Observed, Run, Terms};
use act_num::NoMemory;
use std::alloc::Global;
use std::sync::Arc;

/// A day on which a run is stopped: it has no rows from that day on, and closes so.
#[derive(Clone, Copy)]
pub(crate) struct Limit {
    pub(crate) day: Day,
    pub(crate) close: Close,
}

/// Where a contract is stopped by its children's runs, if it is.
pub(crate) fn limit_of<O: Observed>(
    alloc: Global,
    inputs: &Inputs<'_, O>,
) -> Result<Option<Limit>, NoMemory>
    ensures { IfOk result (λ limit. limit ≡ limit_given inputs.now) }
{
    let terms = inputs.terms;
    let stop = chosen_close(inputs.children);
    match &terms.kind {
        Kind::SWAPS(_) | Kind::CAPFL(_) => Ok(limit_until(last_reading_day(terms), &stop)),
        Kind::CEG(ceg) => limit_at_credit(alloc, &terms.common, ceg, &stop, inputs.seen),
        Kind::CEC(cec) => limit_at_credit(alloc, &terms.common, &cec.guarantee, &stop, inputs.seen),
        _ => Ok(None),
    }
}

/// The chosen stop of children: the one of the least day, and of equal days the first; an end where there is none.
fn chosen_close(children: &[Arc<Run, Global>]) -> Close
    ensures { result ≡ chosen_close (map arc_value children.now) }
{
    let mut chosen = Close::End;
    'children: for child in children {
        chosen = earlier_close(&chosen, &child.close);
    }
    chosen
}

/// Of two closes the one that stops earlier, and of equal days the first.
fn earlier_close(a: &Close, b: &Close) -> Close
    ensures { result ≡ earlier_close a.now b.now }
{
    if comes_before(stop_day(b), stop_day(a)) {
        *b
    } else {
        *a
    }
}

/// The day of a stop; an end has none.
pub(crate) fn stop_day(close: &Close) -> Option<Day>
    ensures { result ≡ stop_day close.now }
{
    match close {
        Close::End => None,
        Close::Missing { day, .. } | Close::Overflow { day, .. } => Some(*day),
    }
}

/// Whether a day comes before another; any day comes before none.
pub(crate) fn comes_before(day: Option<Day>, limit: Option<Day>) -> bool
    ensures { result ≡ comes_before day limit }
{
    match (day, limit) {
        (None, _) => false,
        (Some(_), None) => true,
        (Some(day), Some(limit)) => day < limit,
    }
}

/// The last day on which a swap of two contracts or a cap and floor reads its children, where there is one.
fn last_reading_day(terms: &Terms) -> Option<Day>
    ensures { result ≡ last_reading_day terms.now.common terms.now.kind }
{
    let termination = terms.common.termination_date;
    match &terms.kind {
        Kind::CAPFL(capfl) => earlier_day(termination, capfl.maturity_date),
        _ => termination,
    }
}

/// The earlier of two days, of those that are given.
fn earlier_day(a: Option<Day>, b: Option<Day>) -> Option<Day>
    ensures { result ≡ earlier_day a b }
{
    match (a, b) {
        (None, b) => b,
        (Some(a), None) => Some(a),
        (Some(a), Some(b)) => Some(if b < a { b } else { a }),
    }
}

/// A swap of two contracts or a cap and floor is stopped where its children are, by the last reading day.
fn limit_until(last: Option<Day>, stop: &Close) -> Option<Limit>
    ensures { result ≡ limit_until last stop.now (stop_day stop.now) }
{
    let day = stop_day(stop)?;
    if is_until(last, day) {
        Some(Limit { day, close: *stop })
    } else {
        None
    }
}

/// Whether a day isn't after the last, or there is no last.
fn is_until(last: Option<Day>, day: Day) -> bool
    ensures { result ≡ is_until last day }
{
    match last {
        Some(last) => day <= last,
        None => true,
    }
}

/// A guarantee is stopped on the day of the credit event, where its children are stopped by then.
fn limit_at_credit<O: Observed>(
    alloc: Global,
    common: &Common,
    guarantee: &Ceg,
    stop: &Close,
    seen: &O,
) -> Result<Option<Limit>, NoMemory>
    ensures { IfOk result (λ limit. limit
        ≡ limit_at_credit (credit_day (O.entries seen.now) common.now guarantee.now) stop.now (stop_day stop.now)) }
{
    let credit = credit_day(alloc, common, guarantee, seen)?;
    Ok(stopped_by_then(credit, stop))
}

/// Where a guarantee is stopped by the day of the credit event.
fn stopped_by_then(credit: Option<Day>, stop: &Close) -> Option<Limit>
    ensures { result ≡ limit_at_credit credit stop.now (stop_day stop.now) }
{
    let credit = credit?;
    let day = stop_day(stop)?;
    if day <= credit {
        Some(Limit {
            day: credit,
            close: stop_at_credit(credit, stop),
        })
    } else {
        None
    }
}

/// A child's stop, as that of a guarantee on the day of the credit event.
fn stop_at_credit(credit: Day, stop: &Close) -> Close
    ensures { result ≡ stop_at_credit credit stop.now }
{
    match stop {
        Close::End => Close::End,
        Close::Missing { code, .. } => Close::Missing {
            code: *code,
            day: credit,
        },
        Close::Overflow { .. } => Close::Overflow {
            day: credit,
            kind: EventType::XD,
        },
    }
}
