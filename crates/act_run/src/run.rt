//! The run of a contract.
ghost use Rattle.std.specs.Prelude.{◌≡◌, ◌+◌, ◌≤◌, drop, int_lt, length, take, true, IfOk};
ghost use Rattle.std.specs.Arc.{arc_value};
ghost use Rattle.std.specs.List.{prefix_len};
ghost use Rattle.act_profile.specs.DayOrder.{AreInDayOrder};
ghost use Rattle.act_profile.specs.Kept.{kept_of};
ghost use Rattle.act_run.specs.Inputs.{events_given, limit_given, run_given};
ghost use Rattle.act_run.specs.Limits.{before_limit, closed_by};
ghost use Rattle.act_run.specs.Resuming.{BeginsWith, NeedsNoMore};

use crate::events::{events_of, observed_as, planned_events};
use crate::inputs::Inputs;
use crate::kept::kept_count;
use crate::limit::{Limit, limit_of};
use crate::rows::{rows_behind, state_or_start, stopped_at_once};
use act_date::Day;
use act_model::{Close, Event, Observed, Rows, Run};
use act_num::{NoMemory, Steps};
use std::alloc::Global;
use std::sync::Arc;
use std::sync::ledger::Ledger;

/// The events of a contract that count, and where its children's runs stop it, if they do.
#[derive(Clone, Copy)]
struct Course<'a> {
    events: &'a [Event],
    limit: Option<Limit>,
}

/// The run of a contract over the entries of a book and its children's runs: a row for each event that counts, in order,
/// up to the first stop, its own or one of its children, which closes the run. An undefined starting state closes a run
/// without rows. It ticks once for each row; where memory runs out it may have ticked too.
pub fn evaluate<O: Observed, L: Ledger>(
    alloc: Global,
    inputs: &Inputs<'_, O>,
    steps: &mut Steps<L>,
) -> Result<Run, NoMemory>
    ensures run { IfOk result (λ run. run ≡ run_given inputs.now) }
    ensures in_day_order { IfOk result (λ run. AreInDayOrder run.rows) }
    ensures ticked { IfOk result (λ run. steps.new ≡ steps.old + length run.rows) }
{
    run_behind(alloc, inputs, &Rows::new(alloc), 0, steps)
}

/// The same run, from a run of the same contract at another version, older or newer, of which the rows dated before the cut
/// are kept, and the whole run where there is no cut or it stops before it. It is asked that what is kept of that run is kept
/// of the run wanted, as it is where the two versions differ, as to what the contract reads, only in entries dated from the
/// cut on, and in none where there is no cut ([`runs_before_a_change_are_kept`](crate::runs_before_a_change_are_kept)). Kept
/// rows are taken as they are: it ticks once for each row that wasn't kept; where memory runs out it may have ticked too.
pub fn resume<O: Observed, L: Ledger>(
    alloc: Global,
    inputs: &Inputs<'_, O>,
    kept: &Run,
    cut: Option<Day>,
    steps: &mut Steps<L>,
) -> Result<Run, NoMemory>
    requires kept_in_day_order { AreInDayOrder kept.now.rows }
    requires kept { kept_of kept.now cut ≡ kept_of (run_given inputs.now) cut }
    ensures run { IfOk result (λ run. run ≡ run_given inputs.now) }
    ensures in_day_order { IfOk result (λ run. AreInDayOrder run.rows) }
    ensures ticked { IfOk result (λ run. steps.new + length (kept_of kept.now cut).rows ≡ steps.old + length run.rows) }
{
    match kept_count(kept, cut) {
        Some(count) => run_behind(alloc, inputs, &kept.rows, count, steps),
        None => copied(alloc, kept),
    }
}

/// As [`resume`], from a run in an `Arc`, and the answer is one too. Where that run is kept whole, or it has rows, all before the
/// cut, and ended with nothing to add now, the same `Arc` is handed out and nothing is copied.
pub fn resume_shared<O: Observed, L: Ledger>(
    alloc: Global,
    inputs: &Inputs<'_, O>,
    kept: &Arc<Run, Global>,
    cut: Option<Day>,
    steps: &mut Steps<L>,
) -> Result<Arc<Run, Global>, NoMemory>
    requires kept_in_day_order { AreInDayOrder (arc_value kept.now).rows }
    requires kept { kept_of (arc_value kept.now) cut ≡ kept_of (run_given inputs.now) cut }
    ensures run { IfOk result (λ run. arc_value run ≡ run_given inputs.now) }
    ensures in_day_order { IfOk result (λ run. AreInDayOrder (arc_value run).rows) }
    ensures ticked { IfOk result (λ run. steps.new + length (kept_of (arc_value kept.now) cut).rows ≡ steps.old + length (arc_value run).rows) }
{
    match kept_count(kept, cut) {
        Some(count) => shared_behind(alloc, inputs, kept, count, steps),
        None => Ok(Arc::try_clone(kept)?),
    }
}

/// The run of a contract, whose first rows, so many, are those of a shared run.
fn shared_behind<O: Observed, L: Ledger>(
    alloc: Global,
    inputs: &Inputs<'_, O>,
    kept: &Arc<Run, Global>,
    count: usize,
    steps: &mut Steps<L>,
) -> Result<Arc<Run, Global>, NoMemory>
    requires within { count ≤ length (arc_value kept.now).rows }
    requires same { BeginsWith (run_given inputs.now) (take count (arc_value kept.now).rows) }
    ensures run { IfOk result (λ run. arc_value run ≡ run_given inputs.now) }
    ensures in_day_order { IfOk result (λ run. AreInDayOrder (arc_value run).rows) }
    ensures ticked { IfOk result (λ run. steps.new + count ≡ steps.old + length (arc_value run).rows) }
{
    let mut made = Vec::new(alloc);
    let course = Course {
        events: events_to_run(alloc, inputs, &mut made)?,
        limit: limit_of(alloc, inputs)?,
    };
    if needs_no_more(kept, count, &course) {
        return Ok(Arc::try_clone(kept)?);
    }
    let run = run_of_events(alloc, inputs, &kept.rows, count, &course, steps)?;
    Ok(Arc::new(alloc, run)?)
}

/// Whether a run has rows, all of which are kept, one for each of the events that count, and ended behind them, and nothing
/// stops it.
fn needs_no_more(kept: &Run, count: usize, course: &Course<'_>) -> bool
    ensures { result ≡ true → NeedsNoMore kept.now count course.now.limit course.now.events.now }
{
    course.limit.is_none()
        && kept.close == Close::End
        && count > 0
        && count == course.events.len()
        && count == kept.rows.count()
}

/// The run of a contract, whose first rows, so many, are those of a list.
fn run_behind<O: Observed, L: Ledger>(
    alloc: Global,
    inputs: &Inputs<'_, O>,
    rows: &Rows,
    count: usize,
    steps: &mut Steps<L>,
) -> Result<Run, NoMemory>
    requires within { count ≤ length rows.now }
    requires same { BeginsWith (run_given inputs.now) (take count rows.now) }
    ensures run { IfOk result (λ run. run ≡ run_given inputs.now) }
    ensures in_day_order { IfOk result (λ run. AreInDayOrder run.rows) }
    ensures ticked { IfOk result (λ run. steps.new + count ≡ steps.old + length run.rows) }
{
    let mut made = Vec::new(alloc);
    let course = Course {
        events: events_to_run(alloc, inputs, &mut made)?,
        limit: limit_of(alloc, inputs)?,
    };
    run_of_events(alloc, inputs, rows, count, &course, steps)
}

/// The same, by the events that count and where the contract is stopped.
fn run_of_events<O: Observed, L: Ledger>(
    alloc: Global,
    inputs: &Inputs<'_, O>,
    rows: &Rows,
    count: usize,
    course: &Course<'_>,
    steps: &mut Steps<L>,
) -> Result<Run, NoMemory>
    requires within { count ≤ length rows.now }
    requires same { BeginsWith (run_given inputs.now) (take count rows.now) }
    requires limit { course.now.limit ≡ limit_given inputs.now }
    requires events { course.now.events.now ≡ events_given inputs.now }
    ensures run { IfOk result (λ run. run ≡ run_given inputs.now) }
    ensures in_day_order { IfOk result (λ run. AreInDayOrder run.rows) }
    ensures ticked { IfOk result (λ run. steps.new + count ≡ steps.old + length run.rows) }
{
    match state_or_start(inputs, rows, count) {
        Ok(state) => {
            let before = before_limit(&course.limit, course.events);
            let kept = rows.first(alloc, count, before.len())?;
            let left = events_behind(before, count);
            let run = rows_behind(inputs, kept, state, left, steps)?;
            Ok(closed_by(&course.limit, run))
        }
        Err(stop) => Ok(stopped_at_once(alloc, stop)),
    }
}

/// The events of a contract that count: a part of its plan, or else a list of their own, which is put into `made`.
fn events_to_run<'a, O: Observed>(
    alloc: Global,
    inputs: &'a Inputs<'_, O>,
    made: &'a mut Vec<Event>,
) -> Result<&'a [Event], NoMemory>
    ensures { IfOk result (λ events. events.now ≡ events_given inputs.now) }
{
    let own = inputs
        .seen
        .events_of(alloc, observed_as(&inputs.terms.common))?;
    match planned_events(inputs.terms, inputs.plan, &own) {
        Some(events) => Ok(events),
        None => {
            *made = events_of(alloc, inputs, &own)?;
            Ok(made)
        }
    }
}

/// A copy of a run.
fn copied(alloc: Global, run: &Run) -> Result<Run, NoMemory>
    ensures { IfOk result (λ copy. copy ≡ run.now) }
{
    let count = run.rows.count();
    let rows = run.rows.first(alloc, count, count)?;
    Ok(Run {
        rows,
        close: run.close,
    })
}

/// The events before the day on which a run is stopped.
fn before_limit<'a>(limit: &Option<Limit>, events: &'a [Event]) -> &'a [Event]
    ensures { result.now ≡ before_limit limit.now events.now }
{
    match limit {
        Some(limit) => &events[..count_before(limit.day, events)],
        None => events,
    }
}

/// The events behind the first, so many.
fn events_behind(events: &[Event], count: usize) -> &[Event]
    requires { count ≤ length events.now }
    ensures { result.now ≡ drop count events.now }
{
    &events[count..]
}

/// How many events stand before the first that isn't before a day.
fn count_before(day: Day, events: &[Event]) -> usize
    ensures count { result ≡ prefix_len (λ event. int_lt event.day day) events.now }
    ensures within { result ≤ length events.now }
{
    'events: for (place, event) in events.iter().enumerate() {
        if event.day >= day {
            return place;
        }
    }
    events.len()
}

/// A run of the events before the day on which it is stopped, which closes so where it hasn't stopped by itself.
fn closed_by(limit: &Option<Limit>, run: Run) -> Run
    ensures { result ≡ closed_by limit.now run }
{
    match (limit, run.close) {
        (Some(limit), Close::End) => Run {
            rows: run.rows,
            close: limit.close,
        },
        _ => run,
    }
}
