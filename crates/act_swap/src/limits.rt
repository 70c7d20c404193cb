//! The events that a cap and floor makes of the rows of its underlying and of its shadow.
ghost use Rattle.std.specs.Prelude.{◌≡◌, ◌<◌, ◌++◌, ◌^◌, [], true, map, length, slice_get, IfNone, IfOk, IfSome, IsSomeAnd};
ghost use Rattle.std.specs.Arc.{arc_value};
ghost use Rattle.std.specs.List.{zip};
ghost use Rattle.act_profile.specs.Dates.{is_within};
ghost use Rattle.act_profile.specs.Legs.{capfl_events, net_event};
ghost use Rattle.act_swap.specs.Limits.{is_limited, limited_from};

use crate::children::ChildRun;
use crate::netting::net_event;
use act_date::Day;
use act_model::{Capfl, Common, Event, EventType, Row, Run};
use act_num::NoMemory;
use std::alloc::Global;
use std::sync::Arc;

/// Adds the events that a cap and floor makes of its children's rows: the k-th interest row of the underlying with the
/// k-th of its shadow, of those within the limits. A run of 2^32 rows or more, which can't be numbered, is answered as
/// want of memory.
pub(crate) fn add_capfl_events(
    events: &mut Vec<Event>,
    common: &Common,
    capfl: &Capfl,
    children: &[Arc<Run, Global>],
) -> Result<(), NoMemory>
    ensures { IfOk result (λ _. events.new.items
        ≡ events.old.items ++ capfl_events common.now capfl.now (map arc_value children.now)) }
{
    let underlying = ChildRun::of(children, 0);
    let shadow = ChildRun::of(children, 1);
    if !(underlying.is_numbered() && shadow.is_numbered()) {
        return Err(NoMemory);
    }
    add_pairs(events, common.status_date, capfl, &underlying, &shadow)
}

/// Adds the events of two runs, each of one row of both within the limits.
fn add_pairs(
    events: &mut Vec<Event>,
    status_date: Day,
    capfl: &Capfl,
    underlying: &ChildRun<'_>,
    shadow: &ChildRun<'_>,
) -> Result<(), NoMemory>
    requires rows { length underlying.now.rows < 2 ^ 32 }
    requires shadow_rows { length shadow.now.rows < 2 ^ 32 }
    ensures { IfOk result (λ _. events.new.items ≡ events.old.items
        ++ map (λ rows. net_event rows.0 rows.1) (zip (limited_from status_date capfl.now.maturity_date 0 underlying.now) (limited_from status_date capfl.now.maturity_date 0 shadow.now))) }
{
    let mut from = 0;
    'rows: for place in 0..underlying.count() {
        let row = underlying.row(place);
        if !is_limited(status_date, capfl, &row) {
            continue;
        }
        let Some(other) = next_limited(shadow, from, status_date, capfl) else {
            return Ok(());
        };
        events.push(net_event(place as u32, &row, other as u32))?;
        from = other + 1;
    }
    Ok(())
}

/// The place of the first row within the limits that isn't before `from`, where there is one.
fn next_limited(run: &ChildRun<'_>, from: usize, status_date: Day, capfl: &Capfl) -> Option<usize>
    ensures within { IfSome result (λ place. IsSomeAnd (slice_get run.now.rows place) (λ row. is_limited status_date capfl.now.maturity_date row ≡ true)) }
    ensures next { IfSome result (λ place. limited_from status_date capfl.now.maturity_date from run.now ≡ limited_from status_date capfl.now.maturity_date place run.now) }
    ensures none_left { IfNone result (limited_from status_date capfl.now.maturity_date from run.now ≡ []) }
{
    'rows: for place in from..run.count() {
        if is_limited(status_date, capfl, &run.row(place)) {
            return Some(place);
        }
    }
    None
}

/// Whether a row is interest, after the status date and not after the last day, where there is one.
fn is_limited(status_date: Day, capfl: &Capfl, row: &Row) -> bool
    ensures { result ≡ is_limited status_date capfl.now.maturity_date row.now }
{
    row.kind == EventType::IP && is_within(status_date, capfl.maturity_date, row.day)
}

/// Whether a day is after the status date and not after the last day, where there is one.
fn is_within(status_date: Day, last: Option<Day>, day: Day) -> bool
    ensures { result ≡ is_within status_date last day }
{
    match last {
        Some(last) => status_date < day && day <= last,
        None => status_date < day,
    }
}
