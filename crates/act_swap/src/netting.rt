//! The events that a swap of two contracts makes of its legs' rows. Both legs are walked through once, day by day: for
//! netting an interest row is compared with those of its own day alone, and no other row with any.
ghost use Rattle.std.specs.Prelude.{◌≡◌, ℤ, true, ◌<◌, ◌≤◌, ◌++◌, ◌^◌, map, length, option_map, slice_get, take, Some, IfOk, IfSome};
ghost use Rattle.std.specs.Arc.{arc_value};
ghost use Rattle.std.specs.List.{count_by, filter};
ghost use Rattle.act_profile.specs.Legs.{first_leg, is_netted_with, leg_event, net_event, placed_rows, second_leg, swaps_events, taken_rows};
ghost use Rattle.act_profile.specs.DayOrder.{AreInDayOrder, RunsAreInDayOrder};
ghost use Rattle.act_swap.specs.Netting.{AreBefore, earlier_rows, is_like, is_taken, netted_events, partner_place, row_events};

use crate::children::ChildRun;
use act_date::Day;
use act_model::{Common, DeliverySettlement, Event, EventType, Row, Run, Source, Swaps};
use act_num::{Fixed, NoMemory};
use std::alloc::Global;
use std::sync::Arc;

/// The two legs of a swap whose interest is netted.
#[derive(Clone, Copy, PartialEq, Eq)]
enum Side {
    /// The first leg, at whose place two netted rows make one event.
    First,
    /// The second leg, whose netted rows make none.
    Second,
}

/// The place among the children of the first leg.
pub(crate) fn first_leg(swaps: &Swaps) -> u8
    ensures { result ≡ first_leg swaps.now }
{
    if swaps.swapped { 1 } else { 0 }
}

/// The place among the children of the second leg.
pub(crate) fn second_leg(swaps: &Swaps) -> u8
    ensures { result ≡ second_leg swaps.now }
{
    if swaps.swapped { 0 } else { 1 }
}

/// Adds the events that a swap makes of its children's rows. A run of 2^32 rows or more, which can't be numbered, is
/// answered as want of memory.
pub(crate) fn add_swaps_events(
    events: &mut Vec<Event>,
    common: &Common,
    swaps: &Swaps,
    children: &[Arc<Run, Global>],
) -> Result<(), NoMemory>
    requires { RunsAreInDayOrder (map arc_value children.now) }
    ensures { IfOk result (λ _. events.new.items
        ≡ events.old.items ++ swaps_events common.now swaps.now (map arc_value children.now)) }
{
    let (first, second) = (first_leg(swaps), second_leg(swaps));
    let first_run = ChildRun::of(children, first as usize);
    let second_run = ChildRun::of(children, second as usize);
    if !(first_run.is_numbered() && second_run.is_numbered()) {
        return Err(NoMemory);
    }
    let status = common.status_date;
    match swaps.delivery_settlement {
        DeliverySettlement::D => {
            add_apart(events, first, status, &first_run)?;
            add_apart(events, second, status, &second_run)
        }
        DeliverySettlement::S => {
            add_netted(events, Side::First, first, status, &first_run, &second_run)?;
            add_netted(
                events,
                Side::Second,
                second,
                status,
                &second_run,
                &first_run,
            )
        }
    }
}

/// Adds an event for each row of a leg that is taken.
fn add_apart(
    events: &mut Vec<Event>,
    leg: u8,
    status_date: Day,
    run: &ChildRun<'_>,
) -> Result<(), NoMemory>
    requires { length run.now.rows < 2 ^ 32 }
    ensures { IfOk result (λ _. events.new.items ≡ events.old.items ++ map (leg_event leg) (taken_rows status_date run.now)) }
{
    'rows: for place in 0..run.count() {
        let row = run.row(place);
        if !is_taken(status_date, &row) {
            continue;
        }
        events.push(leg_event(leg, place as u32, &row))?;
    }
    Ok(())
}

/// Adds the events of a leg's rows that are taken, of which some are netted with rows of the other leg.
fn add_netted(
    events: &mut Vec<Event>,
    side: Side,
    leg: u8,
    status_date: Day,
    run: &ChildRun<'_>,
    other: &ChildRun<'_>,
) -> Result<(), NoMemory>
    requires rows { length run.now.rows < 2 ^ 32 }
    requires other_rows { length other.now.rows < 2 ^ 32 }
    requires order { AreInDayOrder run.now.rows }
    requires other_order { AreInDayOrder other.now.rows }
    ensures { IfOk result (λ _. events.new.items ≡ events.old.items ++ netted_events side leg status_date run.now other.now) }
{
    let mut before = None;
    'rows: for place in 0..run.count() {
        let row = run.row(place);
        let starts = starts_of(&row, place, run, other, before);
        let (from, other_from) = (starts.from, starts.other_from);
        before = Some(starts);
        if !is_taken(status_date, &row) {
            continue;
        }
        let partner = partner_of(&row, place, run, from, other, other_from);
        add_row(events, side, leg, place as u32, &row, partner)?;
    }
    Ok(())
}

/// Where the rows of a day begin, of both legs.
#[derive(Clone, Copy)]
struct Starts {
    /// The day.
    day: Day,
    /// The place of the leg's first row that isn't before the day.
    from: usize,
    /// The same of the other leg.
    other_from: usize,
}

/// Where the rows of a row's day begin, by those of the row before it, where there is one.
#[inline(always)]
fn starts_of(
    row: &Row,
    place: usize,
    run: &ChildRun<'_>,
    other: &ChildRun<'_>,
    before: Option<Starts>,
) -> Starts
    requires row { slice_get run.now.rows place ≡ Some row.now }
    requires order { AreInDayOrder run.now.rows }
    requires before { AreBefore run.now other.now place before }
    ensures day { result.day ≡ row.now.day }
    ensures from { result.from ≡ earlier_rows row.now.day run.now }
    ensures other_from { result.other_from ≡ earlier_rows row.now.day other.now }
{
    let day = row.day;
    let Some(before) = before else {
        return Starts {
            day,
            from: 0,
            other_from: first_from(other, 0, day),
        };
    };
    if before.day == day {
        return before;
    }
    Starts {
        day,
        from: place,
        other_from: first_from(other, before.other_from, day),
    }
}

/// Adds the event of a row of a netted leg, if it makes one, by the place of its partner.
#[inline(always)]
fn add_row(
    events: &mut Vec<Event>,
    side: Side,
    leg: u8,
    place: u32,
    row: &Row,
    partner: Option<u32>,
) -> Result<(), NoMemory>
    ensures { IfOk result (λ _. events.new.items ≡ events.old.items ++ row_events side leg (place, row.now) partner) }
{
    match (side, partner) {
        (_, None) => Ok(events.push(leg_event(leg, place, row))?),
        (Side::First, Some(other)) => Ok(events.push(net_event(place, row, other))?),
        (Side::Second, Some(_)) => Ok(()),
    }
}

/// Whether a row is taken: it is after the status date, and no credit event.
#[inline(always)]
fn is_taken(status_date: Day, row: &Row) -> bool
    ensures { result ≡ is_taken status_date row.now }
{
    status_date < row.day && row.kind != EventType::CE
}

/// The event that a row of a leg makes.
#[inline(always)]
fn leg_event(leg: u8, place: u32, row: &Row) -> Event
    ensures { result ≡ leg_event leg (place, row.now) }
{
    Event {
        day: row.day,
        calc: row.day,
        kind: row.kind,
        value: Fixed::ZERO,
        source: Source::Leg { leg, row: place },
    }
}

/// The event that two interest rows make together, by their places.
#[inline(always)]
pub(crate) fn net_event(first: u32, row: &Row, second: u32) -> Event
    ensures { result ≡ net_event (first, row.now) (second, row.now) }
{
    Event {
        day: row.day,
        calc: row.day,
        kind: EventType::IP,
        value: Fixed::ZERO,
        source: Source::Net { first, second },
    }
}

/// The place of the first row that isn't before a day, or how many rows there are. It isn't before `from`.
fn first_from(run: &ChildRun<'_>, from: usize, day: Day) -> usize
    requires { from ≤ earlier_rows day run.now }
    ensures { result ≡ earlier_rows day run.now }
{
    'rows: for place in from..run.count() {
        if run.row(place).day >= day {
            return place;
        }
    }
    run.count()
}

/// The place of the row of the other leg that a row at a place is netted with, where there is one: of the interest rows of
/// that day and currency the k-th with the k-th. `from` and `other_from` are the places of the first rows of the day.
fn partner_of(
    row: &Row,
    place: usize,
    run: &ChildRun<'_>,
    from: usize,
    other: &ChildRun<'_>,
    other_from: usize,
) -> Option<u32>
    requires row { slice_get run.now.rows place ≡ Some row.now }
    requires from { from ≡ earlier_rows row.now.day run.now }
    requires other_from { other_from ≡ earlier_rows row.now.day other.now }
    requires other_rows { length other.now.rows < 2 ^ 32 }
    requires other_order { AreInDayOrder other.now.rows }
    ensures { (status : ℤ) → is_taken status row.now ≡ true →
        result ≡ partner_place (taken_rows status run.now) (taken_rows status other.now) (place, row.now) }
{
    if row.kind != EventType::IP {
        return None;
    }
    let earlier = count_like(row, run, from, place);
    match nth_like(row, other, other_from, earlier) {
        Some(partner) => Some(partner as u32),
        None => None,
    }
}

/// How many rows before a place are netted as a row is. Those before `from` aren't.
fn count_like(row: &Row, run: &ChildRun<'_>, from: usize, place: usize) -> usize
    requires from { from ≡ earlier_rows row.now.day run.now }
    requires up_to { from ≤ place }
    requires within { place ≤ length run.now.rows }
    ensures { result ≡ count_by (is_like row.now) (take place run.now.rows) }
{
    let mut count = 0;
    'rows: for earlier in from..place {
        if is_netted_with(row, &run.row(earlier)) {
            count += 1;
        }
    }
    count
}

/// The place of the n-th of the rows that are netted as a row is, counted from 0. Those before `from` aren't.
fn nth_like(row: &Row, run: &ChildRun<'_>, from: usize, n: usize) -> Option<usize>
    requires order { AreInDayOrder run.now.rows }
    requires from { from ≡ earlier_rows row.now.day run.now }
    ensures place { result ≡ option_map (λ found. found.0) (slice_get (filter (is_netted_with (0, row.now)) (placed_rows run.now)) n) }
    ensures within { IfSome result (λ place. place < length run.now.rows) }
{
    let mut left = n;
    'rows: for place in from..run.count() {
        let other = run.row(place);
        if row.day < other.day {
            return None;
        }
        if is_netted_with(row, &other) {
            if left == 0 {
                return Some(place);
            }
            left -= 1;
        }
    }
    None
}

/// Whether two rows of different legs are netted: both are interest of one day and currency.
#[inline(always)]
fn is_netted_with(a: &Row, b: &Row) -> bool
    ensures { result ≡ is_like a.now b.now }
{
    a.kind == EventType::IP && b.kind == EventType::IP && a.day == b.day && a.currency == b.currency
}
