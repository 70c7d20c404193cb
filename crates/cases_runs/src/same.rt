//! Whether runs, and what is kept of them, are the same, looked at row by row.
ghost use Rattle.std.specs.Prelude.{◌≡◌, [], ◌∷◌, ◌++◌, true, int_lt, Ok, Some, IfOk, OnOk};
ghost use Rattle.std.specs.List.{filter};
ghost use Rattle.act_profile.specs.Kept.{kept_of};
ghost use Rattle.act_profile.specs.Stops.{comes_before, rows_before, stop_day};

use act_date::Day;
use act_model::{Close, EventType, Row, Rows, Run, State};
use act_num::NoMemory;
use std::alloc::Global;

/// Whether the same is kept of two runs under a cut, looked at row by row.
pub fn keep_the_same(
    alloc: Global,
    one: &Run,
    other: &Run,
    cut: Option<Day>,
) -> Result<bool, NoMemory>
    ensures { result ≡ Ok true → kept_of one.now cut ≡ kept_of other.now cut }
{
    if are_same(one, other) {
        return Ok(true);
    }
    match cut {
        Some(cut) => keep_the_same_rows(alloc, one, other, cut),
        None => Ok(false),
    }
}

/// Whether the same rows are kept of two runs, and neither is kept whole.
fn keep_the_same_rows(alloc: Global, one: &Run, other: &Run, cut: Day) -> Result<bool, NoMemory>
    ensures { result ≡ Ok true → kept_of one.now (Some cut) ≡ kept_of other.now (Some cut) }
{
    if stops_before(&one.close, cut) || stops_before(&other.close, cut) {
        return Ok(false);
    }
    let rows = rows_before(alloc, one, cut)?;
    let others = rows_before(alloc, other, cut)?;
    Ok(have_the_same(&rows, &others))
}

/// Whether a run stops before a day.
fn stops_before(close: &Close, cut: Day) -> bool
    ensures { result ≡ comes_before (stop_day close.now) (Some cut) }
{
    match close {
        Close::End => false,
        Close::Missing { day, .. } | Close::Overflow { day, .. } => *day < cut,
    }
}

/// The rows of a run that are dated before a day.
fn rows_before(alloc: Global, run: &Run, day: Day) -> Result<Rows, NoMemory>
    ensures { IfOk result (λ rows. rows ≡ rows_before day run.now) }
{
    let mut rows = Rows::new(alloc);
    'rows: for place in 0..run.rows.count() {
        push_before(&mut rows, &run.rows.row(place), day)?;
    }
    Ok(rows)
}

/// Adds a row that is dated before a day.
fn push_before(rows: &mut Rows, row: &Row, day: Day) -> Result<(), NoMemory>
    ensures { OnOk result (rows.new ≡ rows.old ++ filter (λ r. int_lt r.day day) (row.now ∷ [])) }
{
    if is_before(row, day) {
        rows.push(&row.head(), &row.state)?;
    }
    Ok(())
}

fn is_before(row: &Row, day: Day) -> bool
    ensures { result ≡ int_lt row.now.day day }
{
    row.day < day
}

/// Whether two runs are the same.
pub fn are_same(one: &Run, other: &Run) -> bool
    ensures { result ≡ true → one.now ≡ other.now }
{
    one.close == other.close && have_the_same(&one.rows, &other.rows)
}

/// Whether two lists have the same rows.
fn have_the_same(one: &Rows, other: &Rows) -> bool
    ensures { result ≡ true → one.now ≡ other.now }
{
    let count = one.count();
    if count != other.count() {
        return false;
    }
    'rows: for place in 0..count {
        if !is_same_row(&one.row(place), &other.row(place)) {
            return false;
        }
    }
    true
}

fn is_same_row(one: &Row, other: &Row) -> bool
    ensures { result ≡ true → one.now ≡ other.now }
{
    is_same_type(one.kind, other.kind)
        && one.day == other.day
        && one.currency == other.currency
        && one.payoff == other.payoff
        && is_same_state(&one.state, &other.state)
}

fn is_same_type(one: EventType, other: EventType) -> bool
    ensures { result ≡ true → one ≡ other }
{
    one == other
}

fn is_same_state(one: &State, other: &State) -> bool
    ensures { result ≡ true → one.now ≡ other.now }
{
    is_same_day(one.sd, other.sd)
        && is_same_day(one.md, other.md)
        && is_same_day(one.xd, other.xd)
        && have_the_same_amounts(one, other)
        && have_the_same_factors(one, other)
}

fn have_the_same_amounts(one: &State, other: &State) -> bool
    ensures { result ≡ true → (one.now.nt ≡ other.now.nt) × (one.now.ipnr ≡ other.now.ipnr) × (one.now.ipac ≡ other.now.ipac)
        × (one.now.ipnr2 ≡ other.now.ipnr2) × (one.now.ipac2 ≡ other.now.ipac2) × (one.now.feac ≡ other.now.feac) }
{
    one.nt == other.nt
        && one.ipnr == other.ipnr
        && one.ipac == other.ipac
        && one.ipnr2 == other.ipnr2
        && one.ipac2 == other.ipac2
        && one.feac == other.feac
}

fn have_the_same_factors(one: &State, other: &State) -> bool
    ensures { result ≡ true → (one.now.nsc ≡ other.now.nsc) × (one.now.isc ≡ other.now.isc) × (one.now.ipcb ≡ other.now.ipcb)
        × (one.now.prnxt ≡ other.now.prnxt) × (one.now.xa ≡ other.now.xa) }
{
    one.nsc == other.nsc
        && one.isc == other.isc
        && one.ipcb == other.ipcb
        && one.prnxt == other.prnxt
        && one.xa == other.xa
}

fn is_same_day(one: Option<Day>, other: Option<Day>) -> bool
    ensures { result ≡ true → one ≡ other }
{
    match (one, other) {
        (None, None) => true,
        (Some(one), Some(other)) => one == other,
        _ => false,
    }
}
