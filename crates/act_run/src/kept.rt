//! What is kept of a run.
ghost use Rattle.std.specs.Prelude.{◌≡◌, ◌≤◌, false, int_lt, length, None, take, true, IfSome};
ghost use Rattle.std.specs.List.{filter};
ghost use Rattle.act_profile.specs.Kept.{kept_of};
ghost use Rattle.act_run.specs.Resuming.{kept_by};
ghost use Rattle.act_profile.specs.DayOrder.{AreInDayOrder};

use crate::limit::{comes_before, stop_day};
use act_date::Day;
use act_model::{Row, Rows, Run};

/// How far from the end, in rows, the first look is.
const LATE: usize = 16;

/// Whether the whole run is kept under a cut: there is none, or the run stops before it.
pub fn is_kept_whole(run: &Run, cut: Option<Day>) -> bool
    ensures whole { result ≡ true → kept_of run.now cut ≡ kept_by run.now None }
    ensures part { result ≡ false → (kept_of run.now cut).close ≡ None }
{
    match cut {
        Some(cut) => comes_before(stop_day(&run.close), Some(cut)),
        None => true,
    }
}

/// How many rows are kept of a run under a cut: those before it, and all where the whole run is kept.
pub fn kept_rows(run: &Run, cut: Option<Day>) -> usize
    requires in_day_order { AreInDayOrder run.now.rows }
    ensures rows { result ≡ length (kept_of run.now cut).rows }
    ensures within { result ≤ length run.now.rows }
{
    match kept_count(run, cut) {
        Some(count) => count,
        None => run.rows.count(),
    }
}

/// How many of its first rows are kept of a run under a cut; None where the whole run is.
pub(crate) fn kept_count(run: &Run, cut: Option<Day>) -> Option<usize>
    requires { AreInDayOrder run.now.rows }
    ensures kept { kept_of run.now cut ≡ kept_by run.now result }
    ensures within { IfSome result (λ count. count ≤ length run.now.rows) }
{
    let cut = cut?;
    if comes_before(stop_day(&run.close), Some(cut)) {
        None
    } else {
        Some(count_before(&run.rows, cut))
    }
}

/// How many rows are dated before a day, where they stand by their days: a binary search, which looks first near the end, since
/// mostly only the last rows change.
fn count_before(rows: &Rows, day: Day) -> usize
    requires { AreInDayOrder rows.now }
    ensures count { filter (λ row. int_lt row.day day) rows.now ≡ take result rows.now }
    ensures within { result ≤ length rows.now }
{
    let mut from = 0;
    let mut to = rows.count();
    let mut look = to.saturating_sub(LATE);
    'rows: while from < to {
        if is_before(&rows.row(look), day) {
            from = look + 1;
        } else {
            to = look;
        }
        look = from + (to - from) / 2;
    }
    from
}

/// Whether a row is dated before a day.
fn is_before(row: &Row, day: Day) -> bool
    ensures { result ≡ int_lt row.now.day day }
{
    row.day < day
}
