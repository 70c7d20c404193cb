//! Sessions of callers alone: where no worker is, they make their evaluations themselves.
ghost use Rattle.std.specs.Prelude.{◌≡◌, ◌≤◌, true, IfSome};
ghost use Rattle.std.specs.Arc.{arc_value};
ghost use Rattle.act_model.specs.Journal.{appends_entry};
ghost use Rattle.act_desk.specs.Making.{asks_known};
ghost use Rattle.act_session.specs.Playing.{ArePlayable, lines_of};
ghost use Rattle.cases_desks.specs.Script.{IsShort};

use crate::caller::is_named;
use act_board::Board;
use act_date::Day;
use act_desk::Context;
use act_io::NoGate;
use act_model::{Answer, Asked, Close, Item, Line, Obs, ObsKind, Step};
use act_num::Fixed;
use act_portfolio::Portfolio;
use act_session::{Session, session};
use cases_rows::Case;
use std::alloc::Global;
use std::sync::{Arc, Wait};
use std::thread::Threads;

/// The most steps of a script.
const MOST_STEPS: usize = 500_000;

/// Tells what two callers play without workers, so many times: only what differs from the time before. Each appends a rate of its
/// own for a day, and then asks.
pub fn sessions_told<R: Threads + Wait + Sync>(
    rt: &R,
    case: &mut Case<'_>,
    portfolio: &Arc<Portfolio, Global>,
) {
    let count = case.count();
    let Some(day) = case.day() else {
        return;
    };
    let one = steps(&day, case.fixed());
    let other = steps(&day, case.fixed());
    let mut before = [0; 3];
    for _ in 0..count {
        let counts = counts(rt, case.alloc, portfolio, &one, &other);
        if counts != before {
            counts_told(case, counts);
            before = counts;
        }
    }
}

fn counts_told(case: &mut Case<'_>, counts: [usize; 3]) {
    let [steps, callers, right] = counts;
    case.next("; ");
    case.value(steps);
    case.text(" steps of ");
    case.value(callers);
    case.text(" callers, ");
    case.value(right);
    case.text(" answers right");
}

/// A rate of a day, and an ask for all.
fn steps(day: &Day, value: Fixed) -> [Step; 2] {
    [Step::Append(rate(day, value)), Step::Ask(Asked::All)]
}

fn rate(day: &Day, value: Fixed) -> Obs {
    Obs::Rate {
        code: 0,
        day: *day,
        value,
    }
}

/// How many steps the journal of two scripts has, how many callers have answers, and how many of these have one that is right. Where
/// memory runs out there is nothing.
fn counts<R: Threads + Wait + Sync>(
    rt: &R,
    alloc: Global,
    portfolio: &Arc<Portfolio, Global>,
    one: &[Step],
    other: &[Step],
) -> [usize; 3] {
    match two_played(rt, alloc, portfolio, one, other) {
        Some(played) => {
            let items = played.board.journal();
            [
                items.len(),
                played.answers.len(),
                right(items, &played.answers),
            ]
        }
        None => [0; 3],
    }
}

fn two_played<R: Threads + Wait + Sync>(
    rt: &R,
    alloc: Global,
    portfolio: &Arc<Portfolio, Global>,
    one: &[Step],
    other: &[Step],
) -> Option<Session<Answer>> {
    let one = script_of(alloc, portfolio, one)?;
    let other = script_of(alloc, portfolio, other)?;
    play(rt, alloc, portfolio, &[one, other])
}

/// How many callers have one answer, and it is right by the journal.
fn right(items: &[Item], answers: &[Vec<Answer>]) -> usize {
    let (mut caller, mut right) = (0_u32, 0_usize);
    for own in answers {
        caller = caller.saturating_add(1);
        if let [answer] = own.as_slice() {
            let (version, rate) = seen_by(items, caller);
            if is_right(answer, caller, version, rate) {
                right = right.saturating_add(1);
            }
        }
    }
    right
}

/// How many rates stand before a caller's ask, and the units of the last of them.
fn seen_by(items: &[Item], caller: u32) -> (u64, i128) {
    let (mut version, mut last) = (0_u64, 0_i128);
    for item in items {
        match item.step {
            Step::Append(Obs::Rate { value, .. }) => {
                version = version.saturating_add(1);
                last = value.units();
            }
            _ if item.caller == caller => break,
            _ => {}
        }
    }
    (version, last)
}

/// Whether it is the caller's first answer, at this version, and has five rows, of which the fourth pays a year's interest of 1,000 by
/// this rate.
fn is_right(answer: &Answer, caller: u32, version: u64, rate: i128) -> bool {
    let [(_, run)] = answer.runs.as_slice() else {
        return false;
    };
    let is_whole = run.close == Close::End && run.rows.count() == 5;
    (answer.caller, answer.number, answer.version) == (caller, 1, version)
        && is_whole
        && run.rows.row(3).payoff.units() == rate.saturating_mul(1_000)
}

/// The script of these steps, at most 500,000. None where there is another step than callers draw, or memory runs out.
pub fn script_of(alloc: Global, portfolio: &Portfolio, steps: &[Step]) -> Option<Vec<Line>>
    ensures { IfSome result (λ lines. IsShort portfolio.now lines.items) }
{
    if steps.len() > MOST_STEPS {
        return None;
    }
    let mut lines = Vec::new(alloc);
    for step in steps {
        if !may_play(portfolio, step) {
            return None;
        }
        lines
            .push(Line {
                step: *step,
                line: 1,
            })
            .ok()?;
    }
    Some(lines)
}

/// Whether a step is such as callers draw, and what it asks for is there.
fn may_play(portfolio: &Portfolio, step: &Step) -> bool
    ensures entry { result ≡ true → appends_entry step.now ≡ true }
    ensures known { result ≡ true → asks_known portfolio.now.names step.now ≡ true }
{
    match step {
        Step::Append(Obs::Rate { .. }) => true,
        Step::Append(Obs::Event { kind, .. }) => *kind == ObsKind::PP,
        Step::Ask(asked) => is_named(portfolio, *asked),
    }
}

/// What scripts come to without workers. None where memory runs out.
pub fn play<R: Threads + Wait + Sync>(
    rt: &R,
    alloc: Global,
    portfolio: &Arc<Portfolio, Global>,
    scripts: &[Vec<Line>],
) -> Option<Session<Answer>>
    requires { ArePlayable (arc_value portfolio.now) (lines_of scripts.now) }
{
    let own = Arc::try_clone(portfolio).ok()?;
    let context = Context {
        rt,
        alloc,
        gate: &NoGate,
    };
    session(&context, own, scripts, 0).ok()
}
