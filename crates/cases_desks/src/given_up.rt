//! A desk that is given up with a task in hand.
ghost use Rattle.std.specs.Prelude.{◌≡◌};
ghost use Rattle.act_turn.specs.Standing.{IsFree};
ghost use Rattle.cases_desks.specs.Caller.{Plays};

use crate::caller::{At, Caller, task_of};
use crate::draws::Draws;
use crate::heard::Heard;
use act_desk::{Context, Desk, DeskPass};
use act_io::NoGate;
use act_model::{Asked, Names};
use act_portfolio::Portfolio;
use cases_rows::Case;
use std::alloc::Global;
use std::sync::{Arc, Wait};

/// Tells what a caller is told that appends an entry and asks, before and behind a worker that gives the board up with a task in hand;
/// then it claims, collects and leaves. Behind that stand the steps of the journal.
pub fn given_up_told<R: Wait>(
    rt: &R,
    case: &mut Case<'_>,
    portfolio: &Arc<Portfolio, Global>,
    names: &Names,
) {
    let mut caller = Caller {
        number: 1,
        open_asks: 0,
        heard: Heard::new(case.alloc, names),
    };
    match steps(rt, case.alloc, portfolio, &mut caller) {
        Some(steps) => {
            case.bytes_told(&caller.heard.steps.told);
            case.value(steps);
            case.text(" steps");
        }
        None => case.fail("memory ran out"),
    }
}

/// How many steps the journal has.
fn steps<R: Wait>(
    rt: &R,
    alloc: Global,
    portfolio: &Arc<Portfolio, Global>,
    caller: &mut Caller<'_>,
) -> Option<usize>
    requires number { caller.old.number ≡ 1 }
    requires none { caller.old.open_asks ≡ 0 }
{
    let own = Arc::try_clone(portfolio).ok()?;
    match Desk::new(alloc, own, &[2], 1) {
        Ok((desk, mut passes)) => {
            let context = Context {
                rt,
                alloc,
                gate: &NoGate,
            };
            let at = At {
                context: &context,
                desk: &desk,
                portfolio,
            };
            begin(&at, &mut passes[0], caller);
            give_up_task(&at, &mut passes[1], &mut caller.heard);
            go_on(&at, &mut passes[0], caller);
            let board = desk.close(passes);
            Some(board.journal().len())
        }
        Err(_) => None,
    }
}

/// Appends an entry, and asks for all.
fn begin<R: Wait>(at: &At<'_, R>, pass: &mut DeskPass, caller: &mut Caller<'_>)
    requires { Plays at.now.desk.now pass.old caller.old.number caller.old.open_asks }
    ensures { Plays at.now.desk.now pass.new caller.new.number caller.new.open_asks }
{
    let mut draws = Draws { seed: 1 };
    if let Some(entry) = draws.entry() {
        caller.append(at, pass, entry);
    }
    caller.ask(at, pass, Asked::All);
}

/// Claims a task, and gives the board up with it.
fn give_up_task<R: Wait>(at: &At<'_, R>, pass: &mut DeskPass, heard: &mut Heard<'_>)
    requires { IsFree at.now.desk.now.id pass.old }
    ensures { IsFree at.now.desk.now.id pass.new }
{
    let task = task_of(at.desk.claim(at.context.rt, pass), heard);
    heard.steps.text("a task is given up: ");
    heard.steps.value(task.is_some());
    heard.steps.text("\n");
    at.desk.give_up(at.context.rt, pass, task);
}

/// Appends an entry, asks for all, claims, collects and leaves.
fn go_on<R: Wait>(at: &At<'_, R>, pass: &mut DeskPass, caller: &mut Caller<'_>)
    requires { Plays at.now.desk.now pass.old caller.old.number caller.old.open_asks }
    ensures { IsFree at.now.desk.now.id pass.new }
{
    begin(at, pass, caller);
    caller.work(at, pass);
    let _ = caller.collect(at, pass);
    caller.leave(at, pass);
}
