//! A desk whose callers and workers are threads.
ghost use Rattle.std.specs.Prelude.{◌≡◌, ◌+◌, ◌<◌, ◌≤◌, length, replicate, IfSome};
ghost use Rattle.std.specs.Arc.{arc_value};
ghost use Rattle.act_turn.specs.Standing.{IsFree};
ghost use Rattle.cases_desks.specs.Caller.{IsFirst, Plays};

use crate::caller::{At, Caller};
use crate::draws::Draws;
use crate::heard::{Heard, wanted};
use crate::sessions::{play, script_of};
use act_board::Board;
use act_desk::{Context, Desk, DeskPass};
use act_io::NoGate;
use act_model::{Answer, Asked, Item, Names};
use act_portfolio::Portfolio;
use act_session::Session;
use cases_rows::Case;
use std::alloc::Global;
use std::sync::{Arc, Mutex, Wait};
use std::thread::{Threads, for_each_mut};

/// Makes random calls of a desk, with a thread for each caller and worker. Then one caller makes the steps of its journal anew, and
/// what each was told is compared with what it is to be told by that. How many callers and workers there are is given, and how many
/// calls each caller draws.
pub fn drive_told<R: Threads + Wait + Sync>(
    rt: &R,
    case: &mut Case<'_>,
    portfolio: &Arc<Portfolio, Global>,
    names: &Names,
) {
    let (callers, workers, calls) = (case.count(), case.count(), case.count());
    let heards = heards(case.alloc, names, callers);
    if heards.is_empty() || heards.len() > 16 || workers > 64 || calls > 60_000 {
        return case.fail("a size is out of range, or memory ran out");
    }
    let context = Context {
        rt,
        alloc: case.alloc,
        gate: &NoGate,
    };
    match driven(&context, portfolio, names, &heards, workers, calls) {
        Some(board) => replay_told(rt, case, portfolio, names, &heards, board.journal()),
        None => case.fail("memory ran out"),
    }
}

/// For each caller what it is told: nothing. Where memory runs out there are fewer.
fn heards<'a>(alloc: Global, names: &'a Names, callers: u32) -> Vec<Mutex<Heard<'a>>> {
    let mut heards = Vec::new(alloc);
    for _ in 0..callers {
        if heards.push(Mutex::new(Heard::new(alloc, names))).is_err() {
            break;
        }
    }
    heards
}

/// The board of a desk with a thread for each caller and worker.
fn driven<'a, R: Threads + Wait + Sync>(
    context: &Context<'_, R, NoGate>,
    portfolio: &Arc<Portfolio, Global>,
    names: &'a Names,
    heards: &[Mutex<Heard<'a>>],
    workers: u32,
    calls: u32,
) -> Option<Board>
    requires some { 1 ≤ length heards.now }
    requires few { length heards.now ≤ 16 }
    requires few_workers { workers ≤ 64 }
    requires few_calls { calls ≤ 60_000 }
{
    let own = Arc::try_clone(portfolio).ok()?;
    let Some(quotas) = quotas_of(context.alloc, heards.len(), calls) else {
        return None;
    };
    let Ok((desk, mut passes)) = Desk::new(context.alloc, own, &quotas, workers) else {
        return None;
    };
    let count = passes.len();
    for_each_mut(
        context.rt,
        passes.as_mut_slice(),
        count,
        &|i: usize, pass: &mut DeskPass|
            requires { (i < 80) × IsFirst desk (length heards.now) (i + 1) pass.now × (arc_value portfolio.now ≡ desk.portfolio) }
            ensures { IsFree desk.id pass.exit.now }
        {
            let at = At {
                context,
                desk: &desk,
                portfolio,
            };
            act(&at, pass, i as u32 + 1, names, heards, calls);
        },
    );
    Some(desk.close(passes))
}

/// For each caller as many entries as it draws calls.
pub fn quotas_of(alloc: Global, callers: usize, calls: u32) -> Option<Vec<u64>>
    ensures quotas { IfSome result (λ quotas. quotas.items ≡ replicate callers calls) }
    ensures count { IfSome result (λ quotas. length quotas.items ≡ callers) }
{
    vec![in alloc; u64::from(calls); callers].ok()
}

/// What the actor of a number does: a caller draws its calls, collects what is open, and leaves; a worker makes tasks until no more
/// will come.
fn act<'a, R: Wait>(
    at: &At<'_, R>,
    pass: &mut DeskPass,
    number: u32,
    names: &'a Names,
    heards: &[Mutex<Heard<'a>>],
    calls: u32,
)
    requires { IsFirst at.now.desk.now (length heards.now) number pass.old }
    ensures { IsFree at.now.desk.now.id pass.new }
{
    if number as usize <= heards.len() {
        let mut caller = Caller {
            number,
            open_asks: 0,
            heard: Heard::new(at.context.alloc, names),
        };
        call(at, pass, &mut caller, calls);
        *heards[number as usize - 1].lock(at.context.rt) = caller.heard;
    } else {
        let _ = at.desk.worker(at.context, pass);
    }
}

/// Draws so many calls, collects what is open, and leaves.
fn call<R: Wait>(at: &At<'_, R>, pass: &mut DeskPass, caller: &mut Caller<'_>, calls: u32)
    requires { Plays at.now.desk.now pass.old caller.old.number caller.old.open_asks }
    ensures { IsFree at.now.desk.now.id pass.new }
{
    let mut draws = Draws {
        seed: u64::from(caller.number),
    };
    for _ in 0..calls {
        draw(at, pass, caller, &mut draws);
    }
    caller.collect_all(at, pass);
    caller.leave(at, pass);
}

/// Draws a call, and makes it.
fn draw<R: Wait>(at: &At<'_, R>, pass: &mut DeskPass, caller: &mut Caller<'_>, draws: &mut Draws)
    requires { Plays at.now.desk.now pass.old caller.old.number caller.old.open_asks }
    ensures { Plays at.now.desk.now pass.new caller.new.number caller.new.open_asks }
{
    match draws.below(8) {
        0 => {
            if let Some(entry) = draws.entry() {
                caller.append(at, pass, entry);
            }
        }
        1 | 2 => {
            let asked = match draws.below(5) {
                4 => Asked::All,
                contract => Asked::One(contract),
            };
            caller.ask(at, pass, asked);
        }
        3 | 4 => {
            let _ = caller.collect(at, pass);
        }
        _ => caller.work(at, pass),
    }
}

/// Lets one caller make the steps of a journal anew, and compares.
fn replay_told<R: Threads + Wait + Sync>(
    rt: &R,
    case: &mut Case<'_>,
    portfolio: &Arc<Portfolio, Global>,
    names: &Names,
    heards: &[Mutex<Heard<'_>>],
    items: &[Item],
) {
    match replayed(rt, case.alloc, portfolio, items) {
        Some(replayed) => {
            for answers in &replayed.answers {
                differences_told(rt, case, names, heards, items, answers);
            }
        }
        None => case.fail("memory ran out, or there is a step that wasn't drawn"),
    }
}

/// What comes of the steps of a journal as the script of one caller.
pub fn replayed<R: Threads + Wait + Sync>(
    rt: &R,
    alloc: Global,
    portfolio: &Arc<Portfolio, Global>,
    items: &[Item],
) -> Option<Session<Answer>> {
    let mut steps = Vec::with_capacity(alloc, items.len()).ok()?;
    for item in items {
        steps.push(item.step).ok()?;
    }
    let script = script_of(alloc, portfolio, &steps)?;
    play(rt, alloc, portfolio, &[script])
}

/// Tells how many steps and answers there are, and how many callers were told otherwise.
fn differences_told<R: Wait>(
    rt: &R,
    case: &mut Case<'_>,
    names: &Names,
    heards: &[Mutex<Heard<'_>>],
    items: &[Item],
    answers: &[Answer],
) {
    let (mut caller, mut differ) = (0_u32, 0_u32);
    for heard in heards {
        caller = caller.saturating_add(1);
        let wanted = wanted(case.alloc, names, caller, items, answers);
        if !heard.lock(rt).is_same(&wanted) {
            differ = differ.saturating_add(1);
        }
    }
    case.value(items.len());
    case.text(" steps, ");
    case.value(answers.len());
    case.text(" answers, ");
    case.value(differ);
    case.text(" callers differ");
}
