//! Several calls of a board, one after another, as they are made in one turn.
ghost use Rattle.std.specs.Prelude.{◌≡◌, ◌<◌, true, [], ◌++◌, List, All, IfErr, IfOk, count_by, vec_capacity};
ghost use Rattle.act_model.specs.Journal.{appends_entry};
ghost use Rattle.act_board.specs.Calls.{IsOf};
ghost use Rattle.act_history.specs.History.{IsPresent, and_then};
ghost use Rattle.act_keeping.specs.Work.{Work};
ghost use Rattle.act_model.specs.declared.journal.Line.{Line};
ghost use Rattle.act_desk.specs.Calls.{Finishes};
ghost use Rattle.act_desk.specs.Making.{asks, asks_known};
ghost use Rattle.act_desk.specs.Turns.{ClaimsSome, FinishesAndClaims, FromLast, HandsOut, InOrder, Makes, Refuses, mark_of};

use crate::outcome::{Claimed, Made, StepFault};
use act_board::{Board, Claim, Done, Task};
use act_model::{Line, Step};
use act_num::NoMemory;

/// How many lines ask.
pub(crate) fn asks_in(lines: &[Line]) -> usize
    ensures { result ≡ count_by asks lines.now }
{
    lines
        .iter()
        .filter(|line| matches!(line.step, Step::Ask(_)))
        .count()
}

/// Makes the steps of a caller's lines, in their order, up to the first that is refused.
pub(crate) fn make_each(board: &mut Board, caller: u32, lines: &[Line]) -> Made
    requires present { IsPresent board.old caller }
    requires entries { All (λ (line : Line). appends_entry line.step ≡ true) lines.now }
    requires known { All (λ (line : Line). asks_known board.old.portfolio.names line.step ≡ true) lines.now }
    ensures { Makes caller lines.now result board.old board.new }
{
    for place in 0..lines.len() {
        if let Err(fault) = make_step(board, caller, lines[place].step) {
            return Made {
                steps: place,
                fault: Some(fault),
            };
        }
    }
    Made {
        steps: lines.len(),
        fault: None,
    }
}

/// Makes a caller's step.
fn make_step(board: &mut Board, caller: u32, step: Step) -> Result<(), StepFault>
    requires present { IsPresent board.old caller }
    requires entry { appends_entry step ≡ true }
    requires known { asks_known board.old.portfolio.names step ≡ true }
    ensures made { IfOk result (λ _. board.new ≡ and_then board.old (mark_of caller step)) }
    ensures refused { IfErr result (λ fault. Refuses caller step fault board.old) }
    ensures unchanged { IfErr result (λ _. board.new ≡ board.old) }
{
    match step {
        Step::Append(entry) => match board.append(caller, entry) {
            Ok(_) => Ok(()),
            Err(fault) => Err(StepFault::Append(fault)),
        },
        Step::Ask(asked) => match board.ask(caller, asked) {
            Ok(_) => Ok(()),
            Err(fault) => Err(StepFault::Ask(fault)),
        },
    }
}

/// Takes evaluations that were made, the last first.
pub(crate) fn finish_each(board: &mut Board, dones: &mut Vec<Done>)
    requires { All (IsOf board.old) dones.old.items }
    ensures finished { FromLast Finishes dones.old.items board.old board.new }
    ensures none { dones.new.items ≡ [] }
{
    while let Some(done) = dones.pop() {
        board.finish(done);
    }
}

/// Takes evaluations that were made, and hands out others.
pub(crate) fn finish_and_claim(
    board: &mut Board,
    dones: &mut Vec<Done>,
    tasks: &mut Vec<Task>,
    threads: u32,
) -> Result<Claimed, NoMemory>
    requires dones { All (IsOf board.old) dones.old.items }
    requires none { tasks.old.items ≡ [] }
    requires room { 0 < vec_capacity tasks.old }
    ensures turn { FinishesAndClaims dones.old.items tasks.new.items result board.old board.new }
    ensures finished { dones.new.items ≡ [] }
{
    finish_each(board, dones);
    claim_some(board, tasks, threads)
}

/// Hands out the evaluations that are next: one, and as many more as leave the other threads, of which there are so many, as many
/// each.
fn claim_some(board: &mut Board, tasks: &mut Vec<Task>, threads: u32) -> Result<Claimed, NoMemory>
    requires none { tasks.old.items ≡ [] }
    requires room { 0 < vec_capacity tasks.old }
    ensures { ClaimsSome tasks.new.items result board.old board.new }
{
    match board.claim()? {
        Claim::Task(task) => {
            tasks.push_reserved(task);
            let more = board.claimable() / (2 * threads as usize + 1);
            claim_more(board, tasks, more);
            Ok(Claimed::Tasks)
        }
        Claim::Idle => Ok(Claimed::Idle),
        Claim::Ended => Ok(Claimed::Ended),
        Claim::GivenUp => Ok(Claimed::GivenUp),
    }
}

/// Hands out as many evaluations more, where there are as many and there is room for them.
fn claim_more(board: &mut Board, tasks: &mut Vec<Task>, more: usize)
    ensures { (works : List Work) × (tasks.new.items ≡ tasks.old.items ++ works) × InOrder HandsOut works board.old board.new }
{
    for _ in 0..more {
        if tasks.len() == tasks.capacity() {
            return;
        }
        match board.claim() {
            Ok(Claim::Task(task)) => tasks.push_reserved(task),
            Ok(Claim::Idle) => return,
            Ok(Claim::Ended) => return,
            Ok(Claim::GivenUp) => return,
            Err(NoMemory) => return,
        }
    }
}
