//! Evaluations that are claimed, made outside the turn, and handed in.
ghost use Rattle.std.specs.Prelude.{◌≡◌, ◌<◌, true, false, All, IfErr, IfOk};
ghost use Rattle.act_turn.specs.Standing.{IsFree};
ghost use Rattle.act_board.specs.Calls.{IsOf};
ghost use Rattle.act_history.specs.History.{History};
ghost use Rattle.act_keeping.specs.Work as evaluation;
ghost use Rattle.act_desk.specs.Making.{HasWatched, IsOver};
ghost use Rattle.act_desk.specs.Step.{HasSeen};

use crate::context::Context;
use crate::desk::{Desk, DeskPass};
use crate::outcome::Claimed;
use act_board::{Done, Task};
use act_io::Gate;
use act_num::{NoMemory, Steps};
use act_portfolio::Portfolio;
use std::marker::Brand;
use std::sync::Wait;
use std::sync::ledger::{Blank, Ledger};

/// How many evaluations a thread claims at most in one turn.
const MOST_TASKS: usize = 16;

/// What came of looking for work.
#[derive(Clone, Copy, PartialEq, Eq)]
pub(crate) enum Work {
    /// An evaluation was made.
    Made,
    /// None may be made now.
    None,
    /// None will come.
    Over,
}

impl Desk {
    /// Hands in what was made, claims the evaluations that are next, and makes them. Memory runs out here, or somebody has given up.
    pub(crate) fn work<R: Wait, G: Gate>(
        &self,
        context: &Context<'_, R, G>,
        pass: &mut DeskPass,
        dones: &mut Vec<Done>,
    ) -> Result<Work, NoMemory>
        requires free { IsFree self.now.id pass.old }
        requires portfolio { HasSeen pass.old (λ history. history.portfolio ≡ self.now.portfolio) }
        requires dones { HasSeen pass.old (λ history. All (IsOf history) dones.old.items) }
        ensures watched { HasWatched pass.old pass.new }
        ensures dones { IfOk result (λ _. HasSeen pass.new (λ history. All (IsOf history) dones.new.items)) }
        ensures over { IfOk result (λ work. work ≡ Work.Over → HasSeen pass.new IsOver) }
    {
        let mut tasks = Vec::with_capacity(context.alloc, MOST_TASKS)?;
        match self.finish_and_claim(context.rt, pass, dones, &mut tasks)? {
            Claimed::Tasks => {
                make_all(context, &self.portfolio, tasks, dones)?;
                Ok(Work::Made)
            }
            Claimed::Idle => Ok(Work::None),
            Claimed::Ended => Ok(Work::Over),
            Claimed::GivenUp => Err(NoMemory),
        }
    }
}

/// Makes evaluations, and adds them to those that were made.
fn make_all<R: Wait, G: Gate>(
    context: &Context<'_, R, G>,
    portfolio: &Portfolio,
    mut tasks: Vec<Task>,
    dones: &mut Vec<Done>,
) -> Result<(), NoMemory>
    requires tasks { All (λ (work : evaluation.Work). portfolio.now ≡ work.portfolio) tasks.items }
    ensures { IfOk result (λ _. (history : History) → All (IsOf history) tasks.items → All (IsOf history) dones.old.items → All (IsOf history) dones.new.items) }
{
    while let Some(task) = tasks.pop() {
        match gated::<Brand, R, G>(context, task, portfolio, Blank::new(1)) {
            Ok(done) => dones.push(done)?,
            Err(task) => {
                drop(task);
                return Err(NoMemory);
            }
        }
    }
    Ok(())
}

/// Makes an evaluation between the two calls of a gate, with a counter of its own.
fn gated<L: Ledger, R, G: Gate>(
    context: &Context<'_, R, G>,
    task: Task,
    portfolio: &Portfolio,
    blank: Blank,
) -> Result<Done, Task>
    requires name { blank.name ≡ L.name }
    requires parts { blank.parts ≡ L.parts }
    requires some_parts { 0 < L.parts }
    requires portfolio { portfolio.now ≡ task.portfolio }
    ensures { IfOk result (λ done. done ≡ task) }
{
    let mut steps = Steps::<L>::new(blank);
    let contract = task.contract();
    let version = task.version();
    context.gate.enter(contract, version);
    let made = task.work(context.alloc, portfolio, &mut steps);
    context.gate.left(contract, version);
    made
}
