//! A caller, which makes calls of a desk.
ghost use Rattle.std.specs.Prelude.{◌≡◌, ◌<◌, ◌≤◌, true, Ok, IfOk, IfSome, IfNone};
ghost use Rattle.act_model.specs.Journal.{is_known};
ghost use Rattle.act_model.specs.Observed.{is_entry};
ghost use Rattle.act_model.specs.declared.journal.Step.TheVariants.{Ask};
ghost use Rattle.act_turn.specs.Standing.{IsFree};
ghost use Rattle.act_board.specs.declared.outcome.Claim.TheVariants as claims;
ghost use Rattle.cases_desks.specs.Caller.{Plays, asked_of, had_of};

use crate::heard::Heard;
use act_board::{AskFault, Claim, Collected, Done, Task};
use act_desk::{Context, Desk, DeskPass};
use act_io::NoGate;
use act_model::{Answer, Asked, Obs, Step};
use act_num::{NoMemory, Steps};
use act_portfolio::Portfolio;
use std::alloc::Global;
use std::marker::Brand;
use std::sync::Wait;
use std::sync::ledger::{Blank, Ledger};

/// The most asks of a caller that are open at a time.
const MOST_OPEN: u32 = 256;

/// Where calls are made: a desk, and its portfolio.
#[derive(Drop)]
pub struct At<'a, R> {
    pub context: &'a Context<'a, R, NoGate>,
    pub desk: &'a Desk,
    pub portfolio: &'a Portfolio,
    ghost of_desk: { portfolio.now ≡ desk.now.portfolio },
}

/// A caller that hasn't left.
#[derive(Drop)]
pub struct Caller<'a> {
    /// The number of its pass.
    pub number: u32,
    /// How many of its asks are open.
    pub open_asks: u32,
    /// What it was told.
    pub heard: Heard<'a>,
}

impl Caller<'_> {
    /// Appends an entry.
    pub fn append<R: Wait>(&mut self, at: &At<'_, R>, pass: &mut DeskPass, entry: Obs)
        requires plays { Plays at.now.desk.now pass.old self.old.number self.old.open_asks }
        requires entry { is_entry entry ≡ true }
        ensures { Plays at.now.desk.now pass.new self.new.number self.new.open_asks }
    {
        let step = appending(&entry);
        let answer = at.desk.append(at.context.rt, pass, self.number, entry);
        self.heard.step(step, answer);
    }

    /// Asks for what the portfolio has, where it has so few asks open that it may.
    pub fn ask<R: Wait>(&mut self, at: &At<'_, R>, pass: &mut DeskPass, asked: Asked)
        requires { Plays at.now.desk.now pass.old self.old.number self.old.open_asks }
        ensures { Plays at.now.desk.now pass.new self.new.number self.new.open_asks }
    {
        if self.open_asks < MOST_OPEN && is_named(at.portfolio, asked) {
            let answer = at.desk.ask(at.context.rt, pass, self.number, asked);
            self.open_asks += asks_made(&answer);
            self.heard
                .step(Step::Ask(asked), answer.map(|number| u64::from(number)));
        }
    }

    /// Claims a task and makes it, if there is one.
    pub fn work<R: Wait>(&mut self, at: &At<'_, R>, pass: &mut DeskPass)
        requires { Plays at.now.desk.now pass.old self.old.number self.old.open_asks }
        ensures { Plays at.now.desk.now pass.new self.new.number self.new.open_asks }
    {
        let claim = at.desk.claim(at.context.rt, pass);
        if let Some(task) = task_of(claim, &mut self.heard) {
            match made::<Brand>(at.context.alloc, task, at.portfolio, Blank::new(1)) {
                Ok(done) => at.desk.finish(at.context.rt, pass, done),
                Err(task) => at.desk.give_up(at.context.rt, pass, Some(task)),
            }
        }
    }

    /// Collects the answer to its oldest open ask, if it has one and the answer is ready. It answers whether it did.
    pub fn collect<R: Wait>(&mut self, at: &At<'_, R>, pass: &mut DeskPass) -> bool
        requires { Plays at.now.desk.now pass.old self.old.number self.old.open_asks }
        ensures { Plays at.now.desk.now pass.new self.new.number self.new.open_asks }
    {
        if self.open_asks == 0 {
            return false;
        }
        let collected = at.desk.collect(at.context.rt, pass, self.number);
        match answer_of(collected, &mut self.heard) {
            Some(answer) => {
                self.open_asks -= 1;
                self.heard
                    .answer(answer.caller, u64::from(answer.number), &answer);
                true
            }
            None => false,
        }
    }

    /// Collects the answers to all open asks, and makes tasks meanwhile.
    pub fn collect_all<R: Wait>(&mut self, at: &At<'_, R>, pass: &mut DeskPass)
        requires { Plays at.now.desk.now pass.old self.old.number self.old.open_asks }
        ensures { Plays at.now.desk.now pass.new self.new.number self.new.open_asks }
    {
        for _ in at.context.rt.forever() {
            if self.open_asks == 0 || self.heard.is_over {
                break;
            }
            if !self.collect(at, pass) {
                self.work(at, pass);
            }
        }
    }

    /// Leaves. Where it has open asks it gives the board up first.
    pub fn leave<R: Wait>(&self, at: &At<'_, R>, pass: &mut DeskPass)
        requires { Plays at.now.desk.now pass.old self.now.number self.now.open_asks }
        ensures { IsFree at.now.desk.now.id pass.new }
    {
        if self.open_asks == 0 {
            at.desk.leave(at.context.rt, pass, self.number);
        } else {
            at.desk.give_up(at.context.rt, pass, None);
            at.desk.leave(at.context.rt, pass, self.number);
        }
    }
}

/// How many asks a caller has made by what it was answered.
fn asks_made(answer: &Result<u32, AskFault>) -> u32
    ensures asked { result ≡ asked_of answer.now }
    ensures one { result ≤ 1 }
{
    match answer {
        Ok(_) => 1,
        Err(_) => 0,
    }
}

/// The step that appends an entry.
fn appending(entry: &Obs) -> Step {
    Step::Append(*entry)
}

/// Makes a task, with a counter of its own.
fn made<L: Ledger>(
    alloc: Global,
    task: Task,
    portfolio: &Portfolio,
    blank: Blank,
) -> Result<Done, Task>
    requires name { blank.name ≡ L.name }
    requires parts { blank.parts ≡ L.parts }
    requires some_parts { 0 < L.parts }
    requires portfolio { portfolio.now ≡ task.portfolio }
    ensures { IfOk result (λ done. done ≡ task) }
{
    let mut steps = Steps::<L>::new(blank);
    task.work(alloc, portfolio, &mut steps)
}

/// Whether what is asked for is there.
pub fn is_named(portfolio: &Portfolio, asked: Asked) -> bool
    ensures { result ≡ true → is_known portfolio.now.names (Ask asked) ≡ true }
{
    match asked {
        Asked::All => true,
        Asked::One(contract) => contract < portfolio.named(),
    }
}

/// The task of a claim, if there is one.
pub fn task_of(claim: Result<Claim, NoMemory>, heard: &mut Heard<'_>) -> Option<Task>
    ensures { IfSome result (λ task. claim ≡ Ok (claims.Task task)) }
{
    match claim {
        Ok(Claim::Task(task)) => return Some(task),
        Ok(Claim::Idle | Claim::Ended) => {}
        Ok(Claim::GivenUp) => heard.over("claim: GivenUp"),
        Err(_) => heard.over("claim: NoMemory"),
    }
    None
}

/// The answer that was collected, if there is one.
fn answer_of(collected: Result<Collected, NoMemory>, heard: &mut Heard<'_>) -> Option<Answer>
    ensures some { IfSome result (λ _. had_of collected ≡ 1) }
    ensures none { IfNone result (had_of collected ≡ 0) }
{
    match collected {
        Ok(Collected::Ready(answer)) => return Some(answer),
        Ok(Collected::NotYet) => {}
        Ok(Collected::GivenUp) => heard.over("collect: GivenUp"),
        Err(_) => heard.over("collect: NoMemory"),
    }
    None
}
