//! A board that is driven: with what shows that its calls may be made.
ghost use Rattle.std.specs.Prelude.{◌≡◌, ◌<◌, ◌≤◌, [], true, false, length, replicate, IfOk, IfSome};
ghost use Rattle.std.specs.Arc.{arc_value};
ghost use Rattle.act_model.specs.Journal.{is_known};
ghost use Rattle.act_model.specs.declared.journal.Step.TheVariants as step;

use act_board::{AppendFault, AskFault, Board, Claim, Collected, Done, Task};
use act_date::Day;
use act_model::{Asked, Item, Obs};
use act_num::{NoMemory, Steps};
use act_portfolio::Portfolio;
use std::alloc::Global;
use std::collections::VecDeque;
use std::marker::{Brand, Model};
use std::sync::Arc;
use std::sync::ledger::{Blank, Ledger};

/// What a claim is answered.
#[derive(Clone, Copy)]
pub enum Claimed {
    /// The task of a contract at a version.
    Task(u32, u64),
    /// None now.
    Idle,
    /// None, and none will come.
    Ended,
    /// The board was given up.
    GivenUp,
}

/// A board, who has left it, whether it was given up, and the tasks that it has handed out and that are still at hand.
#[derive(Drop)]
pub struct Driven {
    board: Board,
    portfolio: Arc<Portfolio, Global>,
    left: Vec<bool>,
    tasks: VecDeque<Task>,
    given_up: bool,
}

impl Model for Driven {
    ghost use Rattle.std.specs.Arc.{arc_value};
    ghost use Rattle.act_history.specs.History.{History};
    ghost use Rattle.cases_boards.specs.Driven.{IsDriven};

    ghost Value = { History };

    ghost view = { λ d. d.board };

    ghost invariant = { λ d. IsDriven d.board (arc_value d.portfolio) d.left.items d.tasks.items d.given_up };
}

impl Driven {
    ghost use Rattle.std.specs.Prelude.{◌≡◌, ◌≤◌, [], true, length, sum, IfOk, IfSome};
    ghost use Rattle.std.specs.Arc.{arc_value};
    ghost use Rattle.act_model.specs.Observed.{is_entry};
    ghost use Rattle.act_history.specs.History.{IsPresent};

    /// A board over a portfolio, for callers with these quotas.
    fn new(
        alloc: Global,
        portfolio: &Arc<Portfolio, Global>,
        quotas: &[u64],
    ) -> Result<Driven, NoMemory>
        requires some { 1 ≤ length quotas.now }
        requires few { length quotas.now ≤ 16 }
        requires fits { sum quotas.now ≤ 1_048_576 }
        ensures portfolio { IfOk result (λ driven. driven.portfolio ≡ arc_value portfolio.now) }
    {
        let left = none_left(alloc, quotas)?;
        let own = Arc::try_clone(portfolio)?;
        let portfolio = Arc::try_clone(portfolio)?;
        let board = Board::new(alloc, own, quotas)?;
        Ok(Driven {
            board,
            portfolio,
            left,
            tasks: VecDeque::new(alloc),
            given_up: false,
        })
    }

    /// A board of the same portfolio on which nothing has happened, for one caller that may append so many entries.
    pub fn fresh(&self, alloc: Global, quota: u64) -> Option<Driven> {
        board(alloc, &self.portfolio, &[quota])
    }

    /// Whether a number is that of a caller who hasn't left.
    fn is_here(&self, caller: u32) -> bool
        ensures { result ≡ true → IsPresent self.now caller }
    {
        if caller == 0 {
            return false;
        }
        match self.left.get(caller as usize - 1) {
            Some(left) => !*left,
            None => false,
        }
    }

    /// The steps of all callers, one after another.
    pub fn journal(&self) -> &[Item] {
        self.board.journal()
    }

    /// How many entries its book has.
    pub fn version(&self) -> u64 {
        self.board.version()
    }

    /// How many asks of a caller are open, or None where there is no such caller or it has left.
    pub fn open_asks(&self, caller: u32) -> Option<u32> {
        if !self.is_here(caller) {
            return None;
        }
        Some(self.board.open_asks(caller))
    }

    /// For each contract, the day from which on the entries between two versions touch its cone, or None where none of them does.
    /// None where there are fewer entries, or memory runs out.
    pub fn cuts_between(&mut self, one: u64, other: u64) -> Option<Vec<Option<Day>>> {
        let version = self.board.version();
        if one > version || other > version {
            return None;
        }
        self.board.cuts_between(one, other).ok()
    }

    /// A caller appends an entry. None where it isn't here.
    pub fn append(&mut self, caller: u32, entry: Obs) -> Option<Result<u64, AppendFault>>
        requires entry { is_entry entry ≡ true }
    {
        if !self.is_here(caller) {
            return None;
        }
        Some(self.board.append(caller, entry))
    }

    /// A caller asks. None where it isn't here, or there is no contract of that number.
    pub fn ask(&mut self, caller: u32, asked: Asked) -> Option<Result<u32, AskFault>>
        ensures portfolio { self.new.portfolio ≡ self.old.portfolio }
    {
        if !self.is_here(caller) || !is_named(&self.portfolio, asked) {
            return None;
        }
        Some(self.board.ask(caller, asked))
    }

    /// Claims a task, which is at hand from here on.
    pub fn claim(&mut self) -> Result<Claimed, NoMemory>
        ensures portfolio { self.new.portfolio ≡ self.old.portfolio }
    {
        match self.board.claim()? {
            Claim::Task(task) => {
                let claimed = Claimed::Task(task.contract(), task.version());
                let Ok(()) = self.tasks.push_back(task) else {
                    return Err(NoMemory);
                };
                Ok(claimed)
            }
            Claim::Idle => Ok(Claimed::Idle),
            Claim::Ended => Ok(Claimed::Ended),
            Claim::GivenUp => Ok(Claimed::GivenUp),
        }
    }

    /// Makes the task at a place and hands it back. It answers which it was, or None where there is none or memory runs out.
    pub fn finish(&mut self, alloc: Global, place: usize) -> Option<(u32, u64)> {
        let task = self.tasks.swap_remove_back(place)?;
        let (contract, version) = (task.contract(), task.version());
        match worked::<Brand>(alloc, task, &self.portfolio, Blank::new(1)) {
            Ok(done) => {
                self.board.finish(done);
                Some((contract, version))
            }
            Err(task) => {
                drop(task);
                None
            }
        }
    }

    /// Makes the task at a place, which is over no entries, and hands it out. None where there is none or memory runs out.
    fn made(&mut self, alloc: Global, place: usize) -> Option<Done>
        ensures portfolio { IfSome result (λ done. done.portfolio ≡ self.old.portfolio) }
        ensures entries { IfSome result (λ done. done.entries ≡ []) }
    {
        let task = self.tasks.swap_remove_back(place)?;
        if task.version() != 0 {
            drop(task);
            return None;
        }
        worked::<Brand>(alloc, task, &self.portfolio, Blank::new(1)).ok()
    }

    /// Hands back what another board of the same portfolio handed out over no entries, once it is made. False where memory runs
    /// out.
    pub fn finish_other(&mut self, alloc: Global) -> bool {
        match work_of_another(alloc, &self.portfolio) {
            Some(done) => {
                self.board.finish(done);
                true
            }
            None => false,
        }
    }

    /// Somebody gives up, and drops the task at a place, if there is one.
    pub fn give_up(&mut self, place: usize) {
        let task = self.tasks.swap_remove_back(place);
        self.board.give_up(task);
        self.given_up = true;
    }

    /// A caller collects. None where it isn't here or has no open ask.
    pub fn collect(&mut self, caller: u32) -> Option<Result<Collected, NoMemory>> {
        if !self.is_here(caller) || self.board.open_asks(caller) == 0 {
            return None;
        }
        Some(self.board.collect(caller))
    }

    /// A caller leaves. False where it isn't here, or has an open ask and the board wasn't given up.
    pub fn leave(&mut self, caller: u32) -> bool {
        if !self.is_here(caller) || !(self.given_up || self.board.open_asks(caller) == 0) {
            return false;
        }
        self.board.leave(caller);
        self.left[caller as usize - 1] = true;
        true
    }
}

/// A board for one caller or four with these quotas; more than 262,144 entries count as so many.
pub fn board(alloc: Global, portfolio: &Arc<Portfolio, Global>, quotas: &[u64]) -> Option<Driven> {
    match quotas {
        [one] => Driven::new(alloc, portfolio, &[few(*one)]).ok(),
        [one, two, three, four] => {
            let quotas = [few(*one), few(*two), few(*three), few(*four)];
            Driven::new(alloc, portfolio, &quotas).ok()
        }
        _ => None,
    }
}

/// A quota of which four fit on a board.
fn few(quota: u64) -> u64
    ensures { result ≤ 262_144 }
{
    quota.min(262_144)
}

/// What another board of the portfolio has had made of its first contract over no entries.
fn work_of_another(alloc: Global, portfolio: &Arc<Portfolio, Global>) -> Option<Done>
    ensures portfolio { IfSome result (λ done. done.portfolio ≡ arc_value portfolio.now) }
    ensures entries { IfSome result (λ done. done.entries ≡ []) }
{
    let Ok(mut other) = Driven::new(alloc, portfolio, &[0]) else {
        return None;
    };
    let _ = other.ask(1, Asked::One(0));
    let _ = other.claim();
    other.made(alloc, 0)
}

/// Makes a task, with a counter of its own. For want of memory it comes back.
fn worked<L: Ledger>(
    alloc: Global,
    task: Task,
    portfolio: &Portfolio,
    blank: Blank,
) -> Result<Done, Task>
    requires name { blank.name ≡ L.name }
    requires parts { blank.parts ≡ L.parts }
    requires some_parts { 0 < L.parts }
    requires portfolio { portfolio.now ≡ task.portfolio }
    ensures { IfOk result (λ done. done ≡ task) }
{
    let mut steps = Steps::<L>::new(blank);
    task.work(alloc, portfolio, &mut steps)
}

/// For each quota that its caller hasn't left.
fn none_left(alloc: Global, quotas: &[u64]) -> Result<Vec<bool>, NoMemory>
    ensures { IfOk result (λ left. left.items ≡ replicate (length quotas.now) false) }
{
    Ok(vec![in alloc; false; quotas.len()]?)
}

/// Whether what is asked for is there.
fn is_named(portfolio: &Portfolio, asked: Asked) -> bool
    ensures { result ≡ true → is_known portfolio.now.names (step.Ask asked) ≡ true }
{
    match asked {
        Asked::All => true,
        Asked::One(contract) => contract < portfolio.named(),
    }
}
