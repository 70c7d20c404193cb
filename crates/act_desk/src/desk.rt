//! The desk.
ghost use Rattle.std.specs.Prelude.{◌≡◌, ◌⊎◌, ◌+◌, ◌<◌, ◌≤◌, true, [], All, Any, length, sum, vec_capacity, vec_len, IfOk};
ghost use Rattle.std.specs.Arc.{arc_value};
ghost use mathlib.Core.List.{IsPrefix};
ghost use Rattle.act_model.specs.Journal.{is_known};
ghost use Rattle.act_model.specs.Observed.{is_entry};
ghost use Rattle.act_model.specs.declared.journal.Step.TheVariants.{Ask};
ghost use Rattle.act_turn.specs.Journal.{entries_of};
ghost use Rattle.act_turn.specs.Standing.{AreNumbered, IsFree, own_entries};
ghost use Rattle.act_board.specs.Calls.{IsOf};
ghost use Rattle.act_board.specs.Entries.{author_of, list_of};
ghost use Rattle.act_history.specs.History.{IsPresent, is_given_up, open_asks};
ghost use Rattle.act_desk.specs.Calls.{Appends, Asks, ClaimsOrNot, CollectsOrNot, Finishes, GivesUp, Leaves};
ghost use Rattle.act_desk.specs.Making.{asks_known};
ghost use Rattle.act_desk.specs.Step.{HasSeen, IsStep, opening};
ghost use Rattle.act_desk.specs.Turns.{FinishesAndClaims, FromLast, IsTurn, Makes};
ghost use Rattle.act_model.specs.Journal.{appends_entry};
ghost use Rattle.act_model.specs.declared.journal.Line.{Line};

use crate::outcome::{Claimed, Made};
use crate::steps::{asks_in, finish_and_claim, finish_each, make_each};
use act_board::{AppendFault, AskFault, Board, Claim, Collected, Done, Task};
use act_model::{Asked, Line, MOST_CALLERS, MOST_ENTRIES, MOST_WORKERS, Obs};
use act_num::NoMemory;
use act_portfolio::Portfolio;
use act_turn::{Bell, NewFault, Pass, Turn};
use std::alloc::Global;
use std::marker::Model;
use std::sync::{Arc, Wait};

/// What a caller or a worker has of a desk. Contracts see its number, the history that it has seen, as a list, and how many turns
/// it has had.
pub type DeskPass = Pass<Board>;

/// A board that callers and workers share, each in a thread of its own: whoever has the turn has the board. Contracts see which
/// desk it is, how many passes it has, and of which portfolio.
pub struct Desk {
    turn: Turn<Board>,
    pub(crate) portfolio: Arc<Portfolio, Global>,
    /// How many callers and workers there are.
    threads: u32,
    /// Rings where an evaluation may be claimed that couldn't be before, or none will come.
    pub(crate) tasks: Bell,
    /// Rings where an answer may be ready that wasn't, or none will come.
    pub(crate) results: Bell,
}

impl Model for Desk {
    ghost use Rattle.std.specs.Arc.{arc_value};
    ghost use Rattle.act_desk.specs.Desk as desk;

    ghost Value = { desk.Desk };

    ghost view = { λ d. record { id = d.turn.id; seats = d.turn.seats; portfolio = arc_value d.portfolio } };
}

impl Desk {
    /// A desk for as many callers as there are quotas, 1 to 16, and so many workers, at most 64. Each caller may append as many
    /// entries as its quota says, together at most 1,048,576. There is a pass for each, numbered from 1, the callers' first. What is
    /// added later is allocated by `alloc`.
    pub fn new(
        alloc: Global,
        portfolio: Arc<Portfolio, Global>,
        quotas: &[u64],
        workers: u32,
    ) -> Result<(Desk, Vec<DeskPass>), NoMemory>
        requires some { 1 ≤ length quotas.now }
        requires few { length quotas.now ≤ MOST_CALLERS }
        requires fits { sum quotas.now ≤ MOST_ENTRIES }
        requires workers { workers ≤ MOST_WORKERS }
        ensures seats { IfOk result (λ r. (r.0.seats ≡ length quotas.now + workers) × (vec_len r.1 ≡ length quotas.now + workers)) }
        ensures passes { IfOk result (λ r. AreNumbered r.0.id (list_of (opening (arc_value portfolio) quotas.now)) r.1.items) }
        ensures free { IfOk result (λ r. All (IsFree r.0.id) r.1.items) }
        ensures portfolio { IfOk result (λ r. r.0.portfolio ≡ arc_value portfolio) }
    {
        let seats = quotas.len() as u32 + workers;
        let shared = Arc::try_clone(&portfolio)?;
        let board = Board::new(alloc, shared, quotas)?;
        match Turn::new(alloc, board, seats) {
            Ok((turn, passes)) => {
                let desk = Desk {
                    turn,
                    portfolio,
                    threads: seats,
                    tasks: Bell::new(),
                    results: Bell::new(),
                };
                Ok((desk, passes))
            }
            Err(NewFault { value: _ }) => Err(NoMemory),
        }
    }

    /// A caller appends an entry to the book. It answers how many there are then.
    pub fn append<R: Wait>(
        &self,
        rt: &R,
        pass: &mut DeskPass,
        caller: u32,
        entry: Obs,
    ) -> Result<u64, AppendFault>
        requires free { IsFree self.now.id pass.old }
        requires own { pass.old.number ≡ caller }
        requires present { HasSeen pass.old (λ history. IsPresent history caller) }
        requires entry { is_entry entry ≡ true }
        ensures { IsStep pass.old (Appends caller entry result) pass.new }
    {
        let mut held = self.turn.take(rt, pass);
        let answer = held.get_mut().append(caller, entry);
        self.turn.give(pass, held);
        answer
    }

    /// A caller asks for evaluations over the entries that stand in the book. It answers the ask's number among the caller's.
    pub fn ask<R: Wait>(
        &self,
        rt: &R,
        pass: &mut DeskPass,
        caller: u32,
        asked: Asked,
    ) -> Result<u32, AskFault>
        requires free { IsFree self.now.id pass.old }
        requires own { pass.old.number ≡ caller }
        requires present { HasSeen pass.old (λ history. IsPresent history caller) }
        requires known { HasSeen pass.old (λ history. is_known history.portfolio.names (Ask asked) ≡ true) }
        ensures { IsStep pass.old (Asks caller asked result) pass.new }
    {
        let mut held = self.turn.take(rt, pass);
        let answer = held.get_mut().ask(caller, asked);
        self.turn.give(pass, held);
        self.tasks.ring_one();
        answer
    }

    /// A caller makes the steps of lines in one turn, in their order, up to the first that is refused.
    pub fn make_steps<R: Wait>(
        &self,
        rt: &R,
        pass: &mut DeskPass,
        caller: u32,
        lines: &[Line],
    ) -> Made
        requires free { IsFree self.now.id pass.old }
        requires own { pass.old.number ≡ caller }
        requires present { HasSeen pass.old (λ history. IsPresent history caller) }
        requires entries { All (λ (line : Line). appends_entry line.step ≡ true) lines.now }
        requires known { HasSeen pass.old (λ history. All (λ (line : Line). asks_known history.portfolio.names line.step ≡ true) lines.now) }
        ensures { IsTurn pass.old (Makes caller lines.now result) pass.new }
    {
        let mut held = self.turn.take(rt, pass);
        let made = make_each(held.get_mut(), caller, lines);
        self.turn.give(pass, held);
        self.tell(false, asks_in(lines) > 0);
        made
    }

    /// Hands out the evaluation that is next, as `Board::claim` does.
    pub fn claim<R: Wait>(&self, rt: &R, pass: &mut DeskPass) -> Result<Claim, NoMemory>
        requires { IsFree self.now.id pass.old }
        ensures { IsStep pass.old (ClaimsOrNot result) pass.new }
    {
        let mut held = self.turn.take(rt, pass);
        let answer = held.get_mut().claim();
        self.turn.give(pass, held);
        answer
    }

    /// Takes an evaluation that was made of the history that the pass has seen: where it is claimed, it is the contract's result at
    /// its version from here on; otherwise it is dropped.
    pub fn finish<R: Wait>(&self, rt: &R, pass: &mut DeskPass, done: Done)
        requires free { IsFree self.now.id pass.old }
        requires done { HasSeen pass.old (λ history. IsOf history done) }
        ensures { IsStep pass.old (Finishes done) pass.new }
    {
        let mut held = self.turn.take(rt, pass);
        held.get_mut().finish(done);
        self.turn.give(pass, held);
        self.tasks.ring_one();
        self.results.ring_all();
    }

    /// Takes evaluations in one turn that were made of the history that the pass has seen, the last first, each as `finish` does.
    pub fn finish_all<R: Wait>(&self, rt: &R, pass: &mut DeskPass, dones: &mut Vec<Done>)
        requires free { IsFree self.now.id pass.old }
        requires dones { HasSeen pass.old (λ history. All (IsOf history) dones.old.items) }
        ensures turn { IsTurn pass.old (FromLast Finishes dones.old.items) pass.new }
        ensures none { dones.new.items ≡ [] }
    {
        let mut held = self.turn.take(rt, pass);
        finish_each(held.get_mut(), dones);
        self.turn.give(pass, held);
        self.tell(true, true);
    }

    /// Takes evaluations in one turn that were made of the history that the pass has seen, the last first, and hands out those that
    /// are next: one, and several where as many are left for each of the other threads.
    pub fn finish_and_claim<R: Wait>(
        &self,
        rt: &R,
        pass: &mut DeskPass,
        dones: &mut Vec<Done>,
        tasks: &mut Vec<Task>,
    ) -> Result<Claimed, NoMemory>
        requires free { IsFree self.now.id pass.old }
        requires dones { HasSeen pass.old (λ history. All (IsOf history) dones.old.items) }
        requires none { tasks.old.items ≡ [] }
        requires room { 0 < vec_capacity tasks.old }
        ensures turn { IsTurn pass.old (FinishesAndClaims dones.old.items tasks.new.items result) pass.new }
        ensures none { dones.new.items ≡ [] }
    {
        let has_results = !dones.is_empty();
        let mut held = self.turn.take(rt, pass);
        let claimed = finish_and_claim(held.get_mut(), dones, tasks, self.threads);
        let has_tasks = held.get().claimable() > 0;
        self.turn.give(pass, held);
        self.tell(has_results, has_tasks);
        claimed
    }

    /// Gives the board up, for want of memory; a task that is handed in is dropped.
    pub fn give_up<R: Wait>(&self, rt: &R, pass: &mut DeskPass, task: Option<Task>)
        requires { IsFree self.now.id pass.old }
        ensures { IsStep pass.old GivesUp pass.new }
    {
        drop(task);
        let mut held = self.turn.take(rt, pass);
        held.get_mut().give_up(None);
        self.turn.give(pass, held);
        self.tasks.ring_all();
        self.results.ring_all();
    }

    /// Gives a caller the answer to the oldest of its asks that are open, once each contract that it asks for has a result.
    pub fn collect<R: Wait>(
        &self,
        rt: &R,
        pass: &mut DeskPass,
        caller: u32,
    ) -> Result<Collected, NoMemory>
        requires free { IsFree self.now.id pass.old }
        requires own { pass.old.number ≡ caller }
        requires present { HasSeen pass.old (λ history. IsPresent history caller) }
        requires asked { HasSeen pass.old (λ history. 0 < length (open_asks history caller)) }
        ensures { IsStep pass.old (CollectsOrNot caller result) pass.new }
    {
        let mut held = self.turn.take(rt, pass);
        let answer = held.get_mut().collect(caller);
        self.turn.give(pass, held);
        answer
    }

    /// A caller leaves, which has no open ask, unless the board was given up.
    pub fn leave<R: Wait>(&self, rt: &R, pass: &mut DeskPass, caller: u32)
        requires free { IsFree self.now.id pass.old }
        requires own { pass.old.number ≡ caller }
        requires present { HasSeen pass.old (λ history. IsPresent history caller) }
        requires done { HasSeen pass.old (λ history. (open_asks history caller ≡ []) ⊎ (is_given_up history ≡ true)) }
        ensures { IsStep pass.old (Leaves caller) pass.new }
    {
        let mut held = self.turn.take(rt, pass);
        held.get_mut().leave(caller);
        self.turn.give(pass, held);
        self.tasks.ring_all();
    }

    /// Rings after a turn: for all that wait for results, where there may be some, and for one that waits for tasks.
    fn tell(&self, has_results: bool, has_tasks: bool) {
        if has_results {
            self.results.ring_all();
        }
        if has_tasks {
            self.tasks.ring_one();
        }
    }

    /// Ends the desk, whose passes these all are, and answers the board.
    pub fn close(self, passes: Vec<DeskPass>) -> Board
        requires all { vec_len passes ≡ self.seats }
        requires free { All (IsFree self.id) passes.items }
        ensures begins { All (λ p. IsPrefix p.seen (list_of result)) passes.items }
        ensures longest { Any (λ p. p.seen ≡ list_of result) passes.items }
        ensures own { All (λ p. entries_of author_of p.number (list_of result) ≡ own_entries author_of p) passes.items }
    {
        let Desk {
            turn,
            portfolio,
            threads: _,
            tasks,
            results,
        } = self;
        drop(portfolio);
        drop(tasks);
        drop(results);
        turn.close(passes)
    }
}
