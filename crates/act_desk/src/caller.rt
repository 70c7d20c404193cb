//! Callers.
ghost use Rattle.std.specs.Prelude.{◌≡◌, ◌≤◌, ◌<◌, ℕ, [], true, length, take, count_by, Ok, IfErr, IfOk};
ghost use mathlib.Core.List.{IsPrefix};
ghost use Rattle.act_turn.specs.Standing.{IsFree};
ghost use Rattle.act_history.specs.History.{IsPresent, open_asks};
ghost use Rattle.act_board.specs.declared.outcome.Collected.TheVariants.{Ready};
ghost use Rattle.act_desk.specs.Calls.{CollectsOrNot};
ghost use Rattle.act_desk.specs.Making.{Brings, HasCalled, HasCollected, HasGivenUp, HasMade, HasStopped, HasWatched, IsAt, IsMaking, IsOnWay, MayMake, asks};
ghost use Rattle.act_desk.specs.Step.{HasSeen, IsStep};

use crate::context::Context;
use crate::desk::{Desk, DeskPass};
use crate::from_answer::FromAnswer;
use crate::outcome::StepFault;
use crate::steps::asks_in;
use crate::working::Work;
use act_board::{AskFault, Collected};
use act_io::Gate;
use act_model::{Answer, Line, MOST_OPEN};
use act_num::NoMemory;
use std::sync::Wait;

/// How many steps a caller makes at most in one turn.
const MOST_STEPS: usize = 256;

impl Desk {
    /// A caller makes the steps of its lines in their order, many in a turn, and leaves. Where 256 asks are open it collects the
    /// answers to half of them before the next, and at the end it collects the others; an answer that isn't ready it waits for, and
    /// makes evaluations meanwhile. It answers what is kept, `A`, of the answers to the asks, in their order; an answer goes once that is made. Where memory runs out
    /// it gives up, and where somebody else has given up it answers want of memory too; it has left then.
    pub fn caller_keeping<R: Wait, G: Gate, A: FromAnswer>(
        &self,
        context: &Context<'_, R, G>,
        pass: &mut DeskPass,
        caller: u32,
        lines: &[Line],
    ) -> Result<Vec<A>, NoMemory>
        requires at { IsAt self.now caller pass.old }
        requires lines { HasSeen pass.old (λ history. MayMake history caller lines.now) }
        ensures free { IsFree self.now.id pass.new }
        ensures number { pass.new.number ≡ caller }
        ensures begins { IsPrefix pass.old.seen pass.new.seen }
        ensures made { IfOk result (λ answers. HasMade A.kept_of pass.old caller lines.now answers.items pass.new) }
        ensures given_up { IfErr result (λ _. HasSeen pass.new (λ history. HasGivenUp history caller)) }
        ensures stopped { IfErr result (λ _. HasStopped pass.old caller lines.now pass.new) }
    {
        let mut answers = Vec::new(context.alloc);
        match self.make(context, pass, caller, lines, &mut answers) {
            Ok(()) => {
                self.leave(context.rt, pass, caller);
                Ok(answers)
            }
            Err(NoMemory) => {
                drop(answers);
                self.give_up(context.rt, pass, None);
                self.leave(context.rt, pass, caller);
                Err(NoMemory)
            }
        }
    }

    /// Makes the steps of lines, and collects all answers: first only where the next ask needs room, and then the others.
    fn make<R: Wait, G: Gate, A: FromAnswer>(
        &self,
        context: &Context<'_, R, G>,
        pass: &mut DeskPass,
        caller: u32,
        lines: &[Line],
        answers: &mut Vec<A>,
    ) -> Result<(), NoMemory>
        requires at { IsAt self.now caller pass.old }
        requires lines { HasSeen pass.old (λ history. MayMake history caller lines.now) }
        requires none { answers.old.items ≡ [] }
        ensures made { IfOk result (λ _. IsMaking A.kept_of pass.old caller lines.now answers.new.items pass.new) }
        ensures all { IfOk result (λ _. length answers.new.items ≡ count_by asks lines.now) }
        ensures some { IfErr result (λ _. (done : ℕ) × IsMaking A.kept_of pass.old caller (take done lines.now) answers.new.items pass.new) }
    {
        self.make_lines(context, pass, caller, lines, answers)?;
        let asked = asks_in(lines);
        'rest: while answers.len() < asked {
            self.collect_next(context, pass, caller, answers)?;
        }
        Ok(())
    }

    /// Makes the steps of lines, many in a turn. Where as many asks are open as may be, it collects the answers to half of them first.
    fn make_lines<R: Wait, G: Gate, A: FromAnswer>(
        &self,
        context: &Context<'_, R, G>,
        pass: &mut DeskPass,
        caller: u32,
        lines: &[Line],
        answers: &mut Vec<A>,
    ) -> Result<(), NoMemory>
        requires at { IsAt self.now caller pass.old }
        requires lines { HasSeen pass.old (λ history. MayMake history caller lines.now) }
        requires none { answers.old.items ≡ [] }
        ensures made { IfOk result (λ _. IsMaking A.kept_of pass.old caller lines.now answers.new.items pass.new) }
        ensures some { IfErr result (λ _. (done : ℕ) × IsMaking A.kept_of pass.old caller (take done lines.now) answers.new.items pass.new) }
    {
        let mut made = 0;
        for _ in context.rt.forever() {
            if made == lines.len() {
                return Ok(());
            }
            let count = (lines.len() - made).min(MOST_STEPS);
            let turn = self.make_steps(context.rt, pass, caller, &lines[made..made + count]);
            made += turn.steps;
            match turn.fault {
                None => {}
                Some(StepFault::Ask(AskFault::AsksFull)) => {
                    self.collect_half(context, pass, caller, answers)?;
                }
                Some(_) => return Err(NoMemory),
            }
        }
        unreachable!()
    }

    /// Collects the answers to half of as many asks as may be open.
    fn collect_half<R: Wait, G: Gate, A: FromAnswer>(
        &self,
        context: &Context<'_, R, G>,
        pass: &mut DeskPass,
        caller: u32,
        answers: &mut Vec<A>,
    ) -> Result<(), NoMemory>
        requires way { IsOnWay A.kept_of self.now caller pass.old answers.old.items }
        requires open { HasSeen pass.old (λ history. MOST_OPEN ≤ length (open_asks history caller)) }
        ensures { Brings A.kept_of caller pass.old answers.old.items pass.new answers.new.items }
    {
        for _ in 0..MOST_OPEN / 2 {
            self.collect_next(context, pass, caller, answers)?;
        }
        Ok(())
    }

    /// Collects the answer to the oldest open ask, and adds what is kept of it. What that takes is reserved first.
    fn collect_next<R: Wait, G: Gate, A: FromAnswer>(
        &self,
        context: &Context<'_, R, G>,
        pass: &mut DeskPass,
        caller: u32,
        answers: &mut Vec<A>,
    ) -> Result<(), NoMemory>
        requires at { IsAt self.now caller pass.old }
        requires present { HasSeen pass.old (λ history. IsPresent history caller) }
        requires open { HasSeen pass.old (λ history. 0 < length (open_asks history caller)) }
        ensures collected { IfOk result (λ _. HasCollected A.kept_of pass.old caller answers.old.items pass.new answers.new.items) }
        ensures watched { IfErr result (λ _. HasWatched pass.old pass.new) }
        ensures kept { IfErr result (λ _. answers.new.items ≡ answers.old.items) }
    {
        answers.reserve(1)?;
        let answer = self.collect_oldest(context, pass, caller)?;
        answers.push_reserved(A::from_answer(answer));
        Ok(())
    }

    /// Collects the answer to the oldest open ask. Until it is ready evaluations are made, and where none may be made the caller
    /// sleeps until that may have changed.
    fn collect_oldest<R: Wait, G: Gate>(
        &self,
        context: &Context<'_, R, G>,
        pass: &mut DeskPass,
        caller: u32,
    ) -> Result<Answer, NoMemory>
        requires at { IsAt self.now caller pass.old }
        requires present { HasSeen pass.old (λ history. IsPresent history caller) }
        requires open { HasSeen pass.old (λ history. 0 < length (open_asks history caller)) }
        ensures collected { IfOk result (λ answer. HasCalled pass.old (CollectsOrNot caller (Ok (Ready answer))) pass.new) }
        ensures watched { IfErr result (λ _. HasWatched pass.old pass.new) }
    {
        let mut dones = Vec::new(context.alloc);
        for _ in context.rt.forever() {
            let rings = self.results.rings();
            match self.collect(context.rt, pass, caller)? {
                Collected::Ready(answer) => return Ok(answer),
                Collected::GivenUp => return Err(NoMemory),
                Collected::NotYet => match self.work(context, pass, &mut dones)? {
                    Work::Made => self.finish_all(context.rt, pass, &mut dones),
                    Work::None => self.results.sleep(context.rt, rings),
                    Work::Over => {}
                },
            }
        }
        unreachable!()
    }
}
