//! Workers.
ghost use Rattle.std.specs.Prelude.{◌≡◌, true, IfErr, IfOk};
ghost use Rattle.act_turn.specs.Standing.{IsFree};
ghost use Rattle.act_history.specs.History.{is_given_up};
ghost use Rattle.act_desk.specs.Making.{HasWatched, IsOver};
ghost use Rattle.act_desk.specs.Step.{HasSeen};

use crate::context::Context;
use crate::desk::{Desk, DeskPass};
use crate::working::Work;
use act_io::Gate;
use act_num::NoMemory;
use std::sync::Wait;

impl Desk {
    /// A worker makes evaluations, one after another, and hands them in as it claims the next ones, until all callers have left and nothing that is wanted lacks a result. Where none
    /// may be made it sleeps until that may have changed. It gives up where memory runs out, and ends where somebody else has.
    pub fn worker<R: Wait, G: Gate>(
        &self,
        context: &Context<'_, R, G>,
        pass: &mut DeskPass,
    ) -> Result<(), NoMemory>
        requires free { IsFree self.now.id pass.old }
        requires portfolio { HasSeen pass.old (λ history. history.portfolio ≡ self.now.portfolio) }
        ensures watched { HasWatched pass.old pass.new }
        ensures ended { IfOk result (λ _. HasSeen pass.new IsOver) }
        ensures given_up { IfErr result (λ _. HasSeen pass.new (λ history. is_given_up history ≡ true)) }
    {
        let mut dones = Vec::new(context.alloc);
        for _ in context.rt.forever() {
            let rings = self.tasks.rings();
            match self.work(context, pass, &mut dones) {
                Ok(Work::Made) => {}
                Ok(Work::None) => self.tasks.sleep(context.rt, rings),
                Ok(Work::Over) => return Ok(()),
                Err(NoMemory) => {
                    drop(dones);
                    self.give_up(context.rt, pass, None);
                    return Err(NoMemory);
                }
            }
        }
        unreachable!()
    }
}
