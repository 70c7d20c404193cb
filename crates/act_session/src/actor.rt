//! A caller or a worker of a session.
ghost use Rattle.std.specs.Prelude.{◌≡◌};
ghost use Rattle.act_session.specs.Playing.{ArePlayable, HasPlayed, first_pass, lines_of};

use act_desk::{Context, Desk, DeskPass, FromAnswer};
use act_io::Gate;
use act_model::Line;
use std::sync::Wait;

/// A caller or a worker: its pass, and what a caller that has made its lines keeps of its answers.
pub(crate) struct Actor<A> {
    pub(crate) pass: DeskPass,
    pub(crate) answers: Option<Vec<A>>,
}

impl<A: FromAnswer> Actor<A> {
    /// Plays the part of a place: that of the caller of the script there, or behind the scripts that of a worker. A caller has no
    /// answers where memory ran out.
    pub(crate) fn play<R: Wait, G: Gate>(
        &mut self,
        context: &Context<'_, R, G>,
        desk: &Desk,
        place: usize,
        scripts: &[Vec<Line>],
    )
        requires scripts { ArePlayable desk.now.portfolio (lines_of scripts.now) }
        requires first { self.old.pass ≡ first_pass desk.now (lines_of scripts.now) place }
        ensures { HasPlayed A.kept_of desk.now (lines_of scripts.now) place self.new.pass self.new.answers }
    {
        match scripts.get(place) {
            Some(lines) => {
                let number = place as u32 + 1;
                self.answers = desk
                    .caller_keeping(context, &mut self.pass, number, lines)
                    .ok();
            }
            None => {
                let _ = desk.worker(context, &mut self.pass);
            }
        }
    }
}
