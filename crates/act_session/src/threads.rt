//! Sessions, whose actors have a thread each.
ghost use Rattle.std.specs.Prelude.{◌≡◌, ◌-◌, ◌<◌, ◌≤◌, [], IfOk, length, map, vec_capacity, vec_len};
ghost use Rattle.std.specs.Arc.{arc_value};
ghost use Rattle.act_profile.specs.Answers as asked;
ghost use Rattle.act_turn.specs.Standing.{AreNumbered};
ghost use Rattle.act_board.specs.Entries.{list_of};
ghost use Rattle.act_history.specs.History.{journal_of, replies_of};
ghost use Rattle.act_desk.specs.Step.{opening};
ghost use Rattle.act_session.specs.Playing as playing;
ghost use Rattle.act_session.specs.Playing.{AreOwn, ArePlayable, HasPlayed, IsPlayed, first_pass, lines_of};
ghost use Rattle.act_session.specs.Seats.{HavePlayed, passes_of};

use crate::actor::Actor;
use crate::outcome::Session;
use crate::seats::{quotas_of, rise, seat, take_answers};
use act_desk::{Context, Desk, DeskPass, FromAnswer};
use act_io::Gate;
use act_model::{Line, MOST_WORKERS};
use act_num::NoMemory;
use act_portfolio::Portfolio;
use std::alloc::Global;
use std::sync::{Arc, Wait};
use std::thread::{Threads, for_each_mut};

/// Plays scripts on one board of a portfolio. For each script there is a caller, 1 to 16, which makes the steps of its lines, collects
/// its answers and leaves; of each answer it keeps an `A`. Beside them so many workers, at most 64, make evaluations. Each has a thread
/// of its own, where one can be made. The context's gate is told before and after each evaluation.
/// Where memory runs out for a caller there are no answers.
pub fn session<R: Threads + Wait + Sync, G: Gate, A: FromAnswer>(
    context: &Context<'_, R, G>,
    portfolio: Arc<Portfolio, Global>,
    scripts: &[Vec<Line>],
    workers: u32,
) -> Result<Session<A>, NoMemory>
    requires scripts { ArePlayable (arc_value portfolio) (lines_of scripts.now) }
    requires workers { workers ≤ MOST_WORKERS }
    ensures board { IfOk result (λ s. IsPlayed (arc_value portfolio) (lines_of scripts.now) s.board) }
    ensures own { IfOk result (λ s. AreOwn A.kept_of s.board (lines_of scripts.now) s.answers.items) }
    ensures answers { IfOk result (λ s. replies_of s.answers.items
        ≡ map A.kept_of (asked.answers_of (arc_value portfolio).contracts (arc_value portfolio).names (journal_of s.board))) }
{
    let alloc = context.alloc;
    let quotas = quotas_of(alloc, scripts)?;
    let answers = Vec::with_capacity(alloc, scripts.len())?;
    let seats = scripts.len() + workers as usize;
    let mut actors = Vec::with_capacity(alloc, seats)?;
    let Ok((desk, mut passes)) = Desk::new(alloc, portfolio, &quotas, workers) else {
        actors.destroy_empty();
        return Err(NoMemory);
    };
    seat(&mut passes, &mut actors);
    play_all(context, &desk, actors.as_mut_slice(), scripts);
    end(desk, actors, scripts, passes, answers)
}

/// Lets each actor play its part, in a thread of its own. Where a thread can't be made, calls of `for_each_mut` are made one after
/// another in one thread, from the last place down. A caller needs nobody else to end, and a worker ends only once all callers have
/// left, so the workers stand before the callers meanwhile.
fn play_all<R: Threads + Wait + Sync, G: Gate, A: FromAnswer>(
    context: &Context<'_, R, G>,
    desk: &Desk,
    actors: &mut [Actor<A>],
    scripts: &[Vec<Line>],
)
    requires scripts { ArePlayable desk.now.portfolio (lines_of scripts.now) }
    requires some { 0 < length actors.old }
    requires first { AreNumbered desk.now.id (list_of (opening desk.now.portfolio (playing.quotas_of (lines_of scripts.now)))) (passes_of actors.old) }
    ensures { HavePlayed A.kept_of desk.now (lines_of scripts.now) actors.new }
{
    let count = actors.len();
    actors.reverse();
    for_each_mut(
        context.rt,
        actors,
        count,
        &|turned: usize, actor: &mut Actor<A>|
            requires place { turned < count }
            requires scripts { ArePlayable desk.now.portfolio (lines_of scripts.now) }
            requires first { actor.now.pass ≡ first_pass desk.now (lines_of scripts.now) (count - 1 - turned) }
            ensures { HasPlayed A.kept_of desk.entry.now (lines_of scripts.entry.now) (count - 1 - turned) actor.exit.now.pass actor.exit.now.answers }
        { actor.play(context, desk, count - 1 - turned, scripts) },
    );
    actors.reverse();
}

/// Takes the answers and the passes of actors that have played, and ends the desk. The passes are put into a list with room for them,
/// and so are the answers.
fn end<A: FromAnswer>(
    desk: Desk,
    mut actors: Vec<Actor<A>>,
    scripts: &[Vec<Line>],
    mut passes: Vec<DeskPass>,
    answers: Vec<Vec<A>>,
) -> Result<Session<A>, NoMemory>
    requires scripts { ArePlayable desk.portfolio (lines_of scripts.now) }
    requires played { HavePlayed A.kept_of desk (lines_of scripts.now) actors.items }
    requires seats { vec_len actors ≡ desk.seats }
    requires callers { length scripts.now ≤ vec_len actors }
    requires none { (passes.items ≡ []) × (answers.items ≡ []) }
    requires room { (vec_len actors ≤ vec_capacity passes) × (length scripts.now ≤ vec_capacity answers) }
    ensures board { IfOk result (λ s. IsPlayed desk.portfolio (lines_of scripts.now) s.board) }
    ensures own { IfOk result (λ s. AreOwn A.kept_of s.board (lines_of scripts.now) s.answers.items) }
    ensures answers { IfOk result (λ s. replies_of s.answers.items
        ≡ map A.kept_of (asked.answers_of desk.portfolio.contracts desk.portfolio.names (journal_of s.board))) }
{
    let taken = take_answers(actors.as_mut_slice(), scripts.len(), answers);
    rise(&mut actors, &mut passes);
    actors.destroy_empty();
    let board = desk.close(passes);
    // A board tells that each of its marks was legal only where its journal is asked for.
    let _ = board.journal();
    match taken {
        Some(answers) => Ok(Session { board, answers }),
        None => Err(NoMemory),
    }
}
