//! Which actors have which passes, and which answers.
ghost use Rattle.std.specs.Prelude.{◌≡◌, ◌≤◌, [], IfOk, IfSome, Some, count_by, length, map, take, vec_capacity, vec_len};
ghost use Rattle.act_desk.specs.Making.{appends};
ghost use Rattle.act_session.specs.Playing as playing;
ghost use Rattle.act_session.specs.Seats.{answers_at, passes_of};

use crate::actor::Actor;
use act_desk::{DeskPass, FromAnswer};
use act_model::{Line, Step};
use act_num::NoMemory;
use std::alloc::Global;

/// How many entries each script appends.
pub(crate) fn quotas_of(alloc: Global, scripts: &[Vec<Line>]) -> Result<Vec<u64>, NoMemory>
    ensures { IfOk result (λ quotas. quotas.items ≡ playing.quotas_of (playing.lines_of scripts.now)) }
{
    let mut quotas = Vec::with_capacity(alloc, scripts.len())?;
    for lines in scripts {
        quotas.push_reserved(entries_in(lines));
    }
    Ok(quotas)
}

/// How many entries lines append.
fn entries_in(lines: &[Line]) -> u64
    ensures { result ≡ count_by appends lines.now }
{
    lines
        .iter()
        .filter(|line| matches!(line.step, Step::Append(_)))
        .count() as u64
}

/// Gives each pass an actor, in their order. The list of the passes is left empty, with the room that it has.
pub(crate) fn seat<A>(passes: &mut Vec<DeskPass>, actors: &mut Vec<Actor<A>>)
    requires none { actors.old.items ≡ [] }
    requires room { vec_len passes.old ≤ vec_capacity actors.old }
    ensures passes { passes_of actors.new.items ≡ passes.old.items }
    ensures none { passes.new.items ≡ [] }
    ensures room { vec_len passes.old ≤ vec_capacity passes.new }
{
    passes.reverse();
    while let Some(pass) = passes.pop() {
        actors.push_reserved(Actor {
            pass,
            answers: None,
        });
    }
}

/// Takes the passes of all actors back, in their order. The list of the actors is left empty.
pub(crate) fn rise<A: FromAnswer>(actors: &mut Vec<Actor<A>>, passes: &mut Vec<DeskPass>)
    requires none { passes.old.items ≡ [] }
    requires room { vec_len actors.old ≤ vec_capacity passes.old }
    ensures passes { passes.new.items ≡ passes_of actors.old.items }
    ensures none { actors.new.items ≡ [] }
{
    while let Some(actor) = actors.pop() {
        let Actor { pass, answers } = actor;
        drop(answers);
        passes.push_reserved(pass);
    }
    passes.reverse();
}

/// Takes what the first so many actors keep of answers, where each of these has some, and adds it to a list.
pub(crate) fn take_answers<A: FromAnswer>(
    actors: &mut [Actor<A>],
    count: usize,
    answers: Vec<Vec<A>>,
) -> Option<Vec<Vec<A>>>
    requires count { count ≤ length actors.old }
    requires none { answers.items ≡ [] }
    requires room { count ≤ vec_capacity answers }
    ensures passes { passes_of actors.new ≡ passes_of actors.old }
    ensures answers { IfSome result (λ all. map Some all.items ≡ take count (answers_at actors.old)) }
{
    let mut all = answers;
    for place in 0..count {
        let own = actors[place].answers.take()?;
        all.push_reserved(own);
    }
    Some(all)
}
