//! Whether a journal holds the steps of scripts, each once and in its order.
ghost use Rattle.std.specs.Prelude.{◌≡◌, ◌≤◌, ◌<◌, ◌+◌, ◌^◌, ◌↔◌, true, Some, length, option_and_then, MatchOption};
ghost use Rattle.std.specs.List.{All, slice_get};
ghost use Rattle.act_audit.specs.Order.{IsFirstDisorder, IsFirstShort, IsNoneShort};
ghost use Rattle.act_model.specs.declared.journal.Item.{Item as JournalItem};
ghost use Rattle.act_script.specs.Asks.{line_lists};
ghost use Rattle.act_session.specs.Interleaving.{IsInterleaving, steps_of};

use crate::journal::FIRST_LINE;
use act_model::{Item, Line, MOST_CALLERS, Step};

/// A line of a journal that is out of order, and whose step isn't there.
#[derive(Clone, Copy)]
pub(crate) struct Disorder {
    pub(crate) line: u64,
    pub(crate) caller: u32,
}

/// The first item of a journal that isn't its caller's next step, or the end where steps of a caller are missing, or None where the
/// journal is an interleaving of the scripts.
pub(crate) fn first_disorder(scripts: &[Vec<Line>], items: &[Item]) -> Option<Disorder>
    requires from_one { All (λ (item : JournalItem). 1 ≤ item.caller) items.now }
    requires to_most { All (λ (item : JournalItem). item.caller ≤ MOST_CALLERS) items.now }
    requires few_scripts { length scripts.now ≤ MOST_CALLERS }
    requires few { length items.now < 2 ^ 32 }
    ensures { MatchOption result (IsInterleaving (line_lists scripts.now) items.now)
        (λ disorder. IsFirstDisorder (line_lists scripts.now) items.now disorder.line disorder.caller) }
{
    let mut made = [0; MOST_CALLERS];
    for (place, item) in items.iter().enumerate() {
        let script = item.caller as usize - 1;
        if !is_step(step_at(scripts, script, made[script]), item.step) {
            return Some(Disorder {
                line: place as u64 + FIRST_LINE,
                caller: item.caller,
            });
        }
        made[script] += 1;
    }
    first_short(scripts, &made, items.len() as u64 + FIRST_LINE)
}

/// The step at that place of that script, where there is one.
fn step_at(scripts: &[Vec<Line>], script: usize, place: usize) -> Option<Step>
    ensures { result ≡ option_and_then (λ lines. slice_get (steps_of lines) place) (slice_get (line_lists scripts.now) script) }
{
    let lines = scripts.get(script)?;
    let line = lines.get(place)?;
    Some(line.step)
}

/// Whether the step that is found is this one.
fn is_step(found: Option<Step>, step: Step) -> bool
    ensures { (result ≡ true) ↔ (found ≡ Some step) }
{
    match found {
        Some(next) => next == step,
        None => false,
    }
}

/// The first caller that has made fewer steps than its script has, at that line.
fn first_short(scripts: &[Vec<Line>], made: &[usize; MOST_CALLERS], line: u64) -> Option<Disorder>
    requires few_scripts { length scripts.now ≤ MOST_CALLERS }
    ensures { MatchOption result (IsNoneShort (line_lists scripts.now) made.now)
        (λ disorder. (disorder.line ≡ line) × IsFirstShort (line_lists scripts.now) made.now disorder.caller) }
{
    for (script, lines) in scripts.iter().enumerate() {
        if made[script] < lines.len() {
            return Some(Disorder {
                line,
                caller: script as u32 + 1,
            });
        }
    }
    None
}
