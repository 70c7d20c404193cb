//! Calls of what asks weigh.
ghost use Rattle.std.specs.Prelude.{◌≡◌, ◌↔◌, IsTrue, length};
ghost use Rattle.act_script.specs.Asks.{AsksBelow, is_below};

use act_date::parse_day;
use act_explain::{AskWeight, Message, explain_weight};
use act_model::{Asked, Line, Obs, Step};
use act_num::Fixed;
use act_script::{All, MOST_WEIGHT, weigh};
use cases_rows::Case;

/// Tells the place of the first ask past the limit in two scripts.
pub fn answer(case: &mut Case<'_>, call: &str) {
    let weights = case.places();
    let (weight, contracts, events) = (case.place(), case.place(), case.place());
    let (first, second) = (lines_of(case), lines_of(case));
    if call != "weigh"
        || !asks_below(weights.len(), &first)
        || !asks_below(weights.len(), &second)
    {
        case.fail("no such call, or no such contract");
    } else {
        let all = All { weight, contracts };
        weighed(case, &weights, all, events, first, second);
    }
}

fn weighed(
    case: &mut Case<'_>,
    weights: &[u64],
    all: All,
    events: u64,
    first: Vec<Line>,
    second: Vec<Line>,
)
    requires first { AsksBelow (length weights.now) first.items }
    requires second { AsksBelow (length weights.now) second.items }
{
    match vec![in case.alloc; first, second] {
        Ok(scripts) => {
            let past = weigh(weights, all, events, &scripts);
            case.value(past);
            if past.is_some() {
                explanation_told(case, all, events);
            }
        }
        Err(_) => case.fail("memory ran out"),
    }
}

/// Tells trouble where an ask for all that weighs too much has no explanation.
fn explanation_told(case: &mut Case<'_>, all: All, events: u64) {
    let mut message = Message::new(case.alloc);
    let weight = AskWeight {
        before: 0,
        contracts: all.contracts,
        events: all.weight,
        event_lines: events,
    };
    explain_weight(&mut message, None, weight, MOST_WEIGHT);
    let text = message.as_str();
    if !text.contains(" 4,194,304 ") || !text.ends_with(" (ERRORS, script 5)\n") {
        case.fail("no explanation");
    }
}

/// Whether the steps of a script ask for no contract but the first so many.
fn asks_below(count: usize, script: &[Line]) -> bool
    ensures { IsTrue result ↔ AsksBelow count script.now }
{
    script.iter().all(|line| is_step_below(count, line.step))
}

/// Whether a step does.
fn is_step_below(count: usize, step: Step) -> bool
    ensures { result ≡ is_below count step }
{
    match step {
        Step::Ask(Asked::One(contract)) => (contract as usize) < count,
        _ => true,
    }
}

/// The lines of a script of which each is a character.
fn lines_of(case: &mut Case<'_>) -> Vec<Line> {
    let mut lines = Vec::new(case.alloc);
    let mut line = 0_u32;
    let script = case.word();
    for letter in case.bytes_of(script).iter() {
        line = line.saturating_add(1);
        if let Some(step) = step_of(*letter) {
            case.is_wrong |= lines.push(Line { step, line }).is_err();
        }
    }
    lines
}

/// The step of a character.
fn step_of(letter: u8) -> Option<Step> {
    match letter {
        b'*' => Some(Step::Ask(Asked::All)),
        b'0' => Some(Step::Ask(Asked::One(0))),
        b'1' => Some(Step::Ask(Asked::One(1))),
        b'r' => Some(Step::Append(Obs::Rate {
            code: 0,
            day: parse_day(b"2020-06-01").ok()?,
            value: Fixed::ONE,
        })),
        _ => None,
    }
}
