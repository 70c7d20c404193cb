//! What the asks of scripts weigh.
ghost use Rattle.std.specs.Prelude.{◌≡◌, ◌≤◌, count_by, length, map, sum, sum_by, IfOk};
ghost use Rattle.std.specs.List.{All as Each};
ghost use Rattle.act_cones.specs.Counts.{cone_sum};
ghost use Rattle.act_model.specs.Limits.{most_callers};
ghost use Rattle.act_model.specs.Journal.{is_append};
ghost use Rattle.act_model.specs.declared.journal.Line.{Line as StepLine};
ghost use Rattle.act_script.specs.Asks.{AsksBelow, line_lists};
ghost use Rattle.act_job.specs.Weight.{is_event, numbers_of, too_much_asked};

use act_model::{Line, MOST_ENTRIES, Obs, Step};
use act_num::NoMemory;
use act_portfolio::Portfolio;
use act_script::{All, weigh};
use std::alloc::Global;

/// The cone sums of contracts, and their sum.
#[derive(Drop)]
struct Weights {
    /// The cone sum of each named contract, by its number.
    each: Vec<u64>,
    /// Their sum.
    all: u64,
}

/// The first ask of scripts up to which asks weigh more than `actus` takes: its script's place, from 1, and its line.
pub fn first_overweight(
    alloc: Global,
    portfolio: &Portfolio,
    scripts: &[Vec<Line>],
) -> Result<Option<(u32, u32)>, NoMemory>
    requires contracts { Each (AsksBelow (length portfolio.now.names.contracts)) (line_lists scripts.now) }
    requires few { sum_by (count_by (λ (line : StepLine). is_append line.step)) (line_lists scripts.now) ≤ MOST_ENTRIES }
    requires callers { length scripts.now ≤ most_callers }
    ensures { IfOk result (λ ask. ask ≡ too_much_asked portfolio.now (line_lists scripts.now)) }
{
    let weights = weights_of(alloc, portfolio)?;
    let all = All {
        weight: weights.all,
        contracts: u64::from(portfolio.named()),
    };
    Ok(weigh(&weights.each, all, all_events(scripts), scripts))
}

/// The cone sums of the named contracts by their numbers.
fn weights_of(alloc: Global, portfolio: &Portfolio) -> Result<Weights, NoMemory>
    ensures each { IfOk result (λ weights. weights.each.items ≡ map (cone_sum portfolio.now.contracts) (numbers_of portfolio.now)) }
    ensures all { IfOk result (λ weights. weights.all ≡ sum (map (cone_sum portfolio.now.contracts) (numbers_of portfolio.now))) }
{
    let contracts = portfolio.terms().len();
    let mut each = Vec::with_capacity(alloc, contracts)?;
    let mut all = 0;
    for contract in 0..portfolio.named() {
        let weight = portfolio.weight(contract);
        all += weight;
        each.push(weight)?;
    }
    Ok(Weights { each, all })
}

/// How many event entries all scripts have.
fn all_events(scripts: &[Vec<Line>]) -> u64
    requires few { sum_by (count_by (λ (line : StepLine). is_append line.step)) (line_lists scripts.now) ≤ MOST_ENTRIES }
    ensures { result ≡ sum_by (count_by is_event) (line_lists scripts.now) }
{
    let mut events = 0;
    for script in scripts {
        events += event_count(script);
    }
    events
}

/// How many event entries a script has.
fn event_count(lines: &[Line]) -> u64
    ensures { result ≡ count_by is_event lines.now }
{
    lines.iter().filter(|line| is_event(line)).count() as u64
}

/// Whether a line has an event entry.
fn is_event(line: &Line) -> bool
    ensures { result ≡ is_event line.now }
{
    matches!(line.step, Step::Append(Obs::Event { .. }))
}
