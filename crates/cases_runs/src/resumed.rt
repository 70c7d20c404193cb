//! Runs that go on from what is kept of a run at another version.
ghost use Rattle.std.specs.Prelude.{◌≡◌, ◌<◌, ◌≤◌, length, map, IfOk};
ghost use Rattle.std.specs.Arc.{arc_value};
ghost use Rattle.std.specs.List.{All};
ghost use Rattle.act_profile.specs.DayOrder.{AreInDayOrder, RunsAreInDayOrder};

use crate::kept::{kept_told, portfolio};
use crate::same::{are_same, keep_the_same};
use crate::scripts::read;
use crate::shadows::shadow_told;
use act_cut::cut;
use act_date::Day;
use act_io::Files;
use act_model::{Line, Listed, Obs, Observed, Run, Step};
use act_num::{NoMemory, Steps};
use act_portfolio::Portfolio;
use act_run::{Inputs, evaluate, kept_rows, resume, resume_shared};
use cases_rows::Case;
use std::alloc::Global;
use std::marker::{Brand, Model};
use std::sync::Arc;
use std::sync::ledger::{Blank, Ledger};

/// The file of a loan with a penalty.
const LOAN: &str = "scripts/prepayment.json";

/// The run of a contract, whose rows stand by their days.
#[derive(Drop)]
struct Evaluated {
    run: Arc<Run, Global>,
}

impl Model for Evaluated {
    ghost use Rattle.std.specs.Arc.{arc_value};
    ghost use Rattle.act_model.specs.Run.{Stream};
    ghost use Rattle.act_profile.specs.DayOrder.{AreInDayOrder};

    ghost Value = { Stream };

    ghost view = { λ e. arc_value e.run };

    ghost invariant = { λ e. AreInDayOrder (arc_value e.run).rows };
}

/// The runs of a portfolio's contracts over entries, in the order of evaluation.
#[derive(Clone, Copy)]
struct Runs<'a> {
    portfolio: &'a Portfolio,
    seen: &'a Listed,
    runs: &'a [Evaluated],
}

/// Tells what a call answers.
pub fn answer<F: Files>(case: &mut Case<'_>, files: &mut F, call: &str) {
    let name = match call {
        "shadow" => LOAN,
        _ => case.word(),
    };
    let bytes = case.file(files, name);
    match portfolio(case.alloc, &bytes) {
        Some(portfolio) => of_portfolio(case, &portfolio, call),
        None => case.fail("the portfolio is refused"),
    }
}

/// Tells what a call answers about a portfolio.
fn of_portfolio(case: &mut Case<'_>, portfolio: &Portfolio, call: &str) {
    match call {
        "resume" => resumed_told(case, portfolio),
        "kept" => kept_told(case, portfolio),
        "shadow" => shadow_told(case, portfolio),
        _ => case.fail("no such call"),
    }
}

/// Tells of each contract of a portfolio, over the script below it, how many rows are kept and of how many, where its run before the last
/// entries goes on to that behind them, and the other way round. Each, shared or not, is compared with the run from inception.
fn resumed_told(case: &mut Case<'_>, portfolio: &Portfolio) {
    let last = case.count() as usize;
    let script = case.given.split_once('\n').unwrap_or(("", "")).1;
    let bytes = case.bytes_of(script);
    let entries = entries_of(case, portfolio, &bytes);
    all_told(
        case,
        portfolio,
        &entries,
        entries.len().saturating_sub(last),
    );
}

/// The entries that a script appends.
fn entries_of(case: &mut Case<'_>, portfolio: &Portfolio, script: &[u8]) -> Vec<Obs> {
    let mut entries = Vec::new(case.alloc);
    match portfolio.to_names() {
        Ok(mut names) => match read(case.alloc, script, &mut names, portfolio.terms(), &mut 0) {
            Ok(lines) => push_entries(case, &lines, &mut entries),
            Err(_) => case.fail("the script is refused"),
        },
        Err(_) => case.fail("memory ran out"),
    }
    entries
}

/// Adds the entries that lines append.
fn push_entries(case: &mut Case<'_>, lines: &[Line], entries: &mut Vec<Obs>) {
    for line in lines {
        if let Step::Append(entry) = line.step {
            case.is_wrong |= entries.push(entry).is_err();
        }
    }
}

/// Tells of all contracts, between the version of so many entries and that of all.
fn all_told(case: &mut Case<'_>, portfolio: &Portfolio, entries: &[Obs], older: usize) {
    if versions_told::<Brand>(case, portfolio, entries, older, Blank::new(1)).is_none() {
        case.fail("memory ran out");
    }
}

/// The same with a counter.
fn versions_told<L: Ledger>(
    case: &mut Case<'_>,
    portfolio: &Portfolio,
    entries: &[Obs],
    older: usize,
    blank: Blank,
) -> Option<()>
    requires name { blank.name ≡ L.name }
    requires parts { blank.parts ≡ L.parts }
    requires some_parts { 0 < L.parts }
{
    let mut steps = Steps::<L>::new(blank);
    let before = Listed::new(entries.get(..older)?.to_vec(case.alloc).ok()?);
    let after = Listed::new(entries.to_vec(case.alloc).ok()?);
    both_told(case, portfolio, &before, &after, &mut steps).ok()
}

/// Tells of all contracts, over the entries before and after.
fn both_told<'a, L: Ledger>(
    case: &mut Case<'_>,
    portfolio: &'a Portfolio,
    before: &'a Listed,
    after: &'a Listed,
    steps: &mut Steps<L>,
) -> Result<(), NoMemory>
    requires { length before.now ≤ length after.now }
{
    let old = all_runs(case.alloc, portfolio, before, steps)?;
    let new = all_runs(case.alloc, portfolio, after, steps)?;
    let old = Runs {
        portfolio,
        seen: before,
        runs: &old,
    };
    let new = Runs {
        portfolio,
        seen: after,
        runs: &new,
    };
    for contract in 0..portfolio.terms().len() {
        let contract = contract as u32;
        let cut = cut(
            portfolio.reads(contract),
            after,
            before.version(),
            after.version(),
        );
        case.next("; ");
        one_told(case, contract, &old, &new, &cut, steps)?;
        case.text(", ");
        one_told(case, contract, &new, &old, &cut, steps)?;
    }
    Ok(())
}

/// Tells how many rows are kept and of how many, where a contract's run goes on.
fn one_told<L: Ledger>(
    case: &mut Case<'_>,
    contract: u32,
    from: &Runs<'_>,
    to: &Runs<'_>,
    cut: &Option<Day>,
    steps: &mut Steps<L>,
) -> Result<(), NoMemory>
    requires from { contract < length from.now.portfolio.now.contracts.terms }
    requires to { contract < length to.now.portfolio.now.contracts.terms }
{
    let portfolio = to.portfolio;
    let children = runs_at(case.alloc, portfolio, to.runs, portfolio.children(contract))?;
    let kept = run_at(from.portfolio, from.runs, contract)?;
    let inputs = inputs_of(portfolio, contract, &children, to.seen);
    resumed_run_told(case, &inputs, &kept, cut, steps)
}

/// Tells the same of a run that goes on from another, and whether it differs from the run from inception.
fn resumed_run_told<L: Ledger>(
    case: &mut Case<'_>,
    inputs: &Inputs<'_, Listed>,
    kept: &Arc<Run, Global>,
    cut: &Option<Day>,
    steps: &mut Steps<L>,
) -> Result<(), NoMemory>
    requires { AreInDayOrder (arc_value kept.now).rows }
{
    let run = evaluate(case.alloc, inputs, steps)?;
    if keep_the_same(case.alloc, kept, &run, *cut)? {
        let resumed = resume(case.alloc, inputs, kept, *cut, steps)?;
        let shared = resume_shared(case.alloc, inputs, kept, *cut, steps)?;
        if !are_same(&resumed, &run) || !are_same(&shared, &run) {
            case.text("differs from ");
        }
    } else {
        case.text("other rows are kept than ");
    }
    case.value(kept_rows(kept, *cut));
    case.text(" of ");
    case.value(run.rows.count());
    Ok(())
}

/// The runs of all contracts, in the order of evaluation: children first.
fn all_runs<L: Ledger>(
    alloc: Global,
    portfolio: &Portfolio,
    seen: &Listed,
    steps: &mut Steps<L>,
) -> Result<Vec<Evaluated>, NoMemory> {
    let mut runs = Vec::new(alloc);
    for contract in portfolio.order() {
        let run = run_of(alloc, portfolio, *contract, &runs, seen, steps)?;
        runs.push(run)?;
    }
    Ok(runs)
}

/// The run of a contract over those of its children.
fn run_of<L: Ledger>(
    alloc: Global,
    portfolio: &Portfolio,
    contract: u32,
    runs: &[Evaluated],
    seen: &Listed,
    steps: &mut Steps<L>,
) -> Result<Evaluated, NoMemory>
    requires { contract < length portfolio.now.contracts.terms }
{
    let children = runs_at(alloc, portfolio, runs, portfolio.children(contract))?;
    let inputs = inputs_of(portfolio, contract, &children, seen);
    let run = evaluate(alloc, &inputs, steps)?;
    let run = Arc::new(alloc, run)?;
    Ok(Evaluated { run })
}

/// What the run of a contract is a function of.
fn inputs_of<'a>(
    portfolio: &'a Portfolio,
    contract: u32,
    children: &'a [Arc<Run, Global>],
    seen: &'a Listed,
) -> Inputs<'a, Listed>
    requires contract { contract < length portfolio.now.contracts.terms }
    requires children { RunsAreInDayOrder (map arc_value children.now) }
{
    Inputs {
        terms: &portfolio.terms()[contract as usize],
        plan: portfolio.plan(contract),
        children,
        seen,
    }
}

/// The runs of contracts, each of which has one.
fn runs_at(
    alloc: Global,
    portfolio: &Portfolio,
    runs: &[Evaluated],
    contracts: &[u32],
) -> Result<Vec<Arc<Run, Global>>, NoMemory>
    requires { All (λ contract. contract < length portfolio.now.contracts.terms) contracts.now }
    ensures { IfOk result (λ found. RunsAreInDayOrder (map arc_value found.items)) }
{
    let mut found = Vec::new(alloc);
    'contracts: for contract in contracts {
        let run = run_at(portfolio, runs, *contract)?;
        found.push(run)?;
    }
    Ok(found)
}

/// The run of a contract, which has one.
fn run_at(
    portfolio: &Portfolio,
    runs: &[Evaluated],
    contract: u32,
) -> Result<Arc<Run, Global>, NoMemory>
    requires { contract < length portfolio.now.contracts.terms }
    ensures { IfOk result (λ run. AreInDayOrder (arc_value run).rows) }
{
    match runs.get(portfolio.rank(contract) as usize) {
        Some(evaluated) => Ok(Arc::try_clone(&evaluated.run)?),
        None => Err(NoMemory),
    }
}
