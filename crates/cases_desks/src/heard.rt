//! What a caller is told, as text.
use act_board::AppendFault;
use act_model::{Answer, Close, Item, Names, Row, Run, Step};
use cases_rows::{Case, step_told};
use std::alloc::Global;
use std::fmt::Debug;

/// What a caller is told.
#[derive(Drop)]
pub struct Heard<'a> {
    names: &'a Names,
    /// A line for each of its steps, with what it was answered.
    pub steps: Case<'a>,
    /// A line for each of its answers, with all rows.
    pub answers: Case<'a>,
    /// Whether it was told that the board was given up, or memory ran out.
    pub is_over: bool,
}

impl<'a> Heard<'a> {
    /// Nothing. Names are those of a portfolio.
    pub fn new(alloc: Global, names: &'a Names) -> Heard<'a> {
        Heard {
            names,
            steps: Case::of(alloc, ""),
            answers: Case::of(alloc, ""),
            is_over: false,
        }
    }

    /// Tells a step, and what it was answered: its version, or its number among the caller's asks.
    pub fn step<F: Debug + Drop>(&mut self, step: Step, answer: Result<u64, F>) {
        step_told(&mut self.steps, self.names, step);
        self.steps.text(": ");
        self.steps.value(answer);
        self.steps.text("\n");
    }

    /// Tells an answer: whose it is, the ask's number, its version, and for each contract its rows and how they close.
    pub fn answer(&mut self, caller: u32, number: u64, answer: &Answer) {
        self.answers.value((caller, number, answer.version));
        for (contract, run) in &answer.runs {
            run_told(&mut self.answers, *contract, run);
        }
        self.answers.text("\n");
    }

    /// Tells why no more will come.
    pub fn over(&mut self, why: &str) {
        self.steps.text(why);
        self.steps.text("\n");
        self.is_over = true;
    }

    /// Whether another was told the same.
    pub fn is_same(&self, other: &Heard<'_>) -> bool {
        self.steps.told == other.steps.told
            && self.answers.told == other.answers.told
            && !self.steps.is_wrong
            && !self.answers.is_wrong
    }
}

/// What a caller is to be told: a line for each of its steps in a journal, with its version or its number, and of the answers to all
/// asks of the journal those to its own.
pub fn wanted<'a>(
    alloc: Global,
    names: &'a Names,
    caller: u32,
    items: &[Item],
    answers: &[Answer],
) -> Heard<'a> {
    let mut heard = Heard::new(alloc, names);
    let (mut version, mut number) = (0_u64, 0_u64);
    let mut rest = answers.iter();
    for item in items {
        let is_own = item.caller == caller;
        match item.step {
            Step::Append(_) => {
                version = version.saturating_add(1);
                if is_own {
                    heard.step(item.step, Ok::<u64, AppendFault>(version));
                }
            }
            Step::Ask(_) => match rest.next() {
                Some(answer) if is_own => {
                    number = number.saturating_add(1);
                    heard.step(item.step, Ok::<u64, AppendFault>(number));
                    heard.answer(caller, number, answer);
                }
                _ => {}
            },
        }
    }
    heard
}

/// Tells the rows of a contract, and how they close.
fn run_told(case: &mut Case<'_>, contract: u32, run: &Run) {
    case.text(" contract ");
    case.value(contract);
    for place in 0..run.rows.count() {
        row_told(case, &run.rows.row(place));
    }
    match run.close {
        Close::End => case.text(" end"),
        Close::Missing { code, day } => case.value((code, day.number())),
        Close::Overflow { day, kind } => case.value((day.number(), kind)),
    }
}

/// Tells all of a row.
fn row_told(case: &mut Case<'_>, row: &Row) {
    let state = &row.state;
    case.value((row.kind, row.currency));
    for day in &[Some(row.day), state.sd, state.md, state.xd] {
        match day {
            Some(day) => case.value(day.number()),
            None => case.text(" none "),
        }
    }
    for amount in &[
        row.payoff,
        state.nt,
        state.ipnr,
        state.ipac,
        state.ipnr2,
        state.ipac2,
        state.feac,
        state.nsc,
        state.isc,
        state.ipcb,
        state.prnxt,
        state.xa,
    ] {
        case.text(" ");
        case.value(amount.units());
    }
}
