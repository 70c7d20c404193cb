//! The totals of answers: how many rows they have, and what these pay.
ghost use Rattle.std.specs.Prelude.{◌≡◌, ◌+◌, ◌%◌, ◌^◌, ◌<◌, ◌≤◌, ◌∷◌, [], length, IfOk};
ghost use Rattle.act_engine.specs.Writing.{Writes};
ghost use Rattle.act_history.specs.History.{replies_of};
ghost use Rattle.act_transcript.specs.Text.{shared_runs};
ghost use Rattle.act_top.specs.Totals.{Adds, Counts, all_totals, answer_totals, modulo_2_64, rows_of_runs, totals_lines, totals_of};

use act_desk::FromAnswer;
use act_engine::{Failure, write_number};
use act_io::Sink;
use act_model::{Answer, Row, Rows, Run};
use act_num::{Fixed, NoMemory};
use act_transcript::answer_count;
use std::alloc::Global;
use std::sync::Arc;

/// How many rows there are, and the sum of their payoffs' units modulo 2^64.
#[derive(Clone, Copy)]
pub(crate) struct Totals {
    pub(crate) rows: u128,
    pub(crate) sum: u64,
}

/// Of an answer the totals of its rows are kept, and not the rows.
impl FromAnswer for Totals {
    ghost use Rattle.act_top.specs.Totals.{answer_totals};

    ghost kept_of = { answer_totals };

    fn from_answer(answer: Answer) -> Totals
        ensures { result ≡ answer_totals answer }
    {
        Totals::of_runs(&answer.runs)
    }
}

/// Writes the totals of the answers of a large run, given those of each answer, caller after caller: its number, how many contracts
/// have a name, how many answers there are, how many rows these have, and the sum of the rows' payoffs.
pub(crate) fn write_totals<K: Sink>(
    alloc: Global,
    out: &mut K,
    size: u32,
    contracts: u32,
    lists: &[Vec<Totals>],
) -> Result<(), Failure>
    requires few { length (replies_of lists.now) < 2 ^ 64 }
    ensures { Writes (totals_lines size contracts (length (replies_of lists.now)) (all_totals (replies_of lists.now))) (K.page out.old) result (K.page out.new) }
{
    let totals = Totals::of_lists(lists)?;
    let mut line = Vec::new(alloc);
    write_number(out, &mut line, b"big", u128::from(size))?;
    write_number(out, &mut line, b"contracts", u128::from(contracts))?;
    write_number(out, &mut line, b"asks", answer_count(lists) as u128)?;
    write_number(out, &mut line, b"rows", totals.rows)?;
    write_number(out, &mut line, b"sum", u128::from(totals.sum))
}

impl Totals {
    /// Those of no rows.
    const NONE: Totals = Totals { rows: 0, sum: 0 };

    /// Those of totals together. Where there are too many rows to be counted memory has run out, as in the next two calls.
    fn of_lists(lists: &[Vec<Totals>]) -> Result<Totals, NoMemory>
        ensures { IfOk result (λ totals. totals ≡ all_totals (replies_of lists.now)) }
    {
        let mut totals = Totals::NONE;
        for others in lists {
            totals.add_all(others)?;
        }
        Ok(totals)
    }

    /// Adds totals.
    fn add_all(&mut self, others: &[Totals]) -> Result<(), NoMemory>
        ensures { IfOk result (λ _. Adds self.old self.new others.now) }
    {
        for other in others {
            self.add(other)?;
        }
        Ok(())
    }

    /// Adds another's.
    fn add(&mut self, other: &Totals) -> Result<(), NoMemory>
        ensures { IfOk result (λ _. Adds self.old self.new (other.now ∷ [])) }
    {
        let Some(rows) = self.rows.checked_add(other.rows) else {
            return Err(NoMemory);
        };
        self.rows = rows;
        self.sum = self.sum.wrapping_add(other.sum);
        Ok(())
    }

    /// Those of the rows of runs.
    fn of_runs(runs: &[(u32, Arc<Run, Global>)]) -> Totals
        ensures { result ≡ totals_of (rows_of_runs (shared_runs runs.now)) }
    {
        let mut totals = Totals::NONE;
        for run in runs {
            totals.add_rows(&run.1.rows);
        }
        totals
    }

    /// Adds rows.
    fn add_rows(&mut self, rows: &Rows)
        requires { self.old.rows + 2 ^ 64 ≤ 2 ^ 128 }
        ensures counted { Counts self.old self.new rows.now }
        ensures few { self.new.rows ≤ self.old.rows + 2 ^ 64 }
    {
        for place in 0..rows.count() {
            self.add_row(&rows.row(place));
        }
    }

    /// Adds a row.
    #[inline(always)]
    fn add_row(&mut self, row: &Row)
        requires { self.old.rows + 1 < 2 ^ 128 }
        ensures { Counts self.old self.new (row.now ∷ []) }
    {
        self.rows += 1;
        self.sum = self.sum.wrapping_add(modulo_2_64(row.payoff));
    }
}

/// The units of an amount modulo 2^64.
#[tactic(auto, unfolding(crate::specs::Totals::modulo_2_64))]
fn modulo_2_64(amount: Fixed) -> u64
    ensures { result ≡ modulo_2_64 amount }
{
    amount.units().rem_euclid(1 << 64) as u64
}
