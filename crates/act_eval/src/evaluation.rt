//! A portfolio, and the script of one caller.
ghost use Rattle.std.specs.Prelude.{◌≡◌, [], ◌∷◌, count_by, length, IfOk};
ghost use Rattle.act_model.specs.Journal.{book_of, is_append};
ghost use Rattle.act_model.specs.declared.journal.Line.{Line as StepLine};
ghost use Rattle.act_transcript.specs.Text.{items_of};

use act_board::Board;
use act_model::{Line, Names, Step};
use act_num::NoMemory;
use act_portfolio::Portfolio;
use std::alloc::Global;
use std::marker::Model;
use std::sync::Arc;

/// A portfolio, and the script of one caller, whose asks don't weigh too much.
#[derive(Drop)]
pub struct Evaluation<'a> {
    /// The portfolio.
    pub portfolio: &'a Arc<Portfolio, Global>,
    /// The names that the lines are read with.
    pub names: &'a Names,
    /// The script's lines.
    pub lines: &'a [Line],
}

impl<'a> Model for Evaluation<'a> {
    ghost use Rattle.std.specs.Arc.{arc_value};
    ghost use Rattle.act_eval.specs.Evaluation as evaluation;

    ghost Value = { evaluation.Evaluation };

    ghost view = { λ e. record { portfolio = arc_value e.portfolio.now; names = e.names.now; lines = e.lines.now } };

    ghost invariant = { λ e. evaluation.IsEvaluable (arc_value e.portfolio.now) e.names.now e.lines.now };
}

impl Evaluation<'_> {
    /// A board on which nothing has happened, for the one caller.
    pub(crate) fn board(&self, alloc: Global) -> Result<Board, NoMemory>
        ensures { IfOk result (λ board. board ≡ record { portfolio = self.now.portfolio; quotas = length (book_of (items_of self.now.lines)) ∷ []; marks = [] }) }
    {
        let portfolio = Arc::try_clone(self.portfolio)?;
        Board::new(alloc, portfolio, &[entry_count(self.lines)])
    }
}

/// How many entries a script appends.
fn entry_count(lines: &[Line]) -> u64
    ensures { result ≡ count_by (λ (line : StepLine). is_append line.step) lines.now }
{
    lines
        .iter()
        .filter(|line| matches!(line.step, Step::Append(_)))
        .count() as u64
}
