//! The command `eval`.
ghost use Rattle.std.specs.Prelude.{◌≡◌, ◌≤◌, ◌∷◌, [], List, None, length, map, string_bytes, IfOk};
ghost use Rattle.act_engine.specs.Ending.{Goes};
ghost use Rattle.act_engine.specs.Reading.{Reads, read_of};
ghost use Rattle.act_job.specs.Job.{IsRunnable};
ghost use Rattle.act_model.specs.declared.journal.Line.{Line};
ghost use Rattle.act_top.specs.Eval.{eval_meaning, eval_reading};
ghost use Rattle.act_top.specs.Ran.{status_told};

use crate::ran::{Aside, Ran};
use act_engine::Halt;
use act_eval::Evaluation;
use act_io::{Files, Sink};
use act_job::{Job, Scripts, read_portfolio};
use act_num::Steps;
use act_portfolio::Portfolio;
use std::alloc::Global;
use std::sync::ledger::Ledger;

/// Runs `eval P S`, or `eval P` where no script is named: writes the journal of the one caller, the answer to each ask, and how many rows
/// were computed for them.
pub(crate) fn run_eval<'a, F: Files, K: Sink, L: Ledger>(
    alloc: Global,
    files: &mut F,
    out: &mut K,
    portfolio: &'a str,
    scripts: &'a [String],
    steps: &mut Steps<L>,
) -> Result<Ran<'a>, Halt<'a>>
    requires { length scripts.now ≤ 1 }
    ensures gone { Goes (eval_meaning portfolio.now (map string_bytes scripts.now)) (record { world = F.world files.old; page = K.page out.old; rows = steps.old })
        (status_told result) None (record { world = F.world files.new; page = K.page out.new; rows = steps.new }) }
    ensures board { IfOk result (λ ran. ran.board ≡ None) }
{
    let job = eval_job(alloc, files, portfolio, scripts)?;
    let stops = evaluation_of(&job).write(alloc, out, steps)?;
    Ok(Ran {
        status: stops.status(),
        board: None,
        aside: Aside::Written { job, stops },
    })
}

/// What is to be evaluated.
fn eval_job<'a, F: Files>(
    alloc: Global,
    files: &mut F,
    portfolio: &'a str,
    scripts: &'a [String],
) -> Result<Job, Halt<'a>>
    requires { length scripts.now ≤ 1 }
    ensures read { Reads (eval_reading portfolio.now (map string_bytes scripts.now)) (F.world files.old) (read_of result) (F.world files.new) }
    ensures one { IfOk result (λ job. length job.scripts.lists ≡ 1) }
{
    if !scripts.is_empty() {
        return Job::read(alloc, files, 0, portfolio, scripts);
    }
    let portfolio = read_portfolio(alloc, files, portfolio)?;
    match Scripts::ask_for_all(alloc, &portfolio) {
        Ok(scripts) => Job::new(alloc, 0, portfolio, scripts),
        Err(fault) => {
            drop(portfolio);
            Err(fault.into())
        }
    }
}

/// The evaluation of a job's one script.
fn evaluation_of(job: &Job) -> Evaluation<'_>
    requires { length job.now.scripts.lists ≡ 1 }
    ensures runnable { IsRunnable job.now.portfolio job.now.scripts job.now.workers }
    ensures portfolio { result.portfolio ≡ job.now.portfolio }
    ensures names { result.names ≡ job.now.scripts.names }
    ensures lines { job.now.scripts.lists ≡ result.lines ∷ [] }
{
    Evaluation {
        portfolio: &job.portfolio,
        names: &job.scripts.names,
        lines: &job.lists()[0],
    }
}
