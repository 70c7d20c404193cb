//! The command `big`: what the generator makes of a number, run at a desk.
ghost use Rattle.std.specs.Prelude.{◌≡◌, ◌≤◌, ℕ, Some, length, IfOk};
ghost use Rattle.act_engine.specs.Ending.{Goes};
ghost use Rattle.act_model.specs.Limits.{most_workers};
ghost use Rattle.act_engine.specs.Reading.{Reads, read_of};
ghost use Rattle.act_engine.specs.Writing.{Writes};
ghost use Rattle.act_engine.specs.declared.status.Status.TheVariants.{Done};
ghost use Rattle.act_gen.specs.Script.{script_text};
ghost use Rattle.act_history.specs.History.{journal_of};
ghost use Rattle.act_io.specs.World.{World};
ghost use Rattle.act_job.specs.Reading.{next_accepted};
ghost use Rattle.act_job.specs.Scripts.{AreScriptsOf, no_scripts};
ghost use Rattle.act_profile.specs.Answers.{answers_of};
ghost use Rattle.act_top.specs.Big.{big_meaning, big_reading};
ghost use Rattle.act_top.specs.Desk.{IsPlayOf};
ghost use Rattle.act_top.specs.Ran.{board_of, status_told};
ghost use Rattle.act_top.specs.Totals.{answer_totals, totals_text};
ghost use Rattle.act_top.specs.Words.{most_size};

use crate::desk::play;
use crate::ran::{Aside, Ran};
use crate::totals::{Totals, write_totals};
use act_desk::Context;
use act_engine::{Failure, Halt, Status};
use act_gen::{portfolio_bytes, script_bytes};
use act_io::{Gate, Sink};
use act_job::{Job, Scripts, accept_portfolio};
use act_portfolio::Portfolio;
use act_session::Session;
use std::alloc::Global;
use std::sync::Wait;
use std::thread::Threads;

/// Runs `big N W`: writes the totals of the answers.
pub(crate) fn run_big<R: Threads + Wait + Sync, K: Sink, G: Gate>(
    context: &Context<'_, R, G>,
    out: &mut K,
    size: u32,
    workers: u32,
) -> Result<Ran<'static>, Halt<'static>>
    requires some { 1 ≤ size }
    requires few { size ≤ most_size }
    requires workers { workers ≤ most_workers }
    ensures { (world : World) (rows : ℕ) → Goes (big_meaning size workers) (record { world = world; page = K.page out.old; rows = rows })
        (status_told result) (board_of result) (record { world = world; page = K.page out.new; rows = rows }) }
{
    let alloc = context.alloc;
    let job = big_job(alloc, size, workers)?;
    let played = play(context, &job)?;
    Ok(write_played(alloc, out, size, &job, played)?)
}

/// What is to be run of a number: the portfolio and the script that the generator makes, which are read as files are.
fn big_job(alloc: Global, size: u32, workers: u32) -> Result<Job, Halt<'static>>
    requires some { 1 ≤ size }
    requires few { size ≤ most_size }
    requires workers { workers ≤ most_workers }
    ensures read { (world : World) → Reads (big_reading size workers) world (read_of result) world }
    ensures one { IfOk result (λ job. length job.scripts.lists ≡ 1) }
{
    let bytes = portfolio_bytes(alloc, size)?;
    let portfolio = accept_portfolio(alloc, &bytes)?;
    drop(bytes);
    match big_scripts(alloc, &portfolio, size) {
        Ok(scripts) => Job::new(alloc, workers, portfolio, scripts),
        Err(halt) => {
            drop(portfolio);
            Err(halt)
        }
    }
}

/// The one script of a number, for its portfolio.
fn big_scripts(alloc: Global, portfolio: &Portfolio, size: u32) -> Result<Scripts, Halt<'static>>
    requires some { 1 ≤ size }
    requires few { size ≤ most_size }
    ensures read { (world : World) → Reads (next_accepted portfolio.now (no_scripts portfolio.now) (script_text size)) world (read_of result) world }
    ensures lines { IfOk result (AreScriptsOf portfolio.now) }
    ensures count { IfOk result (λ scripts. length scripts.lists ≡ 1) }
{
    let bytes = script_bytes(alloc, size)?;
    Scripts::accept_one(alloc, portfolio, &bytes)
}

/// Writes the totals of what was played of a job of one script.
fn write_played<K: Sink>(
    alloc: Global,
    out: &mut K,
    size: u32,
    job: &Job,
    played: Session<Totals>,
) -> Result<Ran<'static>, Failure>
    requires { IsPlayOf answer_totals job.now played }
    ensures ran { IfOk result (λ ran. (ran.status ≡ Done) × (ran.board ≡ Some played.board)) }
    ensures text { Writes (totals_text size (length job.now.portfolio.names.contracts)
        (answers_of job.now.portfolio.contracts job.now.scripts.names (journal_of played.board))) (K.page out.old) result (K.page out.new) }
{
    let Session { board, answers } = played;
    let written = write_totals(alloc, out, size, job.portfolio.named(), &answers);
    drop(answers);
    match written {
        Ok(()) => Ok(Ran {
            status: Status::Done,
            board: Some(board),
            aside: Aside::Nothing,
        }),
        Err(stop) => {
            drop(board);
            Err(stop)
        }
    }
}
