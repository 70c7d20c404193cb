//! The command `desk`.
ghost use Rattle.std.specs.Prelude.{◌≡◌, ◌≤◌, ℕ, Some, length, map, string_bytes, IfOk};
ghost use Rattle.act_engine.specs.Ending.{Goes};
ghost use Rattle.act_engine.specs.Writing.{Writes};
ghost use Rattle.act_model.specs.Limits.{most_callers, most_workers};
ghost use Rattle.act_history.specs.History.{journal_of, replies_of};
ghost use Rattle.act_session.specs.Interleaving.{IsInterleaving};
ghost use Rattle.act_top.specs.Desk.{IsPlayOf, desk_meaning};
ghost use Rattle.act_top.specs.Ran.{board_of, status_told};
ghost use Rattle.act_profile.specs.Answers.{answers_of};
ghost use Rattle.act_transcript.specs.Ends.{answers_status};
ghost use Rattle.act_transcript.specs.Text.{output_of};

use crate::ran::{Aside, Ran};
use act_board::Board;
use act_desk::{Context, FromAnswer};
use act_engine::{Failure, Halt};
use act_io::{Files, Gate, Sink};
use act_job::Job;
use act_model::Answer;
use act_num::NoMemory;
use act_session::{Session, session};
use act_transcript::{Blocks, SideBySide, answer_count, stops_of, write_answers_by, write_heads};
use std::alloc::Global;
use std::sync::{Arc, Wait};
use std::thread::Threads;

/// What `desk W P S1 .. Sk` names.
#[derive(Clone, Copy)]
pub(crate) struct DeskWords<'a> {
    /// How many workers there are.
    pub(crate) workers: u32,
    /// The file of the portfolio.
    pub(crate) portfolio: &'a str,
    /// The files of the callers' scripts.
    pub(crate) scripts: &'a [String],
}

/// Runs `desk W P S1 .. Sk`: writes the journal of all callers, and the answer to each ask, by caller and number.
pub(crate) fn run_desk<'a, R: Threads + Wait + Sync, F: Files, K: Sink, G: Gate>(
    context: &Context<'_, R, G>,
    files: &mut F,
    out: &mut K,
    desk: DeskWords<'a>,
) -> Result<Ran<'a>, Halt<'a>>
    requires workers { desk.workers ≤ most_workers }
    requires some { 1 ≤ length desk.scripts.now }
    requires few { length desk.scripts.now ≤ most_callers }
    ensures { (rows : ℕ) → Goes (desk_meaning desk.entry.workers desk.entry.portfolio.now (map string_bytes desk.entry.scripts.now))
        (record { world = F.world files.old; page = K.page out.old; rows = rows }) (status_told result) (board_of result)
        (record { world = F.world files.new; page = K.page out.new; rows = rows }) }
{
    let alloc = context.alloc;
    let job = Job::read(alloc, files, desk.workers, desk.portfolio, desk.scripts)?;
    let played = play(context, &job)?;
    Ok(write_played(context, out, job, played)?)
}

/// What callers and workers play of a job, with what is kept of the answers.
pub(crate) fn play<R: Threads + Wait + Sync, G: Gate, A: FromAnswer>(
    context: &Context<'_, R, G>,
    job: &Job,
) -> Result<Session<A>, NoMemory>
    requires { 1 ≤ length job.now.scripts.lists }
    ensures { IfOk result (IsPlayOf A.kept_of job.now) }
{
    let portfolio = Arc::try_clone(&job.portfolio)?;
    session(context, portfolio, job.lists(), job.workers)
}

/// Writes what was played of a job.
fn write_played<R: Threads + Sync, K: Sink, G: Gate>(
    context: &Context<'_, R, G>,
    out: &mut K,
    job: Job,
    played: Session<Answer>,
) -> Result<Ran<'static>, Failure>
    requires { IsPlayOf (λ answer. answer) job played }
    ensures run { IfOk result (λ ran. ran.board ≡ Some played.board) }
    ensures text { Writes (output_of job.portfolio job.scripts.names (journal_of played.board)) (K.page out.old) result (K.page out.new) }
    ensures status { IfOk result (λ ran. ran.status ≡ answers_status (answers_of job.portfolio.contracts job.scripts.names (journal_of played.board))) }
{
    let Session { mut board, answers } = played;
    let written = write_run(context, out, &job, &mut board, &answers);
    let stops = stops_of(&answers);
    drop(answers);
    match written {
        Ok(()) => Ok(Ran {
            status: stops.status(),
            board: Some(board),
            aside: Aside::Written { job, stops },
        }),
        Err(stop) => {
            drop(job);
            drop(board);
            Err(stop)
        }
    }
}

/// Writes the journal of a board on which a job's scripts were played, and the answers to its asks, caller after caller.
fn write_run<R: Threads + Sync, K: Sink, G: Gate>(
    context: &Context<'_, R, G>,
    out: &mut K,
    job: &Job,
    board: &mut Board,
    answers: &[Vec<Answer>],
) -> Result<(), Failure>
    requires portfolio { board.old.portfolio ≡ job.now.portfolio }
    requires interleaved { IsInterleaving job.now.scripts.lists (journal_of board.old) }
    requires answers { replies_of answers.now ≡ answers_of job.now.portfolio.contracts job.now.scripts.names (journal_of board.old) }
    ensures text { Writes (output_of job.now.portfolio job.now.scripts.names (journal_of board.old)) (K.page out.old) result (K.page out.new) }
    ensures board { board.new ≡ board.old }
{
    let names = &job.scripts.names;
    let journal = board.journal();
    let count = answer_count(answers);
    let mut blocks = Blocks::new(context.alloc, names, job.portfolio.named() as usize, count)?;
    write_heads(out, &mut blocks.line, names, journal, count)?;
    let way = SideBySide {
        rt: context.rt,
        threads: job.workers as usize,
    };
    write_answers_by(&way, out, &mut blocks, board, answers)
}
