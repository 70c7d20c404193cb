//! The commands, by their words.
ghost use Rattle.std.specs.Prelude.{◌≡◌, ℕ, None, Some, map, string_bytes, IfOk, IfSome};
ghost use Rattle.act_engine.specs.Ending.{Concludes, Ends, words_meaning};
ghost use Rattle.act_engine.specs.Reading.{halt_of};
ghost use Rattle.act_io.specs.World.{World};
ghost use Rattle.act_history.specs.History.{History};
ghost use Rattle.act_top.specs.Commands.{EndsAs, GoesAs, alone, threaded};
ghost use Rattle.act_top.specs.Ran.{board_of, status_told};
ghost use Rattle.act_top.specs.Words.{Alone, IsWithin, Threaded, alone_told, command_of, threaded_told, usage};

use crate::big::run_big;
use crate::check::run_check;
use crate::desk::run_desk;
use crate::eval::run_eval;
use crate::ran::{Aside, Ran};
use crate::words::{AloneCommand, Command, ThreadedCommand, USAGE};
use act_desk::Context;
use act_engine::{Halt, Refusal, Status, conclude};
use act_io::{Files, Gate, Sink};
use act_num::Steps;
use std::alloc::Global;
use std::sync::Wait;
use std::sync::ledger::Ledger;
use std::thread::Threads;

/// Runs the command of the words over the files, and writes its text, or a line that says why it is refused: those of `eval_top` and
/// those of `desk_top`.
pub fn actus_top<'a, R: Threads + Wait + Sync, F: Files, K: Sink, G: Gate, L: Ledger>(
    context: &Context<'_, R, G>,
    words: &'a [String],
    files: &mut F,
    out: &mut K,
    steps: &mut Steps<L>,
) -> Ran<'a>
    ensures ended { EndsAs (command_of (map string_bytes words.now)) (record { world = F.world files.old; page = K.page out.old; rows = steps.old })
        result.status result.board (record { world = F.world files.new; page = K.page out.new; rows = steps.new }) }
    ensures steps { IfSome (threaded (command_of (map string_bytes words.now))) (λ _. steps.new ≡ steps.old) }
{
    match Command::of(words) {
        Some(Command::Threaded(command)) => run_threaded(context, command, files, out),
        Some(Command::Alone(command)) => run_alone(context.alloc, command, files, out, steps),
        None => refuse(context.alloc, out),
    }
}

/// Runs the commands that one thread runs, and writes their text, or a line that says why it is refused.
///
/// `eval P S` evaluates the contracts of the portfolio file P that the script file S asks for: it writes the journal of
/// the one caller, then the answer to each ask over the entries before it, and last how many rows were computed for them.
/// A contract's evaluation goes on from what is kept of the one before, so that an ask computes only the rows dated from the
/// earliest day of the entries since then that the contract, or one that it refers to, reads. `eval P` has the script of one line
/// that asks for all contracts. `check P` writes the contracts of P, with the names that they don't use. All other words end with
/// `Status::Words` and the usage line. The counter ticks once for each row that is computed.
pub fn eval_top<F: Files, K: Sink, L: Ledger>(
    alloc: Global,
    words: &[String],
    files: &mut F,
    out: &mut K,
    steps: &mut Steps<L>,
) -> Status
    ensures { EndsAs (alone (command_of (map string_bytes words.now))) (record { world = F.world files.old; page = K.page out.old; rows = steps.old })
        result None (record { world = F.world files.new; page = K.page out.new; rows = steps.new }) }
{
    match Command::of(words) {
        Some(Command::Alone(command)) => run_alone(alloc, command, files, out, steps).status,
        Some(Command::Threaded(_)) => refuse(alloc, out).status,
        None => refuse(alloc, out).status,
    }
}

/// Runs the commands that threads run, and writes their text, or a line that says why it is refused.
///
/// `desk W P S1 .. Sk`: W is a decimal from 1 to 64 without sign or leading zero, P names the portfolio file, and each of 1 to 16
/// script files is a caller's. Callers and up to W workers, as many as threads can be made for, work on one board, which tells the
/// context's gate of each evaluation before and after it. What is written is the journal of all callers, and then the answer to each ask
/// over the entries before it, by caller and number.
///
/// `big N W`: N is such a decimal from 1 to 1,000. The generator makes a portfolio and a script of it, which are run in the same way,
/// with no file, and five lines are written: `big N`, how many contracts have a name, how many asks there are, how many rows their
/// answers have, and the sum of these rows' payoffs, in units of 10^-9 modulo 2^64. All other words end with `Status::Words` and the
/// usage line.
pub fn desk_top<'a, R: Threads + Wait + Sync, F: Files, K: Sink, G: Gate>(
    context: &Context<'_, R, G>,
    words: &'a [String],
    files: &mut F,
    out: &mut K,
) -> Ran<'a>
    ensures { (rows : ℕ) → EndsAs (threaded (command_of (map string_bytes words.now))) (record { world = F.world files.old; page = K.page out.old; rows = rows })
        result.status result.board (record { world = F.world files.new; page = K.page out.new; rows = rows }) }
{
    match Command::of(words) {
        Some(Command::Threaded(command)) => run_threaded(context, command, files, out),
        Some(Command::Alone(_)) => refuse(context.alloc, out),
        None => refuse(context.alloc, out),
    }
}

/// Refuses words of no form: writes the usage line.
fn refuse<K: Sink>(alloc: Global, out: &mut K) -> Ran<'static>
    ensures ended { (world : World) (rows : ℕ) → Ends {B = History} words_meaning usage (record { world = world; page = K.page out.old; rows = rows })
        result.status None (record { world = world; page = K.page out.new; rows = rows }) }
    ensures board { result.board ≡ None }
{
    stop(alloc, out, Halt::Refused(Refusal::Words))
}

/// Ends a command that stopped: writes the line of a refusal.
fn stop<'a, K: Sink>(alloc: Global, out: &mut K, halt: Halt<'a>) -> Ran<'a>
    ensures concluded { Concludes usage (halt_of halt.entry) (K.page out.old) result.status (K.page out.new) }
    ensures board { result.board ≡ None }
{
    let status = conclude(alloc, out, USAGE, &halt);
    Ran {
        status,
        board: None,
        aside: Aside::of_halt(halt),
    }
}

/// Runs a command that one thread runs.
fn run_alone<'a, F: Files, K: Sink, L: Ledger>(
    alloc: Global,
    command: AloneCommand<'a>,
    files: &mut F,
    out: &mut K,
    steps: &mut Steps<L>,
) -> Ran<'a>
    requires { IsWithin (Alone (alone_told command)) }
    ensures ended { EndsAs (Some (Alone (alone_told command.entry))) (record { world = F.world files.old; page = K.page out.old; rows = steps.old })
        result.status None (record { world = F.world files.new; page = K.page out.new; rows = steps.new }) }
    ensures board { result.board ≡ None }
{
    match go_alone(alloc, command, files, out, steps) {
        Ok(ran) => ran,
        Err(halt) => stop(alloc, out, halt),
    }
}

/// The same, before the line of a refusal is written.
fn go_alone<'a, F: Files, K: Sink, L: Ledger>(
    alloc: Global,
    command: AloneCommand<'a>,
    files: &mut F,
    out: &mut K,
    steps: &mut Steps<L>,
) -> Result<Ran<'a>, Halt<'a>>
    requires { IsWithin (Alone (alone_told command)) }
    ensures gone { GoesAs (Alone (alone_told command.entry)) (record { world = F.world files.old; page = K.page out.old; rows = steps.old })
        (status_told result) None (record { world = F.world files.new; page = K.page out.new; rows = steps.new }) }
    ensures board { IfOk result (λ ran. ran.board ≡ None) }
{
    match command {
        AloneCommand::Check { portfolio } => run_check(alloc, files, out, portfolio),
        AloneCommand::Eval { portfolio, scripts } => {
            run_eval(alloc, files, out, portfolio, scripts, steps)
        }
    }
}

/// Runs a command that several threads run.
fn run_threaded<'a, R: Threads + Wait + Sync, F: Files, K: Sink, G: Gate>(
    context: &Context<'_, R, G>,
    command: ThreadedCommand<'a>,
    files: &mut F,
    out: &mut K,
) -> Ran<'a>
    requires { IsWithin (Threaded (threaded_told command)) }
    ensures { (rows : ℕ) → EndsAs (Some (Threaded (threaded_told command.entry))) (record { world = F.world files.old; page = K.page out.old; rows = rows })
        result.status result.board (record { world = F.world files.new; page = K.page out.new; rows = rows }) }
{
    match go_threaded(context, command, files, out) {
        Ok(ran) => ran,
        Err(halt) => stop(context.alloc, out, halt),
    }
}

/// The same, before the line of a refusal is written.
fn go_threaded<'a, R: Threads + Wait + Sync, F: Files, K: Sink, G: Gate>(
    context: &Context<'_, R, G>,
    command: ThreadedCommand<'a>,
    files: &mut F,
    out: &mut K,
) -> Result<Ran<'a>, Halt<'a>>
    requires { IsWithin (Threaded (threaded_told command)) }
    ensures { (rows : ℕ) → GoesAs (Threaded (threaded_told command.entry)) (record { world = F.world files.old; page = K.page out.old; rows = rows })
        (status_told result) (board_of result) (record { world = F.world files.new; page = K.page out.new; rows = rows }) }
{
    match command {
        ThreadedCommand::Desk(desk) => run_desk(context, files, out, desk),
        ThreadedCommand::Big { size, workers } => run_big(context, out, size, workers),
    }
}
