//! The program `actus`: runs the command of its words, and ends with the number of its status.
#![tactic(auto)]

ghost use Rattle.std.specs.Prelude.{◌≡◌, ◌<◌, ℕ, map, string_bytes};
ghost use Rattle.act_top.specs.Commands.{EndsAs};
ghost use Rattle.act_top.specs.Words.{command_of};

mod identity;

use act_aside::{Named, PlainFiles, refusal_message, text_message};
use act_desk::Context;
use act_engine::{Refusal, Status, exit_of, words_behind_the_name};
use act_explain::{Identity, words_message};
use act_io::{Files, NoGate, RealFiles, Sink, StdSink};
use act_num::{NoMemory, Steps};
use act_top::{Aside, Ran, actus_top};
use std::alloc::Global;
use std::env;
use std::marker::Brand;
use std::process::ExitCode;
use std::rt::Files as FileSystem;
use std::sync::Wait;
use std::sync::ledger::{Blank, Ledger};
use std::thread::Threads;

/// What this program was made of.
const IDENTITY: Identity<'_> = Identity {
    sources: identity::SOURCES,
    kit: identity::KIT,
};

fn main(rt: HostRuntime) -> ExitCode {
    let alloc = rt.alloc();
    let mut files = RealFiles::new(&rt);
    let mut out = StdSink::new(alloc, &rt);
    match words_behind_the_name(alloc, env::args(&rt)) {
        Ok(words) => {
            let ran = run::<Brand, _, _, _>(
                &rt,
                alloc,
                &words,
                &mut files,
                &mut out,
                Blank::new(1),
            );
            let written = out.finish().is_ok();
            let (status, aside) = parts_of(ran);
            tell(&rt, alloc, &words, &aside);
            exit_of(status, written)
        }
        Err(NoMemory) => exit_of(Status::NoMemory, out.finish().is_ok()),
    }
}

/// Runs a command with a counter of its own, and a gate that does nothing.
fn run<'a, L: Ledger, R: Threads + Wait + Sync, F: Files, K: Sink>(
    rt: &R,
    alloc: Global,
    words: &'a [String],
    files: &mut F,
    out: &mut K,
    blank: Blank,
) -> Ran<'a>
    requires name { blank.name ≡ L.name }
    requires parts { blank.parts ≡ L.parts }
    requires some_parts { 0 < L.parts }
    ensures { (rows : ℕ) × (counted : ℕ) × EndsAs (command_of (map string_bytes words.now)) (record { world = F.world files.old; page = K.page out.old; rows = rows })
        result.status result.board (record { world = F.world files.new; page = K.page out.new; rows = counted }) }
{
    let context = Context {
        rt,
        alloc,
        gate: &NoGate,
    };
    let mut steps = Steps::<L>::new(blank);
    actus_top(&context, words, files, out, &mut steps)
}

/// How a command ended, and what can be told of it beside its text; its board is dropped.
fn parts_of(ran: Ran<'_>) -> (Status, Aside<'_>)
    ensures { result.0 ≡ ran.entry.status }
{
    let Ran {
        status,
        board,
        aside,
    } = ran;
    drop(board);
    (status, aside)
}

/// Tells on standard error what can be told of a command of these words beside its text, where that can be written.
fn tell<R: Eprint + FileSystem>(rt: &R, alloc: Global, words: &[String], aside: &Aside<'_>) {
    let mut files = PlainFiles::new(rt);
    let named = Named::by_command(words);
    let message = match aside {
        Aside::Nothing => return,
        Aside::Refused(Refusal::Words) => words_message(alloc, words, IDENTITY),
        Aside::Refused(refusal) => refusal_message(alloc, &mut files, &named, refusal),
        Aside::Written { job, stops } => text_message(alloc, &mut files, &named, job, stops),
    };
    let _ = rt.eprint(message.as_str());
}
