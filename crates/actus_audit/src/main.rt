//! The program `actus_audit`: judges whether a text is right, and ends with the number of its status.
#![tactic(auto)]

ghost use Rattle.std.specs.Prelude.{◌≡◌, ◌<◌, ℕ, map, string_bytes};
ghost use Rattle.act_audit.specs.Audit.{EndsAs};
ghost use Rattle.act_audit.specs.Words.{audit_of};

mod identity;

use act_aside::{Named, PlainFiles, refusal_message};
use act_audit::{Audited, audit_top};
use act_engine::{Refusal, Status, exit_of, words_behind_the_name};
use act_explain::{Identity, audit_words_message};
use act_io::{Files, RealFiles, Sink, StdSink};
use act_num::{NoMemory, Steps};
use std::alloc::Global;
use std::env;
use std::marker::Brand;
use std::process::ExitCode;
use std::rt::Files as FileSystem;
use std::sync::ledger::{Blank, Ledger};

/// What this program was made of.
const IDENTITY: Identity<'_> = Identity {
    sources: identity::SOURCES,
    kit: identity::KIT,
};

fn main(rt: HostRuntime) -> ExitCode {
    let alloc = rt.alloc();
    let mut files = RealFiles::new(&rt);
    let mut out = StdSink::new(alloc, &rt);
    match words_behind_the_name(alloc, env::args(&rt)) {
        Ok(words) => {
            let audited = run::<Brand, _, _>(alloc, &words, &mut files, &mut out, Blank::new(1));
            let written = out.finish().is_ok();
            if let Some(refusal) = &audited.refusal {
                tell(&rt, alloc, &words, refusal);
            }
            exit_of(audited.status, written)
        }
        Err(NoMemory) => exit_of(Status::NoMemory, out.finish().is_ok()),
    }
}

/// Tells on standard error why an audit of these words was refused, where that can be written.
fn tell<R: Eprint + FileSystem>(rt: &R, alloc: Global, words: &[String], refusal: &Refusal<'_>) {
    let message = match refusal {
        Refusal::Words => audit_words_message(alloc, words, IDENTITY),
        refusal => refusal_message(
            alloc,
            &mut PlainFiles::new(rt),
            &Named::by_audit(words),
            refusal,
        ),
    };
    let _ = rt.eprint(message.as_str());
}

/// An audit with a counter of its own.
fn run<'a, L: Ledger, F: Files, K: Sink>(
    alloc: Global,
    words: &'a [String],
    files: &mut F,
    out: &mut K,
    blank: Blank,
) -> Audited<'a>
    requires name { blank.name ≡ L.name }
    requires parts { blank.parts ≡ L.parts }
    requires some_parts { 0 < L.parts }
    ensures { (rows : ℕ) × (counted : ℕ) × EndsAs (audit_of (map string_bytes words.now)) (record { world = F.world files.old; page = K.page out.old; rows = rows })
        result.status (record { world = F.world files.new; page = K.page out.new; rows = counted }) }
{
    let mut steps = Steps::<L>::new(blank);
    audit_top(alloc, words, files, out, &mut steps)
}
