//! The audit of a text.
ghost use Rattle.std.specs.Prelude.{None, map, string_bytes};
ghost use Rattle.act_audit.specs.Audit.{EndsAs, audit_meaning};
ghost use Rattle.act_audit.specs.Words.{audit_of, usage};
ghost use Rattle.act_engine.specs.Ending.{Concludes, Goes};
ghost use Rattle.act_engine.specs.Reading.{halt_of, read_of};

use crate::job::AuditJob;
use crate::judging::judge;
use crate::words::{AuditWords, USAGE};
use act_engine::{Halt, Refusal, Status, conclude, write_text};
use act_io::{Files, Sink};
use act_num::Steps;
use std::alloc::Global;
use std::sync::ledger::Ledger;

/// How an audit ended, and why it was refused, where it was. No clause speaks of the refusal.
#[derive(Drop)]
pub struct Audited<'a> {
    /// How it ended.
    pub status: Status,
    /// Why it was refused.
    pub refusal: Option<Refusal<'a>>,
}

/// Judges the text of the file TEXT by the portfolio of the file P and up to 16 scripts, whose names are the words `P TEXT S1 .. Sk`, and
/// writes one line: `right A` where the text is what the portfolio and some journal come to, with A answers; `wrong LINE` with the first
/// line in which it isn't; `order LINE CALLER` where scripts are given, and in this line the journal isn't an interleaving of them, by the
/// steps of this caller; or the line that refuses the portfolio or a script, as `actus` does.
///
/// The text may have 4,294,967,294 bytes. The journal is taken from it, and its asks are evaluated once more, over the entries before
/// them, on one thread, unless it is more than `actus` takes; the rows are counted, whatever is said of the text. A line `work N`
/// behind the answers is compared too, where there is one.
pub fn audit_top<'a, F: Files, K: Sink, L: Ledger>(
    alloc: Global,
    words: &'a [String],
    files: &mut F,
    out: &mut K,
    steps: &mut Steps<L>,
) -> Audited<'a>
    ensures { EndsAs (audit_of (map string_bytes words.now)) (record { world = F.world files.old; page = K.page out.old; rows = steps.old })
        result.status (record { world = F.world files.new; page = K.page out.new; rows = steps.new }) }
{
    match AuditWords::of(words) {
        Some(words) => match audit(alloc, &words, files, out, steps) {
            Ok(status) => Audited {
                status,
                refusal: None,
            },
            Err(halt) => stop(alloc, out, halt),
        },
        None => stop(alloc, out, Halt::Refused(Refusal::Words)),
    }
}

/// Ends an audit that stopped: writes the line of a refusal.
fn stop<'a, K: Sink>(alloc: Global, out: &mut K, halt: Halt<'a>) -> Audited<'a>
    ensures { Concludes usage (halt_of halt.entry) (K.page out.old) result.status (K.page out.new) }
{
    let status = conclude(alloc, out, USAGE, &halt);
    let refusal = match halt {
        Halt::Refused(refusal) => Some(refusal),
        Halt::Stopped(_) => None,
    };
    Audited { status, refusal }
}

/// Judges the text of a file, and writes what is said of it.
fn audit<'a, F: Files, K: Sink, L: Ledger>(
    alloc: Global,
    words: &AuditWords<'a>,
    files: &mut F,
    out: &mut K,
    steps: &mut Steps<L>,
) -> Result<Status, Halt<'a>>
    ensures { Goes (audit_meaning words.now) (record { world = F.world files.old; page = K.page out.old; rows = steps.old })
        (read_of result) None (record { world = F.world files.new; page = K.page out.new; rows = steps.new }) }
{
    let job = AuditJob::read(alloc, files, words)?;
    let verdict = judge(alloc, job, steps)?;
    let line = verdict.line(alloc)?;
    write_text(out, &line)?;
    Ok(verdict.status())
}
