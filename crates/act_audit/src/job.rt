//! What is to be judged, read from files.
ghost use Rattle.std.specs.Prelude.{◌≤◌, length, map, string_bytes, vec_len};
ghost use Rattle.act_audit.specs.Audit.{audit_reading, weighed_text};
ghost use Rattle.act_audit.specs.Text.{most_text};
ghost use Rattle.act_model.specs.Limits.{most_callers};
ghost use Rattle.act_engine.specs.Reading.{Reads, and_then, read_of};
ghost use Rattle.act_job.specs.Reading.{scripts_reading};
ghost use Rattle.act_job.specs.Scripts.{no_scripts};

use crate::words::AuditWords;
use act_engine::{Halt, fetch};
use act_io::Files;
use act_job::{Job, read_portfolio, read_scripts};
use act_portfolio::Portfolio;
use std::alloc::Global;
use std::marker::Model;

/// The most bytes of a text: one of so many has fewer than 2^32 - 1 lines.
const MOST_TEXT: u64 = 4_294_967_294;

/// The bytes of a text, and the job that it is to be of: the portfolio, and the scripts of its callers, none where none are given.
#[derive(Drop)]
pub(crate) struct AuditJob {
    pub(crate) job: Job,
    pub(crate) text: Vec<u8>,
}

impl Model for AuditJob {
    ghost use Rattle.std.specs.Prelude.{◌≤◌, length};
    ghost use Rattle.act_audit.specs.Text.{most_text};
    ghost use Rattle.act_audit.specs.Verdict as verdict;

    ghost Value = { verdict.AuditJob };

    ghost view = { λ j. record { portfolio = j.job.portfolio; text = j.text.items; scripts = j.job.scripts } };

    ghost invariant = { λ j. length j.text.items ≤ most_text };
}

impl AuditJob {
    /// What is to be judged: the files are read one after the other, up to the first that is refused.
    pub(crate) fn read<'a, F: Files>(
        alloc: Global,
        files: &mut F,
        words: &AuditWords<'a>,
    ) -> Result<AuditJob, Halt<'a>>
        ensures { Reads (audit_reading words.now) (F.world files.old) (read_of result) (F.world files.new) }
    {
        let portfolio = read_portfolio(alloc, files, words.portfolio)?;
        match fetch(alloc, files, words.text, MOST_TEXT) {
            Ok(text) => AuditJob::with_scripts(alloc, files, portfolio, text, words.scripts),
            Err(halt) => {
                drop(portfolio);
                Err(halt)
            }
        }
    }

    /// What is to be judged of a portfolio and a text, with the scripts of these names.
    fn with_scripts<'a, F: Files>(
        alloc: Global,
        files: &mut F,
        portfolio: Portfolio,
        text: Vec<u8>,
        names: &'a [String],
    ) -> Result<AuditJob, Halt<'a>>
        requires within { vec_len text ≤ most_text }
        requires few { length names.now ≤ most_callers }
        ensures { Reads (and_then (scripts_reading portfolio (no_scripts portfolio) (map string_bytes names.now)) (weighed_text portfolio text.items))
            (F.world files.old) (read_of result) (F.world files.new) }
    {
        match read_scripts(alloc, files, &portfolio, names) {
            Ok(scripts) => match Job::new(alloc, 0, portfolio, scripts) {
                Ok(job) => Ok(AuditJob { job, text }),
                Err(halt) => {
                    drop(text);
                    Err(halt)
                }
            },
            Err(halt) => {
                drop(portfolio);
                drop(text);
                Err(halt)
            }
        }
    }
}
