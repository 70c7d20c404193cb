//! What is to be run.
ghost use Rattle.std.specs.Prelude.{◌≡◌, ◌≤◌, length, map, string_bytes, IfOk};
ghost use Rattle.std.specs.Arc.{arc_value};
ghost use Rattle.act_model.specs.Limits.{most_callers, most_workers};
ghost use Rattle.act_engine.specs.Reading.{Reads, read_of};
ghost use Rattle.act_io.specs.World.{World};
ghost use Rattle.act_script.specs.Asks.{line_lists};
ghost use Rattle.act_job.specs.Job.{IsRunnable};
ghost use Rattle.act_job.specs.Reading.{job_reading, weighed};
ghost use Rattle.act_job.specs.Scripts.{AreScriptsOf};

use crate::portfolio::read_portfolio;
use crate::scripts::{Scripts, read_scripts};
use crate::weight::first_overweight;
use act_engine::{Failure, Halt, Refusal, ScriptRule};
use act_io::Files;
use act_model::Line;
use act_num::NoMemory;
use act_portfolio::Portfolio;
use std::alloc::Global;
use std::marker::Model;
use std::sync::Arc;

/// A portfolio, the scripts of its callers, whose asks don't weigh too much together, and how many workers there are, at most
/// 64: none where one thread does all.
#[derive(Drop)]
pub struct Job {
    pub portfolio: Arc<Portfolio, Global>,
    pub scripts: Scripts,
    pub workers: u32,
}

impl Model for Job {
    ghost use Rattle.std.specs.Arc.{arc_value};
    ghost use Rattle.act_job.specs.Job as job;

    ghost Value = { job.Job };

    ghost view = { λ j. record { portfolio = arc_value j.portfolio; scripts = j.scripts; workers = j.workers } };

    ghost invariant = { λ j. job.IsRunnable (arc_value j.portfolio) j.scripts j.workers };
}

impl Job {
    /// What is to be run of the files of these names with so many workers. The files are read one after the other, up to the first
    /// that is refused.
    pub fn read<'a, F: Files>(
        alloc: Global,
        files: &mut F,
        workers: u32,
        portfolio: &'a str,
        scripts: &'a [String],
    ) -> Result<Job, Halt<'a>>
        requires workers { workers ≤ most_workers }
        requires scripts { length scripts.now ≤ most_callers }
        ensures read { Reads (job_reading workers portfolio.now (map string_bytes scripts.now)) (F.world files.old) (read_of result) (F.world files.new) }
        ensures count { IfOk result (λ job. length job.scripts.lists ≡ length scripts.now) }
    {
        let portfolio = read_portfolio(alloc, files, portfolio)?;
        match read_scripts(alloc, files, &portfolio, scripts) {
            Ok(scripts) => Job::new(alloc, workers, portfolio, scripts),
            Err(halt) => {
                drop(portfolio);
                Err(halt)
            }
        }
    }

    /// What is to be run of scripts of a portfolio with so many workers. The scripts are refused where their asks weigh too much.
    pub fn new(
        alloc: Global,
        workers: u32,
        portfolio: Portfolio,
        scripts: Scripts,
    ) -> Result<Job, Halt<'static>>
        requires workers { workers ≤ most_workers }
        requires callers { length scripts.lists ≤ most_callers }
        requires lines { AreScriptsOf portfolio scripts }
        ensures read { (world : World) → Reads (weighed workers portfolio scripts) world (read_of result) world }
        ensures scripts { IfOk result (λ job. job.scripts ≡ scripts) }
    {
        match first_overweight(alloc, &portfolio, &scripts.lists) {
            Ok(None) => {
                portfolio.contracts_are_printable();
                scripts.are_readable();
                match Arc::new(alloc, portfolio) {
                    Ok(portfolio) => Ok(Job {
                        portfolio,
                        scripts,
                        workers,
                    }),
                    Err(_) => {
                        drop(scripts);
                        Err(Halt::Stopped(Failure::Memory))
                    }
                }
            }
            Ok(Some((script, line))) => {
                drop(portfolio);
                drop(scripts);
                let rule = ScriptRule::TooMuchAsked;
                Err(Halt::Refused(Refusal::Script { rule, script, line }))
            }
            Err(NoMemory) => {
                drop(portfolio);
                drop(scripts);
                Err(Halt::Stopped(Failure::Memory))
            }
        }
    }

    /// The scripts of its callers.
    pub fn lists(&self) -> &[Vec<Line>]
        ensures lists { line_lists result.now ≡ self.now.scripts.lists }
        ensures ready { IsRunnable self.now.portfolio self.now.scripts self.now.workers }
    {
        &self.scripts.lists
    }
}
