//! Reading the scripts of several callers.
ghost use Rattle.std.specs.Prelude.{◌≡◌, ◌+◌, ◌≤◌, ◌<◌, ◌∷◌, ◌++◌, [], length, map, string_bytes, IfOk};
ghost use Rattle.std.specs.List.{All};
ghost use Rattle.act_model.specs.Bounds.{StepIsBounded};
ghost use Rattle.act_model.specs.Limits.{most_callers};
ghost use Rattle.act_model.specs.Names.{AreNames};
ghost use Rattle.act_model.specs.declared.journal.Line.{Line};
ghost use Rattle.act_engine.specs.Reading.{Reads, read_of};
ghost use Rattle.act_io.specs.World.{World};
ghost use Rattle.act_script.specs.Asks.{line_lists};
ghost use Rattle.act_job.specs.Reading.{next_accepted, next_reading, scripts_reading};
ghost use Rattle.act_job.specs.Scripts.{AreScriptsOf, ask_for_all, no_scripts};

use crate::script::{Script, accept_script};
use act_engine::{Halt, fetch};
use act_io::Files;
use act_model::{Asked, Line, MOST_BYTES, Names, Step};
use act_num::NoMemory;
use act_portfolio::Portfolio;
use std::alloc::Global;
use std::marker::Model;

/// The lines of each script, the names with the codes of all of them, and how many entries they have together.
#[derive(Drop)]
pub struct Scripts {
    pub lists: Vec<Vec<Line>>,
    pub names: Names,
    pub entries: u64,
}

impl Model for Scripts {
    ghost use Rattle.act_script.specs.Asks.{line_lists};
    ghost use Rattle.act_job.specs.Scripts as scripts;

    ghost Value = { scripts.Scripts };

    ghost view = { λ s. record { lists = line_lists s.lists.items; names = s.names; entries = s.entries } };
}

/// The scripts of the files of these names, each of which is read before the next one is asked for.
pub fn read_scripts<'a, F: Files>(
    alloc: Global,
    files: &mut F,
    portfolio: &Portfolio,
    names: &'a [String],
) -> Result<Scripts, Halt<'a>>
    requires few { length names.now ≤ most_callers }
    ensures read { Reads (scripts_reading portfolio.now (no_scripts portfolio.now) (map string_bytes names.now)) (F.world files.old) (read_of result) (F.world files.new) }
    ensures lines { IfOk result (AreScriptsOf portfolio.now) }
    ensures count { IfOk result (λ scripts. length scripts.lists ≡ length names.now) }
{
    let mut scripts = Scripts::none(alloc, portfolio)?;
    for name in names {
        scripts = scripts.with_file(alloc, files, portfolio, name.as_str())?;
    }
    Ok(scripts)
}

impl Scripts {
    /// Before the first script of a portfolio.
    fn none(alloc: Global, portfolio: &Portfolio) -> Result<Scripts, NoMemory>
        ensures { IfOk result (λ scripts. scripts ≡ no_scripts portfolio.now) }
    {
        let names = portfolio.to_names()?;
        Ok(Scripts {
            lists: Vec::new(alloc),
            names,
            entries: 0,
        })
    }

    /// The one script that asks once for all contracts.
    pub fn ask_for_all(alloc: Global, portfolio: &Portfolio) -> Result<Scripts, NoMemory>
        ensures scripts { IfOk result (λ scripts. scripts ≡ ask_for_all portfolio.now) }
        ensures lines { IfOk result (AreScriptsOf portfolio.now) }
    {
        let ask = Line {
            step: Step::Ask(Asked::All),
            line: 1,
        };
        let lines = Vec::from_slice(alloc, &[ask])?;
        let mut lists = Vec::new(alloc);
        lists.push(lines)?;
        let names = portfolio.to_names()?;
        Ok(Scripts {
            lists,
            names,
            entries: 0,
        })
    }

    /// The one script of bytes, as of a file.
    pub fn accept_one(
        alloc: Global,
        portfolio: &Portfolio,
        bytes: &[u8],
    ) -> Result<Scripts, Halt<'static>>
        requires { length bytes.now ≤ MOST_BYTES }
        ensures read { (world : World) → Reads (next_accepted portfolio.now (no_scripts portfolio.now) bytes.now) world (read_of result) world }
        ensures lines { IfOk result (AreScriptsOf portfolio.now) }
        ensures count { IfOk result (λ scripts. length scripts.lists ≡ 1) }
    {
        let scripts = Scripts::none(alloc, portfolio)?;
        scripts.with_bytes(alloc, portfolio, bytes)
    }

    /// Their names are names, and what they append has a day and a number. It does nothing, and stands where a proof needs this.
    pub(crate) fn are_readable(&self)
        ensures contracts { AreNames self.now.names.contracts }
        ensures codes { AreNames self.now.names.codes }
        ensures currencies { AreNames self.now.names.currencies }
        ensures bounded { All (All (λ (line : Line). StepIsBounded line.step)) self.now.lists }
    {
        self.names.are_named();
        all_are_bounded(&self.lists);
    }

    /// These scripts and the one of the file of that name, read behind them.
    fn with_file<'a, F: Files>(
        self,
        alloc: Global,
        files: &mut F,
        portfolio: &Portfolio,
        name: &'a str,
    ) -> Result<Scripts, Halt<'a>>
        requires lines { AreScriptsOf portfolio.now self }
        requires few { length self.lists < most_callers }
        ensures read { Reads (next_reading portfolio.now self name.now) (F.world files.old) (read_of result) (F.world files.new) }
        ensures lines { IfOk result (AreScriptsOf portfolio.now) }
        ensures count { IfOk result (λ scripts. length scripts.lists ≡ length self.lists + 1) }
    {
        match fetch(alloc, files, name, MOST_BYTES) {
            Ok(bytes) => self.with_bytes(alloc, portfolio, &bytes),
            Err(halt) => {
                drop(self);
                Err(halt)
            }
        }
    }

    /// These scripts and the one that bytes are, read behind them.
    fn with_bytes(
        self,
        alloc: Global,
        portfolio: &Portfolio,
        bytes: &[u8],
    ) -> Result<Scripts, Halt<'static>>
        requires lines { AreScriptsOf portfolio.now self }
        requires few { length self.lists < most_callers }
        requires within { length bytes.now ≤ MOST_BYTES }
        ensures read { (world : World) → Reads (next_accepted portfolio.now self bytes.now) world (read_of result) world }
        ensures lines { IfOk result (AreScriptsOf portfolio.now) }
        ensures count { IfOk result (λ scripts. length scripts.lists ≡ length self.lists + 1) }
    {
        let Scripts {
            lists,
            names,
            entries,
        } = self;
        let number = lists.len() as u32 + 1;
        let script = accept_script(alloc, portfolio, number, names, entries, bytes)?;
        Ok(with_script(lists, script)?)
    }
}

/// What the lines of each list append has a day and a number. It does nothing, as those below, and stands where a proof needs this.
fn all_are_bounded(lists: &[Vec<Line>])
    ensures { All (All (λ (line : Line). StepIsBounded line.step)) (line_lists lists.now) }
{
    for lines in lists {
        are_bounded(lines);
    }
}

/// What lines append has a day and a number.
fn are_bounded(lines: &[Line])
    ensures { All (λ (line : Line). StepIsBounded line.step) lines.now }
{
    for line in lines {
        is_bounded(&line.step);
    }
}

/// What a step appends has a day and a number.
fn is_bounded(step: &Step)
    ensures { StepIsBounded step.now }
{
    if let Step::Append(entry) = step {
        entry.is_bounded();
    }
}

/// Scripts of these lines, and one that was read behind them.
fn with_script(mut lists: Vec<Vec<Line>>, script: Script) -> Result<Scripts, NoMemory>
    ensures { IfOk result (λ scripts.
        scripts ≡ record { lists = line_lists lists.items ++ script.lines ∷ []; names = script.names; entries = script.entries }) }
{
    lists.push(script.lines)?;
    Ok(Scripts {
        lists,
        names: script.names,
        entries: script.entries,
    })
}
