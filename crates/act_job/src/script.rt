//! Reading a script.
ghost use Rattle.std.specs.Prelude.{◌≡◌, ◌≤◌, length, IfOk};
ghost use Rattle.act_engine.specs.Reading.{Reads, Refused, halt_of, read_of};
ghost use Rattle.act_engine.specs.Refusal.{Script as RefusesScript};
ghost use Rattle.act_io.specs.World.{World};
ghost use Rattle.act_job.specs.Reading.{script_accepted, script_halt};
ghost use Rattle.act_job.specs.Scripts.{IsReadBehind};

use act_engine::{Failure, Halt, Refusal, ScriptRule};
use act_model::{Line, MOST_BYTES, MOST_ENTRIES, Names};
use act_portfolio::Portfolio;
use act_script::{ScriptFault, read_script};
use std::alloc::Global;
use std::marker::Model;

/// The lines of a script, the names with its codes, and how many entries there are up to its end.
#[derive(Drop)]
pub(crate) struct Script {
    pub(crate) lines: Vec<Line>,
    pub(crate) names: Names,
    pub(crate) entries: u64,
}

impl Model for Script {
    ghost use Rattle.act_script.specs.Reading as reading;

    ghost Value = { reading.Script };

    ghost view = { λ s. record { lines = s.lines.items; names = s.names; entries = s.entries } };
}

/// The script of that number of bytes, as of a file, read with the names and behind the entries of those before it.
pub(crate) fn accept_script(
    alloc: Global,
    portfolio: &Portfolio,
    number: u32,
    mut names: Names,
    mut entries: u64,
    bytes: &[u8],
) -> Result<Script, Halt<'static>>
    requires few { entries ≤ MOST_ENTRIES }
    requires within { length bytes.now ≤ MOST_BYTES }
    ensures read { (world : World) → Reads (script_accepted portfolio.now number names entries bytes.now) world (read_of result) world }
    ensures lines { IfOk result (IsReadBehind names entries) }
{
    match read_script(alloc, bytes, &mut names, portfolio.terms(), &mut entries) {
        Ok(lines) => Ok(Script {
            lines,
            names,
            entries,
        }),
        Err(fault) => {
            drop(names);
            Err(script_halt(number, fault))
        }
    }
}

/// The halt of the fault of the script of that number.
fn script_halt(script: u32, fault: ScriptFault) -> Halt<'static>
    ensures { halt_of result ≡ script_halt script fault }
{
    match fault {
        ScriptFault::NotLine(line) => refused(ScriptRule::NotLine, script, line),
        ScriptFault::UnknownName(line) => refused(ScriptRule::UnknownName, script, line),
        ScriptFault::EventUnfit(line) => refused(ScriptRule::EventUnfit, script, line),
        ScriptFault::TooManyEntries(line) => refused(ScriptRule::TooManyEntries, script, line),
        ScriptFault::NoMemory => Halt::Stopped(Failure::Memory),
    }
}

/// The halt of a script that is refused by a rule for a line.
fn refused(rule: ScriptRule, script: u32, line: u32) -> Halt<'static>
    ensures { halt_of result ≡ Refused (RefusesScript rule script line) }
{
    Halt::Refused(Refusal::Script { rule, script, line })
}
