//! Why a command is refused.
ghost use Rattle.std.specs.Prelude.{◌≡◌, IfOk};
ghost use Rattle.act_engine.specs.Refusal.{portfolio_line, refusal_line, refusal_of, refusal_status, rule_number, script_line};

use crate::line::line_of;
use crate::status::Status;
use act_num::NoMemory;
use itoa::Buffer;
use std::alloc::Global;

/// Why a command is refused.
#[derive(Drop)]
pub enum Refusal<'a> {
    /// The words are of no form.
    Words,
    /// The file of this name wasn't read.
    Unread(&'a str),
    /// The file of this name is too long.
    TooLong(&'a str),
    /// The portfolio breaks the rule of this number.
    Portfolio {
        /// The rule.
        number: u8,
        /// The place of the contract, from 1, or 0 for the portfolio itself.
        place: u32,
        /// What is refused: a term or a name, as printable bytes.
        what: Vec<u8>,
    },
    /// A script breaks a rule.
    Script {
        /// The rule.
        rule: ScriptRule,
        /// The script's place among the words, from 1.
        script: u32,
        /// The line, from 1.
        line: u32,
    },
}

/// A rule that each line of a script keeps.
#[derive(Clone, Copy)]
pub enum ScriptRule {
    /// It is a line of a script.
    NotLine,
    /// It names contracts of the portfolio alone.
    UnknownName,
    /// The event that it appends fits the contract.
    EventUnfit,
    /// A book has room for its entry.
    TooManyEntries,
    /// What the asks up to it weigh is within the limit.
    TooMuchAsked,
}

impl ScriptRule {
    /// The number that a refusal's line has for it.
    fn number(self) -> u8
        ensures { result ≡ rule_number self }
    {
        match self {
            ScriptRule::NotLine => 1,
            ScriptRule::UnknownName => 2,
            ScriptRule::EventUnfit => 3,
            ScriptRule::TooManyEntries => 4,
            ScriptRule::TooMuchAsked => 5,
        }
    }
}

impl Refusal<'_> {
    /// The status that a command ends with for it.
    pub(crate) fn status(&self) -> Status
        ensures { result ≡ refusal_status (refusal_of self.now) }
    {
        match self {
            Refusal::Words => Status::Words,
            Refusal::Unread(_) => Status::ReadFault,
            Refusal::TooLong(_) => Status::TooLong,
            Refusal::Portfolio { .. } => Status::PortfolioRefused,
            Refusal::Script { .. } => Status::ScriptRefused,
        }
    }

    /// The line that tells it; that of words is the usage line.
    #[tactic(auto, unfolding(crate::specs::Refusal::refusal_line))]
    pub(crate) fn line(&self, alloc: Global, usage: &[u8]) -> Result<Vec<u8>, NoMemory>
        ensures { IfOk result (λ line. line.items ≡ refusal_line usage.now (refusal_of self.now)) }
    {
        match self {
            Refusal::Words => Ok(Vec::from_slice(alloc, usage)?),
            Refusal::Unread(name) => line_of(alloc, b"read", &[name.as_bytes()]),
            Refusal::TooLong(name) => line_of(alloc, b"long", &[name.as_bytes()]),
            Refusal::Portfolio {
                number,
                place,
                what,
            } => portfolio_line(alloc, *number, *place, what),
            Refusal::Script { rule, script, line } => script_line(alloc, *rule, *script, *line),
        }
    }
}

/// The line of a portfolio that is refused.
#[tactic(auto, unfolding(crate::specs::Refusal::portfolio_line))]
fn portfolio_line(alloc: Global, number: u8, place: u32, what: &[u8]) -> Result<Vec<u8>, NoMemory>
    ensures { IfOk result (λ line. line.items ≡ portfolio_line number place what.now) }
{
    let mut first = Buffer::new();
    let mut second = Buffer::new();
    let words = [
        first.format(number).as_bytes(),
        second.format(place).as_bytes(),
        what,
    ];
    line_of(alloc, b"portfolio", &words)
}

/// The line of a script that is refused.
#[tactic(auto, unfolding(crate::specs::Refusal::script_line))]
fn script_line(alloc: Global, rule: ScriptRule, script: u32, line: u32) -> Result<Vec<u8>, NoMemory>
    ensures { IfOk result (λ text. text.items ≡ script_line rule script line) }
{
    let mut first = Buffer::new();
    let mut second = Buffer::new();
    let mut third = Buffer::new();
    let words = [
        first.format(rule.number()).as_bytes(),
        second.format(script).as_bytes(),
        third.format(line).as_bytes(),
    ];
    line_of(alloc, b"script", &words)
}
