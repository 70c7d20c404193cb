//! The words of a command.
ghost use Rattle.std.specs.Prelude.{◌≡◌, map, option_map, string_bytes, IfSome};
ghost use Rattle.act_top.specs.Words.{IsWithin, big_of, check_of, command_of, command_told, desk_of, eval_of, number_of_word};

use crate::desk::DeskWords;
use act_model::{MOST_CALLERS, MOST_WORKERS};
use itoa::Buffer;

/// What is written where the words are of no command's form.
pub(crate) const USAGE: &[u8] = b"usage: eval P [S] | check P | desk W P S.. | big N W\n";

/// The greatest number of a large run.
const MOST_SIZE: u32 = 1000;

/// A command, with the names of the files that it reads.
#[derive(Clone, Copy)]
pub(crate) enum Command<'a> {
    /// One thread runs it.
    Alone(AloneCommand<'a>),
    /// Several threads run it.
    Threaded(ThreadedCommand<'a>),
}

/// A command that one thread runs.
#[derive(Clone, Copy)]
pub(crate) enum AloneCommand<'a> {
    /// It checks a portfolio.
    Check {
        portfolio: &'a str,
    },
    /// It evaluates contracts of a portfolio: those that a script asks for, or all where none is named.
    Eval {
        portfolio: &'a str,
        scripts: &'a [String],
    },
}

/// A command that several threads run.
#[derive(Clone, Copy)]
pub(crate) enum ThreadedCommand<'a> {
    /// It runs workers and the callers of scripts at a desk.
    Desk(DeskWords<'a>),
    /// It runs what the generator makes of a number.
    Big { size: u32, workers: u32 },
}

impl<'a> Command<'a> {
    /// The command of these words, or None where they are of no command's form.
    pub(crate) fn of(words: &'a [String]) -> Option<Command<'a>>
        ensures command { option_map command_told result ≡ command_of (map string_bytes words.now) }
        ensures within { IfSome result (λ command. IsWithin (command_told command)) }
    {
        let [verb, others @ ..] = words else {
            return None;
        };
        match verb.as_str() {
            "check" => Command::check(others),
            "eval" => Command::eval(others),
            "desk" => Command::desk(others),
            "big" => Command::big(others),
            _ => None,
        }
    }

    /// `check P`, of the words behind the first.
    fn check(words: &'a [String]) -> Option<Command<'a>>
        ensures command { option_map command_told result ≡ check_of (map string_bytes words.now) }
        ensures within { IfSome result (λ command. IsWithin (command_told command)) }
    {
        match words {
            [portfolio] => Some(Command::Alone(AloneCommand::Check {
                portfolio: portfolio.as_str(),
            })),
            _ => None,
        }
    }

    /// `eval P` or `eval P S`.
    fn eval(words: &'a [String]) -> Option<Command<'a>>
        ensures command { option_map command_told result ≡ eval_of (map string_bytes words.now) }
        ensures within { IfSome result (λ command. IsWithin (command_told command)) }
    {
        match words {
            [portfolio, scripts @ ..] if scripts.len() <= 1 => {
                Some(Command::Alone(AloneCommand::Eval {
                    portfolio: portfolio.as_str(),
                    scripts,
                }))
            }
            _ => None,
        }
    }

    /// `desk W P S1 .. Sk`.
    fn desk(words: &'a [String]) -> Option<Command<'a>>
        ensures command { option_map command_told result ≡ desk_of (map string_bytes words.now) }
        ensures within { IfSome result (λ command. IsWithin (command_told command)) }
    {
        let [workers, portfolio, scripts @ ..] = words else {
            return None;
        };
        if scripts.is_empty() || scripts.len() > MOST_CALLERS {
            return None;
        }
        let workers = number_of_word(MOST_WORKERS, workers.as_str())?;
        Some(Command::Threaded(ThreadedCommand::Desk(DeskWords {
            workers,
            portfolio: portfolio.as_str(),
            scripts,
        })))
    }

    /// `big N W`.
    fn big(words: &'a [String]) -> Option<Command<'a>>
        ensures command { option_map command_told result ≡ big_of (map string_bytes words.now) }
        ensures within { IfSome result (λ command. IsWithin (command_told command)) }
    {
        let [size, workers] = words else {
            return None;
        };
        let size = number_of_word(MOST_SIZE, size.as_str())?;
        let workers = number_of_word(MOST_WORKERS, workers.as_str())?;
        Some(Command::Threaded(ThreadedCommand::Big { size, workers }))
    }
}

/// The number from 1 to `most` whose decimal a word is, or None where it is of another form.
fn number_of_word(most: u32, word: &str) -> Option<u32>
    ensures { result ≡ number_of_word most word.now }
{
    for number in 1..=most {
        let mut digits = Buffer::new();
        if word == digits.format(number) {
            return Some(number);
        }
    }
    None
}
