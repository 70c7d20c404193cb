//! Why a command was refused.

use crate::again::Again;
use crate::named::Named;
use crate::weight::explain_ask;
use act_engine::{Refusal, ScriptRule};
use act_explain::{
    File, Message, PortfolioRefusal, explain_length, explain_line, explain_portfolio,
    explain_unread,
};
use std::alloc::Global;

/// Why a command that names these files was refused. Its files are read a second time. Nothing is said of words of no form.
pub fn refusal_message<A: Again>(
    alloc: Global,
    files: &mut A,
    named: &Named<'_>,
    refusal: &Refusal<'_>,
) -> Message {
    let mut message = Message::new(alloc);
    match refusal {
        Refusal::Words => {}
        Refusal::Unread(name) => explain_unread(&mut message, name, files.cause(name)),
        Refusal::TooLong(name) => explain_length(&mut message, name),
        Refusal::Portfolio {
            number,
            place,
            what,
        } => {
            let refusal = PortfolioRefusal {
                number: *number,
                place: *place,
                what,
            };
            explain_contract(alloc, &mut message, files, named.portfolio, refusal);
        }
        Refusal::Script { rule, script, line } => {
            explain_script(alloc, &mut message, files, named, *rule, (*script, *line));
        }
    }
    message
}

/// Explains why a portfolio was refused.
fn explain_contract<A: Again>(
    alloc: Global,
    message: &mut Message,
    files: &mut A,
    name: &str,
    refusal: PortfolioRefusal<'_>,
) {
    match files.again(alloc, name) {
        Some(bytes) => {
            let file = File {
                name,
                bytes: &bytes,
            };
            explain_portfolio(alloc, message, file, refusal);
        }
        None => explain_unseen(message, name),
    }
}

/// Says that a file that is refused can't be read a second time.
fn explain_unseen(message: &mut Message, name: &str) {
    message.show(name.as_bytes());
    message.say(
        ": no place is told, since this can't be read a second time; docs/ERRORS.md has the numbers of the refusal\n",
    );
}

/// Explains why a script was refused, by the number of the script and of its line.
fn explain_script<A: Again>(
    alloc: Global,
    message: &mut Message,
    files: &mut A,
    named: &Named<'_>,
    rule: ScriptRule,
    place: (u32, u32),
) {
    if let ScriptRule::TooMuchAsked = rule {
        return explain_ask(alloc, message, files, named, place);
    }
    let name = named.script(place.0);
    let portfolio = files
        .again(alloc, named.portfolio)
        .unwrap_or(Vec::new(alloc));
    match files.again(alloc, name) {
        Some(bytes) => {
            let file = File {
                name,
                bytes: &bytes,
            };
            let portfolio = File {
                name: named.portfolio,
                bytes: &portfolio,
            };
            explain_line(alloc, message, file, place.1, rule, portfolio);
        }
        None => explain_unseen(message, name),
    }
}
