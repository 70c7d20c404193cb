//! Asks that weigh too much.

use crate::contracts::File;
use crate::message::Message;
use crate::place::say_place;
use crate::script::start_of_line;

/// What an ask weighs, up to which asks weigh too much.
#[derive(Clone, Copy)]
pub struct AskWeight {
    /// What the asks before it weigh together.
    pub before: u64,
    /// How many contracts it asks for.
    pub contracts: u64,
    /// The scheduled events of these and of those that they refer to, and one for each.
    pub events: u64,
    /// How many lines of all scripts have an event.
    pub event_lines: u64,
}

impl AskWeight {
    /// What it weighs itself.
    pub fn sum(self) -> u64 {
        let twice = self.event_lines.saturating_mul(2);
        self.events
            .saturating_add(self.contracts.saturating_mul(twice))
            .saturating_add(1)
    }
}

/// Explains why the ask of a script's line weighs too much. Without a script all is asked for once.
pub fn explain_weight(
    message: &mut Message,
    script: Option<(File<'_>, u32)>,
    weight: AskWeight,
    most: u64,
) {
    match script {
        Some((file, line)) => say_place(message, file, start_of_line(file.bytes, line)),
        None => message.say("eval without a script asks once for all contracts: "),
    }
    message.say("of ");
    message.number(most);
    message.say(" that all asks may weigh together, this one weighs ");
    message.number(weight.sum());
    if weight.before > 0 {
        message.say(" and those before it ");
        message.number(weight.before);
    }
    message.say(": 1 for itself, ");
    message.number(weight.events);
    message.say(
        " for the scheduled events of what it asks for and of what that refers to, with one more for each contract",
    );
    if weight.event_lines > 0 {
        message.say(", and for each of the ");
        message.number(weight.contracts);
        message.say(" contracts asked for ");
        message.number(weight.event_lines.saturating_mul(2));
        message.say(", twice the event lines of all scripts");
    }
    message.say(
        "; ask less often or for fewer contracts, or split the portfolio (ERRORS, script 5)\n",
    );
}
