//! Blocks that don't end in `end`.

use crate::message::Message;
use act_date::Day;

/// The first block that closes in one way: the portfolio's file, its contract, the day, and how many more close so.
#[derive(Clone, Copy)]
pub struct FirstStop<'a> {
    pub file: &'a str,
    pub contract: &'a str,
    pub day: Day,
    pub more: u64,
}

/// Explains a block that lacks the value of a code. `has_script` tells whether there was a script.
pub fn explain_missing(message: &mut Message, stop: &FirstStop<'_>, code: &str, has_script: bool) {
    say_stop(message, stop);
    message.say_all(&[": no ", code]);
    if let Some((currency, other)) = code.split_once("/") {
        message.say_all(&[" (", other, " for one ", currency, ")"]);
    }
    message.say(" of that day or before ");
    message.say(if has_script {
        "stands above the ask: see that the code is spelt alike and that its line stands above, or add above the ask "
    } else {
        "is given: write a script file with "
    });
    message.say_all(&["{\"rate\": {\"code\": \"", code, "\", \"date\": \""]);
    message.day(stop.day);
    message.say("\", \"value\": 0.01}} (its value)");
    if !has_script {
        message.say(" in one line and {\"ask\": \"*\"} in the next, and run `actus eval ");
        message.show(stop.file.as_bytes());
        message.say(" SCRIPT`");
    }
    say_more(message, stop, "missing");
}

/// Explains a block with an amount that is undefined.
pub fn explain_overflow(message: &mut Message, stop: &FirstStop<'_>, event: &str) {
    say_stop(message, stop);
    message.say_all(&[
        ": an amount of its ",
        event,
        " is greater than numbers hold, or something is divided by 0; ",
    ]);
    message.say("look for a number with too many digits");
    say_more(message, stop, "overflow");
}

/// Says which contract stops, and when.
fn say_stop(message: &mut Message, stop: &FirstStop<'_>) {
    message.show(stop.file.as_bytes());
    message.say(": contract '");
    message.show(stop.contract.as_bytes());
    message.say("' stops on ");
    message.day(stop.day);
}

/// Says how many more blocks close so, and where more is told.
fn say_more(message: &mut Message, stop: &FirstStop<'_>, close: &str) {
    if stop.more > 0 {
        message.say("; ");
        message.number(stop.more);
        message.say_all(&[
            if stop.more == 1 {
                " more block closes with "
            } else {
                " more blocks close with "
            },
            close,
        ]);
    }
    message.say(" (ERRORS, blocks that stop)\n");
}
