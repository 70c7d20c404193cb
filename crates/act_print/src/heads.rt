//! The lines above a journal, above answers, and above a contract's rows.
ghost use Rattle.std.specs.Prelude.{◌≡◌, ◌+◌, ◌^◌, ◌<◌, ◌≤◌, [], ◌∷◌, ◌++◌, length, OnOk, OnErr, codes, decimal};
ghost use Rattle.act_text.specs.Lines.{line_of};
ghost use Rattle.act_print.specs.Text.{answers_head_text, block_head_text, answer_head_text, journal_head_text};

use act_model::{Answer, Names};
use act_num::NoMemory;
use act_text::{MOST_LINE, TextLine};
use itoa::Buffer;

/// Adds the line above a journal of so many items to `out`. Where memory runs out, `out` is as before.
#[tactic(auto, unfolding(crate::specs::Text::journal_head_text))]
pub fn journal_head(count: usize, out: &mut Vec<u8>) -> Result<(), NoMemory>
    ensures ok { OnOk result (out.new.items ≡ out.old.items ++ journal_head_text count) }
    ensures err { OnErr result (out.new.items ≡ out.old.items) }
{
    let mut line = TextLine::new();
    line.push_bytes(b"journal");
    push_count(&mut line, count as u64);
    line.end(out)
}

/// Adds the line above so many answers to `out`. Where memory runs out, `out` is as before.
pub fn answers_head(count: usize, out: &mut Vec<u8>) -> Result<(), NoMemory>
    ensures ok { OnOk result (out.new.items ≡ out.old.items ++ answers_head_text count) }
    ensures err { OnErr result (out.new.items ≡ out.old.items) }
{
    answers_line(count).end(out)
}

/// The line above so many answers.
#[tactic(auto, unfolding(crate::specs::Text::answers_head_text))]
pub(crate) fn answers_line(count: usize) -> TextLine
    ensures text { result ++ codes "\n" ≡ answers_head_text count }
    ensures room { length result < MOST_LINE }
{
    let mut line = TextLine::new();
    line.push_bytes(b"answers");
    push_count(&mut line, count as u64);
    line
}

/// Adds the line above an answer to `out`: the caller, the number of its ask, and the version. Where memory runs out,
/// `out` is as before.
pub fn answer_head(answer: &Answer, out: &mut Vec<u8>) -> Result<(), NoMemory>
    ensures ok { OnOk result (out.new.items
        ≡ out.old.items ++ answer_head_text answer.now.caller answer.now.number answer.now.version) }
    ensures err { OnErr result (out.new.items ≡ out.old.items) }
{
    answer_line(
        u64::from(answer.caller),
        u64::from(answer.number),
        answer.version,
    )
    .end(out)
}

/// The line above the answer to an ask of that caller, number and version.
pub(crate) fn answer_line(caller: u64, number: u64, version: u64) -> TextLine
    ensures text { result ++ codes "\n" ≡ answer_head_text caller number version }
    ensures room { length result < MOST_LINE }
{
    let mut line = TextLine::new();
    line.push_bytes(b"answer");
    push_count(&mut line, caller);
    push_count(&mut line, number);
    push_count(&mut line, version);
    line
}

/// Adds the line above the rows of a contract, which has a name, to `out`. Where memory runs out, `out` is as before.
pub fn block_head(names: &Names, contract: u32, out: &mut Vec<u8>) -> Result<(), NoMemory>
    requires contract { contract < length names.now.contracts }
    ensures ok { OnOk result (out.new.items ≡ out.old.items ++ block_head_text names.now contract) }
    ensures err { OnErr result (out.new.items ≡ out.old.items) }
{
    block_line(names, contract).end(out)
}

/// The line above the rows of a contract; one that has no name is written with none.
#[tactic(auto, unfolding(crate::specs::Text::block_head_text, act_model::specs::Name::has_form))]
pub(crate) fn block_line(names: &Names, contract: u32) -> TextLine
    ensures text { result ++ codes "\n" ≡ block_head_text names.now contract }
    ensures room { length result < MOST_LINE }
{
    let name = match names.id(contract) {
        Some(name) => name.as_bytes(),
        None => b"",
    };
    let mut line = TextLine::new();
    line.push_bytes(b"contract");
    line.push_word(name);
    line
}

/// Adds a space and a count without leading zeros, 21 bytes at most.
fn push_count(line: &mut TextLine, count: u64)
    requires { length line.old + 21 ≤ MOST_LINE }
    ensures text { line.new ≡ line.old ++ codes " " ++ decimal count }
    ensures len { length line.new ≤ length line.old + 21 }
{
    let mut digits = Buffer::new();
    line.push_word(digits.format(count).as_bytes());
}
