//! Lines of text.
ghost use Rattle.std.specs.Prelude.{◌≡◌, ◌++◌, map, IfOk, OnOk};
ghost use Rattle.act_engine.specs.Writing.{Writes, number_line};
ghost use Rattle.act_text.specs.Lines.{line_of};

use crate::writing::{Failure, write_text};
use act_io::Sink;
use act_num::NoMemory;
use itoa::Buffer;
use std::alloc::Global;

/// A line of a word and others, each of these behind a space.
pub fn line_of(alloc: Global, word: &[u8], others: &[&[u8]]) -> Result<Vec<u8>, NoMemory>
    ensures { IfOk result (λ line. line.items ≡ line_of word.now (map (λ w. w.now) others.now)) }
{
    let mut line = Vec::new(alloc);
    push_line(&mut line, word, others)?;
    Ok(line)
}

/// Adds a line of a word and others, each of these behind a space.
fn push_line(out: &mut Vec<u8>, word: &[u8], others: &[&[u8]]) -> Result<(), NoMemory>
    ensures { OnOk result (out.new.items ≡ out.old.items ++ line_of word.now (map (λ w. w.now) others.now)) }
{
    push(out, word)?;
    for other in others {
        push(out, b" ")?;
        push(out, other)?;
    }
    push(out, b"\n")
}

/// Adds bytes.
fn push(out: &mut Vec<u8>, bytes: &[u8]) -> Result<(), NoMemory>
    ensures { OnOk result (out.new.items ≡ out.old.items ++ bytes.now) }
{
    Ok(out.extend_from_slice(bytes)?)
}

/// Writes a line of a word and others, each of these behind a space. `line` is room for it.
pub fn write_line<K: Sink>(
    out: &mut K,
    line: &mut Vec<u8>,
    word: &[u8],
    others: &[&[u8]],
) -> Result<(), Failure>
    ensures { Writes (line_of word.now (map (λ w. w.now) others.now)) (K.page out.old) result (K.page out.new) }
{
    line.clear();
    push_line(line, word, others)?;
    write_text(out, line)
}

/// Writes the line of a word and a number. `line` is room for it.
#[tactic(auto, unfolding(crate::specs::Writing::number_line))]
pub fn write_number<K: Sink>(
    out: &mut K,
    line: &mut Vec<u8>,
    word: &[u8],
    number: u128,
) -> Result<(), Failure>
    ensures { Writes (number_line word.now number) (K.page out.old) result (K.page out.new) }
{
    let mut digits = Buffer::new();
    let number = digits.format(number);
    write_line(out, line, word, &[number.as_bytes()])
}
