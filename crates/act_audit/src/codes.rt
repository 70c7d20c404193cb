//! The codes that the journal of a text names.
ghost use Rattle.std.specs.Prelude.{◌≡◌, ◌≤◌, ◌<◌, ◌==◌, ◌∷◌, [], length, if◌then◌else◌, Some, None, IfOk, IfSome, option_map, position, true};
ghost use Rattle.std.specs.Option.{option_map_or};
ghost use Rattle.act_model.specs.Name.{is_name};
ghost use Rattle.act_audit.specs.Text.{code_in_line, journal_lines, names_for};
ghost use Rattle.act_print.specs.Faults.{lines_of};
ghost use Rattle.act_print.specs.Words.{word_at};

use act_model::{Names, is_name};
use act_num::NoMemory;

/// The names with, behind them, the codes that only the journal of a text names.
pub(crate) fn names_for(mut names: Names, text: &[u8]) -> Result<Names, NoMemory>
    ensures { IfOk result (λ more. more ≡ names_for names text.now) }
{
    let mut rest = text;
    'lines: while let Some((line, behind)) = journal_line(rest) {
        if let Some(code) = code_in_line(line) {
            names.intern_code(code)?;
        }
        rest = behind;
    }
    Ok(names)
}

/// The first line, where it is one of a journal, and what stands behind it.
fn journal_line(bytes: &[u8]) -> Option<(&[u8], &[u8])>
    ensures lines { journal_lines bytes.now ≡ option_map_or (λ l. l.0.now ∷ journal_lines l.1.now) result [] }
    ensures shorter { IfSome result (λ l. length l.1.now < length bytes.now) }
{
    let (line, behind) = first_line(bytes)?;
    if line.starts_with(b"answers") {
        return None;
    }
    Some((line, behind))
}

/// The first line, without its line feed, and what stands behind it; None where there is none.
fn first_line(bytes: &[u8]) -> Option<(&[u8], &[u8])>
    ensures lines { lines_of bytes.now ≡ option_map_or (λ l. l.0.now ∷ lines_of l.1.now) result [] }
    ensures shorter { IfSome result (λ l. length l.1.now < length bytes.now) }
{
    if bytes.is_empty() {
        return None;
    }
    match first_feed(bytes) {
        Some(end) => Some((&bytes[..end], &bytes[end + 1..])),
        None => Some((bytes, &[])),
    }
}

/// The place of the first line feed.
fn first_feed(bytes: &[u8]) -> Option<usize>
    ensures { result ≡ position (λ byte. byte == 10) bytes.now }
{
    bytes.iter().position(|byte| *byte == b'\n')
}

/// The code that a line names, where it is that of a rate.
#[tactic(auto, unfolding(crate::specs::Text::code_in_line))]
fn code_in_line(line: &[u8]) -> Option<&str>
    ensures code { option_map (λ s. s.now) result ≡ code_in_line line.now }
    ensures name { IfSome result (λ s. is_name s.now ≡ true) }
{
    let (_, behind) = word_at(line)?;
    let (verb, behind) = word_at(behind)?;
    let (code, _) = word_at(behind)?;
    if verb == b"rate".as_slice() {
        name(code)
    } else {
        None
    }
}

/// The first word of a text that has a space behind it, and what stands behind the space.
#[tactic(auto, unfolding(act_print::specs::Words::word_at))]
fn word_at(text: &[u8]) -> Option<(&[u8], &[u8])>
    ensures { option_map (λ w. (w.0.now, w.1.now)) result ≡ word_at text.now }
{
    let end = first_space(text)?;
    Some((&text[..end], &text[end + 1..]))
}

/// The place of the first space.
fn first_space(text: &[u8]) -> Option<usize>
    ensures { result ≡ position (λ byte. byte == 32) text.now }
{
    text.iter().position(|byte| *byte == b' ')
}

/// The word as a text, where it is a name.
fn name(word: &[u8]) -> Option<&str>
    ensures text { option_map (λ s. s.now) result ≡ (if is_name word.now then Some word.now else None) }
    ensures name { IfSome result (λ s. is_name s.now ≡ true) }
{
    let text = str::from_utf8(word).ok()?;
    if is_name(text) { Some(text) } else { None }
}
