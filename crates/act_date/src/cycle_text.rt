//! Cycles and periods as text.
ghost use Rattle.std.specs.Prelude.{◌≡◌, ◌≤◌, IfOk};
ghost use Rattle.std.specs.List.{prefix_len};
ghost use Rattle.std.specs.Char.{is_ascii_digit};
ghost use Rattle.act_date.specs.CycleText.{cycle_of, period_of, stub_of, unit_of, written_period};

use crate::text::number;
use crate::{Cycle, CycleFault, Stub, Unit};

/// The most digits of a count.
const MOST_DIGITS: usize = 3;

/// The cycle of a text: `P`, one to three digits with a value from 1 to 999, the letter of a [`Unit`], and
/// `L0` for a long last stub, `L1` or nothing for a short one. Any other text is a fault.
#[tactic(auto, unfolding(crate::specs::CycleText::cycle_of))]
pub fn parse_cycle(text: &[u8]) -> Result<Cycle, CycleFault>
    ensures value { result ≡ cycle_of text.now }
    ensures count { IfOk result (λ cycle. 1 ≤ cycle.count) }
{
    match written_period(text) {
        Some(cycle) if cycle.count >= 1 => Ok(cycle),
        _ => Err(CycleFault::NotCycle),
    }
}

/// The period of a text, which has the form of a cycle's, and whose digits may have the value 0. Any other
/// text is a fault.
#[tactic(auto, unfolding(crate::specs::CycleText::period_of))]
pub fn parse_period(text: &[u8]) -> Result<Cycle, CycleFault>
    ensures { result ≡ period_of text.now }
{
    written_period(text).ok_or(CycleFault::NotCycle)
}

/// The period that a text writes, or None of another text.
#[tactic(auto, using(crate::proofs::CycleTexts::first_digit_steps), unfolding(crate::specs::CycleText::written_period))]
fn written_period(text: &[u8]) -> Option<Cycle>
    ensures { result ≡ written_period text.now }
{
    let [b'P', rest @ ..] = text else {
        return None;
    };
    let (digits, rest) = rest.split_at(count_digits(rest));
    if digits.is_empty() || digits.len() > MOST_DIGITS {
        return None;
    }
    let [letter, rest @ ..] = rest else {
        return None;
    };
    Some(Cycle {
        count: number(digits)?,
        unit: unit(*letter)?,
        stub: stub(rest)?,
    })
}

/// How many digits a text begins with.
fn count_digits(text: &[u8]) -> usize
    ensures { result ≡ prefix_len is_ascii_digit text.now }
{
    text.iter().take_while(|byte| byte.is_ascii_digit()).count()
}

/// The unit that a letter names, or None of another byte.
fn unit(letter: u8) -> Option<Unit>
    ensures { result ≡ unit_of letter }
{
    match letter {
        b'D' => Some(Unit::D),
        b'W' => Some(Unit::W),
        b'M' => Some(Unit::M),
        b'Q' => Some(Unit::Q),
        b'H' => Some(Unit::H),
        b'Y' => Some(Unit::Y),
        _ => None,
    }
}

/// What becomes of the last stub by the end of a text, or None of another end.
fn stub(end: &[u8]) -> Option<Stub>
    ensures { result ≡ stub_of end.now }
{
    match end {
        b"L0" => Some(Stub::Long),
        b"L1" | b"" => Some(Stub::Short),
        _ => None,
    }
}
