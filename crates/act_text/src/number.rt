//! The text of a number that mostly comes again.
ghost use Rattle.std.specs.Prelude.{◌≡◌, ◌≤◌, ℕ, length, take};
ghost use Rattle.act_num.specs.Decimal.{printed};

use act_num::Fixed;
use std::marker::Model;

/// How many bytes there are for a text.
pub(crate) const TEXT_ROOM: usize = 48;

/// A number with its text, which is written once for as long as the same number comes.
#[derive(Drop)]
pub(crate) struct NumberText {
    number: Fixed,
    text: [u8; TEXT_ROOM],
    end: usize,
}

impl Model for NumberText {
    ghost use Rattle.std.specs.Prelude.{◌≡◌, ◌≤◌, ℤ, length, take};
    ghost use Rattle.act_num.specs.Decimal.{printed};

    ghost Value = { ℤ };

    ghost view = { λ t. t.number };

    ghost invariant = { λ t. (t.end ≤ 41) × (t.end ≡ length (printed t.number)) × (take t.end t.text ≡ printed t.number) };
}

impl NumberText {
    /// That of a number.
    pub(crate) fn of(number: Fixed) -> NumberText
        ensures { result ≡ number }
    {
        let mut text = [0; TEXT_ROOM];
        let end = number.write(&mut text);
        NumberText { number, text, end }
    }

    /// Makes it that of a number.
    #[inline(always)]
    pub(crate) fn renew(&mut self, number: Fixed)
        ensures { self.new ≡ number }
    {
        if self.number != number {
            *self = NumberText::of(number);
        }
    }

    /// The bytes that begin with the text.
    #[inline(always)]
    pub(crate) fn bytes(&self) -> &[u8; TEXT_ROOM]
        ensures { take (length (printed self.now)) result.now ≡ printed self.now }
    {
        &self.text
    }

    /// How many bytes the text has.
    #[inline(always)]
    pub(crate) fn count(&self) -> usize
        ensures text { result ≡ length (printed self.now) }
        ensures few { result ≤ 41 }
    {
        self.end
    }
}
