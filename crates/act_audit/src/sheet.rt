//! The right text, gathered beside the text at hand.
ghost use Rattle.std.specs.Prelude.{◌≡◌, ℕ, List, [], ◌++◌, Some, Ok, length};
ghost use Rattle.act_io.specs.Page.{Puts};

use act_io::{PutFault, Sink};
use std::alloc::Global;
use std::marker::Model;

/// A sink that never fails. What is written is kept only from the first piece on that the text at hand hasn't: the text has
/// what stands before.
#[derive(Drop)]
pub(crate) struct Sheet<'a> {
    text: &'a [u8],
    same: usize,
    rest: Vec<u8>,
}

impl<'a> Model for Sheet<'a> {
    ghost use Rattle.std.specs.Prelude.{ℕ, List, ◌++◌, ◌≤◌, length, take};

    ghost Value = { List ℕ };

    ghost view = { λ s. take s.same s.text.now ++ s.rest.items };

    ghost invariant = { λ s. s.same ≤ length s.text.now };
}

impl<'a> Sheet<'a> {
    /// A sink with nothing written, beside a text.
    pub(crate) fn new(alloc: Global, text: &'a [u8]) -> Sheet<'a>
        ensures { result ≡ [] }
    {
        Sheet {
            text,
            same: 0,
            rest: Vec::new(alloc),
        }
    }

    /// What was written: what the text at hand has too, and what stands behind it.
    pub(crate) fn parts(&self) -> (&[u8], &[u8])
        ensures { result.0.now ++ result.1.now ≡ self.now }
    {
        (&self.text[..self.same], self.rest.as_slice())
    }
}

impl<'a> Sink for Sheet<'a> {
    ghost page = { λ s. record { written = Some s; faults = 0 } };

    fn put(&mut self, piece: &[u8]) -> Result<usize, PutFault>
        ensures took { Puts piece.now (record { written = Some self.old; faults = 0 }) result (record { written = Some self.new; faults = 0 }) }
        ensures empty { length piece.now ≡ 0 → result ≡ Ok 0 }
    {
        if piece.is_empty() {
            return Ok(0);
        }
        if self.rest.is_empty() && self.text[self.same..].starts_with(piece) {
            self.same += piece.len();
        } else if self.rest.extend_from_slice(piece).is_err() {
            return Err(PutFault::NoMemory);
        }
        Ok(piece.len())
    }

    fn put_lines(&mut self, text: &[u8]) -> Result<usize, PutFault>
        ensures took { Puts text.now (record { written = Some self.old; faults = 0 }) result (record { written = Some self.new; faults = 0 }) }
        ensures empty { length text.now ≡ 0 → result ≡ Ok 0 }
    {
        self.put(text)
    }
}
