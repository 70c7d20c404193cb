//! Where text is written.
ghost use Rattle.std.specs.Prelude.{◌≡◌, Ok, length};
ghost use Rattle.act_io.specs.Page.{Page, Puts, first_line};

/// Why nothing was written.
#[derive(Clone, Copy, Debug, PartialEq, Eq)]
pub enum PutFault {
    /// Writing failed, which counts as a fault.
    Failed,
    /// Memory ran out.
    NoMemory,
}

/// A place that takes bytes in order.
pub trait Sink {
    /// What was written, where the sink tells it, and how often writing has failed, as far as a counter goes: once more exactly
    /// where `Failed` is answered.
    ghost page: { Self → Page };

    /// Takes the first bytes of the piece and answers how many: at least one of a piece that isn't empty,
    /// 0 of an empty one. A fault means that nothing was taken.
    fn put(&mut self, piece: &[u8]) -> Result<usize, PutFault>
        ensures took { Puts piece.now (page self.old) result (page self.new) }
        ensures empty { length piece.now ≡ 0 → result ≡ Ok 0 };

    /// The same for one line or several, or the rest of one: a sink may take several together, or, as here, from the first
    /// alone.
    fn put_lines(&mut self, text: &[u8]) -> Result<usize, PutFault>
        ensures took { Puts text.now (page self.old) result (page self.new) }
        ensures empty { length text.now ≡ 0 → result ≡ Ok 0 }
    {
        self.put(first_line(text))
    }
}

/// The first line of a text, with its line feed where it has one.
pub(crate) fn first_line(text: &[u8]) -> &[u8]
    ensures { result.now ≡ first_line text.now }
{
    for place in 0..text.len() {
        if text[place] == b'\n' {
            return &text[..=place];
        }
    }
    text
}
