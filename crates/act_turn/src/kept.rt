//! What a turn keeps.
ghost use Rattle.std.specs.Prelude.{ℕ, List, Option};

/// A value that stands for a list, its journal.
pub trait Kept {
    /// An entry of the journal. No value of it need be made.
    type Entry;

    /// The list that the value stands for.
    ghost journal: { Self → List Self.Entry };

    /// Who made an entry: the number of a pass, or none.
    ghost author: { Self.Entry → Option ℕ };
}
