//! Why bytes are no text.

/// Why bytes are no text of a journal and its answers.
#[derive(Clone, Copy, Debug, PartialEq, Eq)]
pub enum TextFault {
    /// They are no text. No text begins with the lines up to the one of this number, counted from 1, and one begins with
    /// those before it; where a text begins with all lines, it is the number of the last line plus 1.
    NotText(u32),
    /// Memory ran out.
    NoMemory,
}
