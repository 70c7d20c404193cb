//! Faults of JSON input.
use thiserror::Error;

/// Why bytes or a field of their value aren't accepted.
#[derive(Clone, Copy, Debug, PartialEq, Eq, Error)]
pub enum JsonFault {
    /// The bytes have no reading as JSON.
    #[error("no JSON")]
    NotJson = 1,
    /// A field is given and is no text, or the value that should have it is no object.
    #[error("a value of another shape")]
    WrongShape = 2,
    /// A field that is required isn't given.
    #[error("a missing term")]
    MissingTerm = 3,
    /// A field has a text of another form.
    #[error("a text of another form")]
    BadValue = 4,
    /// A field that names something has a text that is no name.
    #[error("no name")]
    BadName = 5,
    /// Memory ran out.
    #[error("out of memory")]
    NoMemory,
}
