//! What the program was made of. Where `./actus` builds it, it writes these two into its own copy of the sources.

/// The hash of the sources.
pub(crate) const SOURCES: &str = "not told";

/// The kit that proved and built them.
pub(crate) const KIT: &str = "not told";
