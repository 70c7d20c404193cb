//! How much there may be of what.

/// The most bytes of a file: 64 MiB.
pub const MOST_BYTES: u64 = 67_108_864;

/// The most asks of a caller.
pub const MOST_ASKS: u32 = 4_194_304;

/// The most callers of a board, each with a script.
pub const MOST_CALLERS: usize = 16;

/// The most contracts of a portfolio.
pub const MOST_CONTRACTS: usize = 4_096;

/// The most scheduled events of a contract, and the most redemptions of one.
pub const MOST_DATES: usize = 4_096;

/// The most entries of a book, and of all scripts together.
pub const MOST_ENTRIES: u64 = 1_048_576;

/// The most names of one sort, as of contracts.
pub const MOST_NAMES: usize = 134_217_727;

/// The most asks of a caller that are open at a time.
pub const MOST_OPEN: usize = 256;

/// The most workers of a desk.
pub const MOST_WORKERS: u32 = 64;
