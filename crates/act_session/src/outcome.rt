//! What a session ends with.
use act_board::Board;
use std::alloc::Global;

/// What a session ends with.
#[derive(Drop)]
pub struct Session<A> {
    /// The closed board.
    pub board: Board,
    /// For each script what is kept of the answers to its asks, in their order.
    pub answers: Vec<Vec<A>>,
}
