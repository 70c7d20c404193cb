//! What the threads of a desk have in common.
use std::alloc::Global;

/// What a thread at a desk waits with and allocates from, and the gate that it tells of its evaluations.
#[derive(Drop)]
pub struct Context<'a, R, G> {
    /// What it waits with.
    pub rt: &'a R,
    /// What its answers and its evaluations are allocated from.
    pub alloc: Global,
    /// What is told before and after each evaluation that it makes.
    pub gate: &'a G,
}
