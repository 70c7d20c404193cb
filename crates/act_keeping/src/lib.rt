//! What a board keeps of its history: callers, contracts at versions, which of these may be claimed, and the latest results. That
//! it stays so, mark by mark, is in the lemmas.
#![tactic(auto)]

pub mod caller;
pub mod dropping;
pub mod latest;
pub mod pair;
pub mod reached;
pub mod ready;
pub mod refer;
pub mod room;
