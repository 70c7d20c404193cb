//! The outside as traits: files, a sink and a gate. Beside them stand what a program uses and, in
//! memory, what tests use.
#![tactic(auto)]

mod files;
mod gate;
mod memory_files;
mod memory_sink;
mod real_files;
mod sink;
mod std_sink;

pub use files::{FetchFault, Files};
pub use gate::{Gate, NoGate};
pub use memory_files::MemFiles;
pub use memory_sink::MemSink;
pub use real_files::RealFiles;
pub use sink::{PutFault, Sink};
pub use std_sink::StdSink;
