//! Files that are read whole.
ghost use Rattle.act_io.specs.World.{Fetches, World};

use std::alloc::Global;

/// Why a file wasn't read.
#[derive(Clone, Copy, Debug, PartialEq, Eq)]
pub enum FetchFault {
    /// Reading failed, which counts as a fault.
    Failed,
    /// The file is longer than the limit.
    TooLong,
    /// Memory ran out.
    NoMemory,
}

/// Files by name.
pub trait Files {
    /// The bytes under a name and the names that were asked for, in order, where the files tell them; how often a name was asked
    /// for and how often reading has failed, as far as counters go: once more exactly where `Failed` is answered; and at which of
    /// these calls it failed last.
    ghost world: { Self → World };

    /// The bytes of the file of that name, of which there may be as many as the limit. No file changes. The
    /// name joins those asked for, unless memory ran out.
    fn fetch(&mut self, alloc: Global, name: &str, limit: u64) -> Result<Vec<u8>, FetchFault>
        ensures { Fetches name.now limit (world self.old) result (world self.new) };
}
