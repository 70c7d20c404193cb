//! A sink that takes less than it is given.
ghost use Rattle.std.specs.Prelude.{None};

use crate::commands::{ended, files_named};
use act_io::{Files, MemFiles, PutFault, Sink};
use cases_rows::Case;

/// A sink that takes a byte at a time, as many as it has room for, and is then out of memory.
#[derive(Drop)]
struct Narrow {
    taken: Vec<u8>,
    room: u64,
}

impl Sink for Narrow {
    ghost page = { λ _. record { written = None; faults = 0 } };

    fn put(&mut self, piece: &[u8]) -> Result<usize, PutFault> {
        let [first, ..] = piece else {
            return Ok(0);
        };
        if self.taken.len() as u64 >= self.room || self.taken.push(*first).is_err() {
            return Err(PutFault::NoMemory);
        }
        Ok(1)
    }
}

/// Tells how the command below ends where the sink has so much room, and what it has taken.
pub fn answer<F: Files>(case: &mut Case<'_>, files: &mut F) {
    let room = case.place();
    let line = case.given.split_once("\n").unwrap_or(("", "")).1;
    let list = files_named(case, files, line);
    let files = MemFiles::new(case.alloc, list, Vec::new(case.alloc));
    let mut out = Narrow {
        taken: Vec::new(case.alloc),
        room,
    };
    let status = ended(case, files, &mut out, line);
    case.value(status.number());
    case.lines(&out.taken);
}
