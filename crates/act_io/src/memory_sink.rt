//! A sink in memory.
ghost use Rattle.std.specs.Prelude.{◌≡◌, ◌≢◌, ◌≤◌, [], Some, Ok, Err, length};
ghost use Rattle.act_io.specs.Faults.{last_count};
ghost use Rattle.act_io.specs.declared.sink.PutFault.TheVariants.{NoMemory};
ghost use Rattle.act_io.specs.Memory.{page_of, put_answer, sink_after};
ghost use Rattle.act_io.specs.Page.{Puts, first_line};

use crate::sink::first_line;
use crate::{PutFault, Sink};
use std::alloc::Global;
use std::marker::Model;

/// Keeps what is written. The calls of `put` and `put_lines` whose numbers, from 1, are listed fail; a call with an empty
/// piece, or that memory ran out for, has no number. A call of `put` takes its whole piece, or so many bytes as are taken at
/// most.
#[derive(Drop)]
pub struct MemSink {
    written: Vec<u8>,
    fails: Vec<u64>,
    calls: u64,
    faults: u64,
    most: usize,
}

impl Model for MemSink {
    ghost use Rattle.std.specs.Prelude.{◌≤◌};
    ghost use Rattle.act_io.specs.Memory.{SinkInMemory};

    ghost Value = { SinkInMemory };

    ghost view = { λ m. record { written = m.written.items; fails = m.fails.items; calls = m.calls; faults = m.faults; most = m.most } };

    ghost invariant = { λ m. 1 ≤ m.most };
}

impl MemSink {
    /// A sink with nothing written, of which the calls of these numbers are to fail.
    pub fn new(alloc: Global, fails: Vec<u64>) -> MemSink
        ensures written { result.written ≡ [] }
        ensures fails { result.fails ≡ fails.items }
        ensures calls { result.calls ≡ 0 }
        ensures faults { result.faults ≡ 0 }
        ensures most { result.most ≡ last_count }
    {
        MemSink::narrow(alloc, fails, usize::MAX)
    }

    /// A sink with nothing written, of which the calls of these numbers are to fail, and each takes at most `most` bytes.
    pub fn narrow(alloc: Global, fails: Vec<u64>, most: usize) -> MemSink
        requires most { 1 ≤ most }
        ensures written { result.written ≡ [] }
        ensures fails { result.fails ≡ fails.items }
        ensures calls { result.calls ≡ 0 }
        ensures faults { result.faults ≡ 0 }
        ensures most { result.most ≡ most }
    {
        MemSink {
            written: Vec::new(alloc),
            fails,
            calls: 0,
            faults: 0,
            most,
        }
    }

    /// What was written.
    pub fn bytes(&self) -> &[u8]
        ensures { result.now ≡ self.now.written }
    {
        self.written.as_slice()
    }
}

impl Sink for MemSink {
    ghost page = { page_of };

    fn put(&mut self, piece: &[u8]) -> Result<usize, PutFault>
        ensures took { Puts piece.now (page_of self.old) result (page_of self.new) }
        ensures empty { length piece.now ≡ 0 → result ≡ Ok 0 }
        ensures answer { result ≢ Err NoMemory → result ≡ put_answer self.old piece.now }
        ensures after { self.new ≡ sink_after result self.old piece.now }
    {
        if piece.is_empty() {
            return Ok(0);
        }
        let call = self.calls.saturating_add(1);
        if self.fails.contains(&call) {
            self.calls = call;
            self.faults = self.faults.saturating_add(1);
            return Err(PutFault::Failed);
        }
        let taken = if self.most < piece.len() {
            self.most
        } else {
            piece.len()
        };
        if self.written.extend_from_slice(&piece[..taken]).is_err() {
            return Err(PutFault::NoMemory);
        }
        self.calls = call;
        Ok(taken)
    }

    /// Takes from the first line alone, as one call of `put`, so that each line has a number of its own.
    fn put_lines(&mut self, text: &[u8]) -> Result<usize, PutFault>
        ensures took { Puts text.now (page_of self.old) result (page_of self.new) }
        ensures empty { length text.now ≡ 0 → result ≡ Ok 0 }
        ensures answer { result ≢ Err NoMemory → result ≡ put_answer self.old (first_line text.now) }
        ensures after { self.new ≡ sink_after result self.old (first_line text.now) }
    {
        self.put(first_line(text))
    }
}
