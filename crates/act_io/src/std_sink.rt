//! The standard output of the system, which gathers small pieces. It tells nothing of what was written.
ghost use Rattle.std.specs.Prelude.{◌≡◌, ◌≢◌, ◌+◌, ◌<◌, ◌≤◌, [], None, Ok, Err, IfOk, IfSome, length};
ghost use Rattle.act_io.specs.declared.sink.PutFault.TheVariants.{Failed, NoMemory};
ghost use Rattle.act_io.specs.Faults.{next_count};
ghost use Rattle.act_io.specs.Gathered.{Accounts, Gathers, finish_faults};
ghost use Rattle.act_io.specs.Page.{Puts};

use crate::{PutFault, Sink};
use std::alloc::Global;
use std::io::ErrorKind;
use std::marker::Model;

/// How many bytes there is room for, once a piece has come: 64 KiB.
const ROOM: usize = 65_536;

/// A piece of so many bytes and more isn't gathered.
const LARGE: usize = 4_096;

/// How often a write that is interrupted is tried.
const TRIES: u32 = 1_000;

/// The standard output. What it takes is gathered, up to some 64 KiB, and written once and in order: where the next piece
/// doesn't fit behind it, before a piece of 4 KiB and more, which is written at once, and by [`StdSink::finish`]. Contracts
/// see what is gathered, how many bytes were handed to the system by writes that didn't fail, and the count of faults. A write that takes
/// nothing is a fault, and so is one that could come to 2^128 bytes in all.
#[derive(Drop)]
pub struct StdSink<'a, R: Print> {
    rt: &'a R,
    gathered: Vec<u8>,
    handed: u128,
    faults: u64,
}

impl<'a, R: Print> Model for StdSink<'a, R> {
    ghost use Rattle.act_io.specs.Gathered.{Gathering};

    ghost Value = { Gathering };

    ghost view = { λ s. record { gathered = s.gathered.items; handed = s.handed; faults = s.faults } };
}

impl<'a, R: Print> StdSink<'a, R> {
    /// The standard output, with nothing written and no fault counted.
    pub fn new(alloc: Global, rt: &'a R) -> StdSink<'a, R>
        ensures gathered { result.gathered ≡ [] }
        ensures handed { result.handed ≡ 0 }
        ensures faults { result.faults ≡ 0 }
    {
        StdSink {
            rt,
            gathered: Vec::new(alloc),
            handed: 0,
            faults: 0,
        }
    }

    /// Writes what is gathered. After a fault a part of it may have been written, and the rest is given up.
    pub fn finish(&mut self) -> Result<(), PutFault>
        ensures gathered { self.new.gathered ≡ [] }
        ensures accounts { IfOk result (λ _. self.new.handed ≡ self.old.handed + length self.old.gathered) }
        ensures memory { result ≢ Err NoMemory }
        ensures faults { self.new.faults ≡ finish_faults result self.old.faults }
    {
        let Some(handed) = self.handed.checked_add(self.gathered.len() as u128) else {
            self.gathered.clear();
            return Err(self.failed());
        };
        let written = self.rt.write_all(&self.gathered);
        self.gathered.clear();
        if written.is_err() {
            return Err(self.failed());
        }
        self.handed = handed;
        Ok(())
    }

    /// Counts a write that failed, and gives its fault.
    fn failed(&mut self) -> PutFault
        ensures fault { result ≡ Failed }
        ensures gathered { self.new.gathered ≡ self.old.gathered }
        ensures handed { self.new.handed ≡ self.old.handed }
        ensures faults { self.new.faults ≡ next_count self.old.faults }
    {
        self.faults = self.faults.saturating_add(1);
        PutFault::Failed
    }

    /// Takes the first bytes of a piece that isn't empty, and that is large or for which there is no room behind what is
    /// gathered. What is gathered is written first.
    #[cold]
    #[inline(never)]
    fn put_behind(&mut self, piece: &[u8]) -> Result<usize, PutFault>
        ensures took { Puts piece.now (record { written = None; faults = self.old.faults }) result (record { written = None; faults = self.new.faults }) }
        ensures gathered { Gathers piece.now self.old.gathered self.new.gathered result }
        ensures accounts { Accounts self.old result self.new }
        ensures memory { result ≢ Err NoMemory }
    {
        self.finish()?;
        if piece.len() < LARGE
            && self.gathered.reserve(ROOM).is_ok()
            && self.gathered.extend_from_slice(piece).is_ok()
        {
            return Ok(piece.len());
        }
        self.write(piece)
    }

    /// Writes the first bytes of a piece that isn't empty, and answers how many.
    fn write(&mut self, piece: &[u8]) -> Result<usize, PutFault>
        ensures took { Puts piece.now (record { written = None; faults = self.old.faults }) result (record { written = None; faults = self.new.faults }) }
        ensures gathered { self.new.gathered ≡ self.old.gathered }
        ensures accounts { Accounts self.old result self.new }
        ensures memory { result ≢ Err NoMemory }
    {
        if self.handed.checked_add(piece.len() as u128).is_none() {
            return Err(self.failed());
        }
        let Some(count) = taken(self.rt, piece) else {
            return Err(self.failed());
        };
        self.handed += count as u128;
        Ok(count)
    }
}

/// Writes the first bytes of a piece that isn't empty, and answers how many the system has taken, where it has taken some.
fn taken<R: Print>(rt: &R, piece: &[u8]) -> Option<usize>
    ensures some { IfSome result (λ count. 0 < count) }
    ensures within { IfSome result (λ count. count ≤ length piece.now) }
{
    for _ in 0..TRIES {
        match rt.write_some(piece) {
            Ok(count) if count > 0 => return Some(count),
            Err(error) if error.kind() == ErrorKind::Interrupted => {}
            _ => break,
        }
    }
    None
}

impl<R: Print> Sink for StdSink<'_, R> {
    ghost page = { λ s. record { written = None; faults = s.faults } };

    /// Where a piece is large or doesn't fit, what is gathered is written first. The piece is then written at once where it is
    /// large, or where there is no memory to gather it; perhaps only its first bytes.
    #[inline]
    fn put(&mut self, piece: &[u8]) -> Result<usize, PutFault>
        ensures took { Puts piece.now (record { written = None; faults = self.old.faults }) result (record { written = None; faults = self.new.faults }) }
        ensures empty { length piece.now ≡ 0 → result ≡ Ok 0 }
        ensures gathered { Gathers piece.now self.old.gathered self.new.gathered result }
        ensures accounts { Accounts self.old result self.new }
        ensures memory { result ≢ Err NoMemory }
    {
        if piece.is_empty() {
            return Ok(0);
        }
        let room = self.gathered.capacity() - self.gathered.len();
        if piece.len() < LARGE
            && piece.len() <= room
            && self.gathered.extend_from_slice(piece).is_ok()
        {
            return Ok(piece.len());
        }
        self.put_behind(piece)
    }

    /// Takes lines together, as one piece.
    #[inline]
    fn put_lines(&mut self, text: &[u8]) -> Result<usize, PutFault>
        ensures took { Puts text.now (record { written = None; faults = self.old.faults }) result (record { written = None; faults = self.new.faults }) }
        ensures empty { length text.now ≡ 0 → result ≡ Ok 0 }
        ensures gathered { Gathers text.now self.old.gathered self.new.gathered result }
        ensures accounts { Accounts self.old result self.new }
        ensures memory { result ≢ Err NoMemory }
    {
        self.put(text)
    }
}
