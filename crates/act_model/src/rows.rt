//! The rows of a run.
ghost use Rattle.std.specs.Prelude.{◌≡◌, ◌≤◌, ◌<◌, ◌++◌, [], ◌∷◌, Some, length, map, take, slice_get, min, ◌-◌, ◌/◌, ◌*◌, ◌+◌, IfErr, IfOk, OnOk};
ghost use Rattle.act_model.specs.Rows.{AreChunks, next_rows, rows_of};
ghost use Rattle.std.specs.Arc.{arc_value};
ghost use Rattle.act_model.specs.Run.{HaveSameCells, row_with};

use crate::chunk::Chunk;
use crate::run::{Row, RowHead};
use crate::state::State;
use act_num::NoMemory;
use std::alloc::Global;
use std::marker::Model;
use std::mem;
use std::sync::Arc;

/// How many rows a full chunk has.
const CHUNK: usize = 64;

/// How many full chunks there are at most: more than memory holds.
const MOST_CHUNKS: usize = 1 << 32;

/// The rows of a run, in order. A list of another's first rows shares its full chunks.
#[derive(Drop)]
pub struct Rows {
    /// Chunks of 64 rows each, which nobody changes.
    full: Vec<Arc<Chunk, Global>>,
    /// The rows behind them, at most 64.
    last: Chunk,
    /// How many rows there are to be. Each chunk gets room for those of them that fall into it; rows beyond make room as they come.
    room: usize,
}

impl Model for Rows {
    ghost use Rattle.std.specs.Prelude.{List, ◌++◌, map};
    ghost use Rattle.std.specs.Arc.{arc_value};
    ghost use Rattle.act_model.specs.Rows.{AreChunks, rows_of};
    ghost use Rattle.act_model.specs.declared.run.Row.{Row};

    ghost Value = { List Row };

    ghost view = { λ r. rows_of (map arc_value r.full.items) ++ r.last };

    ghost invariant = { λ r. AreChunks (map arc_value r.full.items) r.last };
}

impl Rows {
    /// No rows. What is added later is allocated by `alloc`.
    pub fn new(alloc: Global) -> Rows
        ensures { result ≡ [] }
    {
        Rows {
            full: Vec::new(alloc),
            last: Chunk::new(alloc),
            room: 0,
        }
    }

    /// The first rows, so many, and room for `room` rows in all. It shares full chunks, and copies the rows behind them.
    pub fn first(&self, alloc: Global, count: usize, room: usize) -> Result<Rows, NoMemory>
        requires { count ≤ length self.now }
        ensures { IfOk result (λ rows. rows ≡ take count self.now) }
    {
        let chunks = (count / CHUNK).min(self.full.len());
        let full = shared(alloc, &self.full[..chunks])?;
        let next = behind(&self.full, &self.last, chunks);
        let last = next.first(alloc, count - chunks * CHUNK, room_behind(room, chunks))?;
        Ok(Rows { full, last, room })
    }

    /// Adds a row behind the others, by its head and its state. Where memory runs out, the rows are as before.
    pub fn push(&mut self, head: &RowHead, state: &State) -> Result<(), NoMemory>
        ensures added { OnOk result (self.new ≡ self.old ++ row_with head.now state.now ∷ []) }
        ensures unchanged { IfErr result (λ _. self.new ≡ self.old) }
    {
        if self.last.count() == CHUNK {
            close_chunk(&mut self.full, &mut self.last, self.room)?;
        }
        self.last.push(head, state)
    }

    /// How many rows there are.
    pub fn count(&self) -> usize
        ensures { result ≡ length self.now }
    {
        self.full.len() * CHUNK + self.last.count()
    }

    /// The row at a place, from 0.
    #[inline(always)]
    pub fn row(&self, place: usize) -> Row
        requires { place < length self.now }
        ensures { slice_get self.now place ≡ Some result }
    {
        let chunks = (place / CHUNK).min(self.full.len());
        behind(&self.full, &self.last, chunks).row(place - chunks * CHUNK)
    }

    /// How many of the first rows of these and of others are found to be printed alike, `most` at most. Those before `from` are known
    /// to be.
    pub fn count_alike(&self, other: &Rows, from: usize, most: usize) -> usize
        requires here { from ≤ length self.now }
        requires there { from ≤ length other.now }
        requires most { from ≤ most }
        requires before { HaveSameCells (take from self.now) (take from other.now) }
        ensures from { from ≤ result }
        ensures most { result ≤ most }
        ensures here { result ≤ length self.now }
        ensures there { result ≤ length other.now }
        ensures alike { HaveSameCells (take result self.now) (take result other.now) }
    {
        let limit = most.min(self.count()).min(other.count());
        let mut alike = from;
        while alike < limit {
            let end = alike + (CHUNK - alike % CHUNK).min(limit - alike);
            alike = self.alike_until(other, alike, end);
            if alike < end {
                break;
            }
        }
        alike
    }

    /// How many rows at the beginning, up to so many, are found to be printed alike, where those before a place are and the two
    /// places are in one chunk.
    #[inline(always)]
    fn alike_until(&self, other: &Rows, from: usize, end: usize) -> usize
        requires some { from < end }
        requires chunk { end ≤ 64 * (from / 64) + 64 }
        requires here { end ≤ length self.now }
        requires there { end ≤ length other.now }
        requires before { HaveSameCells (take from self.now) (take from other.now) }
        ensures from { from ≤ result }
        ensures end { result ≤ end }
        ensures alike { HaveSameCells (take result self.now) (take result other.now) }
    {
        let chunks = from / CHUNK;
        let here = behind(&self.full, &self.last, chunks);
        let there = behind(&other.full, &other.last, chunks);
        let begin = chunks * CHUNK;
        begin + here.count_alike(there, from - begin, end - begin)
    }
}

/// The rows that stand behind so many full chunks: those of the next one, and else the last.
#[inline(always)]
fn behind<'a>(full: &'a [Arc<Chunk, Global>], last: &'a Chunk, chunks: usize) -> &'a Chunk
    ensures { result.now ≡ next_rows (slice_get (map arc_value full.now) chunks) last.now }
{
    match full.get(chunks) {
        Some(chunk) => chunk,
        None => last,
    }
}

/// The room of the chunk behind so many full ones, where there is to be room for so many rows in all.
fn room_behind(room: usize, chunks: usize) -> usize {
    room.saturating_sub(chunks.saturating_mul(CHUNK)).min(CHUNK)
}

/// The same chunks once more, shared.
fn shared(alloc: Global, chunks: &[Arc<Chunk, Global>]) -> Result<Vec<Arc<Chunk, Global>>, NoMemory>
    ensures { IfOk result (λ same. map arc_value same.items ≡ map arc_value chunks.now) }
{
    let mut same = Vec::with_capacity(alloc, chunks.len())?;
    'chunks: for chunk in chunks {
        same.push(Arc::try_clone(chunk)?)?;
    }
    Ok(same)
}

/// Makes the last rows a full chunk. There is to be room for `room` rows in all. Where memory runs out, they stay.
fn close_chunk(
    full: &mut Vec<Arc<Chunk, Global>>,
    last: &mut Chunk,
    room: usize,
) -> Result<(), NoMemory>
    requires long { length last.old ≡ 64 }
    requires chunks { AreChunks (map arc_value full.old.items) last.old }
    ensures chunks { AreChunks (map arc_value full.new.items) last.new }
    ensures closed { OnOk result (last.new ≡ []) }
    ensures rows { rows_of (map arc_value full.new.items) ++ last.new ≡ rows_of (map arc_value full.old.items) ++ last.old }
{
    if full.len() >= MOST_CHUNKS {
        return Err(NoMemory);
    }
    let alloc = *full.allocator();
    full.reserve(1)?;
    let next = last.next(alloc, room_behind(room, full.len() + 1))?;
    match Arc::new(alloc, mem::replace(last, next)) {
        Ok(chunk) => {
            let Ok(()) = full.push(chunk) else {
                unreachable!()
            };
            Ok(())
        }
        Err(refused) => {
            *last = refused.value;
            Err(NoMemory)
        }
    }
}
