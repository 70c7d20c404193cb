//! A chunk of rows.
ghost use Rattle.std.specs.Prelude.{◌≡◌, [], ◌∷◌, ◌++◌, ◌<◌, ◌≤◌, length, map, take, Some, IfOk, OnErr, OnOk, slice_get};
ghost use Rattle.std.specs.List.{All};
ghost use Rattle.act_model.specs.Chunk.{HasParts, full_row};
ghost use Rattle.act_model.specs.Run.{HaveSameCells, row_with};

use crate::run::{Row, RowHead};
use crate::shared::{Shared, Slim, are_alike, copied};
use crate::state::State;
use act_num::NoMemory;
use std::alloc::Global;
use std::marker::Model;

/// Rows, in order. Neighbours whose states differ in little share the rest and the level.
#[derive(Drop)]
pub(crate) struct Chunk {
    rows: Vec<Slim>,
    shared: Shared,
}

impl Model for Chunk {
    ghost use Rattle.std.specs.Prelude.{List, map};
    ghost use Rattle.std.specs.List.{All};
    ghost use Rattle.act_model.specs.Chunk.{HasParts, full_row};
    ghost use Rattle.act_model.specs.declared.run.Row.{Row};

    ghost Value = { List Row };

    ghost view = { λ c. map (full_row c.shared) c.rows.items };

    ghost invariant = { λ c. All (HasParts c.shared) c.rows.items };
}

impl Chunk {
    /// No rows.
    pub(crate) fn new(alloc: Global) -> Chunk
        ensures { result ≡ [] }
    {
        Chunk {
            rows: Vec::new(alloc),
            shared: Shared::new(alloc),
        }
    }

    /// No rows, and room for so many behind these, which are likely to share as much.
    pub(crate) fn next(&self, alloc: Global, room: usize) -> Result<Chunk, NoMemory>
        ensures { IfOk result (λ chunk. chunk ≡ []) }
    {
        Ok(Chunk {
            rows: Vec::with_capacity(alloc, room)?,
            shared: self.shared.next(alloc, room)?,
        })
    }

    /// The first rows, so many, copied with what they share, and room for `room` rows.
    pub(crate) fn first(&self, alloc: Global, count: usize, room: usize) -> Result<Chunk, NoMemory>
        requires { count ≤ length self.now }
        ensures { IfOk result (λ chunk. chunk ≡ take count self.now) }
    {
        let rows = copied(alloc, &self.rows[..count], room)?;
        let shared = self.shared.needed(alloc, &rows)?;
        Ok(Chunk { rows, shared })
    }

    /// Adds a row behind the others. Where memory runs out, the rows are as before.
    pub(crate) fn push(&mut self, head: &RowHead, state: &State) -> Result<(), NoMemory>
        ensures added { OnOk result (self.new ≡ self.old ++ row_with head.now state.now ∷ []) }
        ensures unchanged { OnErr result (self.new ≡ self.old) }
    {
        self.rows.reserve(1)?;
        let slim = self.shared.add(head, state)?;
        self.rows.push_reserved(slim);
        Ok(())
    }

    /// How many rows there are.
    pub(crate) fn count(&self) -> usize
        ensures { result ≡ length self.now }
    {
        self.rows.len()
    }

    /// The row at a place, from 0.
    #[inline(always)]
    pub(crate) fn row(&self, place: usize) -> Row
        requires { place < length self.now }
        ensures { slice_get self.now place ≡ Some result }
    {
        self.shared.row(&self.rows[place])
    }

    /// How many rows at the beginning of both, up to so many, are found to be printed alike, where those before a place are.
    pub(crate) fn count_alike(&self, other: &Chunk, from: usize, most: usize) -> usize
        requires from { from ≤ most }
        requires here { most ≤ length self.now }
        requires there { most ≤ length other.now }
        requires before { HaveSameCells (take from self.now) (take from other.now) }
        ensures from { from ≤ result }
        ensures most { result ≤ most }
        ensures alike { HaveSameCells (take result self.now) (take result other.now) }
    {
        count_alike(
            &self.rows[..most],
            &self.shared,
            &other.rows[..most],
            &other.shared,
            from,
        )
    }
}

/// How many rows at the beginning of two lists of as many are found to be printed alike, where those before a place are. What
/// those of each share stands beside them.
fn count_alike(
    one: &[Slim],
    shared: &Shared,
    other: &[Slim],
    other_shared: &Shared,
    from: usize,
) -> usize
    requires count { length one.now ≡ length other.now }
    requires here { All (HasParts shared.now) one.now }
    requires there { All (HasParts other_shared.now) other.now }
    requires from { from ≤ length one.now }
    requires before { HaveSameCells (map (full_row shared.now) (take from one.now)) (map (full_row other_shared.now) (take from other.now)) }
    ensures from { from ≤ result }
    ensures most { result ≤ length one.now }
    ensures alike { HaveSameCells (map (full_row shared.now) (take result one.now)) (map (full_row other_shared.now) (take result other.now)) }
{
    for place in from..one.len() {
        if !are_alike(&one[place], shared, &other[place], other_shared) {
            return place;
        }
    }
    one.len()
}
