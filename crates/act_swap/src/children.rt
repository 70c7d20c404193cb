//! The runs of a contract's children.
ghost use Rattle.std.specs.Prelude.{◌≡◌, ◌<◌, ◌^◌, ◌↔◌, IsTrue, map, Some, length, option_map, slice_get};
ghost use Rattle.std.specs.Arc.{arc_value};
ghost use Rattle.act_profile.specs.Legs.{child, paid, row_at};

use act_model::{Row, Run};
use act_num::Fixed;
use std::alloc::Global;
use std::marker::Model;
use std::sync::Arc;

/// The run of a child, which has no rows where the child isn't there. Contracts see the run.
#[derive(Drop)]
pub(crate) struct ChildRun<'a> {
    run: Option<&'a Run>,
}

impl<'a> Model for ChildRun<'a> {
    ghost use Rattle.std.specs.Prelude.{option_map};
    ghost use Rattle.act_model.specs.Run.{Stream};
    ghost use Rattle.act_swap.specs.Children.{run_or_none};

    ghost Value = { Stream };

    ghost view = { λ c. run_or_none (option_map (λ run. run.now) c.run) };
}

impl<'a> ChildRun<'a> {
    /// The run of the child at a place.
    pub(crate) fn of(children: &'a [Arc<Run, Global>], place: usize) -> ChildRun<'a>
        ensures { result ≡ child (map arc_value children.now) place }
    {
        match children.get(place) {
            Some(run) => ChildRun { run: Some(&**run) },
            None => ChildRun { run: None },
        }
    }

    /// How many rows it has.
    pub(crate) fn count(&self) -> usize
        ensures { result ≡ length self.now.rows }
    {
        match self.run {
            Some(run) => run.rows.count(),
            None => 0,
        }
    }

    /// Whether its rows can be numbered: there are fewer than 2^32.
    pub(crate) fn is_numbered(&self) -> bool
        ensures { IsTrue result ↔ (length self.now.rows < 2 ^ 32) }
    {
        self.count() <= u32::MAX as usize
    }

    /// The row at a place, from 0.
    #[inline(always)]
    pub(crate) fn row(&self, place: usize) -> Row
        requires { place < length self.now.rows }
        ensures { slice_get self.now.rows place ≡ Some result }
    {
        match self.run {
            Some(run) => run.rows.row(place),
            None => unreachable!(),
        }
    }

    /// The row at a place, or None past the last.
    #[inline(always)]
    fn get(&self, place: usize) -> Option<Row>
        ensures { result ≡ slice_get self.now.rows place }
    {
        if place < self.count() {
            Some(self.row(place))
        } else {
            None
        }
    }
}

/// The row of a child at a place, or None where there is none.
#[inline(always)]
pub(crate) fn row_at(children: &[Arc<Run, Global>], leg: u8, row: u32) -> Option<Row>
    ensures { result ≡ row_at (map arc_value children.now) leg row }
{
    ChildRun::of(children, leg as usize).get(row as usize)
}

/// What the row of a child at a place pays, or None where there is none.
pub(crate) fn paid_at(children: &[Arc<Run, Global>], leg: u8, row: u32) -> Option<Fixed>
    ensures { result ≡ paid (row_at (map arc_value children.now) leg row) }
{
    match row_at(children, leg, row) {
        Some(row) => Some(row.payoff),
        None => None,
    }
}
