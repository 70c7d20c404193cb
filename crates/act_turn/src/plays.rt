//! What each step on the table tells. These types are for the proofs alone.
ghost use Rattle.act_turn.specs.Steps.{Draws, Looks, PassesOn, giver, newcomer, joint_view, spent_view};

use crate::kept::Kept;
use crate::view::View;
use atomic_table::{Join, Play, Split};

pub(crate) struct Draw;

impl<K, E> Play<Option<K>, View<E>> for Draw {
    ghost then = { Draws };
}

pub(crate) struct Look;

impl<K: Kept> Play<Option<K>, View<K::Entry>> for Look {
    ghost then = { Looks K.journal K.author };
}

pub(crate) struct PassOn;

impl<K: Kept> Play<Option<K>, View<K::Entry>> for PassOn {
    ghost then = { PassesOn K.journal };
}

pub(crate) struct GiveNumber;

impl<E> Split<View<E>> for GiveNumber {
    ghost left = { giver };

    ghost right = { newcomer };
}

pub(crate) struct Gather;

impl<E> Join<View<E>> for Gather {
    ghost both = { joint_view };

    ghost spent = { spent_view };
}
