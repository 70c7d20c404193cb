//! What a seat at the table knows, and the rule. Of these types only an `Opening` is made.
use crate::kept::Kept;
use atomic_table::TableRule;
use std::collections::LinkedList;
use std::marker::PhantomData;
use std::snapshot::Snapshot;

/// Whether a seat has a ticket, and whether its turn has come.
pub(crate) enum Stage {
    Away,
    Waits(u64),
    Has(u64),
}

/// A pass's number, with the list that it has seen.
pub(crate) struct Member<E> {
    pub number: u64,
    pub seen: LinkedList<E>,
}

/// What a seat knows.
pub(crate) struct View<E> {
    /// What it stands for: its own pass, and those that ended and were joined to it.
    pub members: LinkedList<Member<E>>,
    pub stage: Stage,
    /// The list that it has seen as its last turn came.
    pub came: LinkedList<E>,
    /// How many turns it has had.
    pub turns: u64,
    /// How many numbers were given: in one seat alone.
    pub given: Option<u64>,
}

/// What the table is told when it is made: how many passes there will be, and the value.
pub(crate) struct Opening<K> {
    pub seats: u32,
    pub value: Snapshot<K>,
}

impl<K> Drop for Opening<K> {
    fn drop(self) {
        let Opening { seats: _, value: _ } = self;
    }
}

/// The rule of the table.
pub(crate) struct InTurns<K> {
    kept: PhantomData<K>,
}

impl<K: Kept> TableRule<Option<K>, View<K::Entry>, Opening<K>> for InTurns<K> {
    ghost use Rattle.act_turn.specs.Turn.{Holds, opener};

    ghost holds = { λ key. Holds K.journal K.author key.seats };

    ghost first = { λ key. opener (K.journal key.value.value) };
}
