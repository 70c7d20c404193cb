//! What a thread has of a turn: its pass and, while the turn is its own, the value.
use crate::kept::Kept;
use crate::view::View;
use atomic_table::Seat;
use std::marker::Model;

/// A seat at a turn: who has it may take the turn. Contracts see of which turn it is, its number, the list
/// that it has seen, how many turns it has had, and whether it holds the value. It has no bytes.
pub struct Pass<K: Kept> {
    pub(crate) seat: Seat<Option<K>, View<K::Entry>>,
}

impl<K: Kept> Model for Pass<K> {
    ghost use Rattle.act_turn.specs.Standing.{Standing};

    ghost Value = { Standing K.Entry };

    ghost use Rattle.act_turn.specs.Turn.{standing_of, IsPass};

    ghost view = { λ p. standing_of p.seat.table_id p.seat.me.0 };

    ghost invariant = { λ p. IsPass p.seat.me };
}

impl<K: Kept> Pass<K> {
    ghost use Rattle.std.specs.Prelude.{◌≡◌, [], ◌∷◌, false};
    ghost use Rattle.act_turn.specs.Turn.{StandsForOne, member, standing_of};
    ghost use Rattle.act_turn.specs.declared.view.Stage.TheVariants.{Away};

    /// The pass of a seat that has no ticket.
    pub(crate) fn of(seat: Seat<Option<K>, View<K::Entry>>) -> Pass<K>
        requires one { StandsForOne seat.me.0 }
        requires free { (seat.me.0.stage ≡ Away) × (seat.me.1 ≡ []) }
        ensures { result ≡ standing_of seat.table_id seat.me.0 }
    {
        Pass { seat }
    }

    /// The seat of a pass that doesn't hold the value.
    pub(crate) fn into_seat(self) -> Seat<Option<K>, View<K::Entry>>
        requires { self.holds ≡ false }
        ensures seat { (result.table_id ≡ self.turn) × (result.me.1 ≡ []) }
        ensures view { (result.me.0.stage ≡ Away) × (result.me.0.members ≡ member self.number self.seen ∷ []) }
    {
        let Pass { seat } = self;
        seat
    }
}

/// The value, while its pass has the turn. Contracts see the value alone. It can only be given back.
pub struct Held<K> {
    pub(crate) value: K,
}

impl<K> Model for Held<K> {
    ghost Value = { K };

    ghost view = { λ h. h.value };
}

impl<K> Held<K> {
    ghost use Rattle.std.specs.Prelude.{◌≡◌};
    ghost use Rattle.std.specs.Borrow.{Lends, sem};
    ghost use Rattle.act_turn.specs.contracts.pass.Held.{the_row};

    /// The value.
    pub fn get(&self) -> &K
        ensures { result.now ≡ self.now }
    {
        &self.value
    }

    /// The value, to be changed.
    pub fn get_mut(&mut self) -> &mut K
        ensures* writes_back { sem 𝓛 (Lends (the_row K.row) K.row self.entry result (λ w. w)) }
        ensures value { result.now ≡ self.old }
    {
        &mut self.value
    }
}
