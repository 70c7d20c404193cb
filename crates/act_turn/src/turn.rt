//! The turn: a ticket for each that waits, and one slot for the value.
ghost use Rattle.std.specs.Prelude.{◌≡◌, ◌+◌, ◌<◌, ◌≤◌, [], map, true, false, All, Any, IfOk, IfErr, vec_len, vec_capacity};
ghost use mathlib.Core.List.{IsPrefix};
ghost use Rattle.act_turn.specs.Journal.{entries_of, GoesOn};
ghost use Rattle.act_turn.specs.Standing.{AreNumbered, IsFree, own_entries};
ghost use Rattle.act_turn.specs.Steps.{WaitsFor, HasCome};
ghost use Rattle.act_turn.specs.Turn.{IsOpener, StandsForOne, opener, seen_of, member_of};
ghost use Rattle.act_turn.specs.declared.view.Stage.TheVariants.{Away};

use crate::bell::Bell;
use crate::kept::Kept;
use crate::pass::{Held, Pass};
use crate::plays::{Draw, Gather, GiveNumber, Look, PassOn};
use crate::view::{InTurns, Opening, View};
use atomic_table::{Refused, Seat, Table};
use std::alloc::{AllocError, Global};
use std::marker::Model;
use std::snapshot::Snapshot;
use std::sync::Wait;

/// The word of the ticket that is drawn next.
const TICKET: usize = 0;

/// The word of the ticket that is served.
const SERVING: usize = 1;

/// How many bells there are, one for each of so many tickets that follow one another.
const BELLS: usize = 128;

/// A value that is passed from thread to thread in turns. Contracts see which turn it is, and how many
/// passes it has.
pub struct Turn<K: Kept> {
    table: Table<Option<K>, View<K::Entry>, Opening<K>, InTurns<K>, Global>,
    /// A thread sleeps by the bell of its ticket until that is served. The rule of the table doesn't know of them.
    bells: Vec<Bell>,
}

impl<K: Kept> Model for Turn<K> {
    ghost use Rattle.std.specs.Prelude.{◌≡◌, ◌<◌, ◌≤◌, vec_len};
    ghost use Rattle.act_turn.specs.Standing.{Identity};

    ghost Value = { Identity };

    ghost view = { λ t. record { id = t.table.shared.table_id; seats = t.table.shared.key.seats } };

    ghost invariant = { λ t. (t.table.shared.table_id.words ≡ 2) × (t.table.shared.table_id.slots ≡ 1) × (0 < t.table.shared.key.seats) × (128 ≤ vec_len t.bells) };
}

/// There was no memory. The value comes back.
pub struct NewFault<K> {
    pub value: K,
}

impl<K: Kept> Turn<K> {
    /// A turn with so many passes, which are numbered from 1 in the order of the list. Each has seen the
    /// value's journal. The fault is want of memory.
    pub fn new(alloc: Global, value: K, seats: u32) -> Result<(Turn<K>, Vec<Pass<K>>), NewFault<K>>
        requires { 0 < seats }
        ensures seats { IfOk result (λ r. (r.0.seats ≡ seats) × (vec_len r.1 ≡ seats)) }
        ensures passes { IfOk result (λ r. AreNumbered r.0.id (K.journal value) r.1.items) }
        ensures free { IfOk result (λ r. All (IsFree r.0.id) r.1.items) }
        ensures err { IfErr result (λ f. f.value ≡ value) }
    {
        let Ok(mut passes) = Vec::with_capacity(alloc, seats as usize) else {
            return Err(NewFault { value });
        };
        match Turn::open(alloc, value, seats) {
            Ok((turn, first)) => {
                turn.seat_all(first, &mut passes, seats);
                Ok((turn, passes))
            }
            Err(fault) => {
                passes.destroy_empty();
                Err(fault)
            }
        }
    }

    /// A turn with the seat of number 1 alone.
    fn open(
        alloc: Global,
        value: K,
        seats: u32,
    ) -> Result<(Turn<K>, Seat<Option<K>, View<K::Entry>>), NewFault<K>>
        requires { 0 < seats }
        ensures seats { IfOk result (λ r. r.0.seats ≡ seats) }
        ensures first { IfOk result (λ r. (r.1.table_id ≡ r.0.id) × (r.1.me ≡ (opener (K.journal value), []))) }
        ensures err { IfErr result (λ f. f.value ≡ value) }
    {
        let Ok(bells) = bells(alloc) else {
            return Err(NewFault { value });
        };
        let Ok(mut slots) = Vec::with_capacity(alloc, 1) else {
            return Err(NewFault { value });
        };
        let opening = Opening {
            seats,
            value: Snapshot::of(&value),
        };
        slots.push_reserved(Some(value));
        match Table::new(alloc, &[0, 0], slots, &opening) {
            Ok((table, seat)) => Ok((Turn { table, bells }, seat)),
            Err(Refused { mut slots }) => {
                let value = slots.pop().unwrap().unwrap();
                slots.destroy_empty();
                Err(NewFault { value })
            }
        }
    }

    /// Gives the numbers from 2 on, and puts all passes in the order of their numbers.
    fn seat_all(
        &self,
        mut first: Seat<Option<K>, View<K::Entry>>,
        passes: &mut Vec<Pass<K>>,
        seats: u32,
    )
        requires turn { (first.table_id ≡ self.now.id) × (self.now.seats ≡ seats) × (0 < seats) }
        requires first { IsOpener first.me }
        requires room { (passes.old.items ≡ []) × (vec_capacity passes.old ≡ seats) }
        ensures seats { vec_len passes.new ≡ seats }
        ensures passes { AreNumbered self.now.id (seen_of first.me.0.members) passes.new.items }
    {
        let shared = &self.table.shared;
        for _ in 1..seats {
            let seat = shared.split_seat::<GiveNumber>(&mut first);
            passes.push_reserved(Pass::of(seat));
        }
        passes.push_reserved(Pass::of(first));
        passes.rotate_right(1);
    }

    /// Ends the turn, whose passes these all are, and answers the value.
    pub fn close(self, passes: Vec<Pass<K>>) -> K
        requires all { vec_len passes ≡ self.seats }
        requires free { All (IsFree self.id) passes.items }
        ensures begins { All (λ p. IsPrefix p.seen (K.journal result)) passes.items }
        ensures longest { Any (λ p. p.seen ≡ K.journal result) passes.items }
        ensures own { All (λ p. entries_of K.author p.number (K.journal result) ≡ own_entries K.author p) passes.items }
    {
        let seat = self.gather(passes);
        let Turn { table, bells } = self;
        drop(bells);
        let mut closed = table.close_with(seat);
        let value = closed.take(0).unwrap();
        closed.free();
        value
    }

    /// One seat that stands for all passes.
    fn gather(&self, mut passes: Vec<Pass<K>>) -> Seat<Option<K>, View<K::Entry>>
        requires some { 0 < vec_len passes }
        requires free { All (IsFree self.now.id) passes.items }
        ensures seat { (result.table_id ≡ self.now.id) × (result.me.0.stage ≡ Away) }
        ensures members { result.me.0.members ≡ map member_of passes.items }
    {
        let shared = &self.table.shared;
        let mut all = passes.pop().unwrap().into_seat();
        while let Some(pass) = passes.pop() {
            shared.join_seat::<Gather>(&mut all, pass.into_seat());
        }
        passes.destroy_empty();
        all
    }

    /// Waits for the pass's turn, and takes the value. Its journal begins with what the pass had seen, and
    /// has no more entries of the pass than that.
    pub fn take<R: Wait>(&self, rt: &R, pass: &mut Pass<K>) -> Held<K>
        requires turn { pass.old.turn ≡ self.now.id }
        requires free { pass.old.holds ≡ false }
        ensures begins { IsPrefix pass.old.seen (K.journal result) }
        ensures own { entries_of K.author pass.old.number (K.journal result) ≡ own_entries K.author pass.old }
        ensures pass { pass.new ≡ record pass.old { seen = K.journal result; came = K.journal result; turns = pass.old.turns + 1; holds = true } }
    {
        let shared = &self.table.shared;
        let ticket = shared.fetch_add::<Draw>(&mut pass.seat, TICKET, 1);
        self.wait(rt, &mut pass.seat, ticket);
        let value = shared.exchange(&mut pass.seat, 0, None).unwrap();
        Held { value }
    }

    /// Looks at the ticket that is served, and sleeps by the bell of its own ticket until that may be the one. It doesn't
    /// look again and again, which would burn the processor that whoever has the turn may need.
    fn wait<R: Wait>(&self, rt: &R, seat: &mut Seat<Option<K>, View<K::Entry>>, ticket: u64)
        requires turn { seat.old.table_id ≡ self.now.id }
        requires waits { WaitsFor ticket seat.old.me }
        requires one { StandsForOne seat.old.me.0 }
        ensures seat { (seat.new.table_id ≡ seat.old.table_id) × (seat.new.id ≡ seat.old.id) }
        ensures come { HasCome K.journal K.author seat.old.me seat.new.me }
    {
        let shared = &self.table.shared;
        let bell = self.bell(ticket);
        for _ in rt.forever() {
            let rings = bell.rings();
            let serving = shared.load::<Look>(seat, SERVING);
            if serving == ticket {
                return;
            }
            bell.sleep(rt, rings);
        }
        unreachable!()
    }

    /// The bell of a ticket. Where no more threads wait than there are bells, each that waits has one of its own.
    fn bell(&self, ticket: u64) -> &Bell {
        &self.bells[ticket as usize % BELLS]
    }

    /// Puts the value back, and passes the turn on; of the threads that sleep the one is woken whose ticket is served then. The
    /// journal goes on from the one that was taken, by entries of this pass or of nobody.
    pub fn give(&self, pass: &mut Pass<K>, held: Held<K>)
        requires turn { pass.old.turn ≡ self.now.id }
        requires taken { pass.old.holds ≡ true }
        requires goes_on { GoesOn K.author pass.old.number pass.old.seen (K.journal held) }
        ensures { pass.new ≡ record pass.old { seen = K.journal held; holds = false } }
    {
        let Held { value } = held;
        let shared = &self.table.shared;
        let empty = shared.exchange(&mut pass.seat, 0, Some(value));
        let None = empty else { unreachable!() };
        let served = shared.fetch_add::<PassOn>(&mut pass.seat, SERVING, 1);
        let next = served.wrapping_add(1);
        // A thread that sleeps drew its ticket before this step, so the test sees that. One that draws later looks later.
        if shared.peek(TICKET) != next {
            self.bell(next).ring_all();
        }
    }
}

/// Bells that haven't rung.
fn bells(alloc: Global) -> Result<Vec<Bell>, AllocError>
    ensures { IfOk result (λ bells. BELLS ≤ vec_len bells) }
{
    let mut bells = Vec::with_capacity(alloc, BELLS)?;
    'bells: while bells.len() < BELLS {
        bells.push(Bell::new())?;
    }
    Ok(bells)
}
