//! Rows without what they share with others, and what they share.
ghost use Rattle.std.specs.Prelude.{◌≡◌, ◌⊎◌, [], ◌∷◌, ◌++◌, ◌≤◌, length, true, Some, IfOk, OnErr, OnOk, get_or, slice_get};
ghost use Rattle.std.specs.List.{All};
ghost use Rattle.act_model.specs.Chunk.{FitsIn, HasParts, IsAtMost, StaysIn, full_numbers, full_row, level_at, no_numbers, numbers_in, numbers_of, printed_level, printed_numbers, rest_of, row_of, short_of};
ghost use Rattle.act_model.specs.Run.{cells_of, row_with};
ghost use Rattle.act_model.specs.declared.shared.Counts.{Counts};

use crate::event::EventType;
use crate::numbers::{Level, Numbers, Short};
use crate::run::{Row, RowHead};
use crate::state::State;
use act_date::Day;
use act_num::{Fixed, NoMemory};
use std::alloc::Global;

/// What of a state mostly stays from row to row.
#[derive(Clone, Copy)]
struct Rest {
    md: Option<Day>,
    xd: Option<Day>,
    ipnr2: Fixed,
    ipac2: Fixed,
    nsc: Fixed,
    isc: Fixed,
    prnxt: Fixed,
    xa: Fixed,
}

impl Rest {
    /// That of a state.
    fn of(state: &State) -> Rest
        ensures { result ≡ rest_of state.now }
    {
        Rest {
            md: state.md,
            xd: state.xd,
            ipnr2: state.ipnr2,
            ipac2: state.ipac2,
            nsc: state.nsc,
            isc: state.isc,
            prnxt: state.prnxt,
            xa: state.xa,
        }
    }

    /// Whether it is that of a state. All is compared, without a branch for each part.
    #[inline(always)]
    fn is_of(&self, state: &State) -> bool
        ensures { result ≡ true → self.now ≡ rest_of state.now }
    {
        (self.md == state.md)
            & (self.xd == state.xd)
            & (self.ipnr2 == state.ipnr2)
            & (self.ipac2 == state.ipac2)
            & (self.nsc == state.nsc)
            & (self.isc == state.isc)
            & (self.prnxt == state.prnxt)
            & (self.xa == state.xa)
    }
}

/// A row without what it shares with others, and the places of this, from 0. Numbers of which one doesn't fit 64 bits have a
/// place too, counted from 1; it is 0 where all fit.
#[derive(Clone, Copy)]
pub(crate) struct Slim {
    day: Day,
    /// The state's day, or the row's where `has_sd` is false.
    sd: Day,
    has_sd: bool,
    kind: EventType,
    rest: u8,
    level: u8,
    long: u8,
    /// In units of 10^-9, and 0 where the numbers have a place.
    payoff: i64,
    /// The same.
    ipac: i64,
}

// A row takes 32 bytes.
const _: () = prove!(size_of::<Slim>() <= 32);

impl Slim {
    /// That of a row whose rest, level and numbers stand at these places.
    #[inline(always)]
    fn of(head: &RowHead, state: &State, rest: u8, level: u8, placed: Placed) -> Slim
        ensures row { row_of (rest_of state.now) head.now.currency (numbers_of head.now state.now) result
            ≡ row_with head.now state.now }
        ensures rest { result.rest ≡ rest }
        ensures level { result.level ≡ level }
        ensures long { result.long ≡ placed.long }
        ensures payoff { result.payoff ≡ placed.short.payoff }
        ensures ipac { result.ipac ≡ placed.short.ipac }
    {
        Slim {
            day: head.day,
            sd: state.sd.unwrap_or(head.day),
            has_sd: state.sd.is_some(),
            kind: head.kind,
            rest,
            level,
            long: placed.long,
            payoff: placed.short.payoff,
            ipac: placed.short.ipac,
        }
    }

    /// Its short numbers, with those of its level.
    #[inline(always)]
    fn short(&self, level: &Level) -> Short
        ensures { result ≡ short_of level.now self.now }
    {
        Short {
            payoff: self.payoff,
            nt: level.nt,
            ipnr: level.ipnr,
            ipac: self.ipac,
            feac: level.feac,
            ipcb: level.ipcb,
        }
    }

    /// The row, with its rest, its currency and its numbers.
    #[inline(always)]
    fn with(&self, rest: &Rest, currency: u32, numbers: &Numbers) -> Row
        ensures { result ≡ row_of rest.now currency numbers.now self.now }
    {
        Row {
            day: self.day,
            kind: self.kind,
            currency,
            payoff: numbers.payoff,
            state: State {
                sd: self.has_sd.then_some(self.sd),
                md: rest.md,
                xd: rest.xd,
                nt: numbers.nt,
                ipnr: numbers.ipnr,
                ipac: numbers.ipac,
                ipnr2: rest.ipnr2,
                ipac2: rest.ipac2,
                feac: numbers.feac,
                nsc: rest.nsc,
                isc: rest.isc,
                ipcb: numbers.ipcb,
                prnxt: rest.prnxt,
                xa: rest.xa,
            },
        }
    }
}

/// How much of what is shared some rows need: of each list the first so many.
#[derive(Clone, Copy)]
struct Counts {
    rests: usize,
    levels: usize,
    long: usize,
}

impl Counts {
    /// None of each.
    const NONE: Counts = Counts {
        rests: 0,
        levels: 0,
        long: 0,
    };

    /// The least that are at least these, and enough for a row.
    fn with(self, slim: &Slim) -> Counts
        ensures more { IsAtMost self result }
        ensures fits { FitsIn result slim.now }
        ensures least { (counts : Counts) → IsAtMost self counts → FitsIn counts slim.now → IsAtMost result counts }
    {
        Counts {
            rests: self.rests.max(slim.rest as usize + 1),
            levels: self.levels.max(slim.level as usize + 1),
            long: self.long.max(slim.long as usize),
        }
    }

    /// The least that are enough for each of some rows.
    fn of(slims: &[Slim]) -> Counts
        ensures fit { All (FitsIn result) slims.now }
        ensures least { (counts : Counts) → All (FitsIn counts) slims.now → IsAtMost result counts }
    {
        let mut counts = Counts::NONE;
        for slim in slims {
            counts = counts.with(slim);
        }
        counts
    }
}

/// What rows share. A part of a row is added to its list only where it differs from the last one there.
#[derive(Drop)]
pub(crate) struct Shared {
    rests: Vec<Rest>,
    levels: Vec<Level>,
    /// The numbers of rows of which one doesn't fit 64 bits.
    long: Vec<Numbers>,
}

impl Shared {
    /// Nothing yet.
    pub(crate) fn new(alloc: Global) -> Shared {
        Shared {
            rests: Vec::new(alloc),
            levels: Vec::new(alloc),
            long: Vec::new(alloc),
        }
    }

    /// Nothing yet, with room for as many levels as there are here, at most `rows`.
    pub(crate) fn next(&self, alloc: Global, rows: usize) -> Result<Shared, NoMemory> {
        Ok(Shared {
            rests: Vec::new(alloc),
            levels: Vec::with_capacity(alloc, self.levels.len().min(rows))?,
            long: Vec::new(alloc),
        })
    }

    /// What some rows need of it, copied. What only rows behind them had is left out, so that places stay few.
    pub(crate) fn needed(&self, alloc: Global, slims: &[Slim]) -> Result<Shared, NoMemory>
        requires { All (HasParts self.now) slims.now }
        ensures stays { IfOk result (λ shared. StaysIn shared self.now) }
        ensures there { IfOk result (λ shared. All (HasParts shared) slims.now) }
    {
        let counts = Counts::of(slims);
        let rests = self.rests[..counts.rests].to_vec(alloc)?;
        let room = counts.levels.saturating_add(more_room(counts.levels));
        let levels = copied(alloc, &self.levels[..counts.levels], room)?;
        let long = self.long[..counts.long].to_vec(alloc)?;
        Ok(Shared {
            rests,
            levels,
            long,
        })
    }

    /// Adds what a row shares, and gives the row without it. What is there stays, also where memory runs out.
    pub(crate) fn add(&mut self, head: &RowHead, state: &State) -> Result<Slim, NoMemory>
        ensures stays { StaysIn self.old self.new }
        ensures there { IfOk result (λ slim. HasParts self.new slim) }
        ensures row { IfOk result (λ slim. full_row self.new slim ≡ row_with head.now state.now) }
    {
        let rest = place_rest(&mut self.rests, state)?;
        let placed = place_numbers(&mut self.long, head, state)?;
        let level = place_level(&mut self.levels, &placed.short.level(head.currency))?;
        Ok(Slim::of(head, state, rest, level, placed))
    }

    /// A row with what it shares.
    #[inline(always)]
    pub(crate) fn row(&self, slim: &Slim) -> Row
        requires { HasParts self.now slim.now }
        ensures { result ≡ full_row self.now slim.now }
    {
        slim.with(
            &self.rests[slim.rest as usize],
            self.level(slim).currency,
            &self.numbers(slim),
        )
    }

    /// The level of a row.
    #[inline(always)]
    fn level(&self, slim: &Slim) -> Level
        requires { HasParts self.now slim.now }
        ensures { result ≡ level_at self.now slim.now }
    {
        self.levels[slim.level as usize]
    }

    /// The numbers of a row.
    #[inline(always)]
    fn numbers(&self, slim: &Slim) -> Numbers
        requires { HasParts self.now slim.now }
        ensures { result ≡ full_numbers self.now slim.now }
    {
        match slim.long.checked_sub(1) {
            Some(place) => self.long[place as usize],
            None => slim.short(&self.level(slim)).numbers(),
        }
    }
}

/// Whether two rows are printed alike. All is compared, without a branch for each part.
#[inline(always)]
pub(crate) fn are_alike(one: &Slim, shared: &Shared, other: &Slim, other_shared: &Shared) -> bool
    requires here { HasParts shared.now one.now }
    requires there { HasParts other_shared.now other.now }
    ensures { result ≡ true → cells_of (full_row shared.now one.now) ≡ cells_of (full_row other_shared.now other.now) }
{
    (one.day == other.day)
        & (one.kind == other.kind)
        & shared.level(one).is_printed_as(&other_shared.level(other))
        & are_numbers_alike(one, shared, other, other_shared)
}

/// Whether the numbers of two rows are printed alike, where their levels are.
#[inline(always)]
fn are_numbers_alike(one: &Slim, shared: &Shared, other: &Slim, other_shared: &Shared) -> bool
    requires here { HasParts shared.now one.now }
    requires there { HasParts other_shared.now other.now }
    ensures { result ≡ true → printed_level (level_at shared.now one.now) ≡ printed_level (level_at other_shared.now other.now)
        → printed_numbers (full_numbers shared.now one.now) ≡ printed_numbers (full_numbers other_shared.now other.now) }
{
    if (one.long == 0) & (other.long == 0) {
        (one.payoff == other.payoff) & (one.ipac == other.ipac)
    } else {
        are_full_numbers_alike(one, shared, other, other_shared)
    }
}

/// Whether the numbers of two rows are printed alike, where some stand beside the rows.
#[cold]
#[inline(never)]
fn are_full_numbers_alike(one: &Slim, shared: &Shared, other: &Slim, other_shared: &Shared) -> bool
    requires here { HasParts shared.now one.now }
    requires there { HasParts other_shared.now other.now }
    ensures { result ≡ true → printed_numbers (full_numbers shared.now one.now) ≡ printed_numbers (full_numbers other_shared.now other.now) }
{
    shared
        .numbers(one)
        .are_printed_as(&other_shared.numbers(other))
}

/// Numbers that fit 64 bits, or else the place of the longer ones, counted from 1.
#[derive(Clone, Copy)]
struct Placed {
    long: u8,
    short: Short,
}

/// Puts the numbers of a row where they belong: short ones in the row, and longer ones in a list. Where memory runs out, those
/// that are there stay.
#[inline(always)]
fn place_numbers(list: &mut Vec<Numbers>, head: &RowHead, state: &State) -> Result<Placed, NoMemory>
    ensures there { IfOk result (λ placed. get_or (numbers_in placed.short ∷ list.new.items) placed.long no_numbers ≡ numbers_of head.now state.now) }
    ensures within { IfOk result (λ placed. placed.long ≤ length list.new.items) }
    ensures others { (list.new.items ≡ list.old.items) ⊎ (list.new.items ≡ list.old.items ++ numbers_of head.now state.now ∷ []) }
{
    if let Some(short) = Short::of(head, state) {
        return Ok(Placed { long: 0, short });
    }
    let count = list.len();
    let long = numbered(count + 1)?;
    added(list, Numbers::of(head, state), more_room(count))?;
    Ok(Placed {
        long,
        short: Short::NONE,
    })
}

/// The place of a state's rest, which is added unless it is the last one.
#[inline(always)]
fn place_rest(rests: &mut Vec<Rest>, state: &State) -> Result<u8, NoMemory>
    ensures there { IfOk result (λ place. slice_get rests.new.items place ≡ Some (rest_of state.now)) }
    ensures others { (rests.new.items ≡ rests.old.items) ⊎ (rests.new.items ≡ rests.old.items ++ rest_of state.now ∷ []) }
{
    let count = rests.len();
    if count > 0 && rests[count - 1].is_of(state) {
        return numbered(count - 1);
    }
    // Each is large, and there are seldom more than two.
    added(rests, Rest::of(state), count.max(2))
}

/// The place of a level, which is added unless it is the last one.
#[inline(always)]
fn place_level(levels: &mut Vec<Level>, level: &Level) -> Result<u8, NoMemory>
    ensures there { IfOk result (λ place. slice_get levels.new.items place ≡ Some level.now) }
    ensures others { (levels.new.items ≡ levels.old.items) ⊎ (levels.new.items ≡ levels.old.items ++ level.now ∷ []) }
{
    let count = levels.len();
    if count > 0 && levels[count - 1].is(level) {
        return numbered(count - 1);
    }
    added(levels, *level, more_room(count))
}

/// Adds one to a list, and gives its place. A list that is full gets room for `more`. Where memory runs out, the list is as before.
#[inline(never)]
fn added<T: Copy>(list: &mut Vec<T>, one: T, more: usize) -> Result<u8, NoMemory>
    requires { 1 ≤ more }
    ensures there { IfOk result (λ place. slice_get list.new.items place ≡ Some one) }
    ensures added { OnOk result (list.new.items ≡ list.old.items ++ one ∷ []) }
    ensures unchanged { OnErr result (list.new.items ≡ list.old.items) }
{
    let count = list.len();
    let place = numbered(count)?;
    if count == list.capacity() {
        list.reserve_exact(more)?;
    }
    list.push_reserved(one);
    Ok(place)
}

/// For how many more a list gets room where it is full. Of the first there is mostly no second, so it has room alone; then there is
/// room for 16 in all, and then for twice as many each time.
fn more_room(count: usize) -> usize
    ensures { 1 ≤ result }
{
    match count {
        0 => 1,
        1 => 15,
        _ => count,
    }
}

/// A copy of a list, with room for so many.
pub(crate) fn copied<T: Copy>(alloc: Global, list: &[T], room: usize) -> Result<Vec<T>, NoMemory>
    ensures { IfOk result (λ copy. copy.items ≡ list.now) }
{
    let mut copy = Vec::with_capacity(alloc, room)?;
    copy.extend_from_slice(list)?;
    Ok(copy)
}

/// A place as a number of 8 bits. The rows of a chunk are so few that they need no more.
#[inline(always)]
fn numbered(place: usize) -> Result<u8, NoMemory>
    ensures { IfOk result (λ number. number ≡ place) }
{
    match u8::try_from(place) {
        Ok(number) => Ok(number),
        Err(_) => Err(NoMemory),
    }
}
