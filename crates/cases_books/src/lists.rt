//! Lists of rows that begin alike, beside plain lists.
use crate::draws::Draws;
use act_model::{EventType, Row, Rows, State};
use act_num::Fixed;
use cases_rows::Case;
use std::alloc::Global;
use std::slice;

/// A list of rows, and the plain list that it should be.
#[derive(Drop)]
struct Pair {
    rows: Rows,
    plain: Vec<Row>,
}

/// Tells how many of a number of lists of rows differ from plain lists. Each begins with rows of one that was made before, which
/// stays, and goes on with others; how many of each is drawn. How many lists there are is given, how many rows are added to one at
/// most, and from where they are drawn.
pub fn lists_told(case: &mut Case<'_>) {
    let (count, most) = (case.count(), case.count());
    let mut draws = Draws::of(case.count());
    match pairs(case.alloc, &mut draws, count, most) {
        Some(pairs) => {
            let differ = pairs.iter().filter(|pair| !is_same(pair)).count();
            case.value(differ);
        }
        None => case.fail("memory ran out"),
    }
}

/// So many lists, of which each but the first begins as one before it.
fn pairs(alloc: Global, draws: &mut Draws, count: u32, most: u32) -> Option<Vec<Pair>> {
    let mut pairs = Vec::new(alloc);
    let mut pair = Pair {
        rows: Rows::new(alloc),
        plain: Vec::new(alloc),
    };
    for made in 0..count {
        for _ in 0..draws.below(most.max(1)) {
            let row = row(draws)?;
            pair.rows.push(&row.head(), &row.state).ok()?;
            pair.plain.extend_from_slice(slice::from_ref(&row)).ok()?;
        }
        pairs.push(pair).ok()?;
        let place = draws.below(made.saturating_add(1)) as usize;
        pair = begun(alloc, draws, pairs.get(place)?)?;
    }
    Some(pairs)
}

/// A list with the first rows of another, so many as are drawn.
fn begun(alloc: Global, draws: &mut Draws, other: &Pair) -> Option<Pair> {
    let all = other.rows.count();
    let bound = u32::try_from(all).ok()?.saturating_add(1);
    let kept = (draws.below(bound) as usize).min(all);
    let rows = other.rows.first(alloc, kept, kept).ok()?;
    let plain = other.plain.get(..kept)?.to_vec(alloc).ok()?;
    Some(Pair { rows, plain })
}

/// Whether both have the same rows.
fn is_same(pair: &Pair) -> bool {
    if pair.rows.count() != pair.plain.len() {
        return false;
    }
    for place in 0..pair.rows.count() {
        if Some(&pair.rows.row(place)) != pair.plain.get(place) {
            return false;
        }
    }
    true
}

/// A payoff that is drawn: each eighth time one that doesn't fit 64 bits.
fn payoff(draws: &mut Draws) -> Option<Fixed> {
    let amount = draws.amount()?;
    match draws.below(8) {
        0 => amount.add(Fixed::from_units(1 << 70)?),
        _ => Some(amount),
    }
}

/// A row whose days and amounts are drawn.
fn row(draws: &mut Draws) -> Option<Row> {
    let (day, payoff) = (draws.day()?, payoff(draws)?);
    let payment = Fixed::from_units(i128::from(draws.below(2)))?;
    let state = State {
        sd: (draws.below(2) == 0).then_some(day),
        md: draws.day(),
        xd: None,
        nt: draws.amount()?,
        ipnr: Fixed::ZERO,
        ipac: draws.amount()?,
        ipnr2: Fixed::ZERO,
        ipac2: Fixed::ZERO,
        feac: draws.amount()?,
        nsc: Fixed::ZERO,
        isc: Fixed::ZERO,
        ipcb: draws.amount()?,
        prnxt: payment,
        xa: Fixed::ZERO,
    };
    Some(Row {
        day,
        kind: EventType::IP,
        currency: draws.below(3),
        payoff,
        state,
    })
}
