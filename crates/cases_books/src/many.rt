//! Calls of a book with many entries.
ghost use Rattle.std.specs.Prelude.{◌≡◌, true, IfSome};
ghost use Rattle.act_model.specs.Observed.{is_entry};

use crate::book::appended_told;
use crate::draws::Draws;
use act_book::{Book, Snapshot};
use act_cut::{IndexedBook, cut};
use act_date::Day;
use act_model::{Listed, Obs, ObsKind, Observed, Reads};
use act_num::{Fixed, NoMemory};
use cases_rows::Case;
use std::alloc::Global;

/// A rate of three codes, or each fourth time about a prepayment of three contracts.
fn entry(draws: &mut Draws) -> Option<Obs>
    ensures { IfSome result (λ entry. is_entry entry ≡ true) }
{
    let (is_event, whose, day) = (draws.below(4) == 0, draws.below(3), draws.day()?);
    let value = draws.amount()?;
    Some(if is_event {
        Obs::Event {
            contract: whose,
            kind: ObsKind::PP,
            day,
            value,
        }
    } else {
        Obs::Rate {
            code: whose,
            day,
            value,
        }
    })
}

/// Tells of how many questions a book and a plain list of the same entries answer differently. How many entries and
/// questions there are is given, and from where they are drawn.
pub fn disagreements_told(case: &mut Case<'_>) {
    let (count, questions) = (case.count(), case.count());
    let mut draws = Draws::of(case.count());
    match disagreements(case.alloc, &mut draws, count, questions) {
        Some(differ) => case.value(differ),
        None => case.fail("memory ran out"),
    }
}

/// Of how many questions a book and a plain list of entries that are drawn answer differently.
fn disagreements(alloc: Global, draws: &mut Draws, count: u32, questions: u32) -> Option<u32> {
    let mut book = Book::new(alloc);
    let mut entries = Vec::new(alloc);
    for _ in 0..count {
        let entry = entry(draws)?;
        book.append(entry).ok()?;
        entries.push(entry).ok()?;
    }
    let mut differ = 0_u32;
    for _ in 0..questions {
        if !is_agreed(alloc, draws, &book, &entries)? {
            differ = differ.saturating_add(1);
        }
    }
    Some(differ)
}

/// Whether a book and a list answer alike to what is asked of a number of entries, a code or contract and a day that
/// are drawn.
fn is_agreed(alloc: Global, draws: &mut Draws, book: &Book, entries: &[Obs]) -> Option<bool> {
    let most = u32::try_from(entries.len()).ok()?.min(book.len() as u32);
    let (version, whose, day) = (draws.below(most + 1), draws.below(4), draws.day()?);
    let seen = book.snapshot(u64::from(version)).ok()?;
    let list = Listed::new(entries[..version as usize].to_vec(alloc).ok()?);
    let (own, events) = (
        seen.events_of(alloc, whose).ok()?,
        list.events_of(alloc, whose).ok()?,
    );
    let place = u64::from(draws.below(most + 1));
    Some(
        seen.value(whose, day) == list.value(whose, day)
            && own.as_slice() == events.as_slice()
            && seen.entry(place) == list.entry(place),
    )
}

/// Tells of how many questions about cuts an indexed book and a plain list of the same entries answer differently: one behind
/// each entry. How many entries there are is given, and from where they are drawn.
pub fn cuts_told(case: &mut Case<'_>) {
    let count = case.count();
    let mut draws = Draws::of(case.count());
    match cuts_that_differ(case.alloc, &mut draws, count) {
        Some(differ) => case.value(differ),
        None => case.fail("memory ran out"),
    }
}

/// Of how many cuts an indexed book and a plain list of entries that are drawn answer differently. The book has no days of the
/// last code and the last contract.
fn cuts_that_differ(alloc: Global, draws: &mut Draws, count: u32) -> Option<u32> {
    let mut book = IndexedBook::new(alloc, 2, 2);
    let mut entries = Vec::new(alloc);
    let mut differ = 0_u32;
    for _ in 0..count {
        let entry = entry(draws)?;
        book.append(entry).ok()?;
        entries.push(entry).ok()?;
        if !is_cut_alike(alloc, draws, &mut book, &entries)? {
            differ = differ.saturating_add(1);
        }
    }
    Some(differ)
}

/// Whether an indexed book and a list answer the same cut between two versions, for what reads a code and a contract. All are
/// drawn.
fn is_cut_alike(
    alloc: Global,
    draws: &mut Draws,
    book: &mut IndexedBook,
    entries: &[Obs],
) -> Option<bool> {
    let most = u32::try_from(entries.len()).ok()?.min(book.len() as u32);
    let (one, other) = (draws.below(most + 1), draws.below(most + 1));
    let (from, to) = (one.min(other), one.max(other));
    let reads = Reads {
        codes: vec![in alloc; draws.below(4)].ok()?,
        contracts: vec![in alloc; draws.below(4)].ok()?,
    };
    let seen = book.snapshot(u64::from(to)).ok()?;
    let list = Listed::new(entries[..to as usize].to_vec(alloc).ok()?);
    let found = book.cut(&reads, &seen, u64::from(from), u64::from(to));
    Some(found == cut(&reads, &list, u64::from(from), u64::from(to)))
}

/// Tells how many of the snapshots that are held of a book while it is filled show their own last rate in the end, and
/// what the book answers to one entry more.
pub fn held_told(case: &mut Case<'_>) {
    let (count, snapshots) = (case.count(), case.count());
    let Some(day) = case.day() else {
        return case.fail("a word has another form");
    };
    let mut book = Book::new(case.alloc);
    match held(case.alloc, &mut book, count, snapshots, day) {
        Ok(held) => case.value(right(&held, day)),
        Err(NoMemory) => case.fail("memory ran out"),
    }
    case.text(" right, ");
    appended_told(case, book.append(rate(day, count)));
}

/// The snapshots of a book that is filled with rates of one day, made at even distances.
fn held(
    alloc: Global,
    book: &mut Book,
    count: u32,
    snapshots: u32,
    day: Day,
) -> Result<Vec<Snapshot>, NoMemory> {
    let distance = (count / snapshots.max(1)).max(1);
    let mut held = Vec::new(alloc);
    for place in 0..count {
        let Ok(version) = book.append(rate(day, place)) else {
            return Err(NoMemory);
        };
        if (place + 1) % distance == 0 {
            held.push(book.snapshot(version)?)?;
        }
    }
    Ok(held)
}

/// How many snapshots show the rate at their last place.
fn right(held: &[Snapshot], day: Day) -> usize {
    held.iter()
        .filter(|seen| {
            let last = seen.version().saturating_sub(1);
            seen.value(1, day) == Fixed::from_units(i128::from(last))
        })
        .count()
}

/// A rate whose units are its place.
fn rate(day: Day, place: u32) -> Obs
    ensures { is_entry result ≡ true }
{
    Obs::Rate {
        code: 1,
        day,
        value: Fixed::from_units(i128::from(place)).unwrap_or(Fixed::ZERO),
    }
}
