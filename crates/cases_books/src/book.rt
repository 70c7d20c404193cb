//! Calls of a book of observations, which is asked as a snapshot made early, as one made late, and as a plain list.
ghost use Rattle.std.specs.Prelude.{◌≡◌, true, IfSome};
ghost use Rattle.act_model.specs.Observed.{is_credit_event, is_entry};

use crate::many::{cuts_told, disagreements_told, held_told};
use act_book::{Book, BookFault, Snapshot};
use act_date::Day;
use act_model::{Listed, Names, Obs, ObsKind, Observed};
use act_num::Fixed;
use cases_rows::{Case, entry_told};
use std::alloc::Global;

/// A book, the snapshots that were made before each of its entries, and its entries as a list.
#[derive(Drop)]
pub struct Shelf {
    book: Book,
    early: Vec<Snapshot>,
    entries: Vec<Obs>,
}

/// What is asked of entries.
#[derive(Drop)]
struct Asked<'a> {
    /// `value`, `events` or `entry`.
    call: &'a str,
    /// How many entries are seen.
    version: u64,
    /// The number of a code or a contract, or a place.
    number: u64,
    /// The day of a value.
    day: Option<Day>,
}

impl Shelf {
    /// An empty book.
    pub fn new(alloc: Global) -> Shelf {
        Shelf {
            book: Book::new(alloc),
            early: Vec::new(alloc),
            entries: Vec::new(alloc),
        }
    }

    /// Tells what a call answers.
    pub fn answer(&mut self, case: &mut Case<'_>, call: &str) {
        match call {
            "book" => {
                *self = Shelf::new(case.alloc);
                case.value(self.book.len());
            }
            "append" => self.append(case),
            "full_book" => full_book(case),
            "disagreements" => disagreements_told(case),
            "held" => held_told(case),
            "cuts" => cuts_told(case),
            _ => self.ask(case, call),
        }
    }

    /// Appends an entry, and tells how many there are then.
    fn append(&mut self, case: &mut Case<'_>) {
        let Some(entry) = entry_of(case) else {
            return case.fail("no entry");
        };
        case.is_wrong |= self.keep(&entry).is_none();
        appended_told(case, self.book.append(entry));
    }

    /// Keeps a snapshot of what was there before the entry, and the entry.
    fn keep(&mut self, entry: &Obs) -> Option<()> {
        let early = self.book.snapshot(self.book.len()).ok()?;
        self.early.push(early).ok()?;
        self.entries.push(*entry).ok()
    }

    /// Tells what is seen of the first entries, in all three ways.
    fn ask(&self, case: &mut Case<'_>, call: &str) {
        let (version, number) = (case.place(), case.place());
        let day = match call {
            "value" => case.day(),
            _ => None,
        };
        let asked = Asked {
            call,
            version,
            number,
            day,
        };
        self.late_told(case, &asked);
        self.list_compared(case, &asked);
        if let Some(early) = self.early.get(version as usize) {
            compared(case, early, &asked);
        }
    }

    /// Tells what a snapshot that is made now shows.
    fn late_told(&self, case: &mut Case<'_>, asked: &Asked<'_>) {
        if asked.version > self.book.len() {
            return case.fail("a number is out of range");
        }
        match self.book.snapshot(asked.version) {
            Ok(late) => seen_told(case, &late, asked),
            Err(_) => case.fail("memory ran out"),
        }
    }

    /// Compares what the entries show as a plain list.
    fn list_compared(&self, case: &mut Case<'_>, asked: &Asked<'_>) {
        let entries = self.entries.get(..asked.version as usize).unwrap_or(&[]);
        match entries.to_vec(case.alloc) {
            Ok(entries) => compared(case, &Listed::new(entries), asked),
            Err(_) => case.fail("memory ran out"),
        }
    }
}

/// Compares what has been told with what is seen here.
fn compared<O: Observed>(case: &mut Case<'_>, seen: &O, asked: &Asked<'_>) {
    let mut other = Case::of(case.alloc, "");
    seen_told(&mut other, seen, asked);
    case.is_wrong |= other.is_wrong;
    if other.told != case.told {
        case.text(", but otherwise ");
        case.bytes_told(&other.told);
    }
}

/// Tells what is seen: a value, a contract's events by their places, or an entry.
fn seen_told<O: Observed>(case: &mut Case<'_>, seen: &O, asked: &Asked<'_>) {
    if seen.version() != asked.version {
        case.text("another version, ");
    }
    match (asked.call, asked.day, u32::try_from(asked.number)) {
        ("value", Some(day), Ok(code)) => case.units(seen.value(code, day)),
        ("events", _, Ok(contract)) => events_told(case, seen, contract),
        ("entry", _, _) => found_told(case, seen.entry(asked.number)),
        _ => case.fail("no such call"),
    }
}

/// Tells an entry, whose code or contract stands by its number, or `none`.
fn found_told(case: &mut Case<'_>, found: Option<Obs>) {
    let names = Names::new(case.alloc);
    match found {
        Some(entry) => entry_told(case, &names, entry),
        None => case.text("none"),
    }
}

/// Tells the places of a contract's events, or `none`.
fn events_told<O: Observed>(case: &mut Case<'_>, seen: &O, contract: u32) {
    match seen.events_of(case.alloc, contract) {
        Ok(events) => places_told(case, seen, &events),
        Err(_) => case.fail("memory ran out"),
    }
}

/// Tells the places at which the events stand among the entries, and how many stand nowhere.
fn places_told<O: Observed>(case: &mut Case<'_>, seen: &O, events: &[Obs]) {
    let mut rest = events;
    for place in 0..seen.version() {
        if let [event, behind @ ..] = rest {
            if seen.entry(place) == Some(*event) {
                case.next(" ");
                case.value(place);
                rest = behind;
            }
        }
    }
    if events.is_empty() {
        case.text("none");
    }
    if !rest.is_empty() {
        case.text(", and events that are no entry");
    }
}

/// Tells what an append answers.
pub fn appended_told(case: &mut Case<'_>, answer: Result<u64, BookFault>) {
    match answer {
        Ok(version) => case.value(version),
        Err(fault) => {
            case.value(fault);
            case.text(" ");
            case.value(fault as u8);
        }
    }
}

/// Whether it is a credit event.
fn is_credit(kind: ObsKind) -> bool
    ensures { result ≡ is_credit_event kind }
{
    matches!(kind, ObsKind::DL | ObsKind::DQ | ObsKind::DF)
}

/// The entry that words stand for: `rate` or what was done, a number, a day and units.
fn entry_of(case: &mut Case<'_>) -> Option<Obs>
    ensures { IfSome result (λ entry. is_entry entry ≡ true) }
{
    let sort = case.word();
    let (whose, day, value) = (case.count(), case.day()?, case.fixed());
    if sort == "rate" {
        return Some(Obs::Rate {
            code: whose,
            day,
            value,
        });
    }
    let kind = kind_of(sort)?;
    Some(Obs::Event {
        contract: whose,
        kind,
        day,
        value: if is_credit(kind) { Fixed::ZERO } else { value },
    })
}

fn kind_of(word: &str) -> Option<ObsKind> {
    Some(match word {
        "PP" => ObsKind::PP,
        "DV" => ObsKind::DV,
        "XD" => ObsKind::XD,
        "DL" => ObsKind::DL,
        "DQ" => ObsKind::DQ,
        "DF" => ObsKind::DF,
        _ => return None,
    })
}

/// Tells what a book that has an entry so many times answers to one more.
fn full_book(case: &mut Case<'_>) {
    let count = case.count();
    let mut book = Book::new(case.alloc);
    match entry_of(case) {
        Some(entry) => appended_told(case, append_all(&mut book, &entry, count)),
        None => case.fail("no entry"),
    }
}

/// The answer to the last entry where one is appended so many times and once more.
fn append_all(book: &mut Book, entry: &Obs, count: u32) -> Result<u64, BookFault>
    requires { is_entry entry.now ≡ true }
{
    for _ in 0..count {
        book.append(*entry)?;
    }
    book.append(*entry)
}
