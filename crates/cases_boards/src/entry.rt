//! Entries of a book, and steps of a journal, as they are written in rows.
ghost use Rattle.std.specs.Prelude.{◌≡◌, true};
ghost use Rattle.act_model.specs.Observed.{is_entry};

use act_date::Day;
use act_model::{Item, Names, Obs, ObsKind};
use act_num::Fixed;
use cases_rows::{Case, step_told};

/// An entry that a book takes.
#[derive(Clone, Copy)]
pub struct Entry {
    /// What it says.
    pub says: Obs,
    ghost is_entry: { is_entry says ≡ true },
}

/// The entry of the next words: a rate with the number of its code, or a prepayment or a default with that of its contract;
/// the day, and the value in units of 10^-9, which of a default doesn't count.
pub fn read_entry(call: &mut Case<'_>) -> Option<Entry> {
    let sort = call.word();
    let of = call.count();
    let day = call.day();
    let value = call.fixed();
    match day {
        Some(day) => entry_of(sort, of, day, value),
        None => None,
    }
}

fn entry_of(sort: &str, of: u32, day: Day, value: Fixed) -> Option<Entry> {
    match sort {
        "rate" => Some(rate(of, day, value)),
        "PP" => Some(prepayment(of, day, value)),
        "DF" => Some(default(of, day)),
        _ => None,
    }
}

fn rate(code: u32, day: Day, value: Fixed) -> Entry {
    Entry {
        says: Obs::Rate { code, day, value },
    }
}

fn prepayment(contract: u32, day: Day, value: Fixed) -> Entry {
    Entry {
        says: Obs::Event {
            contract,
            kind: ObsKind::PP,
            day,
            value,
        },
    }
}

fn default(contract: u32, day: Day) -> Entry {
    Entry {
        says: Obs::Event {
            contract,
            kind: ObsKind::DF,
            day,
            value: Fixed::ZERO,
        },
    }
}

/// Tells a step of a caller, with the numbers of contracts and codes.
pub fn item_told(case: &mut Case<'_>, item: &Item) {
    case.value(item.caller);
    case.text(" ");
    let names = Names::new(case.alloc);
    step_told(case, &names, item.step);
}
