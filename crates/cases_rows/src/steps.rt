//! Steps and observations, as a journal writes them.
use crate::case::Case;
use act_model::{Asked, Names, Obs, Step};

/// Tells what a step does.
pub fn step_told(case: &mut Case<'_>, names: &Names, step: Step) {
    match step {
        Step::Append(entry) => entry_told(case, names, entry),
        Step::Ask(Asked::All) => case.text("ask *"),
        Step::Ask(Asked::One(contract)) => {
            case.text("ask ");
            name_told(case, names.id(contract), contract);
        }
    }
}

/// Tells an entry: its code, or its contract and type; its day, and its value.
pub fn entry_told(case: &mut Case<'_>, names: &Names, entry: Obs) {
    let (Obs::Rate { day, value, .. } | Obs::Event { day, value, .. }) = entry;
    match entry {
        Obs::Rate { code, .. } => {
            case.text("rate ");
            name_told(case, names.code(code), code);
        }
        Obs::Event { contract, kind, .. } => {
            case.text("event ");
            name_told(case, names.id(contract), contract);
            case.text(" ");
            case.value(kind);
        }
    }
    case.text(" ");
    case.day_told(day);
    case.text(" ");
    case.amount(value);
}

/// Tells a name, or the number of what has none.
pub fn name_told(case: &mut Case<'_>, name: Option<&str>, number: u32) {
    match name {
        Some(name) => case.text(name),
        None => case.value(number),
    }
}
