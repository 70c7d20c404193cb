//! The day on which an option is exercised, by what was observed.
ghost use Rattle.std.specs.Prelude.{◌≡◌, List, Some, IfOk};
ghost use Rattle.std.specs.List.{filter, filter_map};
ghost use Rattle.act_model.specs.Observed.{observed_events};
ghost use Rattle.act_model.specs.declared.observed.Obs.{Obs};
ghost use Rattle.act_option.specs.Earliest.{earlier, where_kept};
ghost use Rattle.act_profile.specs.Contract.{observed_as};
ghost use Rattle.act_profile.specs.Dates.{is_within, least};
ghost use Rattle.act_profile.specs.Exercise.{events_exercised_on, exercise_by, exercise_day, exercise_of, may_be_early};

use crate::events::events_exercised_on;
use act_date::Day;
use act_model::{Common, Event, ExerciseType, Obs, ObsKind, Optns};
use act_num::NoMemory;
use std::alloc::Global;

/// The scheduled events of an option over the entries of its own: its purchase and its termination, its exercise on the
/// first day that was observed for it, or else at maturity, and the settlement of it.
pub fn exercised_events(
    alloc: Global,
    common: &Common,
    optns: &Optns,
    own: &[Obs],
) -> Result<Vec<Event>, NoMemory>
    ensures { IfOk result (λ events. (entries : List Obs) → own.now ≡ observed_events entries (observed_as common.now) →
        events.items ≡ events_exercised_on common.now optns.now.settlement_period (exercise_day entries common.now optns.now)) }
{
    let day = exercise_day(common, optns, own);
    Ok(events_exercised_on(alloc, common, optns.settlement_period, day)?)
}

/// The day of exercise of an option: the first observed one, where it may be early, and else maturity.
fn exercise_day(common: &Common, optns: &Optns, own: &[Obs]) -> Day
    ensures { (entries : List Obs) → own.now ≡ observed_events entries (observed_as common.now) →
        result ≡ exercise_day entries common.now optns.now }
{
    let maturity = optns.maturity_date;
    if may_be_early(optns.option_exercise_type) {
        first_exercise(own, common.status_date, maturity).unwrap_or(maturity)
    } else {
        maturity
    }
}

/// Whether an option may be exercised before maturity: American or Bermudan.
fn may_be_early(exercise: ExerciseType) -> bool
    ensures { result ≡ may_be_early exercise }
{
    exercise != ExerciseType::E
}

/// The first day of exercise among entries, of those after a status date and not after the maturity.
fn first_exercise(entries: &[Obs], status: Day, maturity: Day) -> Option<Day>
    ensures { result ≡ least (filter (is_within status (Some maturity)) (filter_map exercise_of entries.now)) }
{
    let mut first = None;
    for entry in entries {
        first = earlier(first, exercise_within(*entry, status, maturity));
    }
    first
}

/// The day of an entry that is an exercise after a status date and not after the maturity.
fn exercise_within(entry: Obs, status: Day, maturity: Day) -> Option<Day>
    ensures { result ≡ where_kept (is_within status (Some maturity)) (exercise_of entry) }
{
    match exercise_of(entry) {
        Some(day) if status < day && day <= maturity => Some(day),
        _ => None,
    }
}

/// The day of an entry that is an observed exercise.
fn exercise_of(entry: Obs) -> Option<Day>
    ensures { result ≡ exercise_of entry }
{
    match entry {
        Obs::Rate { .. } => None,
        Obs::Event { kind, day, .. } => exercise_by(kind, day),
    }
}

/// The day of an observation, where it is an exercise.
fn exercise_by(kind: ObsKind, day: Day) -> Option<Day>
    ensures { result ≡ exercise_by kind day }
{
    match kind {
        ObsKind::XD => Some(day),
        _ => None,
    }
}

/// The earlier of two days, as far as they are there.
pub fn earlier(first: Option<Day>, next: Option<Day>) -> Option<Day>
    ensures { result ≡ earlier first next }
{
    match (first, next) {
        (Some(first), Some(next)) => Some(first.min(next)),
        (first, None) => first,
        (None, next) => next,
    }
}
