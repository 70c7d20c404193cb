//! Calls of days, business days and cycles.
ghost use Rattle.std.specs.Prelude.{◌≤◌};
ghost use Rattle.std.specs.Option.{ForSome};

use act_calendar::shift;
use act_date::{
    Calendar, Convention, Cycle, CycleFault, Day, DayCount, add_cycles, civil, is_business,
    month_end, parse_cycle, parse_day, parse_period, weekday, year_frac,
};
use cases_rows::Case;

/// Tells what a call answers.
pub fn answer(case: &mut Case<'_>, call: &str) {
    match call {
        "day" => match parse_day(&case.bytes()) {
            Ok(day) => case.value(day.number()),
            Err(fault) => case.value(fault),
        },
        "cycle" => {
            let read = parse_cycle(&case.bytes());
            cycle_read(case, read);
        }
        "period" => {
            let read = parse_period(&case.bytes());
            cycle_read(case, read);
        }
        "year_fraction" => year_fraction(case),
        _ => match case.day() {
            Some(day) => of_day(case, call, day),
            None => {}
        },
    }
}

fn of_day(case: &mut Case<'_>, call: &str, day: Day) {
    match call {
        "written" => case.day_told(day),
        "month_end" => case.day_told(month_end(day)),
        "weekday" => case.value(weekday(day)),
        "civil" => case.value(civil(day)),
        "is_business" => {
            let calendar = calendar(case);
            case.value(is_business(day, calendar));
        }
        "plus" => plus(case, day),
        "shift" => shifted(case, day),
        _ => case.fail("no such call"),
    }
}

fn plus(case: &mut Case<'_>, day: Day) {
    let (cycle, times) = (cycle_or_none(case), case.count());
    match cycle {
        Some(cycle) => day_or_none_told(case, add_cycles(day, cycle, times)),
        None => case.fail("a word is no cycle"),
    }
}

/// Tells a day, or `none`.
fn day_or_none_told(case: &mut Case<'_>, found: Option<Day>) {
    match found {
        Some(day) => case.day_told(day),
        None => case.text("none"),
    }
}

fn shifted(case: &mut Case<'_>, day: Day) {
    let (convention, calendar) = (convention(case), calendar(case));
    match shift(day, convention, calendar) {
        Some(shifted) => {
            case.day_told(shifted.day);
            case.text(" ");
            case.day_told(shifted.calc);
        }
        None => case.text("none"),
    }
}

fn cycle_read(case: &mut Case<'_>, read: Result<Cycle, CycleFault>) {
    match read {
        Ok(cycle) => cycle_told(case, cycle),
        Err(fault) => case.value(fault),
    }
}

/// Tells a cycle: its count, unit and stub.
pub fn cycle_told(case: &mut Case<'_>, cycle: Cycle) {
    case.value(cycle.count);
    case.text(" ");
    case.value(cycle.unit);
    case.text(" ");
    case.value(cycle.stub);
}

fn year_fraction(case: &mut Case<'_>) {
    let (count, calendar) = (day_count(case), calendar(case));
    let (first, second, maturity) = (case.day(), case.day(), case.day_or_none());
    if let (Some(first), Some(second)) = (first, second) {
        let found = year_frac(count, calendar, first, second, maturity);
        case.value(found.num);
        case.text("/");
        case.value(found.den);
    }
}

/// The next word as a cycle, or None of a dash.
pub fn cycle_or_none(case: &mut Case<'_>) -> Option<Cycle>
    ensures { ForSome result (λ c. 1 ≤ c.count) }
{
    let word = case.word();
    match parse_cycle(word.as_bytes()) {
        Ok(cycle) => Some(cycle),
        Err(_) => {
            if word != "-" {
                case.fail("a word is no cycle");
            }
            None
        }
    }
}

/// The next word as a calendar, by its name in portfolios.
fn calendar(case: &mut Case<'_>) -> Calendar {
    match case.word() {
        "NC" => Calendar::Nc,
        "MF" => Calendar::Mf,
        _ => {
            case.fail("a word is no calendar");
            Calendar::Nc
        }
    }
}

/// The next word as a business day convention, by its name in portfolios.
fn convention(case: &mut Case<'_>) -> Convention {
    match case.word() {
        "NOS" => Convention::Nos,
        "SCF" => Convention::Scf,
        "SCMF" => Convention::Scmf,
        "CSF" => Convention::Csf,
        "CSMF" => Convention::Csmf,
        "SCP" => Convention::Scp,
        "SCMP" => Convention::Scmp,
        "CSP" => Convention::Csp,
        "CSMP" => Convention::Csmp,
        _ => {
            case.fail("a word is no convention");
            Convention::Nos
        }
    }
}

/// The next word as a day count convention, by its name in portfolios.
fn day_count(case: &mut Case<'_>) -> DayCount {
    match case.word() {
        "AA" => DayCount::Aa,
        "A360" => DayCount::A360,
        "A365" => DayCount::A365,
        "30E360" => DayCount::E30,
        "30E360ISDA" => DayCount::E30Isda,
        "B252" => DayCount::B252,
        _ => {
            case.fail("a word is no day count");
            DayCount::Aa
        }
    }
}
