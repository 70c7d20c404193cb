//! Calls of schedules and of annuities.
use crate::days::cycle_or_none;
use crate::numbers::fraction_of;
use act_annuity::payment;
use act_date::{Day, MonthRule};
use act_sched::{Schedule, dates};
use cases_rows::Case;

/// Tells what a call answers.
pub fn answer(case: &mut Case<'_>, call: &str) {
    match call {
        "payment" => annuity(case),
        "dates" | "count_dates" => schedule(case, call, None),
        "count_dates_after" => {
            let after = case.day();
            schedule(case, call, after);
        }
        _ => case.fail("no such call"),
    }
}

/// The dates of a schedule by its words: anchor, cycle, end and rule; or how many they are, all or those after a day.
fn schedule(case: &mut Case<'_>, call: &str, after: Option<Day>) {
    let (anchor, cycle, end) = (case.day_or_none(), cycle_or_none(case), case.day());
    let rule = month_rule(case);
    let Some(end) = end else {
        return;
    };
    let found = match after {
        None => dates(case.alloc, anchor, cycle, end, rule),
        after => Schedule {
            anchor,
            cycle,
            end,
            rule,
        }
        .dates_after(case.alloc, after),
    };
    match found {
        Ok(dates) if call == "dates" => days_told(case, &dates),
        Ok(dates) => case.value(dates.len()),
        Err(fault) => case.value(fault),
    }
}

/// The next word as an end of month convention, by its name in portfolios.
fn month_rule(case: &mut Case<'_>) -> MonthRule {
    match case.word() {
        "SD" => MonthRule::Sd,
        "EOM" => MonthRule::Eom,
        _ => {
            case.fail("a word is no rule");
            MonthRule::Sd
        }
    }
}

/// Tells days with a space between them, or `none`.
fn days_told(case: &mut Case<'_>, days: &[Day]) {
    for day in days {
        case.next(" ");
        case.day_told(*day);
    }
    if days.is_empty() {
        case.text("none");
    }
}

/// The payment of an annuity: notional, accrued interest, rate, and a year fraction for each period, so many times.
fn annuity(case: &mut Case<'_>) {
    let (notional, accrued, rate) = (case.fixed(), case.fixed(), case.fixed());
    let mut periods = Vec::new(case.alloc);
    for word in case.given.split_whitespace().skip(3) {
        let (one, times) = word.split_once('×').unwrap_or((word, "1"));
        let (one, times) = (fraction_of(case, one), case.count_of(times));
        for _ in 0..times {
            if periods.push(one).is_err() {
                case.fail("memory ran out");
            }
        }
    }
    case.units(payment(notional, accrued, rate, &periods));
}
