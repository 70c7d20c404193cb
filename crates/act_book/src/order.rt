//! The order in which a run keeps its entries.
ghost use Rattle.std.specs.Prelude.{◌≡◌};
ghost use Rattle.std.specs.Ordering.{int_cmp};
ghost use Rattle.act_book.specs.Order.{event_of, order_of, rate_on};

use act_date::Day;
use act_model::Obs;
use std::cmp::Ordering;

/// How two entries stand to one another: rates by code and day, before events by contract.
pub fn order(first: &Obs, second: &Obs) -> Ordering
    ensures { result ≡ order_of first.now second.now }
{
    match *first {
        Obs::Rate { code, day, .. } => order_of_rate(code, day, second),
        Obs::Event { contract, .. } => order_of_event(contract, second),
    }
}

/// How a rate of a code and a day stands to an entry.
fn order_of_rate(code: u32, day: Day, entry: &Obs) -> Ordering
    ensures { result ≡ order_of (rate_on code day) entry.now }
{
    match *entry {
        Obs::Rate {
            code: other,
            day: until,
            ..
        } => code.cmp(&other).then(order_of_days(day, until)),
        Obs::Event { .. } => Ordering::Less,
    }
}

/// How an event of a contract stands to an entry.
fn order_of_event(contract: u32, entry: &Obs) -> Ordering
    ensures { result ≡ order_of (event_of contract) entry.now }
{
    match *entry {
        Obs::Rate { .. } => Ordering::Greater,
        Obs::Event {
            contract: other,
            ..
        } => contract.cmp(&other),
    }
}

/// How two days stand to one another.
fn order_of_days(first: Day, second: Day) -> Ordering
    ensures { result ≡ int_cmp first second }
{
    if first < second {
        Ordering::Less
    } else if second < first {
        Ordering::Greater
    } else {
        Ordering::Equal
    }
}
