//! The dates of a cycle, counted from an anchor.
ghost use Rattle.std.specs.Prelude.{◌≡◌};
ghost use Rattle.act_date.specs.Civil.{IsDay};
ghost use Rattle.act_sched.specs.Schedule.{cycle_date, is_in_months, keeps_month_ends};

use act_date::{Anchor, Cycle, Day, MonthRule, Unit, month_end};

/// The day so many cycles after the anchor, moved by the rule, or None past 2299. That the anchor is a day is told for its callers.
#[tactic(auto, unfolding(crate::specs::Schedule::cycle_date))]
pub(crate) fn cycle_date(anchor: &Anchor, cycle: Cycle, rule: MonthRule, k: u32) -> Option<Day>
    ensures value { result ≡ cycle_date anchor.now cycle rule k }
    ensures in_range { IsDay anchor.now }
{
    let day = anchor.day();
    let date = anchor.add_cycles(cycle, k)?;
    if keeps_month_ends(rule, day, cycle.unit) {
        Some(month_end(date))
    } else {
        Some(date)
    }
}

/// Whether the dates move to the last days of their months.
fn keeps_month_ends(rule: MonthRule, anchor: Day, unit: Unit) -> bool
    ensures { result ≡ keeps_month_ends rule anchor unit }
{
    match rule {
        MonthRule::Sd => false,
        MonthRule::Eom => is_in_months(unit) && month_end(anchor) == anchor,
    }
}

/// Whether the unit is a number of months.
fn is_in_months(unit: Unit) -> bool
    ensures { result ≡ is_in_months unit }
{
    match unit {
        Unit::D | Unit::W => false,
        Unit::M | Unit::Q | Unit::H | Unit::Y => true,
    }
}
