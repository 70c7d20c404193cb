//! Civil days from 1900 to 2299, cycles and day counts.
#![tactic(auto)]

mod calendar;
mod cycle;
mod cycle_text;
mod day;
mod day_count;
mod text;

pub use calendar::{Calendar, Convention, is_business};
pub use cycle::{Anchor, Cycle, CycleFault, MonthRule, Stub, Unit, add_cycles};
pub use cycle_text::{parse_cycle, parse_period};
pub use day::{DateFault, Day, civil, month_end, weekday};
pub use day_count::{DayCount, Frac, year_frac};
pub use text::parse_day;
