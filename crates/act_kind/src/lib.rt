//! What the code of all kinds of contracts shares: the sign of a role, the step of an event by the line of a table,
//! the events of planned dates, purchase and termination, and the state that every contract begins with.
#![tactic(auto)]

mod dates;
mod order;
mod planned;
mod sign;
mod table;
mod trade;

pub use dates::{
    recurrence, recurrence_or_end, recurring, recurring_before, recurring_or_end_after, united,
};
pub use order::{counting, is_unpaid, order_law, put_in_order, retain_counting};
pub use planned::{Planned, events_by_type, shifting, unshifted};
pub use sign::{opposite, signed};
pub use table::{Payment, Table, advance, take_step, with_state};
pub use trade::{first_state, later_day, pass, trade_payoff, trade_plan};
