//! The shared vocabulary: contracts' terms, events, states, rows, runs, observations and names.
#![tactic(auto)]

mod asks;
mod bounds;
mod choice;
mod chunk;
mod event;
mod journal;
mod limits;
mod name;
mod names;
mod numbers;
mod observed;
mod reads;
mod rows;
mod run;
mod shared;
mod state;
mod terms;

pub use asks::{Asking, asks_of};
pub use choice::{
    ContractRole, ContractType, DeliverySettlement, ExerciseType, FeeBasis, GuaranteedExposure,
    InterestCalculationBase, OptionType, PenaltyType, ScalingEffect,
};
pub use event::{Event, EventType, Source};
pub use journal::{Answer, Asked, Item, Line, Step};
pub use limits::{
    MOST_ASKS, MOST_BYTES, MOST_CALLERS, MOST_CONTRACTS, MOST_DATES, MOST_ENTRIES, MOST_NAMES,
    MOST_OPEN, MOST_WORKERS,
};
pub use name::{is_currency, is_name};
pub use names::Names;
pub use observed::{Listed, Obs, ObsKind, Observed, observed_is_last_of_latest_day};
pub use reads::Reads;
pub use rows::Rows;
pub use run::{Close, Plan, PlanFault, Row, RowHead, Run, Stop};
pub use state::State;
pub use terms::{
    Ann, Capfl, Cec, Ceg, Common, Covered, Fee, Futur, Fxout, Kind, Lam, Loan, Nam, Optns, Pam,
    RateReset, Redemption, Scaling, Stk, Swaps, Swppv, Terms,
};
