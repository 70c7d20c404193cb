//! The terms of one contract of any of the thirteen types, read from its JSON object: each by its name of the ACTUS data
//! dictionary, in the order of this profile's tables, up to the first that is refused.
#![tactic(auto)]

mod choices;
mod common;
mod contract;
mod credit;
mod currencies;
mod exchange;
mod exercise;
mod fault;
mod fee;
mod fields;
mod inline;
mod interest;
mod loan;
mod penalty;
mod redemption;
mod reference;
mod reset;
mod scaling;
mod structure;
mod swap;
mod used;

pub use contract::{ContractRead, NamedTerms, read_contract};
pub use fault::{TermCause, TermFault, TermsFault};
pub use inline::{ContractValue, in_portfolio_order};
pub use reference::{Reference, ReferenceRole, Referred};
pub use used::unused_names;
