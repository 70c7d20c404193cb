//! Why a portfolio is refused, and the steps of reading one that look at its contracts one by one: their terms, how many there
//! are, their names, their order and their plans.
#![tactic(auto)]

mod contracts;
mod fault;
mod limit;
mod names;
mod order;
mod plans;

pub use contracts::{ContractsRead, read_contracts};
pub use fault::{PortfolioFault, refused};
pub use limit::within_limit;
pub use names::name_contracts;
pub use order::evaluation_order;
pub use plans::{plans_of, unused_lists};
