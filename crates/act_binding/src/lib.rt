//! What contracts refer to: which references fit a kind, what they bind in its terms, the shadows of caps and floors, and the
//! children of contracts.
#![tactic(auto)]

mod binding;
mod children;
mod links;

pub use binding::terms_of;
pub use children::{child_lists, shadow_numbers, shadows};
pub use links::{Listing, first_unknown, fits_kind};
