//! Why a portfolio is refused.
ghost use Rattle.std.specs.Prelude.{◌≡◌, ◌≢◌, ◌<◌, ◌^◌, IfSome};
ghost use Rattle.act_refusal.specs.Refusal.{refusal_of, refused_plan, refused_terms};
ghost use Rattle.act_refusal.specs.declared.fault.PortfolioFault.TheVariants as faults;

use act_model::PlanFault;
use act_num::NoMemory;
use act_terms::{TermFault, TermsFault};
use std::alloc::{AllocError, AllocFailed, Global};

/// Why there is no portfolio.
#[derive(Drop)]
pub enum PortfolioFault {
    /// The file is refused, by the first of these that it has. The place is that of the contract in portfolio order, from 1,
    /// or 0 where the number is 10 or the file is no list.
    ///
    /// | Number | Where | What |
    /// |---|---|---|
    /// | 10 | the bytes are no JSON | `-` |
    /// | 11 | the value is no list; a contract is no object; a term is given and is no text; a structure has another shape | the term or `-` |
    /// | 12 | a required term isn't given | the term |
    /// | 13 | a term has another form or breaks its bound; an element of a structure has no such type or role | the term |
    /// | 14 | a term that names something, or an element of a structure, has another form | the term |
    /// | 15 | no contract has this type | `contractType` |
    /// | 16 | there are more than 4,096 contracts, where a cap and floor counts as two; the place is that of the first past the limit | `-` |
    /// | 17 | an earlier contract has the same name | `contractID` |
    /// | 21 | a contract refers to another by a name that none has | the name |
    /// | 20 | the references don't fit the kind | `contractStructure` |
    /// | 22 | contracts refer to one another in a cycle; the place is that of its first contract | its names, with spaces between |
    /// | 23 | a chain of more than 16 contracts, each of which refers to the next, starts at the contract | `-` |
    /// | 18 | a contract has more than 4,096 scheduled events, or redemptions | `-` |
    /// | 19 | a date of a contract leaves 1900 to 2299, or a derived maturity isn't after the initial exchange | `-` |
    ///
    /// Terms come contract by contract, in the order of this profile's tables, the structure last; then 16; then 17; then 21
    /// and 20 contract by contract; then 22; then 23; then 18 and 19 contract by contract, in the order of the types of events.
    Refused {
        /// Its number, 10 to 23.
        number: u8,
        /// The contract's place.
        place: u32,
        /// The term, the name, the names or `-`.
        what: Vec<u8>,
    },
    /// Memory ran out.
    NoMemory,
}

impl<T: Drop> From<AllocFailed<T>> for PortfolioFault {
    ghost from_gives = { λ _ fault. fault ≡ faults.NoMemory };

    fn from(_error: AllocFailed<T>) -> PortfolioFault {
        PortfolioFault::NoMemory
    }
}

impl From<AllocError> for PortfolioFault {
    ghost from_gives = { λ _ fault. fault ≡ faults.NoMemory };

    fn from(_error: AllocError) -> PortfolioFault {
        PortfolioFault::NoMemory
    }
}

impl From<NoMemory> for PortfolioFault {
    ghost from_gives = { λ _ fault. fault ≡ faults.NoMemory };

    fn from(_fault: NoMemory) -> PortfolioFault {
        PortfolioFault::NoMemory
    }
}

/// A refusal. Where there is no memory for what it says, want of memory.
pub fn refused(alloc: Global, number: u8, place: u32, what: &str) -> PortfolioFault
    ensures { IfSome (refusal_of result) (λ refusal. refusal ≡ record { number = number; place = place; what = what.now }) }
{
    match Vec::from_slice(alloc, what.as_bytes()) {
        Ok(what) => PortfolioFault::Refused {
            number,
            place,
            what,
        },
        Err(_) => PortfolioFault::NoMemory,
    }
}

/// The refusal of a term of the contract at that place from 0.
pub(crate) fn refused_terms(alloc: Global, place: u32, fault: TermsFault) -> PortfolioFault
    requires { place < 2 ^ 28 }
    ensures refusal { IfSome (refusal_of result) (λ refusal. refusal ≡ refused_terms place fault) }
    ensures memory { IfSome (refusal_of result) (λ _. fault ≢ TermsFault.NoMemory) }
{
    match fault {
        TermsFault::Refused(TermFault { cause, term }) => {
            refused(alloc, cause.number(), place + 1, term)
        }
        TermsFault::NoMemory => PortfolioFault::NoMemory,
    }
}

/// The refusal of the plan of the contract at that place from 0.
pub(crate) fn refused_plan(alloc: Global, place: u32, fault: PlanFault) -> PortfolioFault
    requires { place < 2 ^ 28 }
    ensures refusal { IfSome (refusal_of result) (λ refusal. refusal ≡ refused_plan place fault) }
    ensures memory { IfSome (refusal_of result) (λ _. fault ≢ PlanFault.NoMemory) }
{
    match fault {
        PlanFault::TooManyDates => refused(alloc, 18, place + 1, "-"),
        PlanFault::DateRange => refused(alloc, 19, place + 1, "-"),
        PlanFault::NoMemory => PortfolioFault::NoMemory,
    }
}
