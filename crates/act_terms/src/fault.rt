//! Terms that are refused.
ghost use Rattle.std.specs.Prelude.{◌≡◌};
ghost use Rattle.act_terms.specs.Fault.{fault_at, refusal_number};
ghost use Rattle.act_terms.specs.declared.fault.TermsFault.TheVariants as faults;

use act_json::JsonFault;
use act_num::NoMemory;
use std::alloc::{AllocError, AllocFailed};
use std::marker::Model;

/// Why a term is refused. The numbers are those of a portfolio's refusals.
#[derive(Clone, Copy, PartialEq, Eq)]
pub enum TermCause {
    /// It is given and no text, or the contract is no object; of a structure, it is no list, an element is no object, or
    /// what an element refers to isn't given or is another value. What `act_json` reads has texts for bare numbers.
    WrongShape = 11,
    /// It is required and not given: the object lacks it, or has null or the empty text there.
    MissingTerm = 12,
    /// It has a text of another form, or breaks its bound; of a structure, an element's type or role is none.
    BadValue = 13,
    /// It names something, and its text is no name; of a structure, an element does.
    BadName = 14,
    /// It is the type of the contract, and no contract has this type.
    UnknownKind = 15,
}

impl TermCause {
    /// Its number among the refusals of a portfolio.
    pub fn number(self) -> u8
        ensures { result ≡ refusal_number self }
    {
        match self {
            TermCause::WrongShape => 11,
            TermCause::MissingTerm => 12,
            TermCause::BadValue => 13,
            TermCause::BadName => 14,
            TermCause::UnknownKind => 15,
        }
    }
}

/// A term that is refused, and why.
#[derive(Drop)]
pub struct TermFault {
    /// Why it is refused.
    pub cause: TermCause,
    /// The term's name in the dictionary, or `-` where the contract is no object.
    pub term: &'static str,
}

impl Model for TermFault {
    ghost use Rattle.act_terms.specs.Refusal.{RefusedTerm};

    ghost Value = { RefusedTerm };

    ghost view = { λ f. record { cause = f.cause; term = f.term.now } };
}

/// Why a contract isn't read.
#[derive(Drop)]
pub enum TermsFault {
    /// A term is refused, the first in the order in which they are read.
    Refused(TermFault),
    /// Memory ran out.
    NoMemory,
}

impl<T: Drop> From<AllocFailed<T>> for TermsFault {
    ghost from_gives = { λ _ fault. fault ≡ faults.NoMemory };

    fn from(_error: AllocFailed<T>) -> TermsFault {
        TermsFault::NoMemory
    }
}

impl From<AllocError> for TermsFault {
    ghost from_gives = { λ _ fault. fault ≡ faults.NoMemory };

    fn from(_error: AllocError) -> TermsFault {
        TermsFault::NoMemory
    }
}

impl From<NoMemory> for TermsFault {
    ghost from_gives = { λ _ fault. fault ≡ faults.NoMemory };

    fn from(_fault: NoMemory) -> TermsFault {
        TermsFault::NoMemory
    }
}

/// A term is refused.
pub(crate) fn refused(cause: TermCause, term: &'static str) -> TermsFault
    ensures { result ≡ faults.Refused (record { cause = cause; term = term.now }) }
{
    TermsFault::Refused(TermFault { cause, term })
}

/// The fault of a field, with the term's name.
pub(crate) fn fault_at(term: &'static str, fault: JsonFault) -> TermsFault
    ensures { result ≡ fault_at term.now fault }
{
    match fault {
        JsonFault::NotJson | JsonFault::WrongShape => refused(TermCause::WrongShape, term),
        JsonFault::MissingTerm => refused(TermCause::MissingTerm, term),
        JsonFault::BadValue => refused(TermCause::BadValue, term),
        JsonFault::BadName => refused(TermCause::BadName, term),
        JsonFault::NoMemory => TermsFault::NoMemory,
    }
}
