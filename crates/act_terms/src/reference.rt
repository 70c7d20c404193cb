//! What a contract refers to.

use std::marker::Model;

/// A reference of a contract: an element of its `contractStructure`.
#[derive(Drop)]
pub struct Reference {
    /// What it is to the contract.
    pub role: ReferenceRole,
    /// What is referred to.
    pub object: Referred,
}

impl Model for Reference {
    ghost use Rattle.act_terms.specs.Reference.{Reference, target_of};

    ghost Value = { Reference };

    ghost view = { λ r. record { role = r.role; object = target_of r.object } };
}

/// What a reference is to the contract that has it.
#[derive(Clone, Copy, PartialEq, Eq)]
pub enum ReferenceRole {
    /// The underlying.
    UDL,
    /// The first leg.
    FIL,
    /// The second leg.
    SEL,
    /// What is covered.
    COVE,
    /// What covers it.
    COVI,
}

/// What a reference is to.
#[derive(Drop)]
pub enum Referred {
    /// A contract, by its name. Of a contract that stands in the element it is the text that the contract gives as its name.
    Contract(String),
    /// A market object, by the number of its code.
    Market(u32),
}

/// How an element says what it refers to.
#[derive(Clone, Copy, PartialEq, Eq)]
pub(crate) enum ReferenceType {
    /// The contract stands in the element.
    CNT,
    /// The contract is named.
    CID,
    /// The market object is named.
    MOC,
}
