//! What callers ask for, and what they are answered.
use crate::observed::Obs;
use crate::run::Run;
use std::alloc::Global;
use std::marker::Model;
use std::sync::Arc;

/// A step of a caller.
#[derive(Clone, Copy, PartialEq, Eq)]
pub enum Step {
    /// It appends an entry to the book.
    Append(Obs),
    /// It asks for evaluations.
    Ask(Asked),
}

/// What is asked for.
#[derive(Clone, Copy, PartialEq, Eq)]
pub enum Asked {
    /// Every named contract, in portfolio order.
    All,
    /// The contract of that number.
    One(u32),
}

/// A line of a script.
#[derive(Clone, Copy, PartialEq, Eq)]
pub struct Line {
    /// The step.
    pub step: Step,
    /// The line's number, from 1.
    pub line: u32,
}

/// An item of the journal.
#[derive(Clone, Copy, PartialEq, Eq)]
pub struct Item {
    /// The caller's number, from 1.
    pub caller: u32,
    /// What it did.
    pub step: Step,
}

/// The answer to an ask.
#[derive(Drop)]
pub struct Answer {
    /// The caller's number, from 1.
    pub caller: u32,
    /// The ask's number among the caller's, from 1.
    pub number: u32,
    /// How many entries of the book it was evaluated over.
    pub version: u64,
    /// The runs of the contracts asked for, in portfolio order.
    pub runs: Vec<(u32, Arc<Run, Global>)>,
}

impl Model for Answer {
    ghost use Rattle.std.specs.Prelude.{map};
    ghost use Rattle.std.specs.Arc.{arc_value};
    ghost use Rattle.act_model.specs.Answer.{Reply};

    ghost Value = { Reply };

    ghost view = { λ a. record { caller = a.caller; number = a.number; version = a.version; runs = map (λ r. (r.0, arc_value r.1)) a.runs.items } };
}
