//! What a contract's run is a function of.

use act_model::{Observed, Plan, Run, Terms};
use std::alloc::Global;
use std::marker::Model;
use std::sync::Arc;

/// What a contract's run is a function of: its terms and plan, its children's runs, and the entries of a book. The terms are
/// such that a plan can be made of them, the plan is theirs, and the rows of each child stand by their days.
#[derive(Drop)]
pub struct Inputs<'a, O: Observed> {
    /// The contract's terms.
    pub terms: &'a Terms,
    /// Its plan.
    pub plan: &'a Plan,
    /// Its children's runs, over the same entries.
    pub children: &'a [Arc<Run, Global>],
    /// What has the entries.
    pub seen: &'a O,
}

impl<'a, O: Observed> Model for Inputs<'a, O> {
    ghost use Rattle.std.specs.Prelude.{map};
    ghost use Rattle.std.specs.Arc.{arc_value};
    ghost use Rattle.act_run.specs.Inputs as inputs;

    ghost Value = { inputs.Inputs };

    ghost view = { λ i. record { terms = i.terms.now; plan = i.plan.now; children = map arc_value i.children.now; entries = O.entries i.seen.now } };

    ghost invariant = { λ i. inputs.ArePossible i.terms.now i.plan.now (map arc_value i.children.now) };
}
