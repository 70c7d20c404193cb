//! A portfolio that was accepted.
ghost use Rattle.std.specs.Prelude.{◌≡◌, ◌^◌, ◌<◌, ◌≤◌, ℕ, false, codes, Some, Ok, [], IfOk, IfErr, IfSome, length, map, slice_get, slice_index_or, string_bytes};
ghost use Rattle.std.specs.List.{All};
ghost use Rattle.std.specs.List.Sorted.{IsStrictlyIncreasing};
ghost use Rattle.std.specs.Str.{bytes_eq};
ghost use Rattle.act_causality.specs.Causality.{IsLinked, IsWithinDepth};
ghost use Rattle.act_profile.specs.Built.{IsBuilt};
ghost use Rattle.act_profile.specs.Printable.{ArePrintable};
ghost use Rattle.act_model.specs.declared.terms.Terms.{Terms};
ghost use Rattle.act_profile.specs.Plan.{plan_of};
ghost use Rattle.act_refs.specs.Ordered.{order_of};
ghost use Rattle.act_refs.specs.Path.{IsChild};
ghost use Rattle.act_cones.specs.Cones.{most_counted, most_weight, reads_of};
ghost use Rattle.act_cones.specs.Counts.{cone_sum, scheduled_count};
ghost use Rattle.act_portfolio.specs.Reading.{portfolio_of};
ghost use Rattle.act_refusal.specs.Refusal.{refusal_of};
ghost use Rattle.std.specs.Prelude.{List};
ghost use Rattle.act_model.specs.Run.{EventPlan};
ghost use Rattle.act_model.specs.declared.observed.Obs.{Obs};
ghost use Rattle.act_profile.specs.Run.{Contracts, deepest, run_of, run_over};

use crate::reading::read_portfolio;
use act_cones::Cones;
use act_model::{MOST_BYTES, MOST_CONTRACTS, Names, Plan, Reads, Terms};
use act_num::NoMemory;
use act_refusal::PortfolioFault;
use std::alloc::Global;
use std::marker::Model;

/// The contracts of an accepted portfolio, numbered from 0: those of the file in portfolio order, an inline contract behind
/// the one that it stands in, and behind them all the shadows of caps and floors. With each its plan, the contracts that its
/// run goes over, and what its evaluation weighs and reads.
#[derive(Drop)]
pub struct Portfolio {
    pub(crate) names: Names,
    pub(crate) terms: Vec<Terms>,
    pub(crate) plans: Vec<Plan>,
    pub(crate) children: Vec<Vec<u32>>,
    pub(crate) order: Vec<u32>,
    pub(crate) ranks: Vec<u32>,
    pub(crate) cones: Cones,
    pub(crate) unused: Vec<Vec<String>>,
}

impl Model for Portfolio {
    ghost use Rattle.std.specs.Prelude.{map, string_bytes};
    ghost use Rattle.act_portfolio.specs.Known.{IsPortfolio};
    ghost use Rattle.act_portfolio.specs.Reading.{Accepted};

    ghost Value = { Accepted };

    ghost view = { λ p. record { names = p.names; contracts = record { terms = p.terms.items; plans = p.plans.items; children = map (λ c. c.items) p.children.items }; order = p.order.items; unused = map (λ u. map string_bytes u.items) p.unused.items } };

    ghost invariant = { λ p. IsPortfolio (record { names = p.names; contracts = record { terms = p.terms.items; plans = p.plans.items; children = map (λ c. c.items) p.children.items }; order = p.order.items; unused = map (λ u. map string_bytes u.items) p.unused.items }) p.ranks.items p.cones.counts.items p.cones.weights.items p.cones.reads.items };
}

impl Portfolio {
    /// The portfolio that the bytes of a file are, or why they are refused: by the first refusal in the order that
    /// [`PortfolioFault`] has.
    ///
    /// The file is a JSON list of objects, one for each contract; a contract may also stand inline in the structure of
    /// another. An object gives the contract's terms under the names of the ACTUS data dictionary, numbers bare or in
    /// quotes. A value `null` or `""` is not given. Names that the contract's kind doesn't use are passed over, and kept as
    /// unused.
    pub fn read(alloc: Global, bytes: &[u8]) -> Result<Portfolio, PortfolioFault>
        requires size { length bytes.now ≤ MOST_BYTES }
        ensures accepted { IfOk result (λ portfolio. portfolio_of bytes.now ≡ Ok portfolio) }
        ensures refused { IfErr result (λ fault. IfSome (refusal_of fault) (λ refusal. portfolio_of bytes.now ≡ Err refusal)) }
    {
        read_portfolio(alloc, bytes)
    }

    /// The terms of the contracts, by their numbers. What they hold of other contracts is so: a cap and floor is over its
    /// underlying and that one's shadow, and a guarantee covers its children.
    pub fn terms(&self) -> &[Terms]
        ensures terms { result.now ≡ self.now.contracts.terms }
        ensures few { length result.now ≤ MOST_CONTRACTS }
        ensures built { (c : ℕ) (t : Terms) → slice_get result.now c ≡ Some t → IsBuilt t.kind }
        ensures linked { IsLinked self.now.contracts }
    {
        &self.terms
    }

    /// The plan of a contract: its scheduled events in order.
    pub fn plan(&self, contract: u32) -> &Plan
        requires contract { contract < length self.now.contracts.terms }
        ensures plan { slice_get self.now.contracts.plans contract ≡ Some result.now }
        ensures of_terms { (t : Terms) → slice_get self.now.contracts.terms contract ≡ Some t → plan_of t ≡ Ok result.now }
    {
        &self.plans[contract as usize]
    }

    /// The contracts that a contract's run goes over: those that it refers to in the order of its structure, and behind the
    /// underlying of a cap and floor its shadow.
    pub fn children(&self, contract: u32) -> &[u32]
        requires contract { contract < length self.now.contracts.terms }
        ensures children { slice_get self.now.contracts.children contract ≡ Some result.now }
        ensures numbered { All (λ child. child < length self.now.contracts.terms) result.now }
        ensures ordered { order_of self.now.contracts.children ≡ Ok self.now.order }
        ensures count { length self.now.contracts.children ≡ length self.now.contracts.terms }
    {
        &self.children[contract as usize]
    }

    /// The order in which contracts are evaluated: children first, and those of one depth by number. A chain of references has
    /// at most 16 contracts.
    pub fn order(&self) -> &[u32]
        ensures order { result.now ≡ self.now.order }
        ensures ordered { order_of self.now.contracts.children ≡ Ok self.now.order }
        ensures numbered { All (λ contract. contract < length self.now.contracts.terms) result.now }
        ensures exist { (parent child : ℕ) → IsChild self.now.contracts.children parent child → child < length self.now.contracts.terms }
        ensures count { length self.now.contracts.children ≡ length self.now.contracts.terms }
        ensures within_depth { (c : ℕ) → c < length self.now.contracts.terms → IsWithinDepth deepest self.now.contracts c }
    {
        &self.order
    }

    /// How the contracts are linked: each has children, which are contracts; the order is theirs, children first; no chain of
    /// references is longer than 16 contracts; what terms hold of other contracts is so; and not more have a name than there
    /// are. It does nothing, and stands where a proof needs this.
    #[inline(always)]
    pub fn contracts_are_linked(&self)
        ensures ordered { order_of self.now.contracts.children ≡ Ok self.now.order }
        ensures numbered { All (λ contract. contract < length self.now.contracts.terms) self.now.order }
        ensures exist { (parent child : ℕ) → IsChild self.now.contracts.children parent child → child < length self.now.contracts.terms }
        ensures count { length self.now.contracts.children ≡ length self.now.contracts.terms }
        ensures within_depth { (c : ℕ) → c < length self.now.contracts.terms → IsWithinDepth deepest self.now.contracts c }
        ensures linked { IsLinked self.now.contracts }
        ensures named { length self.now.names.contracts ≤ length self.now.contracts.terms }
    {
        // What is true of a portfolio is known where one of its fields is looked at.
        let _ = &self.order;
    }

    /// What is printed of the contracts' runs is there to be printed: their days are days, their amounts numbers of the range,
    /// and what they name has a name. No contract has the name `*`. It does nothing, and stands where a proof needs this.
    #[inline(always)]
    pub fn contracts_are_printable(&self)
        ensures printable { ArePrintable (length self.now.names.codes) (length self.now.names.currencies) self.now.contracts }
        ensures no_star { All (λ name. bytes_eq name (codes "*") ≡ false) self.now.names.contracts }
    {
        let _ = &self.order;
    }

    /// The place of a contract in the order, from 0.
    pub fn rank(&self, contract: u32) -> u32
        requires contract { contract < length self.now.contracts.terms }
        ensures { slice_get self.now.order result ≡ Some contract }
    {
        self.ranks[contract as usize]
    }

    /// How many contracts have a name: all that the file has, and none of the shadows.
    pub fn named(&self) -> u32
        ensures named { result ≡ length self.now.names.contracts }
        ensures within { result ≤ length self.now.contracts.terms }
    {
        self.unused.len() as u32
    }

    /// The names of a contract's object that its kind doesn't use, in byte order; of a shadow, which has no object, none.
    pub fn unused(&self, contract: u32) -> &[String]
        requires contract { contract < length self.now.contracts.terms }
        ensures unused { slice_index_or self.now.unused contract [] ≡ map string_bytes result.now }
        ensures named { contract < length self.now.names.contracts
            → slice_get self.now.unused contract ≡ Some (map string_bytes result.now) }
    {
        match self.unused.get(contract as usize) {
            Some(names) => names,
            None => &[],
        }
    }

    /// How many scheduled events a contract counts, with those of a swap's legs and a cap's or floor's underlying. It takes no
    /// memory.
    pub fn scheduled_count(&self, contract: u32) -> u64
        requires contract { contract < length self.now.contracts.terms }
        ensures count { result ≡ scheduled_count self.now.contracts contract }
        ensures within { result ≤ most_counted }
    {
        self.cones.counts[contract as usize]
    }

    /// The cone sum of a contract: the sum, over the contract and all that it reaches, of the scheduled count and one.
    pub fn weight(&self, contract: u32) -> u64
        requires contract { contract < length self.now.contracts.terms }
        ensures weight { result ≡ cone_sum self.now.contracts contract }
        ensures within { result ≤ most_weight }
    {
        self.cones.weights[contract as usize]
    }

    /// What the evaluation of a contract reads, with that of all contracts that it reaches.
    pub fn reads(&self, contract: u32) -> &Reads
        requires contract { contract < length self.now.contracts.terms }
        ensures reads { result.now ≡ reads_of self.now.contracts contract }
        ensures codes_ascend { IsStrictlyIncreasing result.now.codes }
        ensures contracts_ascend { IsStrictlyIncreasing result.now.contracts }
    {
        &self.cones.reads[contract as usize]
    }

    /// A copy of the names of the contracts, and of what they name.
    pub fn to_names(&self) -> Result<Names, NoMemory>
        ensures names { IfOk result (λ names. names ≡ self.now.names) }
        ensures few_contracts { IfOk result (λ names. length names.contracts < 2 ^ 27) }
        ensures few_codes { IfOk result (λ names. length names.codes < 2 ^ 27) }
        ensures few_currencies { IfOk result (λ names. length names.currencies < 2 ^ 27) }
    {
        self.names.copied()
    }
}

/// The run of a contract is that of its terms, its plan and its children's runs, in any portfolio whose contracts have an
/// order.
pub fn runs_are_over_children()
    ensures { (contracts : Contracts) (entries : List Obs) (order : List ℕ) (c : ℕ) (terms : Terms) (plan : EventPlan) (children : List ℕ)
        → order_of contracts.children ≡ Ok order → c < length contracts.children
        → slice_get contracts.terms c ≡ Some terms → slice_get contracts.plans c ≡ Some plan → slice_get contracts.children c ≡ Some children
        → run_of contracts entries c ≡ run_over terms plan entries (map (run_of contracts entries) children) }
{}
