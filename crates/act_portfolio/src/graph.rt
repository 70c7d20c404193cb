//! Contracts as a graph, bound to what they refer to.
ghost use Rattle.std.specs.Prelude.{◌≡◌, ◌≤◌, None, Ok, Err, IfOk, IfErr, IfSome, length, map, string_bytes, zero};
ghost use Rattle.std.specs.List.{All};
ghost use Rattle.act_model.specs.Bounds.{AreBounded, IsDated};
ghost use Rattle.act_profile.specs.Outcomes.{map_ok};
ghost use Rattle.act_binding.specs.Binding.{with_shadows};
ghost use Rattle.act_refusal.specs.Known.{AreNumbered, IsContract, count_with_shadows};
ghost use Rattle.act_terms.specs.Named.{IsNamedIn};
ghost use Rattle.act_portfolio.specs.Known.{IsGraph, portfolio_with};
ghost use Rattle.act_portfolio.specs.Fit.{first_unfit};
ghost use Rattle.act_portfolio.specs.Reading.{ordered};
ghost use Rattle.act_refusal.specs.Steps.{plans_from};
ghost use Rattle.act_refusal.specs.Refusal.{refusal_of};

use crate::portfolio::Portfolio;
use act_binding::{Listing, child_lists, shadow_numbers, shadows, terms_of};
use act_cones::{Contracts, all_cones, ranks};
use act_model::{MOST_CONTRACTS, Names, Plan, Terms};
use act_refusal::{PortfolioFault, evaluation_order, plans_of};
use act_terms::NamedTerms;
use std::alloc::Global;

/// What contracts refer to: for each contract of a file the number of its shadow, if it has one, the shadows, the children
/// of all, and the order in which they are evaluated.
#[derive(Drop)]
pub(crate) struct Graph {
    numbers: Vec<u32>,
    shadows: Vec<Terms>,
    children: Vec<Vec<u32>>,
    order: Vec<u32>,
}

/// The graph of contracts whose references fit.
pub(crate) fn graph_of(
    alloc: Global,
    names: &Names,
    named: &[NamedTerms],
) -> Result<Graph, PortfolioFault>
    requires names { names.now.contracts ≡ map (λ c. c.id) named.now }
    requires few { count_with_shadows named.now ≤ MOST_CONTRACTS }
    requires fit { first_unfit named.now ≡ None }
    ensures graph { IfOk result (λ g.
        IsGraph named.now g.numbers.items g.shadows.items (map (λ c. c.items) g.children.items) g.order.items) }
    ensures refused { IfErr result (λ fault. IfSome (refusal_of fault) (λ refusal. ordered named.now ≡ Err refusal)) }
{
    let listing = Listing::new(names, named);
    let numbers = shadow_numbers(alloc, named)?;
    let shadows = shadows(alloc, &listing, named, &numbers)?;
    let children = child_lists(alloc, &listing, named, &numbers, &shadows)?;
    let order = evaluation_order(alloc, names, &children)?;
    Ok(Graph {
        numbers,
        shadows,
        children,
        order,
    })
}

/// The portfolio of contracts and their graph, once they have plans.
pub(crate) fn bound_portfolio(
    alloc: Global,
    names: Names,
    named: Vec<NamedTerms>,
    graph: Graph,
    unused: Vec<Vec<String>>,
) -> Result<Portfolio, PortfolioFault>
    requires names { names.contracts ≡ map (λ c. c.id) named.items }
    requires contracts { All IsContract named.items }
    requires named { All (IsNamedIn names) named.items }
    requires numbered { AreNumbered named.items }
    requires few { count_with_shadows named.items ≤ MOST_CONTRACTS }
    requires fit { first_unfit named.items ≡ None }
    requires graph { IsGraph named.items graph.numbers.items graph.shadows.items (map (λ c. c.items) graph.children.items) graph.order.items }
    requires unused { length unused.items ≡ length named.items }
    ensures accepted { IfOk result (λ portfolio. map_ok
        (portfolio_with names named.items graph.order.items (map (λ u. map string_bytes u.items) unused.items))
        (plans_from zero (with_shadows named.items)) ≡ Ok portfolio) }
    ensures refused { IfErr result (λ fault. IfSome (refusal_of fault) (λ refusal.
        plans_from zero (with_shadows named.items) ≡ Err refusal)) }
{
    let Graph {
        numbers,
        shadows,
        children,
        order,
    } = graph;
    let plans = plans_of(alloc, &named, &shadows)?;
    let terms = terms_of(alloc, &names, named, &numbers, shadows, &plans)?;
    are_bounded(&terms);
    are_dated(&plans);
    let ranks = ranks(alloc, &children, &order)?;
    let contracts = Contracts {
        terms: &terms,
        plans: &plans,
        children: &children,
    };
    let cones = all_cones(alloc, &contracts, &order)?;
    Ok(Portfolio {
        names,
        terms,
        plans,
        children,
        order,
        ranks,
        cones,
        unused,
    })
}

/// The days of terms are days, and their amounts numbers of the range. It does nothing, and stands where a proof needs this.
fn are_bounded(terms: &[Terms])
    ensures { All AreBounded terms.now }
{
    for contract in terms {
        contract.are_bounded();
    }
}

/// The events of plans stand on days. It does nothing, and stands where a proof needs this.
fn are_dated(plans: &[Plan])
    ensures { All IsDated plans.now }
{
    for plan in plans {
        plan.is_dated();
    }
}
