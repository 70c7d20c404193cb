//! What is wanted by an ask.
ghost use Rattle.std.specs.Prelude.{◌≡◌, ◌+◌, ◌-◌, ◌<◌, ◌≤◌, true, length, vec_capacity};
ghost use Rattle.std.specs.List.{range_with_len};
ghost use Rattle.act_model.specs.Journal.{contracts_of, is_known};
ghost use Rattle.act_model.specs.declared.journal.Step.TheVariants.{Ask};
ghost use Rattle.act_keeping.specs.Keeping.{AreSorted};
ghost use Rattle.act_keeping.specs.Wanting.{IsAdded, IsExtended, is_asked};

use act_keeping::pair::{Pair, place_of, want};
use act_keeping::reached::is_wanted;
use act_model::Asked;
use act_portfolio::Portfolio;

/// The numbers of the contracts asked for: from one on, as far as to another.
pub(crate) fn numbers(portfolio: &Portfolio, asked: Asked) -> (u32, u32)
    requires { is_known portfolio.now.names (Ask asked) ≡ true }
    ensures numbers { contracts_of portfolio.now.names asked ≡ range_with_len result.0 (result.1 - result.0) }
    ensures order { result.0 ≤ result.1 }
    ensures within { result.1 ≤ length portfolio.now.names.contracts }
    ensures exist { result.1 ≤ length portfolio.now.contracts.terms }
{
    let named = portfolio.named();
    match asked {
        Asked::All => (0, named),
        Asked::One(contract) if contract < named => (contract, contract + 1),
        Asked::One(_) => unreachable!(),
    }
}

/// Adds, at a version, the contracts of these numbers, from one on, as far as to another, and those that are marked, where
/// they aren't there. There is room for them. It answers where the pairs of the version begin.
pub(crate) fn want_all(
    pairs: &mut Vec<Pair>,
    portfolio: &Portfolio,
    version: u64,
    below: &[bool],
    first: u32,
    end: u32,
) -> usize
    requires count { length below.now ≡ length portfolio.now.contracts.terms }
    requires sorted { AreSorted pairs.old.items }
    requires room { length pairs.old.items + length portfolio.now.order ≤ vec_capacity pairs.old }
    ensures { IsExtended pairs.old.items version (is_asked portfolio.now.order first end below.now) result (length portfolio.now.order) pairs.new.items }
{
    let start = place_of(pairs, version, 0);
    let order = portfolio.order();
    for rank in 0..portfolio.terms().len() {
        if is_wanted(below, order[rank], first, end) {
            want(pairs, version, rank as u32);
        }
    }
    start
}
