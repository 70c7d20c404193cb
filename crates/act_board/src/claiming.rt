//! What may be claimed, and over which runs.
ghost use Rattle.std.specs.Prelude.{◌≡◌, ℕ, ◌<◌, ◌≤◌, true, false, None, Some, length, map, IfOk, IfSome};
ghost use Rattle.std.specs.Arc.{arc_value};
ghost use Rattle.std.specs.List.{slice_get};
ghost use Rattle.act_refs.specs.Path.{IsChild, children_of};
ghost use Rattle.act_history.specs.History.{History, has_result};
ghost use Rattle.act_keeping.specs.Keeping.{AreResults, AreSorted, HaveResults, IsFreeAt, IsPast, IsResult, IsThere, Keeps, LacksResult, NoneIsFree, answered, numbered};
ghost use Rattle.act_keeping.specs.declared.pair.Pair.{Pair};

use act_keeping::pair::{Pair, Progress, find, is_done};
use act_model::Run;
use act_num::NoMemory;
use act_portfolio::Portfolio;
use std::alloc::Global;
use std::sync::Arc;

/// Whether a contract has a result at a version.
pub(crate) fn has_result(portfolio: &Portfolio, pairs: &[Pair], contract: u32, version: u64) -> bool
    requires contract { contract < length portfolio.now.contracts.terms }
    requires sorted { AreSorted pairs.now }
    ensures { (history : History) → Keeps portfolio.now pairs.now history → result ≡ has_result history contract version }
{
    match find(pairs, version, portfolio.rank(contract)) {
        Some(place) => is_done(&pairs[place].progress),
        None => false,
    }
}

/// The result of a contract at a version.
fn result_of(
    portfolio: &Portfolio,
    pairs: &[Pair],
    contract: u32,
    version: u64,
) -> Result<Arc<Run, Global>, NoMemory>
    requires contract { contract < length portfolio.now.contracts.terms }
    requires sorted { AreSorted pairs.now }
    requires there { IsThere portfolio.now pairs.now contract version }
    ensures run { IfOk result (λ run. (history : History) → Keeps portfolio.now pairs.now history → IsResult history contract version (arc_value run)) }
{
    match find(pairs, version, portfolio.rank(contract)) {
        Some(place) => {
            let pair = &pairs[place];
            match &pair.progress {
                Progress::Done(run) => Ok(Arc::try_clone(run)?),
                _ => unreachable!(),
            }
        }
        None => unreachable!(),
    }
}

/// The results of a contract's children at a version.
pub(crate) fn children_results(
    alloc: Global,
    portfolio: &Portfolio,
    pairs: &[Pair],
    contract: u32,
    version: u64,
) -> Result<Vec<Arc<Run, Global>>, NoMemory>
    requires contract { contract < length portfolio.now.contracts.terms }
    requires sorted { AreSorted pairs.now }
    requires there { (child : ℕ) → IsChild portfolio.now.contracts.children contract child → IsThere portfolio.now pairs.now child version }
    ensures runs { IfOk result (λ runs. (history : History) → Keeps portfolio.now pairs.now history
        → AreResults history version (children_of portfolio.now.contracts.children contract) (map arc_value runs.items)) }
{
    let children = portfolio.children(contract);
    let mut runs = Vec::with_capacity(alloc, children.len())?;
    for child in children {
        let run = result_of(portfolio, pairs, *child, version)?;
        runs.push(run)?;
    }
    Ok(runs)
}

/// Whether the contracts of these numbers, from one on, as far as to another, have results at a version. The last is looked at
/// first, since it mostly has one last.
pub(crate) fn are_ready(
    portfolio: &Portfolio,
    pairs: &[Pair],
    version: u64,
    first: u32,
    end: u32,
) -> bool
    requires within { end ≤ length portfolio.now.contracts.terms }
    requires sorted { AreSorted pairs.now }
    ensures yes { result ≡ true → (history : History) → Keeps portfolio.now pairs.now history
        → (c : ℕ) → first ≤ c → c < end → has_result history c version ≡ true }
    ensures no { result ≡ false → (history : History) → Keeps portfolio.now pairs.now history
        → (c : ℕ) × (first ≤ c) × (c < end) × (has_result history c version ≡ false) }
{
    let mut left = end;
    while left > first {
        left -= 1;
        if !has_result(portfolio, pairs, left, version) {
            return false;
        }
    }
    true
}

/// The results of these contracts at a version, each with its number.
pub(crate) fn results_of(
    alloc: Global,
    portfolio: &Portfolio,
    pairs: &[Pair],
    version: u64,
    first: u32,
    end: u32,
) -> Result<Vec<(u32, Arc<Run, Global>)>, NoMemory>
    requires order { first ≤ end }
    requires within { end ≤ length portfolio.now.contracts.terms }
    requires sorted { AreSorted pairs.now }
    requires there { (c : ℕ) → first ≤ c → c < end → IsThere portfolio.now pairs.now c version }
    ensures runs { IfOk result (λ runs. (history : History) → Keeps portfolio.now pairs.now history
        → numbered runs.items ≡ answered history version first end) }
{
    let mut runs = Vec::with_capacity(alloc, (end - first) as usize)?;
    for contract in first..end {
        let run = result_of(portfolio, pairs, contract, version)?;
        runs.push((contract, run))?;
    }
    Ok(runs)
}
