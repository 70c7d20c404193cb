//! Which contracts refer to one.
ghost use Rattle.std.specs.Prelude.{◌≡◌, ◌<◌, length, replicate, IfOk, OnOk};
ghost use Rattle.std.specs.List.{All};
ghost use Rattle.act_refs.specs.Path.{child_lists};
ghost use Rattle.act_keeping.specs.Ready.{AddsTimes, AreParents};

use act_keeping::refer::{add_parent, no_lists};
use act_num::NoMemory;
use act_portfolio::Portfolio;
use std::alloc::Global;

/// For each contract those that refer to it, each as often as it does.
pub(crate) fn parents_of(alloc: Global, portfolio: &Portfolio) -> Result<Vec<Vec<u32>>, NoMemory>
    ensures { IfOk result (λ parents. AreParents portfolio.now.contracts.children (child_lists parents.items)) }
{
    portfolio.contracts_are_linked();
    let count = portfolio.terms().len();
    let mut parents = no_lists(alloc, count)?;
    'contracts: for contract in 0..count {
        let children = portfolio.children(contract as u32);
        add_parent(&mut parents, children, contract as u32)?;
    }
    Ok(parents)
}
