//! Which contracts are evaluated before those that are asked for.
ghost use Rattle.std.specs.Prelude.{◌-◌, IfOk};
ghost use Rattle.std.specs.List.{range_with_len};
ghost use Rattle.act_history.specs.Reached.{AreBelow};

use act_keeping::reached::{is_wanted, mark, none_marked};
use act_num::NoMemory;
use act_portfolio::Portfolio;
use std::alloc::Global;

/// Marks what the contracts of these numbers, from one on, as far as to another, refer to, and what those refer to.
pub(crate) fn below(
    alloc: Global,
    portfolio: &Portfolio,
    first: u32,
    end: u32,
) -> Result<Vec<bool>, NoMemory>
    ensures { IfOk result (λ below. AreBelow portfolio.now.contracts (range_with_len first (end - first)) below.items) }
{
    let mut below = none_marked(alloc, portfolio.terms().len())?;
    let order = portfolio.order();
    let mut place = order.len();
    while place > 0 {
        place -= 1;
        let contract = order[place];
        if is_wanted(&below, contract, first, end) {
            mark(&mut below, portfolio.children(contract));
        }
    }
    Ok(below)
}
