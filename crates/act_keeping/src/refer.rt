//! Which contracts refer to one.
ghost use Rattle.std.specs.Prelude.{◌≡◌, ◌<◌, length, IfOk, OnOk};
ghost use Rattle.std.specs.List.{All};
ghost use Rattle.act_refs.specs.Path.{child_lists};
ghost use Rattle.act_keeping.specs.Ready.{AddsTimes};

use act_num::NoMemory;
use std::alloc::Global;

/// So many empty lists. NoMemory where memory runs out.
pub fn no_lists(alloc: Global, count: usize) -> Result<Vec<Vec<u32>>, NoMemory>
    ensures count { IfOk result (λ lists. length lists.items ≡ count) }
    ensures empty { IfOk result (λ lists. All (λ list. length list.items ≡ 0) lists.items) }
{
    let mut lists = Vec::new(alloc);
    for _list in 0..count {
        lists.push(Vec::new(alloc))?;
    }
    Ok(lists)
}

/// Adds a contract to the parents of each of its children. NoMemory where memory runs out; it may have been added for some of
/// them then.
pub fn add_parent(parents: &mut [Vec<u32>], children: &[u32], parent: u32) -> Result<(), NoMemory>
    requires { All (λ child. child < length parents.old) children.now }
    ensures { OnOk result (AddsTimes (child_lists parents.old) (child_lists parents.new) children.now parent) }
{
    for child in children {
        parents[*child as usize].push(parent)?;
    }
    Ok(())
}
