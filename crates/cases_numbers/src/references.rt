//! Calls of contracts that refer to one another.
ghost use Rattle.std.specs.Prelude.{◌<◌, ◌≤◌, ◌↔◌, length, IsTrue};
ghost use Rattle.std.specs.List.{All};

use act_refs::order;
use cases_rows::Case;

/// Tells the order of contracts of which each has its children as a word, or the fault.
pub fn answer(case: &mut Case<'_>, call: &str) {
    let mut children = Vec::new(case.alloc);
    for list in case.given.split_whitespace() {
        if children.push(numbers_of(case, list)).is_err() {
            case.fail("memory ran out");
        }
    }
    if call == "order" && exist(&children) && children.len() <= 100 {
        ordered(case, &children);
    } else {
        case.fail("no such call, or no such child");
    }
}

fn ordered(case: &mut Case<'_>, children: &[Vec<u32>])
    requires exist { All (λ list. All (λ child. child < length children.now) list.items) children.now }
    requires numbered { length children.now ≤ 100 }
{
    match order(case.alloc, children) {
        Ok(found) => case.value(found),
        Err(fault) => case.value(fault),
    }
}

/// Numbers with commas between them, or none of a dash.
fn numbers_of(case: &mut Case<'_>, list: &str) -> Vec<u32> {
    let mut numbers = Vec::new(case.alloc);
    for word in list.split(',') {
        if word != "-" && numbers.push(case.count_of(word)).is_err() {
            case.fail("memory ran out");
        }
    }
    numbers
}

/// Whether all children are below the number of contracts.
fn exist(children: &[Vec<u32>]) -> bool
    ensures { IsTrue result ↔ All (λ list. All (λ child. child < length children.now) list.items) children.now }
{
    children.iter().all(|list| are_below(list, children.len()))
}

/// Whether the numbers are below a count.
fn are_below(numbers: &[u32], count: usize) -> bool
    ensures { IsTrue result ↔ All (λ number. number < count) numbers.now }
{
    numbers.iter().all(|number| (*number as usize) < count)
}
