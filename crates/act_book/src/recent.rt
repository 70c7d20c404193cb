//! The runs behind a book's full chunks.
ghost use Rattle.std.specs.Prelude.{◌≡◌, ◌≤◌, ◌++◌, length, take, IfOk};
ghost use Rattle.act_model.specs.Limits.{most_entries};
ghost use Rattle.act_book.specs.Runs.{entries_of};

use crate::run::Run;
use act_num::NoMemory;
use std::alloc::Global;
use std::sync::Arc;

/// How many entries a part has, which are the fewest of a run. A run behind the full chunks has one part, two, or four; one
/// of eight, a whole chunk, stands there only until the chunk's own run is made.
pub const PART: usize = 32;

/// How many entries some runs have.
pub fn count_of(runs: &[Arc<Run, Global>]) -> usize
    requires { length (entries_of runs.now) ≤ most_entries }
    ensures { result ≡ length (entries_of runs.now) }
{
    let mut count = 0;
    for run in runs {
        count += run.entries().len();
    }
    count
}

/// Puts the first of some runs behind others, as long as they have no more than so many entries together, and gives how many
/// they have. Both lists share them then.
pub fn push_within(
    shared: &mut Vec<Arc<Run, Global>>,
    runs: &[Arc<Run, Global>],
    most: usize,
) -> Result<usize, NoMemory>
    ensures within { IfOk result (λ count. count ≤ most) }
    ensures counted { IfOk result (λ count. count ≤ length (entries_of runs.now)) }
    ensures shared { IfOk result (λ count. entries_of shared.new.items ≡ entries_of shared.old.items ++ take count (entries_of runs.now)) }
{
    let mut count = 0;
    for run in runs {
        let more = run.entries().len();
        if more > most - count {
            return Ok(count);
        }
        shared.push(Arc::try_clone(run)?)?;
        count += more;
    }
    Ok(count)
}

/// Some runs with one more behind them, which takes in each run before it that is as long as it.
pub fn with_run(
    alloc: Global,
    runs: &[Arc<Run, Global>],
    next: Run,
) -> Result<Vec<Arc<Run, Global>>, NoMemory>
    ensures { IfOk result (λ more. entries_of more.items ≡ entries_of runs.now ++ next) }
{
    let mut last = next;
    let mut front = runs.len();
    while front > 0 {
        let before = &runs[front - 1];
        if before.entries().len() != last.entries().len() {
            break;
        }
        last = before.joined(&last)?;
        front -= 1;
    }
    let mut more = Vec::new(alloc);
    for run in &runs[..front] {
        more.push(Arc::try_clone(run)?)?;
    }
    more.push(Arc::new(alloc, last)?)?;
    Ok(more)
}
