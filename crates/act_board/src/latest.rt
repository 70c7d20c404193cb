//! What the evaluation of a contract goes on from: its latest result, the one at the greatest version.
ghost use Rattle.std.specs.Prelude.{◌≡◌, ℕ, ◌≤◌, ◌<◌, false, length, max, min, slice_index_or, slice_set, Some, None, take, true, ◌≤ℤ◌, IfOk, IfSome};
ghost use Rattle.std.specs.Arc.{arc_value};
ghost use Rattle.std.specs.List.{All, slice_get};
ghost use Rattle.std.specs.List.Sorted.{IsStrictlyIncreasing};
ghost use Rattle.act_causality.specs.Causality.{IsLinked, IsWithinDepth};
ghost use Rattle.act_cut.specs.Cut.{AreAscending};
ghost use Rattle.act_date.specs.Civil.{last_day};
ghost use Rattle.act_profile.specs.Reads.{codes_read, cut_by};
ghost use Rattle.act_profile.specs.Run.{deepest};
ghost use Rattle.act_keeping.specs.Latest.{IsCached, NoneYet, is_later};
ghost use Rattle.act_keeping.specs.declared.latest.LatestResult.{LatestResult};

use act_book::Snapshot as Entries;
use act_cut::IndexedBook;
use act_keeping::latest::{Cached, LatestResult, cut_between, end_of};
use act_num::NoMemory;
use act_portfolio::Portfolio;
use std::alloc::Global;
use std::sync::Arc;

/// How many codes there are, up to the greatest that an evaluation reads.
pub(crate) fn codes_read(portfolio: &Portfolio) -> usize
    ensures { (c : ℕ) → c < length portfolio.now.contracts.terms → All (λ code. code < result) (codes_read portfolio.now.contracts c) }
{
    let mut codes = 0;
    for contract in 0..portfolio.terms().len() {
        codes = codes.max(end_of(&portfolio.reads(contract as u32).codes));
    }
    codes
}

/// What the evaluation of a contract over the first entries of a book goes on from.
pub(crate) fn cached_for(
    portfolio: &Portfolio,
    book: &mut IndexedBook,
    latest: &[Option<LatestResult>],
    contract: u32,
    seen: &Entries,
    version: u64,
) -> Result<Cached, NoMemory>
    requires contract { contract < length portfolio.now.contracts.terms }
    requires count { length latest.now ≡ length portfolio.now.contracts.terms }
    requires version { version ≤ length book.old }
    requires seen { seen.now ≡ take version book.old }
    requires latest { (one : LatestResult) → slice_get latest.now contract ≡ Some (Some one) → one.version ≤ length book.old }
    ensures cached { IfOk result (λ cached. IsCached portfolio.now.contracts book.old contract version (slice_index_or latest.now contract None) cached) }
    ensures same { book.new ≡ book.old }
    ensures linked { IsLinked portfolio.now.contracts }
    ensures within_depth { IsWithinDepth deepest portfolio.now.contracts contract }
{
    portfolio.contracts_are_linked();
    match &latest[contract as usize] {
        Some(latest) => {
            let cut = cut_between(
                portfolio.reads(contract),
                book,
                seen,
                latest.version,
                version,
            )?;
            let run = Arc::try_clone(&latest.run)?;
            Ok(Cached {
                run: Some(run),
                cut,
            })
        }
        None => Ok(Cached {
            run: None,
            cut: None,
        }),
    }
}
