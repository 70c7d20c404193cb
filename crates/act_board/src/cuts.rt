//! From which day on the entries between two versions of a book touch contracts' cones.
ghost use Rattle.std.specs.Prelude.{◌≡◌, ◌≤◌, ℕ, ℤ, Option, length, max, min, take, Some, IfOk};
ghost use Rattle.std.specs.List.{slice_get};
ghost use Rattle.act_profile.specs.Kept.{kept_of};
ghost use Rattle.act_profile.specs.Reads.{cut_of};
ghost use Rattle.act_profile.specs.Run.{run_of};

use act_cut::IndexedBook;
use act_date::Day;
use act_keeping::latest::cut_between;
use act_num::NoMemory;
use act_portfolio::Portfolio;
use std::alloc::Global;

/// For each contract, the day from which on the entries of a book between two versions, in either order, touch its cone; None
/// where none of them does. Of its runs at both the same is kept under it.
pub(crate) fn cuts_between(
    alloc: Global,
    portfolio: &Portfolio,
    book: &mut IndexedBook,
    one: u64,
    other: u64,
) -> Result<Vec<Option<Day>>, NoMemory>
    requires one { one ≤ length book.old }
    requires other { other ≤ length book.old }
    ensures count { IfOk result (λ cuts. length cuts.items ≡ length portfolio.now.contracts.terms) }
    ensures each { IfOk result (λ cuts. (c : ℕ) (cut : Option ℤ) → slice_get cuts.items c ≡ Some cut
        → cut ≡ cut_of portfolio.now.contracts c book.old (min one other) (max one other)) }
    ensures kept { IfOk result (λ cuts. (c : ℕ) (cut : Option ℤ) → slice_get cuts.items c ≡ Some cut
        → kept_of (run_of portfolio.now.contracts (take one book.old) c) cut
        ≡ kept_of (run_of portfolio.now.contracts (take other book.old) c) cut) }
    ensures same { book.new ≡ book.old }
{
    portfolio.contracts_are_linked();
    let contracts = portfolio.terms().len();
    let to = one.max(other);
    let seen = book.snapshot(to)?;
    let mut cuts = Vec::with_capacity(alloc, contracts)?;
    'contracts: for contract in 0..contracts {
        let reads = portfolio.reads(contract as u32);
        let cut = cut_between(reads, book, &seen, one.min(other), to)?;
        cuts.push(cut)?;
    }
    Ok(cuts)
}
