//! How many results pairs wait for, and which of them may be claimed.
ghost use Rattle.std.specs.Prelude.{◌≡◌, ℕ, suc, true, false, ◌+◌, ◌<◌, ◌≤◌, [], Some, length, vec_capacity, OnOk};
ghost use Rattle.std.specs.List.{All, slice_get};
ghost use Rattle.act_history.specs.History.{History};
ghost use Rattle.act_keeping.specs.Keeping.{AreSorted, IsPast, Keeps, contract_at};
ghost use Rattle.act_keeping.specs.Ready.{AreApart, AreDescending, AreFree, AreSettled, IsFree, IsNoted, IsPlaced, IsRanked, Lowers, Lacks, MayLower, blocked, lacking_of};
ghost use Rattle.act_keeping.specs.declared.pair.Pair.{Pair};

use crate::claiming::has_result;
use act_keeping::pair::Pair;
use act_keeping::ready::{Ready, list_free, note};
use act_portfolio::Portfolio;

/// Counts anew for the pairs from a place on, and lists anew what may be claimed. No pair before `front` waits, and there is
/// room.
pub(crate) fn fill(
    ready: &mut Ready,
    portfolio: &Portfolio,
    pairs: &[Pair],
    start: usize,
    front: usize,
)
    requires sorted { AreSorted pairs.now }
    requires ranks { (k : ℕ) (pair : Pair) → slice_get pairs.now k ≡ Some pair → pair.rank < length portfolio.now.order }
    requires start { start ≤ length pairs.now }
    requires counted { start ≤ length ready.old.lacking.items }
    requires past { IsPast pairs.now front }
    requires counts { length pairs.now ≤ vec_capacity ready.old.lacking }
    requires room { length pairs.now ≤ vec_capacity ready.old.places }
    ensures count { length ready.new.lacking.items ≡ length pairs.now }
    ensures same { (k : ℕ) → k < start → slice_get ready.new.lacking.items k ≡ slice_get ready.old.lacking.items k }
    ensures counted { (history : History) → Keeps portfolio.now pairs.now history → (k : ℕ) (pair : Pair) → start ≤ k → slice_get pairs.now k ≡ Some pair
        → slice_get ready.new.lacking.items k ≡ Some (lacking_of history (contract_at history pair.rank) pair.version) }
    ensures free { AreFree pairs.now ready.new.lacking.items ready.new.places.items }
    ensures room { length ready.new.places.items + blocked ready.new.lacking.items ≤ vec_capacity ready.new.places }
{
    count_from(&mut ready.lacking, portfolio, pairs, start);
    list_free(&mut ready.places, &ready.lacking, pairs, front);
}

/// Counts anew for the pairs from a place on.
fn count_from(lacking: &mut Vec<usize>, portfolio: &Portfolio, pairs: &[Pair], start: usize)
    requires sorted { AreSorted pairs.now }
    requires ranks { (k : ℕ) (pair : Pair) → slice_get pairs.now k ≡ Some pair → pair.rank < length portfolio.now.order }
    requires start { start ≤ length pairs.now }
    requires counted { start ≤ length lacking.old.items }
    requires room { length pairs.now ≤ vec_capacity lacking.old }
    ensures count { length lacking.new.items ≡ length pairs.now }
    ensures same { (k : ℕ) → k < start → slice_get lacking.new.items k ≡ slice_get lacking.old.items k }
    ensures counted { (history : History) → Keeps portfolio.now pairs.now history → (k : ℕ) (pair : Pair) → start ≤ k → slice_get pairs.now k ≡ Some pair
        → slice_get lacking.new.items k ≡ Some (lacking_of history (contract_at history pair.rank) pair.version) }
{
    lacking.truncate(start);
    let order = portfolio.order();
    for place in start..pairs.len() {
        let pair = &pairs[place];
        let count = lacking_at(portfolio, pairs, order[pair.rank as usize], pair.version);
        let Ok(()) = lacking.push(count) else {
            unreachable!()
        };
    }
}

/// How many children of a contract lack a result at a version.
fn lacking_at(portfolio: &Portfolio, pairs: &[Pair], contract: u32, version: u64) -> usize
    requires contract { contract < length portfolio.now.contracts.terms }
    requires sorted { AreSorted pairs.now }
    ensures { (history : History) → Keeps portfolio.now pairs.now history → result ≡ lacking_of history contract version }
{
    let mut count = 0;
    let children = portfolio.children(contract);
    for child in children {
        if !has_result(portfolio, pairs, *child, version) {
            count += 1;
        }
    }
    count
}

/// Counts one result more at a version for the pairs of these contracts, as often as each stands among them. What waits for no
/// other result may be claimed from here on: there is room for it.
pub(crate) fn settle(
    ready: &mut Ready,
    portfolio: &Portfolio,
    pairs: &[Pair],
    parents: &[u32],
    version: u64,
)
    requires exist { All (λ parent. parent < length portfolio.now.contracts.terms) parents.now }
    requires sorted { AreSorted pairs.now }
    requires ranks { (k : ℕ) (pair : Pair) → slice_get pairs.now k ≡ Some pair → pair.rank < length portfolio.now.order }
    requires apart { AreApart portfolio.now.order }
    requires count { length ready.old.lacking.items ≡ length pairs.now }
    requires free { AreFree pairs.now ready.old.lacking.items ready.old.places.items }
    requires lack { Lacks portfolio.now.order parents.now version pairs.now ready.old.lacking.items }
    requires room { length ready.old.places.items + blocked ready.old.lacking.items ≤ vec_capacity ready.old.places }
    ensures count { length ready.new.lacking.items ≡ length pairs.now }
    ensures free { AreFree pairs.now ready.new.lacking.items ready.new.places.items }
    ensures settled { AreSettled portfolio.now.order parents.now version pairs.now ready.old.lacking.items ready.new.lacking.items }
    ensures room { length ready.new.places.items + blocked ready.new.lacking.items ≤ vec_capacity ready.new.places }
{
    for parent in parents {
        note(ready, pairs, version, portfolio.rank(*parent));
    }
}
