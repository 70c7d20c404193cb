//! What a board keeps of a caller.
ghost use Rattle.std.specs.Prelude.{◌≡◌, ◌+◌, ◌-◌, ◌<◌, ◌≤◌, Some, length, IfErr, IfOk};
ghost use Rattle.std.specs.List.{list_all, slice_get};
ghost use Rattle.act_keeping.specs.Keeping.{AreNewcomers, ClosesOldest, IsUntouched, Leaves, OpensAsk, Spends};
ghost use Rattle.act_keeping.specs.declared.caller.Caller.{Caller};

use act_model::{Asked, Asking, MOST_ASKS};
use act_num::NoMemory;
use std::alloc::Global;
use std::collections::VecDeque;

/// What a board keeps of a caller.
#[derive(Drop)]
pub struct Caller {
    /// Whether it has left.
    pub left: bool,
    /// How many entries it may still append.
    pub remaining: u64,
    /// How many asks it has made.
    pub asked: u32,
    /// Its open asks, the oldest first.
    pub open_asks: VecDeque<Asking>,
}

/// A caller for each quota, who has done nothing yet. NoMemory where memory runs out.
pub fn callers_of(alloc: Global, quotas: &[u64]) -> Result<Vec<Caller>, NoMemory>
    ensures { IfOk result (λ callers. AreNewcomers quotas.now callers.items) }
{
    let mut callers = Vec::with_capacity(alloc, quotas.len())?;
    for quota in quotas {
        callers.push(Caller {
            left: false,
            remaining: *quota,
            asked: 0,
            open_asks: VecDeque::new(alloc),
        })?;
    }
    Ok(callers)
}

/// Whether all callers have left.
pub fn all_left(callers: &[Caller]) -> bool
    ensures { result ≡ list_all (λ (caller : Caller). caller.left) callers.now }
{
    callers.iter().all(|caller| caller.left)
}

/// Opens an ask of a caller. It answers the ask's number among the caller's. NoMemory where memory runs out; what is kept of the
/// caller stays then.
pub fn open_ask(
    callers: &mut [Caller],
    caller: u32,
    version: u64,
    asked: Asked,
) -> Result<u32, NoMemory>
    requires from { 1 ≤ caller }
    requires to { caller ≤ length callers.old }
    requires few { (one : Caller) → slice_get callers.old (caller - 1) ≡ Some one → one.asked < MOST_ASKS }
    ensures opened { IfOk result (λ number. OpensAsk callers.old (caller - 1) (record { caller = caller; number = number; version = version; asked = asked }) callers.new) }
    ensures unchanged { IfErr result (λ _. IsUntouched callers.old (caller - 1) callers.new) }
{
    let one = &mut callers[caller as usize - 1];
    let number = one.asked + 1;
    let asking = Asking {
        caller,
        number,
        version,
        asked,
    };
    let Ok(()) = one.open_asks.push_back(asking) else {
        return Err(NoMemory);
    };
    one.asked = number;
    Ok(number)
}

/// Counts an entry that a caller appends.
pub fn spend(callers: &mut [Caller], caller: u32)
    requires from { 1 ≤ caller }
    requires to { caller ≤ length callers.old }
    requires some { (one : Caller) → slice_get callers.old (caller - 1) ≡ Some one → 0 < one.remaining }
    ensures { Spends callers.old (caller - 1) callers.new }
{
    callers[caller as usize - 1].remaining -= 1;
}

/// The oldest open ask of a caller that has one.
pub fn oldest(callers: &[Caller], caller: u32) -> Asking
    requires from { 1 ≤ caller }
    requires to { caller ≤ length callers.now }
    requires some { (one : Caller) → slice_get callers.now (caller - 1) ≡ Some one → 0 < length one.open_asks.items }
    ensures { (one : Caller) → slice_get callers.now (caller - 1) ≡ Some one → slice_get one.open_asks.items 0 ≡ Some result }
{
    match callers[caller as usize - 1].open_asks.front() {
        Some(ask) => *ask,
        None => unreachable!(),
    }
}

/// Closes the oldest open ask of a caller.
pub fn close_oldest(callers: &mut [Caller], caller: u32)
    requires from { 1 ≤ caller }
    requires to { caller ≤ length callers.old }
    ensures { ClosesOldest callers.old (caller - 1) callers.new }
{
    let _ = callers[caller as usize - 1].open_asks.pop_front();
}

/// Notes that a caller has left.
pub fn set_left(callers: &mut [Caller], caller: u32)
    requires from { 1 ≤ caller }
    requires to { caller ≤ length callers.old }
    ensures { Leaves callers.old (caller - 1) callers.new }
{
    callers[caller as usize - 1].left = true;
}
