//! The asks of a journal.
ghost use Rattle.std.specs.Prelude.{◌≡◌, ◌-◌, ◌^◌, ◌<◌, ◌++◌, length, IfOk, OnOk};
ghost use Rattle.act_model.specs.Asks.{asks_of, caller_asks};

use crate::journal::{Asked, Item, Step};
use act_num::NoMemory;
use std::alloc::Global;

/// An ask of a journal.
#[derive(Clone, Copy, PartialEq, Eq)]
pub struct Asking {
    /// The caller's number, from 1.
    pub caller: u32,
    /// The ask's number among the caller's, from 1.
    pub number: u32,
    /// How many entries stand before it in the journal.
    pub version: u64,
    /// What it asks for.
    pub asked: Asked,
}

/// The asks of a journal of at most 16 callers, by caller and then by number.
#[tactic(auto, unfolding(crate::specs::Asks::asks_of))]
pub fn asks_of(alloc: Global, items: &[Item]) -> Result<Vec<Asking>, NoMemory>
    requires { length items.now < 2 ^ 32 - 1 }
    ensures { IfOk result (λ asks. asks.items ≡ asks_of items.now) }
{
    let mut asks = Vec::new(alloc);
    'callers: for caller in 1..17 {
        push_asks(&mut asks, caller, items)?;
    }
    Ok(asks)
}

/// Adds the asks of a caller.
fn push_asks(asks: &mut Vec<Asking>, caller: u32, items: &[Item]) -> Result<(), NoMemory>
    requires { length items.now < 2 ^ 32 - 1 }
    ensures { OnOk result (asks.new.items ≡ asks.old.items ++ caller_asks items.now caller) }
{
    let mut number = 1;
    let mut version = 0;
    'items: for item in items {
        match item.step {
            Step::Append(_) => version += 1,
            Step::Ask(asked) => {
                if item.caller == caller {
                    asks.push(Asking {
                        caller,
                        number,
                        version,
                        asked,
                    })?;
                    number += 1;
                }
            }
        }
    }
    Ok(())
}
