//! What asks weigh.
ghost use Rattle.std.specs.Prelude.{◌≡◌, ◌+◌, ◌-◌, ◌^◌, ◌<◌, ◌≤◌, ◌++◌, nat_lt, if◌then◌else◌, true, min, length, List, Some, None, IfOk, IfErr};
ghost use Rattle.std.specs.List.{All as Each};
ghost use Rattle.act_script.specs.Asks.{AsksBelow, is_below, line_lists};
ghost use Rattle.act_script.specs.Spending.{overweight_behind};
ghost use Rattle.act_script.specs.Weight.{WeighedAsk, all_asks, ask_weight, overweight, script_asks};

use act_model::{Asked, Line, Step};
use std::marker::Model;

/// The most that all asks together may weigh.
pub const MOST_WEIGHT: u64 = 4_194_304;

/// What an ask of all named contracts weighs by.
#[derive(Clone, Copy, PartialEq, Eq)]
pub struct All {
    /// The sum of their cone sums.
    pub weight: u64,
    /// How many they are.
    pub contracts: u64,
}

/// What the weights of asks go by.
#[derive(Drop)]
struct Tariff<'a> {
    weights: &'a [u64],
    all: All,
    events: u64,
}

impl<'a> Model for Tariff<'a> {
    ghost use Rattle.act_script.specs.Weight as spec;

    ghost Value = { spec.Tariff };

    ghost view = { λ t. record { weights = t.weights.now; all_weight = t.all.weight; all_contracts = t.all.contracts; events = t.events } };
}

/// The script and the line, both from 1, of the first ask up to which the asks weigh more than 4,194,304, or None
/// where all of them don't. An ask weighs 1 and, for each contract asked, its cone sum and twice `events`, the number
/// of event entries in all scripts. `weights` holds the cone sum of each contract at its place.
pub fn weigh(weights: &[u64], all: All, events: u64, scripts: &[Vec<Line>]) -> Option<(u32, u32)>
    requires contracts { Each (AsksBelow (length weights.now)) (line_lists scripts.now) }
    requires numbered { length scripts.now < 2 ^ 32 }
    ensures { result ≡ overweight (all_asks
        (record { weights = weights.now; all_weight = all.weight; all_contracts = all.contracts; events = events })
        (line_lists scripts.now)) }
{
    let tariff = Tariff {
        weights,
        all,
        events,
    };
    let mut spent = 0;
    for (place, script) in scripts.iter().enumerate() {
        match tariff.spend(spent, place as u32 + 1, script) {
            Ok(sum) => spent = sum,
            Err(place) => return Some(place),
        }
    }
    None
}

impl Tariff<'_> {
    /// What has been spent once the asks of the script of that number are, or the script and the line of the first
    /// ask past the limit.
    fn spend(&self, before: u64, number: u32, script: &[Line]) -> Result<u64, (u32, u32)>
        requires contracts { AsksBelow (length self.now.weights) script.now }
        ensures within { IfOk result (λ spent. (others : List WeighedAsk) →
            overweight_behind before (script_asks self.now number script.now ++ others) ≡ overweight_behind spent others) }
        ensures past { IfErr result (λ place. (others : List WeighedAsk) →
            overweight_behind before (script_asks self.now number script.now ++ others) ≡ Some place) }
    {
        let mut spent = before;
        for line in script {
            if let Step::Ask(asked) = line.step {
                match self.with_ask(spent, asked) {
                    Some(sum) => spent = sum,
                    None => return Err((number, line.line)),
                }
            }
        }
        Ok(spent)
    }

    /// What has been spent once an ask is, or None past the limit.
    fn with_ask(&self, spent: u64, asked: Asked) -> Option<u64>
        requires contract { is_below (length self.now.weights) (Step.Ask asked) ≡ true }
        ensures { result ≡ (let sum = spent + ask_weight self.now asked in
            if nat_lt MOST_WEIGHT sum then None else Some sum) }
    {
        let sum = spent.saturating_add(self.weight(asked));
        (sum <= MOST_WEIGHT).then_some(sum)
    }

    /// What an ask weighs, or 2^64 - 1 where that is less.
    #[tactic(auto, unfolding(crate::specs::Weight::ask_weight))]
    fn weight(&self, asked: Asked) -> u64
        requires contract { is_below (length self.now.weights) (Step.Ask asked) ≡ true }
        ensures { result ≡ min (ask_weight self.now asked) (2 ^ 64 - 1) }
    {
        let twice = self.events.saturating_mul(2);
        let contracts = match asked {
            Asked::All => self
                .all
                .weight
                .saturating_add(self.all.contracts.saturating_mul(twice)),
            Asked::One(contract) => self.weights[contract as usize].saturating_add(twice),
        };
        contracts.saturating_add(1)
    }
}
