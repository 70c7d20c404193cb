//! How many scheduled events contracts count.
ghost use Rattle.std.specs.Prelude.{◌≡◌, ◌≤◌, Ok, IfOk, length, map, option_map, slice_get};
ghost use Rattle.std.specs.List.{All};
ghost use Rattle.act_profile.specs.Built.{IsBuilt};
ghost use Rattle.act_profile.specs.Plan.{own_count, plan_of};
ghost use Rattle.act_cones.specs.Cones.{most_counted, numbers_of};
ghost use Rattle.act_cones.specs.Counts.{HavePlans, count_by_itself, scheduled_count};

use act_model::{Kind, MOST_CONTRACTS, MOST_DATES, Plan, Terms};
use act_num::NoMemory;
use std::alloc::Global;
use std::marker::Model;

/// The contracts of a portfolio by their numbers.
#[derive(Drop)]
pub struct Contracts<'a> {
    /// The terms of each.
    pub terms: &'a [Terms],
    /// The plan of each.
    pub plans: &'a [Plan],
    /// The contracts that the run of each goes over, by their numbers.
    pub children: &'a [Vec<u32>],
}

impl<'a> Model for Contracts<'a> {
    ghost use Rattle.std.specs.Prelude.{map};
    ghost use Rattle.act_profile.specs.Run.{Contracts};

    ghost Value = { Contracts };

    ghost view = { λ c. record { terms = c.terms.now; plans = c.plans.now; children = map (λ l. l.items) c.children.now } };
}

impl<'a> Contracts<'a> {
    /// The terms of a contract.
    pub(crate) fn terms_at(&self, contract: u32) -> Option<&Terms>
        ensures { option_map (λ terms. terms.now) result ≡ slice_get self.now.terms contract }
    {
        self.terms.get(contract as usize)
    }

    /// The plan of a contract.
    fn plan_at(&self, contract: u32) -> Option<&Plan>
        ensures { option_map (λ plan. plan.now) result ≡ slice_get self.now.plans contract }
    {
        self.plans.get(contract as usize)
    }
}

/// For each contract the scheduled events that it counts.
pub(crate) fn scheduled_counts(alloc: Global, contracts: &Contracts) -> Result<Vec<u64>, NoMemory>
    requires planned { HavePlans contracts.now.terms contracts.now.plans }
    requires few { length contracts.now.children ≤ MOST_CONTRACTS }
    ensures counts { IfOk result (λ counts. counts.items ≡ map (scheduled_count contracts.now) (numbers_of contracts.now)) }
    ensures few { IfOk result (λ counts. All (λ count. count ≤ most_counted) counts.items) }
{
    let mut counts = Vec::new(alloc);
    for contract in 0..contracts.children.len() {
        counts.push(scheduled_count(contracts, contract as u32))?;
    }
    Ok(counts)
}

/// The scheduled events of a contract, and those of the contracts that count with them: the two of a swap of contracts, and
/// the one under a cap and floor.
#[tactic(auto, unfolding(crate::specs::Counts::scheduled_count))]
fn scheduled_count(contracts: &Contracts, contract: u32) -> u64
    requires planned { HavePlans contracts.now.terms contracts.now.plans }
    ensures count { result ≡ scheduled_count contracts.now contract }
    ensures few { result ≤ most_counted }
{
    let own = count_by_itself(contracts, contract);
    let Some(terms) = contracts.terms_at(contract) else {
        return own;
    };
    match &terms.kind {
        Kind::SWAPS(swaps) => {
            own + count_by_itself(contracts, swaps.first) + count_by_itself(contracts, swaps.second)
        }
        Kind::CAPFL(capfl) => own + count_by_itself(contracts, capfl.underlying),
        _ => own,
    }
}

/// The scheduled events that a contract has by itself.
fn count_by_itself(contracts: &Contracts, contract: u32) -> u64
    requires planned { HavePlans contracts.now.terms contracts.now.plans }
    ensures count { result ≡ count_by_itself contracts.now contract }
    ensures few { result ≤ MOST_DATES }
{
    let Some(terms) = contracts.terms_at(contract) else {
        return 0;
    };
    let Some(plan) = contracts.plan_at(contract) else {
        return 0;
    };
    own_count(terms, plan)
}

/// The scheduled events that a plan counts: of a guarantee two, a credit event and its settlement.
fn own_count(terms: &Terms, plan: &Plan) -> u64
    requires built { IsBuilt terms.now.kind }
    requires plan { plan_of terms.now ≡ Ok plan.now }
    ensures count { result ≡ own_count terms.now.kind plan.now }
    ensures few { result ≤ MOST_DATES }
{
    match &terms.kind {
        Kind::CEG(_) | Kind::CEC(_) => 2,
        _ => plan.events.len() as u64,
    }
}
