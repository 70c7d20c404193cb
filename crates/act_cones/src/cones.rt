//! What the evaluation of each contract reads, and what it weighs: over the contract and all that it reaches.
ghost use Rattle.std.specs.Prelude.{◌≡◌, ℕ, ◌+◌, ◌<◌, ◌≤◌, [], ◌∷◌, ◌++◌, Ok, IfOk, length, map, replicate, get_or, slice_index};
ghost use Rattle.std.specs.List.{All, flat_map, sum_by};
ghost use Rattle.act_profile.specs.Contract.{observed_as};
ghost use Rattle.act_profile.specs.Reads.{ascending, cone_of};
ghost use Rattle.act_refs.specs.Ordered.{order_of};
ghost use Rattle.act_cones.specs.Cones.{AreCones, AreSeen, HaveSame, most_counted, most_weight, numbers_of, reads_over};
ghost use Rattle.act_cones.specs.Counts.{HavePlans};

use crate::codes::add_codes;
use crate::counts::{Contracts, scheduled_counts};
use act_model::{Common, MOST_CONTRACTS, Reads};
use act_num::NoMemory;
use std::alloc::Global;

/// What is kept of each contract, over the contract and all that it reaches.
#[derive(Drop)]
pub struct Cones {
    /// The scheduled events that each counts.
    pub counts: Vec<u64>,
    /// What each weighs: the sum, over its cone, of the scheduled events that are counted and one.
    pub weights: Vec<u64>,
    /// What the evaluation of each reads.
    pub reads: Vec<Reads>,
}

/// What is kept of the contracts, which have an order. NoMemory where memory runs out.
pub fn all_cones(alloc: Global, contracts: &Contracts, order: &[u32]) -> Result<Cones, NoMemory>
    requires ordered { order_of contracts.now.children ≡ Ok order.now }
    requires children { All (All (λ child. child < length contracts.now.children)) contracts.now.children }
    requires few { length contracts.now.children ≤ MOST_CONTRACTS }
    requires planned { HavePlans contracts.now.terms contracts.now.plans }
    ensures { IfOk result (λ cones. AreCones contracts.now cones.counts.items cones.weights.items cones.reads.items) }
{
    let counts = scheduled_counts(alloc, contracts)?;
    let cones = each_cone(alloc, contracts, order)?;
    let weights = weights(alloc, &counts, &cones)?;
    let reads = all_reads(alloc, contracts, &cones)?;
    Ok(Cones {
        counts,
        weights,
        reads,
    })
}

/// The cone of each contract: the contract and all that it reaches, ascending. It takes time in proportion to the sizes of
/// the children's cones, and memory in proportion to the cones.
fn each_cone(alloc: Global, contracts: &Contracts, order: &[u32]) -> Result<Vec<Vec<u32>>, NoMemory>
    requires ordered { order_of contracts.now.children ≡ Ok order.now }
    requires children { All (All (λ child. child < length contracts.now.children)) contracts.now.children }
    ensures { IfOk result (λ cones. map (λ c. c.items) cones.items ≡ map (cone_of contracts.now) (numbers_of contracts.now)) }
{
    let mut cones = no_cones(alloc, contracts.children.len())?;
    for contract in order {
        let cone = cone_over(
            alloc,
            &contracts.children[*contract as usize],
            *contract,
            &cones,
        )?;
        cones[*contract as usize] = cone;
    }
    Ok(cones)
}

/// So many empty lists.
fn no_cones(alloc: Global, count: usize) -> Result<Vec<Vec<u32>>, NoMemory>
    ensures { IfOk result (λ cones. map (λ c. c.items) cones.items ≡ replicate count []) }
{
    let mut cones = Vec::with_capacity(alloc, count)?;
    for _contract in 0..count {
        cones.push(Vec::new(alloc))?;
    }
    Ok(cones)
}

/// The cone of a contract over those of its children, each taken once.
fn cone_over(
    alloc: Global,
    children: &[u32],
    contract: u32,
    cones: &[Vec<u32>],
) -> Result<Vec<u32>, NoMemory>
    requires children { All (λ child. child < length cones.now) children.now }
    ensures { IfOk result (λ cone. cone.items
        ≡ ascending (contract ∷ flat_map (λ child. get_or (map (λ c. c.items) cones.now) child []) children.now)) }
{
    if children.is_empty() {
        return alone(alloc, contract);
    }
    let distinct = distinct(alloc, children)?;
    joined_cones(alloc, &distinct, contract, cones)
}

/// The cone of a contract without children.
fn alone(alloc: Global, contract: u32) -> Result<Vec<u32>, NoMemory>
    ensures { IfOk result (λ cone. cone.items ≡ contract ∷ []) }
{
    Ok(vec![in alloc; contract]?)
}

/// The numbers of a list that stays, ascending, each once.
fn distinct(alloc: Global, numbers: &[u32]) -> Result<Vec<u32>, NoMemory>
    ensures { IfOk result (λ distinct. distinct.items ≡ ascending numbers.now) }
{
    let mut distinct = Vec::new(alloc);
    distinct.extend_from_slice(numbers)?;
    Ok(ascending(distinct))
}

/// A contract and the cones of others, ascending. What was reached is marked, so that it is kept once.
fn joined_cones(
    alloc: Global,
    children: &[u32],
    contract: u32,
    cones: &[Vec<u32>],
) -> Result<Vec<u32>, NoMemory>
    requires children { All (λ child. child < length cones.now) children.now }
    ensures { IfOk result (λ cone. cone.items
        ≡ ascending (contract ∷ flat_map (λ child. get_or (map (λ c. c.items) cones.now) child []) children.now)) }
{
    let mut seen = vec![in alloc; false; cones.len()]?;
    let mut reached = Vec::new(alloc);
    reached.push(contract)?;
    for child in children {
        reach(&mut seen, &mut reached, &cones[*child as usize])?;
    }
    Ok(ascending(reached))
}

/// Puts the numbers of a cone behind those that were reached, but for those that are marked as reached; the others are marked.
fn reach(seen: &mut Vec<bool>, reached: &mut Vec<u32>, cone: &[u32]) -> Result<(), NoMemory>
    requires seen { AreSeen seen.old.items reached.old.items }
    ensures seen { IfOk result (λ _. AreSeen seen.new.items reached.new.items) }
    ensures reached { IfOk result (λ _. HaveSame reached.new.items (reached.old.items ++ cone.now)) }
{
    for one in cone {
        if *one as usize >= seen.len() {
            reached.push(*one)?;
        } else if !seen[*one as usize] {
            reached.push(*one)?;
            seen[*one as usize] = true;
        }
    }
    Ok(())
}

/// The numbers of a list, ascending, each once.
fn ascending(mut numbers: Vec<u32>) -> Vec<u32>
    ensures { result.items ≡ ascending numbers.items }
{
    numbers.sort_unstable();
    numbers.dedup();
    numbers
}

/// What each contract weighs, by its cone.
fn weights(alloc: Global, counts: &[u64], cones: &[Vec<u32>]) -> Result<Vec<u64>, NoMemory>
    requires cones { All (λ cone. All (λ c. c < length counts.now) cone.items) cones.now }
    requires few { All (λ count. count ≤ most_counted) counts.now }
    requires many { All (λ cone. length cone.items ≤ MOST_CONTRACTS) cones.now }
    ensures sums { IfOk result (λ weights. weights.items
        ≡ map (λ cone. sum_by (λ c. slice_index counts.now c + 1) cone) (map (λ c. c.items) cones.now)) }
    ensures light { IfOk result (λ weights. All (λ weight. weight ≤ most_weight) weights.items) }
{
    let mut weights = Vec::with_capacity(alloc, cones.len())?;
    for cone in cones {
        weights.push(weight_over(counts, cone))?;
    }
    Ok(weights)
}

/// The sum over contracts of what each counts and one.
fn weight_over(counts: &[u64], contracts: &[u32]) -> u64
    requires contracts { All (λ c. c < length counts.now) contracts.now }
    requires few { All (λ count. count ≤ most_counted) counts.now }
    requires many { length contracts.now ≤ MOST_CONTRACTS }
    ensures sum { result ≡ sum_by (λ c. slice_index counts.now c + 1) contracts.now }
    ensures light { result ≤ most_weight }
{
    let mut sum = 0;
    for contract in contracts {
        sum += counts[*contract as usize] + 1;
    }
    sum
}

/// What the evaluation of each contract reads, by its cone.
fn all_reads(
    alloc: Global,
    contracts: &Contracts,
    cones: &[Vec<u32>],
) -> Result<Vec<Reads>, NoMemory>
    ensures { IfOk result (λ reads. reads.items ≡ map (reads_over contracts.now) (map (λ c. c.items) cones.now)) }
{
    let mut reads = Vec::with_capacity(alloc, cones.len())?;
    for cone in cones {
        let read = reads_over(alloc, contracts, cone)?;
        reads.push(read)?;
    }
    Ok(reads)
}

/// What contracts read by their terms, and whose events.
fn reads_over(alloc: Global, contracts: &Contracts, cone: &[u32]) -> Result<Reads, NoMemory>
    ensures { IfOk result (λ reads. reads ≡ reads_over contracts.now cone.now) }
{
    let mut codes = Vec::new(alloc);
    let mut observed = Vec::new(alloc);
    for contract in cone {
        if let Some(terms) = contracts.terms_at(*contract) {
            add_codes(terms, &mut codes)?;
            observed.push(observed_as(&terms.common))?;
        }
    }
    Ok(Reads {
        codes: ascending(codes),
        contracts: ascending(observed),
    })
}

/// The contract whose observed events are a contract's: a shadow has its underlying's.
fn observed_as(common: &Common) -> u32
    ensures { result ≡ observed_as common.now }
{
    common.underlying.unwrap_or(common.contract)
}
