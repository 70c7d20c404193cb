//! The contracts of a list, each by its terms.
ghost use Rattle.std.specs.Prelude.{◌≡◌, ◌^◌, ◌<◌, ◌≤◌, [], Ok, Err, IfOk, IfErr, IfSome, length, map, zero};
ghost use Rattle.std.specs.List.{All};
ghost use Rattle.act_json.specs.Tree.{data_in};
ghost use Rattle.act_model.specs.Names.{no_names};
ghost use Rattle.act_terms.specs.Contract.{contract_of};
ghost use Rattle.act_terms.specs.Named.{Grow, IsNamedIn};
ghost use Rattle.act_refusal.specs.Known.{IsContract};
ghost use Rattle.act_refusal.specs.Steps.{contracts_from};
ghost use Rattle.act_refusal.specs.Refusal.{refusal_of, refused_terms, refusing};

use crate::fault::{PortfolioFault, refused_terms};
use act_model::Names;
use act_terms::{ContractRead, ContractValue, NamedTerms, read_contract};
use std::alloc::Global;

/// Contracts as they were read, and the names that they have.
#[derive(Drop)]
pub struct ContractsRead {
    /// The name, the terms and the references of each, in their order.
    pub named: Vec<NamedTerms>,
    /// What the terms and the references name.
    pub names: Names,
}

/// The names, the terms and the references of contracts, in their order. What the terms and the references name is numbered
/// among the names. Refused by the first term that is, with a number from 11 to 15; NoMemory where memory runs out.
pub fn read_contracts(
    alloc: Global,
    contracts: &[ContractValue],
) -> Result<ContractsRead, PortfolioFault>
    requires { length contracts.now ≤ 2 ^ 28 }
    ensures read { IfOk result (λ read.
        contracts_from zero no_names (map (λ c. data_in c.value.now) contracts.now) ≡ Ok (read.named.items, read.names)) }
    ensures refused { IfErr result (λ fault. IfSome (refusal_of fault) (λ refusal.
        contracts_from zero no_names (map (λ c. data_in c.value.now) contracts.now) ≡ Err refusal)) }
    ensures contracts { IfOk result (λ read. All IsContract read.named.items) }
    ensures unnamed { IfOk result (λ read. read.names.contracts ≡ []) }
    ensures named { IfOk result (λ read. All (IsNamedIn read.names) read.named.items) }
{
    let mut named = Vec::with_capacity(alloc, contracts.len())?;
    let mut names = Names::new(alloc);
    for (number, contract) in contracts.iter().enumerate() {
        let next = next_contract(alloc, contract, number as u32, names)?;
        names = next.names;
        named.push(next.named)?;
    }
    Ok(ContractsRead { named, names })
}

/// The contract of that number, and the names behind it.
fn next_contract(
    alloc: Global,
    contract: &ContractValue,
    number: u32,
    names: Names,
) -> Result<ContractRead, PortfolioFault>
    requires { number < 2 ^ 28 }
    ensures read { IfOk result (λ read. contract_of number names (data_in contract.now.value.now) ≡ Ok (read.named, read.names)) }
    ensures refused { IfErr result (λ fault. IfSome (refusal_of fault) (λ refusal.
        refusing (refused_terms number) (contract_of number names (data_in contract.now.value.now)) ≡ Err refusal)) }
    ensures contract { IfOk result (λ read. IsContract read.named) }
    ensures contracts { IfOk result (λ read. read.names.contracts ≡ names.contracts) }
    ensures named { IfOk result (λ read. Grow names read.names × IsNamedIn read.names read.named) }
{
    match read_contract(alloc, contract.value, number, names) {
        Ok(read) => Ok(read),
        Err(fault) => Err(refused_terms(alloc, number, fault)),
    }
}
