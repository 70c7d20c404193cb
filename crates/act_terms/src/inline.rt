//! Contracts that stand in the structures of others.
ghost use Rattle.std.specs.Prelude.{[], ◌≡◌, ◌++◌, ◌<◌, IfOk, OnOk, codes, map, option_map};
ghost use Rattle.std.specs.List.{All, filter_map, list_any};
ghost use Rattle.std.specs.Option.{ForSome};
ghost use Rattle.serde_json.specs.Data.{depth};
ghost use Rattle.serde_json.specs.Find.{get};
ghost use Rattle.act_json.specs.Tree.{data_in};
ghost use Rattle.act_terms.specs.Inline.{contract_in, elements_where_listed, has_inline, has_object, in_portfolio_order, inline_contracts, is_inside, with_inline};

use crate::choices::choice_within;
use crate::contract::type_of_object;
use crate::reference::ReferenceType;
use crate::structure::{has_structure, inner_object};
use act_json::{JsonFault, member};
use act_num::NoMemory;
use json::Value;
use std::alloc::Global;

/// A contract of a file, where it stands in the file's JSON tree.
#[derive(Clone, Copy)]
pub struct ContractValue<'v, 'a> {
    /// The contract's JSON value, an object or not.
    pub value: &'v Value<'a>,
}

/// The contracts of a file in portfolio order: behind each directly those that stand in its structure, each with those that
/// stand in it.
pub fn in_portfolio_order<'v, 'a>(
    alloc: Global,
    contracts: &'v [Value<'a>],
) -> Result<Vec<ContractValue<'v, 'a>>, NoMemory>
    ensures { IfOk result (λ order. map (λ c. data_in c.value.now) order.items ≡ in_portfolio_order (map data_in contracts.now)) }
{
    let mut order = Vec::with_capacity(alloc, contracts.len())?;
    for contract in contracts {
        add_contract(contract, &mut order)?;
    }
    Ok(order)
}

/// Adds a contract, and behind it those that stand in it.
fn add_contract<'v, 'a>(
    contract: &'v Value<'a>,
    order: &mut Vec<ContractValue<'v, 'a>>,
) -> Result<(), NoMemory>
    ensures { OnOk result (map (λ c. data_in c.value.now) order.new.items
        ≡ map (λ c. data_in c.value.now) order.old.items ++ with_inline (data_in contract.now)) }
{
    order.push(ContractValue { value: contract })?;
    for element in elements(contract) {
        if let Some(inner) = contract_in(element) {
            add_contract(inner, order)?;
        }
    }
    Ok(())
}

/// The elements of a contract's structure, or none where no contract stands in them.
fn elements<'v, 'a>(contract: &'v Value<'a>) -> &'v [Value<'a>]
    ensures inner { filter_map contract_in (map data_in result.now) ≡ inline_contracts (data_in contract.now) }
    ensures lower { All (λ element. depth (data_in element) < depth (data_in contract.now)) result.now }
{
    let elements = listed(contract);
    if have_objects(elements) && has_inline(contract) {
        elements
    } else {
        no_elements()
    }
}

/// The elements of a structure that is a list.
#[tactic(auto, using(crate::proofs::Elements::listed_again))]
fn listed<'v, 'a>(contract: &'v Value<'a>) -> &'v [Value<'a>]
    ensures elements { map data_in result.now ≡ elements_where_listed (get (codes "contractStructure") (data_in contract.now)) }
    ensures lower { All (λ element. depth (data_in element) < depth (data_in contract.now)) result.now }
{
    match member(contract, "contractStructure") {
        Some(Value::Array(elements)) => elements.as_slice(),
        _ => no_elements(),
    }
}

/// No elements.
fn no_elements<'v, 'a>() -> &'v [Value<'a>]
    ensures { result.now ≡ [] }
{
    &[]
}

/// Whether an object stands in one of the elements.
fn have_objects(elements: &[Value]) -> bool
    ensures { result ≡ list_any has_object (map data_in elements.now) }
{
    elements
        .iter()
        .any(|element| inner_object(element).is_some())
}

/// Whether contracts may stand in a contract: it is of a type that has a structure.
fn has_inline(contract: &Value) -> bool
    ensures { result ≡ has_inline (data_in contract.now) }
{
    match type_of_object(contract) {
        Ok(contract_type) => has_structure(contract_type),
        Err(_) => false,
    }
}

/// The contract that stands in an element, where one does.
fn contract_in<'v, 'a>(element: &'v Value<'a>) -> Option<&'v Value<'a>>
    ensures inner { option_map (λ inner. data_in inner.now) result ≡ contract_in (data_in element.now) }
    ensures lower { ForSome result (λ inner. depth (data_in inner.now) < depth (data_in element.now)) }
{
    if is_inside(choice_within(element, "referenceType")) {
        inner_object(element)
    } else {
        None
    }
}

/// Whether a reference is to a contract that stands in its element.
fn is_inside(reference_type: Result<Option<ReferenceType>, JsonFault>) -> bool
    ensures { result ≡ is_inside reference_type }
{
    matches!(reference_type, Ok(Some(ReferenceType::CNT)))
}
