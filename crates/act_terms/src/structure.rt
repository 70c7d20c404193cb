//! The structure of a contract: the elements of its `contractStructure`, each a reference.
ghost use Rattle.std.specs.Prelude.{◌≡◌, ◌≢◌, Ok, Err, IfOk, IfErr, codes, map, option_map};
ghost use Rattle.act_json.specs.Tree.{data_in};
ghost use Rattle.act_json.specs.Fields.{field_of};
ghost use Rattle.act_json.specs.Tree.{object_of};
ghost use Rattle.act_json.specs.Results.{result_map};
ghost use Rattle.act_terms.specs.Fields.{choice_field};
ghost use Rattle.act_terms.specs.Reference.{target_of, to_contract};
ghost use Rattle.act_terms.specs.Structure.{choice_or_refusal, contract_inside, contract_named, contract_text, has_structure, inner_object, market_named, market_text, reference_of, reference_within, references_from, references_of, referred_of, structure_of, text_or_none};

use crate::choices::{Choice, choice_within};
use crate::fault::{TermCause, TermsFault, refused};
use crate::reference::{Reference, ReferenceType, Referred};
use act_json::{JsonFault, Object, member, text_within};
use act_model::{ContractType, Names, is_name};
use act_num::NoMemory;
use json::Value;
use std::alloc::Global;

/// The references of a contract of a type, in the order of its structure. Of a type that doesn't use it nothing is read.
#[tactic(auto, unfolding(crate::specs::Structure::references_of))]
pub(crate) fn read_references(
    alloc: Global,
    contract_type: ContractType,
    contract: &Object,
    names: &mut Names,
) -> Result<Vec<Reference>, TermsFault>
    ensures read { IfOk result (λ references.
        references_of contract_type names.old (object_of contract.now) ≡ Ok (references.items, names.new)) }
    ensures refused { IfErr result (λ fault. fault ≢ TermsFault.NoMemory
        → references_of contract_type names.old (object_of contract.now) ≡ Err fault) }
{
    if has_structure(contract_type) {
        read_structure(alloc, contract, names)
    } else {
        Ok(Vec::new(alloc))
    }
}

/// Whether contracts of a type have a structure.
pub(crate) fn has_structure(contract_type: ContractType) -> bool
    ensures { result ≡ has_structure contract_type }
{
    match contract_type {
        ContractType::SWAPS | ContractType::CAPFL | ContractType::OPTNS | ContractType::FUTUR =>
            true,
        ContractType::CEG | ContractType::CEC => true,
        _ => false,
    }
}

/// The references of a structure, which has to be given and to be a list.
#[tactic(auto, using(crate::proofs::Elements::listed_again), unfolding(crate::specs::Structure::structure_of, crate::specs::Structure::elements_of))]
fn read_structure(
    alloc: Global,
    contract: &Object,
    names: &mut Names,
) -> Result<Vec<Reference>, TermsFault>
    ensures read { IfOk result (λ references. structure_of names.old (object_of contract.now) ≡ Ok (references.items, names.new)) }
    ensures refused { IfErr result (λ fault. fault ≢ TermsFault.NoMemory
        → structure_of names.old (object_of contract.now) ≡ Err fault) }
{
    match contract.get("contractStructure") {
        Some(Value::Array(elements)) => read_elements(alloc, elements.as_slice(), names),
        None | Some(Value::Null) => Err(refused(TermCause::MissingTerm, "contractStructure")),
        Some(Value::String(text)) if text.is_empty() => {
            Err(refused(TermCause::MissingTerm, "contractStructure"))
        }
        Some(_) => Err(refused(TermCause::WrongShape, "contractStructure")),
    }
}

/// The references that elements are, in their order.
fn read_elements(
    alloc: Global,
    elements: &[Value],
    names: &mut Names,
) -> Result<Vec<Reference>, TermsFault>
    ensures read { IfOk result (λ references. references_from names.old (map data_in elements.now) ≡ Ok (references.items, names.new)) }
    ensures refused { IfErr result (λ fault. fault ≢ TermsFault.NoMemory
        → references_from names.old (map data_in elements.now) ≡ Err fault) }
{
    let mut references = Vec::with_capacity(alloc, elements.len())?;
    for element in elements {
        let reference = read_reference(alloc, element, names)?;
        references.push(reference)?;
    }
    Ok(references)
}

/// The reference that an element is.
#[tactic(auto, unfolding(crate::specs::Structure::reference_of))]
fn read_reference(
    alloc: Global,
    element: &Value,
    names: &mut Names,
) -> Result<Reference, TermsFault>
    ensures read { IfOk result (λ reference. reference_of names.old (data_in element.now) ≡ Ok (reference, names.new)) }
    ensures refused { IfErr result (λ fault. fault ≢ TermsFault.NoMemory
        → reference_of names.old (data_in element.now) ≡ Err fault) }
{
    if Object::of(element).is_none() {
        return Err(refused(TermCause::WrongShape, "contractStructure"));
    }
    reference_within(alloc, element, names)
}

/// The reference that the members of an element make.
#[tactic(auto, unfolding(crate::specs::Structure::reference_within))]
fn reference_within(
    alloc: Global,
    element: &Value,
    names: &mut Names,
) -> Result<Reference, TermsFault>
    ensures read { IfOk result (λ reference. reference_within names.old (data_in element.now) ≡ Ok (reference, names.new)) }
    ensures refused { IfErr result (λ fault. fault ≢ TermsFault.NoMemory
        → reference_within names.old (data_in element.now) ≡ Err fault) }
{
    let reference_type = chosen_in(element, "referenceType")?;
    let role = chosen_in(element, "referenceRole")?;
    let object = read_referred(alloc, reference_type, element, names)?;
    Ok(Reference { role, object })
}

/// A choice that a member of an element has to give.
fn chosen_in<T: Choice>(element: &Value, name: &str) -> Result<T, TermsFault>
    ensures { result ≡ choice_or_refusal (choice_field T.named name.now (data_in element.now)) }
{
    match choice_within(element, name) {
        Ok(Some(choice)) => Ok(choice),
        Ok(None) | Err(_) => Err(refused(TermCause::BadValue, "contractStructure")),
    }
}

/// What an element of that type refers to.
#[tactic(auto, unfolding(crate::specs::Structure::referred_of))]
fn read_referred(
    alloc: Global,
    reference_type: ReferenceType,
    element: &Value,
    names: &mut Names,
) -> Result<Referred, TermsFault>
    ensures read { IfOk result (λ referred.
        referred_of reference_type names.old (data_in element.now) ≡ Ok (target_of referred, names.new)) }
    ensures refused { IfErr result (λ fault. fault ≢ TermsFault.NoMemory
        → referred_of reference_type names.old (data_in element.now) ≡ Err fault) }
{
    match reference_type {
        ReferenceType::CNT => contract_inside(alloc, element),
        ReferenceType::CID => contract_named(alloc, element),
        ReferenceType::MOC => market_named(element, names),
    }
}

/// A contract that stands in the element.
#[tactic(auto, unfolding(crate::specs::Structure::contract_inside))]
fn contract_inside(alloc: Global, element: &Value) -> Result<Referred, TermsFault>
    ensures read { IfOk result (λ referred. contract_inside (data_in element.now) ≡ Ok (target_of referred)) }
    ensures refused { IfErr result (λ fault. fault ≢ TermsFault.NoMemory → contract_inside (data_in element.now) ≡ Err fault) }
{
    match inner_object(element) {
        Some(inner) => Ok(to_contract(alloc, own_name(inner))?),
        None => Err(refused(TermCause::WrongShape, "contractStructure")),
    }
}

/// The text that a contract gives as its name, or none.
fn own_name<'a>(contract: &Value<'a>) -> &'a str
    ensures { result.now ≡ text_or_none (field_of (codes "contractID") (data_in contract.now)) }
{
    match text_within(contract, "contractID") {
        Ok(Some(name)) => name,
        Ok(None) | Err(_) => "",
    }
}

/// A contract of that name.
fn to_contract(alloc: Global, name: &str) -> Result<Referred, NoMemory>
    ensures { IfOk result (λ referred. target_of referred ≡ to_contract name.now) }
{
    Ok(Referred::Contract(String::from_str(alloc, name)?))
}

/// A contract that the element names.
#[tactic(auto, unfolding(crate::specs::Structure::contract_named))]
fn contract_named(alloc: Global, element: &Value) -> Result<Referred, TermsFault>
    ensures read { IfOk result (λ referred. contract_named (data_in element.now) ≡ Ok (target_of referred)) }
    ensures refused { IfErr result (λ fault. fault ≢ TermsFault.NoMemory → contract_named (data_in element.now) ≡ Err fault) }
{
    match contract_text(element) {
        Ok(Some(name)) if is_name(name) => Ok(to_contract(alloc, name)?),
        Ok(Some(_)) => Err(refused(TermCause::BadName, "contractStructure")),
        Ok(None) | Err(_) => Err(refused(TermCause::WrongShape, "contractStructure")),
    }
}

/// The market object that the element names.
#[tactic(auto, unfolding(crate::specs::Structure::market_named))]
fn market_named(element: &Value, names: &mut Names) -> Result<Referred, TermsFault>
    ensures read { IfOk result (λ referred. market_named names.old (data_in element.now) ≡ Ok (target_of referred, names.new)) }
    ensures refused { IfErr result (λ fault. fault ≢ TermsFault.NoMemory
        → market_named names.old (data_in element.now) ≡ Err fault) }
{
    match market_text(element) {
        Ok(Some(code)) if is_name(code) => Ok(Referred::Market(names.intern_code(code)?)),
        Ok(Some(_)) => Err(refused(TermCause::BadName, "contractStructure")),
        Ok(None) | Err(_) => Err(refused(TermCause::WrongShape, "contractStructure")),
    }
}

/// The text that names a contract.
#[tactic(auto, unfolding(crate::specs::Structure::contract_text))]
fn contract_text<'a>(element: &Value<'a>) -> Result<Option<&'a str>, JsonFault>
    ensures { result_map (option_map (λ text. text.now)) result ≡ contract_text (data_in element.now) }
{
    match inner_object(element) {
        Some(inner) => match text_within(inner, "contractIdentifier") {
            Ok(None) => text_within(inner, "contractID"),
            found => found,
        },
        None => text_within(element, "object"),
    }
}

/// The text that names a market object.
#[tactic(auto, unfolding(crate::specs::Structure::market_text))]
fn market_text<'a>(element: &Value<'a>) -> Result<Option<&'a str>, JsonFault>
    ensures { result_map (option_map (λ text. text.now)) result ≡ market_text (data_in element.now) }
{
    match inner_object(element) {
        Some(inner) => text_within(inner, "marketObjectCode"),
        None => text_within(element, "object"),
    }
}

/// The member `object` of an element, where it is an object itself.
pub(crate) fn inner_object<'v, 'a>(element: &'v Value<'a>) -> Option<&'v Value<'a>>
    ensures { option_map (λ inner. data_in inner.now) result ≡ inner_object (data_in element.now) }
{
    match member(element, "object") {
        Some(inner) if Object::of(inner).is_some() => Some(inner),
        _ => None,
    }
}
