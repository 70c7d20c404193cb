//! A contract of a portfolio file.
ghost use Rattle.std.specs.Prelude.{◌≡◌, ◌≢◌, Ok, Err, IfOk, IfErr, codes, true, false, option_map};
ghost use Rattle.std.specs.Str.{bytes_eq};
ghost use Rattle.act_json.specs.Tree.{data_in};
ghost use Rattle.act_json.specs.Tree.{object_of};
ghost use Rattle.act_profile.specs.Built.{IsBuilt};
ghost use Rattle.act_model.specs.Name.{is_name};
ghost use Rattle.act_json.specs.Results.{result_map};
ghost use Rattle.act_terms.specs.Contract.{contract_of, contract_type, kind_of, named_terms_of, terms_of, type_given};
ghost use Rattle.act_terms.specs.Named.{Grow, IsNamedIn};

use crate::common::read_common;
use crate::credit::{read_cec, read_ceg};
use crate::currencies::contract_id;
use crate::exchange::read_fxout;
use crate::exercise::{read_futur, read_optns};
use crate::fault::{TermCause, TermsFault, refused};
use crate::fields::needed;
use crate::loan::read_pam;
use crate::redemption::{read_ann, read_lam, read_nam};
use crate::reference::Reference;
use crate::structure::read_references;
use crate::swap::{read_capfl, read_swaps, read_swppv};
use act_json::{JsonFault, Object, text_within};
use act_model::{ContractType, Kind, Names, Stk, Terms};
use json::Value;
use std::alloc::Global;
use std::marker::Model;

/// A contract's name, its terms and what it refers to.
#[derive(Drop)]
pub struct NamedTerms {
    /// The name: 1 to 64 printable ASCII characters without space, and no star alone.
    pub id: String,
    /// The terms. Days count from 1970-01-01, and decimals are in units of 10^-9. What the references bind in them, as an
    /// option's underlying or a swap's legs, is 0 or empty.
    pub terms: Terms,
    /// What the contract refers to, in the order of its structure.
    pub references: Vec<Reference>,
}

impl Model for NamedTerms {
    ghost use Rattle.std.specs.Prelude.{string_bytes};
    ghost use Rattle.act_terms.specs.Contract.{NamedTerms};

    ghost Value = { NamedTerms };

    ghost view = { λ c. record { id = string_bytes c.id; terms = c.terms; references = c.references.items } };
}

/// A contract as it was read, and the names behind it.
#[derive(Drop)]
pub struct ContractRead {
    /// The contract's name, its terms and its references.
    pub named: NamedTerms,
    /// The names of before, with the codes and currencies that it names behind them.
    pub names: Names,
}

/// The contract of that number, from its JSON object: its name, its terms, each by its name in the dictionary, and what it
/// refers to. Names that aren't terms of its kind are passed over; [`unused_names`] has them. The codes and currencies that
/// the terms and the references name have their numbers among the names, behind those of the contracts before. The
/// contract's own name isn't added.
///
/// Refused where a term is, with the first one in the order of this profile's tables: first the terms that every
/// contract has, then those of its kind; that a penalty of lost interest needs the code of the reset rate is tried
/// behind the terms that all loans have, and before those of redemption, and the structure comes behind all other terms.
/// Contracts that stand in the structure aren't read here; [`in_portfolio_order`](crate::in_portfolio_order) has them. NoMemory where memory runs
/// out. Where it isn't read, the names are gone too.
#[tactic(auto, unfolding(crate::specs::Contract::contract_of))]
pub fn read_contract(
    alloc: Global,
    contract: &Value,
    number: u32,
    mut names: Names,
) -> Result<ContractRead, TermsFault>
    ensures read { IfOk result (λ read. contract_of number names (data_in contract.now) ≡ Ok (read.named, read.names)) }
    ensures refused { IfErr result (λ fault. fault ≢ TermsFault.NoMemory
        → contract_of number names (data_in contract.now) ≡ Err fault) }
    ensures name { IfOk result (λ read. is_name read.named.id ≡ true) }
    ensures no_star { IfOk result (λ read. bytes_eq read.named.id (codes "*") ≡ false) }
    ensures built { IfOk result (λ read. IsBuilt read.named.terms.kind) }
    ensures contracts { IfOk result (λ read. read.names.contracts ≡ names.contracts) }
    ensures named { IfOk result (λ read. Grow names read.names × IsNamedIn read.names read.named) }
{
    let Some(object) = Object::of(contract) else {
        return Err(refused(TermCause::WrongShape, "-"));
    };
    let named = read_named_terms(alloc, &object, number, &mut names)?;
    Ok(ContractRead { named, names })
}

/// The name, the terms and the references of an object.
#[tactic(auto, unfolding(crate::specs::Contract::named_terms_of))]
fn read_named_terms(
    alloc: Global,
    contract: &Object,
    number: u32,
    names: &mut Names,
) -> Result<NamedTerms, TermsFault>
    ensures read { IfOk result (λ named. named_terms_of number names.old (object_of contract.now) ≡ Ok (named, names.new)) }
    ensures refused { IfErr result (λ fault. fault ≢ TermsFault.NoMemory
        → named_terms_of number names.old (object_of contract.now) ≡ Err fault) }
    ensures name { IfOk result (λ named. is_name named.id ≡ true) }
    ensures no_star { IfOk result (λ named. bytes_eq named.id (codes "*") ≡ false) }
    ensures built { IfOk result (λ named. IsBuilt named.terms.kind) }
{
    let id = contract_id(alloc, contract)?;
    let contract_type = contract_type(contract)?;
    let terms = read_terms(alloc, contract_type, contract, number, names)?;
    let references = read_references(alloc, contract_type, contract, names)?;
    Ok(NamedTerms {
        id,
        terms,
        references,
    })
}

/// The type of a contract.
#[tactic(auto, unfolding(crate::specs::Contract::contract_type))]
pub(crate) fn contract_type(contract: &Object) -> Result<ContractType, TermsFault>
    ensures { result ≡ contract_type (object_of contract.now) }
{
    type_given(contract.text("contractType"))
}

/// The type of a contract, from its object.
#[tactic(auto, unfolding(crate::specs::Contract::contract_type))]
pub(crate) fn type_of_object(contract: &Value) -> Result<ContractType, TermsFault>
    ensures { result ≡ contract_type (data_in contract.now) }
{
    type_given(text_within(contract, "contractType"))
}

/// The type that the text of a contract's type names.
fn type_given(said: Result<Option<&str>, JsonFault>) -> Result<ContractType, TermsFault>
    ensures { result ≡ type_given (result_map (option_map (λ text. text.now)) said.entry) }
{
    let text = needed("contractType", said)?;
    match ContractType::named(text) {
        Some(contract_type) => Ok(contract_type),
        None => Err(refused(TermCause::UnknownKind, "contractType")),
    }
}

/// The terms of a type: those that every contract has, and then its own.
#[tactic(auto, unfolding(crate::specs::Contract::terms_of))]
fn read_terms(
    alloc: Global,
    contract_type: ContractType,
    contract: &Object,
    number: u32,
    names: &mut Names,
) -> Result<Terms, TermsFault>
    ensures read { IfOk result (λ terms. terms_of contract_type number names.old (object_of contract.now) ≡ Ok (terms, names.new)) }
    ensures refused { IfErr result (λ fault. fault ≢ TermsFault.NoMemory
        → terms_of contract_type number names.old (object_of contract.now) ≡ Err fault) }
    ensures built { IfOk result (λ terms. IsBuilt terms.kind) }
{
    let common = read_common(alloc, contract_type, contract, number, names)?;
    let kind = read_kind(alloc, contract_type, contract, names)?;
    Ok(Terms { common, kind })
}

/// The own terms of a type.
#[tactic(auto, unfolding(crate::specs::Contract::kind_of))]
fn read_kind(
    alloc: Global,
    contract_type: ContractType,
    contract: &Object,
    names: &mut Names,
) -> Result<Kind, TermsFault>
    ensures read { IfOk result (λ kind. kind_of contract_type names.old (object_of contract.now) ≡ Ok (kind, names.new)) }
    ensures refused { IfErr result (λ fault. fault ≢ TermsFault.NoMemory
        → kind_of contract_type names.old (object_of contract.now) ≡ Err fault) }
    ensures built { IfOk result (λ kind. IsBuilt kind) }
{
    match contract_type {
        ContractType::PAM => Ok(Kind::PAM(read_pam(alloc, contract, names)?)),
        ContractType::LAM => Ok(Kind::LAM(read_lam(alloc, contract, names)?)),
        ContractType::NAM => Ok(Kind::NAM(read_nam(alloc, contract, names)?)),
        ContractType::ANN => Ok(Kind::ANN(read_ann(alloc, contract, names)?)),
        ContractType::STK => Ok(Kind::STK(Stk {})),
        ContractType::FXOUT => Ok(Kind::FXOUT(read_fxout(alloc, contract, names)?)),
        ContractType::SWPPV => Ok(Kind::SWPPV(read_swppv(alloc, contract, names)?)),
        ContractType::SWAPS => Ok(Kind::SWAPS(read_swaps(contract)?)),
        ContractType::CAPFL => Ok(Kind::CAPFL(read_capfl(contract)?)),
        ContractType::OPTNS => Ok(Kind::OPTNS(read_optns(contract)?)),
        ContractType::FUTUR => Ok(Kind::FUTUR(read_futur(contract)?)),
        ContractType::CEG => Ok(Kind::CEG(read_ceg(alloc, contract)?)),
        ContractType::CEC => Ok(Kind::CEC(read_cec(alloc, contract)?)),
    }
}
