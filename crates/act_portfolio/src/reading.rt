//! Reading a portfolio file.
ghost use Rattle.std.specs.Prelude.{◌≡◌, ◌^◌, ◌≤◌, List, [], None, Ok, Err, IfOk, IfErr, IfSome, OnOk, length, map, zero};
ghost use Rattle.std.specs.List.{All};
ghost use Rattle.serde_json.specs.Data.{Data};
ghost use Rattle.act_json.specs.Tree.{data_in, json_as_is};
ghost use Rattle.act_terms.specs.Inline.{in_portfolio_order};
ghost use Rattle.act_portfolio.specs.Known.{AreChecked, IsMadeOf, checked};
ghost use Rattle.act_refusal.specs.Known.{IsContract, count_with_shadows};
ghost use Rattle.act_portfolio.specs.Fit.{first_unfit};
ghost use Rattle.act_portfolio.specs.Reading.{portfolio_in, portfolio_listed, portfolio_of};
ghost use Rattle.act_refusal.specs.Refusal.{refusal_of};

use crate::fit::references_fit;
use crate::graph::{bound_portfolio, graph_of};
use crate::portfolio::Portfolio;
use act_binding::Listing;
use act_json::{JsonFault, is_quoted, items_of, quote, read_tree};
use act_model::{MOST_BYTES, MOST_CONTRACTS, Names};
use act_refusal::{
    ContractsRead, PortfolioFault, name_contracts, read_contracts, refused, unused_lists,
    within_limit,
};
use act_terms::{ContractValue, NamedTerms, in_portfolio_order};
use json::{Scratch, Value};
use std::alloc::Global;
use std::marker::Model;

/// More contracts than a file of 64 MiB can have.
const TOO_MANY: usize = 268_435_456;

/// Contracts that were read and checked, and the names that their kinds don't use.
#[derive(Drop)]
struct Checked {
    named: Vec<NamedTerms>,
    names: Names,
    unused: Vec<Vec<String>>,
}

impl Model for Checked {
    ghost use Rattle.std.specs.Prelude.{map, string_bytes};
    ghost use Rattle.act_terms.specs.Inline.{in_portfolio_order};
    ghost use Rattle.act_portfolio.specs.Known.{CheckedContracts};

    ghost Value = { CheckedContracts };

    ghost view = { λ c. record { named = c.named.items; names = c.names; unused = map (λ u. map string_bytes u.items) c.unused.items } };
}

/// The portfolio that the bytes of a file are.
pub(crate) fn read_portfolio(alloc: Global, bytes: &[u8]) -> Result<Portfolio, PortfolioFault>
    requires size { length bytes.now ≤ MOST_BYTES }
    ensures accepted { IfOk result (λ portfolio. portfolio_of bytes.now ≡ Ok portfolio) }
    ensures refused { IfErr result (λ fault. IfSome (refusal_of fault) (λ refusal. portfolio_of bytes.now ≡ Err refusal)) }
{
    let checked = read_checked(alloc, bytes)?;
    portfolio_checked(alloc, checked)
}

/// The contracts of a file, read and checked.
fn read_checked(alloc: Global, bytes: &[u8]) -> Result<Checked, PortfolioFault>
    ensures checked { IfOk result (λ checked. IsMadeOf (portfolio_of bytes.now) checked) }
    ensures refused { IfErr result (λ fault. IfSome (refusal_of fault) (λ refusal. portfolio_of bytes.now ≡ Err refusal)) }
{
    if is_quoted(bytes) {
        return text_checked(alloc, bytes);
    }
    match quote(alloc, bytes) {
        Ok(quoted) => text_checked(alloc, &quoted),
        Err(_) => Err(PortfolioFault::NoMemory),
    }
}

/// The same of a text in which no bare number stands. Its JSON tree, which takes much memory, is dropped before any reference
/// is bound.
fn text_checked(alloc: Global, text: &[u8]) -> Result<Checked, PortfolioFault>
    ensures checked { IfOk result (λ checked. IsMadeOf (portfolio_in (json_as_is text.now)) checked) }
    ensures refused { IfErr result (λ fault. IfSome (refusal_of fault) (λ refusal. portfolio_in (json_as_is text.now) ≡ Err refusal)) }
{
    let mut scratch = Scratch::new(alloc);
    match read_tree(alloc, text, &mut scratch) {
        Ok(tree) => {
            let checked = tree_checked(alloc, &tree);
            drop(tree);
            checked
        }
        Err(JsonFault::NoMemory) => Err(PortfolioFault::NoMemory),
        Err(_) => Err(refused(alloc, 10, 0, "-")),
    }
}

/// The same of a JSON tree, which has to be a list.
fn tree_checked(alloc: Global, tree: &Value) -> Result<Checked, PortfolioFault>
    ensures checked { IfOk result (λ checked. IsMadeOf (portfolio_in (Ok (data_in tree.now))) checked) }
    ensures refused { IfErr result (λ fault. IfSome (refusal_of fault) (λ refusal. portfolio_in (Ok (data_in tree.now)) ≡ Err refusal)) }
{
    match items_of(tree) {
        Some(listed) => list_checked(alloc, listed),
        None => Err(refused(alloc, 11, 0, "-")),
    }
}

/// The same of the values of a list.
fn list_checked(alloc: Global, listed: &[Value]) -> Result<Checked, PortfolioFault>
    ensures checked { IfOk result (λ checked. IsMadeOf (portfolio_listed (in_portfolio_order (map data_in listed.now))) checked) }
    ensures refused { IfErr result (λ fault. IfSome (refusal_of fault) (λ refusal.
        portfolio_listed (in_portfolio_order (map data_in listed.now)) ≡ Err refusal)) }
{
    let contracts = in_portfolio_order(alloc, listed)?;
    contracts_checked(alloc, &contracts)
}

/// Contracts in portfolio order, read and checked.
fn contracts_checked(alloc: Global, contracts: &[ContractValue]) -> Result<Checked, PortfolioFault>
    ensures checked { IfOk result (λ checked. AreChecked (map (λ c. data_in c.value.now) contracts.now) checked) }
    ensures refused { IfErr result (λ fault. IfSome (refusal_of fault) (λ refusal.
        portfolio_listed (map (λ c. data_in c.value.now) contracts.now) ≡ Err refusal)) }
{
    if contracts.len() > TOO_MANY {
        return Err(PortfolioFault::NoMemory);
    }
    let ContractsRead { named, mut names } = read_contracts(alloc, contracts)?;
    check(alloc, &named, &mut names)?;
    let unused = unused_lists(alloc, contracts, &named)?;
    Ok(Checked {
        named,
        names,
        unused,
    })
}

/// The portfolio of contracts that were checked.
fn portfolio_checked(alloc: Global, checked: Checked) -> Result<Portfolio, PortfolioFault>
    requires { (objects : List Data) × AreChecked objects checked }
    ensures accepted { IfOk result (λ portfolio. (objects : List Data)
        → AreChecked objects checked
        → portfolio_listed objects ≡ Ok portfolio) }
    ensures refused { IfErr result (λ fault. IfSome (refusal_of fault) (λ refusal. (objects : List Data)
        → AreChecked objects checked
        → portfolio_listed objects ≡ Err refusal)) }
{
    let Checked {
        named,
        names,
        unused,
    } = checked;
    let graph = graph_of(alloc, &names, &named)?;
    bound_portfolio(alloc, names, named, graph, unused)
}

/// Nothing where there are no more contracts than there may be, no name comes twice, and the references of each fit its
/// kind. The names of the contracts are added to the names.
fn check(alloc: Global, named: &[NamedTerms], names: &mut Names) -> Result<(), PortfolioFault>
    requires contracts { All IsContract named.now }
    requires few { length named.now ≤ 2 ^ 28 }
    requires fresh { names.old.contracts ≡ [] }
    ensures checked { OnOk result (checked named.now ≡ Ok named.now) }
    ensures refused { IfErr result (λ fault. IfSome (refusal_of fault) (λ refusal. checked named.now ≡ Err refusal)) }
    ensures names { OnOk result (names.new ≡ record names.old { contracts = map (λ c. c.id) named.now }) }
    ensures few_contracts { OnOk result (count_with_shadows named.now ≤ MOST_CONTRACTS) }
    ensures fit { OnOk result (first_unfit named.now ≡ None) }
{
    within_limit(alloc, named)?;
    name_contracts(alloc, named, names)?;
    references_fit(alloc, &Listing::new(names, named), named)
}
