//! The command `check`.
ghost use Rattle.std.specs.Prelude.{◌≡◌, ℕ, ◌++◌, None, length, map, string_bytes, IfOk};
ghost use Rattle.std.specs.List.{flat_map, list_all};
ghost use Rattle.act_engine.specs.Ending.{Goes};
ghost use Rattle.act_engine.specs.Writing.{Writes};
ghost use Rattle.act_model.specs.Name.{has_form, is_graphic};
ghost use Rattle.act_model.specs.Kind.{type_of};
ghost use Rattle.act_model.specs.Kind.{type_name};
ghost use Rattle.act_top.specs.Check.{check_meaning, check_text, contract_line, contracts_text, count_line, shown_name, unused_line};
ghost use Rattle.act_top.specs.Ran.{status_told};

use crate::ran::{Aside, Ran};
use act_engine::{Failure, Halt, Status, write_line};
use act_io::{Files, Sink};
use act_job::read_portfolio;
use act_model::{Kind, Names};
use act_portfolio::Portfolio;
use act_text::contract_name;
use itoa::Buffer;
use std::alloc::Global;

/// Runs `check P`: writes how many contracts of the portfolio have a name, and each of them, with the names that they don't use.
pub(crate) fn run_check<'a, F: Files, K: Sink>(
    alloc: Global,
    files: &mut F,
    out: &mut K,
    portfolio: &'a str,
) -> Result<Ran<'a>, Halt<'a>>
    ensures gone { (rows : ℕ) → Goes (check_meaning portfolio.now) (record { world = F.world files.old; page = K.page out.old; rows = rows })
        (status_told result) None (record { world = F.world files.new; page = K.page out.new; rows = rows }) }
    ensures board { IfOk result (λ ran. ran.board ≡ None) }
{
    let portfolio = read_portfolio(alloc, files, portfolio)?;
    write_check(alloc, out, &portfolio)?;
    Ok(Ran {
        status: Status::Done,
        board: None,
        aside: Aside::Nothing,
    })
}

/// Writes how many contracts of a portfolio have a name, and each of them.
fn write_check<K: Sink>(alloc: Global, out: &mut K, portfolio: &Portfolio) -> Result<(), Failure>
    ensures { Writes (check_text portfolio.now) (K.page out.old) result (K.page out.new) }
{
    let names = portfolio.to_names()?;
    let mut line = Vec::new(alloc);
    let written = write_portfolio(out, &mut line, portfolio, &names);
    drop(names);
    written
}

/// Writes how many contracts have a name, and each of them. `line` is room for a line.
fn write_portfolio<K: Sink>(
    out: &mut K,
    line: &mut Vec<u8>,
    portfolio: &Portfolio,
    names: &Names,
) -> Result<(), Failure>
    requires names { names.now ≡ portfolio.now.names }
    ensures { Writes (check_text portfolio.now) (K.page out.old) result (K.page out.new) }
{
    write_count(out, line, portfolio.named())?;
    write_contracts(out, line, portfolio, names)
}

/// Writes how many contracts have a name.
#[tactic(auto, unfolding(crate::specs::Check::count_line))]
fn write_count<K: Sink>(out: &mut K, line: &mut Vec<u8>, count: u32) -> Result<(), Failure>
    ensures { Writes (count_line count) (K.page out.old) result (K.page out.new) }
{
    let mut digits = Buffer::new();
    let count = digits.format(count);
    write_line(out, line, b"portfolio", &[b"ok", count.as_bytes()])
}

/// Writes each contract.
fn write_contracts<K: Sink>(
    out: &mut K,
    line: &mut Vec<u8>,
    portfolio: &Portfolio,
    names: &Names,
) -> Result<(), Failure>
    requires names { names.now ≡ portfolio.now.names }
    ensures { Writes (contracts_text portfolio.now 0 portfolio.now.contracts.terms portfolio.now.names.contracts portfolio.now.unused) (K.page out.old) result (K.page out.new) }
{
    for contract in 0..portfolio.named() {
        let id = contract_name(names, contract);
        let kind = &portfolio.terms()[contract as usize].kind;
        let count = portfolio.scheduled_count(contract);
        write_contract(out, line, id, kind, count, portfolio.unused(contract))?;
    }
    Ok(())
}

/// Writes a contract: its name, its kind and its scheduled count, and below it each name that isn't used.
fn write_contract<K: Sink>(
    out: &mut K,
    line: &mut Vec<u8>,
    id: &str,
    kind: &Kind,
    count: u64,
    unused: &[String],
) -> Result<(), Failure>
    ensures { Writes (contract_line id.now (type_name (type_of kind.now)) count ++ flat_map unused_line (map string_bytes unused.now)) (K.page out.old) result (K.page out.new) }
{
    let kind = kind.contract_type().name();
    write_contract_line(out, line, id, kind.as_bytes(), count)?;
    write_unused(out, line, unused)
}

/// Writes the line of a contract: its name, its kind and its scheduled count.
#[tactic(auto, unfolding(crate::specs::Check::contract_line))]
fn write_contract_line<'a, K: Sink>(
    out: &mut K,
    line: &mut Vec<u8>,
    id: &'a str,
    kind: &'a [u8],
    count: u64,
) -> Result<(), Failure>
    ensures { Writes (contract_line id.now kind.now count) (K.page out.old) result (K.page out.new) }
{
    let mut digits = Buffer::new();
    let count = digits.format(count);
    write_line(
        out,
        line,
        b"contract",
        &[id.as_bytes(), kind, count.as_bytes()],
    )
}

/// Writes each name that isn't used.
fn write_unused<K: Sink>(out: &mut K, line: &mut Vec<u8>, names: &[String]) -> Result<(), Failure>
    ensures { Writes (flat_map unused_line (map string_bytes names.now)) (K.page out.old) result (K.page out.new) }
{
    for name in names {
        write_unused_name(out, line, name.as_bytes())?;
    }
    Ok(())
}

/// Writes a name that isn't used.
#[tactic(auto, unfolding(crate::specs::Check::unused_line))]
fn write_unused_name<K: Sink>(out: &mut K, line: &mut Vec<u8>, name: &[u8]) -> Result<(), Failure>
    ensures { Writes (unused_line name.now) (K.page out.old) result (K.page out.new) }
{
    write_line(out, line, b"unused", &[shown_name(name)])
}

/// A name of printable characters without space as it is, and any other as `?`.
fn shown_name(name: &[u8]) -> &[u8]
    ensures { result.now ≡ shown_name name.now }
{
    if is_printable(name) { name } else { b"?" }
}

/// Whether a name has printable characters without space, one at least.
#[tactic(auto, unfolding(act_model::specs::Name::has_form))]
fn is_printable(name: &[u8]) -> bool
    ensures { result ≡ has_form (length name.now) name.now }
{
    !name.is_empty() && are_graphic(name)
}

/// Whether all bytes are printable characters other than a space.
fn are_graphic(bytes: &[u8]) -> bool
    ensures { result ≡ list_all is_graphic bytes.now }
{
    bytes.iter().all(|byte| byte.is_ascii_graphic())
}
