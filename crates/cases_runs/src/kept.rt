//! What a portfolio keeps of each contract.
ghost use Rattle.std.specs.Prelude.{◌<◌, length};

use act_model::MOST_BYTES;
use act_portfolio::Portfolio;
use cases_rows::Case;
use std::alloc::Global;

/// The portfolio of a file's bytes, or None where they are refused.
pub fn portfolio(alloc: Global, bytes: &[u8]) -> Option<Portfolio> {
    if bytes.len() as u64 > MOST_BYTES {
        return None;
    }
    Portfolio::read(alloc, bytes).ok()
}

/// Tells of each contract of a portfolio, and of each shadow, its rank, its children, what it weighs, and which codes and contracts
/// it reads.
pub fn kept_told(case: &mut Case<'_>, portfolio: &Portfolio) {
    for contract in 0..portfolio.terms().len() {
        case.next(", ");
        one_told(case, portfolio, contract as u32);
    }
}

/// Tells of a contract.
fn one_told(case: &mut Case<'_>, portfolio: &Portfolio, contract: u32)
    requires { contract < length portfolio.now.contracts.terms }
{
    let reads = portfolio.reads(contract);
    case.value(portfolio.rank(contract));
    case.text(" ");
    case.value(portfolio.children(contract));
    case.text(" ");
    case.value(portfolio.weight(contract));
    case.text(" ");
    case.value(reads.codes.as_slice());
    case.text(" ");
    case.value(reads.contracts.as_slice());
}
