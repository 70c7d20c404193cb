//! The terms of loans.
ghost use Rattle.std.specs.Prelude.{◌≡◌, ◌≢◌, Ok, Err, IfOk, IfErr};
ghost use Rattle.act_json.specs.Tree.{object_of};
ghost use Rattle.act_terms.specs.Loan.{loan_of, pam_of};
ghost use Rattle.act_profile.specs.Built.{LoanLeadsOn};

use crate::fault::TermsFault;
use crate::fee::read_fee;
use crate::fields::{day_after, needed, needed_day, not_negative};
use crate::interest::{read_interest, read_interest_dates};
use crate::penalty::{read_penalty, reset_code_for};
use crate::reset::read_rate_reset;
use crate::scaling::read_scaling;
use act_date::Day;
use act_json::Object;
use act_model::{Loan, Names, Pam};
use std::alloc::Global;

/// The terms of a PAM.
#[tactic(auto, unfolding(crate::specs::Loan::pam_of))]
pub(crate) fn read_pam(
    alloc: Global,
    contract: &Object,
    names: &mut Names,
) -> Result<Pam, TermsFault>
    ensures read { IfOk result (λ pam. pam_of names.old (object_of contract.now) ≡ Ok (pam, names.new)) }
    ensures refused { IfErr result (λ fault. fault ≢ TermsFault.NoMemory
        → pam_of names.old (object_of contract.now) ≡ Err fault) }
    ensures cycles { IfOk result (λ pam. LoanLeadsOn pam.loan) }
{
    let exchange = needed_day(contract, "initialExchangeDate")?;
    let maturity_date = needed(
        "maturityDate",
        day_after(exchange, contract, "maturityDate"),
    )?;
    let loan = read_loan(alloc, exchange, contract, names)?;
    Ok(Pam {
        maturity_date,
        loan,
    })
}

/// The terms that all loans have behind the maturity, of a loan of that initial exchange.
#[tactic(auto, unfolding(crate::specs::Loan::loan_of))]
pub(crate) fn read_loan(
    alloc: Global,
    exchange: Day,
    contract: &Object,
    names: &mut Names,
) -> Result<Loan, TermsFault>
    ensures read { IfOk result (λ loan. loan_of exchange names.old (object_of contract.now) ≡ Ok (loan, names.new)) }
    ensures refused { IfErr result (λ fault. fault ≢ TermsFault.NoMemory
        → loan_of exchange names.old (object_of contract.now) ≡ Err fault) }
    ensures cycles { IfOk result (λ loan. LoanLeadsOn loan) }
{
    let notional_principal = needed(
        "notionalPrincipal",
        not_negative(contract, "notionalPrincipal"),
    )?;
    let interest = read_interest(contract)?;
    let dates = read_interest_dates(contract)?;
    let rate_reset = read_rate_reset(alloc, contract, names)?;
    let fee = read_fee(contract)?;
    let scaling = read_scaling(alloc, contract, names)?;
    let penalty = read_penalty(contract)?;
    reset_code_for(
        penalty.penalty_type,
        rate_reset.market_object_code_of_rate_reset,
    )?;
    Ok(Loan {
        initial_exchange_date: exchange,
        notional_principal,
        nominal_interest_rate: interest.nominal_interest_rate,
        accrued_interest: interest.accrued_interest,
        premium_discount_at_ied: interest.premium_discount_at_ied,
        day_count_convention: interest.day_count_convention,
        cycle_anchor_date_of_interest_payment: dates.cycle_anchor_date_of_interest_payment,
        cycle_of_interest_payment: dates.cycle_of_interest_payment,
        capitalization_end_date: dates.capitalization_end_date,
        rate_reset,
        fee,
        scaling,
        penalty_type: penalty.penalty_type,
        penalty_rate: penalty.penalty_rate,
    })
}
