//! The codes that a contract reads by its terms.
ghost use Rattle.std.specs.Prelude.{◌≡◌, ◌++◌, OnOk};
ghost use Rattle.std.specs.List.{filter_map};
ghost use Rattle.act_profile.specs.Contract.{factor_of};
ghost use Rattle.act_profile.specs.Credit.{market_codes};
ghost use Rattle.act_profile.specs.Reads.{codes_of, given_code, kind_codes, loan_codes, scaling_codes};

use act_model::{Ceg, Common, Covered, GuaranteedExposure, Kind, Loan, Terms};
use act_num::NoMemory;

/// Adds the codes of a contract: that of its settlement factor, and those of its kind.
pub(crate) fn add_codes(terms: &Terms, codes: &mut Vec<u32>) -> Result<(), NoMemory>
    ensures { OnOk result (codes.new.items ≡ codes.old.items ++ codes_of terms.now) }
{
    add_given(factor_of(&terms.common, &terms.kind), codes)?;
    add_kind_codes(&terms.kind, codes)
}

/// The code of a contract's settlement factor, where it has one.
fn factor_of(common: &Common, kind: &Kind) -> Option<u32>
    ensures { result ≡ factor_of common.now kind.now }
{
    match kind {
        Kind::FXOUT(_) => None,
        _ => common.factor,
    }
}

/// Adds a code, where it is given.
fn add_given(code: Option<u32>, codes: &mut Vec<u32>) -> Result<(), NoMemory>
    ensures { OnOk result (codes.new.items ≡ codes.old.items ++ given_code code) }
{
    if let Some(code) = code {
        codes.push(code)?;
    }
    Ok(())
}

/// Adds the codes of a kind.
fn add_kind_codes(kind: &Kind, codes: &mut Vec<u32>) -> Result<(), NoMemory>
    ensures { OnOk result (codes.new.items ≡ codes.old.items ++ kind_codes kind.now) }
{
    match kind {
        Kind::PAM(pam) => add_loan_codes(&pam.loan, codes),
        Kind::LAM(lam) => add_loan_codes(&lam.loan, codes),
        Kind::NAM(nam) => add_loan_codes(&nam.loan, codes),
        Kind::ANN(ann) => add_loan_codes(&ann.loan, codes),
        Kind::STK(_) | Kind::SWAPS(_) | Kind::CAPFL(_) => Ok(()),
        Kind::FXOUT(fxout) => add_given(fxout.pair, codes),
        Kind::SWPPV(swppv) => add_given(swppv.rate_reset.market_object_code_of_rate_reset, codes),
        Kind::OPTNS(optns) => add_given(Some(optns.underlying), codes),
        Kind::FUTUR(futur) => add_given(Some(futur.underlying), codes),
        Kind::CEG(ceg) => add_market_codes(ceg, codes),
        Kind::CEC(cec) => {
            add_market_codes(&cec.guarantee, codes)?;
            codes.extend_from_slice(&cec.covering)?;
            Ok(())
        }
    }
}

/// Adds the codes of a loan: those of its resets and its scaling.
fn add_loan_codes(loan: &Loan, codes: &mut Vec<u32>) -> Result<(), NoMemory>
    ensures { OnOk result (codes.new.items ≡ codes.old.items ++ loan_codes loan.now) }
{
    add_given(loan.rate_reset.market_object_code_of_rate_reset, codes)?;
    add_scaling_codes(loan, codes)
}

/// Adds the code of a loan's scaling, where something is scaled.
fn add_scaling_codes(loan: &Loan, codes: &mut Vec<u32>) -> Result<(), NoMemory>
    ensures { OnOk result (codes.new.items ≡ codes.old.items ++ scaling_codes loan.now) }
{
    let effect = loan.scaling.scaling_effect;
    if effect.interest || effect.notional {
        add_given(loan.scaling.market_object_code_of_scaling_index, codes)
    } else {
        Ok(())
    }
}

/// Adds the market objects of what a guarantee covers, where it covers market values.
fn add_market_codes(guarantee: &Ceg, codes: &mut Vec<u32>) -> Result<(), NoMemory>
    ensures { OnOk result (codes.new.items ≡ codes.old.items ++ market_codes guarantee.now) }
{
    match guarantee.guaranteed_exposure {
        GuaranteedExposure::MV => add_covered_codes(&guarantee.covered, codes),
        _ => Ok(()),
    }
}

/// Adds the market objects of covered contracts.
fn add_covered_codes(covered: &[Covered], codes: &mut Vec<u32>) -> Result<(), NoMemory>
    ensures { OnOk result (codes.new.items ≡ codes.old.items ++ filter_map (λ c. c.market) covered.now) }
{
    for one in covered {
        add_given(one.market, codes)?;
    }
    Ok(())
}
