//! The terms of a LAM, a NAM or an ANN as a loan's.
ghost use Rattle.std.specs.Prelude.{◌≡◌, true, Some, Ok, IfOk};
ghost use Rattle.act_amort.specs.Kinds.{amortizes};
ghost use Rattle.act_model.specs.Kind.{type_of};
ghost use Rattle.act_model.specs.declared.terms.Kind.TheVariants as kinds;
ghost use Rattle.act_profile.specs.Built.{CyclesLeadOn, IsBuilt, LamIsBuilt};
ghost use Rattle.act_profile.specs.LoanTerms.{loan_terms_of, loan_terms_or_fault};
ghost use Rattle.act_profile.specs.Plan.{plan_of};

use crate::maturity::maturity_of;
use act_loan::LoanTerms;
use act_model::{Ann, Common, ContractType, Kind, Lam, Nam, Plan, PlanFault, Terms};

/// The terms of a LAM, a NAM or an ANN as a loan's, or why a LAM has no maturity.
pub(crate) fn loan_terms(terms: &Terms) -> Result<LoanTerms<'_>, PlanFault>
    requires kind { amortizes (type_of terms.now.kind) ≡ true }
    requires built { IsBuilt terms.now.kind }
    ensures loan { loan_terms_or_fault terms.now.common terms.now.kind ≡ Some result }
    ensures kind { IfOk result (λ loan. amortizes loan.type ≡ true) }
    ensures cycles { IfOk result (λ loan. CyclesLeadOn loan) }
{
    match &terms.kind {
        Kind::LAM(lam) => lam_terms(&terms.common, lam),
        Kind::NAM(nam) => Ok(nam_terms(&terms.common, nam)),
        Kind::ANN(ann) => Ok(ann_terms(&terms.common, ann)),
        _ => unreachable!(),
    }
}

/// The same of a contract that has a plan, and so a maturity.
#[tactic(auto, using(crate::proofs::LoanPlans::no_plan_without_terms))]
pub(crate) fn planned_terms<'a>(terms: &'a Terms, plan: &Plan) -> LoanTerms<'a>
    requires kind { amortizes (type_of terms.now.kind) ≡ true }
    requires built { IsBuilt terms.now.kind }
    requires plan { plan_of terms.now ≡ Ok plan.now }
    ensures loan { loan_terms_of terms.now.common terms.now.kind ≡ Some result }
    ensures cycles { CyclesLeadOn result }
{
    match loan_terms(terms) {
        Ok(loan) => loan,
        Err(_) => unreachable!(),
    }
}

/// The terms of a LAM, or why it has no maturity.
fn lam_terms<'a>(common: &'a Common, lam: &'a Lam) -> Result<LoanTerms<'a>, PlanFault>
    requires { LamIsBuilt lam.now }
    ensures loan { loan_terms_or_fault common.now (kinds.LAM lam.now) ≡ Some result }
    ensures kind { IfOk result (λ loan. loan.type ≡ ContractType.LAM) }
    ensures cycles { IfOk result (λ loan. CyclesLeadOn loan) }
{
    match maturity_of(lam) {
        Ok(maturity) => Ok(LoanTerms {
            kind: ContractType::LAM,
            common,
            loan: &lam.loan,
            redemption: Some(&lam.redemption),
            payment: lam.next_principal_redemption_payment,
            maturity,
        }),
        Err(fault) => Err(fault),
    }
}

/// The terms of a NAM.
fn nam_terms<'a>(common: &'a Common, nam: &'a Nam) -> LoanTerms<'a>
    ensures { loan_terms_or_fault common.now (kinds.NAM nam.now) ≡ Some (Ok result) }
{
    LoanTerms {
        kind: ContractType::NAM,
        common,
        loan: &nam.loan,
        redemption: Some(&nam.redemption),
        payment: Some(nam.next_principal_redemption_payment),
        maturity: nam.maturity_date,
    }
}

/// The terms of an ANN.
fn ann_terms<'a>(common: &'a Common, ann: &'a Ann) -> LoanTerms<'a>
    ensures { loan_terms_or_fault common.now (kinds.ANN ann.now) ≡ Some (Ok result) }
{
    LoanTerms {
        kind: ContractType::ANN,
        common,
        loan: &ann.loan,
        redemption: Some(&ann.redemption),
        payment: ann.next_principal_redemption_payment,
        maturity: ann.maturity_date,
    }
}
