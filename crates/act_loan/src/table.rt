//! The table of steps of a loan.
use crate::ending::maturity_payoff;
use crate::fees::clear_fee;
use crate::interest::{clear_interest, fix_base, interest_payoff};
use crate::terms::LoanTerms;
use act_kind::{Payment, Table};
use act_model::{Event, EventType, Plan, State};
use act_num::Fixed;
use std::marker::Model;

/// The table of steps of a loan that has a plan. Contracts see its terms and the plan.
#[derive(Drop)]
pub struct LoanTable<'a> {
    terms: LoanTerms<'a>,
    plan: &'a Plan,
}

impl<'a> Model for LoanTable<'a> {
    ghost use Rattle.std.specs.Prelude.{◌≡◌};
    ghost use Rattle.act_model.specs.Run.{EventPlan};
    ghost use Rattle.act_profile.specs.LoanPlan.{parts_between};
    ghost use Rattle.act_profile.specs.LoanTerms.{LoanTerms};

    ghost Value = { LoanTerms × EventPlan };

    ghost view = { λ t. (t.terms, t.plan.now) };

    ghost invariant = { λ t. t.plan.now.periods ≡ parts_between t.terms t.plan.now.redemptions };
}

impl<'a> LoanTable<'a> {
    ghost use Rattle.std.specs.Prelude.{◌≡◌};
    ghost use Rattle.act_profile.specs.LoanPlan.{parts_between};

    /// The table of a loan's terms and its plan.
    pub fn new(terms: LoanTerms<'a>, plan: &'a Plan) -> LoanTable<'a>
        requires { plan.now.periods ≡ parts_between terms plan.now.redemptions }
        ensures { result ≡ (terms.entry, plan.now) }
    {
        LoanTable { terms, plan }
    }
}

impl Table for LoanTable<'_> {
    ghost use Rattle.act_profile.specs.Loan.{before_event, loan_line};

    ghost line = { λ t event. loan_line t.0 t.1 event };

    ghost accrual = { λ t event state. before_event t.0 event.kind event.calc state };

    fn payment(&self, event: &Event) -> Payment {
        match event.kind {
            EventType::IED
            | EventType::PR
            | EventType::PP
            | EventType::FP
            | EventType::PRD
            | EventType::TD
            | EventType::IP
            | EventType::MD => Payment::Amount,
            EventType::PY => self.terms.penalty_payment(event.calc),
            _ => Payment::Nothing,
        }
    }

    fn change_code(&self, event: &Event) -> Option<u32> {
        match event.kind {
            EventType::RR => self.terms.loan.rate_reset.market_object_code_of_rate_reset,
            EventType::SC => self.terms.loan.scaling.market_object_code_of_scaling_index,
            _ => None,
        }
    }

    fn accrue(&self, event: &Event, state: &mut State) -> Option<()> {
        self.terms.accrue_before(event.kind, event.calc, state)
    }

    fn payoff(&self, event: &Event, value: Option<Fixed>, state: &State) -> Option<Fixed> {
        match event.kind {
            EventType::IED => self.terms.exchange_payoff(),
            EventType::PR => self.terms.redemption_payoff(state),
            EventType::PP => Some(self.terms.prepayment_payoff(event, state)),
            EventType::PY => self.terms.penalty_payoff(event.calc, value, state),
            EventType::FP => self.terms.fee_payoff(state),
            EventType::PRD => self.terms.purchase_payoff(state),
            EventType::TD => self.terms.termination_payoff(state),
            EventType::IP => interest_payoff(state),
            EventType::MD => maturity_payoff(state),
            _ => Some(Fixed::ZERO),
        }
    }

    fn change(&self, event: &Event, value: Option<Fixed>, state: &mut State) -> Option<()> {
        match event.kind {
            EventType::IED => self.terms.exchange(event.calc, state)?,
            EventType::PR => self.terms.redeem(state)?,
            EventType::PP => self.terms.prepay(event, state)?,
            EventType::FP => clear_fee(state),
            EventType::TD => self.terms.terminate(state),
            EventType::IP => clear_interest(state),
            EventType::IPCI => self.terms.capitalize(state)?,
            EventType::RRF => self.terms.reset_as_given(state)?,
            EventType::RR => self.terms.reset(value, state)?,
            EventType::PRF => self.terms.fix_payment(self.plan, event.calc, state)?,
            EventType::IPCB => fix_base(state),
            EventType::SC => self.terms.scale(value, state)?,
            EventType::MD => self.terms.repay(state),
            _ => {}
        }
        Some(())
    }
}
