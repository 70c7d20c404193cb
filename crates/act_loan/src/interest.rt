//! Payment and capitalization of interest.
ghost use Rattle.std.specs.Prelude.{◌≡◌, pos, option_map};
ghost use Rattle.act_num.specs.Number.{add_of, mul_of};
ghost use Rattle.act_profile.specs.Loan.{with_notional};
ghost use Rattle.act_profile.specs.States.{with_ipac, with_ipcb};

use crate::terms::LoanTerms;
use act_model::State;
use act_num::Fixed;

impl LoanTerms<'_> {
    /// IPCI: what has accrued becomes part of the notional.
    pub(crate) fn capitalize(&self, state: &mut State) -> Option<()>
        ensures { option_map (λ _. state.new) result
            ≡ option_map (λ nt. with_notional self.now nt (with_ipac (pos 0) state.old)) (add_of state.old.nt state.old.ipac) }
    {
        let nt = state.nt.add(state.ipac)?;
        clear_interest(state);
        self.set_notional(nt, state);
        Some(())
    }
}

/// What IP pays.
pub(crate) fn interest_payoff(state: &State) -> Option<Fixed>
    ensures { result ≡ mul_of state.now.isc state.now.ipac }
{
    state.isc.mul(state.ipac)
}

/// IP: nothing has accrued any more.
pub(crate) fn clear_interest(state: &mut State)
    ensures { state.new ≡ with_ipac (pos 0) state.old }
{
    state.ipac = Fixed::ZERO;
}

/// IPCB: the notional becomes the base of interest.
pub(crate) fn fix_base(state: &mut State)
    ensures { state.new ≡ with_ipcb state.old.nt state.old }
{
    state.ipcb = state.nt;
}
