//! The state of a contract.
use act_date::Day;
use act_num::Fixed;

/// The state of a contract between two events: the ACTUS state variables in this profile. Days are counted from
/// 1970-01-01; amounts, rates and multipliers are in units of 10^-9. Nt, Ipac, Ipac2, Feac and Ipcb bear the
/// role's sign.
#[derive(Clone, Copy, PartialEq, Eq)]
pub struct State {
    /// Sd, the day up to which the state has accrued. Each state of a run has one.
    pub sd: Option<Day>,
    /// Md, the maturity date of a loan.
    pub md: Option<Day>,
    /// Xd, the day of exercise, once there is one.
    pub xd: Option<Day>,
    /// Nt, the notional.
    pub nt: Fixed,
    /// Ipnr, the rate of interest; of SWPPV the fixed one.
    pub ipnr: Fixed,
    /// Ipac, the interest accrued.
    pub ipac: Fixed,
    /// Ipnr2, the rate of SWPPV that is reset.
    pub ipnr2: Fixed,
    /// Ipac2, the interest accrued at that rate.
    pub ipac2: Fixed,
    /// Feac, the fee accrued.
    pub feac: Fixed,
    /// Nsc, the multiplier of payments of principal.
    pub nsc: Fixed,
    /// Isc, the multiplier of interest payments.
    pub isc: Fixed,
    /// Ipcb, the base that interest of amortizing loans is computed on.
    pub ipcb: Fixed,
    /// Prnxt, the amount of the next redemption.
    pub prnxt: Fixed,
    /// Xa, the amount of exercise; of a loan the last prepayment.
    pub xa: Fixed,
}
