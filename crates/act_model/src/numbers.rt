//! The numbers of rows, and the level that they share with other rows.
ghost use Rattle.std.specs.Prelude.{◌≡◌, true, IfSome};
ghost use Rattle.act_model.specs.Chunk.{level_of, numbers_in, numbers_of, printed_level, printed_numbers};

use crate::run::RowHead;
use crate::state::State;
use act_num::Fixed;

/// The notional, the rate, the fee accrued and the base of interest of a row, in units of 10^-9, and its currency, which stay over
/// many rows. Where its numbers are kept elsewhere, they are 0 here.
#[derive(Clone, Copy)]
pub(crate) struct Level {
    pub(crate) nt: i64,
    pub(crate) ipnr: i64,
    pub(crate) feac: i64,
    pub(crate) ipcb: i64,
    pub(crate) currency: u32,
}

// A level takes 40 bytes.
const _: () = prove!(size_of::<Level>() <= 40);

impl Level {
    /// Whether both are the same. All is compared, without a branch for each part.
    #[inline(always)]
    pub(crate) fn is(&self, other: &Level) -> bool
        ensures { result ≡ true → self.now ≡ other.now }
    {
        self.is_printed_as(other) & (self.feac == other.feac) & (self.ipcb == other.ipcb)
    }

    /// Whether what is printed of both is the same.
    #[inline(always)]
    pub(crate) fn is_printed_as(&self, other: &Level) -> bool
        ensures { result ≡ true → printed_level self.now ≡ printed_level other.now }
    {
        (self.nt == other.nt) & (self.ipnr == other.ipnr) & (self.currency == other.currency)
    }
}

/// The numbers of a row that mostly fit 64 bits: those that are printed, and what interest and fees go by.
#[derive(Clone, Copy)]
pub(crate) struct Numbers {
    pub(crate) payoff: Fixed,
    pub(crate) nt: Fixed,
    pub(crate) ipnr: Fixed,
    pub(crate) ipac: Fixed,
    pub(crate) feac: Fixed,
    pub(crate) ipcb: Fixed,
}

impl Numbers {
    /// Those of a row.
    pub(crate) fn of(head: &RowHead, state: &State) -> Numbers
        ensures { result ≡ numbers_of head.now state.now }
    {
        Numbers {
            payoff: head.payoff,
            nt: state.nt,
            ipnr: state.ipnr,
            ipac: state.ipac,
            feac: state.feac,
            ipcb: state.ipcb,
        }
    }

    /// Whether what is printed of both is the same.
    pub(crate) fn are_printed_as(&self, other: &Numbers) -> bool
        ensures { result ≡ true → printed_numbers self.now ≡ printed_numbers other.now }
    {
        (self.payoff == other.payoff)
            & (self.nt == other.nt)
            & (self.ipnr == other.ipnr)
            & (self.ipac == other.ipac)
    }
}

/// The same numbers, where each fits 64 bits, in units of 10^-9.
#[derive(Clone, Copy)]
pub(crate) struct Short {
    pub(crate) payoff: i64,
    pub(crate) nt: i64,
    pub(crate) ipnr: i64,
    pub(crate) ipac: i64,
    pub(crate) feac: i64,
    pub(crate) ipcb: i64,
}

impl Short {
    /// Those of longer numbers that are kept elsewhere.
    pub(crate) const NONE: Short = Short {
        payoff: 0,
        nt: 0,
        ipnr: 0,
        ipac: 0,
        feac: 0,
        ipcb: 0,
    };

    /// Those of a row, where each fits.
    #[inline(always)]
    pub(crate) fn of(head: &RowHead, state: &State) -> Option<Short>
        ensures { IfSome result (λ short. numbers_in short ≡ numbers_of head.now state.now) }
    {
        Some(Short {
            payoff: shortened(head.payoff)?,
            nt: shortened(state.nt)?,
            ipnr: shortened(state.ipnr)?,
            ipac: shortened(state.ipac)?,
            feac: shortened(state.feac)?,
            ipcb: shortened(state.ipcb)?,
        })
    }

    /// Their level, with a currency.
    #[inline(always)]
    pub(crate) fn level(&self, currency: u32) -> Level
        ensures { result ≡ level_of self.now currency }
    {
        Level {
            nt: self.nt,
            ipnr: self.ipnr,
            feac: self.feac,
            ipcb: self.ipcb,
            currency,
        }
    }

    /// The numbers themselves.
    #[inline(always)]
    pub(crate) fn numbers(&self) -> Numbers
        ensures { result ≡ numbers_in self.now }
    {
        Numbers {
            payoff: lengthened(self.payoff),
            nt: lengthened(self.nt),
            ipnr: lengthened(self.ipnr),
            ipac: lengthened(self.ipac),
            feac: lengthened(self.feac),
            ipcb: lengthened(self.ipcb),
        }
    }
}

/// A number in 64 bits, where it fits.
#[inline(always)]
fn shortened(number: Fixed) -> Option<i64>
    ensures { IfSome result (λ short. short ≡ number) }
{
    i64::try_from(number.units()).ok()
}

/// The number of so many units of 10^-9.
#[inline(always)]
fn lengthened(units: i64) -> Fixed
    ensures { result ≡ units }
{
    match Fixed::from_units(i128::from(units)) {
        Some(number) => number,
        None => unreachable!(),
    }
}
