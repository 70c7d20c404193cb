//! Numbers written as decimal text.
ghost use Rattle.std.specs.Prelude.{◌≡◌, ◌+◌, ◌<◌, ◌≤◌, ◌++◌, ◌/◌, ◌%◌, codes, decimal, drop, length, take};
ghost use Rattle.act_num.specs.Decimal.{decimal_of, fraction_text, printed, sign_text};
ghost use Rattle.act_num.specs.Digits.{padded_digits};
ghost use Rattle.act_num.specs.Number.{InRange, one};

use crate::Fixed;
use crate::pieces::put;
use crate::rounding::ONE;
use itoa::Buffer;

/// The numbers below 100 in two digits each.
static PAIRS: [u8; 200] =
    *b"00010203040506070809101112131415161718192021222324252627282930313233343536373839404142434445464748495051525354555657585960616263646566676869707172737475767778798081828384858687888990919293949596979899";

impl Fixed {
    /// Writes the number in front of `out`, and returns how many bytes its text has, at most 41: `-` where it is
    /// negative, the whole part without leading zeros, a point and nine digits. `Fixed::parse` reads the number
    /// back from it.
    #[tactic(auto, unfolding(crate::specs::Decimal::printed))]
    pub fn write(self, out: &mut [u8; 48]) -> usize
        ensures written { take result out.new ≡ printed self }
        ensures read_back { decimal_of (take result out.new) ≡ Ok self }
        ensures rest { drop result out.new ≡ drop result out.old }
        ensures short { result ≤ 41 }
    {
        put_units(out, 0, self.units())
    }

    /// Writes the number's text, of at most 41 bytes, at a place of `out`, and returns the place behind it.
    #[tactic(auto, unfolding(crate::specs::Decimal::printed))]
    pub fn write_at(self, out: &mut [u8], at: usize) -> usize
        requires { at + 41 ≤ length out.old }
        ensures end { result ≡ at + length (printed self) }
        ensures written { take result out.new ≡ take at out.old ++ printed self }
        ensures rest { drop result out.new ≡ drop result out.old }
        ensures short { result ≤ at + 41 }
    {
        put_units(out, at, self.units())
    }
}

/// Writes the number of so many units, and returns the place behind it.
fn put_units(out: &mut [u8], at: usize, units: i128) -> usize
    requires room { at + 41 ≤ length out.old }
    requires in_range { InRange units }
    ensures end { result ≡ at + length (printed units) }
    ensures written { take result out.new ≡ take at out.old ++ printed units }
    ensures rest { drop result out.new ≡ drop result out.old }
    ensures short { result ≤ at + 41 }
{
    if units == 0 {
        put(out, at, b"0.000000000")
    } else {
        put_parts(out, at, units)
    }
}

/// Writes the sign, the whole part and the fraction, and returns the place behind them.
#[tactic(auto, using(crate::proofs::Padded::writing_steps), unfolding(crate::specs::Decimal::printed))]
fn put_parts(out: &mut [u8], at: usize, units: i128) -> usize
    requires room { at + 41 ≤ length out.old }
    requires in_range { InRange units }
    ensures end { result ≡ at + length (printed units) }
    ensures written { take result out.new ≡ take at out.old ++ printed units }
    ensures rest { drop result out.new ≡ drop result out.old }
    ensures short { result ≤ at + 41 }
{
    let end = put_sign(out, at, units);
    let (end, fraction) = put_whole(out, end, units.unsigned_abs());
    put_fraction(out, end, fraction)
}

/// Writes a minus sign where the number is negative, and returns the place behind it.
fn put_sign(out: &mut [u8], at: usize, units: i128) -> usize
    requires { at + 1 ≤ length out.old }
    ensures end { result ≡ at + length (sign_text units) }
    ensures written { take result out.new ≡ take at out.old ++ sign_text units }
    ensures rest { drop result out.new ≡ drop result out.old }
{
    if units < 0 {
        out[at] = b'-';
        at + 1
    } else {
        at
    }
}

/// Writes the whole part of so many units, and returns the place behind it and the units that are left.
fn put_whole(out: &mut [u8], at: usize, units: u128) -> (usize, u64)
    requires { at + 40 ≤ length out.old }
    ensures end { result.0 ≡ at + length (decimal (units / one)) }
    ensures written { take result.0 out.new ≡ take at out.old ++ decimal (units / one) }
    ensures rest { drop result.0 out.new ≡ drop result.0 out.old }
    ensures left { result.1 ≡ units % one }
{
    if units <= u128::from(u64::MAX) {
        let units = units as u64;
        (put_word(out, at, units / ONE), units % ONE)
    } else {
        put_wide_whole(out, at, units)
    }
}

/// Writes the number without leading zeros, and returns the place behind it.
#[inline]
fn put_word(out: &mut [u8], at: usize, number: u64) -> usize
    requires { at + 20 ≤ length out.old }
    ensures end { result ≡ at + length (decimal number) }
    ensures written { take result out.new ≡ take at out.old ++ decimal number }
    ensures rest { drop result out.new ≡ drop result out.old }
{
    if number < 10_000 {
        put_short_word(out, at, number)
    } else {
        put_long_word(out, at, number)
    }
}

/// The same, four digits at a time.
#[inline(never)]
fn put_long_word(out: &mut [u8], at: usize, number: u64) -> usize
    requires { at + 20 ≤ length out.old }
    ensures end { result ≡ at + length (decimal number) }
    ensures written { take result out.new ≡ take at out.old ++ decimal number }
    ensures rest { drop result out.new ≡ drop result out.old }
{
    if number < 10_000 {
        return put_short_word(out, at, number);
    }
    let end = put_long_word(out, at, number / 10_000);
    put_four(out, end, number % 10_000)
}

/// The same for a number below 10,000.
#[inline]
fn put_short_word(out: &mut [u8], at: usize, number: u64) -> usize
    requires room { at + 4 ≤ length out.old }
    requires short { number < 10_000 }
    ensures end { result ≡ at + length (decimal number) }
    ensures written { take result out.new ≡ take at out.old ++ decimal number }
    ensures rest { drop result out.new ≡ drop result out.old }
{
    if number < 10 {
        put_digit(out, at, number)
    } else if number < 100 {
        put_pair(out, at, number)
    } else if number < 1_000 {
        let end = put_digit(out, at, number / 100);
        put_pair(out, end, number % 100)
    } else {
        put_four(out, at, number)
    }
}

/// Writes a number of one digit, and returns the place behind it.
fn put_digit(out: &mut [u8], at: usize, number: u64) -> usize
    requires room { at + 1 ≤ length out.old }
    requires digit { number < 10 }
    ensures end { result ≡ at + 1 }
    ensures written { take result out.new ≡ take at out.old ++ padded_digits 1 number }
    ensures rest { drop result out.new ≡ drop result out.old }
{
    out[at] = b'0' + number as u8;
    at + 1
}

/// Writes a number of two digits, with a leading zero, and returns the place behind it.
fn put_pair(out: &mut [u8], at: usize, number: u64) -> usize
    requires room { at + 2 ≤ length out.old }
    requires pair { number < 100 }
    ensures end { result ≡ at + 2 }
    ensures written { take result out.new ≡ take at out.old ++ padded_digits 2 number }
    ensures rest { drop result out.new ≡ drop result out.old }
{
    let from = number as usize * 2;
    let (ten, one) = (PAIRS[from], PAIRS[from + 1]);
    out[at] = ten;
    out[at + 1] = one;
    at + 2
}

/// Writes a number of four digits, with leading zeros, and returns the place behind it.
fn put_four(out: &mut [u8], at: usize, number: u64) -> usize
    requires room { at + 4 ≤ length out.old }
    requires four { number < 10_000 }
    ensures end { result ≡ at + 4 }
    ensures written { take result out.new ≡ take at out.old ++ padded_digits 4 number }
    ensures rest { drop result out.new ≡ drop result out.old }
{
    let end = put_pair(out, at, number / 100);
    put_pair(out, end, number % 100)
}

/// The whole part of so many units, as `put_whole` writes it, where they have more than 64 bits.
#[cold]
#[inline(never)]
fn put_wide_whole(out: &mut [u8], at: usize, units: u128) -> (usize, u64)
    requires { at + 40 ≤ length out.old }
    ensures end { result.0 ≡ at + length (decimal (units / one)) }
    ensures written { take result.0 out.new ≡ take at out.old ++ decimal (units / one) }
    ensures rest { drop result.0 out.new ≡ drop result.0 out.old }
    ensures left { result.1 ≡ units % one }
{
    let one = u128::from(ONE);
    let mut digits = Buffer::new();
    let end = put(out, at, digits.format(units / one).as_bytes());
    (end, (units % one) as u64)
}

/// Writes a point and nine digits of the units behind it, and returns the place behind them.
fn put_fraction(out: &mut [u8], at: usize, units: u64) -> usize
    requires room { at + 10 ≤ length out.old }
    requires fraction { units < one }
    ensures end { result ≡ at + 10 }
    ensures written { take result out.new ≡ take at out.old ++ codes "." ++ fraction_text units }
    ensures rest { drop result out.new ≡ drop result out.old }
{
    if units == 0 {
        return put(out, at, b".000000000");
    }
    out[at] = b'.';
    let front = units / 10_000;
    let end = put_digit(out, at + 1, front / 10_000);
    let end = put_four(out, end, front % 10_000);
    put_four(out, end, units % 10_000)
}
