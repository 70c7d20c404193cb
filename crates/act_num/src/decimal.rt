//! Numbers read from decimal text.
ghost use Rattle.std.specs.Prelude.{◌≡◌, ◌+◌, ◌-◌, ◌*◌, ◌<◌, ◌≤◌, ◌^◌, ◌==◌, pos, ◌-ℤ◌, unsigned_abs, length, is_none, option_map, IfSome};
ghost use Rattle.std.specs.List.{prefix_len};
ghost use Rattle.std.specs.Char.{is_ascii_digit};
ghost use Rattle.std.specs.Str.Parse.{AllDigits, digits_value};
ghost use Rattle.act_num.specs.Decimal.{behind_digits, behind_fraction, behind_sign, begins_with_minus, decimal_of, decimal_parts, exponent_of, first_digits, fraction_of, lacks_fraction, magnitude_of, scaled_number};
ghost use Rattle.act_num.specs.Number.{largest, nearest_number, rounds_up};
ghost use Rattle.act_num.specs.Parts.{IsReadable, magnitude_in_range, parts_of, short_number};

use crate::Fixed;
use crate::fixed::LARGEST;
use crate::pieces::put;
use std::cmp::Ordering;

/// The most bytes of a decimal text.
const MOST_BYTES: usize = 64;

/// The greatest power of ten behind an `e`.
const MOST_EXPONENT: u16 = 18;

/// The digits behind the point that units have.
const PLACES: i32 = 9;

/// Why a text is no number.
#[derive(Clone, Copy, Debug, PartialEq, Eq)]
pub enum DecimalFault {
    /// It isn't of the form of a decimal.
    NotDecimal = 1,
    /// It is out of range.
    TooLarge = 2,
}

/// The parts of a decimal text.
#[derive(Clone, Copy)]
struct Parts<'a> {
    negative: bool,
    whole: &'a [u8],
    fraction: &'a [u8],
    exponent: i32,
}

impl Fixed {
    /// The number that a decimal text writes, rounded once to units of 10^-9: at most 64 bytes, with an
    /// optional sign, digits, optionally a point and digits, and optionally `e` or `E` with a number from
    /// -18 to 18 of at most three digits.
    pub fn parse(text: &[u8]) -> Result<Fixed, DecimalFault>
        ensures { result ≡ decimal_of text.now }
    {
        let Some(parts) = read_parts(text) else {
            return Err(DecimalFault::NotDecimal);
        };
        let Some(magnitude) = magnitude(&parts) else {
            return Err(DecimalFault::TooLarge);
        };
        let number = Fixed::from_magnitude(magnitude);
        Ok(if parts.negative { number.neg() } else { number })
    }
}

/// The parts of a decimal text, or None where it has another form.
fn read_parts(text: &[u8]) -> Option<Parts<'_>>
    ensures value { option_map parts_of result ≡ decimal_parts text.now }
    ensures readable { IfSome result (λ d. IsReadable (parts_of d)) }
{
    if text.len() > MOST_BYTES {
        return None;
    }
    let (negative, unsigned) = split_sign(text);
    let (whole, rest) = split_digits(unsigned);
    if whole.is_empty() {
        return None;
    }
    let (fraction, rest) = split_fraction(rest)?;
    let exponent = exponent(rest)?;
    Some(Parts {
        negative,
        whole,
        fraction,
        exponent,
    })
}

/// Whether a text begins with a minus sign, and what stands behind a sign, if there is one.
fn split_sign(text: &[u8]) -> (bool, &[u8])
    ensures negative { result.0 ≡ begins_with_minus text.now }
    ensures rest { result.1.now ≡ behind_sign text.now }
{
    match text {
        [b'-', rest @ ..] => (true, rest),
        [b'+', rest @ ..] => (false, rest),
        _ => (false, text),
    }
}

/// The digits that a text begins with, and what stands behind them.
#[tactic(auto, using(crate::proofs::Forms::front_steps))]
fn split_digits(text: &[u8]) -> (&[u8], &[u8])
    ensures digits { result.0.now ≡ first_digits text.now }
    ensures rest { result.1.now ≡ behind_digits text.now }
    ensures are_digits { AllDigits 10 result.0.now }
{
    text.split_at(count_digits(text))
}

/// How many digits a text begins with.
fn count_digits(text: &[u8]) -> usize
    ensures { result ≡ prefix_len is_ascii_digit text.now }
{
    text.iter().take_while(|byte| byte.is_ascii_digit()).count()
}

/// The digits behind a point, if there is one, and what stands behind those, or None where a point has no
/// digit behind it.
fn split_fraction(text: &[u8]) -> Option<(&[u8], &[u8])>
    ensures none { is_none result ≡ lacks_fraction text.now }
    ensures digits { IfSome result (λ p. p.0.now ≡ fraction_of text.now) }
    ensures rest { IfSome result (λ p. p.1.now ≡ behind_fraction text.now) }
    ensures are_digits { IfSome result (λ p. AllDigits 10 p.0.now) }
{
    let [b'.', rest @ ..] = text else {
        return Some((&[], text));
    };
    let (digits, rest) = split_digits(rest);
    if digits.is_empty() {
        return None;
    }
    Some((digits, rest))
}

/// The power of ten of nothing, 0, or of an `e` with a number, or None where a text has another form.
fn exponent(text: &[u8]) -> Option<i32>
    ensures value { result ≡ exponent_of text.now }
    ensures bound { IfSome result (λ e. unsigned_abs e ≤ 18) }
{
    let [first, rest @ ..] = text else {
        return Some(0);
    };
    if *first != b'e' && *first != b'E' {
        return None;
    }
    let (negative, digits) = split_sign(rest);
    let value = short_number(digits)?;
    if value > MOST_EXPONENT {
        return None;
    }
    let value = i32::from(value);
    Some(if negative { -value } else { value })
}

/// The value of one to three digits, or None of another text.
#[tactic(auto, using(crate::proofs::Forms::not_all_digits))]
fn short_number(text: &[u8]) -> Option<u16>
    ensures { result ≡ short_number text.now }
{
    if text.is_empty() || text.len() > 3 {
        return None;
    }
    let mut value = 0u16;
    for byte in text {
        if !byte.is_ascii_digit() {
            return None;
        }
        value = 10 * value + u16::from(byte - b'0');
    }
    Some(value)
}

/// The magnitude in units of 10^-9, rounded once, or None where it is out of range.
fn magnitude(parts: &Parts<'_>) -> Option<u128>
    requires { IsReadable (parts_of parts.now) }
    ensures { result ≡ magnitude_in_range (magnitude_of (parts_of parts.now)) }
{
    let mut digits = [b'0'; MOST_BYTES];
    let whole_end = put(&mut digits, 0, parts.whole);
    let end = put(&mut digits, whole_end, parts.fraction);
    scaled(&digits[..end], whole_end as i32 + parts.exponent + PLACES)
}

/// The whole number nearest to what the digits write with a point behind the first so many of them, or None
/// where it is out of range.
#[tactic(auto, using(crate::proofs::Scaling::scaling_steps))]
fn scaled(digits: &[u8], point: i32) -> Option<u128>
    requires { AllDigits 10 digits.now }
    ensures { result ≡ magnitude_in_range (scaled_number (digits_value 10 digits.now) (point -ℤ pos (length digits.now))) }
{
    let Ok(point) = usize::try_from(point) else {
        return Some(0);
    };
    if point < digits.len() {
        rounded(digits, point)
    } else {
        with_zeros(number(digits)?, point - digits.len())
    }
}

/// The whole number nearest to what the digits write with a point in front of one of them, or None where it is
/// out of range.
fn rounded(digits: &[u8], point: usize) -> Option<u128>
    requires are_digits { AllDigits 10 digits.now }
    requires point_in { point < length digits.now }
    ensures { result ≡ magnitude_in_range (nearest_number (digits_value 10 digits.now) (10 ^ (length digits.now - point))) }
{
    let (whole, fraction) = digits.split_at(point);
    let whole = number(whole)?;
    let nearest = whole + u128::from(rounds_up(whole, fraction));
    (nearest <= LARGEST).then_some(nearest)
}

/// Whether the digits behind the point round the whole part up.
#[tactic(auto, using(crate::proofs::Halves::all_digits_rest))]
fn rounds_up(whole: u128, fraction: &[u8]) -> bool
    requires { AllDigits 10 fraction.now }
    ensures { result ≡ rounds_up whole (digits_value 10 fraction.now) (10 ^ length fraction.now) }
{
    let [first, rest @ ..] = fraction else {
        return false;
    };
    match first.cmp(&b'5') {
        Ordering::Less => false,
        Ordering::Equal => whole % 2 == 1 || !are_zeros(rest),
        Ordering::Greater => true,
    }
}

/// Whether all digits are zeros.
fn are_zeros(digits: &[u8]) -> bool
    requires { AllDigits 10 digits.now }
    ensures { result ≡ (digits_value 10 digits.now == 0) }
{
    digits.iter().all(|digit| *digit == b'0')
}

/// The value of digits, or None where it is out of range.
#[tactic(auto, using(crate::proofs::DigitValues::number_steps))]
fn number(digits: &[u8]) -> Option<u128>
    requires { AllDigits 10 digits.now }
    ensures { result ≡ magnitude_in_range (digits_value 10 digits.now) }
{
    let mut value = 0;
    for digit in digits {
        value = with_digit(value, digit - b'0')?;
    }
    Some(value)
}

/// The number with so many zeros behind it, or None where it is out of range.
#[tactic(auto, using(crate::proofs::DigitValues::zero_steps))]
fn with_zeros(number: u128, count: usize) -> Option<u128>
    requires { number ≤ largest }
    ensures { result ≡ magnitude_in_range (number * 10 ^ count) }
{
    let mut value = number;
    for _ in 0..count {
        value = with_digit(value, 0)?;
    }
    Some(value)
}

/// The number with a digit behind it, or None where it is out of range.
fn with_digit(number: u128, digit: u8) -> Option<u128>
    requires number_in { number ≤ largest }
    requires digit_in { digit < 10 }
    ensures value { result ≡ magnitude_in_range (number * 10 + digit) }
    ensures bound { IfSome result (λ n. n ≤ largest) }
{
    let digit = u128::from(digit);
    if number > (LARGEST - digit) / 10 {
        return None;
    }
    Some(number * 10 + digit)
}
