//! Calls of numbers and factors, in units.
use act_date::Frac;
use act_num::{Factor, Fixed, rnd};
use cases_rows::Case;

/// The units of the factor 1.
const FACTOR_ONE: i128 = 1_000_000_000_000;

/// Tells what a call answers.
pub fn answer(case: &mut Case<'_>, call: &str) {
    match call {
        "zero" => case.units(Some(Fixed::ZERO)),
        "one" => case.units(Some(Fixed::ONE)),
        "number" => {
            let units = case.number();
            case.units(Fixed::from_units(units));
        }
        "round" => round(case),
        "clip" => clip(case),
        "multiply_factors" => multiply_factors(case),
        "parse" => parse(case),
        _ => of_number(case, call),
    }
}

/// Calls of a number and what stands behind it.
fn of_number(case: &mut Case<'_>, call: &str) {
    let a = case.fixed();
    match call {
        "write" => write(case, a),
        "negate" => case.units(Some(a.neg())),
        "absolute" => case.units(Some(a.abs())),
        "factor" => {
            let fraction = fraction(case);
            factor_told(case, Factor::one_plus(a, fraction.num, fraction.den));
        }
        _ => {
            let b = case.fixed();
            of_two(case, call, a, b);
        }
    }
}

fn of_two(case: &mut Case<'_>, call: &str, a: Fixed, b: Fixed) {
    let found = match call {
        "add" => a.add(b),
        "subtract" => a.sub(b),
        "multiply" => a.mul(b),
        "divide" => a.ratio(b),
        "least" => Some(a.min(b)),
        "greatest" => Some(a.max(b)),
        _ => {
            let fraction = fraction(case);
            if call != "multiply_fraction" {
                case.fail("no such call");
            }
            a.mul_frac(b, fraction.num, fraction.den)
        }
    };
    case.units(found);
}

fn round(case: &mut Case<'_>) {
    let (dividend, divisor) = (case.number(), case.number());
    if divisor <= 0 || dividend == i128::MIN {
        case.fail("a number is out of range");
    } else {
        case.value(rnd(dividend, divisor));
    }
}

fn clip(case: &mut Case<'_>) {
    let (x, low, high) = (case.fixed(), fixed_or_none(case), fixed_or_none(case));
    case.units(Some(x.clip(low, high)));
}

/// The next word as a number in units, or None of a dash.
fn fixed_or_none(case: &mut Case<'_>) -> Option<Fixed> {
    match case.word() {
        "-" => None,
        word => Some(case.fixed_of(word)),
    }
}

/// The next word as a fraction.
fn fraction(case: &mut Case<'_>) -> Frac {
    let word = case.word();
    fraction_of(case, word)
}

/// The fraction of a numerator from 0 on and a denominator from 1 to 133590, with a slash between them.
pub fn fraction_of(case: &mut Case<'_>, word: &str) -> Frac {
    let (above, below) = word.split_once('/').unwrap_or((word, ""));
    match (above.parse::<i64>(), below.parse::<i64>()) {
        (Ok(num), Ok(den)) if 0 <= num && 1 <= den && den <= 133_590 => Frac { num, den },
        _ => {
            case.fail("a word is no fraction");
            Frac { num: 0, den: 1 }
        }
    }
}

fn multiply_factors(case: &mut Case<'_>) {
    let (a, b) = (factor_of(case.number()), factor_of(case.number()));
    match (a, b) {
        (Some(a), Some(b)) => factor_told(case, a.times(b)),
        _ => case.fail("a number is out of range"),
    }
}

/// The factor of so many units, as one and a thousandth of a rate.
fn factor_of(units: i128) -> Option<Factor> {
    let rate = Fixed::from_units(units.checked_sub(FACTOR_ONE)?)?;
    Factor::one_plus(rate, 1, 1000)
}

/// Tells the units of a factor, or `none`.
fn factor_told(case: &mut Case<'_>, found: Option<Factor>) {
    match found {
        Some(found) => case.value(found.units()),
        None => case.text("none"),
    }
}

fn parse(case: &mut Case<'_>) {
    match Fixed::parse(&case.bytes()) {
        Ok(read) => case.value(read.units()),
        Err(fault) => case.value(fault),
    }
}

/// The text of a number, which is read back.
fn write(case: &mut Case<'_>, number: Fixed) {
    case.amount(number);
    if Fixed::parse(&case.told) != Ok(number) {
        case.text(" is not read back");
    }
}
