//! What is wanted of a term, and why a text isn't that.

use crate::message::Message;
use crate::near::nearest;
use act_date::{DateFault, parse_cycle, parse_day, parse_period};
use act_num::{DecimalFault, Fixed};
use std::alloc::Global;
use std::str;

/// The types of contracts.
pub(crate) const TYPES: [&str; 13] = [
    "PAM", "LAM", "NAM", "ANN", "STK", "FXOUT", "SWPPV", "SWAPS", "CAPFL", "OPTNS", "FUTUR", "CEG",
    "CEC",
];

/// The roles of a contract's owner.
const ROLES: [&str; 13] = [
    "RPA", "RPL", "RFL", "PFL", "RF", "PF", "BUY", "SEL", "LG", "ST", "OBL", "GUA", "COL",
];

/// The conventions of business days.
const CONVENTIONS: [&str; 10] = [
    "NOS", "SCF", "SCMF", "CSF", "CSMF", "SCP", "SCMP", "CSP", "CSMP", "NULL",
];

/// The words that a term may have, and what they say.
#[derive(Clone, Copy)]
pub(crate) struct Choices {
    words: &'static [&'static str],
    told: &'static str,
}

/// The form that the text of a term has.
#[derive(Clone, Copy)]
pub(crate) enum Form {
    /// A name, that of a contract, and that of a currency.
    Name,
    Contract,
    Currency,
    /// A date, a number, a cycle and a period.
    Day,
    Decimal,
    Cycle,
    Period,
    /// One of some words.
    Choice(Choices),
    /// Three letters.
    Scaling,
    /// A list of references.
    Structure,
}

/// The form of the term of that name.
pub(crate) fn form_of(term: &str) -> Form {
    match choices_of(term) {
        Some(choices) => Form::Choice(choices),
        None => plain_form(term),
    }
}

/// The words that a term may have, where it is a choice.
fn choices_of(term: &str) -> Option<Choices> {
    let (words, told): (&'static [&'static str], &'static str) = match term {
        "contractType" => (
            &TYPES,
            "PAM, LAM, NAM, ANN, STK, FXOUT, SWPPV, SWAPS, CAPFL, OPTNS, FUTUR, CEG or CEC",
        ),
        "contractRole" => (
            &ROLES,
            "RPA, RFL, RF, BUY, LG, OBL, COL (lends, buys, receives), RPL, PFL, PF, SEL, ST or GUA (borrows, sells, pays)",
        ),
        "calendar" => (
            &["NC", "MF"],
            "NC (each day is a business day) or MF (Monday to Friday)",
        ),
        "businessDayConvention" => (
            &CONVENTIONS,
            "NOS, SCF, SCMF, CSF, CSMF, SCP, SCMP, CSP, CSMP or NULL",
        ),
        "endOfMonthConvention" => (&["SD", "EOM"], "SD (the same day) or EOM (the month's end)"),
        "dayCountConvention" => (
            &["AA", "A360", "A365", "30E360", "30E360ISDA", "B252"],
            "AA (actual days over those of each year), A360, A365, 30E360, 30E360ISDA or B252 (business days)",
        ),
        "interestCalculationBase" => (&["NT", "NTIED", "NTL"], "NT, NTIED or NTL"),
        "feeBasis" => (
            &["A", "N"],
            "A (an amount) or N (a yearly rate on the notional)",
        ),
        "penaltyType" => (
            &["O", "A", "N", "I"],
            "O (none), A (an amount), N (a part) or I (the interest lost)",
        ),
        "deliverySettlement" => (&["D", "S"], "D (delivery) or S (the difference)"),
        "optionType" => (&["C", "P", "CP"], "C (call), P (put) or CP (both)"),
        "optionExerciseType" => (
            &["E", "A", "B"],
            "E (European), A (American) or B (Bermudan)",
        ),
        "guaranteedExposure" => (
            &["NO", "NI", "MV"],
            "NO (the notional), NI (with accrued interest) or MV (the market value)",
        ),
        "creditEventTypeCovered" => (
            &["DL", "DQ", "DF"],
            "DL (delayed), DQ (delinquent) or DF (default), or a list of them, as [\"DQ\", \"DF\"]",
        ),
        "referenceType" => (
            &["CNT", "CID", "MOC"],
            "CNT (a contract that stands here), CID (a contract by its name) or MOC (a market object by its code)",
        ),
        "referenceRole" => (
            &["UDL", "FIL", "SEL", "COVE", "COVI"],
            "UDL (underlying), FIL, SEL (first and second leg), COVE (covered) or COVI (covering)",
        ),
        _ => return None,
    };
    Some(Choices { words, told })
}

/// The terms of this profile that are no choices, by their forms.
const NAMES: [&str; 3] = [
    "marketObjectCode",
    "marketObjectCodeOfRateReset",
    "marketObjectCodeOfScalingIndex",
];

const CURRENCIES: [&str; 3] = ["currency", "currency2", "settlementCurrency"];

const DAYS: [&str; 12] = [
    "statusDate",
    "initialExchangeDate",
    "maturityDate",
    "purchaseDate",
    "terminationDate",
    "capitalizationEndDate",
    "cycleAnchorDateOfInterestPayment",
    "cycleAnchorDateOfPrincipalRedemption",
    "cycleAnchorDateOfInterestCalculationBase",
    "cycleAnchorDateOfRateReset",
    "cycleAnchorDateOfFee",
    "cycleAnchorDateOfScalingIndex",
];

const CYCLES: [&str; 6] = [
    "cycleOfInterestPayment",
    "cycleOfPrincipalRedemption",
    "cycleOfInterestCalculationBase",
    "cycleOfRateReset",
    "cycleOfFee",
    "cycleOfScalingIndex",
];

const DECIMALS: [&str; 25] = [
    "notionalPrincipal",
    "notionalPrincipal2",
    "premiumDiscountAtIED",
    "nominalInterestRate",
    "nominalInterestRate2",
    "accruedInterest",
    "priceAtPurchaseDate",
    "priceAtTerminationDate",
    "nextPrincipalRedemptionPayment",
    "interestCalculationBaseAmount",
    "nextResetRate",
    "rateSpread",
    "rateMultiplier",
    "lifeCap",
    "lifeFloor",
    "periodCap",
    "periodFloor",
    "feeRate",
    "feeAccrued",
    "scalingIndexAtContractDealDate",
    "penaltyRate",
    "optionStrike1",
    "optionStrike2",
    "futuresPrice",
    "coverageOfCreditEnhancement",
];

const CHOICES: [&str; 14] = [
    "contractType",
    "contractRole",
    "calendar",
    "businessDayConvention",
    "endOfMonthConvention",
    "dayCountConvention",
    "interestCalculationBase",
    "feeBasis",
    "penaltyType",
    "deliverySettlement",
    "optionType",
    "optionExerciseType",
    "guaranteedExposure",
    "creditEventTypeCovered",
];

const OTHERS: [&str; 4] = [
    "contractID",
    "contractStructure",
    "settlementPeriod",
    "scalingEffect",
];

/// All terms of this profile.
const TERMS: [&[&str]; 7] = [
    &NAMES,
    &CURRENCIES,
    &DAYS,
    &CYCLES,
    &DECIMALS,
    &CHOICES,
    &OTHERS,
];

/// Whether a name is a term of this profile.
pub(crate) fn is_term(name: &str) -> bool {
    TERMS.iter().any(|terms| terms.contains(&name))
}

/// The term of this profile that a name is like, if it is like one.
pub(crate) fn nearest_term(alloc: Global, name: &[u8]) -> Option<&'static str> {
    let mut best = None;
    for terms in TERMS {
        best = nearest(alloc, name, terms).or(best);
    }
    best
}

/// The form of a term that is no choice.
fn plain_form(term: &str) -> Form {
    match term {
        "contractID" => Form::Contract,
        "contractStructure" => Form::Structure,
        "settlementPeriod" => Form::Period,
        "scalingEffect" => Form::Scaling,
        _ if NAMES.contains(&term) => Form::Name,
        _ if CURRENCIES.contains(&term) => Form::Currency,
        _ if CYCLES.contains(&term) => Form::Cycle,
        _ if DAYS.contains(&term) => Form::Day,
        _ => Form::Decimal,
    }
}

/// Whether a text has a form, so that it broke a bound where it was refused.
pub(crate) fn has_form(form: Form, text: &[u8]) -> bool {
    match form {
        Form::Day => parse_day(text).is_ok(),
        Form::Decimal => Fixed::parse(text).is_ok(),
        Form::Cycle => parse_cycle(text).is_ok(),
        Form::Period => parse_period(text).is_ok(),
        Form::Choice(choices) => is_among(choices.words, text),
        _ => false,
    }
}

/// Whether a text is one of some words.
fn is_among(words: &[&str], text: &[u8]) -> bool {
    words.iter().any(|word| word.as_bytes() == text)
}

/// Says why a text hasn't a form, behind the text itself, and what was wanted.
pub(crate) fn say_why(alloc: Global, message: &mut Message, form: Form, text: &[u8]) {
    match form {
        Form::Day => say_why_no_day(message, text),
        Form::Decimal => say_why_no_decimal(message, text),
        Form::Cycle | Form::Period => say_why_no_cycle(message, form, text),
        Form::Choice(choices) => say_why_no_choice(alloc, message, choices, text),
        Form::Name | Form::Contract | Form::Currency => say_why_no_name(message, form, text),
        Form::Scaling => {
            message.say(" is no effect; ");
            say_wanted(message, form);
        }
        Form::Structure => {
            message.say(" is no list; ");
            say_wanted(message, form);
        }
    }
}

/// Says what is wanted.
pub(crate) fn say_wanted(message: &mut Message, form: Form) {
    match form {
        Form::Day => message.say("a date is written 2026-01-15, with year, month and day"),
        Form::Decimal => message.say("a number is written 1250.75; a rate of 5 % is 0.05"),
        Form::Cycle => {
            message.say(
                "a cycle is P, a count from 1 to 999, a unit (D, W, M, Q, H or Y), and L0, L1 or nothing, ",
            );
            message.say("as P6ML1 (each six months)");
        }
        Form::Period => {
            message.say(
                "a period is P, a count and a unit (D, W, M, Q, H or Y), as P2D (two days)",
            );
        }
        Form::Choice(choices) => message.say_all(&["it is ", choices.told]),
        Form::Name => {
            message.say(
                "a code has 1 to 64 printable ASCII characters without a space, as EURIBOR12M",
            );
        }
        Form::Contract => {
            message.say("a name has 1 to 64 printable ASCII characters without a space, as LOAN-8");
        }
        Form::Currency => {
            message.say(
                "a currency has 1 to 16 printable ASCII characters without a space, as EUR",
            );
        }
        Form::Scaling => {
            message.say(
                "three letters are wanted: I or O (interest), N or O (notional), and O, as INO",
            );
        }
        Form::Structure => message.say_all(&["a list of references is wanted, as ", STRUCTURE]),
    }
}

/// A structure, as an example.
const STRUCTURE: &str =
    "[{\"referenceType\": \"CID\", \"referenceRole\": \"UDL\", \"object\": \"LOAN-8\"}]";

/// Says how a term is written, behind what is to be done.
pub(crate) fn say_added(message: &mut Message, what: &str, term: &str) {
    message.say_all(&[what, " \"", term, "\": "]);
    match form_of(term) {
        Form::Structure => message.say(STRUCTURE),
        Form::Decimal => message.say(if is_rate(term) { "0.05" } else { "1000" }),
        form => {
            message.say_all(&["\"", example(form), "\""]);
            if let Form::Choice(choices) = form {
                message.say_all(&["; it is ", choices.told]);
            }
        }
    }
}

/// Whether a number is a rate or a part, and no amount.
fn is_rate(term: &str) -> bool {
    term.contains("Rate") || term.contains("Cap") || term.contains("Floor")
}

/// A text of a form.
fn example(form: Form) -> &'static str {
    match form {
        Form::Day => "2026-01-15",
        Form::Cycle => "P6ML1",
        Form::Period => "P2D",
        Form::Currency => "EUR",
        Form::Contract => "LOAN-8",
        Form::Name => "EURIBOR12M",
        Form::Scaling => "INO",
        Form::Choice(choices) => choices.words.first().copied().unwrap_or(""),
        Form::Decimal | Form::Structure => "",
    }
}

/// Says why a text is no date, and what was wanted.
fn say_why_no_day(message: &mut Message, text: &[u8]) {
    match parse_day(text) {
        Err(DateFault::TimeOfDay) => {
            message.say(
                " has a time of day; a date is written 2026-01-15, or with T00:00:00 behind it",
            );
        }
        Err(DateFault::DateRange) => {
            message.say(" is too early or too late; dates go from 1900-01-01 to 2299-12-31");
        }
        _ => {
            say_why_not_civil(message, text);
            message.say("; ");
            say_wanted(message, Form::Day);
        }
    }
}

/// Says why a text is no date of the calendar.
fn say_why_not_civil(message: &mut Message, text: &[u8]) {
    match text {
        [_, _, _, _, b'-', m1, m2, b'-', d1, d2] if are_digits(&[*m1, *m2, *d1, *d2]) => {
            if is_month(*m1, *m2) {
                message.say(" isn't in the calendar");
            } else {
                message.say(" has the month ");
                message.show(&[*m1, *m2]);
            }
        }
        _ => message.say(" is no date"),
    }
}

/// Whether bytes are digits.
fn are_digits(bytes: &[u8]) -> bool {
    bytes.iter().all(|byte| byte.is_ascii_digit())
}

/// Whether two digits are those of a month.
fn is_month(first: u8, second: u8) -> bool {
    matches!((first, second), (b'0', b'1'..=b'9') | (b'1', b'0'..=b'2'))
}

/// Says why a text is no number, and what was wanted.
fn say_why_no_decimal(message: &mut Message, text: &[u8]) {
    let has = |sign: u8| text.contains(&sign);
    message.say(" is no number; ");
    message.say(match Fixed::parse(text) {
        Err(DecimalFault::TooLarge) => "numbers go up to 170141183460469231731687303715.884105727",
        _ if text.len() > 64 => "a number has at most 64 characters, and nine decimals count",
        _ if has(b'%') => "rates are parts of one, and 5 % is 0.05",
        _ if has(b',') && has(b'.') => {
            "no sign stands between thousands, and decimals stand behind a point, as 1250.75"
        }
        _ if has(b',') =>
            "decimals stand behind a point, as 0.05, and no sign stands between thousands",
        _ if has(b'_') || has(b'\'') => "no sign stands between thousands, as 1250.75",
        _ if is_written(text) && (has(b'e') || has(b'E')) =>
            "a number is written 1250.75, and an exponent goes from -18 to 18",
        _ if text.ends_with(b".") || text.starts_with(b".") => {
            "a digit stands on either side of a point, as 0.05"
        }
        _ =>
            "write digits and a point alone, as 1250.75, without a blank, and a minus in front where it is below 0",
    });
}

/// Whether a text has the signs of numbers alone.
fn is_written(text: &[u8]) -> bool {
    text.iter().all(|byte| matches!(byte, b'0'..=b'9' | b'-' | b'+' | b'.' | b'e' | b'E'))
}

/// Says why a text is no cycle, and what was wanted.
fn say_why_no_cycle(message: &mut Message, form: Form, text: &[u8]) {
    message.say(if matches!(form, Form::Period) {
        " is no period"
    } else {
        " is no cycle"
    });
    message.say(match text {
        [b'P', b'T', ..] => " (take the T away, and there are no hours)",
        [b'P', ..] if parse_period(text).is_ok() => " (write a count from 1 on)",
        [b'P', .., b'L'] | [b'P', .., b'L', b'2'..=b'9'] =>
            " (behind the unit stand L0, L1 or nothing)",
        [b'p', ..] => " (write it in capital letters)",
        [b'0'..=b'9', .., b'-'] => " (write P before it, and L1 in place of the minus)",
        [b'0'..=b'9', .., b'+'] => " (write P before it, and L0 in place of the plus)",
        [b'0'..=b'9', ..] => " (write P before its count)",
        _ => "",
    });
    message.say("; ");
    say_wanted(message, form);
}

/// Says why a text is none of some words, and which one may have been meant.
fn say_why_no_choice(alloc: Global, message: &mut Message, choices: Choices, text: &[u8]) {
    for word in choices.words {
        if text.eq_ignore_ascii_case(word.as_bytes()) {
            return message.say_all(&[" has to be in capital letters: \"", word, "\""]);
        }
    }
    message.say(" is none of the words that there are");
    let meant = match synonym(text, choices.words) {
        Some(meant) => Some(meant),
        None => nearest(alloc, text, choices.words),
    };
    if let Some(meant) = meant {
        message.say_all(&[" (did you mean ", meant, "?)"]);
    }
    message.say_all(&["; it is ", choices.told]);
}

/// The words that others have for some choices.
const SYNONYMS: [(&str, &str); 52] = [
    ("BOND", "PAM"),
    ("LOAN", "PAM"),
    ("BULLET", "PAM"),
    ("ANNUITY", "ANN"),
    ("MORTGAGE", "ANN"),
    ("STOCK", "STK"),
    ("SHARE", "STK"),
    ("EQUITY", "STK"),
    ("FX", "FXOUT"),
    ("FXFORWARD", "FXOUT"),
    ("SWAP", "SWPPV"),
    ("IRS", "SWPPV"),
    ("CAP", "CAPFL"),
    ("FLOOR", "CAPFL"),
    ("OPTION", "OPTNS"),
    ("FUTURE", "FUTUR"),
    ("GUARANTEE", "CEG"),
    ("COLLATERAL", "CEC"),
    ("LENDER", "RPA"),
    ("ASSET", "RPA"),
    ("CREDITOR", "RPA"),
    ("BORROWER", "RPL"),
    ("LIABILITY", "RPL"),
    ("DEBTOR", "RPL"),
    ("BUYER", "BUY"),
    ("SELLER", "SEL"),
    ("LONG", "LG"),
    ("SHORT", "ST"),
    ("GUARANTOR", "GUA"),
    ("ACT/360", "A360"),
    ("ACTUAL/360", "A360"),
    ("ACT360", "A360"),
    ("ACT/365", "A365"),
    ("ACTUAL/365", "A365"),
    ("ACT365", "A365"),
    ("ACT/ACT", "AA"),
    ("ACTUAL/ACTUAL", "AA"),
    ("30/360", "30E360"),
    ("30E/360", "30E360"),
    ("BUS/252", "B252"),
    ("FOLLOWING", "SCF"),
    ("MODIFIED FOLLOWING", "SCMF"),
    ("MODIFIEDFOLLOWING", "SCMF"),
    ("PRECEDING", "SCP"),
    ("MODIFIED PRECEDING", "SCMP"),
    ("NONE", "NOS"),
    ("CALL", "C"),
    ("PUT", "P"),
    ("EUROPEAN", "E"),
    ("AMERICAN", "A"),
    ("BERMUDAN", "B"),
    ("DEFAULT", "DF"),
];

/// The one of some words that another one says, if it is known.
fn synonym(text: &[u8], choices: &[&'static str]) -> Option<&'static str> {
    for (other, word) in SYNONYMS {
        if text.eq_ignore_ascii_case(other.as_bytes()) && choices.contains(&word) {
            return Some(word);
        }
    }
    None
}

/// Says why a text is no name, and what was wanted.
fn say_why_no_name(message: &mut Message, form: Form, text: &[u8]) {
    if text == b"*".as_slice() {
        return message.say(
            " stands for all contracts in a script, and is no name of one; another name is wanted, as LOAN-8",
        );
    }
    if text.ends_with(b" ") || text.starts_with(b" ") {
        message.say(" has a space at an end");
    } else if text.contains(&b' ') {
        message.say(" has a space");
    } else if text.is_ascii() && text.len() > 16 {
        message.say(" has ");
        message.number(text.len() as u64);
        message.say(" characters");
    } else if text.is_ascii() {
        message.say(" has a character that can't be seen");
    } else {
        message.say(" has the character ");
        say_first_other(message, text);
    }
    message.say("; ");
    say_wanted(message, form);
}

/// Says the first character of a text that is no ASCII.
fn say_first_other(message: &mut Message, text: &[u8]) {
    for character in str::from_utf8(text).unwrap_or("?").chars() {
        if !character.is_ascii() {
            return message.character(character);
        }
    }
}
