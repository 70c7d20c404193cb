//! The portfolio of a number.
ghost use Rattle.std.specs.Prelude.{◌≡◌, ◌%◌, ◌==◌, ◌≤◌, ◌++◌, map, filter, IfOk, OnOk};
ghost use Rattle.act_gen.specs.Json.{after_commas, with_commas};
ghost use Rattle.act_gen.specs.Portfolio.{drawn_loan, leg, legs, loan, loan_type, numbers, portfolio_text, redemption_cycle, swap};

use crate::draws::Draws;
use crate::members::{Value, push_comma, push_members, push_object};
use act_num::NoMemory;
use std::alloc::{AllocError, Global};

/// The portfolio of a number from 1 to 1,000, as JSON: so many loans, each with a notional and a rate drawn
/// from the number, and for every third a swap of the two before it. NoMemory where memory ran out.
pub fn portfolio_bytes(alloc: Global, n: u32) -> Result<Vec<u8>, NoMemory>
    requires at_least_one { 1 ≤ n }
    requires at_most_1000 { n ≤ 1000 }
    ensures { IfOk result (λ bytes. bytes.items ≡ portfolio_text n) }
{
    let mut text = Vec::new(alloc);
    push_portfolio(&mut text, n)?;
    Ok(text)
}

/// Adds the portfolio.
fn push_portfolio(text: &mut Vec<u8>, n: u32) -> Result<(), AllocError>
    requires at_least_one { 1 ≤ n }
    requires at_most_1000 { n ≤ 1000 }
    ensures { OnOk result (text.new.items ≡ text.old.items ++ portfolio_text n) }
{
    text.push(b'[')?;
    push_loans(text, n)?;
    push_swaps(text, n)?;
    text.push(b']')?;
    Ok(())
}

/// Adds the loans, with commas between them.
fn push_loans(text: &mut Vec<u8>, n: u32) -> Result<(), AllocError>
    requires { n ≤ 1000 }
    ensures { OnOk result (text.new.items ≡ text.old.items ++ with_commas (map (drawn_loan n) (numbers n))) }
{
    let mut draws = Draws::after(n, 0);
    'loans: for before in 0..n {
        push_comma(text, before as usize)?;
        let notional = 1000 + draws.draw(9000);
        let rate = 100 + draws.draw(500);
        push_loan(text, before + 1, notional, rate)?;
    }
    Ok(())
}

/// Adds a swap for every third loan, each behind a comma.
fn push_swaps(text: &mut Vec<u8>, n: u32) -> Result<(), AllocError>
    requires { n ≤ 1000 }
    ensures { OnOk result (text.new.items
        ≡ text.old.items ++ after_commas (map swap (filter (λ i. i % 3 == 0) (numbers n)))) }
{
    'swaps: for before in 0..n {
        let number = before + 1;
        if number % 3 == 0 {
            text.push(b',')?;
            push_swap(text, number)?;
        }
    }
    Ok(())
}

/// Adds a loan, with a notional and a rate in units of 10^-4.
#[tactic(auto, unfolding(crate::specs::Portfolio::loan))]
fn push_loan(text: &mut Vec<u8>, number: u32, notional: u32, rate: u32) -> Result<(), AllocError>
    ensures { OnOk result (text.new.items ≡ text.old.items ++ loan number notional rate) }
{
    let members = [
        ("contractID", Value::Name("C", number)),
        ("contractType", Value::Text(loan_type(number))),
        ("contractRole", Value::Text("RPA")),
        ("statusDate", Value::Text("2019-12-31")),
        ("currency", Value::Text("EUR")),
        ("initialExchangeDate", Value::Text("2020-01-01")),
        ("maturityDate", Value::Text("2030-01-01")),
        ("dayCountConvention", Value::Text("A365")),
        ("cycleOfInterestPayment", Value::Text("P1ML1")),
        ("cycleAnchorDateOfRateReset", Value::Text("2020-07-01")),
        ("cycleOfRateReset", Value::Text("P6ML1")),
        ("marketObjectCodeOfRateReset", Value::Text("M6")),
        ("notionalPrincipal", Value::Number(notional)),
        ("nominalInterestRate", Value::Rate(rate)),
        (
            "cycleOfPrincipalRedemption",
            Value::Text(redemption_cycle(number)),
        ),
    ];
    // A PAM has no cycle of redemption.
    if number % 3 == 1 {
        push_object(text, &members[..14])
    } else {
        push_object(text, &members)
    }
}

/// The type of a loan.
fn loan_type(number: u32) -> &'static str
    ensures { result.now ≡ loan_type number }
{
    match number % 3 {
        1 => "PAM",
        2 => "LAM",
        _ => "ANN",
    }
}

/// The cycle in which a LAM or an ANN is redeemed.
fn redemption_cycle(number: u32) -> &'static str
    ensures { result.now ≡ redemption_cycle number }
{
    if number % 3 == 2 { "P3ML1" } else { "P1ML1" }
}

/// Adds the swap of this number, whose legs are the two loans before that number.
#[tactic(auto, unfolding(crate::specs::Portfolio::swap))]
fn push_swap(text: &mut Vec<u8>, number: u32) -> Result<(), AllocError>
    requires { 2 ≤ number }
    ensures { OnOk result (text.new.items ≡ text.old.items ++ swap number) }
{
    text.push(b'{')?;
    push_members(
        text,
        &[
            ("contractID", Value::Name("S", number)),
            ("contractType", Value::Text("SWAPS")),
            ("contractRole", Value::Text("RFL")),
            ("statusDate", Value::Text("2019-12-31")),
            ("currency", Value::Text("EUR")),
            ("deliverySettlement", Value::Text("S")),
        ],
    )?;
    text.extend_from_slice(br#","contractStructure":"#)?;
    push_legs(text, number)?;
    text.push(b'}')?;
    Ok(())
}

/// Adds the legs of the swap of this number.
fn push_legs(text: &mut Vec<u8>, number: u32) -> Result<(), AllocError>
    requires { 2 ≤ number }
    ensures { OnOk result (text.new.items ≡ text.old.items ++ legs number) }
{
    text.push(b'[')?;
    push_leg(text, number - 2, "FIL")?;
    text.push(b',')?;
    push_leg(text, number - 1, "SEL")?;
    text.push(b']')?;
    Ok(())
}

/// Adds the loan of this number as a leg of a swap, in a role.
#[tactic(auto, unfolding(crate::specs::Portfolio::leg))]
fn push_leg(text: &mut Vec<u8>, number: u32, role: &str) -> Result<(), AllocError>
    ensures { OnOk result (text.new.items ≡ text.old.items ++ leg number role.now) }
{
    push_object(
        text,
        &[
            ("object", Value::Name("C", number)),
            ("referenceType", Value::Text("CID")),
            ("referenceRole", Value::Text(role)),
        ],
    )
}
