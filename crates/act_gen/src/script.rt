//! The script of a number.
ghost use Rattle.std.specs.Prelude.{◌≡◌, ◌==◌, if◌then◌else◌, ◌+◌, ◌*◌, ◌<◌, ◌≤◌, ◌++◌, ℤ, pos, ◌+ℤ◌, IfOk, OnOk};
ghost use Rattle.act_gen.specs.Script.{ask_behind, rate_line, script_text, start};

use crate::draws::Draws;
use crate::members::push_rate;
use act_date::{Cycle, Day, Stub, Unit, add_cycles, parse_day};
use act_num::NoMemory;
use std::alloc::{AllocError, Global};

/// How many rates a script has.
const RATES: u32 = 24;

/// A cycle of one day.
const DAILY: Cycle = Cycle {
    count: 1,
    unit: Unit::D,
    stub: Stub::Short,
};

/// The script for the portfolio of a number from 1 to 1,000: 24 rates, each with a day and a value drawn
/// from the number behind the portfolio's draws, and an ask for all contracts behind every sixth. NoMemory
/// where memory ran out.
pub fn script_bytes(alloc: Global, n: u32) -> Result<Vec<u8>, NoMemory>
    requires at_least_one { 1 ≤ n }
    requires at_most_1000 { n ≤ 1000 }
    ensures { IfOk result (λ bytes. bytes.items ≡ script_text n) }
{
    let mut text = Vec::new(alloc);
    push_script(&mut text, n)?;
    Ok(text)
}

/// Adds the script.
fn push_script(text: &mut Vec<u8>, n: u32) -> Result<(), AllocError>
    requires { n ≤ 1000 }
    ensures { OnOk result (text.new.items ≡ text.old.items ++ script_text n) }
{
    let mut draws = Draws::after(n, 2 * n);
    'rates: for before in 0..RATES {
        let day = rate_day(before, draws.draw(3650));
        let rate = 100 + draws.draw(400);
        push_rate_line(text, day, rate)?;
        push_ask_line(text, before + 1)?;
    }
    Ok(())
}

/// Adds the line of an ask behind the rate of this number, where 6 divides it.
fn push_ask_line(text: &mut Vec<u8>, number: u32) -> Result<(), AllocError>
    ensures { OnOk result (text.new.items ≡ text.old.items ++ ask_behind number) }
{
    if number % 6 == 0 {
        text.extend_from_slice(b"{\"ask\":\"*\"}\n")?;
    }
    Ok(())
}

/// The day of a rate, by how many rates come before it and by its draw, which the first doesn't use.
fn rate_day(before: u32, days: u32) -> Day
    requires { days < 3650 }
    ensures { result ≡ (if before == 0 then start else start +ℤ pos days) }
{
    let start = parse_day(b"2020-01-01").unwrap();
    if before == 0 {
        start
    } else {
        add_cycles(start, DAILY, days).unwrap()
    }
}

/// Adds the line of a rate, in units of 10^-4.
#[tactic(auto, unfolding(crate::specs::Script::rate_line))]
fn push_rate_line(text: &mut Vec<u8>, day: Day, rate: u32) -> Result<(), AllocError>
    ensures { OnOk result (text.new.items ≡ text.old.items ++ rate_line day rate) }
{
    let mut date = [0; 10];
    day.write(&mut date);
    text.extend_from_slice(br#"{"rate":{"code":"M6","date":""#)?;
    text.extend_from_slice(&date)?;
    text.extend_from_slice(br#"","value":"#)?;
    push_rate(text, rate)?;
    text.extend_from_slice(b"}}\n")?;
    Ok(())
}
