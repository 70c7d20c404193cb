//! The step of a line.
ghost use Rattle.std.specs.Prelude.{◌≡◌, ◌≢◌, Err, IfOk, IfErr};
ghost use Rattle.act_script.specs.Step.{contract_of, entries_with, event_step, fits, fits_contract, is_early_option, is_loan, is_stock, names_with, step_of};

use crate::ScriptFault;
use crate::form::Form;
use act_date::Day;
use act_model::{Asked, ExerciseType, Kind, MOST_ENTRIES, Names, Obs, ObsKind, Step, Terms};
use act_num::Fixed;

/// The step of the line of that number, whose code is then one of the names. UnknownName and EventUnfit by the
/// contract of an event or an ask.
#[tactic(auto, unfolding(crate::specs::Step::step_of, crate::specs::Step::names_with))]
pub(crate) fn step(
    form: Form,
    number: u32,
    names: &mut Names,
    kinds: &[Terms],
) -> Result<Step, ScriptFault>
    ensures step { result ≢ Err ScriptFault.NoMemory → result ≡ step_of names.old kinds.now number form }
    ensures names { IfOk result (λ _. names.new ≡ names_with form names.old) }
    ensures unchanged { IfErr result (λ _. names.new ≡ names.old) }
{
    match form {
        Form::Rate { code, day, value } => {
            let place = names.intern_code(code.as_str());
            drop(code);
            Ok(Step::Append(Obs::Rate {
                code: place?,
                day,
                value,
            }))
        }
        Form::Event {
            contract,
            kind,
            day,
            value,
        } => {
            let place = named_contract(contract.as_str(), number, names);
            drop(contract);
            event_step(place?, kind, day, value, number, kinds)
        }
        Form::AskAll => Ok(Step::Ask(Asked::All)),
        Form::AskOne(contract) => {
            let place = named_contract(contract.as_str(), number, names);
            drop(contract);
            Ok(Step::Ask(Asked::One(place?)))
        }
    }
}

/// The step of an event of the contract of that number, or EventUnfit.
fn event_step(
    contract: u32,
    kind: ObsKind,
    day: Day,
    value: Fixed,
    number: u32,
    kinds: &[Terms],
) -> Result<Step, ScriptFault>
    ensures { result ≡ event_step kinds.now number kind day value contract }
{
    if fits_contract(contract, kind, value, kinds) {
        Ok(Step::Append(Obs::Event {
            contract,
            kind,
            day,
            value,
        }))
    } else {
        Err(ScriptFault::EventUnfit(number))
    }
}

/// The number of a named contract, or UnknownName.
fn named_contract(contract: &str, number: u32, names: &Names) -> Result<u32, ScriptFault>
    ensures { result ≡ contract_of names.now number contract.now }
{
    names
        .contract(contract)
        .ok_or(ScriptFault::UnknownName(number))
}

/// Whether an event fits the contract of that number.
fn fits_contract(contract: u32, event: ObsKind, value: Fixed, kinds: &[Terms]) -> bool
    ensures { result ≡ fits_contract kinds.now contract event value }
{
    match kinds.get(contract as usize) {
        Some(terms) => fits(&terms.kind, event, value),
        None => false,
    }
}

/// Whether an event fits a contract of that kind.
#[tactic(auto, unfolding(crate::specs::Step::fits))]
fn fits(kind: &Kind, event: ObsKind, value: Fixed) -> bool
    ensures { result ≡ fits kind.now event value }
{
    match event {
        ObsKind::PP => is_loan(kind) && value >= Fixed::ZERO,
        ObsKind::DV => is_stock(kind),
        ObsKind::XD => is_early_option(kind),
        ObsKind::DL | ObsKind::DQ | ObsKind::DF => true,
    }
}

/// A loan.
fn is_loan(kind: &Kind) -> bool
    ensures { result ≡ is_loan kind.now }
{
    matches!(
        kind,
        Kind::PAM(_) | Kind::LAM(_) | Kind::NAM(_) | Kind::ANN(_)
    )
}

/// A stock.
fn is_stock(kind: &Kind) -> bool
    ensures { result ≡ is_stock kind.now }
{
    matches!(kind, Kind::STK(_))
}

/// An option whose exercise is observed, American or Bermudan.
fn is_early_option(kind: &Kind) -> bool
    ensures { result ≡ is_early_option kind.now }
{
    match kind {
        Kind::OPTNS(terms) => terms.option_exercise_type != ExerciseType::E,
        _ => false,
    }
}

/// How many entries all scripts have with a step of the line of that number, or TooManyEntries.
#[tactic(auto, unfolding(crate::specs::Step::entries_with))]
pub(crate) fn entries_with(number: u32, entries: u64, step: &Step) -> Result<u64, ScriptFault>
    ensures { result ≡ entries_with number entries step.now }
{
    match step {
        Step::Append(_) if entries < MOST_ENTRIES => Ok(entries + 1),
        Step::Append(_) => Err(ScriptFault::TooManyEntries(number)),
        Step::Ask(_) => Ok(entries),
    }
}
