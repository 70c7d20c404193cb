//! The step of an event, by the line that the table of its kind of contract has for it.
ghost use Rattle.std.specs.Prelude.{◌≡◌, List, Option, Ok, option_and_then, option_map};
ghost use Rattle.act_kind.specs.Payment.{factor_code, payment_of, read_code};
ghost use Rattle.act_kind.specs.Takes.{Takes, with_state};
ghost use Rattle.act_model.specs.Observed.{observation};
ghost use Rattle.act_model.specs.Run.{Stream};
ghost use Rattle.act_model.specs.declared.event.Event.{Event};
ghost use Rattle.act_model.specs.declared.state.State.{State};
ghost use Rattle.act_profile.specs.Order.{is_own};
ghost use Rattle.act_profile.specs.Step.{StepLine, amount_of, change_code, outcome, reading, settled, state_after, step_by, unpaid};
ghost use Rattle.act_profile.specs.Steps.{accrual_by, factor_for, line_by, step_by_line};

use crate::order::is_unpaid;
use act_date::Day;
use act_model::{Event, Kind, Observed, Plan, Source, State, Stop, Terms};
use act_num::{Fixed, Steps};
use std::sync::ledger::Ledger;

/// What an event pays before the settlement factor.
#[derive(Clone, Copy, PartialEq, Eq)]
pub enum Payment {
    /// Nothing: the table of steps writes 0.
    Nothing,
    /// An amount.
    Amount,
    /// An amount by the value of this code.
    AmountBy(u32),
}

/// The table of steps of a contract, which has a line for each event.
pub trait Table {
    /// The line of an event.
    ghost line: { Self → Event → StepLine };

    /// The state that has accrued up to an event, where it is defined.
    ghost accrual: { Self → Event → State → Option State };

    /// What an event pays.
    fn payment(&self, event: &Event) -> Payment
        ensures { result ≡ payment_of (line self.now event.now).payoff };

    /// The code that the state after an event is by.
    fn change_code(&self, event: &Event) -> Option<u32>
        ensures { result ≡ change_code (line self.now event.now).change };

    /// Lets accrue in a state what does up to an event. Where that is undefined it answers None, and the state is of no use.
    fn accrue(&self, event: &Event, state: &mut State) -> Option<()>
        ensures { option_map (λ _. state.new) result ≡ accrual self.now event.now state.old };

    /// What an event pays, by the value of its code, or None where that is undefined.
    fn payoff(&self, event: &Event, value: Option<Fixed>, state: &State) -> Option<Fixed>
        ensures { result ≡ amount_of (line self.now event.now).payoff value state.now };

    /// Makes of a state the one after an event, by the value of its code. Where that is undefined it answers None, and the
    /// state is of no use.
    fn change(&self, event: &Event, value: Option<Fixed>, state: &mut State) -> Option<()>
        ensures { option_map (λ _. state.new) result ≡ state_after (line self.now event.now).change value state.old };
}

/// The step of an event of a contract, by its table, as [`advance`] takes it: what the event pays, and the state after it.
/// Where it is Ok it ticks once, and else not at all.
pub fn take_step<T: Table, O: Observed, L: Ledger>(
    terms: &Terms,
    plan: &Plan,
    table: &T,
    state: &State,
    event: &Event,
    seen: &O,
    steps: &mut Steps<L>,
) -> Result<(Fixed, State), Stop>
    ensures { (children : List Stream) →
        T.line table.now event.now ≡ line_by terms.now.common terms.now.kind plan.now children event.now →
        T.accrual table.now event.now ≡ accrual_by terms.now.common terms.now.kind event.now →
        Takes result (step_by_line terms.now plan.now (O.entries seen.now) children state.now event.now) steps.old steps.new }
{
    let mut next = *state;
    let taken = advance(terms, plan, table, &mut next, event, seen, steps);
    with_state(next, taken)
}

/// What an event pays, with the state that a step in place left; or why it stopped.
pub fn with_state(state: State, taken: Result<Fixed, Stop>) -> Result<(Fixed, State), Stop>
    ensures { result ≡ with_state state taken }
{
    match taken {
        Ok(payoff) => Ok((payoff, state)),
        Err(stop) => Err(stop),
    }
}

/// Takes the step of an event of a contract, by its table, and answers what the event pays: first its reads, the
/// settlement factor before the others, and then what accrues, what is paid and the change of the state. An event before
/// a purchase pays nothing, and reads nothing for it. It ticks once; but where it stops it doesn't tick, and the state is
/// of no use.
// Inlined, the compiler would take the state apart, and put it together again for each event.
#[inline(never)]
pub fn advance<T: Table, O: Observed, L: Ledger>(
    terms: &Terms,
    plan: &Plan,
    table: &T,
    state: &mut State,
    event: &Event,
    seen: &O,
    steps: &mut Steps<L>,
) -> Result<Fixed, Stop>
    ensures { (children : List Stream) →
        T.line table.now event.now ≡ line_by terms.now.common terms.now.kind plan.now children event.now →
        T.accrual table.now event.now ≡ accrual_by terms.now.common terms.now.kind event.now →
        Takes (with_state state.new result) (step_by_line terms.now plan.now (O.entries seen.now) children state.old event.now) steps.old steps.new }
{
    let factor = factor_of(terms, event.source);
    let is_unpaid = is_unpaid(terms, plan, event);
    step_by(table, factor, is_unpaid, event, state, seen, steps)
}

/// The code of the settlement factor of an event. An outright has none, and a child's row neither.
fn factor_of(terms: &Terms, source: Source) -> Option<u32>
    ensures { result ≡ factor_for terms.now (is_own source) }
{
    match (&terms.kind, source) {
        (Kind::FXOUT(_), _) => None,
        (_, Source::Scheduled(_) | Source::Observed(_)) => terms.common.factor,
        (_, Source::Leg { .. } | Source::Net { .. }) => None,
    }
}

/// The step of an event by a settlement factor, and by whether it is unpaid.
fn step_by<T: Table, O: Observed, L: Ledger>(
    table: &T,
    factor: Option<u32>,
    is_unpaid: bool,
    event: &Event,
    state: &mut State,
    seen: &O,
    steps: &mut Steps<L>,
) -> Result<Fixed, Stop>
    ensures { Takes (with_state state.new result)
        (step_by (O.entries seen.now) factor event.now (T.accrual table.now event.now) (unpaid is_unpaid (T.line table.now event.now)) state.old)
        steps.old steps.new }
{
    let payment = payment_or_nothing(table, is_unpaid, event);
    let factor = read(seen, event.day, payment.factor_code(factor))?;
    let value = read(seen, event.day, payment.code())?;
    let other = read(seen, event.day, table.change_code(event))?;
    match outcome(table, is_unpaid, event, factor, value, other, state) {
        Some(payoff) => {
            steps.tick();
            Ok(payoff)
        }
        None => Err(Stop::Overflow {
            day: event.day,
            kind: event.kind,
        }),
    }
}

/// What an event pays, which is nothing before a purchase.
fn payment_or_nothing<T: Table>(table: &T, is_unpaid: bool, event: &Event) -> Payment
    ensures { result ≡ payment_of (unpaid is_unpaid (T.line table.now event.now)).payoff }
{
    if is_unpaid {
        Payment::Nothing
    } else {
        table.payment(event)
    }
}

/// The payoff before the settlement factor, or None where it is undefined.
fn amount<T: Table>(
    table: &T,
    is_unpaid: bool,
    event: &Event,
    value: Option<Fixed>,
    state: &State,
) -> Option<Fixed>
    ensures { result ≡ amount_of (unpaid is_unpaid (T.line table.now event.now)).payoff value state.now }
{
    if is_unpaid {
        Some(Fixed::ZERO)
    } else {
        table.payoff(event, value, state)
    }
}

/// What is paid, and the state is made the one after the event; or None where one of them is undefined.
fn outcome<T: Table>(
    table: &T,
    is_unpaid: bool,
    event: &Event,
    factor: Option<Fixed>,
    value: Option<Fixed>,
    other: Option<Fixed>,
    state: &mut State,
) -> Option<Fixed>
    ensures { option_map (λ payoff. (payoff, state.new)) result
        ≡ option_and_then (outcome (unpaid is_unpaid (T.line table.now event.now)) factor value other)
        (T.accrual table.now event.now state.old) }
{
    table.accrue(event, state)?;
    let amount = amount(table, is_unpaid, event, value, state)?;
    let payoff = settled(factor, amount)?;
    table.change(event, other, state)?;
    Some(payoff)
}

/// A payoff, multiplied with the settlement factor where there is one.
fn settled(factor: Option<Fixed>, payoff: Fixed) -> Option<Fixed>
    ensures { result ≡ settled factor payoff }
{
    match factor {
        Some(factor) => factor.mul(payoff),
        None => Some(payoff),
    }
}

/// The value of a code on a day, where there is a code to read.
fn read<O: Observed>(seen: &O, day: Day, code: Option<u32>) -> Result<Option<Fixed>, Stop>
    ensures { result ≡ reading (O.entries seen.now) day code (λ value. Ok value) }
{
    let Some(code) = code else {
        return Ok(None);
    };
    match seen.value(code, day) {
        Some(value) => Ok(Some(value)),
        None => Err(Stop::Missing { code, day }),
    }
}

impl Payment {
    /// The code that the payoff reads.
    fn code(self) -> Option<u32>
        ensures { result ≡ read_code self }
    {
        match self {
            Payment::AmountBy(code) => Some(code),
            _ => None,
        }
    }

    /// The code of the settlement factor, where it is read.
    fn factor_code(self, factor: Option<u32>) -> Option<u32>
        ensures { result ≡ factor_code factor self }
    {
        match self {
            Payment::Nothing => None,
            _ => factor,
        }
    }
}
