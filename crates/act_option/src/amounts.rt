//! The amounts of exercise.
ghost use Rattle.std.specs.Prelude.{◌≡◌, pos, option_map};
ghost use Rattle.act_profile.specs.Exercise.{excess, exercised, option_amount};
ghost use Rattle.act_profile.specs.Formula.{plus};
ghost use Rattle.act_profile.specs.States.{with_xa};
ghost use Rattle.act_profile.specs.Step.{changed};

use act_date::Day;
use act_model::{OptionType, Optns, State};
use act_num::Fixed;

/// The amount of exercise of an option: of a call, a put or both, by the value of the market object. None where it is
/// out of range.
pub(crate) fn option_amount(optns: &Optns, value: Fixed) -> Option<Fixed>
    ensures { result ≡ option_amount optns.now value }
{
    match optns.option_type {
        OptionType::C => excess(value, optns.option_strike1),
        OptionType::P => excess(optns.option_strike1, value),
        OptionType::CP => both_amounts(optns.option_strike1, optns.option_strike2?, value),
    }
}

/// The amounts of a call and a put together.
fn both_amounts(call: Fixed, put: Fixed, value: Fixed) -> Option<Fixed>
    ensures { result ≡ plus (excess value call) (excess put value) }
{
    excess(value, call)?.add(excess(put, value)?)
}

/// What is above 0 of a difference, or None where that is out of range.
fn excess(a: Fixed, b: Fixed) -> Option<Fixed>
    ensures { result ≡ excess a b }
{
    Some(a.sub(b)?.max(Fixed::ZERO))
}

/// Makes the state the one after an exercise on a day, or answers None where its amount is undefined.
pub(crate) fn exercise(day: Day, amount: Option<Fixed>, state: &mut State) -> Option<()>
    ensures { option_map (λ _. state.new) result ≡ changed (exercised day) amount state.old }
{
    state.xa = amount?;
    state.xd = Some(day);
    Some(())
}

/// Makes the state the one after the settlement: nothing is owed any more.
pub(crate) fn settle(state: &mut State)
    ensures { state.new ≡ with_xa (pos 0) state.old }
{
    state.xa = Fixed::ZERO;
}
