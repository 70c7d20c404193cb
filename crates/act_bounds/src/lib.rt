//! Bounds: what is printed of the runs of a portfolio stays within what can be printed.
#![tactic(auto)]

ghost use Rattle.act_bounds.specs.Bounds.{RunsHold};

/// The runs of a portfolio whose days are days, whose amounts are numbers of the range and whose codes and currencies
/// are among so many, over entries with days and numbers, can be printed: each row stands on a day, has one of these
/// currencies, and its payoff, notional, rate and interest accrued are numbers of the range; a missing code is one of
/// these codes, and a stop is on a day. Of no kind of contract does such an amount leave the range: where one would, the
/// run stops in its place, with an overflow.
pub fn runs_can_be_printed()
    ensures runs { RunsHold }
{}
