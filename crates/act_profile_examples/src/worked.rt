//! Worked examples of the definitions: whole runs of small contracts.
ghost use Rattle.act_profile_examples.specs.Worked.{BulletLoan, HalfAUnitRoundsToZero, OneAndAHalfRoundsToTwo, EarlierInterestAnchor, InterestOverflows, LargeInterest, ResetWithoutARate, ResetByARate, ResetByALaterRate, AnnuityWithoutInterest, Annuity, Instalments, GrowingLoan, BoughtCall, OutrightDelivered, OutrightSettled, PlainSwap, SwapOfTwoLoans, CapOnALoan, GuaranteeOfALoan, CollateralOf500};

/// What loans of 1000 pay from inception to their end, with and without resets and redemption.
pub fn worked_loans()
    ensures bullet_loan { BulletLoan }
    ensures half_a_unit_rounds_to_zero { HalfAUnitRoundsToZero }
    ensures one_and_a_half_rounds_to_two { OneAndAHalfRoundsToTwo }
    ensures earlier_interest_anchor { EarlierInterestAnchor }
    ensures interest_overflows { InterestOverflows }
    ensures large_interest { LargeInterest }
    ensures reset_without_a_rate { ResetWithoutARate }
    ensures reset_by_a_rate { ResetByARate }
    ensures reset_by_a_later_rate { ResetByALaterRate }
    ensures annuity_without_interest { AnnuityWithoutInterest }
    ensures annuity { Annuity }
    ensures instalments { Instalments }
    ensures growing_loan { GrowingLoan }
{}

/// What an option and outrights pay.
pub fn worked_trades()
    ensures bought_call { BoughtCall }
    ensures outright_delivered { OutrightDelivered }
    ensures outright_settled { OutrightSettled }
{}

/// What a plain swap, a swap of two loans and a cap pay.
pub fn worked_swaps()
    ensures plain_swap { PlainSwap }
    ensures swap_of_two_loans { SwapOfTwoLoans }
    ensures cap_on_a_loan { CapOnALoan }
{}

/// What a guarantee pays at a default.
pub fn worked_guarantees()
    ensures guarantee_of_a_loan { GuaranteeOfALoan }
    ensures collateral_of_500 { CollateralOf500 }
{}
