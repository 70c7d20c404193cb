//! Special cases of the definitions, as small contracts.
ghost use Rattle.act_profile_examples.specs.Special.{ProductWithOneOverflows, InterestOfNoDaysOverflows, LongStubAtAMonthsEnd, LongStubOnTheSameDay, MonthEndOfTheAnchor, AnchorPast2299, CyclePast2299, MovedPast2299, MovedBackIn2299, TooManyEvents, AnchorAfterTheEnd, InterestAtMaturity, CapitalizationIsCounted, CapitalizationPastMaturity, InterestWithRedemption, InterestAfterCapitalization, FixedResetBeforeTheLoan, PaymentFixedTwice, DerivedInstalments, OneInstalmentAtStart, TooManyInstalments, InstalmentsPast2299, DerivedMaturityOfMonthEnds, DerivedMaturityIsNotMoved, PrepaymentAtMaturity, TerminatedBefore, MaturityBeforeTheLoan, BeforeAPurchase, PurchasedBefore, PenaltiesOfOneDay, CreditEventDoesNotAccrue, EmptyPrepaymentAccrues, AccrualNeverGoesBack, RateOfTheMovedDay, ReadsComeFirst, EmptyPrepaymentReadsTheFactor, SwapExchangeReadsNoFactor, FeeAtMaturity, FeeAmountDoesNotAccrue, BaseFixedBehindInterest, CapBelowTheFloor, FixedRateAboveTheCap, SwapReset, StartedAnnuity, RowsOfLegs, NettedInterest, InterestInTwoCurrencies, NettedInOrder, StopOfTheFirstChild, StopAtTermination, StopAfterTermination, StopOfTheChildOnTheSameDay, EarlierStopOfTheSwap, CapInPlaceOfAFloor, ExerciseOnTheStatusDate, SettlementMovedBack, SettlementNotBeforeExercise, SettlementPast2299, DefaultAfterTheLoan, NoDefault, DefaultOfAStoppedLoan, DefaultAfterAnOverflow, StoppedCollateral, MaturityOfAGuarantee};

/// Which dates a plan has at the edges of schedules, and why there is none.
pub fn special_schedules()
    ensures product_with_one_overflows { ProductWithOneOverflows }
    ensures interest_of_no_days_overflows { InterestOfNoDaysOverflows }
    ensures long_stub_at_a_months_end { LongStubAtAMonthsEnd }
    ensures long_stub_on_the_same_day { LongStubOnTheSameDay }
    ensures month_end_of_the_anchor { MonthEndOfTheAnchor }
    ensures anchor_past_2299 { AnchorPast2299 }
    ensures cycle_past_2299 { CyclePast2299 }
    ensures moved_past_2299 { MovedPast2299 }
    ensures moved_back_in_2299 { MovedBackIn2299 }
    ensures too_many_events { TooManyEvents }
    ensures anchor_after_the_end { AnchorAfterTheEnd }
    ensures interest_at_maturity { InterestAtMaturity }
    ensures capitalization_is_counted { CapitalizationIsCounted }
    ensures capitalization_past_maturity { CapitalizationPastMaturity }
    ensures interest_with_redemption { InterestWithRedemption }
    ensures interest_after_capitalization { InterestAfterCapitalization }
    ensures fixed_reset_before_the_loan { FixedResetBeforeTheLoan }
    ensures payment_fixed_twice { PaymentFixedTwice }
    ensures derived_instalments { DerivedInstalments }
    ensures one_instalment_at_start { OneInstalmentAtStart }
    ensures too_many_instalments { TooManyInstalments }
    ensures instalments_past_2299 { InstalmentsPast2299 }
    ensures derived_maturity_of_month_ends { DerivedMaturityOfMonthEnds }
    ensures derived_maturity_is_not_moved { DerivedMaturityIsNotMoved }
{}

/// Which events count, and what comes before a purchase.
pub fn special_events()
    ensures prepayment_at_maturity { PrepaymentAtMaturity }
    ensures terminated_before { TerminatedBefore }
    ensures maturity_before_the_loan { MaturityBeforeTheLoan }
    ensures before_a_purchase { BeforeAPurchase }
    ensures purchased_before { PurchasedBefore }
{}

/// What is accrued, read and paid where the order of events and reads decides.
pub fn special_steps()
    ensures penalties_of_one_day { PenaltiesOfOneDay }
    ensures credit_event_does_not_accrue { CreditEventDoesNotAccrue }
    ensures empty_prepayment_accrues { EmptyPrepaymentAccrues }
    ensures accrual_never_goes_back { AccrualNeverGoesBack }
    ensures rate_of_the_moved_day { RateOfTheMovedDay }
    ensures reads_come_first { ReadsComeFirst }
    ensures empty_prepayment_reads_the_factor { EmptyPrepaymentReadsTheFactor }
    ensures swap_exchange_reads_no_factor { SwapExchangeReadsNoFactor }
    ensures fee_at_maturity { FeeAtMaturity }
    ensures fee_amount_does_not_accrue { FeeAmountDoesNotAccrue }
    ensures base_fixed_behind_interest { BaseFixedBehindInterest }
    ensures cap_below_the_floor { CapBelowTheFloor }
    ensures fixed_rate_above_the_cap { FixedRateAboveTheCap }
    ensures swap_reset { SwapReset }
    ensures started_annuity { StartedAnnuity }
{}

/// Which rows of its legs a swap takes, which it pays net, and what stops it; and what a cap stands against.
pub fn special_swaps()
    ensures rows_of_legs { RowsOfLegs }
    ensures netted_interest { NettedInterest }
    ensures interest_in_two_currencies { InterestInTwoCurrencies }
    ensures netted_in_order { NettedInOrder }
    ensures stop_of_the_first_child { StopOfTheFirstChild }
    ensures stop_at_termination { StopAtTermination }
    ensures stop_after_termination { StopAfterTermination }
    ensures stop_of_the_child_on_the_same_day { StopOfTheChildOnTheSameDay }
    ensures earlier_stop_of_the_swap { EarlierStopOfTheSwap }
    ensures cap_in_place_of_a_floor { CapInPlaceOfAFloor }
{}

/// When an option is exercised and settled.
pub fn special_options()
    ensures exercise_on_the_status_date { ExerciseOnTheStatusDate }
    ensures settlement_moved_back { SettlementMovedBack }
    ensures settlement_not_before_exercise { SettlementNotBeforeExercise }
    ensures settlement_past_2299 { SettlementPast2299 }
{}

/// What a default brings about, and what the stops of covered contracts do.
pub fn special_guarantees()
    ensures default_after_the_loan { DefaultAfterTheLoan }
    ensures no_default { NoDefault }
    ensures default_of_a_stopped_loan { DefaultOfAStoppedLoan }
    ensures default_after_an_overflow { DefaultAfterAnOverflow }
    ensures stopped_collateral { StoppedCollateral }
    ensures maturity_of_a_guarantee { MaturityOfAGuarantee }
{}
