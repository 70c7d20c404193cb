//! The lines of the tables of steps, each in a small contract.
ghost use Rattle.act_profile_examples.specs.Tables.{BorrowersLoan, StartedLoan, StartedWithInterest, UndefinedStart, StartedSwap, AcrossALeapYear, MaturityInFebruary, BusinessDaysOfAWeek, ShiftedFirst, CountedFirst, SoldLoan, PenaltyAmount, LostInterest, NoLostInterest, PrepaidWhole, FeeAmount, FeeOnTheNotional, Scaled, BoundedReset, InterestOnAFixedBase, AnnuityWithAReset, MortgagePlan, StockWithDividends, SoldFuture, WorthlessCall, Put, CallAndPut, EarlyExercise, NoEarlyExercise, BoughtAndSoldSwap, OwnPurchaseFirst, CapOnASwap, CapOnAPrepaidLoan, CapUntilMaturity, ExposureWithoutInterest, ExposureByMarketValue, CoveredTwice, CutByALaterRate, CutByNothing, CutOfAShadow, CutOfACap, StoppedRunIsKept, StopOnTheCut};

/// The states that started contracts begin with, and the signs of a borrower.
pub fn starting_states()
    ensures borrowers_loan { BorrowersLoan }
    ensures started_loan { StartedLoan }
    ensures started_with_interest { StartedWithInterest }
    ensures undefined_start { UndefinedStart }
    ensures started_swap { StartedSwap }
{}

/// What the day counts and the conventions on business days make of interest.
pub fn counted_days()
    ensures across_a_leap_year { AcrossALeapYear }
    ensures maturity_in_february { MaturityInFebruary }
    ensures business_days_of_a_week { BusinessDaysOfAWeek }
    ensures shifted_first { ShiftedFirst }
    ensures counted_first { CountedFirst }
{}

/// What the events of loans pay and change.
pub fn steps_of_loans()
    ensures sold_loan { SoldLoan }
    ensures penalty_amount { PenaltyAmount }
    ensures lost_interest { LostInterest }
    ensures no_lost_interest { NoLostInterest }
    ensures prepaid_whole { PrepaidWhole }
    ensures fee_amount { FeeAmount }
    ensures fee_on_the_notional { FeeOnTheNotional }
    ensures scaled { Scaled }
    ensures bounded_reset { BoundedReset }
    ensures interest_on_a_fixed_base { InterestOnAFixedBase }
    ensures annuity_with_a_reset { AnnuityWithAReset }
    ensures mortgage_plan { MortgagePlan }
{}

/// What the events of stocks, options and futures pay.
pub fn steps_of_trades()
    ensures stock_with_dividends { StockWithDividends }
    ensures sold_future { SoldFuture }
    ensures worthless_call { WorthlessCall }
    ensures put { Put }
    ensures call_and_put { CallAndPut }
    ensures early_exercise { EarlyExercise }
    ensures no_early_exercise { NoEarlyExercise }
{}

/// What the events of swaps and of caps over them pay.
pub fn steps_of_swaps()
    ensures bought_and_sold_swap { BoughtAndSoldSwap }
    ensures own_purchase_first { OwnPurchaseFirst }
    ensures cap_on_a_swap { CapOnASwap }
    ensures cap_on_a_prepaid_loan { CapOnAPrepaidLoan }
    ensures cap_until_maturity { CapUntilMaturity }
{}

/// What a guarantee pays for each kind of exposure.
pub fn steps_of_guarantees()
    ensures exposure_without_interest { ExposureWithoutInterest }
    ensures exposure_by_market_value { ExposureByMarketValue }
    ensures covered_twice { CoveredTwice }
{}

/// From which day on an entry touches a run, and what is kept of it.
pub fn kept_parts()
    ensures cut_by_a_later_rate { CutByALaterRate }
    ensures cut_by_nothing { CutByNothing }
    ensures cut_of_a_shadow { CutOfAShadow }
    ensures cut_of_a_cap { CutOfACap }
    ensures stopped_run_is_kept { StoppedRunIsKept }
    ensures stop_on_the_cut { StopOnTheCut }
{}
