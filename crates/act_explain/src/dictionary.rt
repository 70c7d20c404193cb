//! Names of the ACTUS data dictionary that are no terms of this profile.

/// Names that change cash flows by the standard, and what holds here in their place.
#[derive(Clone, Copy)]
struct Passed {
    names: &'static [&'static str],
    here: &'static str,
}

/// Those of all kinds.
const WITH_EFFECT: [Passed; 20] = [
    Passed {
        names: &["cyclePointOfInterestPayment"],
        here: "interest is paid at the end of its period",
    },
    Passed {
        names: &["cyclePointOfRateReset"],
        here: "a rate holds from its reset on",
    },
    Passed {
        names: &["fixingPeriod", "fixingDays"],
        here: "a rate is read as of the day of its reset",
    },
    Passed {
        names: &["amortizationDate"],
        here: "the payments redeem all by maturityDate",
    },
    Passed {
        names: &["creditLineAmount"],
        here: "the notional is paid out at the initial exchange, and nothing is drawn later",
    },
    Passed {
        names: &[
            "prepaymentEffect",
            "prepaymentPeriod",
            "objectCodeOfPrepaymentModel",
        ],
        here: "each prepayment that a script observes counts, on its day",
    },
    Passed {
        names: &["maximumPenaltyFreeDisbursement"],
        here: "each prepayment has the penalty of penaltyType",
    },
    Passed {
        names: &["delinquencyRate"],
        here: "no payment is late, and none bears interest for delay",
    },
    Passed {
        names: &["interestScalingMultiplier", "notionalScalingMultiplier"],
        here: "both multipliers begin with 1",
    },
    Passed {
        names: &["scalingIndexAtStatusDate"],
        here: "the index is divided by scalingIndexAtContractDealDate",
    },
    Passed {
        names: &["accruedInterest2"],
        here: "the accrued interest of the other side is computed",
    },
    Passed {
        names: &[
            "cycleAnchorDateOfDividend",
            "cycleOfDividend",
            "nextDividendPaymentAmount",
            "exDividendDate",
            "cycleAnchorDateOfDividendPayment",
            "cycleOfDividendPayment",
            "marketObjectCodeOfDividendRate",
        ],
        here: "dividends are observed by a script",
    },
    Passed {
        names: &["quantity"],
        here: "a price or a dividend is that of the whole contract",
    },
    Passed {
        names: &[
            "cycleAnchorDateOfOptionality",
            "cycleOfOptionality",
            "optionExerciseEndDate",
            "exerciseDate",
            "exerciseAmount",
        ],
        here: "an exercise is observed by a script, up to maturityDate, and its amount is computed",
    },
    Passed {
        names: &["settlementDays"],
        here: "the time to settlement is settlementPeriod",
    },
    Passed {
        names: &[
            "initialMargin",
            "variationMargin",
            "maintenanceMarginLowerBound",
            "maintenanceMarginUpperBound",
            "cycleAnchorDateOfMargining",
            "cycleOfMargining",
            "clearingHouse",
        ],
        here: "no margin is paid",
    },
    Passed {
        names: &[
            "arrayCycleAnchorDateOfPrincipalRedemption",
            "arrayCycleOfPrincipalRedemption",
            "arrayNextPrincipalRedemptionPayment",
            "arrayIncreaseDecrease",
            "arrayCycleAnchorDateOfInterestPayment",
            "arrayCycleOfInterestPayment",
            "arrayCycleAnchorDateOfRateReset",
            "arrayCycleOfRateReset",
            "arrayRate",
            "arrayFixedVariable",
        ],
        here: "a loan has one cycle of each sort, and there is no LAX",
    },
    Passed {
        names: &[
            "boundaryValue",
            "boundaryDirection",
            "boundaryEffect",
            "boundaryLegInitiallyActive",
            "boundaryMonitoringAnchorDate",
            "boundaryMonitoringCycle",
            "boundaryMonitoringEndDate",
        ],
        here: "nothing is switched by a boundary, and there is no BNDCP",
    },
    Passed {
        names: &["xDayNotice", "x_DayNotice"],
        here: "there is no CLM and no UMP",
    },
    Passed {
        names: &["objectCodeOfCashBalanceModel"],
        here: "there is no UMP",
    },
];

/// Those that change no cash flow.
const WITHOUT_EFFECT: [&str; 12] = [
    "creatorID",
    "counterpartyID",
    "legalEntityIDRecordCreator",
    "legalEntityIDCounterparty",
    "contractDealDate",
    "seniority",
    "unit",
    "marketValueObserved",
    "contractPerformance",
    "nonPerformingDate",
    "gracePeriod",
    "delinquencyPeriod",
];

/// What holds here in place of what a name of the dictionary changes by the standard.
pub(crate) fn here_of(name: &str) -> Option<&'static str> {
    for passed in &WITH_EFFECT {
        if passed.names.contains(&name) {
            return Some(passed.here);
        }
    }
    None
}

/// Whether a name of the dictionary changes no cash flow.
pub(crate) fn has_no_effect(name: &str) -> bool {
    WITHOUT_EFFECT.contains(&name)
}
