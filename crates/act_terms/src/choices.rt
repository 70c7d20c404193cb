//! The texts that a choice may have.
ghost use Rattle.std.specs.Prelude.{◌≡◌, ℕ, ◌||◌, ◌==◌, List, Option, Some, map};
ghost use Rattle.std.specs.Option.{ok_or};
ghost use Rattle.act_json.specs.Tree.{data_in};
ghost use Rattle.act_json.specs.Tree.{object_of};
ghost use Rattle.act_json.specs.Results.{result_map};
ghost use Rattle.act_terms.specs.Choices.{among, calculation_base_named, calendar_named, convention_named, credit_event_named, day_count_named, delivery_named, exercise_type_named, exposure_named, fee_basis_named, is_none, month_rule_named, option_type_named, penalty_type_named, reference_role_named, reference_type_named, role_named, scaling_effect_named};
ghost use Rattle.act_terms.specs.Fields.{choice_field};

use crate::reference::{ReferenceRole, ReferenceType};
use act_date::{Calendar, Convention, DayCount, MonthRule};
use act_json::{JsonFault, Object, text_within};
use act_model::{
    ContractRole, DeliverySettlement, ExerciseType, FeeBasis, GuaranteedExposure,
    InterestCalculationBase, ObsKind, OptionType, PenaltyType, ScalingEffect,
};
use json::Value;

/// The roles of a contract's owner, by their names.
const ROLES: [(&str, ContractRole); 13] = [
    ("RPA", ContractRole::RPA),
    ("RFL", ContractRole::RFL),
    ("RF", ContractRole::RF),
    ("BUY", ContractRole::BUY),
    ("LG", ContractRole::LG),
    ("OBL", ContractRole::OBL),
    ("COL", ContractRole::COL),
    ("RPL", ContractRole::RPL),
    ("PFL", ContractRole::PFL),
    ("PF", ContractRole::PF),
    ("SEL", ContractRole::SEL),
    ("ST", ContractRole::ST),
    ("GUA", ContractRole::GUA),
];

/// The calendars, by their names.
const CALENDARS: [(&str, Calendar); 2] = [("NC", Calendar::Nc), ("MF", Calendar::Mf)];

/// The conventions of business days, by their names; `NULL` is no shift.
const CONVENTIONS: [(&str, Convention); 10] = [
    ("NOS", Convention::Nos),
    ("NULL", Convention::Nos),
    ("SCF", Convention::Scf),
    ("SCMF", Convention::Scmf),
    ("CSF", Convention::Csf),
    ("CSMF", Convention::Csmf),
    ("SCP", Convention::Scp),
    ("SCMP", Convention::Scmp),
    ("CSP", Convention::Csp),
    ("CSMP", Convention::Csmp),
];

/// The rules for the ends of months, by their names.
const MONTH_RULES: [(&str, MonthRule); 2] = [("SD", MonthRule::Sd), ("EOM", MonthRule::Eom)];

/// The day counts, by their names.
const DAY_COUNTS: [(&str, DayCount); 6] = [
    ("AA", DayCount::Aa),
    ("A360", DayCount::A360),
    ("A365", DayCount::A365),
    ("30E360", DayCount::E30),
    ("30E360ISDA", DayCount::E30Isda),
    ("B252", DayCount::B252),
];

/// The bases of fees, by their names.
const FEE_BASES: [(&str, FeeBasis); 2] = [("A", FeeBasis::A), ("N", FeeBasis::N)];

/// The types of penalties, by their names.
const PENALTY_TYPES: [(&str, PenaltyType); 4] = [
    ("O", PenaltyType::O),
    ("A", PenaltyType::A),
    ("N", PenaltyType::N),
    ("I", PenaltyType::I),
];

/// What interest of an amortizing loan is computed on, by the names.
const CALCULATION_BASES: [(&str, InterestCalculationBase); 3] = [
    ("NT", InterestCalculationBase::NT),
    ("NTIED", InterestCalculationBase::NTIED),
    ("NTL", InterestCalculationBase::NTL),
];

/// What an outright delivers, by the names.
const DELIVERIES: [(&str, DeliverySettlement); 2] = [
    ("D", DeliverySettlement::D),
    ("S", DeliverySettlement::S),
];

/// The kinds of options, by their names.
const OPTION_TYPES: [(&str, OptionType); 3] = [
    ("C", OptionType::C),
    ("P", OptionType::P),
    ("CP", OptionType::CP),
];

/// When options may be exercised, by the names.
const EXERCISE_TYPES: [(&str, ExerciseType); 3] = [
    ("E", ExerciseType::E),
    ("A", ExerciseType::A),
    ("B", ExerciseType::B),
];

/// What the exposure of a covered contract may be, by the names.
const EXPOSURES: [(&str, GuaranteedExposure); 3] = [
    ("NO", GuaranteedExposure::NO),
    ("NI", GuaranteedExposure::NI),
    ("MV", GuaranteedExposure::MV),
];

/// The credit events, by their names.
const CREDIT_EVENTS: [(&str, ObsKind); 3] = [
    ("DL", ObsKind::DL),
    ("DQ", ObsKind::DQ),
    ("DF", ObsKind::DF),
];

/// What a reference may be to, by the names.
const REFERENCE_TYPES: [(&str, ReferenceType); 3] = [
    ("CNT", ReferenceType::CNT),
    ("CID", ReferenceType::CID),
    ("MOC", ReferenceType::MOC),
];

/// The roles of what is referred to, by their names.
const REFERENCE_ROLES: [(&str, ReferenceRole); 5] = [
    ("UDL", ReferenceRole::UDL),
    ("FIL", ReferenceRole::FIL),
    ("SEL", ReferenceRole::SEL),
    ("COVE", ReferenceRole::COVE),
    ("COVI", ReferenceRole::COVI),
];

/// A choice among the texts that a term may have.
pub(crate) trait Choice: Copy {
    /// The choice that a text names.
    ghost named: { List ℕ → Option Self };

    /// The choice that a text names, or None.
    fn named(text: &str) -> Option<Self>
        ensures { result ≡ named text.now };
}

/// The choice that a term gives. BadValue where its text names none.
#[tactic(auto, unfolding(crate::specs::Fields::choice_field))]
pub(crate) fn choice_in<T: Choice>(contract: &Object, term: &str) -> Result<Option<T>, JsonFault>
    ensures { result ≡ choice_field T.named term.now (object_of contract.now) }
{
    match contract.text(term)? {
        Some(text) => chosen(T::named(text)),
        None => Ok(None),
    }
}

/// The choice that a member of an element gives. BadValue where its text names none.
#[tactic(auto, unfolding(crate::specs::Fields::choice_field))]
pub(crate) fn choice_within<T: Choice>(element: &Value, name: &str) -> Result<Option<T>, JsonFault>
    ensures { result ≡ choice_field T.named name.now (data_in element.now) }
{
    match text_within(element, name)? {
        Some(text) => chosen(T::named(text)),
        None => Ok(None),
    }
}

/// What is chosen, or BadValue where the text has no choice.
fn chosen<T>(choice: Option<T>) -> Result<Option<T>, JsonFault>
    ensures { result ≡ result_map Some (ok_or choice JsonFault.BadValue) }
{
    match choice {
        Some(choice) => Ok(Some(choice)),
        None => Err(JsonFault::BadValue),
    }
}

/// The choice of a text, by the first pair that has it.
#[tactic(auto, using(crate::proofs::Among::passed_over, crate::proofs::Among::found, crate::proofs::Among::none_left))]
fn among<T: Copy>(choices: &[(&str, T)], text: &str) -> Option<T>
    ensures { result ≡ among (map (λ c. (c.0.now, c.1)) choices.now) text.now }
{
    for choice in choices {
        if text == choice.0 {
            return Some(choice.1);
        }
    }
    None
}

impl Choice for ContractRole {
    ghost named = { role_named };

    #[tactic(auto, unfolding(crate::specs::Choices::role_named))]
    fn named(text: &str) -> Option<ContractRole> {
        among(&ROLES, text)
    }
}

impl Choice for Calendar {
    ghost named = { calendar_named };

    #[tactic(auto, unfolding(crate::specs::Choices::calendar_named))]
    fn named(text: &str) -> Option<Calendar> {
        among(&CALENDARS, text)
    }
}

impl Choice for Convention {
    ghost named = { convention_named };

    #[tactic(auto, unfolding(crate::specs::Choices::convention_named))]
    fn named(text: &str) -> Option<Convention> {
        among(&CONVENTIONS, text)
    }
}

impl Choice for MonthRule {
    ghost named = { month_rule_named };

    #[tactic(auto, unfolding(crate::specs::Choices::month_rule_named))]
    fn named(text: &str) -> Option<MonthRule> {
        among(&MONTH_RULES, text)
    }
}

impl Choice for DayCount {
    ghost named = { day_count_named };

    #[tactic(auto, unfolding(crate::specs::Choices::day_count_named))]
    fn named(text: &str) -> Option<DayCount> {
        among(&DAY_COUNTS, text)
    }
}

impl Choice for FeeBasis {
    ghost named = { fee_basis_named };

    #[tactic(auto, unfolding(crate::specs::Choices::fee_basis_named))]
    fn named(text: &str) -> Option<FeeBasis> {
        among(&FEE_BASES, text)
    }
}

impl Choice for PenaltyType {
    ghost named = { penalty_type_named };

    #[tactic(auto, unfolding(crate::specs::Choices::penalty_type_named))]
    fn named(text: &str) -> Option<PenaltyType> {
        among(&PENALTY_TYPES, text)
    }
}

impl Choice for InterestCalculationBase {
    ghost named = { calculation_base_named };

    #[tactic(auto, unfolding(crate::specs::Choices::calculation_base_named))]
    fn named(text: &str) -> Option<InterestCalculationBase> {
        among(&CALCULATION_BASES, text)
    }
}

impl Choice for DeliverySettlement {
    ghost named = { delivery_named };

    #[tactic(auto, unfolding(crate::specs::Choices::delivery_named))]
    fn named(text: &str) -> Option<DeliverySettlement> {
        among(&DELIVERIES, text)
    }
}

impl Choice for OptionType {
    ghost named = { option_type_named };

    #[tactic(auto, unfolding(crate::specs::Choices::option_type_named))]
    fn named(text: &str) -> Option<OptionType> {
        among(&OPTION_TYPES, text)
    }
}

impl Choice for ExerciseType {
    ghost named = { exercise_type_named };

    #[tactic(auto, unfolding(crate::specs::Choices::exercise_type_named))]
    fn named(text: &str) -> Option<ExerciseType> {
        among(&EXERCISE_TYPES, text)
    }
}

impl Choice for GuaranteedExposure {
    ghost named = { exposure_named };

    #[tactic(auto, unfolding(crate::specs::Choices::exposure_named))]
    fn named(text: &str) -> Option<GuaranteedExposure> {
        among(&EXPOSURES, text)
    }
}

impl Choice for ObsKind {
    ghost named = { credit_event_named };

    #[tactic(auto, unfolding(crate::specs::Choices::credit_event_named))]
    fn named(text: &str) -> Option<ObsKind> {
        among(&CREDIT_EVENTS, text)
    }
}

impl Choice for ReferenceType {
    ghost named = { reference_type_named };

    #[tactic(auto, unfolding(crate::specs::Choices::reference_type_named))]
    fn named(text: &str) -> Option<ReferenceType> {
        among(&REFERENCE_TYPES, text)
    }
}

impl Choice for ReferenceRole {
    ghost named = { reference_role_named };

    #[tactic(auto, unfolding(crate::specs::Choices::reference_role_named))]
    fn named(text: &str) -> Option<ReferenceRole> {
        among(&REFERENCE_ROLES, text)
    }
}

/// The effect of three letters: the first for interest, the second for the notional.
impl Choice for ScalingEffect {
    ghost named = { scaling_effect_named };

    #[tactic(auto, unfolding(crate::specs::Choices::scaling_effect_named))]
    fn named(text: &str) -> Option<ScalingEffect> {
        match text.as_bytes() {
            [
                interest @ (b'I' | b'O' | b'0'),
                notional @ (b'N' | b'O' | b'0'),
                b'O' | b'0',
            ] => Some(ScalingEffect {
                interest: *interest == b'I',
                notional: *notional == b'N',
            }),
            _ => None,
        }
    }
}
