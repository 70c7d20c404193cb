//! Choices among the texts that a term may have.
ghost use Rattle.std.specs.Prelude.{◌≡◌};
ghost use Rattle.std.specs.Str.{bytes_eq};
ghost use Rattle.act_model.specs.Kind.{type_name, type_named};

/// Which side of a contract the record's owner is on.
#[derive(Clone, Copy, PartialEq, Eq)]
pub enum ContractRole {
    /// Real position asset.
    RPA,
    /// Receive first leg.
    RFL,
    /// Receive fix leg.
    RF,
    /// Buyer.
    BUY,
    /// Long position.
    LG,
    /// Obligee. Its sign is this profile's own.
    OBL,
    /// Collateral position. Its sign is this profile's own.
    COL,
    /// Real position liability.
    RPL,
    /// Pay first leg.
    PFL,
    /// Pay fix leg.
    PF,
    /// Seller.
    SEL,
    /// Short position.
    ST,
    /// Guarantor. Its sign is this profile's own.
    GUA,
}

/// The types of contracts.
#[derive(Clone, Copy, PartialEq, Eq)]
pub enum ContractType {
    /// Principal at maturity.
    PAM,
    /// Linear amortizer.
    LAM,
    /// Negative amortizer.
    NAM,
    /// Annuity.
    ANN,
    /// Stock.
    STK,
    /// Foreign exchange outright.
    FXOUT,
    /// Plain vanilla interest rate swap.
    SWPPV,
    /// Swap of two contracts.
    SWAPS,
    /// Cap and floor.
    CAPFL,
    /// Option.
    OPTNS,
    /// Future.
    FUTUR,
    /// Guarantee.
    CEG,
    /// Collateral.
    CEC,
}

/// The types of contracts.
const TYPES: [ContractType; 13] = [
    ContractType::PAM,
    ContractType::LAM,
    ContractType::NAM,
    ContractType::ANN,
    ContractType::STK,
    ContractType::FXOUT,
    ContractType::SWPPV,
    ContractType::SWAPS,
    ContractType::CAPFL,
    ContractType::OPTNS,
    ContractType::FUTUR,
    ContractType::CEG,
    ContractType::CEC,
];

impl ContractType {
    /// The ACTUS name of the type.
    pub fn name(self) -> &'static str
        ensures { result.now ≡ type_name self }
    {
        match self {
            ContractType::PAM => "PAM",
            ContractType::LAM => "LAM",
            ContractType::NAM => "NAM",
            ContractType::ANN => "ANN",
            ContractType::STK => "STK",
            ContractType::FXOUT => "FXOUT",
            ContractType::SWPPV => "SWPPV",
            ContractType::SWAPS => "SWAPS",
            ContractType::CAPFL => "CAPFL",
            ContractType::OPTNS => "OPTNS",
            ContractType::FUTUR => "FUTUR",
            ContractType::CEG => "CEG",
            ContractType::CEC => "CEC",
        }
    }

    /// The type of that name, or None where none has it.
    #[tactic(auto, unfolding(crate::specs::Kind::type_named))]
    pub fn named(name: &str) -> Option<ContractType>
        ensures { result ≡ type_named name.now }
    {
        TYPES.iter().copied().find(|kind| kind.is_named(name))
    }

    /// Whether the type has that name.
    fn is_named(self, name: &str) -> bool
        ensures { result ≡ bytes_eq (type_name self) name.now }
    {
        self.name() == name
    }
}

/// What interest of an amortizing loan is computed on.
#[derive(Clone, Copy, PartialEq, Eq)]
pub enum InterestCalculationBase {
    /// The notional.
    NT,
    /// An amount that stays.
    NTIED,
    /// An amount that is set to the notional on days of its own.
    NTL,
}

/// Whether a fee is an amount or a rate.
#[derive(Clone, Copy, PartialEq, Eq)]
pub enum FeeBasis {
    /// An amount, paid on each fee date.
    A,
    /// A yearly rate on the notional.
    N,
}

/// How the penalty of a prepayment is computed.
#[derive(Clone, Copy, PartialEq, Eq)]
pub enum PenaltyType {
    /// There is none.
    O,
    /// An amount.
    A,
    /// A part of what is prepaid.
    N,
    /// The interest that is lost up to maturity.
    I,
}

/// What is scaled by an index.
#[derive(Clone, Copy, PartialEq, Eq)]
pub struct ScalingEffect {
    /// Interest payments, the text's I.
    pub interest: bool,
    /// Payments of principal, the text's N.
    pub notional: bool,
}

/// What is delivered.
#[derive(Clone, Copy, PartialEq, Eq)]
pub enum DeliverySettlement {
    /// Each side's payments.
    D,
    /// The difference alone.
    S,
}

/// Kinds of options.
#[derive(Clone, Copy, PartialEq, Eq)]
pub enum OptionType {
    /// A call.
    C,
    /// A put.
    P,
    /// A call and a put.
    CP,
}

/// When an option may be exercised.
#[derive(Clone, Copy, PartialEq, Eq)]
pub enum ExerciseType {
    /// European: at maturity.
    E,
    /// American: on any day up to maturity.
    A,
    /// Bermudan: on certain days up to maturity.
    B,
}

/// What the exposure of a covered contract is.
#[derive(Clone, Copy, PartialEq, Eq)]
pub enum GuaranteedExposure {
    /// The notional.
    NO,
    /// The notional and the interest accrued.
    NI,
    /// The market value.
    MV,
}
