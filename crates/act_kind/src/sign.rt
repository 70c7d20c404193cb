//! The sign R of a contract's role.
ghost use Rattle.std.specs.Prelude.{◌≡◌};
ghost use Rattle.act_profile.specs.Formula.{is_receiver, opposite, signed};

use act_model::ContractRole;
use act_num::Fixed;

/// R*x: the amount, or for a role that pays its negative.
pub fn signed(role: ContractRole, amount: Fixed) -> Fixed
    ensures { result ≡ signed role amount }
{
    if is_receiver(role) {
        amount
    } else {
        amount.neg()
    }
}

/// -R*x: the opposite.
pub fn opposite(role: ContractRole, amount: Fixed) -> Fixed
    ensures { result ≡ opposite role amount }
{
    signed(role, amount).neg()
}

/// Whether the sign of a role is +1.
fn is_receiver(role: ContractRole) -> bool
    ensures { result ≡ is_receiver role }
{
    match role {
        ContractRole::RPA
        | ContractRole::RFL
        | ContractRole::RF
        | ContractRole::BUY
        | ContractRole::LG
        | ContractRole::OBL
        | ContractRole::COL => true,
        ContractRole::RPL
        | ContractRole::PFL
        | ContractRole::PF
        | ContractRole::SEL
        | ContractRole::ST
        | ContractRole::GUA => false,
    }
}
