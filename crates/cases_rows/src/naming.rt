//! Names and their numbers.
use act_model::{Names, is_name};

/// The last number that a name may get.
const LAST: u32 = 0x3FFF_FFFF;

/// The number that the name of a contract, a code or a currency has, or gets; None where it isn't one.
#[tactic(auto, using(std::proofs::lemmas::Option::slice_get_cases))]
pub fn number_of(names: &mut Names, sort: &str, name: &str) -> Option<u32> {
    let is_full = names.id(LAST).is_some()
        || names.code(LAST).is_some()
        || names.currency(LAST).is_some();
    if is_full || !is_name(name) {
        return None;
    }
    match (sort, names.contract(name)) {
        ("code", _) => names.intern_code(name).ok(),
        ("currency", _) => names.intern_currency(name).ok(),
        (_, None) if name != "*" => names.add_contract(name).ok(),
        (_, found) => found,
    }
}
