//! Names of given numbers.
ghost use Rattle.std.specs.Prelude.{◌≡◌, ◌<◌, length, true};
ghost use Rattle.act_model.specs.Name.{is_name};
ghost use Rattle.act_text.specs.Lines.{name_of};

use act_model::Names;

/// The name of the contract of that number.
pub fn contract_name(names: &Names, contract: u32) -> &str
    requires { contract < length names.now.contracts }
    ensures text { result.now ≡ name_of names.now.contracts contract }
    ensures name { is_name result.now ≡ true }
{
    names.id(contract).unwrap()
}

/// The name of the market object of that number.
pub fn code_name(names: &Names, code: u32) -> &str
    requires { code < length names.now.codes }
    ensures text { result.now ≡ name_of names.now.codes code }
    ensures name { is_name result.now ≡ true }
{
    names.code(code).unwrap()
}

/// The name of the currency of that number.
pub fn currency_name(names: &Names, currency: u32) -> &str
    requires { currency < length names.now.currencies }
    ensures text { result.now ≡ name_of names.now.currencies currency }
    ensures name { is_name result.now ≡ true }
{
    names.currency(currency).unwrap()
}
