//! What names look like.
ghost use Rattle.std.specs.Prelude.{◌≡◌};
ghost use Rattle.std.specs.List.{list_all};
ghost use Rattle.act_model.specs.Name.{has_form, is_currency, is_graphic, is_name};

/// The most bytes of a name.
const MOST_NAME: usize = 64;

/// The most bytes of a currency's name.
const MOST_CURRENCY: usize = 16;

/// Whether a text is a name: 1 to 64 printable ASCII characters without space, bytes 0x21 to 0x7E. Contracts,
/// market objects and currencies have such names (this profile's own).
pub fn is_name(text: &str) -> bool
    ensures { result ≡ is_name text.now }
{
    has_form(text, MOST_NAME)
}

/// Whether a text is the name of a currency: a name of at most 16 characters (this profile's own).
pub fn is_currency(text: &str) -> bool
    ensures { result ≡ is_currency text.now }
{
    has_form(text, MOST_CURRENCY)
}

/// Printable ASCII characters without space, from one up to so many.
#[tactic(auto, unfolding(crate::specs::Name::has_form))]
fn has_form(text: &str, most: usize) -> bool
    ensures { result ≡ has_form most text.now }
{
    (1..=most).contains(&text.len()) && are_graphic(text.as_bytes())
}

/// Whether all bytes are printable ASCII characters other than a space.
fn are_graphic(bytes: &[u8]) -> bool
    ensures { result ≡ list_all is_graphic bytes.now }
{
    bytes.iter().all(|byte| byte.is_ascii_graphic())
}
