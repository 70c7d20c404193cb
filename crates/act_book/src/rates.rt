//! The latest rate of a code.
ghost use Rattle.std.specs.Prelude.{◌≡◌};
ghost use Rattle.act_model.specs.Latest.{later};
ghost use Rattle.act_model.specs.Observed.{rate_until};
ghost use Rattle.act_book.specs.Rates.{latest_rate};

use act_date::Day;
use act_model::Obs;
use act_num::Fixed;

/// The day and the value of the latest rate of a code dated not after a day, in one pass over the entries.
pub fn latest_among(entries: &[Obs], code: u32, until: Day) -> Option<(Day, Fixed)>
    ensures { result ≡ latest_rate entries.now code until }
{
    for (place, entry) in entries.iter().enumerate() {
        if let Obs::Rate {
            code: of,
            day,
            value,
        } = entry
        {
            if (*of == code) & (*day <= until) {
                let first = (*day, *value);
                return Some(latest_from(first, &entries[place + 1..], code, until));
            }
        }
    }
    None
}

/// The later of `first`, and of the latest rate of a code dated not after a day among entries that stand behind it. `&` tests
/// all without a branch for each part.
fn latest_from(first: (Day, Fixed), entries: &[Obs], code: u32, until: Day) -> (Day, Fixed)
    ensures { Some result ≡ later (Some first) (latest_rate entries.now code until) }
{
    let mut last = first.0;
    let mut value_of_last = first.1;
    for entry in entries {
        if let Obs::Rate {
            code: of,
            day,
            value,
        } = entry
        {
            if (*of == code) & (*day <= until) & (last <= *day) {
                last = *day;
                value_of_last = *value;
            }
        }
    }
    (last, value_of_last)
}

/// The day and the value of an entry, where it is a rate of the code dated not after a day.
pub fn rate_until(entry: &Obs, code: u32, until: Day) -> Option<(Day, Fixed)>
    ensures { result ≡ rate_until code until entry.now }
{
    match *entry {
        Obs::Rate {
            code: of,
            day,
            value,
        } => (of == code && day <= until).then_some((day, value)),
        Obs::Event { .. } => None,
    }
}

/// The later of two rates, of which the second stands behind the first: the second, unless its day is before.
pub fn later(first: Option<(Day, Fixed)>, second: Option<(Day, Fixed)>) -> Option<(Day, Fixed)>
    ensures { result ≡ later first second }
{
    match (first, second) {
        (Some(first), Some(second)) => Some(if second.0 < first.0 { first } else { second }),
        (first, None) => first,
        (None, second) => second,
    }
}
