//! Terms that are required, that may be left out, and that have a bound.
ghost use Rattle.std.specs.Prelude.{◌≡◌, IfOk, IsTrue, is_some, true};
ghost use Rattle.act_json.specs.Tree.{object_of};
ghost use Rattle.act_profile.specs.Built.{LeadsOn};
ghost use Rattle.act_terms.specs.Fields.{cycle_where, day_after, needed, needed_day, needed_where, not_negative, optional, optional_cycle, optional_day, optional_decimal, positive};

use crate::fault::{TermCause, TermsFault, fault_at, refused};
use act_date::{Cycle, Day};
use act_json::{JsonFault, Object};
use act_num::Fixed;

/// What a term that may be left out gives.
pub(crate) fn optional<T>(
    term: &'static str,
    found: Result<Option<T>, JsonFault>,
) -> Result<Option<T>, TermsFault>
    ensures { result ≡ optional term.now found }
{
    match found {
        Ok(found) => Ok(found),
        Err(fault) => Err(fault_at(term, fault)),
    }
}

/// What a term gives that is required.
pub(crate) fn needed<T>(
    term: &'static str,
    found: Result<Option<T>, JsonFault>,
) -> Result<T, TermsFault>
    ensures { result ≡ needed term.now found }
{
    match found {
        Ok(Some(value)) => Ok(value),
        Ok(None) => Err(refused(TermCause::MissingTerm, term)),
        Err(fault) => Err(fault_at(term, fault)),
    }
}

/// What a term gives that is required where something holds.
pub(crate) fn needed_where<T>(
    wanted: bool,
    term: &'static str,
    found: Result<Option<T>, JsonFault>,
) -> Result<Option<T>, TermsFault>
    ensures { result ≡ needed_where wanted term.now found }
{
    match found {
        Ok(None) if wanted => Err(refused(TermCause::MissingTerm, term)),
        Ok(found) => Ok(found),
        Err(fault) => Err(fault_at(term, fault)),
    }
}

/// The day of a term that may be left out.
#[tactic(auto, unfolding(crate::specs::Fields::optional_day))]
pub(crate) fn optional_day(contract: &Object, term: &'static str) -> Result<Option<Day>, TermsFault>
    ensures { result ≡ optional_day term.now (object_of contract.now) }
{
    optional(term, contract.day(term))
}

/// The number of a term that may be left out.
#[tactic(auto, unfolding(crate::specs::Fields::optional_decimal))]
pub(crate) fn optional_decimal(
    contract: &Object,
    term: &'static str,
) -> Result<Option<Fixed>, TermsFault>
    ensures { result ≡ optional_decimal term.now (object_of contract.now) }
{
    optional(term, contract.decimal(term))
}

/// The cycle of a term that may be left out; its period has at least one unit.
#[tactic(auto, unfolding(crate::specs::Fields::optional_cycle))]
pub(crate) fn optional_cycle(
    contract: &Object,
    term: &'static str,
) -> Result<Option<Cycle>, TermsFault>
    ensures cycle { result ≡ optional_cycle term.now (object_of contract.now) }
    ensures leads_on { IfOk result (λ found. LeadsOn found) }
{
    optional(term, contract.cycle(term))
}

/// The cycle of a term that is required where something holds; its period has at least one unit.
#[tactic(auto, unfolding(crate::specs::Fields::cycle_where))]
pub(crate) fn cycle_where(
    wanted: bool,
    contract: &Object,
    term: &'static str,
) -> Result<Option<Cycle>, TermsFault>
    ensures cycle { result ≡ cycle_where wanted term.now (object_of contract.now) }
    ensures leads_on { IfOk result (λ found. LeadsOn found) }
    ensures given { IfOk result (λ found. wanted ≡ true → IsTrue (is_some found)) }
{
    needed_where(wanted, term, contract.cycle(term))
}

/// The day of a term that is required.
#[tactic(auto, unfolding(crate::specs::Fields::needed_day))]
pub(crate) fn needed_day(contract: &Object, term: &'static str) -> Result<Day, TermsFault>
    ensures { result ≡ needed_day term.now (object_of contract.now) }
{
    needed(term, contract.day(term))
}

/// A day after another one, or BadValue.
#[tactic(auto, unfolding(crate::specs::Fields::day_after))]
pub(crate) fn day_after(first: Day, contract: &Object, term: &str) -> Result<Option<Day>, JsonFault>
    ensures { result ≡ day_after first term.now (object_of contract.now) }
{
    match contract.day(term)? {
        Some(found) if found <= first => Err(JsonFault::BadValue),
        Some(found) => Ok(Some(found)),
        None => Ok(None),
    }
}

/// A number that isn't negative, or BadValue.
#[tactic(auto, unfolding(crate::specs::Fields::not_negative))]
pub(crate) fn not_negative(contract: &Object, term: &str) -> Result<Option<Fixed>, JsonFault>
    ensures { result ≡ not_negative term.now (object_of contract.now) }
{
    match contract.decimal(term)? {
        Some(found) if found < Fixed::ZERO => Err(JsonFault::BadValue),
        Some(found) => Ok(Some(found)),
        None => Ok(None),
    }
}

/// A number above 0, or BadValue.
#[tactic(auto, unfolding(crate::specs::Fields::positive))]
pub(crate) fn positive(contract: &Object, term: &str) -> Result<Option<Fixed>, JsonFault>
    ensures { result ≡ positive term.now (object_of contract.now) }
{
    match contract.decimal(term)? {
        Some(found) if found <= Fixed::ZERO => Err(JsonFault::BadValue),
        Some(found) => Ok(Some(found)),
        None => Ok(None),
    }
}
