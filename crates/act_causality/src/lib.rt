//! Causality: what is dated before a change stays.
#![tactic(auto)]

ghost use Rattle.act_causality.specs.Causality.{Causality, EventsStay, KeptRowsStay, StepsReadRowsUntilTheirDay, StepsReadTheirDay, StepsStay, StopsStay, UnreadDoesNotMatter};
ghost use Rattle.act_causality.specs.Example.{FourContractsAreLinked};

/// Over books and children's runs that agree before a day, a contract has the same events dated before it, but for the
/// places of their observations.
pub fn events_dated_before_a_change_stay()
    ensures events { EventsStay }
{}

/// So are the steps of these events and the currencies of their payoffs. A step stops on the day of its event, if it does.
pub fn steps_dated_before_a_change_stay()
    ensures steps { StepsStay }
    ensures stops { StopsStay }
{}

/// The step of an event reads, of the codes of its contract, what they are observed to be on the event's day, and nothing
/// else of the book; and of children's runs only what is dated not after that day, rows and stops.
pub fn steps_read_the_day_of_their_event()
    ensures codes { StepsReadTheirDay }
    ensures rows { StepsReadRowsUntilTheirDay }
{}

/// Two books that have, as to a contract's cone, the same entries dated before a day give it the same rows dated before
/// that day; and the same whole run, where it stops before that day.
pub fn what_is_dated_before_a_change_stays()
    ensures causality { Causality }
{}

/// Entries that a contract's cone doesn't read change nothing of its run.
pub fn what_is_not_read_does_not_matter()
    ensures unread { UnreadDoesNotMatter }
{}

/// What is kept of a run under the cut between two versions of a book is the same of the run at either version: the rows
/// before the cut, or the whole run where there is no cut or it stops before it.
pub fn kept_rows_are_those_of_either_version()
    ensures kept { KeptRowsStay }
{}

/// What the law asks of a portfolio is met by one of a loan, a cap or floor on it with its shadow, and a guarantee of it.
pub fn what_the_law_asks_of_portfolios_is_met()
    ensures four_contracts { FourContractsAreLinked }
{}
