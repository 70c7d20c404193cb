//! What changes of a book leave of a run.
ghost use Rattle.act_causality.specs.Causality.{Causality, UnreadDoesNotMatter};
ghost use Rattle.act_run.specs.Resuming.{RunsAreKept, RunsAreKeptBetween};

/// Two books that have, as to a contract's cone, the same entries dated before a day give it the same rows dated before
/// that day; and the same whole run, where it stops before that day. It holds for all thirteen kinds, and through children.
pub fn what_is_dated_before_a_change_stays()
    ensures causality { Causality }
{
    act_causality::what_is_dated_before_a_change_stays();
}

/// Entries that a contract's cone doesn't read change nothing of its run.
pub fn what_is_not_read_does_not_matter()
    ensures unread { UnreadDoesNotMatter }
{
    act_causality::what_is_not_read_does_not_matter();
}

/// So what is kept of a contract's run is the same of its run over any other book that differs, as to its cone, only in
/// entries dated from the cut on, and in none where there is no cut: `resume` may go on from it.
pub fn runs_before_a_change_are_kept()
    ensures kept { RunsAreKept }
{}

/// What is kept of a contract's run at one version of a book is kept of its run at another, older or newer, under the cut from
/// the smaller to the greater of the two: so `resume` may go on from the one to the other.
pub fn runs_are_kept_between_versions()
    ensures kept { RunsAreKeptBetween }
{}
