//! The evaluation of a contract, from when it is handed out until it comes back.

use act_book::Snapshot as Entries;
use act_keeping::latest::Cached;
use act_model::{Observed, Run};
use act_num::{NoMemory, Steps};
use act_portfolio::Portfolio;
use act_run::{Inputs, evaluate, is_kept_whole, kept_rows, resume_shared};
use std::alloc::Global;
use std::marker::Model;
use std::snapshot::Snapshot;
use std::sync::Arc;
use std::sync::ledger::Ledger;

/// The evaluation of a contract over the first entries of a book, to be made. It holds what it goes on from: the contract's
/// latest result, at an older or a newer version, and the cut between the two. It comes from a board alone.
#[derive(Drop)]
pub struct Task {
    contract: u32,
    version: u64,
    seen: Entries,
    children: Vec<Arc<Run, Global>>,
    cached: Cached,
    /// Which portfolio it is of; contracts alone see it.
    of: Snapshot<Portfolio>,
}

impl Model for Task {
    ghost use Rattle.std.specs.Prelude.{map};
    ghost use Rattle.std.specs.Arc.{arc_value};
    ghost use Rattle.act_keeping.specs.Tasks.{IsTask, work_over};
    ghost use Rattle.act_keeping.specs.Work.{Work};

    ghost Value = { Work };

    ghost view = { λ t. work_over t.of.value t.contract t.seen t.cached };

    ghost invariant = { λ t. IsTask (work_over t.of.value t.contract t.seen t.cached) t.version (map arc_value t.children.items) t.cached };
}

impl Task {
    ghost use Rattle.std.specs.Prelude.{◌≡◌, ◌+◌, ◌<◌, Ok, length, map, IfErr, IfOk};
    ghost use Rattle.std.specs.Arc.{arc_value};
    ghost use Rattle.act_refs.specs.Ordered.{order_of};
    ghost use Rattle.act_profile.specs.DayOrder.{AreInDayOrder};
    ghost use Rattle.act_run.specs.Inputs.{run_given};
    ghost use Rattle.act_keeping.specs.Tasks.{AreRunsBelow, MayGoOn, work_over};
    ghost use Rattle.act_keeping.specs.Work.{outcome, version};

    /// The task of a contract over entries, with its children's runs and what it goes on from.
    pub(crate) fn new(
        portfolio: &Portfolio,
        contract: u32,
        seen: Entries,
        children: Vec<Arc<Run, Global>>,
        cached: Cached,
    ) -> Task
        requires contract { contract < length portfolio.now.contracts.terms }
        requires ordered { order_of portfolio.now.contracts.children ≡ Ok portfolio.now.order }
        requires count { length portfolio.now.contracts.children ≡ length portfolio.now.contracts.terms }
        requires children { AreRunsBelow (work_over portfolio.now contract seen cached) (map arc_value children.items) }
        requires kept { MayGoOn (outcome (work_over portfolio.now contract seen cached)) cached.run cached.cut }
        ensures { result ≡ work_over portfolio.now contract seen cached }
    {
        Task {
            contract,
            version: seen.version(),
            seen,
            children,
            cached,
            of: Snapshot::of(portfolio),
        }
    }

    /// The contract's number.
    pub fn contract(&self) -> u32
        ensures { result ≡ self.now.contract }
    {
        self.contract
    }

    /// How many entries it is evaluated over.
    pub fn version(&self) -> u64
        ensures { result ≡ version self.now }
    {
        self.version
    }

    /// Makes the evaluation: the contract's run as from inception, children first. It ticks once for each row that wasn't kept of
    /// the contract's latest result. Where that is kept whole, or ended before the cut with nothing to add, it isn't copied.
    /// For want of memory the task comes back as it was; `steps` may have ticked by then.
    pub fn work<L: Ledger>(
        self,
        alloc: Global,
        portfolio: &Portfolio,
        steps: &mut Steps<L>,
    ) -> Result<Done, Task>
        requires portfolio { portfolio.now ≡ self.portfolio }
        ensures done { IfOk result (λ done. done ≡ self) }
        ensures task { IfErr result (λ task. task ≡ self) }
        ensures ticked { IfOk result (λ _. steps.new + length self.kept.rows ≡ steps.old + length (outcome self).rows) }
    {
        let Ok(run) = self.run(alloc, portfolio, steps) else {
            return Err(self);
        };
        let Ok(latest) = Arc::try_clone(&run) else {
            return Err(self);
        };
        let fresh = self.fresh(&run);
        let over = Snapshot::of(&self.seen);
        let kept = Snapshot::of(&self.cached);
        let Task {
            contract,
            version,
            seen,
            children,
            cached,
            of,
        } = self;
        drop(seen);
        drop(children);
        drop(cached);
        Ok(Done {
            contract,
            version,
            run,
            latest,
            fresh,
            of,
            over,
            kept,
        })
    }

    /// The contract's run. It goes on from the latest result, where there is one. Where that is kept whole, or ended before the cut
    /// with nothing to add, it is that one.
    fn run<L: Ledger>(
        &self,
        alloc: Global,
        portfolio: &Portfolio,
        steps: &mut Steps<L>,
    ) -> Result<Arc<Run, Global>, NoMemory>
        requires portfolio { portfolio.now ≡ self.now.portfolio }
        ensures run { IfOk result (λ run. arc_value run ≡ outcome self.now) }
        ensures in_day_order { IfOk result (λ run. AreInDayOrder (arc_value run).rows) }
        ensures ticked { IfOk result (λ _. steps.new + length self.now.kept.rows ≡ steps.old + length (outcome self.now).rows) }
    {
        let inputs = self.inputs(portfolio);
        match &self.cached.run {
            Some(kept) => resume_shared(alloc, &inputs, kept, self.cached.cut, steps),
            None => {
                let run = evaluate(alloc, &inputs, steps)?;
                Ok(Arc::new(alloc, run)?)
            }
        }
    }

    /// What the contract's run is a function of.
    fn inputs<'a>(&'a self, portfolio: &'a Portfolio) -> Inputs<'a, Entries>
        requires portfolio { portfolio.now ≡ self.now.portfolio }
        ensures { run_given result ≡ outcome self.now }
    {
        Inputs {
            terms: &portfolio.terms()[self.contract as usize],
            plan: portfolio.plan(self.contract),
            children: &self.children,
            seen: &self.seen,
        }
    }

    /// How many rows of the contract's run weren't kept.
    fn fresh(&self, run: &Run) -> u64
        requires run { run.now ≡ outcome self.now }
        ensures { result + length self.now.kept.rows ≡ length run.now.rows }
    {
        match &self.cached.run {
            Some(kept) => {
                if is_kept_whole(kept, self.cached.cut) {
                    0
                } else {
                    (run.rows.count() - kept_rows(kept, self.cached.cut)) as u64
                }
            }
            None => run.rows.count() as u64,
        }
    }
}

/// An evaluation that was made. It comes from a task alone.
#[derive(Drop)]
pub struct Done {
    contract: u32,
    version: u64,
    run: Arc<Run, Global>,
    /// The same run once more, so that a board takes no memory for either.
    latest: Arc<Run, Global>,
    fresh: u64,
    /// Which portfolio it is of, over which entries it was made and what it went on from; contracts alone see them.
    of: Snapshot<Portfolio>,
    over: Snapshot<Entries>,
    kept: Snapshot<Cached>,
}

impl Model for Done {
    ghost use Rattle.std.specs.Arc.{arc_value};
    ghost use Rattle.act_keeping.specs.Tasks.{IsDone, work_over};
    ghost use Rattle.act_keeping.specs.Work.{Work};

    ghost Value = { Work };

    ghost view = { λ d. work_over d.of.value d.contract d.over.value d.kept.value };

    ghost invariant = { λ d. IsDone (work_over d.of.value d.contract d.over.value d.kept.value) d.version (arc_value d.run) (arc_value d.latest) d.fresh };
}

impl Done {
    ghost use Rattle.std.specs.Prelude.{◌≡◌, ◌+◌, ◌<◌, length};
    ghost use Rattle.std.specs.Arc.{arc_value};
    ghost use Rattle.act_profile.specs.DayOrder.{AreInDayOrder};
    ghost use Rattle.act_keeping.specs.Work.{outcome, version};

    /// How many rows of its run weren't kept of the contract's latest result.
    pub fn fresh(&self) -> u64
        ensures { result + length self.now.kept.rows ≡ length (outcome self.now).rows }
    {
        self.fresh
    }

    /// The contract's run.
    pub fn run(&self) -> &Arc<Run, Global>
        ensures { arc_value result.now ≡ outcome self.now }
    {
        &self.run
    }

    /// Its parts: the contract's number, how many entries it is of, and the run, twice.
    pub(crate) fn into_parts(self) -> (u32, u64, Arc<Run, Global>, Arc<Run, Global>)
        ensures contract { result.0 ≡ self.contract }
        ensures within { result.0 < length self.portfolio.contracts.terms }
        ensures version { result.1 ≡ version self }
        ensures run { arc_value result.2 ≡ outcome self }
        ensures latest { arc_value result.3 ≡ outcome self }
        ensures in_day_order { AreInDayOrder (arc_value result.2).rows }
    {
        let Done {
            contract,
            version,
            run,
            latest,
            fresh: _,
            of: _,
            over: _,
            kept: _,
        } = self;
        (contract, version, run, latest)
    }
}
