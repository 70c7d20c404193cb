//! The board.
use crate::below::below;
use crate::claiming::{are_ready, children_results, results_of};
use crate::cuts::cuts_between;
use crate::latest::{cached_for, codes_read};
use crate::outcome::{AppendFault, AskFault, Claim, Collected};
use crate::ready::{fill, settle};
use crate::refer::parents_of;
use crate::wanting::{numbers, want_all};
use crate::work::{Done, Task};
use act_cut::IndexedBook;
use act_date::Day;
use act_history::Mark;
use act_keeping::caller::{
    Caller, all_left, callers_of, close_oldest, oldest, open_ask, set_left, spend,
};
use act_keeping::dropping::drop_runs;
use act_keeping::latest::{LatestResult, none_yet, put_latest};
use act_keeping::pair::{Pair, Progress, first_waiting, is_claimed, put_progress};
use act_keeping::ready::{Ready, make_room_for_pairs, nothing_ready};
use act_keeping::room::{
    append_entry, make_room, make_room_for_step, put_ask, put_entry, put_mark,
};
use act_model::{Answer, Asked, Item, MOST_ASKS, MOST_CALLERS, MOST_ENTRIES, MOST_OPEN, Obs};
use act_num::NoMemory;
use act_portfolio::Portfolio;
use std::alloc::Global;
use std::marker::Model;
use std::sync::Arc;

/// What callers and workers share: a book of entries, the asks of callers, and the evaluations that they ask for. Contracts
/// see its history: the portfolio, how many entries each caller may append, and what has happened since.
#[derive(Drop)]
pub struct Board {
    portfolio: Arc<Portfolio, Global>,
    quotas: Vec<u64>,
    marks: Vec<Mark>,
    /// The steps among the marks.
    items: Vec<Item>,
    /// The entries among the steps.
    book: IndexedBook,
    callers: Vec<Caller>,
    /// Each contract that was wanted, at each version, by version and then by rank.
    pairs: Vec<Pair>,
    /// Which of the pairs may be claimed, and what the others wait for.
    ready: Ready,
    /// For each contract those that refer to it.
    parents: Vec<Vec<u32>>,
    /// Of each contract the result at the greatest version, where it has one.
    latest: Vec<Option<LatestResult>>,
    /// No pair before this place is waiting.
    front: usize,
    /// Where the dropping of runs goes on: pairs before this place were gone over.
    dropped: usize,
    /// How many marks are still to come for which there is room: one for each open ask, each caller that hasn't left, each
    /// claim that hasn't come back, and one for giving up.
    owing: usize,
    given_up: bool,
}

impl Model for Board {
    ghost use Rattle.std.specs.Prelude.{vec_capacity};
    ghost use Rattle.std.specs.Arc.{arc_value};
    ghost use Rattle.act_history.specs.History.{History};
    ghost use Rattle.act_keeping.specs.Keeping.{IsBoard};
    ghost use Rattle.act_keeping.specs.Latest.{AreLatest};
    ghost use Rattle.act_keeping.specs.Ready.{AreReadyLists};

    ghost Value = { History };

    ghost view = { λ b. record { portfolio = arc_value b.portfolio; quotas = b.quotas.items; marks = b.marks.items } };

    ghost invariant = { λ b. IsBoard (record { portfolio = arc_value b.portfolio; quotas = b.quotas.items; marks = b.marks.items }) (record { capacity = vec_capacity b.marks; items = b.items.items; book = b.book; callers = b.callers.items; pairs = b.pairs.items; front = b.front; owing = b.owing; given_up = b.given_up })
        × AreLatest (record { portfolio = arc_value b.portfolio; quotas = b.quotas.items; marks = b.marks.items }) b.latest.items
        × AreReadyLists (record { portfolio = arc_value b.portfolio; quotas = b.quotas.items; marks = b.marks.items }) b.pairs.items b.ready.lacking.items b.ready.places.items (vec_capacity b.ready.places) b.parents.items };
}

impl Board {
    ghost use Rattle.std.specs.Prelude.{ℕ, ℤ, ◌≡◌, ◌↔◌, ◌⊎◌, ◌<◌, ◌≤◌, [], true, false, Option, Some, Err, length, max, min, sum, take, IfErr, IfOk};
    ghost use Rattle.std.specs.Arc.{arc_value};
    ghost use Rattle.std.specs.List.{slice_get};
    ghost use Rattle.act_model.specs.Journal.{is_known};
    ghost use Rattle.act_model.specs.Observed.{is_entry};
    ghost use Rattle.act_model.specs.declared.journal.Step.TheVariants as step;
    ghost use Rattle.act_board.specs.Calls.{Claims, Collects, IsOf, after_finish, after_give_up};
    ghost use Rattle.act_history.specs.History.{IsPresent, and_then, asks_by, entries_of, is_given_up, journal_of, open_asks, version_of};
    ghost use Rattle.act_profile.specs.Kept.{kept_of};
    ghost use Rattle.act_profile.specs.Reads.{cut_of};
    ghost use Rattle.act_profile.specs.Run.{run_of};
    ghost use Rattle.act_keeping.specs.Latest.{cut_for, kept_for};
    ghost use Rattle.act_history.specs.Legal.{HasQuota, IsFull, IsLegal, IsNext, IsSound};
    ghost use Rattle.act_keeping.specs.Work as evaluation;
    ghost use Rattle.act_history.specs.declared.mark.Mark.TheVariants as mark;
    ghost use Rattle.act_board.specs.declared.outcome.AppendFault.TheVariants as appending;
    ghost use Rattle.act_board.specs.declared.outcome.AskFault.TheVariants as asking;

    /// A board on which nothing has happened, for as many callers as there are quotas, 1 to 16; each may append as many
    /// entries as its quota says, together at most 1,048,576. What is added later is allocated by `alloc`.
    pub fn new(
        alloc: Global,
        portfolio: Arc<Portfolio, Global>,
        quotas: &[u64],
    ) -> Result<Board, NoMemory>
        requires some { 1 ≤ length quotas.now }
        requires few { length quotas.now ≤ MOST_CALLERS }
        requires fits { sum quotas.now ≤ MOST_ENTRIES }
        ensures { IfOk result (λ board. board ≡ record { portfolio = arc_value portfolio; quotas = quotas.now; marks = [] }) }
    {
        portfolio.contracts_are_linked();
        let owing = quotas.len() + 1;
        let mut marks = Vec::new(alloc);
        make_room(&mut marks, 0, owing)?;
        let callers = callers_of(alloc, quotas)?;
        let quotas = Vec::from_slice(alloc, quotas)?;
        let latest = none_yet(alloc, portfolio.terms().len())?;
        let parents = parents_of(alloc, &portfolio)?;
        let codes = codes_read(&portfolio);
        let book = IndexedBook::new(alloc, codes, portfolio.terms().len());
        Ok(Board {
            portfolio,
            quotas,
            marks,
            items: Vec::new(alloc),
            book,
            callers,
            pairs: Vec::new(alloc),
            ready: nothing_ready(alloc),
            parents,
            latest,
            front: 0,
            dropped: 0,
            owing,
            given_up: false,
        })
    }

    /// The steps of all callers, one after another.
    pub fn journal(&self) -> &[Item]
        ensures journal { result.now ≡ journal_of self.now }
        ensures sound { IsSound self.now }
    {
        &self.items
    }

    /// How many entries the book has.
    pub fn version(&self) -> u64
        ensures { result ≡ version_of self.now }
    {
        self.book.len()
    }

    /// For each contract, the day from which on the entries between two versions of the book, in either order, touch its cone; None
    /// where none of them does. Of its runs at both the same is kept under it.
    pub fn cuts_between(&mut self, one: u64, other: u64) -> Result<Vec<Option<Day>>, NoMemory>
        requires one { one ≤ version_of self.old }
        requires other { other ≤ version_of self.old }
        ensures count { IfOk result (λ cuts. length cuts.items ≡ length self.old.portfolio.contracts.terms) }
        ensures each { IfOk result (λ cuts. (c : ℕ) (cut : Option ℤ) → slice_get cuts.items c ≡ Some cut
            → cut ≡ cut_of self.old.portfolio.contracts c (entries_of self.old) (min one other) (max one other)) }
        ensures kept { IfOk result (λ cuts. (c : ℕ) (cut : Option ℤ) → slice_get cuts.items c ≡ Some cut
            → kept_of (run_of self.old.portfolio.contracts (take one (entries_of self.old)) c) cut
            ≡ kept_of (run_of self.old.portfolio.contracts (take other (entries_of self.old)) c) cut) }
        ensures unchanged { self.new ≡ self.old }
    {
        let alloc = *self.items.allocator();
        cuts_between(alloc, &self.portfolio, &mut self.book, one, other)
    }

    /// How many evaluations may be claimed, unless the board was given up: a hint of how many a thread may take at once.
    pub fn claimable(&self) -> usize {
        self.ready.places.len()
    }

    /// How many asks of a caller are open.
    pub fn open_asks(&self, caller: u32) -> u32
        requires from { 1 ≤ caller }
        requires to { caller ≤ length self.now.quotas }
        ensures { result ≡ length (open_asks self.now caller) }
    {
        self.callers[caller as usize - 1].open_asks.len() as u32
    }

    /// A caller appends an entry to the book. It answers how many there are then.
    pub fn append(&mut self, caller: u32, entry: Obs) -> Result<u64, AppendFault>
        requires present { IsPresent self.old caller }
        requires entry { is_entry entry ≡ true }
        ensures appended { IfOk result (λ _. self.new ≡ and_then self.old (mark.Append caller entry)) }
        ensures version { IfOk result (λ version. version ≡ version_of self.new) }
        ensures given_up { (result ≡ Err appending.GivenUp) ↔ (is_given_up self.old ≡ true) }
        ensures spent { (result ≡ Err appending.QuotaSpent) ↔ ((is_given_up self.old ≡ false) × ¬ (HasQuota self.old caller)) }
        ensures unchanged { IfErr result (λ _. self.new ≡ self.old) }
    {
        if self.given_up {
            return Err(AppendFault::GivenUp);
        }
        if self.callers[caller as usize - 1].remaining == 0 {
            return Err(AppendFault::QuotaSpent);
        }
        match self.take_entry(caller, entry) {
            Ok(version) => Ok(version),
            Err(NoMemory) => Err(AppendFault::NoMemory),
        }
    }

    /// Appends an entry of a caller that may append one. It answers how many there are then.
    fn take_entry(&mut self, caller: u32, entry: Obs) -> Result<u64, NoMemory>
        requires legal { IsLegal self.old (mark.Append caller entry) }
        requires entry { is_entry entry ≡ true }
        ensures appended { IfOk result (λ _. self.new ≡ and_then self.old (mark.Append caller entry)) }
        ensures version { IfOk result (λ version. version ≡ version_of self.new) }
        ensures unchanged { IfErr result (λ _. self.new ≡ self.old) }
    {
        make_room_for_step(&mut self.marks, &mut self.items, self.owing, 1)?;
        let version = append_entry(&mut self.book, &entry)?;
        spend(&mut self.callers, caller);
        put_entry(&mut self.marks, &mut self.items, caller, &entry);
        Ok(version)
    }

    /// A caller asks for evaluations over the entries that stand in the book. It answers the ask's number among the caller's.
    pub fn ask(&mut self, caller: u32, asked: Asked) -> Result<u32, AskFault>
        requires present { IsPresent self.old caller }
        requires known { is_known self.old.portfolio.names (step.Ask asked) ≡ true }
        ensures asked { IfOk result (λ _. self.new ≡ and_then self.old (mark.Ask caller asked)) }
        ensures number { IfOk result (λ number. number ≡ length (asks_by self.new caller)) }
        ensures given_up { (result ≡ Err asking.GivenUp) ↔ (is_given_up self.old ≡ true) }
        ensures full { (result ≡ Err asking.AsksFull) ↔ ((is_given_up self.old ≡ false) × IsFull self.old caller) }
        ensures unchanged { IfErr result (λ _. self.new ≡ self.old) }
    {
        if self.given_up {
            return Err(AskFault::GivenUp);
        }
        let asking = &self.callers[caller as usize - 1];
        if asking.open_asks.len() >= MOST_OPEN || asking.asked >= MOST_ASKS {
            return Err(AskFault::AsksFull);
        }
        // What it gives back can serve the ask; the history stays as it is, also where memory runs out all the same.
        self.drop_runs();
        match self.take_ask(caller, asked) {
            Ok(number) => Ok(number),
            Err(NoMemory) => Err(AskFault::NoMemory),
        }
    }

    /// Drops the runs of the earliest versions, up to the first that an open ask is of, or the book's: nobody can ask for them any
    /// more.
    fn drop_runs(&mut self)
        ensures { self.new ≡ self.old }
    {
        let version = self.book.len();
        self.dropped = drop_runs(&mut self.pairs, self.dropped, &self.callers, version);
    }

    /// Takes an ask of a caller that may make one. It answers the ask's number among the caller's.
    fn take_ask(&mut self, caller: u32, asked: Asked) -> Result<u32, NoMemory>
        requires legal { IsLegal self.old (mark.Ask caller asked) }
        requires known { is_known self.old.portfolio.names (step.Ask asked) ≡ true }
        ensures asked { IfOk result (λ _. self.new ≡ and_then self.old (mark.Ask caller asked)) }
        ensures number { IfOk result (λ number. number ≡ length (asks_by self.new caller)) }
        ensures unchanged { IfErr result (λ _. self.new ≡ self.old) }
    {
        let version = self.book.len();
        let (first, end) = numbers(&self.portfolio, asked);
        let below = below(*self.items.allocator(), &self.portfolio, first, end)?;
        make_room_for_step(&mut self.marks, &mut self.items, self.owing, 2)?;
        self.pairs.reserve(self.portfolio.order().len())?;
        make_room_for_pairs(&mut self.ready, self.pairs.capacity())?;
        let number = open_ask(&mut self.callers, caller, version, asked)?;
        let start = want_all(
            &mut self.pairs,
            &self.portfolio,
            version,
            &below,
            first,
            end,
        );
        self.front = self.front.min(start);
        fill(
            &mut self.ready,
            &self.portfolio,
            &self.pairs,
            start,
            self.front,
        );
        self.owing += 1;
        put_ask(&mut self.marks, &mut self.items, caller, asked);
        Ok(number)
    }

    /// Hands out the evaluation that is next: of those that an open ask asks for or reaches, that have no result and aren't
    /// claimed, and whose children have results, the one of the least version, and among these of the least place in the
    /// portfolio's order. It keeps, of the contract's run at the greatest version with a result, the rows before the cut between
    /// the two versions, and all where there is no cut or the run stops before it. Memory can run out only where there is an
    /// evaluation to hand out.
    pub fn claim(&mut self) -> Result<Claim, NoMemory>
        ensures claimed { IfOk result (λ claim. Claims self.old claim self.new) }
        ensures memory { IfErr result (λ _. (contract : ℕ) × (version : ℕ) × IsLegal self.old (mark.Claim contract version)) }
        ensures unchanged { IfErr result (λ _. self.new ≡ self.old) }
    {
        if self.given_up {
            return Ok(Claim::GivenUp);
        }
        let left = all_left(&self.callers);
        self.front = first_waiting(&self.pairs, self.front);
        match self.ready.places.last() {
            Some(place) => {
                let pair = &self.pairs[*place];
                let version = pair.version;
                let contract = self.portfolio.order()[pair.rank as usize];
                let task = self.hand_out(contract, version)?;
                Ok(Claim::Task(task))
            }
            None if left => Ok(Claim::Ended),
            None => Ok(Claim::Idle),
        }
    }

    /// Hands out an evaluation.
    fn hand_out(&mut self, contract: u32, version: u64) -> Result<Task, NoMemory>
        requires going_on { is_given_up self.old ≡ false }
        requires next { IsNext self.old contract version }
        ensures work { IfOk result (λ work. IsOf self.old work) }
        ensures contract { IfOk result (λ work. work.contract ≡ contract) }
        ensures version { IfOk result (λ work. evaluation.version work ≡ version) }
        ensures kept { IfOk result (λ work. work.kept ≡ kept_for self.old contract version) }
        ensures cut { IfOk result (λ work. work.cut ≡ cut_for self.old contract version) }
        ensures claimed { IfOk result (λ _. self.new ≡ and_then self.old (mark.Claim contract version)) }
        ensures unchanged { IfErr result (λ _. self.new ≡ self.old) }
    {
        let alloc = *self.items.allocator();
        let seen = self.book.snapshot(version)?;
        let children = children_results(alloc, &self.portfolio, &self.pairs, contract, version)?;
        let cached = cached_for(
            &self.portfolio,
            &mut self.book,
            &self.latest,
            contract,
            &seen,
            version,
        )?;
        make_room(&mut self.marks, self.owing, 2)?;
        let task = Task::new(&self.portfolio, contract, seen, children, cached);
        let rank = self.portfolio.rank(contract);
        put_progress(&mut self.pairs, version, rank, Progress::Claimed);
        let _ = self.ready.places.pop();
        self.owing += 1;
        put_mark(&mut self.marks, &Mark::claim(contract, version));
        Ok(task)
    }

    /// Takes an evaluation that was made: where it is claimed, it is the contract's result at its version from here on, and its
    /// latest unless that is of a later version; otherwise it is dropped. It takes no memory.
    pub fn finish(&mut self, done: Done)
        requires { IsOf self.old done }
        ensures { self.new ≡ after_finish self.old done.contract (evaluation.version done) }
    {
        let (contract, version, run, latest) = done.into_parts();
        let rank = self.portfolio.rank(contract);
        if !is_claimed(&self.pairs, version, rank) {
            drop(run);
            drop(latest);
            return;
        }
        put_progress(&mut self.pairs, version, rank, Progress::Done(run));
        settle(
            &mut self.ready,
            &self.portfolio,
            &self.pairs,
            &self.parents[contract as usize],
            version,
        );
        put_latest(&mut self.latest, contract, version, latest);
        self.owing -= 1;
        put_mark(&mut self.marks, &Mark::finish(contract, version));
    }

    /// Gives the board up, for want of memory; a task that is handed in is dropped. From then on `append`, `ask`, `claim` and
    /// `collect` answer `GivenUp`, and the journal stays.
    pub fn give_up(&mut self, task: Option<Task>)
        ensures { self.new ≡ after_give_up self.old }
    {
        drop(task);
        if self.given_up {
            return;
        }
        self.given_up = true;
        self.owing -= 1;
        put_mark(&mut self.marks, &Mark::GiveUp);
    }

    /// Gives a caller the answer to the oldest of its asks that are open, once each contract that it asks for has a result, and
    /// drops runs that nobody can ask for any more. Memory can run out only where each of these contracts has a result.
    pub fn collect(&mut self, caller: u32) -> Result<Collected, NoMemory>
        requires present { IsPresent self.old caller }
        requires asked { 0 < length (open_asks self.old caller) }
        ensures collected { IfOk result (λ collected. Collects self.old caller collected self.new) }
        ensures memory { IfErr result (λ _. IsLegal self.old (mark.Collect caller)) }
        ensures unchanged { IfErr result (λ _. self.new ≡ self.old) }
    {
        let collected = self.collect_oldest(caller)?;
        if let Collected::Ready(_) = &collected {
            self.drop_runs();
        }
        Ok(collected)
    }

    /// The same, and no runs are dropped.
    fn collect_oldest(&mut self, caller: u32) -> Result<Collected, NoMemory>
        requires present { IsPresent self.old caller }
        requires asked { 0 < length (open_asks self.old caller) }
        ensures collected { IfOk result (λ collected. Collects self.old caller collected self.new) }
        ensures memory { IfErr result (λ _. IsLegal self.old (mark.Collect caller)) }
        ensures unchanged { IfErr result (λ _. self.new ≡ self.old) }
    {
        if self.given_up {
            return Ok(Collected::GivenUp);
        }
        let ask = oldest(&self.callers, caller);
        let (first, end) = numbers(&self.portfolio, ask.asked);
        if !are_ready(&self.portfolio, &self.pairs, ask.version, first, end) {
            return Ok(Collected::NotYet);
        }
        let alloc = *self.items.allocator();
        let runs = results_of(alloc, &self.portfolio, &self.pairs, ask.version, first, end)?;
        close_oldest(&mut self.callers, caller);
        self.owing -= 1;
        put_mark(&mut self.marks, &Mark::collect(caller));
        Ok(Collected::Ready(Answer {
            caller: ask.caller,
            number: ask.number,
            version: ask.version,
            runs,
        }))
    }

    /// A caller leaves, which has no open ask, unless the board was given up.
    pub fn leave(&mut self, caller: u32)
        requires present { IsPresent self.old caller }
        requires done { (open_asks self.old caller ≡ []) ⊎ (is_given_up self.old ≡ true) }
        ensures { self.new ≡ and_then self.old (mark.Leave caller) }
    {
        set_left(&mut self.callers, caller);
        self.owing -= 1;
        put_mark(&mut self.marks, &Mark::leave(caller));
    }
}
