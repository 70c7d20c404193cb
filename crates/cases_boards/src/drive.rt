//! Calls of a board, one after the other.
use crate::driven::{Claimed, Driven, board};
use crate::entry::{Entry, item_told, read_entry};
use crate::looks::{changes_told, cuts, looks};
use crate::runs::{are_as_alone, contracts_told, rows_told};
use act_board::Collected;
use act_model::{Answer, Asked};
use act_portfolio::Portfolio;
use cases_rows::Case;
use std::alloc::Global;
use std::sync::Arc;

/// A board, what was appended to it, and what was seen of it behind the last call.
#[derive(Drop)]
pub struct Drive {
    board: Driven,
    /// How many callers it is for.
    callers: u32,
    entries: Vec<Entry>,
    /// The cuts between the version of the last answer and the newest at that time.
    cuts: Case<'static>,
    seen: Case<'static>,
}

impl Drive {
    /// A board on which nothing has happened, for one caller or four with these quotas.
    pub fn over(
        alloc: Global,
        portfolio: &Arc<Portfolio, Global>,
        quotas: &[u64],
    ) -> Option<Drive> {
        let board = board(alloc, portfolio, quotas)?;
        let callers = quotas.len().min(4) as u32;
        let seen = looks(alloc, &board, callers);
        Some(Drive {
            board,
            callers,
            entries: Vec::new(alloc),
            cuts: Case::of(alloc, ""),
            seen,
        })
    }

    /// Makes calls, and tells a line of each.
    pub fn calls_told(&mut self, case: &mut Case<'_>, calls: &str) {
        for line in calls.lines() {
            let (times, line) = match line.split_once(" times ") {
                Some((times, line)) => (case.count_of(times), line),
                None => (1, line),
            };
            for _ in 1..times {
                let mut untold = Case::of(case.alloc, line);
                self.answer_told(&mut untold);
                case.is_wrong |= untold.is_wrong;
            }
            self.line_told(case, line);
        }
    }

    /// Makes a call, and tells a line of it.
    fn line_told(&mut self, case: &mut Case<'_>, line: &str) {
        let mut call = Case::of(case.alloc, line);
        self.answer_told(&mut call);
        self.changes_told(&mut call);
        case.next("\n");
        case.bytes_told(&call.told);
        case.is_wrong |= call.is_wrong;
    }

    /// Tells what is seen of the board otherwise than before the call.
    fn changes_told(&mut self, call: &mut Case<'_>) {
        let mut seen = looks(call.alloc, &self.board, self.callers);
        seen.bytes_told(&self.cuts.told);
        changes_told(call, &self.seen.told, &seen.told);
        call.is_wrong |= seen.is_wrong || self.cuts.is_wrong;
        self.seen = seen;
    }

    /// Makes a call, and tells what it is answered.
    fn answer_told(&mut self, call: &mut Case<'_>) {
        match call.word() {
            "append" => self.append(call),
            "ask" => self.ask(call),
            "claim" => self.claim(call),
            "finish" => self.finish(call),
            "finish_other" => self.finish_other(call),
            "collect" => self.collect(call, false),
            "rows" => self.collect(call, true),
            "leave" => self.leave(call),
            "give_up" => self.give_up(call),
            "journal" => self.journal_told(call),
            _ => call.fail("no such call"),
        }
    }

    fn append(&mut self, call: &mut Case<'_>) {
        let caller = call.count();
        let Some(entry) = read_entry(call) else {
            return call.fail("no entry");
        };
        match self.board.append(caller, entry.says) {
            Some(Ok(version)) => {
                call.value(version);
                call.is_wrong |= self.entries.push(entry).is_err();
            }
            Some(Err(fault)) => call.value(fault),
            None => call.text("may not"),
        }
    }

    fn ask(&mut self, call: &mut Case<'_>) {
        let caller = call.count();
        let asked = match call.word() {
            "*" => Asked::All,
            word => Asked::One(call.count_of(word)),
        };
        match self.board.ask(caller, asked) {
            Some(Ok(number)) => call.value(number),
            Some(Err(fault)) => call.value(fault),
            None => call.text("may not"),
        }
    }

    fn claim(&mut self, call: &mut Case<'_>) {
        match self.board.claim() {
            Ok(Claimed::Task(contract, version)) => task_told(call, contract, version),
            Ok(Claimed::Idle) => call.text("Idle"),
            Ok(Claimed::Ended) => call.text("Ended"),
            Ok(Claimed::GivenUp) => call.text("GivenUp"),
            Err(_) => call.fail("memory ran out"),
        }
    }

    fn finish(&mut self, call: &mut Case<'_>) {
        let place = call.count() as usize;
        match self.board.finish(call.alloc, place) {
            Some((contract, version)) => task_told(call, contract, version),
            None => call.fail("no task, or memory ran out"),
        }
    }

    fn finish_other(&mut self, call: &mut Case<'_>) {
        match self.board.finish_other(call.alloc) {
            true => call.text("done"),
            false => call.fail("memory ran out"),
        }
    }

    fn give_up(&mut self, call: &mut Case<'_>) {
        self.board.give_up(0);
        call.text("done");
    }

    fn leave(&mut self, call: &mut Case<'_>) {
        let caller = call.count();
        match self.board.leave(caller) {
            true => call.text("done"),
            false => call.text("may not"),
        }
    }

    fn collect(&mut self, call: &mut Case<'_>, has_rows: bool) {
        let caller = call.count();
        match self.board.collect(caller) {
            Some(Ok(Collected::Ready(answer))) => self.ready_told(call, &answer, has_rows),
            Some(Ok(Collected::NotYet)) => call.text("NotYet"),
            Some(Ok(Collected::GivenUp)) => call.text("GivenUp"),
            Some(Err(_)) => call.fail("memory ran out"),
            None => call.text("may not"),
        }
    }

    /// Tells an answer: the caller, the number of its ask, the version and the contracts.
    fn ready_told(&mut self, call: &mut Case<'_>, answer: &Answer, has_rows: bool) {
        call.value(answer.caller);
        call.text(" ");
        call.value(answer.number);
        call.text(" ");
        call.value(answer.version);
        call.text(":");
        contracts_told(call, answer);
        if has_rows {
            rows_told(call, answer);
        }
        if !are_as_alone(call.alloc, &self.board, &self.entries, answer) {
            call.fail("its runs aren't those of a board of its own");
        }
        self.cut(call, answer.version);
    }

    /// Keeps what the cuts between a version and the newest are, in both orders.
    fn cut(&mut self, call: &mut Case<'_>, version: u64) {
        let newest = self.board.version();
        let days = self.board.cuts_between(version, newest);
        let forth = cuts(call.alloc, days);
        let days = self.board.cuts_between(newest, version);
        let back = cuts(call.alloc, days);
        if forth.told != back.told {
            call.fail("the cuts in the other order are others");
        }
        self.cuts = forth;
    }

    fn journal_told(&self, call: &mut Case<'_>) {
        for item in self.board.journal() {
            call.next("\n");
            item_told(call, item);
        }
    }
}

/// Tells a contract and a version.
fn task_told(call: &mut Case<'_>, contract: u32, version: u64) {
    call.value(contract);
    call.text(" at ");
    call.value(version);
}
