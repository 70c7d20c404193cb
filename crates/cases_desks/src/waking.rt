//! Callers and workers that sleep until another thread wakes them.
ghost use Rattle.std.specs.Prelude.{◌≡◌, ◌+◌, ◌<◌, ◌≤◌, IfSome};
ghost use Rattle.act_turn.specs.Standing.{IsFree};
ghost use Rattle.cases_desks.specs.Caller.{IsFirst};
ghost use Rattle.cases_desks.specs.Crew.{IsCrew};

use crate::drive::{quotas_of, replayed};
use crate::heard::Heard;
use act_board::{Claim, Task};
use act_desk::{Context, Desk, DeskPass};
use act_io::Gate;
use act_model::{Answer, Asked, Item, Line, Names, Step};
use act_num::NoMemory;
use act_portfolio::Portfolio;
use cases_rows::Case;
use std::alloc::Global;
use std::hint::spin_loop;
use std::sync::atomic::{AtomicU64, Ordering};
use std::sync::{Arc, Wait};
use std::thread::{Threads, for_each_mut, yield_now};

/// By how many looks an evaluation waits longer than one of the round before.
const LOOKS_MORE: u32 = 10;

/// How many times as long as an evaluation a worker waits that gives up.
const TIMES_AS_LONG: u32 = 10;

/// The threads of a round: callers and workers, numbered from 1, the callers first.
#[derive(Clone, Copy)]
struct Crew {
    callers: u32,
    workers: u32,
    /// The number of a worker that gives the board up, if there is one.
    gives_up: Option<u32>,
}

/// A gate that lets evaluations begin once it is open, each after so many looks. Other threads fall asleep meanwhile.
#[derive(Drop)]
struct Door<'a, R> {
    rt: &'a R,
    is_open: AtomicU64,
    looks: u32,
}

/// What the threads of all rounds came to.
#[derive(Drop)]
struct Counts<'a> {
    names: &'a Names,
    /// What a caller alone is answered.
    wanted: Heard<'a>,
    /// How many answers there were.
    answers: AtomicU64,
    /// How many of them were others.
    others: AtomicU64,
    /// How many callers were told that the board was given up.
    callers: AtomicU64,
    /// And how many workers.
    workers: AtomicU64,
}

/// What the threads of a round share.
#[derive(Drop)]
struct Round<'a, R> {
    context: &'a Context<'a, R, Door<'a, R>>,
    desk: &'a Desk,
    crew: Crew,
    counts: &'a Counts<'a>,
}

/// Tells what many rounds come to, each on a board of its own: callers ask for all contracts, and workers make evaluations; or one of the
/// workers gives the board up. Which threads there are is given by a name.
pub fn waking_told<R: Threads + Wait + Sync>(
    rt: &R,
    case: &mut Case<'_>,
    portfolio: &Arc<Portfolio, Global>,
    names: &Names,
) {
    let (crew, rounds) = (crew_of(case.word()), case.count());
    match (crew, none_counted(rt, case.alloc, portfolio, names)) {
        (Some(crew), Some(counts)) => {
            for round in 0..rounds {
                if play(
                    rt,
                    case.alloc,
                    portfolio,
                    crew,
                    round.saturating_mul(LOOKS_MORE),
                    &counts,
                )
                .is_none()
                {
                    case.fail("memory ran out");
                }
            }
            counts.told(case);
        }
        _ => case.fail("no such threads, or memory ran out"),
    }
}

/// The threads of that name.
fn crew_of(name: &str) -> Option<Crew>
    ensures { IfSome result IsCrew }
{
    match name {
        "callers" => Some(Crew {
            callers: 16,
            workers: 1,
            gives_up: None,
        }),
        "workers" => Some(Crew {
            callers: 1,
            workers: 64,
            gives_up: None,
        }),
        "given_up" => Some(Crew {
            callers: 16,
            workers: 8,
            gives_up: Some(24),
        }),
        _ => None,
    }
}

/// What threads came to of which there were none yet, with what a caller alone is answered.
fn none_counted<'a, R: Threads + Wait + Sync>(
    rt: &R,
    alloc: Global,
    portfolio: &Arc<Portfolio, Global>,
    names: &'a Names,
) -> Option<Counts<'a>> {
    let ask = Item {
        caller: 1,
        step: Step::Ask(Asked::All),
    };
    let alone = replayed(rt, alloc, portfolio, &[ask])?;
    let mut wanted = Heard::new(alloc, names);
    for answers in &alone.answers {
        for answer in answers {
            wanted.answer(1, u64::from(answer.number), answer);
        }
    }
    Some(Counts {
        names,
        wanted,
        answers: AtomicU64::new(0),
        others: AtomicU64::new(0),
        callers: AtomicU64::new(0),
        workers: AtomicU64::new(0),
    })
}

/// Plays a round, in which each evaluation waits so many looks. None where memory runs out.
fn play<R: Threads + Wait + Sync>(
    rt: &R,
    alloc: Global,
    portfolio: &Arc<Portfolio, Global>,
    crew: Crew,
    looks: u32,
    counts: &Counts<'_>,
) -> Option<()>
    requires { IsCrew crew }
{
    let own = Arc::try_clone(portfolio).ok()?;
    let quotas = quotas_of(alloc, crew.callers as usize, 0)?;
    let Ok((desk, mut passes)) = Desk::new(alloc, own, &quotas, crew.workers) else {
        return None;
    };
    let door = Door {
        rt,
        is_open: AtomicU64::new(u64::from(crew.gives_up.is_none())),
        looks,
    };
    let context = Context {
        rt,
        alloc,
        gate: &door,
    };
    let count = passes.len();
    for_each_mut(
        rt,
        passes.as_mut_slice(),
        count,
        &|i: usize, pass: &mut DeskPass|
            requires { (i < 80) × IsFirst desk crew.callers (i + 1) pass.now }
            ensures { IsFree desk.id pass.exit.now }
        {
            let round = Round {
                context: &context,
                desk: &desk,
                crew,
                counts,
            };
            round.play(pass, i as u32 + 1);
        },
    );
    drop(desk.close(passes));
    Some(())
}

impl<R: Wait + Sync> Round<'_, R> {
    /// Plays the part of a number.
    fn play(&self, pass: &mut DeskPass, number: u32)
        requires { IsFirst self.now.desk.now self.now.crew.callers number pass.old }
        ensures { IsFree self.now.desk.now.id pass.new }
    {
        if number <= self.crew.callers {
            self.ask(pass, number);
        } else if self.crew.gives_up == Some(number) {
            self.give_up(pass);
        } else if self.desk.worker(self.context, pass).is_err() {
            self.counts.workers.fetch_add(1, Ordering::SeqCst);
        }
    }

    /// A caller asks for all contracts, and leaves with the answer, or where the board was given up.
    fn ask(&self, pass: &mut DeskPass, number: u32)
        requires first { IsFirst self.now.desk.now self.now.crew.callers number pass.old }
        requires caller { number ≤ self.now.crew.callers }
        ensures { IsFree self.now.desk.now.id pass.new }
    {
        let lines = [Line {
            step: Step::Ask(Asked::All),
            line: 1,
        }];
        match self.desk.caller_keeping(self.context, pass, number, &lines) {
            Ok(answers) => self.counts.answered(self.context.alloc, number, &answers),
            Err(NoMemory) => {
                self.counts.callers.fetch_add(1, Ordering::SeqCst);
            }
        }
    }

    /// A worker claims a task, lets others begin theirs, and a while later gives the board up.
    fn give_up(&self, pass: &mut DeskPass)
        requires { IsFree self.now.desk.now.id pass.old }
        ensures { IsFree self.now.desk.now.id pass.new }
    {
        let task = self.first_task(pass);
        self.context.gate.open();
        pause(self.context.gate.looks.saturating_mul(TIMES_AS_LONG));
        self.desk.give_up(self.context.rt, pass, task);
    }

    /// The first task that there is for a worker. None where none will come.
    fn first_task(&self, pass: &mut DeskPass) -> Option<Task>
        requires { IsFree self.now.desk.now.id pass.old }
        ensures { IsFree self.now.desk.now.id pass.new }
    {
        for _ in self.context.rt.forever() {
            match self.desk.claim(self.context.rt, pass) {
                Ok(Claim::Task(task)) => return Some(task),
                Ok(Claim::Idle) => yield_now(),
                Ok(Claim::Ended | Claim::GivenUp) | Err(NoMemory) => return None,
            }
        }
        unreachable!()
    }
}

impl<R: Wait> Door<'_, R> {
    /// Lets evaluations begin.
    fn open(&self) {
        self.is_open.store(1, Ordering::SeqCst);
        self.is_open.wake_all();
    }

    /// Sleeps until it is open.
    fn wait(&self) {
        for _ in self.rt.forever() {
            if self.is_open.load(Ordering::SeqCst) == 1 {
                break;
            }
            self.is_open.park(self.rt, 0);
        }
    }
}

/// Waits so many looks.
fn pause(looks: u32) {
    for _ in 0..looks {
        spin_loop();
    }
}

impl<R: Wait + Sync> Gate for Door<'_, R> {
    fn enter(&self, _contract: u32, _version: u64) {
        self.wait();
        pause(self.looks);
    }

    fn left(&self, _contract: u32, _version: u64) {}
}

impl Counts<'_> {
    /// Counts answers of a caller, and which of them are others than a caller alone is given.
    fn answered(&self, alloc: Global, caller: u32, answers: &[Answer]) {
        for answer in answers {
            let mut heard = Heard::new(alloc, self.names);
            heard.answer(1, u64::from(answer.number), answer);
            self.answers.fetch_add(1, Ordering::SeqCst);
            if answer.caller != caller || !heard.is_same(&self.wanted) {
                self.others.fetch_add(1, Ordering::SeqCst);
            }
        }
    }

    /// Tells the counts.
    fn told(&self, case: &mut Case<'_>) {
        case.value(self.answers.load(Ordering::SeqCst));
        case.text(" answers, ");
        case.value(self.others.load(Ordering::SeqCst));
        case.text(" differ; given up: ");
        case.value(self.callers.load(Ordering::SeqCst));
        case.text(" callers, ");
        case.value(self.workers.load(Ordering::SeqCst));
        case.text(" workers");
    }
}
