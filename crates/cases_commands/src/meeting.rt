//! A gate at which evaluations meet.
use act_io::Gate;
use cases_rows::Case;
use std::alloc::Global;
use std::hint::spin_loop;
use std::sync::atomic::{AtomicU64, Ordering};
use std::sync::{Mutex, Wait};

/// How often an evaluation looks for others.
const MOST_LOOKS: u64 = 1_000_000_000;

/// A gate where evaluations wait until so many have begun, or for so many looks. It keeps what it is told.
#[derive(Drop)]
pub struct Meeting<'a, R> {
    rt: &'a R,
    /// How many evaluations are to meet.
    wanted: u64,
    /// How many have begun.
    entered: AtomicU64,
    /// How many have gone on without having met so many.
    alone: AtomicU64,
    /// The contract and the version of each that has begun, and of each that has ended.
    begun: Mutex<Vec<(u32, u64)>>,
    ended: Mutex<Vec<(u32, u64)>>,
}

impl<'a, R: Wait + Sync> Meeting<'a, R> {
    /// A gate that nobody has passed, where so many evaluations are to meet.
    pub fn new(rt: &'a R, alloc: Global, wanted: u64) -> Meeting<'a, R> {
        Meeting {
            rt,
            wanted,
            entered: AtomicU64::new(0),
            alone: AtomicU64::new(0),
            begun: Mutex::new(Vec::new(alloc)),
            ended: Mutex::new(Vec::new(alloc)),
        }
    }

    /// Tells how many have gone on alone, and the contract and the version of each that has begun, and of each that has ended.
    pub fn told(self, case: &mut Case<'_>) {
        case.value(self.alone.load(Ordering::SeqCst));
        case.text(" alone; begun");
        passed_told(case, self.begun.into_inner());
        case.text("; ended");
        passed_told(case, self.ended.into_inner());
        case.text("; ");
    }
}

impl<R: Wait + Sync> Gate for Meeting<'_, R> {
    fn enter(&self, contract: u32, version: u64) {
        let _ = self.begun.lock(self.rt).push((contract, version));
        self.entered.fetch_add(1, Ordering::SeqCst);
        for _ in 0..MOST_LOOKS {
            if self.entered.load(Ordering::SeqCst) >= self.wanted {
                return;
            }
            spin_loop();
        }
        self.alone.fetch_add(1, Ordering::SeqCst);
    }

    fn left(&self, contract: u32, version: u64) {
        let _ = self.ended.lock(self.rt).push((contract, version));
    }
}

/// Tells contracts by their numbers, each with its version.
fn passed_told(case: &mut Case<'_>, mut passed: Vec<(u32, u64)>) {
    passed.sort_unstable();
    for (contract, version) in &passed {
        case.text(" ");
        case.value(*contract);
        case.text("@");
        case.value(*version);
    }
}
