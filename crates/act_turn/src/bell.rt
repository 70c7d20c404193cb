//! Bells that threads sleep by.
use std::sync::Wait;
use std::sync::atomic::{AtomicU64, Ordering};

/// Rings when something has changed, for threads that sleep until then. A thread counts the rings before it looks at what may have
/// changed, and then sleeps only if none has come since. Where nobody sleeps or is about to, ringing takes no call of the system: a
/// thread counts as a sleeper before it looks at the rings a last time, and who rings counts the ring before looking for sleepers.
#[derive(Drop)]
pub struct Bell {
    /// How often it has rung, modulo 2^64.
    rings: AtomicU64,
    /// How many threads sleep, or are about to or have just woken.
    sleepers: AtomicU64,
}

impl Bell {
    /// A bell that hasn't rung.
    pub fn new() -> Bell {
        Bell {
            rings: AtomicU64::new(0),
            sleepers: AtomicU64::new(0),
        }
    }

    /// How often it has rung, modulo 2^64.
    pub fn rings(&self) -> u64 {
        self.rings.load(Ordering::SeqCst)
    }

    /// Rings for one thread that sleeps.
    pub fn ring_one(&self) {
        self.rings.fetch_add(1, Ordering::SeqCst);
        self.wake_one();
    }

    /// Rings for all threads that sleep.
    pub fn ring_all(&self) {
        self.rings.fetch_add(1, Ordering::SeqCst);
        if self.has_sleepers() {
            self.rings.wake_all();
        }
    }

    /// Wakes one thread more that still sleeps. A thread that is about to sleep needn't be woken: what it waits for was rung for.
    pub fn wake_one(&self) {
        if self.has_sleepers() {
            self.rings.wake_one();
        }
    }

    /// Sleeps until it rings, unless it has rung since `rings` were counted; a sleep may also end for no reason. The system
    /// compares the low 32 bits of the count alone, so all 64 are compared first: a count that has gone on by 2^32 since isn't
    /// taken for the same. Only where it goes on by such a multiple between this look and the system's does the thread
    /// miss these rings, and it then sleeps until the next one.
    pub fn sleep<R: Wait>(&self, rt: &R, rings: u64) {
        self.sleepers.fetch_add(1, Ordering::SeqCst);
        if self.rings() == rings {
            self.rings.park(rt, (rings & 0xffff_ffff) as u32);
        }
        self.sleepers.fetch_sub(1, Ordering::SeqCst);
    }

    /// Whether a thread sleeps, or is about to or has just woken.
    fn has_sleepers(&self) -> bool {
        self.sleepers.load(Ordering::SeqCst) > 0
    }
}
