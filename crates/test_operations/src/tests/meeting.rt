//! Threads that wait for each other, so that they run at the same time. In vain, they give up, before a test's minute is over.
use std::sync::Wait;
use std::sync::atomic::AtomicU64;
use std::sync::atomic::Ordering::SeqCst;
use std::time::Duration;

/// How often a thread looks, after each look asleep for a millisecond at most.
const LOOKS: u32 = 40_000;

/// Where this many threads meet.
#[derive(Drop)]
pub struct Meeting {
    wanted: u64,
    come: AtomicU64,
    missed: AtomicU64,
}

impl Meeting {
    /// A meeting of this many threads.
    pub fn of(wanted: u64) -> Meeting {
        Meeting {
            wanted,
            come: AtomicU64::new(0),
            missed: AtomicU64::new(0),
        }
    }

    /// Comes, and waits until all have come, or it is given up.
    pub fn come<R: Wait>(&self, rt: &R) {
        self.come.fetch_add(1, SeqCst);
        self.come.wake_all();
        for _look in 0..LOOKS {
            let come = self.come.load(SeqCst);
            if come >= self.wanted || self.missed.load(SeqCst) > 0 {
                return;
            }
            let low = (come % 0x1_0000_0000) as u32;
            self.come
                .park_timeout(rt, low, Duration::from_micros(1_000));
        }
        self.missed.fetch_add(1, SeqCst);
    }

    /// Whether all came before one gave up.
    pub fn is_met(&self) -> bool {
        self.come.load(SeqCst) >= self.wanted && self.missed.load(SeqCst) == 0
    }
}
