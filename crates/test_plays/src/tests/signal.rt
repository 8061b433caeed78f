//! What a gate waits for, but not forever.
use std::sync::Wait;
use std::sync::atomic::AtomicU64;
use std::sync::atomic::Ordering::SeqCst;
use std::time::Duration;

/// After so many looks a thread gives up: forty seconds or more, of the sixty that a test has.
const LOOKS: u32 = 40_000;

/// In microseconds, between two looks.
const SLEEP: u64 = 1_000;

/// Comes when it was told often enough. If one thread gave it up, no other waits for it.
#[derive(Drop)]
pub struct Signal {
    wanted: u64,
    told: AtomicU64,
    given_up: AtomicU64,
}

impl Signal {
    /// Comes once it was told so many times.
    pub fn of(wanted: u64) -> Signal {
        Signal {
            wanted,
            told: AtomicU64::new(0),
            given_up: AtomicU64::new(0),
        }
    }

    /// Tells it once.
    pub fn tell(&self) {
        self.told.fetch_add(1, SeqCst);
    }

    /// Whether it was told often enough.
    pub fn has_come(&self) -> bool {
        self.told.load(SeqCst) >= self.wanted
    }

    /// Waits until it has come, or was given up.
    pub fn wait<R: Wait>(&self, rt: &R) {
        for _ in 0..LOOKS {
            if self.has_come() || self.was_given_up() {
                return;
            }
            let low = (self.told.load(SeqCst) % 0x1_0000_0000) as u32;
            self.told
                .park_timeout(rt, low, Duration::from_micros(SLEEP));
        }
        self.given_up.fetch_add(1, SeqCst);
    }

    /// Whether a thread gave it up.
    pub fn was_given_up(&self) -> bool {
        self.given_up.load(SeqCst) > 0
    }
}
