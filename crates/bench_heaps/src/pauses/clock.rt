//! What a worker's stops took, and what was done in them and beside them.

use crate::pauses::timeline::{Doing, Timeline};
use managed_heap::{Counts, Paid, Watch};
use std::alloc::Global;
use std::rt::Clock;
use std::time::Instant;

/// The nanoseconds between two readings of the clock, if both are there.
pub fn nanos_between(before: Option<Instant>, after: Option<Instant>) -> Option<u64> {
    let took = after?.saturating_duration_since(before?);
    u64::try_from(took.as_nanos()).ok()
}

/// The nanoseconds since then, if the clock tells them.
pub fn nanos_since<R: Clock>(rt: &R, start: Option<Instant>) -> Option<u64> {
    nanos_between(start, Instant::now(rt).ok())
}

/// What was counted of cycles and collections.
#[derive(Clone, Copy, Drop)]
pub struct Tally {
    /// How many ordinary cycles ended, and how many cells were in use then in all.
    pub cycles: u64,
    pub marked: u64,
    /// How many precise collections there were, and how many cells were in use then in all.
    pub collections: u64,
    pub exact: u64,
    /// Objects traced beside others.
    pub traced: u64,
    /// Objects scanned again in stops, on dirty cards.
    pub rescanned: u64,
}

impl Tally {
    /// Nothing counted.
    pub fn nothing() -> Tally {
        Tally {
            cycles: 0,
            marked: 0,
            collections: 0,
            exact: 0,
            traced: 0,
            rescanned: 0,
        }
    }

    /// The sums of both.
    pub fn and(self, other: Tally) -> Tally {
        Tally {
            cycles: self.cycles.wrapping_add(other.cycles),
            marked: self.marked.wrapping_add(other.marked),
            collections: self.collections.wrapping_add(other.collections),
            exact: self.exact.wrapping_add(other.exact),
            traced: self.traced.wrapping_add(other.traced),
            rescanned: self.rescanned.wrapping_add(other.rescanned),
        }
    }
}

/// What was noted of a worker.
#[derive(Drop)]
pub struct Log {
    /// The nanoseconds of each stop from raise to resume.
    pub lengths: Vec<u64>,
    pub tally: Tally,
    pub line: Timeline,
}

impl Log {
    /// An empty log, with a timeline if the run's begin is given.
    pub fn empty(alloc: Global, began: Option<Instant>) -> Log {
        Log {
            lengths: Vec::new(alloc),
            tally: Tally::nothing(),
            line: Timeline::new(began, alloc),
        }
    }
}

/// A watch with a clock, and when it was last asked for a stop.
#[derive(Drop)]
pub struct StopClock<'a, R: Clock> {
    pub rt: &'a R,
    pub asked: Option<Instant>,
    pub log: Log,
}

impl<'a, R: Clock> StopClock<'a, R> {
    /// A watch with this clock and log.
    pub fn new(rt: &'a R, log: Log) -> StopClock<'a, R> {
        StopClock {
            rt,
            asked: None,
            log,
        }
    }

    /// A call begins that may wait.
    pub fn comes(&mut self) {
        self.log.line.begin(self.rt);
    }

    /// It has ended.
    pub fn goes(&mut self) {
        self.log.line.end(self.rt, Doing::Waiting);
    }
}

impl<'a, R: Clock> Watch for StopClock<'a, R> {
    ghost hears = { λ s n t. Unit {0} };

    fn pays(&mut self, paid: Paid) {
        if paid.quota > 0 {
            self.log.line.end(self.rt, Doing::Paying);
        }
        let tally = &mut self.log.tally;
        tally.traced = tally.traced.wrapping_add(u64::from(paid.done));
    }

    fn asks(&mut self) {
        self.log.line.end(self.rt, Doing::Waiting);
        self.asked = Instant::now(self.rt).ok();
    }

    fn finishes(&mut self, counts: Counts) {
        let tally = &mut self.log.tally;
        tally.cycles = tally.cycles.wrapping_add(1);
        tally.marked = tally.marked.wrapping_add(u64::from(counts.marked));
        tally.rescanned = tally.rescanned.wrapping_add(u64::from(counts.rescanned));
    }

    fn collects(&mut self, counts: Counts) {
        let tally = &mut self.log.tally;
        tally.collections = tally.collections.wrapping_add(1);
        tally.exact = tally.exact.wrapping_add(u64::from(counts.marked));
    }

    fn resumes(&mut self) {
        if let Some(took) = nanos_since(self.rt, self.asked) {
            // A length that finds no memory isn't told.
            let _kept = self.log.lengths.push(took);
        }
        self.log.line.end(self.rt, Doing::Collecting);
    }
}
