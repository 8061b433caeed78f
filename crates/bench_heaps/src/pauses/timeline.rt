//! What a thread did when, if that is asked for.
//!
//! In between it runs the program, or rests. If it waits for another's stop it may help, which can't be told apart
//! here.

use crate::pauses::clock::nanos_since;
use std::alloc::Global;
use std::rt::Clock;
use std::time::Instant;

/// What a thread did.
#[derive(Clone, Copy, Drop)]
pub enum Doing {
    /// A mutator marked beside the others, for a cache.
    Paying,
    /// A mutator asked for a stop, and ended a cycle or collected in it.
    Collecting,
    /// It waited for the stop of another.
    Waiting,
    /// A tracer marked beside the mutators.
    Tracing,
    /// A tracer found nothing to trace.
    Tending,
}

impl Doing {
    /// Its name.
    pub fn word(self) -> &'static str {
        match self {
            Doing::Paying => "paying",
            Doing::Collecting => "collecting",
            Doing::Waiting => "waiting",
            Doing::Tracing => "tracing",
            Doing::Tending => "tending",
        }
    }

    /// From how many nanoseconds on it is noted. In a shorter wait a mutator got a cache for nothing.
    fn least(self) -> u64 {
        match self {
            Doing::Waiting | Doing::Tending => 100_000,
            _ => 0,
        }
    }
}

/// From one time to another, in nanoseconds since the run began.
#[derive(Clone, Copy, Drop)]
pub struct Interval {
    pub doing: Doing,
    pub from: u64,
    pub to: u64,
}

/// The intervals of one thread, in order.
#[derive(Drop)]
pub struct Timeline {
    /// When the run began. None if no intervals are asked for, and then no clock is read.
    pub began: Option<Instant>,
    /// Where the next interval begins.
    pub from: u64,
    pub noted: Vec<Interval>,
}

impl Timeline {
    /// A line on which nothing is noted.
    pub fn new(began: Option<Instant>, alloc: Global) -> Timeline {
        Timeline {
            began,
            from: 0,
            noted: Vec::new(alloc),
        }
    }

    fn now<R: Clock>(&self, rt: &R) -> u64 {
        nanos_since(rt, self.began).unwrap_or(0)
    }

    /// An interval begins.
    pub fn begin<R: Clock>(&mut self, rt: &R) {
        if self.began.is_some() {
            self.from = self.now(rt);
        }
    }

    /// The interval ends, in which this was done.
    pub fn end<R: Clock>(&mut self, rt: &R, doing: Doing) {
        if self.began.is_none() {
            return;
        }
        let (from, to) = (self.from, self.now(rt));
        self.from = to;
        if to.saturating_sub(from) >= doing.least() {
            // An interval that finds no memory isn't told.
            let _kept = self.noted.push(Interval { doing, from, to });
        }
    }
}
