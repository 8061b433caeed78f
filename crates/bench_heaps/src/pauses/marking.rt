//! A thread that marks beside the workers.

use crate::pauses::timeline::{Doing, Timeline};
use managed_heap::{Tracer, Turn};
use std::alloc::Global;
use std::rt::Clock;
use std::sync::Wait;
use std::thread::{sleep, yield_now};
use std::time::{Duration, Instant};

/// A tracer, and what it did when.
#[derive(Drop)]
pub struct Marker {
    pub tracer: Tracer,
    pub line: Timeline,
}

/// How many microseconds a tracer that found nothing sleeps, if its doings are noted.
const SLEEP: u64 = 50;

impl Marker {
    /// A tracer, with a timeline if the run's begin is given.
    pub fn new(tracer: Tracer, began: Option<Instant>, alloc: Global) -> Marker {
        Marker {
            tracer,
            line: Timeline::new(began, alloc),
        }
    }

    fn turn<R: Wait + Clock>(&mut self, rt: &R) -> Turn {
        let before = self.tracer.traced();
        self.line.begin(rt);
        let turn = self.tracer.trace_turn(rt);
        if self.tracer.traced() == before {
            self.line.end(rt, Doing::Tending);
            sleep(rt, Duration::from_micros(SLEEP));
        } else {
            self.line.end(rt, Doing::Tracing);
            yield_now();
        }
        turn
    }

    /// Marks until it is dismissed, turn by turn if its doings are noted.
    pub fn run<R: Wait + Clock>(&mut self, rt: &R) {
        if self.line.began.is_none() {
            self.tracer.run(rt);
            return;
        }
        for _ in rt.forever() {
            match self.turn(rt) {
                Turn::Going => {}
                _ => return,
            }
        }
    }
}
