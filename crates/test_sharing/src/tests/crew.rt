//! A world with a structure in the root's first field, and threads that act on it.

use shared_heap::{Refused, SharedMutator, SharedWorld, Tracer};
use std::alloc::Global;
use std::sync::Wait;

/// The variables of each thread: the root, the structure, and what it makes and finds.
pub const ROOT: u8 = 0;

pub const SHARED: u8 = 1;

pub const MADE: u8 = 2;

pub const FOUND: u8 = 3;

/// How often a thread looks before it gives up.
pub const LOOKS: u32 = 4_000_000;

/// What a thread counted.
#[derive(PartialEq, Drop)]
pub struct Tally {
    pub count: u64,
    pub sum: u64,
    /// How many answers were wrong.
    pub wrong: u64,
}

impl Tally {
    /// Nothing counted.
    pub fn new() -> Tally {
        Tally {
            count: 0,
            sum: 0,
            wrong: 0,
        }
    }

    /// Counts a number.
    pub fn count(&mut self, number: u64) {
        self.count = self.count.wrapping_add(1);
        self.sum = self.sum.wrapping_add(number);
    }

    /// Notes whether an answer is right.
    pub fn expect(&mut self, right: bool) {
        if !right {
            self.wrong = self.wrong.wrapping_add(1);
        }
    }

    /// Adds what another counted.
    fn add(&mut self, other: &Tally) {
        self.count = self.count.wrapping_add(other.count);
        self.sum = self.sum.wrapping_add(other.sum);
        self.wrong = self.wrong.wrapping_add(other.wrong);
    }
}

/// A mutator, and what came of it.
#[derive(Drop)]
pub struct Worker {
    pub thread: u32,
    /// It is outside before and after.
    pub mutator: SharedMutator,
    pub tally: Tally,
}

impl Worker {
    /// It leaves, so that no other waits for it. A refusal counts as a wrong answer.
    pub fn end(&mut self, has_ended: bool) {
        self.tally.expect(has_ended);
        self.mutator.leave();
    }
}

/// A mutator for each of so many threads.
pub fn hire(alloc: Global, world: &mut SharedWorld, count: u32) -> Option<Vec<Worker>> {
    let mut workers = Vec::new(alloc);
    for thread in 0..count {
        let worker = Worker {
            thread,
            mutator: world.mutator()?,
            tally: Tally::new(),
        };
        workers.push(worker).ok()?;
    }
    Some(workers)
}

/// Enters, with the root and the structure in hand.
pub fn come<R: Wait>(rt: &R, m: &mut SharedMutator) -> Result<(), Refused> {
    m.enter(rt)?;
    m.root(ROOT)?;
    m.get(SHARED, ROOT, 0)
}

/// Raises the value of v's object by one, once it is below a bound; false if it wasn't in all looks.
pub fn raise_below<R: Wait>(
    rt: &R,
    m: &mut SharedMutator,
    v: u8,
    bound: u32,
) -> Result<bool, Refused> {
    for _ in 0..LOOKS {
        let found = u32::try_from(m.value(v)?).unwrap_or(bound);
        if found < bound && m.exchange_value(v, found, found.wrapping_add(1))? {
            return Ok(true);
        }
        m.safe_point(rt)?;
        std::thread::yield_now();
    }
    Ok(false)
}

/// Lowers the value of v's object by one.
pub fn lower<R: Wait>(rt: &R, m: &mut SharedMutator, v: u8) -> Result<(), Refused> {
    for _ in rt.forever() {
        let found = u32::try_from(m.value(v)?).unwrap_or(0);
        if m.exchange_value(v, found, found.wrapping_sub(1))? {
            break;
        }
        m.safe_point(rt)?;
    }
    Ok(())
}

/// How many objects a mutator has made.
fn made<R: Wait>(rt: &R, m: &mut SharedMutator) -> Result<u64, Refused> {
    m.enter(rt)?;
    m.make(rt, MADE, 0)?;
    let number = m.number(MADE)?;
    m.forget(MADE)?;
    Ok(number % 4_294_967_296)
}

/// What all workers counted, and how many objects they made.
pub fn gather<R: Wait>(rt: &R, workers: &mut Vec<Worker>) -> (Tally, u64) {
    let mut all = Tally::new();
    let mut objects = 0u64;
    for worker in workers {
        let made = made(rt, &mut worker.mutator);
        worker.end(made.is_ok());
        objects = objects.wrapping_add(made.unwrap_or(0));
        all.add(&worker.tally);
    }
    (all, objects)
}

/// Marks beside the others, until it is dismissed.
pub fn trace<R: Wait>(rt: &R, tracer: &mut Tracer) {
    tracer.run(rt);
}
