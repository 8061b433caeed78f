//! Four threads put into one queue and take out of it.

use super::crew::{FOUND, MADE, ROOT, SHARED, Tally, Worker, come, gather, hire, trace};
use example_structures::SharedQueue;
use shared_heap::{Refused, SharedMutator, SharedSizes, SharedWorld};
use std::alloc::Global;
use std::sync::Wait;
use std::thread::{Threads, for_each_mut, join_mut};

/// How often each thread puts in and takes out, and how many at a time.
const ROUNDS: u32 = 100_000;

const BATCH: u32 = 4;

/// Makes the queue, and lets the root's first field refer to it.
pub fn make_queue<R: Wait>(
    rt: &R,
    m: &mut SharedMutator,
    queue: SharedQueue,
) -> Result<(), Refused> {
    m.enter(rt)?;
    m.root(ROOT)?;
    queue.make(rt, m)?;
    m.set(ROOT, 0, SHARED)?;
    m.forget(SHARED)?;
    m.leave();
    Ok(())
}

/// A thread's numbers go in steps of four.
#[derive(Drop)]
pub struct Next {
    least: [u64; 4],
}

impl Next {
    /// Any number may come.
    pub fn new() -> Next {
        Next { least: [0; 4] }
    }

    /// Whether a number comes behind its thread's earlier ones.
    pub fn comes(&mut self, number: u64) -> bool {
        match self.least.get_mut((number % 4) as usize) {
            None => false,
            Some(least) => {
                let is_next = number >= *least;
                *least = number.wrapping_add(1);
                is_next
            }
        }
    }
}

/// Puts in a number, and an object with it as its value.
pub fn give<R: Wait>(
    rt: &R,
    m: &mut SharedMutator,
    queue: SharedQueue,
    number: u32,
) -> Result<(), Refused> {
    m.make(rt, MADE, number)?;
    queue.put(rt, m, MADE, number)?;
    m.forget(MADE)
}

/// Takes one out, if any, with its own object, behind its thread's earlier ones.
pub fn take<R: Wait>(
    rt: &R,
    m: &mut SharedMutator,
    queue: SharedQueue,
    next: &mut Next,
    tally: &mut Tally,
) -> Result<bool, Refused> {
    let Some(number) = queue.take(rt, m, FOUND)? else {
        return Ok(false);
    };
    tally.count(number);
    tally.expect(next.comes(number));
    tally.expect(!m.is_nil(FOUND)? && m.value(FOUND)? == number);
    m.forget(FOUND)?;
    Ok(true)
}

/// There is always one to take: no thread has taken more than it put in.
fn trades<R: Wait>(
    rt: &R,
    m: &mut SharedMutator,
    queue: SharedQueue,
    k: u32,
    tally: &mut Tally,
) -> Result<(), Refused> {
    come(rt, m)?;
    let mut next = Next::new();
    for n in 0..ROUNDS * BATCH {
        give(rt, m, queue, n.wrapping_mul(4).wrapping_add(k))?;
        if n % BATCH == BATCH - 1 {
            for _ in 0..BATCH {
                let taken = take(rt, m, queue, &mut next, tally)?;
                tally.expect(taken);
            }
        }
    }
    Ok(())
}

fn trade_all<R: Threads + Wait + Sync>(
    rt: &R,
    world: &mut SharedWorld,
    workers: &mut Vec<Worker>,
    queue: SharedQueue,
) {
    let threads = workers.len();
    if threads > 0 {
        for_each_mut(
            rt,
            workers.as_mut_slice(),
            threads,
            &|_, worker: &mut Worker| {
                let m = &mut worker.mutator;
                let ended = trades(rt, m, queue, worker.thread, &mut worker.tally);
                worker.end(ended.is_ok());
            },
        );
    }
    world.dismiss_tracers(rt);
}

/// What they take out of a queue, and how many objects they made.
fn plays<R: Threads + Wait + Sync>(rt: &R, alloc: Global, cells: u32) -> Option<(Tally, u64)> {
    let sizes = SharedSizes::of_cells(cells)
        .fields(2)
        .mutators(5)
        .tracers(1);
    let mut world = SharedWorld::open(alloc, sizes).ok()?;
    let queue = SharedQueue::at(SHARED)?;
    let mut maker = world.mutator()?;
    make_queue(rt, &mut maker, queue).ok()?;
    let mut workers = hire(alloc, &mut world, 4)?;
    let mut tracer = world.tracer()?;
    join_mut(
        rt,
        &mut || trace(rt, &mut tracer),
        &mut || trade_all(rt, &mut world, &mut workers, queue),
    );
    Some(gather(rt, &mut workers))
}

#[test]
fn what_goes_into_a_queue_comes_out_once(rt: HostRuntime) {
    let Some((tally, objects)) = plays(&rt, rt.alloc(), 128) else {
        panic!(&rt; "refused")
    };
    let wanted = Tally {
        count: 1_600_000,
        sum: 1_279_999_200_000,
        wrong: 0,
    };
    assert!(&rt; tally == wanted);
    // So there were at least 3,200,000 / 128 - 1 = 24,999 collections: only a collection frees a cell.
    assert!(&rt; objects == 3_200_000);
}
