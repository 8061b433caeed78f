//! Two threads only put into a queue, and two only take out of it.

use super::crew::{
    LOOKS, ROOT, SHARED, Tally, Worker, come, gather, hire, lower, raise_below, trace,
};
use super::queue::{Next, give, make_queue, take};
use example_structures::SharedQueue;
use shared_heap::{Refused, SharedMutator, SharedSizes, SharedWorld};
use std::alloc::Global;
use std::sync::Wait;
use std::thread::{Threads, for_each_mut, join_mut, yield_now};

const COUNT: u32 = 20_000;

/// How many objects are in the queue at most: its own value counts them.
const PLACES: u32 = 64;

/// Puts in `COUNT` objects, each once there is a place for it, and then raises the root's value.
fn produce<R: Wait>(
    rt: &R,
    m: &mut SharedMutator,
    queue: SharedQueue,
    p: u32,
    tally: &mut Tally,
) -> Result<(), Refused> {
    come(rt, m)?;
    for n in 0..COUNT {
        if !raise_below(rt, m, SHARED, PLACES)? {
            tally.expect(false);
            return Ok(());
        }
        give(rt, m, queue, n.wrapping_mul(4).wrapping_add(p))?;
    }
    let is_first = raise_below(rt, m, ROOT, 2)?;
    tally.expect(is_first);
    Ok(())
}

fn takes<R: Wait>(
    rt: &R,
    m: &mut SharedMutator,
    queue: SharedQueue,
    next: &mut Next,
    tally: &mut Tally,
) -> Result<bool, Refused> {
    let taken = take(rt, m, queue, next, tally)?;
    if taken {
        lower(rt, m, SHARED)?;
    }
    Ok(taken)
}

fn consume<R: Wait>(
    rt: &R,
    m: &mut SharedMutator,
    queue: SharedQueue,
    tally: &mut Tally,
) -> Result<(), Refused> {
    come(rt, m)?;
    let mut next = Next::new();
    for _look in 0..LOOKS {
        let ended = m.value(ROOT)? == 2;
        let taken = takes(rt, m, queue, &mut next, tally)?;
        if !taken && ended {
            return Ok(());
        }
        if !taken {
            m.safe_point(rt)?;
            yield_now();
        }
    }
    tally.expect(false);
    Ok(())
}

fn act<R: Wait>(rt: &R, k: usize, queue: SharedQueue, worker: &mut Worker) {
    let m = &mut worker.mutator;
    let tally = &mut worker.tally;
    let ended = if k < 2 {
        produce(rt, m, queue, k as u32, tally)
    } else {
        consume(rt, m, queue, tally)
    };
    worker.end(ended.is_ok());
}

fn act_all<R: Threads + Wait + Sync>(
    rt: &R,
    world: &mut SharedWorld,
    workers: &mut Vec<Worker>,
    queue: SharedQueue,
) {
    let threads = workers.len();
    if threads > 0 {
        for_each_mut(
            rt,
            workers.as_mut_slice(),
            threads,
            &|k, worker: &mut Worker| {
                act(rt, k, queue, worker);
            },
        );
    }
    world.dismiss_tracers(rt);
}

fn plays<R: Threads + Wait + Sync>(rt: &R, alloc: Global) -> Option<(Tally, u64)> {
    let sizes = SharedSizes::of_cells(512).fields(2).mutators(5).tracers(1);
    let mut world = SharedWorld::open(alloc, sizes).ok()?;
    let queue = SharedQueue::at(SHARED)?;
    let mut maker = world.mutator()?;
    make_queue(rt, &mut maker, queue).ok()?;
    let mut workers = hire(alloc, &mut world, 4)?;
    let mut tracer = world.tracer()?;
    join_mut(
        rt,
        &mut || trace(rt, &mut tracer),
        &mut || act_all(rt, &mut world, &mut workers, queue),
    );
    Some(gather(rt, &mut workers))
}

#[test]
fn producers_and_consumers_need_not_be_the_same(rt: HostRuntime) {
    let Some((tally, objects)) = plays(&rt, rt.alloc()) else {
        panic!(&rt; "refused")
    };
    let wanted = Tally {
        count: 40_000,
        sum: 1_599_940_000,
        wrong: 0,
    };
    assert!(&rt; tally == wanted);
    // Each was put in with an object of its own, so there were at least 80,000 / 512 - 1 = 155 collections.
    assert!(&rt; objects == 80_000);
}
