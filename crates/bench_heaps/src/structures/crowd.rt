//! A world with a structure in the root's first field.

use crate::seen::Seen;
use crate::structures::work::{fill, mix, pairs};
use crate::structures::{Asked, Structure};
use example_structures::{SharedMap, SharedQueue};
use shared_heap::{Refused, SharedMutator, SharedSizes, SharedWorld, Tracer};
use std::alloc::Global;
use std::sync::Wait;
use std::thread::{Threads, for_each_mut, join_mut};

/// The variables of each thread: the root, the structure, and what it makes and finds.
const ROOT: u8 = 0;

pub const SHARED: u8 = 1;

pub const MADE: u8 = 2;

pub const FOUND: u8 = 3;

/// A mutator, and the objects that it found, or why it ended.
#[derive(Drop)]
struct Worker {
    thread: u32,
    mutator: SharedMutator,
    came: Result<Seen, Refused>,
}

#[derive(Clone, Copy, Drop)]
enum Shared {
    Queue(SharedQueue),
    Map(SharedMap),
}

fn shared_of(structure: Structure) -> Option<Shared> {
    match structure {
        Structure::Queue => Some(Shared::Queue(SharedQueue::at(SHARED)?)),
        Structure::Map => Some(Shared::Map(SharedMap::at(SHARED, 16, 16)?)),
    }
}

fn make<R: Wait>(rt: &R, m: &mut SharedMutator, shared: Shared) -> Result<(), Refused> {
    m.enter(rt)?;
    match shared {
        Shared::Queue(queue) => queue.make(rt, m)?,
        Shared::Map(map) => fill(rt, m, map)?,
    }
    m.root(ROOT)?;
    m.set(ROOT, 0, SHARED)?;
    m.leave();
    Ok(())
}

fn act<R: Wait>(
    rt: &R,
    m: &mut SharedMutator,
    shared: Shared,
    asked: Asked,
    k: u32,
) -> Result<Seen, Refused> {
    m.enter(rt)?;
    m.root(ROOT)?;
    m.get(SHARED, ROOT, 0)?;
    match shared {
        Shared::Queue(queue) => pairs(rt, m, queue, asked.rounds),
        Shared::Map(map) => mix(rt, m, map, asked, k),
    }
}

fn hire(alloc: Global, world: &mut SharedWorld, threads: u32) -> Option<Vec<Worker>> {
    let mut workers = Vec::new(alloc);
    for thread in 0..threads {
        let worker = Worker {
            thread,
            mutator: world.mutator()?,
            came: Ok(Seen::nothing()),
        };
        workers.push(worker).ok()?;
    }
    Some(workers)
}

fn gather(workers: Vec<Worker>) -> Option<Seen> {
    let mut all = Seen::nothing();
    for worker in workers {
        all = all.and(worker.came.ok()?);
    }
    Some(all)
}

fn act_all<R: Threads + Wait + Sync>(
    rt: &R,
    world: &mut SharedWorld,
    workers: &mut Vec<Worker>,
    shared: Shared,
    asked: Asked,
) {
    let threads = workers.len();
    if threads > 0 {
        for_each_mut(
            rt,
            workers.as_mut_slice(),
            threads,
            &|_, worker: &mut Worker| {
                let m = &mut worker.mutator;
                worker.came = act(rt, m, shared, asked, worker.thread);
                // It leaves if it was refused too, so that no other waits for it.
                m.leave();
            },
        );
    }
    world.dismiss_tracers(rt);
}

/// Until it is dismissed.
fn trace<R: Wait>(rt: &R, tracer: &mut Option<Tracer>) {
    if let Some(tracer) = tracer {
        tracer.run(rt);
    }
}

/// What the threads find. None if a size is out of its range, the heap is full, or memory ran out.
pub fn run<R: Threads + Wait + Sync>(rt: &R, alloc: Global, asked: Asked) -> Option<Seen> {
    let fields = match asked.structure {
        Structure::Queue => 2,
        Structure::Map => 16,
    };
    let mutators = asked.workers.checked_add(1)?;
    let sizes = SharedSizes::of_cells(asked.cells)
        .fields(fields)
        .mutators(mutators)
        .tracers(asked.tracers);
    let mut world = SharedWorld::open(alloc, sizes).ok()?;
    let shared = shared_of(asked.structure)?;
    let mut maker = world.mutator()?;
    make(rt, &mut maker, shared).ok()?;
    let mut workers = hire(alloc, &mut world, asked.workers)?;
    let mut tracer = world.tracer();
    join_mut(
        rt,
        &mut || trace(rt, &mut tracer),
        &mut || act_all(rt, &mut world, &mut workers, shared, asked),
    );
    gather(workers)
}
