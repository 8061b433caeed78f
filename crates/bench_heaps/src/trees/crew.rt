ghost use Rattle.std.specs.Prelude.{◌≡◌, All, IfOk, vec_len};
ghost use Rattle.bench_heaps.specs.Counts.{AreWordsInRange};
ghost use Rattle.bench_heaps.specs.Standing.{WorkerWaits};

use crate::trees::threads::Worker;
use crate::trees::words::Asked;
use managed_heap::{Sizes, Tracer, World};
use std::alloc::{AllocError, Global};

/// All mutators and tracers of a world.
#[derive(Drop)]
pub struct Crew {
    pub workers: Vec<Worker>,
    pub tracers: Vec<Tracer>,
}

/// The world hands out the last mutator first.
fn hire_workers(alloc: Global, world: &mut World) -> Result<Vec<Worker>, AllocError>
    requires waits { All WorkerWaits world.old.mutators.items }
    ensures waits { IfOk result (λ r. All (λ x. WorkerWaits x.mutator) r.items) }
    ensures count { IfOk result (λ r. vec_len r ≡ vec_len world.old.mutators) }
{
    let mut workers = Vec::new(alloc);
    while let Some(mutator) = world.mutator() {
        let worker = Worker {
            mutator,
            came: Ok([0; 5]),
        };
        workers.insert(0, worker)?;
    }
    Ok(workers)
}

fn hire_tracers(alloc: Global, world: &mut World) -> Result<Vec<Tracer>, AllocError> {
    let mut tracers = Vec::new(alloc);
    while let Some(tracer) = world.tracer() {
        tracers.push(tracer)?;
    }
    Ok(tracers)
}

fn open(alloc: Global, asked: &Asked) -> Result<World, AllocError>
    ensures waits { IfOk result (λ world. All WorkerWaits world.mutators.items) }
    ensures count { IfOk result (λ world. vec_len world.mutators ≡ asked.now.workers) }
{
    let sizes = Sizes::of_cells(asked.cells)
        .fields(2)
        .mutators(asked.workers)
        .tracers(asked.tracers);
    match World::open(alloc, sizes) {
        Ok(world) => Ok(world),
        Err(_) => Err(AllocError),
    }
}

/// Opens a world, and takes all its mutators and tracers.
pub fn prepare(alloc: Global, asked: &Asked) -> Result<(World, Crew), AllocError>
    requires range { AreWordsInRange asked.now }
    ensures workers { IfOk result (λ r. All (λ x. WorkerWaits x.mutator) r.1.workers.items) }
    ensures count { IfOk result (λ r. vec_len r.1.workers ≡ asked.now.workers) }
{
    let mut world = open(alloc, asked)?;
    let workers = hire_workers(alloc, &mut world)?;
    let tracers = hire_tracers(alloc, &mut world)?;
    Ok((world, Crew { workers, tracers }))
}

/// Gives all back and closes the world. None if one isn't the world's.
pub fn close(world: World, crew: Crew) -> Option<()> {
    let mut world = world;
    let Crew { workers, tracers } = crew;
    for worker in workers {
        world.take_mutator(worker.mutator).ok()?;
    }
    for tracer in tracers {
        world.take_tracer(tracer).ok()?;
    }
    world.close().ok()
}
