//! A whole run.
ghost use Rattle.std.specs.Prelude.{◌≡◌, ◌<◌, All, vec_len};
ghost use Rattle.bench_heaps.specs.Counts.{AreWordsInRange};
ghost use Rattle.bench_heaps.specs.Standing.{WorkerWaits};

use crate::trees::crew::{Crew, close, prepare};
use crate::trees::nodes::Halt;
use crate::trees::threads::{Alone, Worker, run_threads};
use crate::trees::words::Asked;
use crate::trees::workers::Checks;
use managed_heap::World;
use std::alloc::Global;
use std::sync::Wait;
use std::thread::Threads;

#[derive(Clone, Copy, Drop)]
pub struct Counted {
    /// What the first worker counted by itself.
    pub alone: Alone,
    /// The nodes of all short-lived trees, by their depths.
    pub checks: Checks,
}

/// Why there are no counts.
#[derive(Clone, Copy, Drop)]
pub enum Failure {
    /// The heap was full for this worker, counted from 1.
    Full(u64),
    /// A worker has used all numbers of objects.
    Spent,
    /// Memory ran out.
    OutOfMemory,
}

fn sum_up(workers: &[Worker]) -> Result<Checks, Halt> {
    let mut sums = [0u64; 5];
    for worker in workers {
        let checks = worker.came?;
        for i in 0..5usize {
            sums[i] = sums[i].wrapping_add(checks[i]);
        }
    }
    Ok(sums)
}

fn put_together(alone: Result<Alone, Halt>, workers: &[Worker]) -> Result<Counted, Halt> {
    let alone = alone?;
    let checks = sum_up(workers)?;
    Ok(Counted { alone, checks })
}

/// Why there are no counts.
fn failure_of(world: &mut World, halt: Halt) -> Failure {
    match halt {
        Halt::Full => Failure::Full(world.found_full().unwrap_or(0)),
        Halt::Spent => Failure::Spent,
    }
}

fn run_in<R: Threads + Wait + Sync>(
    rt: &R,
    world: &mut World,
    crew: &mut Crew,
    asked: &Asked,
) -> Result<Counted, Failure>
    requires range { AreWordsInRange asked.now }
    requires workers { All (λ x. WorkerWaits x.mutator) crew.old.workers.items }
    requires count { vec_len crew.old.workers ≡ asked.now.workers }
{
    let alone = run_threads(rt, world, &mut crew.workers, &mut crew.tracers, asked);
    match put_together(alone, crew.workers.as_slice()) {
        Ok(counted) => Ok(counted),
        Err(halt) => Err(failure_of(world, halt)),
    }
}

/// The counts of a whole run, or why there are none.
pub fn run<R: Threads + Wait + Sync>(
    rt: &R,
    alloc: Global,
    asked: &Asked,
) -> Result<Counted, Failure>
    requires range { AreWordsInRange asked.now }
{
    let Ok((mut world, mut crew)) = prepare(alloc, asked) else {
        return Err(Failure::OutOfMemory);
    };
    let came = run_in(rt, &mut world, &mut crew, asked);
    match close(world, crew) {
        Some(()) => came,
        None => Err(Failure::OutOfMemory),
    }
}
