//! All threads of a run.
ghost use Rattle.std.specs.Prelude.{◌≡◌, ◌+◌, ◌<◌, ◌≤◌, All, IfOk, vec_len};
ghost use Rattle.bench_heaps.specs.Counts.{AreWordsInRange};
ghost use Rattle.bench_heaps.specs.Playing.{AllWait, WorkerPlayed, HavePlayed};
ghost use Rattle.bench_heaps.specs.Standing.{KeepsTree, WorkerWaits};
ghost use Rattle.bench_heaps.specs.Trees.{full};

use crate::trees::nodes::Halt;
use crate::trees::words::Asked;
use crate::trees::workers::{Checks, count_kept, keep, play, stretch};
use managed_heap::{Mutator, Tracer, World};
use std::sync::Wait;
use std::thread::{Threads, for_each_mut, join_mut};

/// A mutator, with what it counted, or why it ended.
#[derive(Drop)]
pub struct Worker {
    pub mutator: Mutator,
    pub came: Result<Checks, Halt>,
}

/// What the first worker counted by itself.
#[derive(Clone, Copy, Drop)]
pub struct Alone {
    /// The nodes of the tree that stretched the heap.
    pub stretched: u64,
    /// The nodes of the kept tree, when all others were done.
    pub kept: u64,
}

fn play_one<R: Threads + Wait + Sync>(rt: &R, worker: &mut Worker, asked: &Asked, at: u32)
    requires range { AreWordsInRange asked.now }
    requires one { at < asked.now.workers }
    requires waits { WorkerWaits worker.old.mutator }
    ensures { WorkerPlayed asked.now at worker.old worker.new }
{
    worker.came = play(rt, &mut worker.mutator, asked, at);
}

fn play_all<R: Threads + Wait + Sync>(rt: &R, workers: &mut Vec<Worker>, asked: &Asked)
    requires range { AreWordsInRange asked.now }
    requires some { (0 < vec_len workers.old) × (vec_len workers.old ≡ asked.now.workers) }
    requires waits { All (λ x. WorkerWaits x.mutator) workers.old.items }
    ensures { HavePlayed asked.now workers.old.items workers.new.items }
{
    let threads = workers.len();
    for_each_mut(
        rt,
        workers.as_mut_slice(),
        threads,
        &|at, worker: &mut Worker|
            requires { AreWordsInRange asked.now × (at < asked.now.workers) × WorkerWaits worker.now.mutator }
            ensures { WorkerPlayed asked.entry.now at worker.entry.now worker.exit.now }
        { play_one(rt, worker, asked, at as u32) },
    );
}

fn begin<R: Wait>(rt: &R, worker: &mut Worker, depth: u8) -> Result<u64, Halt>
    requires few { depth ≤ 13 }
    requires waits { WorkerWaits worker.old.mutator }
    ensures waits { WorkerWaits worker.new.mutator }
    ensures counts { IfOk result (λ nodes. nodes ≡ full (depth + 1)) }
    ensures tree { IfOk result (λ _. KeepsTree depth worker.new.mutator) }
{
    let nodes = stretch(rt, &mut worker.mutator, depth)?;
    keep(rt, &mut worker.mutator, depth)?;
    Ok(nodes)
}

fn finish<R: Wait>(rt: &R, worker: &mut Worker, depth: u8) -> Result<u64, Halt>
    requires few { depth ≤ 13 }
    requires waits { WorkerWaits worker.old.mutator }
    ensures waits { WorkerWaits worker.new.mutator }
    ensures counts { KeepsTree depth worker.old.mutator → IfOk result (λ nodes. nodes ≡ full depth) }
    ensures came { worker.new.came ≡ worker.old.came }
{
    count_kept(rt, &mut worker.mutator, depth)
}

fn work<R: Threads + Wait + Sync>(
    rt: &R,
    workers: &mut Vec<Worker>,
    asked: &Asked,
) -> Result<Alone, Halt>
    requires range { AreWordsInRange asked.now }
    requires some { (0 < vec_len workers.old) × (vec_len workers.old ≡ asked.now.workers) }
    requires waits { All (λ x. WorkerWaits x.mutator) workers.old.items }
    ensures waits { AllWait workers.new.items }
{
    let depth = asked.depth as u8;
    let stretched = begin(rt, &mut workers[0], depth)?;
    play_all(rt, workers, asked);
    let kept = finish(rt, &mut workers[0], depth)?;
    Ok(Alone { stretched, kept })
}

fn work_to_end<R: Threads + Wait + Sync>(
    rt: &R,
    world: &mut World,
    workers: &mut Vec<Worker>,
    asked: &Asked,
) -> Result<Alone, Halt>
    requires range { AreWordsInRange asked.now }
    requires some { (0 < vec_len workers.old) × (vec_len workers.old ≡ asked.now.workers) }
    requires waits { All (λ x. WorkerWaits x.mutator) workers.old.items }
    ensures waits { AllWait workers.new.items }
{
    let came = work(rt, workers, asked);
    world.dismiss_tracers(rt);
    came
}

fn trace_all<R: Threads + Wait + Sync>(rt: &R, tracers: &mut Vec<Tracer>) {
    let threads = tracers.len();
    if threads > 0 {
        for_each_mut(
            rt,
            tracers.as_mut_slice(),
            threads,
            &|_, tracer: &mut Tracer| {
                tracer.run(rt);
            },
        );
    }
}

/// Runs the work beside the tracers. If no thread can be made for them, they come after the work, and read at once that
/// they are dismissed.
pub fn run_threads<R: Threads + Wait + Sync>(
    rt: &R,
    world: &mut World,
    workers: &mut Vec<Worker>,
    tracers: &mut Vec<Tracer>,
    asked: &Asked,
) -> Result<Alone, Halt>
    requires range { AreWordsInRange asked.now }
    requires some { (0 < vec_len workers.old) × (vec_len workers.old ≡ asked.now.workers) }
    requires waits { All (λ x. WorkerWaits x.mutator) workers.old.items }
    ensures waits { AllWait workers.new.items }
{
    let ((), came) = join_mut(
        rt,
        &mut || trace_all(rt, tracers),
        &mut || -> Result<Alone, Halt>
            requires { AreWordsInRange asked.now × (0 < vec_len workers.now) × (vec_len workers.now ≡ asked.now.workers) × All (λ x. WorkerWaits x.mutator) workers.now.items }
            ensures { AllWait workers.exit.now.items }
        { work_to_end(rt, world, workers, asked) },
    );
    came
}
