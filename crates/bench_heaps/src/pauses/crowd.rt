//! All threads of a run.

use crate::pauses::clock::{Log, nanos_since};
use crate::pauses::marking::Marker;
use crate::pauses::words::Asked;
use crate::pauses::workers::{Ledger, Part, Worker, orders_in};
use crate::seen::Seen;
use managed_heap::{Sizes, World};
use std::alloc::Global;
use std::rt::Clock;
use std::sync::Wait;
use std::thread::{Threads, for_each_mut, join_mut, sleep};
use std::time::{Duration, Instant};

/// The milliseconds of rest before a round, in which a system that keeps a share of each second for others takes it.
const REST: u64 = 100;

/// How many rounds there are at most.
const ROUNDS: u32 = 100_000;

/// What a run came to.
#[derive(Drop)]
pub struct Found {
    /// All as they ended.
    pub workers: Vec<Worker>,
    pub markers: Vec<Marker>,
    /// How many objects the tracers traced.
    pub traced: u64,
    /// The nanoseconds of all rounds of transactions.
    pub took: u64,
}

fn play_part<R: Threads + Wait + Sync + Clock>(
    rt: &R,
    alloc: Global,
    workers: &mut Vec<Worker>,
    part: Part,
) {
    let threads = workers.len();
    if threads > 0 {
        for_each_mut(
            rt,
            workers.as_mut_slice(),
            threads,
            &|_, worker: &mut Worker| worker.play(rt, alloc, part),
        );
    }
}

fn is_more(workers: &[Worker]) -> bool {
    workers
        .iter()
        .any(|worker| worker.ended.is_ok() && worker.ledger.is_open())
}

fn play_rounds<R: Threads + Wait + Sync + Clock>(
    rt: &R,
    alloc: Global,
    workers: &mut Vec<Worker>,
) -> u64 {
    let mut took = 0u64;
    for _ in 0..ROUNDS {
        if !is_more(workers.as_slice()) {
            break;
        }
        sleep(rt, Duration::from_millis(REST));
        let start = Instant::now(rt).ok();
        play_part(rt, alloc, workers, Part::Play);
        took = took.wrapping_add(nanos_since(rt, start).unwrap_or(0));
    }
    took
}

/// All parts: the nanoseconds of the rounds.
fn play_all<R: Threads + Wait + Sync + Clock>(
    rt: &R,
    alloc: Global,
    world: &mut World,
    workers: &mut Vec<Worker>,
) -> u64 {
    play_part(rt, alloc, workers, Part::Fill);
    play_part(rt, alloc, workers, Part::Settle);
    let took = play_rounds(rt, alloc, workers);
    play_part(rt, alloc, workers, Part::Look);
    world.dismiss_tracers(rt);
    took
}

fn hire_one(
    alloc: Global,
    world: &mut World,
    asked: Asked,
    k: u32,
    began: Option<Instant>,
) -> Option<Worker> {
    let live = u64::from(asked.cells).wrapping_mul(u64::from(asked.live)) / 100;
    let cells = live.checked_div(u64::from(asked.workers))?;
    let more = u32::from(k < asked.transactions.checked_rem(asked.workers)?);
    let transactions = asked.transactions.checked_div(asked.workers)?;
    let seed = 88_172_645_463_325_252u64.wrapping_add(u64::from(k));
    Some(Worker {
        mutator: world.mutator()?,
        orders: orders_in(u32::try_from(cells).unwrap_or(0)),
        ledger: Ledger::new(alloc, transactions.saturating_add(more), seed).ok()?,
        nodes: 0,
        log: Log::empty(alloc, began),
        seen: Seen::nothing(),
        ended: Ok(()),
    })
}

fn hire(
    alloc: Global,
    world: &mut World,
    asked: Asked,
    began: Option<Instant>,
) -> Option<Vec<Worker>> {
    let mut workers = Vec::new(alloc);
    for k in 0..asked.workers {
        let worker = hire_one(alloc, world, asked, k, began)?;
        workers.push(worker).ok()?;
    }
    Some(workers)
}

fn hire_tracers(
    alloc: Global,
    world: &mut World,
    tracers: u32,
    began: Option<Instant>,
) -> Option<Vec<Marker>> {
    let mut all = Vec::new(alloc);
    for _ in 0..tracers {
        let tracer = world.tracer()?;
        all.push(Marker::new(tracer, began, alloc)).ok()?;
    }
    Some(all)
}

fn trace_all<R: Threads + Wait + Sync + Clock>(rt: &R, tracers: &mut Vec<Marker>) {
    let threads = tracers.len();
    if threads > 0 {
        for_each_mut(
            rt,
            tracers.as_mut_slice(),
            threads,
            &|_, marker: &mut Marker| marker.run(rt),
        );
    }
}

fn gather(workers: Vec<Worker>, markers: Vec<Marker>, took: u64) -> Option<Found> {
    for worker in workers.iter() {
        worker.ended.ok()?;
    }
    let mut traced = 0u64;
    for marker in markers.iter() {
        traced = traced.wrapping_add(marker.tracer.traced());
    }
    Some(Found {
        workers,
        markers,
        traced,
        took,
    })
}

fn begin<R: Clock>(rt: &R, asked: Asked) -> Option<Instant> {
    if asked.timeline {
        Instant::now(rt).ok()
    } else {
        None
    }
}

/// What comes of a run. None if there is no memory, or a worker was refused.
pub fn run<R: Threads + Wait + Sync + Clock>(rt: &R, alloc: Global, asked: Asked) -> Option<Found> {
    let sizes = Sizes::of_cells(asked.cells)
        .fields(4)
        .mutators(asked.workers)
        .tracers(asked.tracers)
        .packets(asked.packets, asked.entries)
        .in_stops(asked.stops);
    let mut world = World::open(alloc, sizes).ok()?;
    let began = begin(rt, asked);
    let mut workers = hire(alloc, &mut world, asked, began)?;
    let mut tracers = hire_tracers(alloc, &mut world, asked.tracers, began)?;
    let mut took = 0u64;
    join_mut(
        rt,
        &mut || trace_all(rt, &mut tracers),
        &mut || {
            took = play_all(rt, alloc, &mut world, &mut workers);
        },
    );
    gather(workers, tracers, took)
}
