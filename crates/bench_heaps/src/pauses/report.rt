//! What is told of a run.

use crate::pauses::clock::Tally;
use crate::pauses::crowd::Found;
use crate::pauses::timeline::Timeline;
use crate::pauses::words::Asked;
use crate::seen::Seen;
use std::io;
use std::rt::Runtime;

#[derive(Clone, Copy, Drop)]
struct Sums {
    orders: u64,
    objects: u64,
    seen: Seen,
    tally: Tally,
}

fn summed(found: &Found) -> Sums {
    let mut all = Sums {
        orders: 0,
        objects: 0,
        seen: Seen::nothing(),
        tally: Tally::nothing(),
    };
    for worker in found.workers.iter() {
        all.orders = all.orders.wrapping_add(u64::from(worker.orders));
        all.objects = all.objects.wrapping_add(worker.nodes);
        all.seen = all.seen.and(worker.seen);
        all.tally = all.tally.and(worker.log.tally);
    }
    all.objects = all.objects.wrapping_add(all.orders.wrapping_mul(16));
    all
}

/// The nanoseconds of all stops, or of all transactions, in order.
fn sorted<R: AllocGlobal>(rt: &R, found: &Found, stops: bool) -> Vec<u64> {
    let mut all = Vec::new(rt.alloc());
    for worker in found.workers.iter() {
        let times = if stops {
            &worker.log.lengths
        } else {
            &worker.ledger.times
        };
        for took in times.iter() {
            // A time that finds no memory isn't told.
            let _kept = all.push(*took);
        }
    }
    all.as_mut_slice().sort_unstable();
    all
}

fn ratio(number: u64, by: u64) -> u64 {
    number.checked_div(by).unwrap_or(0)
}

/// What so many of 10,000 times don't exceed; 0 if there is none.
fn at_part(times: &[u64], part: usize) -> u64 {
    let last = times.len().saturating_sub(1);
    let at = (times.len().wrapping_mul(part) / 10_000).min(last);
    match times.get(at) {
        Some(took) => *took,
        None => 0,
    }
}

fn mean(times: &[u64]) -> u64 {
    let mut sum = 0u64;
    for took in times.iter() {
        sum = sum.wrapping_add(*took);
    }
    ratio(sum, times.len() as u64)
}

fn tell_counts<R: Runtime>(rt: &R, asked: Asked, all: &Sums) -> io::Result<()> {
    println!(rt; "transactions {}", asked.transactions)?;
    println!(rt; "orders {} objects {}", all.orders, all.objects)?;
    println!(rt; "seen {} sum {}", all.seen.objects, all.seen.sum)
}

fn tell_times<R: Runtime>(rt: &R, asked: Asked, found: &Found, lengths: &[u64]) -> io::Result<()> {
    let micros = found.took / 1000;
    let rate = ratio(
        u64::from(asked.transactions).wrapping_mul(1_000_000),
        micros,
    );
    println!(rt; "microseconds {} rate {}", micros, rate)?;
    println!(rt;
        "stops {} least {} mean {} median {} most99 {} longest {}",
        lengths.len(),
        at_part(lengths, 0) / 1000,
        mean(lengths) / 1000,
        at_part(lengths, 5_000) / 1000,
        at_part(lengths, 9_900) / 1000,
        at_part(lengths, 10_000) / 1000
    )
}

fn tell_latencies<R: Runtime>(rt: &R, times: &[u64]) -> io::Result<()> {
    println!(rt;
        "latency p50 {} p99 {} p999 {} slowest {}",
        at_part(times, 5_000),
        at_part(times, 9_900),
        at_part(times, 9_990),
        at_part(times, 10_000)
    )
}

fn tell_work<R: Runtime>(rt: &R, found: &Found, all: &Sums) -> io::Result<()> {
    let objects = all.objects;
    let all = all.tally;
    let beside = all.traced.wrapping_add(found.traced);
    let marked = ratio(all.marked, all.cycles);
    println!(rt; "cycles {} collections {}", all.cycles, all.collections)?;
    println!(rt;
        "traced mutators {} tracers {} left {} rescanned {}",
        all.traced,
        found.traced,
        all.marked.saturating_sub(beside),
        all.rescanned
    )?;
    println!(rt;
        "in use after a cycle {} after a collection {} floated {}",
        marked,
        ratio(all.exact, all.collections),
        marked.saturating_sub(objects)
    )
}

fn tell_line<R: Runtime>(rt: &R, name: &str, number: usize, line: &Timeline) -> io::Result<()> {
    for it in line.noted.iter() {
        println!(rt;
            "{} {} {} {} {}",
            name,
            number,
            it.doing.word(),
            it.from,
            it.to
        )?;
    }
    Ok(())
}

fn tell_lines<R: Runtime>(rt: &R, found: &Found) -> io::Result<()> {
    for (k, worker) in found.workers.iter().enumerate() {
        tell_line(rt, "worker", k, &worker.log.line)?;
    }
    for (k, marker) in found.markers.iter().enumerate() {
        tell_line(rt, "tracer", k, &marker.line)?;
    }
    Ok(())
}

/// Tells what a run came to.
pub fn tell<R: Runtime + AllocGlobal>(rt: &R, asked: Asked, found: &Found) -> io::Result<()> {
    let all = summed(found);
    tell_counts(rt, asked, &all)?;
    if asked.counts_alone {
        return Ok(());
    }
    tell_times(rt, asked, found, sorted(rt, found, true).as_slice())?;
    tell_latencies(rt, sorted(rt, found, false).as_slice())?;
    tell_work(rt, found, &all)?;
    tell_lines(rt, found)
}
