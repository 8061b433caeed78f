//! Three threads fill, change and empty one map. Each has keys of its own, in chains with those of the others; under
//! common keys all count.

use super::crew::{FOUND, MADE, ROOT, SHARED, Tally, Worker, come, gather, hire, trace};
use example_structures::SharedMap;
use shared_heap::{Refused, SharedMutator, SharedSizes, SharedWorld};
use std::alloc::Global;
use std::sync::Wait;
use std::thread::{Threads, for_each_mut, join_mut};

const THREADS: u32 = 3;

const OWN: u32 = 12;

/// The first of the keys in common.
const COMMON: u32 = 1_000;

const COUNTERS: u32 = 3;

const ROUNDS: u32 = 4_000;

fn make_map<R: Wait>(rt: &R, m: &mut SharedMutator, map: SharedMap) -> Result<(), Refused> {
    m.enter(rt)?;
    m.root(ROOT)?;
    map.make(rt, m)?;
    m.set(ROOT, 0, SHARED)?;
    m.leave();
    Ok(())
}

fn key_of(k: u32, n: u32) -> u32 {
    n.wrapping_mul(THREADS).wrapping_add(k)
}

fn number_of(key: u32, round: u32) -> u32 {
    key.wrapping_mul(10_000).wrapping_add(round)
}

/// Whether what was there before is as expected.
fn fills<R: Wait>(
    rt: &R,
    m: &mut SharedMutator,
    map: SharedMap,
    key: u32,
    number: u32,
    was: bool,
) -> Result<bool, Refused> {
    m.make(rt, MADE, number)?;
    Ok(map.put(rt, m, key, MADE)? == was)
}

fn finds<R: Wait>(
    rt: &R,
    m: &mut SharedMutator,
    map: SharedMap,
    key: u32,
    number: u32,
) -> Result<bool, Refused> {
    let found = map.find(rt, m, key, FOUND)?;
    Ok(found && m.value(FOUND)? == u64::from(number))
}

/// An exchange for the next number is won, as nobody else changes the key, and isn't won again.
fn exchanges<R: Wait>(
    rt: &R,
    m: &mut SharedMutator,
    map: SharedMap,
    key: u32,
    number: u32,
) -> Result<bool, Refused> {
    m.make(rt, MADE, number)?;
    let was = map.find(rt, m, key, FOUND)?;
    let first = map.exchange(rt, m, key, FOUND, MADE)?;
    let second = map.exchange(rt, m, key, FOUND, MADE)?;
    Ok(was && first && !second)
}

/// The number is taken out, and nothing a second time.
fn takes<R: Wait>(
    rt: &R,
    m: &mut SharedMutator,
    map: SharedMap,
    key: u32,
    number: u32,
) -> Result<bool, Refused> {
    let first = map.take(rt, m, key, FOUND)? && m.value(FOUND)? == u64::from(number);
    let second = map.take(rt, m, key, FOUND)?;
    Ok(first && !second)
}

/// Raises the number under a common key, which begins with 1.
fn raises<R: Wait>(rt: &R, m: &mut SharedMutator, map: SharedMap, key: u32) -> Result<(), Refused> {
    for _ in rt.forever() {
        let was = map.find(rt, m, key, FOUND)?;
        let number = if was { m.value(FOUND)? } else { 0 };
        let next = u32::try_from(number).unwrap_or(0).wrapping_add(1);
        m.make(rt, MADE, next)?;
        if map.exchange(rt, m, key, FOUND, MADE)? {
            break;
        }
    }
    Ok(())
}

fn fills_and_changes<R: Wait>(
    rt: &R,
    m: &mut SharedMutator,
    map: SharedMap,
    key: u32,
    round: u32,
    tally: &mut Tally,
) -> Result<(), Refused> {
    let number = number_of(key, round);
    let stays = key % 2 == 0 && round > 0;
    tally.expect(fills(rt, m, map, key, number, stays)?);
    tally.expect(finds(rt, m, map, key, number)?);
    tally.expect(exchanges(rt, m, map, key, number.wrapping_add(1))?);
    Ok(())
}

/// Thread k fills and changes all its keys, raises the common ones, and takes its odd keys out.
fn plays_round<R: Wait>(
    rt: &R,
    m: &mut SharedMutator,
    map: SharedMap,
    k: u32,
    round: u32,
    tally: &mut Tally,
) -> Result<(), Refused> {
    for n in 0..OWN {
        fills_and_changes(rt, m, map, key_of(k, n), round, tally)?;
    }
    for at in 0..COUNTERS {
        raises(rt, m, map, COMMON.wrapping_add(at))?;
    }
    for n in 0..OWN {
        let key = key_of(k, n);
        if key % 2 == 1 {
            let number = number_of(key, round).wrapping_add(1);
            tally.expect(takes(rt, m, map, key, number)?);
        }
    }
    Ok(())
}

fn plays<R: Wait>(
    rt: &R,
    m: &mut SharedMutator,
    map: SharedMap,
    k: u32,
    tally: &mut Tally,
) -> Result<(), Refused> {
    come(rt, m)?;
    for round in 0..ROUNDS {
        plays_round(rt, m, map, k, round, tally)?;
    }
    Ok(())
}

/// Counts what is kept under the keys from one number up to another.
fn counts<R: Wait>(
    rt: &R,
    m: &mut SharedMutator,
    map: SharedMap,
    from: u32,
    to: u32,
) -> Result<Tally, Refused> {
    let mut tally = Tally::new();
    come(rt, m)?;
    for key in from..to {
        if map.find(rt, m, key, FOUND)? {
            tally.count(m.value(FOUND)?);
        }
    }
    m.leave();
    Ok(tally)
}

#[derive(PartialEq, Drop)]
struct Left {
    came: Tally,
    own: Tally,
    common: Tally,
}

fn play_all<R: Threads + Wait + Sync>(
    rt: &R,
    world: &mut SharedWorld,
    workers: &mut Vec<Worker>,
    map: SharedMap,
) {
    let threads = workers.len();
    if threads > 0 {
        for_each_mut(
            rt,
            workers.as_mut_slice(),
            threads,
            &|_, worker: &mut Worker| {
                let m = &mut worker.mutator;
                let ended = plays(rt, m, map, worker.thread, &mut worker.tally);
                worker.end(ended.is_ok());
            },
        );
    }
    world.dismiss_tracers(rt);
}

/// What they leave in a map, and how many objects they made.
fn leaves<R: Threads + Wait + Sync>(rt: &R, alloc: Global, cells: u32) -> Option<(Left, u64)> {
    let sizes = SharedSizes::of_cells(cells)
        .fields(4)
        .mutators(4)
        .tracers(1);
    let mut world = SharedWorld::open(alloc, sizes).ok()?;
    let map = SharedMap::at(SHARED, 1, 4)?;
    let mut maker = world.mutator()?;
    make_map(rt, &mut maker, map).ok()?;
    let mut workers = hire(alloc, &mut world, THREADS)?;
    let mut tracer = world.tracer()?;
    join_mut(
        rt,
        &mut || trace(rt, &mut tracer),
        &mut || play_all(rt, &mut world, &mut workers, map),
    );
    let (came, objects) = gather(rt, &mut workers);
    let own = counts(rt, &mut maker, map, 0, COMMON).ok()?;
    let last = COMMON.wrapping_add(COUNTERS);
    let common = counts(rt, &mut maker, map, COMMON, last).ok()?;
    Some((Left { came, own, common }, objects))
}

#[test]
fn threads_fill_change_and_empty_one_map(rt: HostRuntime) {
    let Some((left, objects)) = leaves(&rt, rt.alloc(), 320) else {
        panic!(&rt; "refused")
    };
    let wanted = Left {
        came: Tally::new(),
        own: Tally {
            count: 18,
            sum: 3_132_000,
            wrong: 0,
        },
        common: Tally {
            count: 3,
            sum: 36_000,
            wrong: 0,
        },
    };
    assert!(&rt; left == wanted);
    // A round makes at least 54 objects, four for each own key and two for each common one. A cell is used again only
    // once a collection has freed it, so there were at least 648,000 / 320 - 1 = 2,024 collections.
    assert!(&rt; objects >= 648_000);
}
