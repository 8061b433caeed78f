//! A hash table with chains for each of two threads, in one heap: it grows, is asked and is emptied again and again.

mod table;

use crate::worlds::{Pair, open};
use managed_heap::{Mutator, Refused, Sizes, World};
use std::io;
use std::rt::Runtime;
use std::sync::Wait;
use std::thread::{Threads, join_mut};
use table::{find, grow, insert, make, remove};

const KEYS: u32 = 200;

/// How often a table is filled and emptied.
const ROUNDS: u32 = 40;

#[derive(Clone, Copy, Drop)]
struct Tally {
    /// Keys found.
    found: u64,
    /// The sum of what was kept under them.
    sum: u64,
    /// Keys found after every other one was taken out.
    left: u64,
}

fn count(m: &mut Mutator, tally: &mut Tally) -> Result<u64, Refused> {
    let mut found = 0u64;
    for key in 0..KEYS {
        if let Some(kept) = find(m, 16, key)? {
            found = found.wrapping_add(1);
            tally.sum = tally.sum.wrapping_add(u64::from(kept));
        }
    }
    Ok(found)
}

/// Fills a table, which grows on the way, counts what is in it, and takes every other key out.
fn round<R: Wait>(m: &mut Mutator, rt: &R, tally: &mut Tally) -> Result<(), Refused> {
    make(m, rt, 1)?;
    for key in 0..KEYS / 2 {
        insert(m, rt, 1, key, 3 * key)?;
    }
    grow(m, rt)?;
    for key in KEYS / 2..KEYS {
        insert(m, rt, 16, key, 3 * key)?;
    }
    let found = count(m, tally)?;
    tally.found = tally.found.wrapping_add(found);
    for half in 0..KEYS / 2 {
        remove(m, 16, 2 * half)?;
    }
    m.safe_point(rt)?;
    let mut rest = *tally;
    let left = count(m, &mut rest)?;
    tally.left = tally.left.wrapping_add(left);
    Ok(())
}

fn play<R: Wait>(rt: &R, m: &mut Mutator) -> Result<Tally, Refused> {
    let mut tally = Tally {
        found: 0,
        sum: 0,
        left: 0,
    };
    m.enter(rt)?;
    for _ in 0..ROUNDS {
        round(m, rt, &mut tally)?;
    }
    m.leave();
    Ok(tally)
}

/// What both threads found, if each came to its end.
fn play_both<R: Threads + Wait + Sync>(
    rt: &R,
    world: &mut World,
    first: &mut Mutator,
    second: &mut Mutator,
) -> Option<Tally> {
    let (one, two) = join_mut(rt, &mut || play(rt, first), &mut || play(rt, second));
    world.dismiss_tracers(rt);
    let (one, two) = (one.ok()?, two.ok()?);
    Some(Tally {
        found: one.found.wrapping_add(two.found),
        sum: one.sum.wrapping_add(two.sum),
        left: one.left.wrapping_add(two.left),
    })
}

/// None if there is no memory, or a mutator or the tracer could not be given back.
fn run<R: Threads + Wait + AllocGlobal + Sync>(rt: &R) -> Option<Tally> {
    let sizes = Sizes::of_cells(2048).fields(16).mutators(2).tracers(1);
    let Pair {
        mut world,
        mut first,
        mut second,
    } = open(rt.alloc(), sizes)?;
    let mut tracer = world.tracer()?;
    let (_, tally) = join_mut(
        rt,
        &mut || {
            tracer.run(rt);
        },
        &mut || play_both(rt, &mut world, &mut first, &mut second),
    );
    world.take_mutator(first).ok()?;
    world.take_mutator(second).ok()?;
    world.take_tracer(tracer).ok()?;
    world.close().ok()?;
    tally
}

/// Lets two threads fill and empty their tables, and tells what they found.
pub fn tell<R: Runtime + Wait + Threads + AllocGlobal + Sync>(rt: &R) -> io::Result<()> {
    match run(rt) {
        Some(tally) => println!(rt;
            "hash table: found {} sum {} left {}",
            tally.found, tally.sum, tally.left
        ),
        None => println!(rt; "hash table: stopped"),
    }
}
