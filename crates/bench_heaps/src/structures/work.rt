//! With a queue a thread puts a number in and takes one out, by turns; with a map, of ten keys it looks eight up, puts
//! a new number under one, and takes one out.

use crate::seen::Seen;
use crate::structures::Asked;
use crate::structures::crowd::{FOUND, MADE};
use example_structures::{SharedMap, SharedQueue};
use shared_heap::{Refused, SharedMutator};
use std::sync::Wait;

/// A thread's keys are its own, so what it finds doesn't depend on the others; the chains have keys of all threads.
const KEYS: u32 = 1024;

/// Makes a map that keeps each key as its own number.
pub fn fill<R: Wait>(rt: &R, m: &mut SharedMutator, map: SharedMap) -> Result<(), Refused> {
    map.make(rt, m)?;
    for key in 0..KEYS {
        m.make(rt, MADE, key)?;
        map.put(rt, m, key, MADE)?;
    }
    m.forget(MADE)
}

fn drawn_after(number: u32) -> u32 {
    number.wrapping_mul(1_664_525).wrapping_add(1_013_904_223)
}

fn key_of(drawn: u32, asked: Asked, k: u32) -> u32 {
    let threads = asked.workers.max(1);
    let keys = (KEYS / threads).max(1);
    ((drawn >> 12) % keys).wrapping_mul(threads).wrapping_add(k)
}

fn act<R: Wait>(
    rt: &R,
    m: &mut SharedMutator,
    map: SharedMap,
    drawn: u32,
    key: u32,
    seen: Seen,
) -> Result<Seen, Refused> {
    match (drawn >> 4) % 10 {
        0 => {
            m.make(rt, MADE, drawn)?;
            map.put(rt, m, key, MADE)?;
        }
        1 => {
            map.take(rt, m, key, FOUND)?;
        }
        _ => {
            if map.find(rt, m, key, FOUND)? {
                return Ok(seen.object(m.value(FOUND)?));
            }
        }
    }
    Ok(seen)
}

/// The rounds of thread k.
pub fn mix<R: Wait>(
    rt: &R,
    m: &mut SharedMutator,
    map: SharedMap,
    asked: Asked,
    k: u32,
) -> Result<Seen, Refused> {
    let mut drawn = k;
    let mut seen = Seen::nothing();
    for _ in 0..asked.rounds {
        drawn = drawn_after(drawn);
        seen = act(rt, m, map, drawn, key_of(drawn, asked, k), seen)?;
    }
    Ok(seen)
}

/// There is a number to take out each time: no thread has taken more than it put in.
pub fn pairs<R: Wait>(
    rt: &R,
    m: &mut SharedMutator,
    queue: SharedQueue,
    rounds: u32,
) -> Result<Seen, Refused> {
    let mut seen = Seen::nothing();
    for n in 0..rounds {
        queue.put(rt, m, MADE, n)?;
        if let Some(number) = queue.take(rt, m, FOUND)? {
            seen = seen.object(number);
        }
    }
    Ok(seen)
}
