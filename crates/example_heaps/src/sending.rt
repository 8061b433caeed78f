//! Two threads pass lists to each other through the root's fields.

use crate::worlds::{SharedPair, open_shared};
use shared_heap::{Refused, SharedMutator, SharedSizes};
use std::io;
use std::rt::Runtime;
use std::sync::Wait;
use std::thread::{Threads, join_mut};

/// The variables: the root, and four to work with.
const ROOT: u8 = 0;

const MADE: u8 = 1;

const FOUND: u8 = 2;

const NEXT: u8 = 3;

const NONE: u8 = 4;

/// How many lists each thread sends.
const COUNT: u32 = 2000;

/// Sends a list of three objects through field `out` of the root, once the last one was taken.
fn send<R: Wait>(rt: &R, m: &mut SharedMutator, out: u8, n: u32) -> Result<(), Refused> {
    for _ in rt.forever() {
        m.get(FOUND, ROOT, out)?;
        if m.is_nil(FOUND)? {
            break;
        }
        m.safe_point(rt)?;
        std::thread::yield_now();
    }
    m.forget(NEXT)?;
    for k in 0..3 {
        m.make(rt, MADE, n.wrapping_add(2 - k))?;
        m.set(MADE, 1, NEXT)?;
        m.copy(NEXT, MADE)?;
    }
    m.set(ROOT, out, MADE)?;
    m.forget(MADE)?;
    m.forget(NEXT)
}

/// Takes a list from a field of the root, as soon as there is one: the sum of its values.
fn receive<R: Wait>(rt: &R, m: &mut SharedMutator, from: u8) -> Result<u64, Refused> {
    m.forget(NONE)?;
    for _ in rt.forever() {
        m.get(FOUND, ROOT, from)?;
        if !m.is_nil(FOUND)? {
            break;
        }
        m.safe_point(rt)?;
        std::thread::yield_now();
    }
    m.set(ROOT, from, NONE)?;
    let mut sum = 0u64;
    for _ in 0..3 {
        sum = sum.wrapping_add(m.value(FOUND)?);
        m.get(FOUND, FOUND, 1)?;
    }
    Ok(sum)
}

/// Sends and receives by turns: the sum of all that came.
fn act<R: Wait>(rt: &R, m: &mut SharedMutator, out: u8, from: u8) -> Result<u64, Refused> {
    m.enter(rt)?;
    m.root(ROOT)?;
    let mut sum = 0u64;
    for n in 0..COUNT {
        send(rt, m, out, n)?;
        sum = sum.wrapping_add(receive(rt, m, from)?);
    }
    m.leave();
    Ok(sum)
}

/// None if a call was refused or there is no memory.
fn play<R: Wait + Threads + AllocGlobal + Sync>(rt: &R) -> Option<(u64, u64)> {
    let SharedPair {
        world: _world,
        mut first,
        mut second,
    } = open_shared(rt.alloc(), SharedSizes::of_cells(128).mutators(2))?;
    let (one, two) = join_mut(
        rt,
        &mut || act(rt, &mut first, 0, 1),
        &mut || act(rt, &mut second, 1, 0),
    );
    Some((one.ok()?, two.ok()?))
}

/// Lets two threads pass lists to each other, and tells the sums of the values that came.
pub fn tell<R: Runtime + Wait + Threads + AllocGlobal + Sync>(rt: &R) -> io::Result<()> {
    match play(rt) {
        Some((first, second)) => println!(rt; "sending: sums {first} {second}"),
        None => println!(rt; "sending: stopped"),
    }
}
