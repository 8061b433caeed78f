//! A counter, the value of the root, which two threads raise together.
ghost use Rattle.std.specs.Prelude.{◌≡◌, ◌+◌, ◌≤◌, IfNone, IfSome, if◌then◌else◌};
ghost use Rattle.std.specs.Bool.{OnTrue};
ghost use Rattle.std.specs.Thread.{IsSync};
ghost use Rattle.shared_heap.specs.Logs.{AddsQuiet, AddsRaises};

use crate::worlds::{SharedPair, close_shared, open_shared};
use shared_heap::{SharedMutator, SharedSizes, counter_read, root_value};
use std::io;
use std::rt::Runtime;
use std::sync::Wait;
use std::thread::{Threads, join_mut};

/// The variable that refers to the root.
const ROOT: u8 = 0;

/// How often each thread raises the counter.
const TIMES: u32 = 2000;

/// Raises the counter by one, if it is still what it was read to be. None if a call was refused, or 32 bits are too
/// few.
fn raise_once(m: &mut SharedMutator) -> Option<bool>
    ensures raised { IfSome result (λ won. AddsRaises (if won then 1 else 0) m.old m.new) }
    ensures stopped { IfNone result (AddsQuiet m.old m.new) }
{
    let Ok(found) = m.value(ROOT) else {
        return None;
    };
    let Ok(expected) = u32::try_from(found) else {
        return None;
    };
    let Some(next) = expected.checked_add(1) else {
        return None;
    };
    match m.exchange_value(ROOT, expected, next) {
        Ok(won) => Some(won),
        Err(_) => None,
    }
}

fn round<R: Wait>(rt: &R, m: &mut SharedMutator) -> Option<u32>
    ensures raised { IfSome result (λ n. (n ≤ 1) × AddsRaises n m.old m.new) }
{
    let won = raise_once(m)?;
    match m.safe_point(rt) {
        Ok(()) => Some(u32::from(won)),
        Err(_) => None,
    }
}

/// Raises the counter so many times.
fn raise<R: Wait>(rt: &R, m: &mut SharedMutator, times: u32) -> bool
    ensures raised { OnTrue result (AddsRaises times m.old m.new) }
{
    let mut won = 0u32;
    for _ in rt.forever() {
        if won >= times {
            break;
        }
        match round(rt, m) {
            Some(more) => won += more,
            None => return false,
        }
    }
    true
}

fn act<R: Wait>(rt: &R, m: &mut SharedMutator, times: u32) -> bool
    ensures raised { OnTrue result (AddsRaises times m.old m.new) }
{
    if m.enter(rt).is_err() || m.root(ROOT).is_err() || !raise(rt, m, times) {
        return false;
    }
    m.leave();
    true
}

fn play<R: Wait + Threads + Sync>(
    rt: &R,
    first: &mut SharedMutator,
    second: &mut SharedMutator,
    times: u32,
) -> bool
    ensures first { OnTrue result (AddsRaises times first.old first.new) }
    ensures second { OnTrue result (AddsRaises times second.old second.new) }
{
    let (one, two) = join_mut(
        rt,
        &mut || -> bool
            requires { IsSync R.row }
            ensures { OnTrue result (AddsRaises times first.entry.now first.exit.now) }
        { act(rt, first, times) },
        &mut || -> bool
            requires { IsSync R.row }
            ensures { OnTrue result (AddsRaises times second.entry.now second.exit.now) }
        { act(rt, second, times) },
    );
    one && two
}

/// The closed world's words have twice as many, whatever the schedule. None if a call was refused or there is no
/// memory.
fn count<R: Wait + Threads + AllocGlobal + Sync>(rt: &R, times: u32) -> Option<u64>
    ensures counted { IfSome result (λ n. n ≡ times + times) }
{
    let SharedPair {
        world,
        mut first,
        mut second,
    } = open_shared(rt.alloc(), SharedSizes::of_cells(64).mutators(2))?;
    if !play(rt, &mut first, &mut second, times) {
        return None;
    }
    counter_read();
    let words = close_shared(rt.alloc(), world, first, second)?;
    root_value(&words)
}

/// Lets two threads raise a counter, and tells its value.
pub fn tell<R: Runtime + Wait + Threads + AllocGlobal + Sync>(rt: &R) -> io::Result<()> {
    match count(rt, TIMES) {
        Some(value) => println!(rt; "counter: {value}"),
        None => println!(rt; "counter: stopped"),
    }
}
