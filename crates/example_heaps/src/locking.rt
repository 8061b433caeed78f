//! A lock, the value of the root, which two threads take by turns to flip a field.
ghost use Rattle.std.specs.Prelude.{◌+◌, IfOk, IfSome, false, if◌then◌else◌, true};
ghost use Rattle.std.specs.Bool.{OnTrue};
ghost use Rattle.std.specs.Thread.{IsSync};
ghost use Rattle.shared_heap.specs.Logs.{AddsLocks, AddsQuiet};
ghost use Rattle.example_heaps.specs.Locking.{IsAlone};

use crate::worlds::{SharedPair, close_shared, open_shared};
use shared_heap::{Refused, SharedMutator, SharedSizes, Words, lock_closed, threads_run};
use std::io;
use std::rt::Runtime;
use std::sync::Wait;
use std::thread::{Threads, join_mut};

/// The variables: the root, one to look with, and one that refers to nothing.
const ROOT: u8 = 0;

const FOUND: u8 = 1;

const NONE: u8 = 2;

/// How often each thread takes the lock.
const VISITS: u32 = 1000;

/// Tries to take the lock, and lets a collection go by: whether it was taken.
fn try_take<R: Wait>(rt: &R, m: &mut SharedMutator) -> Option<bool>
    ensures taken { IfSome result (λ had. AddsLocks false had (if had then 1 else 0) m.old m.new) }
{
    let Ok(had) = m.exchange_value(ROOT, 0, 1) else {
        return None;
    };
    match m.safe_point(rt) {
        Ok(()) => Some(had),
        Err(_) => None,
    }
}

/// Takes the lock as soon as nobody has it.
fn take<R: Wait>(rt: &R, m: &mut SharedMutator) -> bool
    ensures taken { OnTrue result (AddsLocks false true 1 m.old m.new) }
{
    let mut had = false;
    for _ in rt.forever() {
        if had {
            break;
        }
        match try_take(rt, m) {
            Some(won) => had = won,
            None => return false,
        }
    }
    true
}

/// Leaves the lock. False if it wasn't held.
fn leave(m: &mut SharedMutator) -> bool
    ensures left { OnTrue result (AddsLocks true false 1 m.old m.new) }
{
    match m.exchange_value(ROOT, 1, 0) {
        Ok(won) => won,
        Err(_) => false,
    }
}

/// Flips the root's field 0 between nothing and the root, by a look and a store between which nobody is to come.
fn flip(m: &mut SharedMutator) -> Result<(), Refused>
    ensures quiet { IfOk result (λ _. AddsQuiet m.old m.new) }
{
    m.get(FOUND, ROOT, 0)?;
    let next = if m.is_nil(FOUND)? { ROOT } else { NONE };
    m.set(ROOT, 0, next)
}

fn visit_once<R: Wait>(rt: &R, m: &mut SharedMutator) -> bool
    ensures visited { OnTrue result (AddsLocks false false 2 m.old m.new) }
{
    if !take(rt, m) {
        return false;
    }
    match flip(m) {
        Ok(()) => leave(m),
        Err(_) => false,
    }
}

fn visit_often<R: Wait>(rt: &R, m: &mut SharedMutator, times: u32) -> bool
    ensures visited { OnTrue result (AddsLocks false false (times + times) m.old m.new) }
{
    let mut done = 0u32;
    for _ in rt.forever() {
        if done >= times {
            break;
        }
        if !visit_once(rt, m) {
            return false;
        }
        done += 1;
    }
    true
}

fn act<R: Wait>(rt: &R, m: &mut SharedMutator, times: u32) -> bool
    ensures visited { OnTrue result (AddsLocks false false (times + times) m.old m.new) }
{
    if m.enter(rt).is_err() || m.root(ROOT).is_err() || !visit_often(rt, m, times) {
        return false;
    }
    m.leave();
    true
}

fn play<R: Wait + Threads + Sync>(
    rt: &R,
    first: &mut SharedMutator,
    second: &mut SharedMutator,
    times: u32,
) -> bool
    ensures first { OnTrue result (AddsLocks false false (times + times) first.old first.new) }
    ensures second { OnTrue result (AddsLocks false false (times + times) second.old second.new) }
{
    let (one, two) = join_mut(
        rt,
        &mut || -> bool
            requires { IsSync R.row }
            ensures { OnTrue result (AddsLocks false false (times + times) first.entry.now first.exit.now) }
        { act(rt, first, times) },
        &mut || -> bool
            requires { IsSync R.row }
            ensures { OnTrue result (AddsLocks false false (times + times) second.entry.now second.exit.now) }
        { act(rt, second, times) },
    );
    one && two
}

/// Whatever the schedule, at no moment did both threads have the lock, and each had it so many times. None if a call
/// was refused or there is no memory.
fn visit<R: Wait + Threads + AllocGlobal + Sync>(rt: &R, times: u32) -> Option<Words>
    ensures alone { IfSome result (IsAlone times) }
{
    let SharedPair {
        world,
        mut first,
        mut second,
    } = open_shared(rt.alloc(), SharedSizes::of_cells(64).mutators(2))?;
    if !play(rt, &mut first, &mut second, times) {
        return None;
    }
    threads_run();
    lock_closed();
    close_shared(rt.alloc(), world, first, second)
}

fn is_even(words: &Words) -> bool {
    let root = match words.roots.first() {
        Some(word) => *word as usize,
        None => return false,
    };
    match words.fields.get(root.saturating_sub(1).saturating_mul(2)) {
        Some(field) => root > 0 && *field == 0,
        None => false,
    }
}

/// Lets two threads take a lock, and tells whether they flipped the field an even number of times.
pub fn tell<R: Runtime + Wait + Threads + AllocGlobal + Sync>(rt: &R) -> io::Result<()> {
    match visit(rt, VISITS) {
        Some(words) => println!(rt;
            "lock: left, field flipped an even number of times {}",
            is_even(&words)
        ),
        None => println!(rt; "lock: stopped"),
    }
}
