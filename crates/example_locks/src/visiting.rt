//! Two threads take a lock by turns, and change a pair while they have it.
ghost use Rattle.std.specs.Prelude.{◌+◌, IfOk, IfSome, false, if◌then◌else◌, true};
ghost use Rattle.std.specs.Bool.{OnTrue};
ghost use Rattle.std.specs.Thread.{IsSync};
ghost use Rattle.example_locks.specs.Guarding.{IsGuarded};
ghost use Rattle.example_locks.specs.Visits.{AddsSpares, AddsVisits, AddsWhole};

use crate::laws::guarded_open;
use crate::worlds::{SharedPair, close, open};
use heap_laws::{lock_by_log, pair_by_log};
use shared_heap::{Refused, SharedMutator, SharedSizes, Words, threads_run};
use std::io;
use std::rt::Runtime;
use std::sync::Wait;
use std::thread::{Threads, join_mut};

/// The variables: the root, the object that a visit puts into the pair, and two to look at the pair with.
const ROOT: u8 = 0;

const NEW: u8 = 1;

const LEFT: u8 = 2;

const RIGHT: u8 = 3;

/// How often each thread takes the lock.
const VISITS: u32 = 1000;

/// Tries to take the lock, and lets a collection go by: whether it was taken.
fn try_take<R: Wait>(rt: &R, m: &mut SharedMutator) -> Option<bool>
    ensures taken { IfSome result (λ had. AddsVisits false had (if had then 1 else 0) m.old m.new) }
{
    let Ok(had) = m.exchange_value(ROOT, 0, 1) else {
        return None;
    };
    match m.safe_point(rt) {
        Ok(()) => Some(had),
        Err(_) => None,
    }
}

/// Takes the lock as soon as nobody has it.
fn take<R: Wait>(rt: &R, m: &mut SharedMutator) -> bool
    ensures taken { OnTrue result (AddsVisits false true 1 m.old m.new) }
{
    let mut had = false;
    for _ in rt.forever() {
        if had {
            break;
        }
        match try_take(rt, m) {
            Some(won) => had = won,
            None => return false,
        }
    }
    true
}

/// Leaves the lock. False if it wasn't held.
fn leave(m: &mut SharedMutator) -> bool
    ensures left { OnTrue result (AddsVisits true false 1 m.old m.new) }
{
    match m.exchange_value(ROOT, 1, 0) {
        Ok(won) => won,
        Err(_) => false,
    }
}

/// Whether both of the pair are the same.
fn look(m: &mut SharedMutator) -> Result<bool, Refused>
    ensures spares { IfOk result (λ _. AddsSpares m.old m.new) }
{
    m.get(LEFT, ROOT, 0)?;
    m.get(RIGHT, ROOT, 1)?;
    m.same(LEFT, RIGHT)
}

/// Both of the pair become the new object.
fn change(m: &mut SharedMutator) -> Result<(), Refused>
    ensures changed { IfOk result (λ _. AddsVisits true true 0 m.old m.new) }
{
    m.set(ROOT, 0, NEW)?;
    m.set(ROOT, 1, NEW)
}

/// What is done while the thread has the lock: whether the pair was found whole.
fn act_inside(m: &mut SharedMutator) -> Result<bool, Refused>
    ensures changed { IfOk result (λ _. AddsVisits true true 0 m.old m.new) }
{
    let whole = look(m)?;
    change(m)?;
    Ok(whole)
}

/// One visit: whether the pair was found whole.
fn visit_once<R: Wait>(rt: &R, m: &mut SharedMutator) -> Option<bool>
    ensures visited { IfSome result (λ _. AddsVisits false false 2 m.old m.new) }
{
    if m.make(rt, NEW, 0).is_err() || !take(rt, m) {
        return None;
    }
    let Ok(whole) = act_inside(m) else {
        return None;
    };
    if !leave(m) {
        return None;
    }
    Some(whole)
}

/// So many visits: how many of them found the pair torn.
fn visit_often<R: Wait>(rt: &R, m: &mut SharedMutator, times: u32) -> Option<u32>
    ensures visited { IfSome result (λ _. AddsVisits false false (times + times) m.old m.new) }
{
    let mut done = 0u32;
    let mut torn = 0u32;
    for _ in rt.forever() {
        if done >= times {
            break;
        }
        let whole = visit_once(rt, m)?;
        torn = torn.saturating_add(u32::from(!whole));
        done += 1;
    }
    Some(torn)
}

/// One thread: how many of its visits found the pair torn.
fn act<R: Wait>(rt: &R, m: &mut SharedMutator, times: u32) -> Option<u32>
    ensures visited { IfSome result (λ _. AddsWhole (times + times) m.old m.new) }
{
    if m.enter(rt).is_err() || m.root(ROOT).is_err() {
        return None;
    }
    let torn = visit_often(rt, m, times)?;
    m.leave();
    Some(torn)
}

/// Both threads: how many visits found the pair torn.
fn play<R: Wait + Threads + Sync>(
    rt: &R,
    first: &mut SharedMutator,
    second: &mut SharedMutator,
    times: u32,
) -> Option<u32>
    ensures first { IfSome result (λ _. AddsWhole (times + times) first.old first.new) }
    ensures second { IfSome result (λ _. AddsWhole (times + times) second.old second.new) }
{
    let (one, two) = join_mut(
        rt,
        &mut || -> Option<u32>
            requires { IsSync R.row }
            ensures { IfSome result (λ _. AddsWhole (times + times) first.entry.now first.exit.now) }
        { act(rt, first, times) },
        &mut || -> Option<u32>
            requires { IsSync R.row }
            ensures { IfSome result (λ _. AddsWhole (times + times) second.entry.now second.exit.now) }
        { act(rt, second, times) },
    );
    match (one, two) {
        (Some(a), Some(b)) => Some(a.saturating_add(b)),
        _ => None,
    }
}

/// How many visits found the pair torn, and the words of the closed world.
#[derive(Drop)]
pub struct Visited {
    pub torn: u32,
    pub words: Words,
}

/// Whatever the schedule, at no moment did both threads have the lock, and each had it so many times; and who came in
/// found the pair whole. None if a call was refused or there is no memory.
fn visit<R: Wait + Threads + AllocGlobal + Sync>(rt: &R, times: u32) -> Option<Visited>
    ensures guarded { IfSome result (λ v. IsGuarded times v.words) }
{
    let SharedPair {
        world,
        mut first,
        mut second,
    } = open(rt.alloc(), SharedSizes::of_cells(64).mutators(2))?;
    // While they act this is so of what they have done so far.
    guarded_open();
    let torn = play(rt, &mut first, &mut second, times)?;
    threads_run();
    lock_by_log();
    pair_by_log();
    let words = close(rt.alloc(), world, first, second)?;
    Some(Visited { torn, words })
}

/// Whether both fields of the root refer to one object.
fn is_whole(words: &Words) -> bool {
    let root = match words.roots.first() {
        Some(word) => *word as usize,
        None => return false,
    };
    let first = root.saturating_sub(1).saturating_mul(2);
    match (
        words.fields.get(first),
        words.fields.get(first.saturating_add(1)),
    ) {
        (Some(left), Some(right)) => root > 0 && *left > 0 && *left == *right,
        _ => false,
    }
}

/// Lets two threads change the pair, and tells how often it was found torn, and whether it is whole in the end.
pub fn tell<R: Runtime + Wait + Threads + AllocGlobal + Sync>(rt: &R) -> io::Result<()> {
    match visit(rt, VISITS) {
        Some(visited) => println!(rt;
            "pair: found torn {} times, whole in the end {}",
            visited.torn,
            is_whole(&visited.words)
        ),
        None => println!(rt; "pair: stopped"),
    }
}
