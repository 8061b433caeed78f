//! A thread that rests is woken as a cycle begins.
ghost use Rattle.test_heaps.specs.Seats.{HasEachObject};

use super::LARGE;
use super::collecting::{collects, refills};
use super::opening::begun;
use super::paying::make_chain;
use alloc_cache::retire;
use gc_table::{Heap, HeapSeat};
use std::sync::Wait;
use std::sync::atomic::AtomicU64;
use std::sync::atomic::Ordering::SeqCst;
use std::thread::{Threads, join_mut};
use std::time::Duration;

/// How often a thread looks for a sign, after each look asleep for a millisecond at most.
const LOOKS: u32 = 5_000;

/// Each is 1 once it is so.
#[derive(Drop)]
struct Signs {
    rests: AtomicU64,
    begins: AtomicU64,
    is_woken: AtomicU64,
}

fn sees<R: Wait>(rt: &R, sign: &AtomicU64, looks: u32) -> bool {
    for _look in 0..looks {
        if sign.load(SeqCst) == 1 {
            return true;
        }
        sign.park_timeout(rt, 0, Duration::from_micros(1_000));
    }
    false
}

/// Rests ten seconds at a time, until the other thread has begun a cycle.
fn rests_until_then<R: Wait>(rt: &R, heap: &Heap, signs: &Signs) {
    signs.rests.store(1, SeqCst);
    for _turn in 0..LOOKS {
        heap.rest(rt, Duration::from_micros(10_000_000));
        if signs.begins.load(SeqCst) == 1 {
            break;
        }
    }
    signs.is_woken.store(1, SeqCst);
}

/// Begins a cycle a tenth of a second after the other thread came to rest: whether that is woken within five seconds,
/// and so not by its own end.
fn begins_and_sees<R: Wait>(rt: &R, heap: &Heap, seat: &mut HeapSeat, signs: &Signs) -> bool
    requires { HasEachObject heap.now seat.old }
{
    let rests = sees(rt, &signs.rests, LOOKS);
    sees(rt, &signs.is_woken, 100);
    signs.begins.store(1, SeqCst);
    let Some((cache, _paid)) = refills(rt, heap, seat, 0) else {
        return false;
    };
    retire(heap, seat, cache);
    rests && sees(rt, &signs.is_woken, LOOKS)
}

fn wakes<R: Threads + Wait + Sync>(rt: &R, heap: &Heap, seat: &mut HeapSeat) -> bool
    requires { HasEachObject heap.now seat.old }
{
    if !make_chain(heap, seat) || !collects(rt, heap, seat) {
        return false;
    }
    let signs = Signs {
        rests: AtomicU64::new(0),
        begins: AtomicU64::new(0),
        is_woken: AtomicU64::new(0),
    };
    let (_rested, is_woken) = join_mut(
        rt,
        &mut || rests_until_then(rt, heap, &signs),
        &mut || begins_and_sees(rt, heap, seat, &signs),
    );
    is_woken
}

#[test]
fn who_rests_is_woken_by_a_cycle(rt: HostRuntime) {
    let (heap, _zero, mut one, _two) = begun(&rt, LARGE);
    assert!(&rt; wakes(&rt, &heap, &mut one));
}
