//! A thread that waits for the stops of another traces and sweeps in them.
ghost use Rattle.std.specs.Prelude.{◌<◌};
ghost use Rattle.mark_core.specs.Numbers.{section_variables};
ghost use Rattle.gc_table.specs.Seats.{Sits};
ghost use Rattle.test_heaps.specs.Seats.{HasEachObject, IsReadyWithCache};

use super::BROAD;
use super::collecting::collects;
use super::helping::helps;
use super::objects::{assign_to, link, walk};
use super::opening::begun;
use alloc_cache::{Cache, retire};
use gc_table::{Heap, HeapSeat};
use mark_core::FREE;
use std::sync::Wait;
use std::sync::atomic::{AtomicBool, Ordering};
use std::thread::{Threads, join_mut, yield_now};
use test_heaps::{make, take};

fn grow(heap: &Heap, seat: &mut HeapSeat, cache: &mut Cache, v: u8, n: u32) -> bool
    requires range { v < section_variables }
    requires fills { IsReadyWithCache heap.now seat.old cache.old }
    ensures { IsReadyWithCache heap.now seat.new cache.new }
{
    if !make(heap, seat, cache, 31, n) {
        return false;
    }
    link(heap, seat, cache, 31, v);
    assign_to(heap, seat, cache, v, 31);
    true
}

fn grow_all(heap: &Heap, seat: &mut HeapSeat, cache: &mut Cache) -> u32
    requires { IsReadyWithCache heap.now seat.old cache.old }
    ensures { IsReadyWithCache heap.now seat.new cache.new }
{
    let mut made = 0u32;
    for n in 0..64 {
        if grow(heap, seat, cache, (n % 16) as u8, n) {
            made = made.wrapping_add(1);
        }
    }
    made
}

fn grow_block(heap: &Heap, seat: &mut HeapSeat) -> bool
    requires { HasEachObject heap.now seat.old }
    ensures { HasEachObject heap.now seat.new }
{
    let Some(mut cache) = take(heap, seat) else {
        return false;
    };
    let made = grow_all(heap, seat, &mut cache);
    retire(heap, seat, cache);
    made == 64
}

fn make_chains(heap: &Heap, seat: &mut HeapSeat) -> bool
    requires { HasEachObject heap.now seat.old }
    ensures { HasEachObject heap.now seat.new }
{
    for _block in 0..9 {
        if !grow_block(heap, seat) {
            return false;
        }
    }
    true
}

/// Collects until it is over, at most 20,000 times: whether the mutator always went on.
fn collects_on<R: Wait>(rt: &R, heap: &Heap, seat: &mut HeapSeat, over: &AtomicBool) -> bool
    requires { HasEachObject heap.now seat.old }
    ensures { HasEachObject heap.now seat.new }
{
    let mut goes_on = true;
    for _round in 0..20_000 {
        if over.load(Ordering::SeqCst) || !goes_on {
            return goes_on;
        }
        goes_on = collects(rt, heap, seat);
    }
    goes_on
}

fn collects_last<R: Wait>(rt: &R, heap: &Heap, seat: &mut HeapSeat, over: &AtomicBool) -> bool
    requires { HasEachObject heap.now seat.old }
    ensures { HasEachObject heap.now seat.new }
{
    let goes_on = collects_on(rt, heap, seat, over);
    over.store(true, Ordering::SeqCst);
    goes_on
}

/// Helps until it has traced and swept, or it is over.
fn helps_on(heap: &Heap, seat: &mut HeapSeat, over: &AtomicBool) -> bool
    requires { Sits heap.now seat.old }
    ensures { Sits heap.now seat.new }
{
    let mut has_traced = false;
    let mut has_swept = false;
    for _turn in 0..1_000_000_000u32 {
        if let Some(helped) = helps(heap, seat, 1_024) {
            has_traced = has_traced || helped.traced > 0;
            has_swept = has_swept || helped.swept > 0;
        }
        if has_traced && has_swept || over.load(Ordering::SeqCst) {
            return has_traced && has_swept;
        }
        yield_now();
    }
    false
}

fn helps_last(heap: &Heap, seat: &mut HeapSeat, over: &AtomicBool) -> bool
    requires { Sits heap.now seat.old }
    ensures { Sits heap.now seat.new }
{
    let has_helped = helps_on(heap, seat, over);
    over.store(true, Ordering::SeqCst);
    has_helped
}

#[derive(PartialEq, Drop)]
struct Left {
    goes_on: bool,
    has_helped: bool,
    chain: (u32, u64),
    free: u64,
}

fn shares<R: Threads + Wait + Sync>(
    rt: &R,
    heap: &Heap,
    zero: &mut HeapSeat,
    one: &mut HeapSeat,
) -> Option<Left>
    requires { Sits heap.now zero.old × HasEachObject heap.now one.old }
{
    if !make_chains(heap, one) {
        return None;
    }
    let over = AtomicBool::new(false);
    let (goes_on, has_helped) = join_mut(
        rt,
        &mut || collects_last(rt, heap, one, &over),
        &mut || helps_last(heap, zero, &over),
    );
    let chain = walk(heap, one)?;
    let free = heap.read_stat(one, FREE);
    Some(Left {
        goes_on,
        has_helped,
        chain,
        free,
    })
}

#[test]
fn a_thread_that_waits_traces_and_sweeps(rt: HostRuntime) {
    let (heap, mut zero, mut one, _two) = begun(&rt, BROAD);
    let wanted = Left {
        goes_on: true,
        has_helped: true,
        chain: (36, 864),
        free: 15_808,
    };
    assert!(&rt; shares(&rt, &heap, &mut zero, &mut one) == Some(wanted));
}
