//! The store dirtied the card of B, so that B is scanned once more before the cycle ends.
ghost use Rattle.std.specs.Prelude.{◌<◌, IsTrue};
ghost use Rattle.test_collector.specs.Seats.{IsSharerWithCache};
ghost use Rattle.test_heaps.specs.Seats.{HasEachObject};

use super::checks::{is_out, may_call};
use super::hiding::passes;
use super::opening::begun;
use super::seasons::{joins, marks};
use super::sharers::{flushes, makes, may_share, refills_sharer, takes_block};
use alloc_cache::{Cache, retire};
use gc_cycle::{go_in, go_out};
use gc_table::{Heap, HeapSeat};
use mark_core::{Phase, Shape};
use mutator_ops::{share_follow, share_forget, share_set, share_value_of};
use std::sync::Wait;
use std::sync::atomic::{AtomicU64, Ordering};
use std::thread::{Threads, join_mut, yield_now};
use test_heaps::{SMALL, marks_as_mutator};
use tracer::{scan_roots, trace};

/// One block, and two sections besides the catalogue's, which share their objects.
const SHARED: Shape = Shape {
    sections: 3,
    sharing: true,
    ..SMALL
};

/// The variables of A, B, C and nothing. The roots' scan finds A before B, and a packet is a stack: so B is scanned
/// first.
const A: u8 = 0;

const B: u8 = 1;

const C: u8 = 2;

const NIL: u8 = 3;

/// Waits until so many steps were done; false after some seconds.
fn comes_to(done: &AtomicU64, steps: u64) -> bool {
    for _look in 0..10_000_000u32 {
        if done.load(Ordering::SeqCst) >= steps {
            return true;
        }
        yield_now();
    }
    false
}

/// Makes A, B, and C, to which only A's field 0 refers. None is published, so no card is dirtied.
fn make_three(heap: &Heap, seat: &mut HeapSeat, cache: &mut Cache) -> bool
    requires cache { IsSharerWithCache heap.now seat.old cache.old }
    requires fields { 0 < heap.now.shape.fields }
    ensures { IsSharerWithCache heap.now seat.new cache.new }
{
    let a = makes(heap, seat, cache, A, 7);
    let b = makes(heap, seat, cache, B, 8);
    let c = makes(heap, seat, cache, C, 9);
    share_set(heap, seat, A, 0, C);
    share_forget(heap, seat, C);
    a && b && c
}

fn makes_three(heap: &Heap, seat: &mut HeapSeat) -> bool
    requires { HasEachObject heap.now seat.old }
    ensures { HasEachObject heap.now seat.new }
{
    if heap.shape().fields == 0 {
        return false;
    }
    let Some(mut cache) = takes_block(heap, seat) else {
        return false;
    };
    let made = make_three(heap, seat, &mut cache);
    retire(heap, seat, cache);
    flushes(heap, seat) && made
}

fn scans(heap: &Heap, seat: &mut HeapSeat) -> bool
    requires { HasEachObject heap.now seat.old }
    ensures { HasEachObject heap.now seat.new }
{
    if heap.shape().sections < 2 || !marks_as_mutator(heap, seat) {
        return false;
    }
    scan_roots(heap, seat, 1);
    true
}

fn traces(heap: &Heap, seat: &mut HeapSeat, most: u32) -> u32
    requires { HasEachObject heap.now seat.old }
    ensures { HasEachObject heap.now seat.new }
{
    if !marks_as_mutator(heap, seat) {
        return 0;
    }
    trace(heap, seat, most).done
}

fn move_reference(heap: &Heap, seat: &mut HeapSeat) -> bool
    requires { HasEachObject heap.now seat.old }
    ensures { HasEachObject heap.now seat.new }
{
    if !may_share(heap, seat) || heap.shape().fields == 0 || seat.state().env[A as usize] == 0 {
        return false;
    }
    share_follow(heap, seat, C, A, 0);
    share_set(heap, seat, B, 0, C);
    share_set(heap, seat, A, 0, NIL);
    share_forget(heap, seat, C);
    flushes(heap, seat)
}

fn stores(heap: &Heap, seat: &mut HeapSeat, done: &AtomicU64) -> bool
    requires { HasEachObject heap.now seat.old }
    ensures { HasEachObject heap.now seat.new }
{
    let moved = comes_to(done, 1) && move_reference(heap, seat);
    if may_call(heap, seat) && seat.state().cache.is_none() {
        go_out(heap, seat, 0);
    }
    done.fetch_add(1, Ordering::SeqCst);
    moved
}

fn scans_one(heap: &Heap, seat: &mut HeapSeat) -> bool
    requires { HasEachObject heap.now seat.old }
    ensures { HasEachObject heap.now seat.new }
{
    marks(heap, seat) && passes(heap, seat) && scans(heap, seat) && traces(heap, seat, 1) == 1
}

fn fill(heap: &Heap, seat: &mut HeapSeat, cache: &mut Cache) -> u32
    requires { IsSharerWithCache heap.now seat.old cache.old }
    ensures { IsSharerWithCache heap.now seat.new cache.new }
{
    let mut made = 0u32;
    for _cell in 0..64 {
        if makes(heap, seat, cache, 5, 1) {
            made = made.wrapping_add(1);
        }
    }
    made
}

fn ends_cycle<R: Wait>(rt: &R, heap: &Heap, seat: &mut HeapSeat) -> Option<u32>
    requires { HasEachObject heap.now seat.old }
    ensures { HasEachObject heap.now seat.new }
{
    let mut cache = refills_sharer(rt, heap, seat)?;
    let made = fill(heap, seat, &mut cache);
    retire(heap, seat, cache);
    if flushes(heap, seat) && heap.read_phase(seat) == Phase::Idle {
        Some(made)
    } else {
        None
    }
}

fn marks_beside<R: Wait>(rt: &R, heap: &Heap, seat: &mut HeapSeat, done: &AtomicU64) -> Option<u32>
    requires { HasEachObject heap.now seat.old }
    ensures { HasEachObject heap.now seat.new }
{
    let scanned = scans_one(heap, seat);
    done.fetch_add(1, Ordering::SeqCst);
    if !scanned || !comes_to(done, 2) || traces(heap, seat, 1) != 1 {
        return None;
    }
    ends_cycle(rt, heap, seat)
}

fn finds_moved<R: Wait>(rt: &R, heap: &Heap, seat: &mut HeapSeat) -> Option<u64>
    requires { HasEachObject heap.now seat.old }
{
    if !is_out(heap, seat) || seat.state().section.is_none() {
        return None;
    }
    go_in(rt, heap, seat);
    heap.read_phase(seat);
    if !may_share(heap, seat) || heap.shape().fields == 0 || seat.state().env[B as usize] == 0 {
        return None;
    }
    share_follow(heap, seat, C, B, 0);
    share_value_of(heap, seat, C)
}

fn keeps_moved<R: Threads + Wait + Sync>(
    rt: &R,
    heap: &Heap,
    one: &mut HeapSeat,
    two: &mut HeapSeat,
) -> Option<(u32, u64)>
    requires { HasEachObject heap.now one.old × HasEachObject heap.now two.old }
{
    if !makes_three(heap, one) {
        return None;
    }
    let done = AtomicU64::new(0);
    let (moved, free) = join_mut(
        rt,
        &mut || stores(heap, one, &done),
        &mut || marks_beside(rt, heap, two, &done),
    );
    if !moved {
        return None;
    }
    let free = free?;
    let value = finds_moved(rt, heap, one)?;
    Some((free, value))
}

#[test]
fn a_moved_object_is_kept(rt: HostRuntime) {
    let (heap, _zero, mut one, mut two) = begun(&rt, SHARED);
    let joined = joins(&heap, &mut two, 2);
    assert!(&rt; joined);
    assert!(&rt; keeps_moved(&rt, &heap, &mut one, &mut two) == Some((61, 9)));
}
