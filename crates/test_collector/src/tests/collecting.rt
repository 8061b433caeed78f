//! A mutator that finds no block collects; if it reaches all, the heap is full.
ghost use Rattle.std.specs.Prelude.{IfNone, IfSome};
ghost use Rattle.test_heaps.specs.Seats.{HasEachObject, IsReadyWithCache};

use super::checks::may_call;
use super::objects::{chain, free_cells, link};
use super::opening::begun;
use alloc_cache::{Cache, retire};
use cache_refills::refill;
use gc_cycle::{Paid, Refill, Safe, collect};
use gc_table::{Heap, HeapSeat};
use mark_core::{BLOCK_CELLS, FIRST_POSITION, NAMED_SECTION, Phase};
use std::sync::Wait;
use test_heaps::{SMALL, forget, is_ready, make, take};

/// A cache, and what was paid for it after `done` commands.
pub fn refills<R: Wait>(
    rt: &R,
    heap: &Heap,
    seat: &mut HeapSeat,
    done: u32,
) -> Option<(Cache, Paid)>
    requires { HasEachObject heap.now seat.old }
    ensures some { IfSome result (λ r. IsReadyWithCache heap.now seat.new r.0) }
    ensures none { IfNone result (HasEachObject heap.now seat.new) }
{
    if !may_call(heap, seat) || seat.state().cache.is_some() {
        return None;
    }
    match refill(rt, heap, seat, done) {
        Refill::Full => None,
        Refill::Cache(cache, paid) => {
            heap.read_season(seat);
            if is_ready(heap, seat) {
                return Some((cache, paid));
            }
            retire(heap, seat, cache);
            None
        }
    }
}

fn finds_full<R: Wait>(rt: &R, heap: &Heap, seat: &mut HeapSeat, done: u32) -> bool
    requires { HasEachObject heap.now seat.old }
    ensures { HasEachObject heap.now seat.new }
{
    if !may_call(heap, seat) || seat.state().cache.is_some() {
        return false;
    }
    match refill(rt, heap, seat, done) {
        Refill::Full => true,
        Refill::Cache(cache, _paid) => {
            retire(heap, seat, cache);
            false
        }
    }
}

/// A collection: true if the mutator goes on.
pub fn collects<R: Wait>(rt: &R, heap: &Heap, seat: &mut HeapSeat) -> bool
    requires { HasEachObject heap.now seat.old }
    ensures { HasEachObject heap.now seat.new }
{
    if !may_call(heap, seat) || seat.state().cache.is_some() {
        return false;
    }
    match collect(rt, heap, seat, 0) {
        Safe::Going(None) => true,
        Safe::Going(Some(cache)) => {
            retire(heap, seat, cache);
            false
        }
        Safe::Full => false,
    }
}

fn fill(heap: &Heap, seat: &mut HeapSeat, cache: &mut Cache) -> u32
    requires { IsReadyWithCache heap.now seat.old cache.old }
    ensures { IsReadyWithCache heap.now seat.new cache.new }
{
    let mut made = 0u32;
    for n in 0..BLOCK_CELLS {
        if make(heap, seat, cache, 0, n) {
            made = made.wrapping_add(1);
        }
    }
    made
}

fn refills_after_garbage<R: Wait>(rt: &R, heap: &Heap, seat: &mut HeapSeat) -> Option<u32>
    requires { HasEachObject heap.now seat.old }
{
    let mut cache = take(heap, seat)?;
    let made = fill(heap, seat, &mut cache);
    retire(heap, seat, cache);
    if made != BLOCK_CELLS {
        return None;
    }
    let (cache, _paid) = refills(rt, heap, seat, 193)?;
    let free = cache.free();
    retire(heap, seat, cache);
    Some(free)
}

fn fills_up<R: Wait>(rt: &R, heap: &Heap, seat: &mut HeapSeat) -> Option<(Phase, u64, u64)>
    requires { HasEachObject heap.now seat.old }
{
    if heap.shape().sections < 2
        || chain(heap, seat, BLOCK_CELLS) != BLOCK_CELLS
        || !finds_full(rt, heap, seat, 193)
    {
        return None;
    }
    let phase = heap.read_phase(seat);
    let named = heap.read_stat(seat, NAMED_SECTION);
    let position = heap.read_stat(seat, FIRST_POSITION + 1);
    Some((phase, named, position))
}

/// Makes two objects that refer to each other, and forgets them.
pub fn make_ring(heap: &Heap, seat: &mut HeapSeat) -> bool
    requires { HasEachObject heap.now seat.old }
    ensures { HasEachObject heap.now seat.new }
{
    let Some(mut cache) = take(heap, seat) else {
        return false;
    };
    let first = make(heap, seat, &mut cache, 0, 1);
    let second = make(heap, seat, &mut cache, 1, 2);
    link(heap, seat, &cache, 0, 1);
    link(heap, seat, &cache, 1, 0);
    forget(heap, seat, &cache, 0);
    forget(heap, seat, &cache, 1);
    retire(heap, seat, cache);
    first && second
}

fn frees_ring<R: Wait>(rt: &R, heap: &Heap, seat: &mut HeapSeat) -> Option<(u32, u32)>
    requires { HasEachObject heap.now seat.old }
{
    if !make_ring(heap, seat) {
        return None;
    }
    let before = free_cells(heap, seat)?;
    if !collects(rt, heap, seat) {
        return None;
    }
    let after = free_cells(heap, seat)?;
    Some((before, after))
}

#[test]
fn a_refill_frees_what_no_variable_names(rt: HostRuntime) {
    let (heap, _zero, mut one, _two) = begun(&rt, SMALL);
    assert!(&rt; refills_after_garbage(&rt, &heap, &mut one) == Some(63));
}

#[test]
fn a_heap_is_full_of_reachable_objects(rt: HostRuntime) {
    let (heap, _zero, mut one, _two) = begun(&rt, SMALL);
    assert!(&rt; fills_up(&rt, &heap, &mut one) == Some((Phase::Full, 1, 193)));
}

#[test]
fn a_collection_frees_a_ring(rt: HostRuntime) {
    let (heap, _zero, mut one, _two) = begun(&rt, SMALL);
    assert!(&rt; frees_ring(&rt, &heap, &mut one) == Some((62, 64)));
}
