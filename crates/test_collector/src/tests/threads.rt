//! Two mutators make objects and garbage in two threads, and collect if they find no block.
ghost use Rattle.test_heaps.specs.Seats.{HasEachObject, IsReadyWithCache};

use super::THREE;
use super::checks::{is_out, may_call};
use super::collecting::refills;
use super::objects::{lengthen, walk};
use super::opening::begun;
use super::seasons::joins;
use alloc_cache::{Cache, retire};
use gc_cycle::{Safe, go_in, go_out, safe_point};
use gc_table::{Heap, HeapSeat};
use std::sync::Wait;
use std::thread::{Threads, join_mut};
use test_heaps::{forget, make};

fn passes<R: Wait>(rt: &R, heap: &Heap, seat: &mut HeapSeat) -> bool
    requires { HasEachObject heap.now seat.old }
    ensures { HasEachObject heap.now seat.new }
{
    if !may_call(heap, seat) || seat.state().cache.is_some() {
        return false;
    }
    match safe_point(rt, heap, seat, None, 0) {
        Safe::Going(None) => true,
        Safe::Going(Some(cache)) => {
            retire(heap, seat, cache);
            false
        }
        Safe::Full => false,
    }
}

fn litter(heap: &Heap, seat: &mut HeapSeat, cache: &mut Cache)
    requires { IsReadyWithCache heap.now seat.old cache.old }
    ensures { IsReadyWithCache heap.now seat.new cache.new }
{
    for n in 0..64 {
        make(heap, seat, cache, 2, n);
    }
    forget(heap, seat, cache, 2);
}

fn end_chain(heap: &Heap, seat: &mut HeapSeat, cache: &Cache, round: u32)
    requires { IsReadyWithCache heap.now seat.old cache.now }
    ensures { IsReadyWithCache heap.now seat.new cache.now }
{
    if round % 12 != 0 {
        return;
    }
    forget(heap, seat, cache, 0);
    forget(heap, seat, cache, 1);
}

fn plays_round<R: Wait>(rt: &R, heap: &Heap, seat: &mut HeapSeat, round: u32) -> bool
    requires { HasEachObject heap.now seat.old }
    ensures { HasEachObject heap.now seat.new }
{
    let Some((mut cache, _paid)) = refills(rt, heap, seat, round) else {
        return false;
    };
    end_chain(heap, seat, &cache, round);
    let made = lengthen(heap, seat, &mut cache, 16);
    litter(heap, seat, &mut cache);
    retire(heap, seat, cache);
    made == 16 && passes(rt, heap, seat)
}

fn plays_on<R: Wait>(rt: &R, heap: &Heap, seat: &mut HeapSeat) -> u32
    requires { HasEachObject heap.now seat.old }
    ensures { HasEachObject heap.now seat.new }
{
    let mut done = 0u32;
    for round in 0..120 {
        if plays_round(rt, heap, seat, round) {
            done = done.wrapping_add(1);
        }
    }
    done
}

/// How many of 120 rounds went well. Then it leaves, so that the other thread isn't kept waiting.
fn plays_and_leaves<R: Wait>(rt: &R, heap: &Heap, seat: &mut HeapSeat) -> u32
    requires { HasEachObject heap.now seat.old }
    ensures { HasEachObject heap.now seat.new }
{
    let done = plays_on(rt, heap, seat);
    if !may_call(heap, seat) || seat.state().cache.is_some() {
        return 0;
    }
    go_out(heap, seat, done);
    done
}

fn both_play<R: Threads + Wait + Sync>(
    rt: &R,
    heap: &Heap,
    one: &mut HeapSeat,
    two: &mut HeapSeat,
) -> (u32, u32)
    requires { HasEachObject heap.now one.old × HasEachObject heap.now two.old }
    ensures { HasEachObject heap.now one.new × HasEachObject heap.now two.new }
{
    join_mut(
        rt,
        &mut || plays_and_leaves(rt, heap, one),
        &mut || plays_and_leaves(rt, heap, two),
    )
}

fn comes_back<R: Wait>(rt: &R, heap: &Heap, seat: &mut HeapSeat) -> Option<(u32, u64)>
    requires { HasEachObject heap.now seat.old }
    ensures { HasEachObject heap.now seat.new }
{
    if !is_out(heap, seat) || seat.state().section.is_none() {
        return None;
    }
    go_in(rt, heap, seat);
    heap.read_phase(seat);
    walk(heap, seat)
}

fn plays_together<R: Threads + Wait + Sync>(
    rt: &R,
    heap: &Heap,
    one: &mut HeapSeat,
    two: &mut HeapSeat,
) -> Option<((u32, u32), (u32, u64), (u32, u64))>
    requires { HasEachObject heap.now one.old × HasEachObject heap.now two.old }
{
    let rounds = both_play(rt, heap, one, two);
    let first = comes_back(rt, heap, one)?;
    let second = comes_back(rt, heap, two)?;
    Some((rounds, first, second))
}

#[test]
fn two_mutators_keep_what_they_reach(rt: HostRuntime) {
    let (heap, _zero, mut one, mut two) = begun(&rt, THREE);
    let joined = joins(&heap, &mut two, 2);
    assert!(&rt; joined);
    let kept = Some(((120, 120), (192, 1_440), (192, 1_440)));
    assert!(&rt; plays_together(&rt, &heap, &mut one, &mut two) == kept);
}
