ghost use Rattle.test_heaps.specs.Seats.{HasEachObject};

use crate::cycles::checks::may_call;
use crate::cycles::filling::{fill_all, forget_all};
use crate::cycles::opening::{begin, sizes_of};
use crate::words::{Collections, Content};
use alloc_cache::retire;
use gc_cycle::{Safe, collect};
use gc_table::{Heap, HeapSeat};
use mark_core::FREE;
use std::alloc::Global;
use std::rt::Clock;
use std::sync::Wait;
use std::time::Instant;
use test_heaps::{leaves, open_one, try_close};

/// True if the mutator goes on.
#[inline(never)]
fn collects<R: Wait>(rt: &R, heap: &Heap, seat: &mut HeapSeat) -> bool
    requires { HasEachObject heap.now seat.old }
    ensures { HasEachObject heap.now seat.new }
{
    if !may_call(heap, seat) || seat.state().cache.is_some() {
        return false;
    }
    match collect(rt, heap, seat, 0) {
        Safe::Going(None) => true,
        Safe::Going(Some(cache)) => {
            retire(heap, seat, cache);
            false
        }
        Safe::Full => false,
    }
}

fn timed<R: Wait + Clock>(rt: &R, heap: &Heap, seat: &mut HeapSeat) -> Option<u64>
    requires { HasEachObject heap.now seat.old }
    ensures { HasEachObject heap.now seat.new }
{
    let Ok(start) = Instant::now(rt) else {
        return None;
    };
    if !collects(rt, heap, seat) {
        return None;
    }
    let Ok(took) = start.elapsed(rt) else {
        return None;
    };
    u64::try_from(took.as_nanos()).ok()
}

fn prepares(heap: &Heap, seat: &mut HeapSeat, content: Content) -> bool
    requires { HasEachObject heap.now seat.old }
    ensures { HasEachObject heap.now seat.new }
{
    match content {
        Content::Dead => fill_all(heap, seat) && forget_all(heap, seat),
        _ => true,
    }
}

fn collects_on<R: Wait + Clock>(
    rt: &R,
    heap: &Heap,
    seat: &mut HeapSeat,
    content: Content,
    rounds: u64,
) -> Option<u64>
    requires { HasEachObject heap.now seat.old }
    ensures { HasEachObject heap.now seat.new }
{
    let mut least = u64::MAX;
    for _round in 0..rounds {
        if !prepares(heap, seat, content) {
            return None;
        }
        least = least.min(timed(rt, heap, seat)?);
    }
    Some(least)
}

fn has_freed(heap: &Heap, seat: &mut HeapSeat, content: Content) -> bool
    requires { HasEachObject heap.now seat.old }
    ensures { HasEachObject heap.now seat.new }
{
    let free = heap.read_stat(seat, FREE);
    match content {
        Content::Live => free == 0,
        _ => free == u64::from(heap.shape().cells),
    }
}

fn works<R: Wait + Clock>(
    rt: &R,
    heap: &Heap,
    seat: &mut HeapSeat,
    asked: Collections,
) -> Option<u64>
    requires { HasEachObject heap.now seat.old }
    ensures { HasEachObject heap.now seat.new }
{
    if let Content::Live = asked.content {
        if !fill_all(heap, seat) {
            return None;
        }
    }
    let took = collects_on(rt, heap, seat, asked.content, asked.rounds)?;
    if has_freed(heap, seat, asked.content) {
        Some(took)
    } else {
        None
    }
}

/// The nanoseconds of the fastest collection in a new heap. None if one didn't end as it should.
pub fn run<R: Wait + Clock>(rt: &R, alloc: Global, asked: Collections) -> Option<u64> {
    let (heap, mut seat) = open_one(alloc, sizes_of(asked.size))?;
    if !begin(&heap, &mut seat) {
        return None;
    }
    let took = works(rt, &heap, &mut seat, asked)?;
    if leaves(&heap, &mut seat) && try_close(alloc, heap, seat) {
        Some(took)
    } else {
        None
    }
}
