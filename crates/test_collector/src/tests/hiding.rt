//! During marking, a store hides an unmarked object behind a clean card.
ghost use Rattle.test_heaps.specs.Seats.{HasEachObject, IsReadyWithCache};

use super::collecting::refills;
use super::objects::{link, walk};
use super::opening::begun;
use super::seasons::marks;
use alloc_cache::{Cache, retire};
use card_clean::next_card;
use gc_table::{Heap, HeapSeat};
use mark_core::Phase;
use std::sync::Wait;
use test_heaps::{SMALL, forget, make, marks_as_mutator, take};
use tracer::{scan_roots, trace};

fn make_first(heap: &Heap, seat: &mut HeapSeat) -> bool
    requires { HasEachObject heap.now seat.old }
    ensures { HasEachObject heap.now seat.new }
{
    let Some(mut cache) = take(heap, seat) else {
        return false;
    };
    let made = make(heap, seat, &mut cache, 0, 7);
    retire(heap, seat, cache);
    made
}

fn traces(heap: &Heap, seat: &mut HeapSeat) -> Option<u32>
    requires { HasEachObject heap.now seat.old }
    ensures { HasEachObject heap.now seat.new }
{
    if heap.shape().sections < 2 || !marks_as_mutator(heap, seat) {
        return None;
    }
    scan_roots(heap, seat, 1);
    if !marks_as_mutator(heap, seat) {
        return None;
    }
    Some(trace(heap, seat, 100).done)
}

fn draws(heap: &Heap, seat: &mut HeapSeat) -> Option<u32>
    requires { HasEachObject heap.now seat.old }
    ensures { HasEachObject heap.now seat.new }
{
    if !marks_as_mutator(heap, seat) {
        return None;
    }
    next_card(heap, seat)
}

/// Whether a pass gives out each of the four cards once.
pub fn passes(heap: &Heap, seat: &mut HeapSeat) -> bool
    requires { HasEachObject heap.now seat.old }
    ensures { HasEachObject heap.now seat.new }
{
    draws(heap, seat) == Some(0)
        && draws(heap, seat) == Some(1)
        && draws(heap, seat) == Some(2)
        && draws(heap, seat) == Some(3)
        && draws(heap, seat).is_none()
}

fn is_dirty(heap: &Heap, seat: &mut HeapSeat) -> bool
    requires { HasEachObject heap.now seat.old }
    ensures { HasEachObject heap.now seat.new }
{
    heap.shape().cells >= 64 && seat.state().active && heap.read_card(seat, 0)
}

/// Makes a garbage object, and one that only a field of the first object leads to.
fn hide(heap: &Heap, seat: &mut HeapSeat, cache: &mut Cache) -> bool
    requires { IsReadyWithCache heap.now seat.old cache.old }
    ensures { IsReadyWithCache heap.now seat.new cache.new }
{
    let garbage = make(heap, seat, cache, 1, 8);
    let hidden = make(heap, seat, cache, 1, 9);
    link(heap, seat, cache, 0, 1);
    forget(heap, seat, cache, 1);
    garbage && hidden
}

fn hides(heap: &Heap, seat: &mut HeapSeat) -> bool
    requires { HasEachObject heap.now seat.old }
    ensures { HasEachObject heap.now seat.new }
{
    let Some(mut cache) = take(heap, seat) else {
        return false;
    };
    let hidden = hide(heap, seat, &mut cache);
    retire(heap, seat, cache);
    hidden
}

fn hides_behind(heap: &Heap, seat: &mut HeapSeat) -> bool
    requires { HasEachObject heap.now seat.old }
    ensures { HasEachObject heap.now seat.new }
{
    make_first(heap, seat)
        && marks(heap, seat)
        && traces(heap, seat) == Some(1)
        && passes(heap, seat)
        && !is_dirty(heap, seat)
        && hides(heap, seat)
        && is_dirty(heap, seat)
}

fn keeps<R: Wait>(rt: &R, heap: &Heap, seat: &mut HeapSeat) -> Option<(u32, Phase, u32, u64)>
    requires { HasEachObject heap.now seat.old }
{
    if !hides_behind(heap, seat) {
        return None;
    }
    let (cache, _paid) = refills(rt, heap, seat, 5)?;
    let free = cache.free();
    retire(heap, seat, cache);
    let phase = heap.read_phase(seat);
    let (count, total) = walk(heap, seat)?;
    Some((free, phase, count, total))
}

#[test]
fn a_hidden_object_is_kept(rt: HostRuntime) {
    let (heap, _zero, mut one, _two) = begun(&rt, SMALL);
    assert!(&rt; keeps(&rt, &heap, &mut one) == Some((62, Phase::Idle, 2, 16)));
}
