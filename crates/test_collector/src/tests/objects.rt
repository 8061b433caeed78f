ghost use Rattle.std.specs.Prelude.{◌<◌};
ghost use Rattle.mark_core.specs.Numbers.{section_variables};
ghost use Rattle.test_heaps.specs.Seats.{HasEachObject, IsReadyWithCache};

use alloc_cache::{Cache, retire};
use gc_table::{Heap, HeapSeat};
use mutator_ops::{assign, set, sum};
use plain_heap::Line;
use test_heaps::{make, sees_season, take};

/// Stores variable w in field 0 of variable v's object.
pub fn link(heap: &Heap, seat: &mut HeapSeat, cache: &Cache, v: u8, w: u8)
    requires range { (v < section_variables) × (w < section_variables) }
    requires fills { IsReadyWithCache heap.now seat.old cache.now }
    ensures { IsReadyWithCache heap.now seat.new cache.now }
{
    if heap.shape().fields > 0 {
        set(heap, seat, v, 0, w);
    }
}

/// Variable v becomes variable w.
pub fn assign_to(heap: &Heap, seat: &mut HeapSeat, cache: &Cache, v: u8, w: u8)
    requires range { (v < section_variables) × (w < section_variables) }
    requires fills { IsReadyWithCache heap.now seat.old cache.now }
    ensures { IsReadyWithCache heap.now seat.new cache.now }
{
    assign(heap, seat, v, w);
}

/// Puts a new object before the chain from variable 0 along field 0: whether the block had a free cell.
pub fn put_before(heap: &Heap, seat: &mut HeapSeat, cache: &mut Cache, n: u32) -> bool
    requires { IsReadyWithCache heap.now seat.old cache.old }
    ensures { IsReadyWithCache heap.now seat.new cache.new }
{
    if !make(heap, seat, cache, 1, n) {
        return false;
    }
    link(heap, seat, cache, 1, 0);
    assign(heap, seat, 0, 1);
    true
}

/// Puts so many objects before the chain: how many were made.
pub fn lengthen(heap: &Heap, seat: &mut HeapSeat, cache: &mut Cache, count: u32) -> u32
    requires { IsReadyWithCache heap.now seat.old cache.old }
    ensures { IsReadyWithCache heap.now seat.new cache.new }
{
    let mut made = 0u32;
    for n in 0..count {
        if put_before(heap, seat, cache, n) {
            made = made.wrapping_add(1);
        }
    }
    made
}

/// Does so in a block of its own.
pub fn chain(heap: &Heap, seat: &mut HeapSeat, count: u32) -> u32
    requires { HasEachObject heap.now seat.old }
    ensures { HasEachObject heap.now seat.new }
{
    let Some(mut cache) = take(heap, seat) else {
        return 0;
    };
    let made = lengthen(heap, seat, &mut cache, count);
    retire(heap, seat, cache);
    made
}

/// The free cells of a block that can be claimed.
pub fn free_cells(heap: &Heap, seat: &mut HeapSeat) -> Option<u32>
    requires { HasEachObject heap.now seat.old }
    ensures { HasEachObject heap.now seat.new }
{
    let cache = take(heap, seat)?;
    let free = cache.free();
    retire(heap, seat, cache);
    Some(free)
}

/// How long the chain is, and the sum of its values.
pub fn walk(heap: &Heap, seat: &mut HeapSeat) -> Option<(u32, u64)>
    requires { HasEachObject heap.now seat.old }
    ensures { HasEachObject heap.now seat.new }
{
    if !sees_season(heap, seat) || heap.shape().fields == 0 {
        return None;
    }
    match sum(heap, seat, 0, 0, 65_536) {
        Line::Walk { count, total } => Some((count, total)),
        _ => None,
    }
}
