ghost use Rattle.std.specs.Prelude.{◌<◌};
ghost use Rattle.test_heaps.specs.Seats.{HasEachObject, IsReadyWithCache};

use alloc_cache::{Cache, retire};
use gc_table::{Heap, HeapSeat};
use mark_core::BLOCK_CELLS;
use mutator_ops::{clear, set};
use test_heaps::{is_ready, make, take};

fn link(heap: &Heap, seat: &mut HeapSeat, cache: &Cache, v: u8, i: u8, w: u8)
    requires range { (v < 32) × (w < 32) }
    requires fills { IsReadyWithCache heap.now seat.old cache.now }
    ensures { IsReadyWithCache heap.now seat.new cache.now }
{
    if u32::from(i) < heap.shape().fields {
        set(heap, seat, v, i, w);
    }
}

/// Makes an object in one of the variables 0 to 4, with references to the objects of the four others.
fn knot(heap: &Heap, seat: &mut HeapSeat, cache: &mut Cache, n: u32) -> bool
    requires { IsReadyWithCache heap.now seat.old cache.old }
    ensures { IsReadyWithCache heap.now seat.new cache.new }
{
    let v = (n % 5) as u8;
    let made = make(heap, seat, cache, v, n);
    link(heap, seat, cache, v, 0, (v + 4) % 5);
    link(heap, seat, cache, v, 1, (v + 3) % 5);
    link(heap, seat, cache, v, 2, (v + 2) % 5);
    link(heap, seat, cache, v, 3, (v + 1) % 5);
    made
}

/// Fills a block: whether all its cells were free.
fn fill(heap: &Heap, seat: &mut HeapSeat, cache: &mut Cache, first: u32) -> bool
    requires { IsReadyWithCache heap.now seat.old cache.old }
    ensures { IsReadyWithCache heap.now seat.new cache.new }
{
    let mut filled = true;
    for i in 0..BLOCK_CELLS {
        filled = knot(heap, seat, cache, first.wrapping_add(i)) && filled;
    }
    filled
}

fn fill_block(heap: &Heap, seat: &mut HeapSeat, first: u32) -> bool
    requires { HasEachObject heap.now seat.old }
    ensures { HasEachObject heap.now seat.new }
{
    let Some(mut cache) = take(heap, seat) else {
        return false;
    };
    let filled = fill(heap, seat, &mut cache, first);
    retire(heap, seat, cache);
    filled
}

/// Fills all blocks with reachable objects: whether all cells were free.
pub fn fill_all(heap: &Heap, seat: &mut HeapSeat) -> bool
    requires { HasEachObject heap.now seat.old }
    ensures { HasEachObject heap.now seat.new }
{
    for b in 0..heap.shape().cells / BLOCK_CELLS {
        if !fill_block(heap, seat, b * BLOCK_CELLS) {
            return false;
        }
    }
    true
}

/// Makes the variables nil that [`fill_all`] stored in. False if the seat is no mutator between two commands.
pub fn forget_all(heap: &Heap, seat: &mut HeapSeat) -> bool
    requires { HasEachObject heap.now seat.old }
    ensures { HasEachObject heap.now seat.new }
{
    if !is_ready(heap, seat) {
        return false;
    }
    clear(heap, seat, 0);
    clear(heap, seat, 1);
    clear(heap, seat, 2);
    clear(heap, seat, 3);
    clear(heap, seat, 4);
    true
}
