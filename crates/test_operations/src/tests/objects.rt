ghost use Rattle.std.specs.Prelude.{◌<◌, IfSome};
ghost use Rattle.mark_core.specs.Numbers.{section_variables};
ghost use Rattle.test_operations.specs.Seats.{IsReadyMutator};
ghost use Rattle.test_heaps.specs.Seats.{IsReadyWithCache};

use alloc_cache::{Cache, claim, publish as publish_cells, retire};
use gc_table::{Heap, HeapSeat};
use mutator_ops::set;
use test_heaps::{forget, make};

/// The seat's block.
pub fn take(heap: &Heap, seat: &mut HeapSeat) -> Option<Cache>
    requires { IsReadyMutator heap.now seat.old }
    ensures { IfSome result (λ cache. IsReadyWithCache heap.now seat.new cache) }
{
    let s = seat.state();
    if s.cache.is_some() || s.section.is_none() || !s.active {
        return None;
    }
    claim(heap, seat)
}

/// Stores variable w in field i of variable v's object.
pub fn link(heap: &Heap, seat: &mut HeapSeat, cache: &Cache, v: u8, i: u8, w: u8)
    requires range { (v < section_variables) × (i < heap.now.shape.fields) × (w < section_variables) }
    requires fills { IsReadyWithCache heap.now seat.old cache.now }
    ensures { IsReadyWithCache heap.now seat.new cache.now }
{
    set(heap, seat, v, i, w);
}

/// Publishes what was made.
pub fn publish(heap: &Heap, seat: &mut HeapSeat, cache: &mut Cache)
    requires { IsReadyWithCache heap.now seat.old cache.old }
    ensures { IsReadyWithCache heap.now seat.new cache.new }
{
    publish_cells(heap, seat, cache);
}

/// Publishes them, and gives the block up.
pub fn gives_up(heap: &Heap, seat: &mut HeapSeat, cache: Cache)
    requires { IsReadyWithCache heap.now seat.old cache }
    ensures { IsReadyMutator heap.now seat.new }
{
    retire(heap, seat, cache);
}

/// An object in variable 0, whose fields 0 and 1 refer to two more that no variable names.
pub fn make_three(heap: &Heap, seat: &mut HeapSeat, cache: &mut Cache)
    requires fields { 1 < heap.now.shape.fields }
    requires fills { IsReadyWithCache heap.now seat.old cache.old }
    ensures { IsReadyWithCache heap.now seat.new cache.new }
{
    make(heap, seat, cache, 0, 7);
    make(heap, seat, cache, 1, 8);
    make(heap, seat, cache, 2, 9);
    link(heap, seat, cache, 0, 0, 1);
    link(heap, seat, cache, 0, 1, 2);
    forget(heap, seat, cache, 1);
    forget(heap, seat, cache, 2);
}
