ghost use Rattle.std.specs.Prelude.{◌<◌, IfNone, IfSome};
ghost use Rattle.std.specs.Bool.{OnTrue};
ghost use Rattle.mark_core.specs.Numbers.{section_variables};
ghost use Rattle.gc_table.specs.Seats.{view_of};
ghost use Rattle.mutator_ops.specs.Ready.{IsReady};
ghost use Rattle.test_heaps.specs.Seats.{HasEachObject, IsReadyWithCache};

use crate::checks::is_ready;
use alloc_cache::{Cache, claim};
use gc_table::{Heap, HeapSeat};
use mutator_ops::{clear, create};

/// Reads the season, as a mutator does when it has entered: whether it may store.
pub fn sees_season(heap: &Heap, seat: &mut HeapSeat) -> bool
    requires { HasEachObject heap.now seat.old }
    ensures carries { HasEachObject heap.now seat.new }
    ensures ready { OnTrue result (IsReady (view_of seat.new)) }
{
    if !seat.state().active {
        return false;
    }
    heap.read_season(seat);
    is_ready(heap, seat)
}

/// A block of the seat's own, if it may store and has none.
pub fn take(heap: &Heap, seat: &mut HeapSeat) -> Option<Cache>
    requires { HasEachObject heap.now seat.old }
    ensures some { IfSome result (λ cache. IsReadyWithCache heap.now seat.new cache) }
    ensures none { IfNone result (HasEachObject heap.now seat.new) }
{
    if !sees_season(heap, seat) || seat.state().cache.is_some() {
        return None;
    }
    claim(heap, seat)
}

/// Makes an object with value n in variable v: whether the block had a free cell.
pub fn make(heap: &Heap, seat: &mut HeapSeat, cache: &mut Cache, v: u8, n: u32) -> bool
    requires range { v < section_variables }
    requires fills { IsReadyWithCache heap.now seat.old cache.old }
    ensures { IsReadyWithCache heap.now seat.new cache.new }
{
    seat.state().made < heap.shape().objects && create(heap, seat, cache, v, n).is_some()
}

/// Stores nil in a variable.
pub fn forget(heap: &Heap, seat: &mut HeapSeat, cache: &Cache, v: u8)
    requires range { v < section_variables }
    requires fills { IsReadyWithCache heap.now seat.old cache.now }
    ensures { IsReadyWithCache heap.now seat.new cache.now }
{
    clear(heap, seat, v);
}
