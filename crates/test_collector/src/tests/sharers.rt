ghost use Rattle.std.specs.Prelude.{◌<◌, IfNone, IfSome};
ghost use Rattle.std.specs.Bool.{OnTrue};
ghost use Rattle.mark_core.specs.Numbers.{section_variables};
ghost use Rattle.gc_table.specs.Seats.{view_of};
ghost use Rattle.mutator_ops.specs.Sharing.{SharesReady};
ghost use Rattle.test_collector.specs.Seats.{IsSharerWithCache};
ghost use Rattle.test_heaps.specs.Seats.{HasEachObject};

use super::checks::may_call;
use alloc_cache::{Cache, claim, retire};
use cache_refills::refill;
use gc_cycle::Refill;
use gc_table::{Heap, HeapSeat};
use mutator_ops::{flush_roots, share_create};
use std::sync::Wait;
use test_heaps::{has_making, has_seen_phase, may_mutate, work_in_hand};

fn is_sharer(heap: &Heap, seat: &HeapSeat) -> bool
    requires { HasEachObject heap.now seat.now }
    ensures { OnTrue result (SharesReady (view_of seat.now)) }
{
    let s = seat.state();
    let shape = heap.shape();
    shape.sharing
        && (may_mutate(seat) && has_seen_phase(seat) && s.owes.is_none())
        && !work_in_hand(shape.fields, seat)
        && !has_making(seat)
        && s.got == 0
}

/// Reads the season: whether the seat may act on shared objects.
pub fn may_share(heap: &Heap, seat: &mut HeapSeat) -> bool
    requires { HasEachObject heap.now seat.old }
    ensures carries { HasEachObject heap.now seat.new }
    ensures ready { OnTrue result (SharesReady (view_of seat.new)) }
{
    if !seat.state().active {
        return false;
    }
    heap.read_season(seat);
    is_sharer(heap, seat)
}

/// A block of the seat's own, if it may act on shared objects and has none.
pub fn takes_block(heap: &Heap, seat: &mut HeapSeat) -> Option<Cache>
    requires { HasEachObject heap.now seat.old }
    ensures some { IfSome result (λ cache. IsSharerWithCache heap.now seat.new cache) }
    ensures none { IfNone result (HasEachObject heap.now seat.new) }
{
    if !may_share(heap, seat) || seat.state().cache.is_some() {
        return None;
    }
    claim(heap, seat)
}

/// A cache for a mutator that has done no command.
pub fn refills_sharer<R: Wait>(rt: &R, heap: &Heap, seat: &mut HeapSeat) -> Option<Cache>
    requires { HasEachObject heap.now seat.old }
    ensures some { IfSome result (λ cache. IsSharerWithCache heap.now seat.new cache) }
    ensures none { IfNone result (HasEachObject heap.now seat.new) }
{
    if !may_call(heap, seat) || seat.state().cache.is_some() {
        return None;
    }
    match refill(rt, heap, seat, 0) {
        Refill::Full => None,
        Refill::Cache(cache, _paid) => {
            heap.read_season(seat);
            if is_sharer(heap, seat) {
                return Some(cache);
            }
            retire(heap, seat, cache);
            None
        }
    }
}

/// Makes an object with value n in variable v: whether the block had a free cell.
pub fn makes(heap: &Heap, seat: &mut HeapSeat, cache: &mut Cache, v: u8, n: u32) -> bool
    requires range { v < section_variables }
    requires fills { IsSharerWithCache heap.now seat.old cache.old }
    ensures { IsSharerWithCache heap.now seat.new cache.new }
{
    seat.state().made < heap.shape().objects && share_create(heap, seat, cache, v, n).is_some()
}

/// Stores the roots that lag, if the seat may act on shared objects.
pub fn flushes(heap: &Heap, seat: &mut HeapSeat) -> bool
    requires { HasEachObject heap.now seat.old }
    ensures { HasEachObject heap.now seat.new }
{
    if !may_share(heap, seat) || seat.state().lags >= 4_294_967_296 {
        return false;
    }
    flush_roots(heap, seat);
    true
}
