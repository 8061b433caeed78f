//! A cache for a mutator that has stopped the world.
ghost use Rattle.std.specs.Prelude.{[], ◌++◌, ◌⊎◌, List, None, Some, IsTrue};
ghost use Rattle.std.specs.Bool.{OnFalse};
ghost use Rattle.mark_core.specs.declared.kinds.Phase.TheVariants.{Full, Idle, Marking};
ghost use Rattle.gc_table.specs.Log.{Only};
ghost use Rattle.gc_table.specs.Rule.{KnowsFull};
ghost use Rattle.gc_table.specs.Seats.{Across, did, Sits, state_of, view_of};
ghost use Rattle.gc_table.specs.declared.view.Entry.{Entry};
ghost use Rattle.gc_cycle.specs.Collecting.{HoldsWorld};
ghost use Rattle.gc_cycle.specs.Cycles.{collects, may_fill, sees_free_cell};
ghost use Rattle.packet_pools.specs.Seeking.{some_event};
ghost use Rattle.gc_cycle.specs.Events.{each_after, never, since_or_all};
ghost use Rattle.gc_cycle.specs.Finishing.{IsAloneIn, IsPart};
ghost use Rattle.cache_refills.specs.InStops.{begins_none};
ghost use Rattle.cache_refills.specs.Refilling.{ClaimsAlone, HasMissed, RestsAlone, SeesFull};
ghost use Rattle.gc_cycle.specs.Sorts.{ends_cycle, moves_to, raises_flag};
ghost use Rattle.cache_refills.specs.Notices.{IsTold};
ghost use Rattle.cache_refills.specs.Stops.{may_end};
ghost use Rattle.cache_refills.specs.Telling.{IsUntold, TellsStops};
ghost use Rattle.gc_cycle.specs.Statistics.{ChangesNumbers, leaves_numbers, taken};

use crate::watching::Watch;
use alloc_cache::{Cache, claim};
use gc_cycle::{finish_cycle, precise};
use gc_table::{Heap, HeapSeat};
use mark_core::{BLOCK_CELLS, Phase};
use std::sync::Wait;

/// None: the heap is full.
pub(crate) fn claim_in_stop<R: Wait, W: Watch>(
    rt: &R,
    heap: &Heap,
    seat: &mut HeapSeat,
    watch: &mut W,
) -> Option<Cache>
    requires seat { Sits heap.now seat.old }
    requires stopped { HoldsWorld (view_of seat.old) }
    ensures seat { Sits heap.now seat.new }
    ensures claims { Across (ClaimsAlone result) seat.old seat.new }
    ensures numbers { Across (ChangesNumbers (taken result)) seat.old seat.new }
    ensures full { KnowsFull (view_of seat.old) → KnowsFull (view_of seat.new) }
    ensures unbegun { IsTrue (begins_none (did seat.old seat.new)) }
    ensures ends { IsTrue (some_event ends_cycle (did seat.old seat.new)) ⊎ KnowsFull (view_of seat.new) }
    ensures cycles { (before : List Entry) → IsTrue (some_event raises_flag (since_or_all ends_cycle before)) → IsTrue (each_after (may_end heap.now.shape) ends_cycle before (did seat.old seat.new)) }
    ensures missed { HasMissed heap.now.shape result (did seat.old seat.new) (view_of seat.new) }
    ensures fills { IsTrue (each_after (may_fill heap.now.shape) (moves_to Full) [] (did seat.old seat.new)) }
    ensures told { IsTold W.hears (λ ns. Across (TellsStops ns) seat.old seat.new) watch.old watch.new }
{
    match seat.state().phase_seen {
        Some(Phase::Full) => None,
        Some(Phase::Marking) => {
            watch.finishes(finish_cycle(rt, heap, seat));
            claim_or_collect(rt, heap, seat, watch)
        }
        _ => {
            watch.collects(precise(rt, heap, seat));
            claim_or_fill(heap, seat)
        }
    }
}

fn claim_or_collect<R: Wait, W: Watch>(
    rt: &R,
    heap: &Heap,
    seat: &mut HeapSeat,
    watch: &mut W,
) -> Option<Cache>
    requires seat { Sits heap.now seat.old }
    requires alone { IsAloneIn Idle (view_of seat.old) × RestsAlone (view_of seat.old) }
    ensures seat { Sits heap.now seat.new }
    ensures claims { Across (ClaimsAlone result) seat.old seat.new }
    ensures numbers { Across (ChangesNumbers (taken result)) seat.old seat.new }
    ensures unbegun { IsTrue (begins_none (did seat.old seat.new)) }
    ensures cycles { (before : List Entry) → IsTrue (each_after (may_end heap.now.shape) ends_cycle before (did seat.old seat.new)) }
    ensures missed { HasMissed heap.now.shape result (did seat.old seat.new) (view_of seat.new) }
    ensures fills { IsTrue (each_after (may_fill heap.now.shape) (moves_to Full) [] (did seat.old seat.new)) }
    ensures told { IsTold W.hears (λ ns. Across (TellsStops ns) seat.old seat.new) watch.old watch.new }
{
    if let Some(cache) = claim(heap, seat) {
        return Some(cache);
    }
    watch.collects(precise(rt, heap, seat));
    claim_or_fill(heap, seat)
}

fn claim_or_fill(heap: &Heap, seat: &mut HeapSeat) -> Option<Cache>
    requires seat { Sits heap.now seat.old }
    requires alone { IsAloneIn Idle (view_of seat.old) × RestsAlone (view_of seat.old) }
    requires exact { IsTrue (state_of seat.old).exact }
    ensures seat { Sits heap.now seat.new }
    ensures claims { Across (ClaimsAlone result) seat.old seat.new }
    ensures numbers { Across (ChangesNumbers (taken result)) seat.old seat.new }
    ensures unbegun { IsTrue (begins_none (did seat.old seat.new)) }
    ensures unended { IsTrue (never ends_cycle (did seat.old seat.new)) }
    ensures untold { Across IsUntold seat.old seat.new }
    ensures missed { (before : List Entry) → IsTrue (collects before) → HasMissed heap.now.shape result (before ++ did seat.old seat.new) (view_of seat.new) }
    ensures fills { (before : List Entry) → IsTrue (collects before) → IsTrue (each_after (may_fill heap.now.shape) (moves_to Full) before (did seat.old seat.new)) }
{
    if all_allocated(heap, seat) {
        heap.store_named(seat);
        heap.store_phase(seat, Phase::Full);
        return None;
    }
    claim(heap, seat)
}

fn all_allocated(heap: &Heap, seat: &mut HeapSeat) -> bool
    requires seat { Sits heap.now seat.old }
    requires alone { IsAloneIn Idle (view_of seat.old) }
    ensures seat { Sits heap.now seat.new }
    ensures part { Across (IsPart Idle) seat.old seat.new }
    ensures numbers { Across (Only leaves_numbers) seat.old seat.new }
    ensures full { IsTrue result → Across (SeesFull heap.now.shape) seat.old seat.new }
    ensures free { OnFalse result (IsTrue (sees_free_cell heap.now.shape (did seat.old seat.new))) }
{
    for b in 0..heap.shape().cells / BLOCK_CELLS {
        if heap.read_alloc(seat, b) != u64::MAX {
            return false;
        }
    }
    true
}
