//! Tracing, and what waits to be traced.
ghost use Rattle.std.specs.Prelude.{◌<◌, ◌==◌, ◌≡◌, ◌≤◌, ◌+◌, IsTrue, IsFalse, length};
ghost use Rattle.mark_core.specs.Numbers.{deferred_pool_number, empty_offset};
ghost use Rattle.mark_core.specs.declared.kinds.Step.TheVariants.{ReadCount};
ghost use Rattle.gc_table.specs.Seats.{Across, Answered, did, Sits, state_of, view_of};
ghost use Rattle.packet_pools.specs.Seeking.{some_event};
ghost use Rattle.packet_pools.specs.Outside.{AreNotedOutside};
ghost use Rattle.packet_pools.specs.Tracing.{traces};
ghost use Rattle.mark_core.specs.declared.kinds.Phase.TheVariants.{Drain};
ghost use Rattle.gc_table.specs.Running.{Alone};
ghost use Rattle.packet_pools.specs.Counts.{count_of, dirties, marks_white, pushes};
ghost use Rattle.tracer.specs.Causes.{NotesNoInput};
ghost use Rattle.tracer.specs.Deferral.{Defers};
ghost use Rattle.tracer.specs.Recycling.{Recycled};
ghost use Rattle.tracer.specs.Tally.{Tally};
ghost use Rattle.tracer.specs.StepBounds.{recycle_steps, trace_steps};
ghost use Rattle.card_clean.specs.Leaving.{rescanned_in};
ghost use Rattle.gc_cycle.specs.CardLooks.{looks_at_card};
ghost use Rattle.gc_cycle.specs.Events.{never};
ghost use Rattle.gc_cycle.specs.Lower.{EndsTrace, HasTraced};
ghost use Rattle.gc_cycle.specs.Sorts.{sees_all_empty as says_all_empty, draws_or_clears, passes_card, pops, reads_counter, reads_pace, reads_root};
ghost use Rattle.gc_cycle.specs.Standing.{is_at_rest};

use gc_table::{Heap, HeapSeat};
use tracer::Traced;

/// Traces at most `quota` objects.
pub fn trace(heap: &Heap, seat: &mut HeapSeat, quota: u32) -> Traced
    requires seat { Sits heap.now seat.old × IsTrue (traces (view_of seat.old)) }
    requires rest { IsTrue (is_at_rest heap.now.shape (state_of seat.old)) }
    ensures seat { Sits heap.now seat.new }
    ensures traced { Across HasTraced seat.old seat.new }
    ensures ends { Across (EndsTrace quota result) seat.old seat.new }
    ensures most { result.done ≤ quota }
    ensures tally { Across (Tally result.done result.deferred result.overflowed) seat.old seat.new }
    ensures undeferred { IsFalse (state_of seat.old).active → result.deferred ≡ 0 }
    ensures deferral { Across Defers seat.old seat.new }
    ensures noted { 0 < quota → result.done ≡ 0 → Across NotesNoInput seat.old seat.new }
    ensures spills { Alone Drain (view_of seat.old) → IsFalse (state_of seat.old).active → count_of pushes (did seat.old seat.new) + count_of dirties (did seat.old seat.new) ≤ count_of marks_white (did seat.old seat.new) }
    ensures rescanned { rescanned_in (view_of seat.old) (did seat.old seat.new) ≡ 0 }
    ensures uncleaned { IsTrue (never draws_or_clears (did seat.old seat.new)) }
    ensures unrooted { IsTrue (never reads_root (did seat.old seat.new)) }
    ensures unread { IsTrue (never reads_pace (did seat.old seat.new)) }
    ensures uncounted { IsTrue (never reads_counter (did seat.old seat.new)) }
    ensures unlooked { IsTrue (never looks_at_card (did seat.old seat.new)) }
    ensures few { length (did seat.old seat.new) ≤ trace_steps result.done heap.now.shape }
{
    tracer::trace(heap, seat, quota)
}

/// Takes the deferred packets back into their pools: how many.
pub fn recycle_deferred(heap: &Heap, seat: &mut HeapSeat) -> u32
    requires seat { Sits heap.now seat.old × IsTrue (traces (view_of seat.old)) }
    requires rest { IsTrue (is_at_rest heap.now.shape (state_of seat.old)) }
    ensures seat { Sits heap.now seat.new }
    ensures recycled { Recycled heap.now.shape result (did seat.old seat.new) }
    ensures outside { IsTrue (state_of seat.old).alone → AreNotedOutside deferred_pool_number (view_of seat.new) }
    ensures traced { Across HasTraced seat.old seat.new }
    ensures rescanned { rescanned_in (view_of seat.old) (did seat.old seat.new) ≡ 0 }
    ensures uncleaned { IsTrue (never draws_or_clears (did seat.old seat.new)) }
    ensures unpopped { IsTrue (never pops (did seat.old seat.new)) }
    ensures unrooted { IsTrue (never reads_root (did seat.old seat.new)) }
    ensures unread { IsTrue (never reads_pace (did seat.old seat.new)) }
    ensures unlooked { IsTrue (never looks_at_card (did seat.old seat.new)) }
    ensures few { length (did seat.old seat.new) ≤ recycle_steps heap.now.shape }
{
    tracer::recycle_deferred(heap, seat)
}

/// Whether no packet with a cell shows in a pool.
pub(crate) fn lacks_work(heap: &Heap, seat: &mut HeapSeat) -> bool
    requires seat { Sits heap.now seat.old × IsTrue (traces (view_of seat.old)) }
    requires rest { IsTrue (is_at_rest heap.now.shape (state_of seat.old)) }
    ensures seat { Sits heap.now seat.new }
    ensures traced { Across HasTraced seat.old seat.new }
    ensures rescanned { rescanned_in (view_of seat.old) (did seat.old seat.new) ≡ 0 }
    ensures unpassed { IsTrue (never passes_card (did seat.old seat.new)) }
    ensures unpopped { IsTrue (never pops (did seat.old seat.new)) }
{
    tracer::lacks_work(heap, seat)
}

/// Whether the count of empty packets says all: then nothing is left to trace.
pub(crate) fn sees_all_empty(heap: &Heap, seat: &mut HeapSeat) -> bool
    requires seat { Sits heap.now seat.old }
    requires rest { IsTrue (is_at_rest heap.now.shape (state_of seat.old)) }
    ensures seat { Sits heap.now seat.new }
    ensures traced { Across HasTraced seat.old seat.new }
    ensures rescanned { rescanned_in (view_of seat.old) (did seat.old seat.new) ≡ 0 }
    ensures unpassed { IsTrue (never passes_card (did seat.old seat.new)) }
    ensures unpopped { IsTrue (never pops (did seat.old seat.new)) }
    ensures empty { IsTrue result → IsTrue (some_event (says_all_empty (empty_offset + heap.now.shape.packets)) (did seat.old seat.new)) }
    ensures looks { Across (Answered ReadCount (λ n. result ≡ (n == empty_offset + heap.now.shape.packets))) seat.old seat.new }
{
    packet_pools::all_empty(heap, seat)
}
