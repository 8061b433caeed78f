//! Packets are taken: to read cells from, to put cells in, or out of the deferred pool.
ghost use Rattle.std.specs.Prelude.{◌<◌, ◌≤◌, ◌+◌, ◌*◌, [], ◌∷◌, length, false, IsTrue, IfSome, IfNone};
ghost use Rattle.mark_core.specs.Held.{has_free_slot};
ghost use Rattle.mark_core.specs.Layout.{pool_words};
ghost use Rattle.mark_core.specs.Numbers.{empty_pool_number, high_pool_number, low_pool_number, word_bits};
ghost use Rattle.gc_table.specs.Seats.{Across, did, state_of, view_of};
ghost use Rattle.packet_pools.specs.OnlyTraced.{OnlyTraced};
ghost use Rattle.packet_pools.specs.Tracing.{IsTracer};
ghost use Rattle.packet_pools.specs.Seeking.{NoDeferred, NoInput, NoOutput, deferred_pools, input_pools, output_pools};
ghost use Rattle.packet_pools.specs.Gains.{FindsNone, Takes, TakesNone};
ghost use Rattle.packet_pools.specs.Outside.{AreNotedOutside, KeepsOutside};
ghost use Rattle.packet_pools.specs.StepBounds.{deferred_steps, had_steps, input_steps, output_steps, pool_steps, spare_steps};
ghost use Rattle.packet_pools.specs.Tried.{NoSpare, spare_pools};

use crate::held::Held;
use crate::seeking::take_any;
use gc_table::{Heap, HeapSeat};
use mark_core::{DEFERRED_POOL, EMPTY_POOL, HIGH_POOL, LOW_POOL};

/// Takes a packet with cells to trace, from the high or else the low pool. The answer is None only if this call missed
/// each packet in both.
pub fn take_input(heap: &Heap, seat: &mut HeapSeat) -> Option<Held>
    requires seat { IsTracer heap.now seat.old }
    requires free { IsTrue (has_free_slot (state_of seat.old).held) }
    ensures seat { IsTracer heap.now seat.new }
    ensures only { Across OnlyTraced seat.old seat.new }
    ensures some { IfSome result (λ h. Across (Takes input_pools h) seat.old seat.new × (0 < h.length)) }
    ensures none { IfNone result (Across (TakesNone (NoInput heap.now.shape) input_pools) seat.old seat.new) }
    ensures outside { IfNone result (Across (KeepsOutside input_pools) seat.old seat.new) }
    ensures noted { IfNone result (IsTrue (state_of seat.old).alone → AreNotedOutside high_pool_number (view_of seat.new) × AreNotedOutside low_pool_number (view_of seat.new)) }
    ensures few { length (did seat.old seat.new) ≤ input_steps heap.now.shape }
{
    match take_any(heap, seat, HIGH_POOL, false) {
        Some(held) => Some(held),
        None => take_any(heap, seat, LOW_POOL, false),
    }
}

/// Takes a packet with deferred cells. The answer is None only if this call missed each.
pub fn take_deferred(heap: &Heap, seat: &mut HeapSeat) -> Option<Held>
    requires seat { IsTracer heap.now seat.old }
    requires free { IsTrue (has_free_slot (state_of seat.old).held) }
    ensures seat { IsTracer heap.now seat.new }
    ensures only { Across OnlyTraced seat.old seat.new }
    ensures some { IfSome result (λ h. Across (Takes deferred_pools h) seat.old seat.new × (0 < h.length)) }
    ensures none { IfNone result (Across (TakesNone (NoDeferred heap.now.shape) deferred_pools) seat.old seat.new) }
    ensures few { length (did seat.old seat.new) ≤ deferred_steps heap.now.shape }
{
    take_any(heap, seat, DEFERRED_POOL, false)
}

fn take_empty(heap: &Heap, seat: &mut HeapSeat) -> Option<Held>
    requires seat { IsTracer heap.now seat.old }
    requires free { IsTrue (has_free_slot (state_of seat.old).held) }
    ensures seat { IsTracer heap.now seat.new }
    ensures only { Across OnlyTraced seat.old seat.new }
    ensures some { IfSome result (λ h. Across (Takes (empty_pool_number ∷ []) h) seat.old seat.new) }
    ensures none { IfNone result (Across (FindsNone heap.now.shape empty_pool_number false 0 (word_bits * pool_words heap.now.shape)) seat.old seat.new) }
    ensures outside { IfNone result (Across (KeepsOutside (empty_pool_number ∷ [])) seat.old seat.new) }
    ensures noted { IfNone result (IsTrue (state_of seat.old).alone → AreNotedOutside empty_pool_number (view_of seat.new)) }
    ensures few { length (did seat.old seat.new) ≤ pool_steps false heap.now.shape + 2 }
{
    heap.reserve(seat);
    match take_any(heap, seat, EMPTY_POOL, false) {
        Some(held) => Some(held),
        None => {
            heap.credit(seat);
            None
        }
    }
}

/// Takes a packet from the empty pool, or else from the low one. More than half of it is free.
pub(crate) fn take_spare(heap: &Heap, seat: &mut HeapSeat) -> Option<Held>
    requires seat { IsTracer heap.now seat.old }
    requires free { IsTrue (has_free_slot (state_of seat.old).held) }
    ensures seat { IsTracer heap.now seat.new }
    ensures only { Across OnlyTraced seat.old seat.new }
    ensures some { IfSome result (λ h. Across (Takes spare_pools h) seat.old seat.new × (2 * h.length < heap.now.shape.entries)) }
    ensures none { IfNone result (Across (TakesNone (NoSpare heap.now.shape) spare_pools) seat.old seat.new) }
    ensures outside { IfNone result (Across (KeepsOutside spare_pools) seat.old seat.new) }
    ensures noted { IfNone result (IsTrue (state_of seat.old).alone → AreNotedOutside empty_pool_number (view_of seat.new) × AreNotedOutside low_pool_number (view_of seat.new)) }
    ensures few { length (did seat.old seat.new) + 1 ≤ spare_steps heap.now.shape + had_steps result }
{
    if let Some(held) = take_empty(heap, seat) {
        return Some(held);
    }
    take_any(heap, seat, LOW_POOL, false)
}

/// Takes a packet with room, from the empty pool, else the low or the high one. The answer is None only if this call
/// missed each packet in all of them.
pub fn take_output(heap: &Heap, seat: &mut HeapSeat) -> Option<Held>
    requires seat { IsTracer heap.now seat.old }
    requires free { IsTrue (has_free_slot (state_of seat.old).held) }
    ensures seat { IsTracer heap.now seat.new }
    ensures only { Across OnlyTraced seat.old seat.new }
    ensures some { IfSome result (λ h. Across (Takes output_pools h) seat.old seat.new × (h.length < heap.now.shape.entries)) }
    ensures none { IfNone result (Across (TakesNone (NoOutput heap.now.shape) output_pools) seat.old seat.new) }
    ensures outside { IfNone result (Across (KeepsOutside output_pools) seat.old seat.new) }
    ensures noted { IfNone result (IsTrue (state_of seat.old).alone → AreNotedOutside empty_pool_number (view_of seat.new) × AreNotedOutside low_pool_number (view_of seat.new)) }
    ensures few { length (did seat.old seat.new) ≤ output_steps heap.now.shape }
{
    if let Some(held) = take_spare(heap, seat) {
        return Some(held);
    }
    take_any(heap, seat, HIGH_POOL, true)
}
