//! Deferred cells are traced again.
ghost use Rattle.std.specs.Prelude.{◌≡◌, ◌<◌, ◌≤◌, ◌+◌, ◌*◌, ◌/◌, if◌then◌else◌, ◌-◌, length, IsTrue};
ghost use Rattle.mark_core.specs.Numbers.{deferred_pool_number, word_bits};
ghost use Rattle.gc_table.specs.Seats.{Across, did, state_of, view_of};
ghost use Rattle.packet_pools.specs.OnlyTraced.{OnlyTraced};
ghost use Rattle.packet_pools.specs.Outside.{AreNotedOutside};
ghost use Rattle.packet_pools.specs.Tracing.{IsTracer};
ghost use Rattle.tracer.specs.Hands.{IsIdle};
ghost use Rattle.tracer.specs.Recycling.{Recycled, Recycles};
ghost use Rattle.tracer.specs.StepBounds.{packet_steps, recycle_steps};

use gc_table::{Heap, HeapSeat};
use mark_core::{DEFERRED_POOL, WORD_BITS, has_bit};
use packet_pools::{give, take_deferred_at};

fn recycle(heap: &Heap, seat: &mut HeapSeat, p: u32) -> bool
    requires seat { IsTracer heap.now seat.old }
    requires idle { IsIdle (view_of seat.old) }
    requires packet { p < heap.now.shape.packets }
    ensures seat { IsTracer heap.now seat.new }
    ensures only { Across OnlyTraced seat.old seat.new }
    ensures state { state_of seat.new ≡ state_of seat.old }
    ensures recycles { Recycles p (p + 1) (if result then 1 else 0) (did seat.old seat.new) }
    ensures few { length (did seat.old seat.new) ≤ packet_steps }
{
    let word = heap.look(seat, DEFERRED_POOL, p / WORD_BITS);
    if !has_bit(word, p % WORD_BITS) {
        return false;
    }
    let Some(held) = take_deferred_at(heap, seat, p) else {
        return false;
    };
    give(heap, seat, held, false);
    true
}

fn recycle_between(heap: &Heap, seat: &mut HeapSeat, first: u32, end: u32) -> u32
    requires seat { IsTracer heap.now seat.old }
    requires idle { IsIdle (view_of seat.old) }
    requires packets { (first ≤ end) × (end ≤ heap.now.shape.packets) }
    ensures seat { IsTracer heap.now seat.new }
    ensures only { Across OnlyTraced seat.old seat.new }
    ensures state { state_of seat.new ≡ state_of seat.old }
    ensures most { result + first ≤ end }
    ensures recycles { Recycles first end result (did seat.old seat.new) }
    ensures few { length (did seat.old seat.new) ≤ packet_steps * (end - first) }
{
    let mut moved = 0;
    for p in first..end {
        moved += u32::from(recycle(heap, seat, p));
    }
    moved
}

fn recycle_in_word(heap: &Heap, seat: &mut HeapSeat, g: u32, end: u32) -> u32
    requires seat { IsTracer heap.now seat.old }
    requires idle { IsIdle (view_of seat.old) }
    requires packets { (word_bits * g < end) × (end ≤ word_bits * g + word_bits) × (end ≤ heap.now.shape.packets) }
    ensures seat { IsTracer heap.now seat.new }
    ensures only { Across OnlyTraced seat.old seat.new }
    ensures state { state_of seat.new ≡ state_of seat.old }
    ensures most { result + word_bits * g ≤ end }
    ensures recycles { Recycles (word_bits * g) end result (did seat.old seat.new) }
    ensures few { length (did seat.old seat.new) ≤ 1 + packet_steps * (end - word_bits * g) }
{
    if heap.look(seat, DEFERRED_POOL, g) == 0 {
        return 0;
    }
    recycle_between(heap, seat, WORD_BITS * g, end)
}

fn recycle_words(heap: &Heap, seat: &mut HeapSeat) -> u32
    requires seat { IsTracer heap.now seat.old }
    requires idle { IsIdle (view_of seat.old) }
    ensures seat { IsTracer heap.now seat.new }
    ensures only { Across OnlyTraced seat.old seat.new }
    ensures state { state_of seat.new ≡ state_of seat.old }
    ensures most { result ≤ word_bits * (heap.now.shape.packets / word_bits) }
    ensures recycles { Recycles 0 (word_bits * (heap.now.shape.packets / word_bits)) result (did seat.old seat.new) }
    ensures few { length (did seat.old seat.new) ≤ heap.now.shape.packets / word_bits + packet_steps * (word_bits * (heap.now.shape.packets / word_bits)) }
{
    let mut moved = 0;
    for g in 0..heap.shape().packets / WORD_BITS {
        moved += recycle_in_word(heap, seat, g, WORD_BITS * g + WORD_BITS);
    }
    moved
}

/// Moves the deferred packets to the pools of their lengths, where tracers find them: how many it moved, each at most
/// once. A seat that is alone knows then that no packet is deferred.
///
/// Cells that still aren't published are deferred again, so a caller publishes first, or waits for others to.
pub fn recycle_deferred(heap: &Heap, seat: &mut HeapSeat) -> u32
    requires seat { IsTracer heap.now seat.old }
    requires idle { IsIdle (view_of seat.old) }
    ensures seat { IsTracer heap.now seat.new }
    ensures only { Across OnlyTraced seat.old seat.new }
    ensures state { state_of seat.new ≡ state_of seat.old }
    ensures recycled { Recycled heap.now.shape result (did seat.old seat.new) }
    ensures outside { IsTrue (state_of seat.old).alone → AreNotedOutside deferred_pool_number (view_of seat.new) }
    ensures few { length (did seat.old seat.new) ≤ recycle_steps heap.now.shape }
{
    let moved = recycle_words(heap, seat);
    let packets = heap.shape().packets;
    if packets % WORD_BITS == 0 {
        return moved;
    }
    moved + recycle_in_word(heap, seat, packets / WORD_BITS, packets)
}
