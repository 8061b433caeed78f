//! A packet is taken for the cells that are marked.
ghost use Rattle.std.specs.Prelude.{◌≡◌, is_some, IsTrue, IsFalse, IfSome, IfNone, ◌≤◌, length};
ghost use Rattle.mark_core.specs.Held.{has_free_slot, holds, holds_any};
ghost use Rattle.mark_core.specs.Numbers.{deferred_pool_number};
ghost use Rattle.gc_table.specs.Seats.{Across, did, state_of, view_of};
ghost use Rattle.packet_pools.specs.OnlyTraced.{OnlyTraced};
ghost use Rattle.packet_pools.specs.Outside.{AreNotedOutside};
ghost use Rattle.packet_pools.specs.Tracing.{IsTracer};
ghost use Rattle.packet_pools.specs.Hands.{HoldsPacket, with_packet};
ghost use Rattle.packet_pools.specs.Seeking.{only_moves, output_pools};
ghost use Rattle.card_clean.specs.Taking.{NoPacket};
ghost use Rattle.packet_pools.specs.StepBounds.{any_steps};

use gc_table::{Heap, HeapSeat};
use packet_pools::{Held, take_input, take_output};

/// Takes a packet, with room if there is one. A seat that is alone, holds none and knows that none is deferred gets one.
pub(crate) fn take_some(heap: &Heap, seat: &mut HeapSeat) -> Option<Held>
    requires seat { IsTracer heap.now seat.old }
    requires free { IsTrue (has_free_slot (state_of seat.old).held) }
    ensures seat { IsTracer heap.now seat.new }
    ensures only { Across OnlyTraced seat.old seat.new }
    ensures moves { IsTrue (only_moves output_pools (did seat.old seat.new)) }
    ensures some { IfSome result (λ h. IsFalse (holds (state_of seat.old).held h.packet) × HoldsPacket h (view_of seat.new) × (state_of seat.new ≡ record (state_of seat.old) { held = with_packet (state_of seat.old).held h.packet h.length })) }
    ensures none { IfNone result ((state_of seat.new ≡ state_of seat.old) × NoPacket heap.now.shape (did seat.old seat.new)) }
    ensures pooled { IsTrue (state_of seat.old).alone → IsFalse (holds_any (state_of seat.old).held) → AreNotedOutside deferred_pool_number (view_of seat.old) → IsTrue (is_some result) }
    ensures few { length (did seat.old seat.new) ≤ any_steps heap.now.shape }
{
    match take_output(heap, seat) {
        Some(held) => Some(held),
        None => take_input(heap, seat),
    }
}
