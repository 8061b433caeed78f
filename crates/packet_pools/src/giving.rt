//! Packets go back to a pool.
ghost use Rattle.std.specs.Prelude.{◌≡◌, ◌<◌, ◌==◌, [], ◌∷◌, ◌++◌, if◌then◌else◌, IsTrue};
ghost use Rattle.mark_core.specs.Held.{drop_packet, holds_another};
ghost use Rattle.mark_core.specs.Seats.{work_in_hand};
ghost use Rattle.mark_core.specs.declared.kinds.Step.TheVariants.{Credit, Give, StoreLength};
ghost use Rattle.gc_table.specs.Seats.{Across, did, state_of, view_of};
ghost use Rattle.packet_pools.specs.OnlyTraced.{OnlyTraced};
ghost use Rattle.gc_table.specs.Log.{steps_of};
ghost use Rattle.packet_pools.specs.Tracing.{IsTracer};
ghost use Rattle.packet_pools.specs.Hands.{HoldsPacket};
ghost use Rattle.packet_pools.specs.Outside.{KeepsOutside};
ghost use Rattle.mark_core.specs.Steps.PacketSteps.{pool_for};

use crate::held::Held;
use gc_table::{Heap, HeapSeat};

/// Returns the packet to the pool of its length, or to the deferred pool. A deferred packet has an entry, and a seat
/// with work in hand keeps another packet.
pub fn give(heap: &Heap, seat: &mut HeapSeat, held: Held, deferred: bool)
    requires seat { IsTracer heap.now seat.old }
    requires held { HoldsPacket held (view_of seat.old) }
    requires deferred { IsTrue deferred → 0 < held.length }
    requires work { IsTrue (work_in_hand heap.now.shape.fields (state_of seat.old)) → IsTrue (holds_another (state_of seat.old).held held.packet) }
    ensures seat { IsTracer heap.now seat.new }
    ensures only { Across OnlyTraced seat.old seat.new }
    ensures outside { Across (KeepsOutside (pool_for heap.now.shape held.length deferred ∷ [])) seat.old seat.new }
    ensures state { state_of seat.new ≡ record (state_of seat.old) { held = drop_packet (state_of seat.old).held held.packet } }
    ensures steps { steps_of (did seat.old seat.new) ≡ StoreLength held.packet ∷ Give held.packet deferred ∷ (if held.length == 0 then Credit ∷ [] else []) }
{
    let Held { packet, length } = held;
    heap.store_length(seat, packet);
    heap.give(seat, packet, deferred);
    if length == 0 {
        heap.credit(seat);
    }
}
