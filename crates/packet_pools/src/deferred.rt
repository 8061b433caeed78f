//! One packet is taken out of the deferred pool.
ghost use Rattle.std.specs.Prelude.{◌≡◌, ◌<◌, [], ◌∷◌, false, IsTrue, IsFalse, IfSome, IfNone};
ghost use Rattle.mark_core.specs.Held.{has_free_slot, holds};
ghost use Rattle.mark_core.specs.Numbers.{deferred_pool_number};
ghost use Rattle.mark_core.specs.declared.kinds.Step.TheVariants.{ReadLength, Take};
ghost use Rattle.gc_table.specs.Seats.{Across, did, state_of};
ghost use Rattle.packet_pools.specs.OnlyTraced.{OnlyTraced};
ghost use Rattle.gc_table.specs.Log.{steps_of};
ghost use Rattle.packet_pools.specs.Tracing.{IsTracer};
ghost use Rattle.packet_pools.specs.Seeking.{was_lost};
ghost use Rattle.packet_pools.specs.Gains.{Gains};

use crate::held::Held;
use crate::lengths::read_length;
use gc_table::{Heap, HeapSeat};
use mark_core::DEFERRED_POOL;

/// Takes packet p out of the deferred pool. The answer is None if it isn't there any more.
pub fn take_deferred_at(heap: &Heap, seat: &mut HeapSeat, p: u32) -> Option<Held>
    requires seat { IsTracer heap.now seat.old }
    requires free { IsTrue (has_free_slot (state_of seat.old).held) }
    requires packet { (p < heap.now.shape.packets) × IsFalse (holds (state_of seat.old).held p) }
    ensures seat { IsTracer heap.now seat.new }
    ensures only { Across OnlyTraced seat.old seat.new }
    ensures some { IfSome result (λ h. Across (Gains deferred_pool_number false h) seat.old seat.new × (h.packet ≡ p) × (steps_of (did seat.old seat.new) ≡ Take deferred_pool_number p ∷ ReadLength p ∷ [])) }
    ensures none { IfNone result ((state_of seat.new ≡ state_of seat.old) × IsTrue (was_lost deferred_pool_number p (did seat.old seat.new)) × (steps_of (did seat.old seat.new) ≡ Take deferred_pool_number p ∷ [])) }
{
    if !heap.take(seat, DEFERRED_POOL, p) {
        return None;
    }
    let length = read_length(heap, seat, p);
    Some(Held { packet: p, length })
}
