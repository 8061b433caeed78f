//! Whether there is anything left to trace.
ghost use Rattle.std.specs.Prelude.{◌≡◌, ◌+◌, ◌==◌, IsTrue};
ghost use Rattle.mark_core.specs.Numbers.{empty_offset};
ghost use Rattle.mark_core.specs.declared.kinds.Step.TheVariants.{ReadCount};
ghost use Rattle.gc_table.specs.Seats.{Across, Answered, Sits, state_of};
ghost use Rattle.packet_pools.specs.OnlyTraced.{OnlyTraced};
ghost use Rattle.packet_pools.specs.Quiet.{IsQuietAt};

use gc_table::{Heap, HeapSeat};
use mark_core::EMPTY_OFFSET;

/// Whether the count of empty packets says all. If so, no packet and no seat had work at that step. Any seat may ask.
pub fn all_empty(heap: &Heap, seat: &mut HeapSeat) -> bool
    requires { Sits heap.now seat.old }
    ensures seat { Sits heap.now seat.new }
    ensures only { Across OnlyTraced seat.old seat.new }
    ensures state { state_of seat.new ≡ state_of seat.old }
    ensures count { Across (Answered ReadCount (λ n. result ≡ (n == empty_offset + heap.now.shape.packets))) seat.old seat.new }
    ensures quiet { IsTrue result → IsQuietAt heap.now.shape (empty_offset + heap.now.shape.packets) }
{
    heap.read_count(seat) == EMPTY_OFFSET + u64::from(heap.shape().packets)
}
