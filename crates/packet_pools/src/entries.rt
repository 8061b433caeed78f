//! The cells in a packet.
ghost use Rattle.std.specs.Prelude.{◌≡◌, ◌<◌, ◌+◌, ◌-◌, IsTrue, IsFalse, OnOk, OnErr, IfSome, IfNone};
ghost use Rattle.mark_core.specs.Bits.{cell_of};
ghost use Rattle.mark_core.specs.Seats.{work_in_hand};
ghost use Rattle.mark_core.specs.Steps.PacketSteps.{may_push};
ghost use Rattle.mark_core.specs.declared.kinds.Step.TheVariants.{Pop, Push};
ghost use Rattle.gc_table.specs.Seats.{Across, Answered, state_of, Stored, view_of};
ghost use Rattle.packet_pools.specs.OnlyTraced.{OnlyTraced};
ghost use Rattle.packet_pools.specs.Tracing.{IsTracer};
ghost use Rattle.packet_pools.specs.Hands.{HoldsPacket};

use crate::held::{Held, PacketFull};
use gc_table::{Heap, HeapSeat};
use mark_core::Cell;

/// Puts in a cell that the seat marked, or that it popped and saw unpublished. A full packet is refused, and nothing
/// changes.
#[inline(always)]
pub fn push(heap: &Heap, seat: &mut HeapSeat, held: &mut Held, cell: Cell) -> Result<(), PacketFull>
    requires seat { IsTracer heap.now seat.old }
    requires held { HoldsPacket held.old (view_of seat.old) }
    requires cell { IsTrue (may_push (state_of seat.old) cell) }
    ensures seat { IsTracer heap.now seat.new }
    ensures only { Across OnlyTraced seat.old seat.new }
    ensures held { HoldsPacket held.new (view_of seat.new) }
    ensures pushed { OnOk result ((held.old.length < heap.now.shape.entries) × (held.new ≡ record held.old { length = held.old.length + 1 }) × Across (Stored (Push held.old.packet cell)) seat.old seat.new) }
    ensures full { OnErr result ((held.old.length ≡ heap.now.shape.entries) × (held.new ≡ held.old) × (view_of seat.new ≡ view_of seat.old)) }
{
    if held.length == heap.shape().entries {
        return Err(PacketFull);
    }
    heap.push_at(seat, held.packet, held.length, cell);
    held.length += 1;
    Ok(())
}

/// Takes the cell that was put in last into the seat's hand. The answer is None if the packet is empty, and nothing
/// changes.
#[inline(always)]
pub fn pop(heap: &Heap, seat: &mut HeapSeat, held: &mut Held) -> Option<Cell>
    requires seat { IsTracer heap.now seat.old }
    requires held { HoldsPacket held.old (view_of seat.old) }
    requires work { IsFalse (work_in_hand heap.now.shape.fields (state_of seat.old)) }
    ensures seat { IsTracer heap.now seat.new }
    ensures only { Across OnlyTraced seat.old seat.new }
    ensures held { HoldsPacket held.new (view_of seat.new) }
    ensures popped { IfSome result (λ cell. (0 < held.old.length) × (held.new ≡ record held.old { length = held.old.length - 1 }) × Across (Answered (Pop held.old.packet) (λ n. cell ≡ cell_of n)) seat.old seat.new) }
    ensures empty { IfNone result ((held.old.length ≡ 0) × (held.new ≡ held.old) × (view_of seat.new ≡ view_of seat.old)) }
{
    if held.length == 0 {
        return None;
    }
    let cell = heap.pop_at(seat, held.packet, held.length);
    held.length -= 1;
    Some(cell)
}
