//! A cell that was loaded is marked, and goes into a packet.
ghost use Rattle.std.specs.Prelude.{◌≡◌, ◌≤◌, ◌+◌, [], ◌∷◌, length, if◌then◌else◌, Some, None, IsTrue};
ghost use Rattle.mark_core.specs.Held.{has_free_slot};
ghost use Rattle.gc_table.specs.Seats.{Across, did, state_of, view_of};
ghost use Rattle.packet_pools.specs.OnlyTraced.{OnlyTraced, IsNotedMarked};
ghost use Rattle.packet_pools.specs.Tracing.{IsTracer};
ghost use Rattle.packet_pools.specs.Hands.{HoldsPacket};
ghost use Rattle.packet_pools.specs.Scanning.{InHand, Pushes};
ghost use Rattle.packet_pools.specs.Counts.{CountsMarked, CountsScanned};
ghost use Rattle.packet_pools.specs.Fields.{AsksToMark};
ghost use Rattle.packet_pools.specs.StepBounds.{filling_steps, mark_steps, room_left};
ghost use Rattle.packet_pools.specs.Tried.{SearchesOn};

use crate::entries::push;
use crate::held::{Held, PacketFull};
use crate::room::make_room;
use crate::scanned::Scanned;
use crate::search::Search;
use gc_table::{Heap, HeapSeat};
use mark_core::{Cell, card_of};

#[inline(always)]
fn push_marked(
    heap: &Heap,
    seat: &mut HeapSeat,
    out: &mut Held,
    search: &mut Search,
    cell: Cell,
) -> bool
    requires seat { IsTracer heap.now seat.old }
    requires out { HoldsPacket out.old (view_of seat.old) × IsTrue (has_free_slot (state_of seat.old).held) }
    requires hand { InHand None (Some cell) (state_of seat.old) }
    ensures seat { IsTracer heap.now seat.new }
    ensures only { Across OnlyTraced seat.old seat.new }
    ensures pushes { Across (Pushes out.old out.new (state_of seat.old).scan (state_of seat.old).cleaning) seat.old seat.new }
    ensures counts { CountsMarked heap.now.shape 0 (if result then 0 else 1) (if result then 1 else 0) (did seat.old seat.new) }
    ensures asks { AsksToMark [] (did seat.old seat.new) }
    ensures tried { SearchesOn heap.now.shape search.old search.new out.old out.new (did seat.old seat.new) }
    ensures few { length (did seat.old seat.new) + room_left heap.now.shape search.new out.new.length ≤ room_left heap.now.shape search.old out.old.length + filling_steps heap.now.shape + 1 }
{
    make_room(heap, seat, out, search);
    match push(heap, seat, out, cell) {
        Ok(()) => false,
        Err(PacketFull) => {
            heap.dirty_card(seat, card_of(cell));
            true
        }
    }
}

/// Marks the cell that the seat loaded, and pushes it if it was white, as [`scan_cell`](crate::scan_cell) does.
#[inline(always)]
pub fn mark_cell(
    heap: &Heap,
    seat: &mut HeapSeat,
    out: &mut Held,
    search: &mut Search,
    cell: Cell,
) -> Scanned
    requires seat { IsTracer heap.now seat.old }
    requires out { HoldsPacket out.old (view_of seat.old) × IsTrue (has_free_slot (state_of seat.old).held) }
    requires hand { InHand (Some cell) None (state_of seat.old) }
    ensures seat { IsTracer heap.now seat.new }
    ensures only { Across OnlyTraced seat.old seat.new }
    ensures pushes { Across (Pushes out.old out.new (state_of seat.old).scan (state_of seat.old).cleaning) seat.old seat.new }
    ensures most { (result.overflowed ≤ result.marked) × (result.marked ≤ 1) }
    ensures counts { CountsScanned heap.now.shape result (did seat.old seat.new) }
    ensures asks { AsksToMark (cell ∷ []) (did seat.old seat.new) }
    ensures noted { IsTrue (state_of seat.old).alone → IsNotedMarked (view_of seat.new) cell }
    ensures tried { SearchesOn heap.now.shape search.old search.new out.old out.new (did seat.old seat.new) }
    ensures few { length (did seat.old seat.new) + room_left heap.now.shape search.new out.new.length ≤ room_left heap.now.shape search.old out.old.length + mark_steps heap.now.shape }
{
    if !heap.set_mark(seat, cell) {
        return Scanned::none();
    }
    let overflowed = push_marked(heap, seat, out, search, cell);
    Scanned {
        marked: 1,
        overflowed: u32::from(overflowed),
    }
}
