ghost use Rattle.std.specs.Bool.{OnTrue};
ghost use Rattle.gc_table.specs.Seats.{Across};
ghost use Rattle.gc_table.specs.SeatRecords.{At, entered, inside};
ghost use Rattle.stop_world.specs.StopRecords.{KeepsMeaningAndPlan};

use gc_table::{Heap, HeapSeat};
use mark_core::Phase;

/// Begins marking, if no cycle is under way.
pub fn try_marking(heap: &Heap, seat: &mut HeapSeat, k: u32)
    requires { At heap.now entered k seat.old }
    ensures seat { At heap.now entered k seat.new }
    ensures keeps { Across KeepsMeaningAndPlan seat.old seat.new }
{
    heap.store_phase(seat, Phase::Marking);
}

/// Whether the seat finds that marking is under way.
pub fn sees_marking(heap: &Heap, seat: &mut HeapSeat, k: u32) -> bool
    requires { At heap.now entered k seat.old }
    ensures sees { OnTrue result (At heap.now inside k seat.new) }
    ensures keeps { Across KeepsMeaningAndPlan seat.old seat.new }
{
    match heap.read_phase(seat) {
        Phase::Marking => true,
        _ => false,
    }
}
