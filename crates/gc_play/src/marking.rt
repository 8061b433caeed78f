//! What a tracer does inside while marking is under way.
ghost use Rattle.gc_table.specs.Seats.{Across, did, state_of};
ghost use Rattle.seat_turns.specs.TracerStanding.{Goes, GoesMarking};
ghost use Rattle.gc_play.specs.Stays.{SeatStays};
ghost use Rattle.gc_play.specs.Turns.{TracesInside};

use gc_table::{Heap, HeapSeat};
use mark_core::TRACED;
use seat_turns::mark_and_recycle;

/// Does a tracer's turn, and adds what it traced to the number of traced objects.
pub(crate) fn trace_inside(heap: &Heap, seat: &mut HeapSeat)
    requires { GoesMarking heap.now seat.old }
    ensures seat { Goes heap.now seat.new }
    ensures stays { Across SeatStays seat.old seat.new }
    ensures traces { TracesInside heap.now.shape (state_of seat.old) (did seat.old seat.new) }
{
    let traced = mark_and_recycle(heap, seat);
    if traced > 0 {
        heap.add_stat(seat, TRACED, traced, false);
    }
}
