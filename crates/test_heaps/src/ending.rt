//! The moves of the phase after the last block: no cell is marked then, and no mark is read to know it.
ghost use Rattle.mark_core.specs.declared.kinds.Phase.TheVariants.{Clear, Drain, Idle, Sweep};
ghost use Rattle.gc_table.specs.Running.{Alone};
ghost use Rattle.gc_table.specs.Seats.{Sits, view_of};
ghost use Rattle.sweeper.specs.Freeing.{IsOver};

use gc_table::{Heap, HeapSeat};
use mark_core::Phase;

/// Ends the sweep.
pub fn end_sweep(heap: &Heap, seat: &mut HeapSeat)
    requires seat { Sits heap.now seat.old }
    requires over { IsOver Sweep (view_of seat.old) }
    ensures seat { Sits heap.now seat.new }
    ensures alone { Alone Idle (view_of seat.new) }
{
    heap.store_phase(seat, Phase::Idle);
}

/// Ends the clearing of marks: an exact drain begins.
pub fn end_clear(heap: &Heap, seat: &mut HeapSeat)
    requires seat { Sits heap.now seat.old }
    requires over { IsOver Clear (view_of seat.old) }
    ensures seat { Sits heap.now seat.new }
    ensures alone { Alone Drain (view_of seat.new) }
{
    heap.store_phase(seat, Phase::Drain);
}
