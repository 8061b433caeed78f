//! The seat of section 0 dismisses the tracers: it raises the count of played parts, of which worlds have no other
//! use.
ghost use Rattle.std.specs.Prelude.{IsTrue, is_some};
ghost use Rattle.std.specs.Bool.{OnFalse, OnTrue};
ghost use Rattle.gc_table.specs.Log.{Only};
ghost use Rattle.gc_table.specs.Running.{Ran};
ghost use Rattle.gc_table.specs.Seats.{Across, state_of};
ghost use Rattle.stop_world.specs.Gates.{TurnsBack};
ghost use Rattle.seat_turns.specs.Sharing.{spares_heap};
ghost use Rattle.seat_turns.specs.Standing.{RestsOutside};
ghost use Rattle.seat_turns.specs.TracerTries.{Dismisses, DismissesInside};

use crate::tracer_turn::{goes_in, goes_out};
use gc_cycle::{go_in, go_out};
use gc_table::{Heap, HeapSeat};
use mark_core::DONE;
use std::sync::Wait;

/// Dismisses the tracers as soon as no stop is under way, and wakes those that sleep.
pub fn tell_dismissed<R: Wait>(rt: &R, heap: &Heap, seat: &mut HeapSeat)
    requires rests { RestsOutside heap.now seat.old }
    requires section { IsTrue (is_some (state_of seat.old).section) }
    ensures rests { RestsOutside heap.now seat.new }
    ensures section { IsTrue (is_some (state_of seat.new).section) }
    ensures ran { Across Ran seat.old seat.new }
    ensures spares { Across (Only spares_heap) seat.old seat.new }
    ensures dismisses { Across DismissesInside seat.old seat.new }
{
    go_in(rt, heap, seat);
    heap.add_stat(seat, DONE, 1, false);
    go_out(heap, seat, 0);
    heap.wake_resting();
}

/// Dismisses the tracers, or is false if a stop is under way.
pub fn try_dismiss(heap: &Heap, seat: &mut HeapSeat) -> bool
    requires rests { RestsOutside heap.now seat.old }
    requires section { IsTrue (is_some (state_of seat.old).section) }
    ensures rests { RestsOutside heap.now seat.new }
    ensures section { IsTrue (is_some (state_of seat.new).section) }
    ensures ran { Across Ran seat.old seat.new }
    ensures spares { Across (Only spares_heap) seat.old seat.new }
    ensures dismisses { OnTrue result (Across Dismisses seat.old seat.new) }
    ensures turns { OnFalse result (Across TurnsBack seat.old seat.new) }
{
    if !goes_in(heap, seat) {
        return false;
    }
    heap.add_stat(seat, DONE, 1, false);
    goes_out(heap, seat);
    true
}
