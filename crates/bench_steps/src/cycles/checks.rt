//! What a seat's record says.
ghost use Rattle.std.specs.Prelude.{◌≡◌};
ghost use Rattle.std.specs.Bool.{OnTrue};
ghost use Rattle.gc_table.specs.Seats.{Sits, state_of, view_of};
ghost use Rattle.gc_cycle.specs.Standing.{Mutates, is_at_rest as is_at_rest_of};

use gc_table::{Heap, HeapSeat};
use test_heaps::{empty_handed, has_making, work_in_hand};

fn is_at_rest(heap: &Heap, seat: &HeapSeat) -> bool
    requires { Sits heap.now seat.now }
    ensures { result ≡ is_at_rest_of heap.now.shape (state_of seat.now) }
{
    let s = seat.state();
    empty_handed(seat)
        && !work_in_hand(heap.shape().fields, seat)
        && s.owes.is_none()
        && s.block.is_none()
        && (s.got == 0 && s.lags == 0)
        && !has_making(seat)
}

/// Whether the seat is a mutator's between two commands.
pub fn may_call(heap: &Heap, seat: &HeapSeat) -> bool
    requires { Sits heap.now seat.now }
    ensures { OnTrue result (Mutates (view_of seat.now)) }
{
    let s = seat.state();
    s.active && !s.helping && s.section.is_some() && is_at_rest(heap, seat)
}
