//! What a seat's record says.
ghost use Rattle.std.specs.Prelude.{◌≡◌};
ghost use Rattle.std.specs.Bool.{OnTrue};
ghost use Rattle.mark_core.specs.Steps.WorldSteps.{has_nothing as has_nothing_of};
ghost use Rattle.gc_table.specs.Seats.{Sits, state_of, view_of};
ghost use Rattle.stop_world.specs.Gates.{IsDone};
ghost use Rattle.gc_cycle.specs.Standing.{Helps, IsOut, Mutates, is_at_rest as is_at_rest_of};

use gc_table::{Heap, HeapSeat};
use mark_core::Phase;
use test_heaps::{empty_handed, has_making, is_bare, work_in_hand};

fn is_at_rest(heap: &Heap, seat: &HeapSeat) -> bool
    requires { Sits heap.now seat.now }
    ensures { result ≡ is_at_rest_of heap.now.shape (state_of seat.now) }
{
    let s = seat.state();
    empty_handed(seat)
        && !work_in_hand(heap.shape().fields, seat)
        && s.owes.is_none()
        && s.block.is_none()
        && (s.got == 0 && s.lags == 0)
        && !has_making(seat)
}

fn has_nothing(heap: &Heap, seat: &HeapSeat) -> bool
    requires { Sits heap.now seat.now }
    ensures { result ≡ has_nothing_of heap.now.shape (state_of seat.now) }
{
    let s = seat.state();
    empty_handed(seat)
        && !work_in_hand(heap.shape().fields, seat)
        && s.owes.is_none()
        && s.cache.is_none()
        && s.block.is_none()
        && (s.got == 0 && s.lags == 0)
}

/// Whether the seat is a mutator's between two commands.
pub fn may_call(heap: &Heap, seat: &HeapSeat) -> bool
    requires { Sits heap.now seat.now }
    ensures { OnTrue result (Mutates (view_of seat.now)) }
{
    let s = seat.state();
    s.active && !s.helping && s.section.is_some() && is_at_rest(heap, seat)
}

/// Whether the seat is outside with nothing in hand.
pub fn is_out(heap: &Heap, seat: &HeapSeat) -> bool
    requires { Sits heap.now seat.now }
    ensures { OnTrue result (IsOut (view_of seat.now)) }
{
    is_bare(seat) && has_nothing(heap, seat)
}

/// Whether the seat was let in to help, in a phase in which it can.
pub fn may_help(heap: &Heap, seat: &HeapSeat) -> bool
    requires { Sits heap.now seat.now }
    ensures { OnTrue result (Helps (view_of seat.now)) }
{
    let s = seat.state();
    s.admitted
        && match s.phase_seen {
            Some(Phase::Drain) => true,
            Some(Phase::Sweep) => true,
            _ => false,
        }
        && has_nothing(heap, seat)
}

/// Whether the seat may leave the helpers.
pub fn is_done(heap: &Heap, seat: &HeapSeat) -> bool
    requires { Sits heap.now seat.now }
    ensures { OnTrue result (IsDone (view_of seat.now)) }
{
    empty_handed(seat) && !work_in_hand(heap.shape().fields, seat) && seat.state().block.is_none()
}
