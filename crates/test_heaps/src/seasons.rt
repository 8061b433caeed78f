ghost use Rattle.std.specs.Prelude.{◌≡◌, ◌<◌, IsFalse};
ghost use Rattle.std.specs.Bool.{OnTrue};
ghost use Rattle.mark_core.specs.declared.kinds.Phase.TheVariants.{Idle};
ghost use Rattle.gc_table.specs.Running.{Alone};
ghost use Rattle.gc_table.specs.Seats.{Across, view_of};
ghost use Rattle.gc_table.specs.Stopping.{has_moved};
ghost use Rattle.gc_table.specs.SeatRecords.{At, entered, resting};
ghost use Rattle.test_heaps.specs.Seats.{New};
ghost use Rattle.stop_world.specs.StopRecords.{flagged, stopped, KeepsMeaningAndPlan};

use gc_table::{Heap, HeapSeat};
use mark_core::Phase;
use std::sync::Wait;
use stop_world::{Raised, await_stopped, leave, raise, resume};

/// Raises the flag: whether it is the seat's own.
pub fn raises_own(heap: &Heap, seat: &mut HeapSeat, k: u32) -> bool
    requires { At heap.now resting k seat.old }
    ensures raised { OnTrue result (At heap.now flagged k seat.new × IsFalse (has_moved (view_of seat.new).log)) }
    ensures keeps { Across KeepsMeaningAndPlan seat.old seat.new }
{
    match raise(heap, seat) {
        Raised::Yours => true,
        Raised::Theirs => false,
    }
}

/// Waits for the stop: whether no cycle was under way.
pub fn stops_idle<R: Wait>(rt: &R, heap: &Heap, seat: &mut HeapSeat, k: u32) -> bool
    requires { At heap.now flagged k seat.old × IsFalse (has_moved (view_of seat.old).log) }
    ensures stopped { OnTrue result (At heap.now stopped k seat.new × Alone Idle (view_of seat.new)) }
    ensures keeps { Across KeepsMeaningAndPlan seat.old seat.new }
{
    await_stopped(rt, heap, seat);
    match seat.state().phase_seen {
        Some(Phase::Idle) => true,
        _ => false,
    }
}

/// The world goes on without the seat.
pub fn goes_on(heap: &Heap, seat: &mut HeapSeat, k: u32)
    requires { At heap.now stopped k seat.old × Alone Idle (view_of seat.old) }
    ensures rests { At heap.now resting k seat.new }
    ensures meaning { (view_of seat.new).own.meaning ≡ (view_of seat.old).own.meaning }
{
    resume(heap, seat);
    leave(heap, seat);
}

/// The catalogue's turn ends, and the warehouses' begins: whether the seat made that stop.
pub fn next_turn<R: Wait>(rt: &R, heap: &Heap, seat: &mut HeapSeat) -> bool
    requires { New heap.now resting 0 seat.old × (0 < heap.now.shape.sections) }
    ensures rests { OnTrue result (At heap.now resting 0 seat.new) }
    ensures meaning { (view_of seat.new).own.meaning ≡ (view_of seat.old).own.meaning }
{
    if !raises_own(heap, seat, 0) || !stops_idle(rt, heap, seat, 0) {
        return false;
    }
    heap.next_season(seat);
    goes_on(heap, seat, 0);
    true
}

/// Enters: true if no stop was under way.
pub fn enters(heap: &Heap, seat: &mut HeapSeat, k: u32) -> bool
    requires { At heap.now resting k seat.old }
    ensures entered { OnTrue result (At heap.now entered k seat.new) }
    ensures keeps { Across KeepsMeaningAndPlan seat.old seat.new }
{
    heap.enter_step(seat)
}
