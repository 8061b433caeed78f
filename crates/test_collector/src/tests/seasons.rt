ghost use Rattle.std.specs.Prelude.{◌<◌, IsTrue};
ghost use Rattle.std.specs.Bool.{OnTrue};
ghost use Rattle.gc_table.specs.Seats.{Across, state_of};
ghost use Rattle.gc_table.specs.SeatRecords.{At, entered, resting};
ghost use Rattle.test_collector.specs.Seats.{playing, waiting};
ghost use Rattle.test_heaps.specs.Seats.{HasEachObject, New};
ghost use Rattle.stop_world.specs.StopRecords.{KeepsMeaningAndPlan};

use gc_table::{Heap, HeapSeat};
use mark_core::Phase;
use std::sync::Wait;
use test_heaps::{enters, next_turn};

fn sees_idle(heap: &Heap, seat: &mut HeapSeat, k: u32) -> bool
    requires { At heap.now entered k seat.old }
    ensures sees { OnTrue result (At heap.now waiting k seat.new) }
    ensures keeps { Across KeepsMeaningAndPlan seat.old seat.new }
{
    match heap.read_phase(seat) {
        Phase::Idle => true,
        _ => false,
    }
}

fn sees_turn(heap: &Heap, seat: &mut HeapSeat, k: u32) -> bool
    requires { At heap.now waiting k seat.old }
    ensures sees { OnTrue result (At heap.now playing k seat.new) }
    ensures keeps { Across KeepsMeaningAndPlan seat.old seat.new }
{
    heap.read_season(seat) == 1
}

/// A warehouse's seat enters, as a mutator that has done nothing.
pub fn joins(heap: &Heap, seat: &mut HeapSeat, k: u32) -> bool
    requires { New heap.now resting k seat.old }
    ensures { OnTrue result (HasEachObject heap.now seat.new) }
{
    enters(heap, seat, k) && sees_idle(heap, seat, k) && sees_turn(heap, seat, k)
}

/// A warehouse's seat is active in the first season, the catalogue's outside.
pub fn begin<R: Wait>(rt: &R, heap: &Heap, zero: &mut HeapSeat, one: &mut HeapSeat) -> bool
    requires shape { 1 < heap.now.shape.sections }
    requires seats { New heap.now resting 0 zero.old × New heap.now resting 1 one.old }
    ensures { OnTrue result (At heap.now resting 0 zero.new × HasEachObject heap.now one.new) }
{
    next_turn(rt, heap, zero) && joins(heap, one, 1)
}

fn try_marking(heap: &Heap, seat: &mut HeapSeat)
    requires seat { HasEachObject heap.now seat.old }
    requires active { IsTrue (state_of seat.old).active }
    ensures { HasEachObject heap.now seat.new }
{
    heap.store_phase(seat, Phase::Marking);
}

/// Begins a cycle: whether the seat then finds that marking is under way.
pub fn marks(heap: &Heap, seat: &mut HeapSeat) -> bool
    requires { HasEachObject heap.now seat.old }
    ensures { HasEachObject heap.now seat.new }
{
    if !seat.state().active {
        return false;
    }
    try_marking(heap, seat);
    heap.read_phase(seat) == Phase::Marking
}
