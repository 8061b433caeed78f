ghost use Rattle.std.specs.Prelude.{◌≡◌, ◌<◌, length};
ghost use Rattle.std.specs.Bool.{OnTrue};
ghost use Rattle.gc_table.specs.Seats.{Across, view_of};
ghost use Rattle.gc_table.specs.SeatRecords.{At, entered, inside, resting};
ghost use Rattle.test_operations.specs.Seats.{IsReadyMutator, playing, waiting};
ghost use Rattle.test_heaps.specs.Seats.{HasEachObject, New};
ghost use Rattle.stop_world.specs.StopRecords.{KeepsMeaningAndPlan};

use gc_table::{Heap, HeapSeat};
use mark_core::Phase;
use std::sync::Wait;
use test_heaps::{enters, next_turn, sees_marking, try_marking};

fn sees_turn(heap: &Heap, seat: &mut HeapSeat, k: u32) -> bool
    requires { At heap.now inside k seat.old }
    ensures sees { OnTrue result (At heap.now playing k seat.new) }
    ensures keeps { Across KeepsMeaningAndPlan seat.old seat.new }
{
    heap.read_season(seat) == 1
}

fn plays(heap: &Heap, seat: &mut HeapSeat) -> bool
    requires seat { At heap.now entered 1 seat.old × (1 < heap.now.shape.sections) }
    requires blank { length (view_of seat.old).own.meaning.heap.objects ≡ 0 }
    ensures { OnTrue result (At heap.now playing 1 seat.new × IsReadyMutator heap.now seat.new) }
{
    !heap.shape().sharing && sees_marking(heap, seat, 1) && sees_turn(heap, seat, 1)
}

fn sees_idle(heap: &Heap, seat: &mut HeapSeat, k: u32) -> bool
    requires { At heap.now entered k seat.old }
    ensures sees { OnTrue result (At heap.now waiting k seat.new) }
    ensures keeps { Across KeepsMeaningAndPlan seat.old seat.new }
{
    match heap.read_phase(seat) {
        Phase::Idle => true,
        _ => false,
    }
}

/// A warehouse's seat enters, if no cycle is under way.
pub fn joins(heap: &Heap, seat: &mut HeapSeat) -> bool
    requires { New heap.now resting 1 seat.old }
    ensures { OnTrue result (HasEachObject heap.now seat.new) }
{
    enters(heap, seat, 1) && sees_idle(heap, seat, 1)
}

/// The warehouses' first season has begun, and both seats mark in it.
pub fn begin<R: Wait>(rt: &R, heap: &Heap, zero: &mut HeapSeat, one: &mut HeapSeat) -> bool
    requires shape { 1 < heap.now.shape.sections }
    requires seats { New heap.now resting 0 zero.old × New heap.now resting 1 one.old }
    ensures { OnTrue result (At heap.now inside 0 zero.new × At heap.now playing 1 one.new × IsReadyMutator heap.now one.new) }
{
    if !next_turn(rt, heap, zero) || !enters(heap, zero, 0) || !enters(heap, one, 1) {
        return false;
    }
    try_marking(heap, one, 1);
    sees_marking(heap, zero, 0) && plays(heap, one)
}
