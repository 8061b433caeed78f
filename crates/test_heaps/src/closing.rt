ghost use Rattle.std.specs.Prelude.{◌≡◌};
ghost use Rattle.mark_core.specs.Shapes.{IsShape};
ghost use Rattle.gc_table.specs.Seats.{Across, IsOutside, Sits, state_of, view_of};
ghost use Rattle.stop_world.specs.StopRecords.{KeepsMeaningAndPlan};

use crate::checks::{is_bare, is_free};
use crate::opening::open_one;
use gc_table::{Heap, HeapSeat};
use mark_core::Shape;
use std::alloc::Global;
use stop_world::leave;

/// Leaves: true if the seat was active and had nothing in hand.
pub fn leaves(heap: &Heap, seat: &mut HeapSeat) -> bool
    requires { Sits heap.now seat.old }
    ensures seat { Sits heap.now seat.new }
    ensures keeps { Across KeepsMeaningAndPlan seat.old seat.new }
    ensures made { (state_of seat.new).made ≡ (state_of seat.old).made }
{
    if !seat.state().active || !is_free(heap, seat) {
        return false;
    }
    leave(heap, seat);
    true
}

/// Closes a heap with its seat, which is outside. False if memory ran out.
pub fn close_one(alloc: Global, heap: Heap, seat: HeapSeat) -> bool
    requires seat { Sits heap seat × ((state_of seat).number ≡ 0) }
    requires outside { IsOutside (view_of seat) }
{
    let Ok(mut seats) = Vec::with_capacity(alloc, 1) else {
        return false;
    };
    seats.push_reserved(seat);
    heap.close(alloc, seats).is_ok()
}

/// Closes a heap with its seat. False if the seat is inside, or memory ran out.
pub fn try_close(alloc: Global, heap: Heap, seat: HeapSeat) -> bool
    requires { Sits heap seat }
{
    if seat.number() != 0 || !is_bare(&seat) {
        return false;
    }
    close_one(alloc, heap, seat)
}

fn opens_one(alloc: Global, shape: Shape) -> bool
    requires { IsShape shape }
{
    match open_one(alloc, shape) {
        None => false,
        Some((heap, seat)) => close_one(alloc, heap, seat),
    }
}

/// Makes and closes so many heaps with one seat. False if there is no memory.
pub fn opens(alloc: Global, shape: Shape, rounds: u64) -> bool
    requires { IsShape shape }
{
    for _round in 0..rounds {
        if !opens_one(alloc, shape) {
            return false;
        }
    }
    true
}
