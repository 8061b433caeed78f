ghost use Rattle.std.specs.Prelude.{ℕ, ◌≡◌, ◌<◌, ◌≤◌, ◌+◌, Some, slice_get, vec_len, IfSome};
ghost use Rattle.gc_table.specs.declared.seat.HeapSeat.{HeapSeat};
ghost use Rattle.gc_table.specs.SeatRecords.{resting};
ghost use Rattle.mark_core.specs.Shapes.{IsShape};
ghost use Rattle.test_heaps.specs.Seats.{HasEachObject, New};

use gc_table::{Heap, HeapSeat};
use mark_core::Shape;
use plain_heap::NoPlan;
use std::alloc::Global;

/// A heap with so many seats, the first of them the catalogue's.
pub fn open(alloc: Global, shape: Shape, seats: u32) -> Option<(Heap, Vec<HeapSeat>)>
    requires shape { IsShape shape }
    requires seats { (0 < seats) × (seats ≤ 3) }
    ensures { IfSome result (λ r. (r.0.shape ≡ shape) × (vec_len r.1 ≡ seats) × ((i : ℕ) (s : HeapSeat) → slice_get r.1.items i ≡ Some s → New r.0 resting i s)) }
{
    match Heap::create(alloc, shape, seats, &NoPlan) {
        Ok(made) => Some(made),
        Err(_) => None,
    }
}

/// The first of the seats that are left, which is seat k.
pub fn next_seat(heap: &Heap, seats: &mut Vec<HeapSeat>, k: u32) -> HeapSeat
    requires some { 0 < vec_len seats.old }
    requires all { (i : ℕ) (s : HeapSeat) → slice_get seats.old.items i ≡ Some s → New heap.now resting (k + i) s }
    ensures seat { New heap.now resting k result }
    ensures rest { (i : ℕ) (s : HeapSeat) → slice_get seats.new.items i ≡ Some s → New heap.now resting (k + 1 + i) s }
    ensures count { vec_len seats.new + 1 ≡ vec_len seats.old }
{
    seats.remove(0)
}

/// A heap with only the catalogue's seat.
pub fn open_one(alloc: Global, shape: Shape) -> Option<(Heap, HeapSeat)>
    requires { IsShape shape }
    ensures { IfSome result (λ r. (r.0.shape ≡ shape) × New r.0 resting 0 r.1 × HasEachObject r.0 r.1) }
{
    let Some((heap, mut seats)) = open(alloc, shape, 1) else {
        return None;
    };
    let seat = next_seat(&heap, &mut seats, 0);
    Some((heap, seat))
}
