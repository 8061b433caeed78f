ghost use Rattle.std.specs.Bool.{OnTrue};
ghost use Rattle.mark_core.specs.declared.kinds.Step.{Step};
ghost use Rattle.bench_steps.specs.Records.{SitsWithRecord, entered, marking, reserved, resting};
ghost use Rattle.bench_steps.specs.Taken.{TakesRounds, TakesOne, a_pair};

use crate::table::opening::open_entered;
use gc_table::{Heap, HeapSeat};
use std::alloc::Global;
use test_heaps::{close_one, sees_marking, try_marking};

fn reserve(heap: &Heap, seat: &mut HeapSeat)
    requires { SitsWithRecord heap.now marking seat.old }
    ensures standing { SitsWithRecord heap.now reserved seat.new }
    ensures step { TakesOne Step.Reserve seat.old seat.new }
{
    heap.reserve(seat);
}

fn credit(heap: &Heap, seat: &mut HeapSeat)
    requires { SitsWithRecord heap.now reserved seat.old }
    ensures standing { SitsWithRecord heap.now marking seat.new }
    ensures step { TakesOne Step.Credit seat.old seat.new }
{
    heap.credit(seat);
}

#[inline(never)]
fn fetches(heap: &Heap, seat: &mut HeapSeat, rounds: u64)
    requires { SitsWithRecord heap.now marking seat.old }
    ensures standing { SitsWithRecord heap.now marking seat.new }
    ensures steps { TakesRounds a_pair rounds seat.old seat.new }
{
    for _round in 0..rounds {
        reserve(heap, seat);
        credit(heap, seat);
    }
}

fn marks(heap: &Heap, seat: &mut HeapSeat) -> bool
    requires { SitsWithRecord heap.now entered seat.old }
    ensures { OnTrue result (SitsWithRecord heap.now marking seat.new) }
{
    try_marking(heap, seat, 0);
    sees_marking(heap, seat, 0)
}

fn leave(heap: &Heap, seat: &mut HeapSeat)
    requires { SitsWithRecord heap.now marking seat.old }
    ensures { SitsWithRecord heap.now resting seat.new }
{
    heap.leave_step(seat);
}

/// Fetches in a heap. False if there is no memory or a step could not be taken.
pub fn run(alloc: Global, rounds: u64) -> bool {
    let Some((heap, mut seat)) = open_entered(alloc) else {
        return false;
    };
    if !marks(&heap, &mut seat) {
        return false;
    }
    fetches(&heap, &mut seat, rounds);
    leave(&heap, &mut seat);
    close_one(alloc, heap, seat)
}
