//! One store, many times.
ghost use Rattle.bench_steps.specs.Records.{SitsWithRecord, entered, resting};
ghost use Rattle.bench_steps.specs.Taken.{TakesRounds, a_store};

use crate::table::opening::{CARDS, open_entered};
use gc_table::{Heap, HeapSeat};
use std::alloc::Global;
use test_heaps::close_one;

/// Dirties a card, and then the next one, over all cards.
#[inline(never)]
fn stores(heap: &Heap, seat: &mut HeapSeat, rounds: u64)
    requires { SitsWithRecord heap.now entered seat.old }
    ensures standing { SitsWithRecord heap.now entered seat.new }
    ensures steps { TakesRounds a_store rounds seat.old seat.new }
{
    for round in 0..rounds {
        heap.dirty_card(seat, (round % CARDS) as u32);
    }
}

fn leave(heap: &Heap, seat: &mut HeapSeat)
    requires { SitsWithRecord heap.now entered seat.old }
    ensures { SitsWithRecord heap.now resting seat.new }
{
    heap.leave_step(seat);
}

/// Stores into a heap. False if there is no memory or a step could not be taken.
pub fn run(alloc: Global, rounds: u64) -> bool {
    let Some((heap, mut seat)) = open_entered(alloc) else {
        return false;
    };
    stores(&heap, &mut seat, rounds);
    leave(&heap, &mut seat);
    close_one(alloc, heap, seat)
}
