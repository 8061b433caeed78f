//! A pass over cards that are all clean.
ghost use Rattle.gc_table.specs.Seats.{Sits};
ghost use Rattle.bench_steps.specs.Standing.{Tracing, Waiting};

use crate::operations::opening::{begin, open};
use card_clean::clean_dirty;
use gc_table::{Heap, HeapSeat};
use std::alloc::Global;
use test_heaps::{leaves, marks_as_mutator, try_close};

/// Whether each pass found all cards clean.
#[inline(never)]
fn passes(heap: &Heap, seat: &mut HeapSeat, rounds: u64) -> bool
    requires { Tracing heap.now seat.old }
    ensures { Sits heap.now seat.new }
{
    for _round in 0..rounds {
        if clean_dirty(heap, seat) != 0 {
            return false;
        }
    }
    true
}

fn look(heap: &Heap, seat: &mut HeapSeat, rounds: u64) -> bool
    requires { Waiting heap.now 0 seat.old }
    ensures { Sits heap.now seat.new }
{
    if !marks_as_mutator(heap, seat) {
        return false;
    }
    passes(heap, seat, rounds)
}

/// Passes in a new heap. False if there is no memory or a step could not be taken.
pub fn run(alloc: Global, rounds: u64) -> bool {
    let Some((heap, mut seat)) = open(alloc) else {
        return false;
    };
    begin(&heap, &mut seat)
        && look(&heap, &mut seat, rounds)
        && leaves(&heap, &mut seat)
        && try_close(alloc, heap, seat)
}
