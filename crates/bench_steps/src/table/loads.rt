ghost use Rattle.bench_steps.specs.Records.{SitsWithRecord, resting};
ghost use Rattle.bench_steps.specs.Taken.{TakesRounds, a_load, a_look};

use crate::table::opening::{CARDS, SIZES, open};
use gc_table::{Heap, HeapSeat};
use mark_core::EMPTY_OFFSET;
use std::alloc::Global;
use test_heaps::close_one;

#[inline(never)]
fn loads(heap: &Heap, seat: &mut HeapSeat, rounds: u64) -> u64
    requires { SitsWithRecord heap.now resting seat.old }
    ensures standing { SitsWithRecord heap.now resting seat.new }
    ensures steps { TakesRounds a_load rounds seat.old seat.new }
{
    let mut sum = 0u64;
    for _round in 0..rounds {
        sum = sum.wrapping_add(heap.read_count(seat));
    }
    sum
}

/// How many cards were dirty.
#[inline(never)]
fn looks(heap: &Heap, seat: &mut HeapSeat, rounds: u64) -> u64
    requires { SitsWithRecord heap.now resting seat.old }
    ensures standing { SitsWithRecord heap.now resting seat.new }
    ensures steps { TakesRounds a_look rounds seat.old seat.new }
{
    let mut sum = 0u64;
    for round in 0..rounds {
        if heap.read_card(seat, (round % CARDS) as u32) {
            sum = sum.wrapping_add(1);
        }
    }
    sum
}

/// Loads from a heap. False if there is no memory, or a load found another word than a new heap has.
pub fn run(alloc: Global, rounds: u64) -> bool {
    let Some((heap, mut seat)) = open(alloc) else {
        return false;
    };
    let sum = loads(&heap, &mut seat, rounds);
    close_one(alloc, heap, seat)
        && sum == rounds.wrapping_mul(EMPTY_OFFSET + u64::from(SIZES.packets))
}

/// Loads of cards, with the same answers.
pub fn run_looks(alloc: Global, rounds: u64) -> bool {
    let Some((heap, mut seat)) = open(alloc) else {
        return false;
    };
    let sum = looks(&heap, &mut seat, rounds);
    close_one(alloc, heap, seat) && sum == 0
}
