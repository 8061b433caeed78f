ghost use Rattle.std.specs.Prelude.{◌<◌};
ghost use Rattle.gc_table.specs.Seats.{Sits};
ghost use Rattle.bench_steps.specs.Standing.{Filling, Waiting};

use crate::operations::blocks::{give_up, make, show, take};
use crate::operations::opening::{begin, open};
use alloc_cache::Cache;
use gc_table::{Heap, HeapSeat};
use mutator_ops::set;
use std::alloc::Global;
use test_heaps::{leaves, try_close};

/// Stores variable w in field i of variable v's object.
pub fn link(heap: &Heap, seat: &mut HeapSeat, cache: &Cache, v: u8, i: u8, w: u8, n: u32)
    requires range { (v < 32) × (i < 4) × (w < 32) }
    requires filling { Filling heap.now n cache.now seat.old }
    ensures { Filling heap.now n cache.now seat.new }
{
    set(heap, seat, v, i, w);
}

#[inline(never)]
fn stores(heap: &Heap, seat: &mut HeapSeat, cache: &Cache, rounds: u64)
    requires { Filling heap.now 4 cache.now seat.old }
    ensures { Filling heap.now 4 cache.now seat.new }
{
    for round in 0..rounds {
        link(
            heap,
            seat,
            cache,
            (round % 4) as u8,
            (round / 4 % 4) as u8,
            0,
            4,
        );
    }
}

fn make_four(heap: &Heap, seat: &mut HeapSeat, cache: &mut Cache)
    requires { Filling heap.now 0 cache.old seat.old }
    ensures { Filling heap.now 4 cache.new seat.new }
{
    make(heap, seat, cache, 0, 0);
    make(heap, seat, cache, 1, 1);
    make(heap, seat, cache, 2, 2);
    make(heap, seat, cache, 3, 3);
}

fn show_some(heap: &Heap, seat: &mut HeapSeat, cache: &mut Cache, published: bool)
    requires { Filling heap.now 4 cache.old seat.old }
    ensures { Filling heap.now 4 cache.new seat.new }
{
    if published {
        show(heap, seat, cache, 4);
    }
}

/// Stores in objects that are published, or aren't.
fn store(heap: &Heap, seat: &mut HeapSeat, rounds: u64, published: bool) -> bool
    requires { Waiting heap.now 0 seat.old }
    ensures { Sits heap.now seat.new }
{
    let Some(mut cache) = take(heap, seat, 0) else {
        return false;
    };
    make_four(heap, seat, &mut cache);
    show_some(heap, seat, &mut cache, published);
    stores(heap, seat, &cache, rounds);
    give_up(heap, seat, cache, 4);
    true
}

/// Stores in a new heap. False if there is no memory or a step could not be taken.
pub fn run(alloc: Global, rounds: u64, published: bool) -> bool {
    let Some((heap, mut seat)) = open(alloc) else {
        return false;
    };
    begin(&heap, &mut seat)
        && store(&heap, &mut seat, rounds, published)
        && leaves(&heap, &mut seat)
        && try_close(alloc, heap, seat)
}
