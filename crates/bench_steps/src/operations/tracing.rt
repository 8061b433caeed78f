ghost use Rattle.std.specs.Prelude.{◌<◌, ◌+◌, ◌*◌};
ghost use Rattle.std.specs.Bool.{OnTrue};
ghost use Rattle.mark_core.specs.Cards.{block_cells};
ghost use Rattle.gc_table.specs.Seats.{Sits};
ghost use Rattle.bench_steps.specs.Standing.{Filling, Waiting, sizes};

use crate::operations::blocks::{give_up, make, take};
use crate::operations::opening::{BLOCKS, CELLS, begin, open};
use crate::operations::stores::link;
use alloc_cache::Cache;
use gc_table::{Heap, HeapSeat};
use mark_core::BLOCK_CELLS;
use std::alloc::Global;
use test_heaps::{leaves, marks_as_mutator, try_close};
use tracer::{scan_roots, trace};

fn knot(heap: &Heap, seat: &mut HeapSeat, cache: &mut Cache, n: u32)
    requires few { n < 10000 }
    requires filling { Filling heap.now n cache.old seat.old }
    ensures { Filling heap.now (n + 1) cache.new seat.new }
{
    let v = (n % 5) as u8;
    make(heap, seat, cache, v, n);
    link(heap, seat, cache, v, 0, (v + 4) % 5, n + 1);
    link(heap, seat, cache, v, 1, (v + 3) % 5, n + 1);
    link(heap, seat, cache, v, 2, (v + 2) % 5, n + 1);
    link(heap, seat, cache, v, 3, (v + 1) % 5, n + 1);
}

fn fill(heap: &Heap, seat: &mut HeapSeat, cache: &mut Cache, first: u32)
    requires few { first < sizes.cells }
    requires filling { Filling heap.now first cache.old seat.old }
    ensures { Filling heap.now (first + block_cells) cache.new seat.new }
{
    for i in 0..BLOCK_CELLS {
        knot(heap, seat, cache, first + i);
    }
}

fn fill_block(heap: &Heap, seat: &mut HeapSeat, first: u32) -> bool
    requires few { first < sizes.cells }
    requires waits { Waiting heap.now first seat.old }
    ensures seat { Sits heap.now seat.new }
    ensures waits { OnTrue result (Waiting heap.now (first + block_cells) seat.new) }
{
    let Some(mut cache) = take(heap, seat, first) else {
        return false;
    };
    fill(heap, seat, &mut cache, first);
    give_up(heap, seat, cache, first + BLOCK_CELLS);
    true
}

#[inline(never)]
fn fill_all(heap: &Heap, seat: &mut HeapSeat) -> bool
    requires { Waiting heap.now 0 seat.old }
    ensures { Sits heap.now seat.new }
{
    for b in 0..BLOCKS {
        if !fill_block(heap, seat, b * BLOCK_CELLS) {
            return false;
        }
    }
    true
}

#[inline(never)]
fn trace_all(heap: &Heap, seat: &mut HeapSeat) -> u32
    requires { Sits heap.now seat.old }
    ensures { Sits heap.now seat.new }
{
    if !marks_as_mutator(heap, seat) || heap.shape().sections == 0 {
        return 0;
    }
    scan_roots(heap, seat, 0);
    trace(heap, seat, 10_000).done
}

fn one(alloc: Global, traces: bool) -> bool {
    let Some((heap, mut seat)) = open(alloc) else {
        return false;
    };
    if !begin(&heap, &mut seat) || !fill_all(&heap, &mut seat) {
        return false;
    }
    let done = if traces {
        trace_all(&heap, &mut seat)
    } else {
        CELLS
    };
    leaves(&heap, &mut seat) && try_close(alloc, heap, seat) && done == CELLS
}

/// Fills heaps and, if asked, traces them. False if there is no memory or a step could not be taken.
pub fn run(alloc: Global, rounds: u64, traces: bool) -> bool {
    for _round in 0..rounds {
        if !one(alloc, traces) {
            return false;
        }
    }
    true
}
