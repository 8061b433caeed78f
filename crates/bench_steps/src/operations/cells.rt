ghost use Rattle.std.specs.Prelude.{◌<◌, ◌+◌, ◌*◌};
ghost use Rattle.std.specs.Bool.{OnTrue};
ghost use Rattle.mark_core.specs.Cards.{block_cells};
ghost use Rattle.gc_table.specs.Seats.{Sits};
ghost use Rattle.bench_steps.specs.Standing.{Filling, Waiting, sizes};

use crate::operations::blocks::{give_up, make, take};
use crate::operations::opening::{BLOCKS, CELLS, begin, open};
use alloc_cache::Cache;
use gc_table::{Heap, HeapSeat};
use mark_core::BLOCK_CELLS;
use std::alloc::Global;
use test_heaps::{leaves, try_close};

fn fill(heap: &Heap, seat: &mut HeapSeat, cache: &mut Cache, first: u32)
    requires few { first < sizes.cells }
    requires filling { Filling heap.now first cache.old seat.old }
    ensures { Filling heap.now (first + block_cells) cache.new seat.new }
{
    for i in 0..BLOCK_CELLS {
        make(heap, seat, cache, 0, first + i);
    }
}

fn fill_block(heap: &Heap, seat: &mut HeapSeat, first: u32) -> bool
    requires few { first < sizes.cells }
    requires waits { Waiting heap.now first seat.old }
    ensures seat { Sits heap.now seat.new }
    ensures waits { OnTrue result (Waiting heap.now (first + block_cells) seat.new) }
{
    let Some(mut cache) = take(heap, seat, first) else {
        return false;
    };
    fill(heap, seat, &mut cache, first);
    give_up(heap, seat, cache, first + BLOCK_CELLS);
    true
}

#[inline(never)]
fn fill_all(heap: &Heap, seat: &mut HeapSeat) -> bool
    requires { Waiting heap.now 0 seat.old }
    ensures { Sits heap.now seat.new }
{
    for b in 0..BLOCKS {
        if !fill_block(heap, seat, b * BLOCK_CELLS) {
            return false;
        }
    }
    true
}

fn one(alloc: Global) -> bool {
    let Some((heap, mut seat)) = open(alloc) else {
        return false;
    };
    if !begin(&heap, &mut seat) || !fill_all(&heap, &mut seat) {
        return false;
    }
    let made = seat.state().made;
    leaves(&heap, &mut seat) && try_close(alloc, heap, seat) && made == CELLS
}

/// Fills heaps. False if there is no memory or a step could not be taken.
pub fn run(alloc: Global, rounds: u64) -> bool {
    for _round in 0..rounds {
        if !one(alloc) {
            return false;
        }
    }
    true
}
