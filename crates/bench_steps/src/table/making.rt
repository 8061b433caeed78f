ghost use Rattle.std.specs.Prelude.{◌≡◌, ◌<◌, ◌≤◌, ◌+◌, ◌*◌, IsTrue, is_none, is_some};
ghost use Rattle.std.specs.Bool.{OnTrue, OnFalse};
ghost use Rattle.mark_core.specs.Cards.{block_cells};
ghost use Rattle.mark_core.specs.Seats.{free_in, is_unread};
ghost use Rattle.gc_table.specs.Seats.{IsOutside, Sits, state_of, view_of};
ghost use Rattle.bench_steps.specs.Making.{MayMakeCells, block_of_maker, cells_made, objects_of};
ghost use Rattle.bench_steps.specs.Records.{SitsWithRecord, blocks_in_all, entered, sizes};

use crate::table::opening::{BLOCKS, CELLS, open_entered};
use gc_table::{Heap, HeapSeat};
use mark_core::{BLOCK_CELLS, Cell, Phase};
use std::alloc::Global;
use test_heaps::{close_one, has_free};

fn begin(heap: &Heap, seat: &mut HeapSeat) -> bool
    requires enters { SitsWithRecord heap.now entered seat.old }
    requires objects { objects_of seat.old ≡ 0 }
    ensures { OnTrue result (MayMakeCells heap.now seat.new × IsTrue (is_none (block_of_maker seat.new)) × (cells_made seat.new ≡ 0)) }
{
    match heap.read_phase(seat) {
        Phase::Full => false,
        _ => heap.read_season(seat) % 2 == 0,
    }
}

fn claim(heap: &Heap, seat: &mut HeapSeat, b: u32) -> bool
    requires makes { MayMakeCells heap.now seat.old × IsTrue (is_none (block_of_maker seat.old)) }
    requires block { b < blocks_in_all }
    ensures makes { MayMakeCells heap.now seat.new × (cells_made seat.new ≡ cells_made seat.old) }
    ensures claimed { OnTrue result (IsTrue (is_unread (block_of_maker seat.new))) }
    ensures lost { OnFalse result (IsTrue (is_none (block_of_maker seat.new))) }
{
    heap.claim_block(seat, b)
}

fn read_free(heap: &Heap, seat: &mut HeapSeat)
    requires { MayMakeCells heap.now seat.old × IsTrue (is_unread (block_of_maker seat.old)) }
    ensures { MayMakeCells heap.now seat.new × IsTrue (is_some (block_of_maker seat.new)) × (cells_made seat.new ≡ cells_made seat.old) }
{
    heap.read_free(seat);
}

fn make_cell(heap: &Heap, seat: &mut HeapSeat, number: u32)
    requires makes { MayMakeCells heap.now seat.old × IsTrue (free_in (block_of_maker seat.old) number) }
    requires cell { number < sizes.cells }
    requires few { cells_made seat.old < sizes.objects }
    ensures { MayMakeCells heap.now seat.new × IsTrue (is_some (block_of_maker seat.new)) × (cells_made seat.new ≡ cells_made seat.old + 1) }
{
    let c = Cell::make(number);
    let identity = u64::from(seat.state().made);
    heap.store_new(seat, c, 0, 0);
    heap.store_new(seat, c, 1, 0);
    heap.store_new(seat, c, 2, u64::from(number));
    heap.store_new(seat, c, 3, identity);
    heap.store_root(seat, 0, u64::from(number) + 1);
}

fn fill(heap: &Heap, seat: &mut HeapSeat, b: u32)
    requires makes { MayMakeCells heap.now seat.old × IsTrue (is_some (block_of_maker seat.old)) }
    requires block { b < blocks_in_all }
    requires few { cells_made seat.old ≤ b * block_cells }
    ensures makes { MayMakeCells heap.now seat.new × IsTrue (is_some (block_of_maker seat.new)) }
    ensures few { cells_made seat.new ≤ b * block_cells + block_cells }
{
    for i in 0..BLOCK_CELLS {
        let number = b * BLOCK_CELLS + i;
        if has_free(seat, Cell::make(number)) {
            make_cell(heap, seat, number);
        }
    }
}

fn finish(heap: &Heap, seat: &mut HeapSeat)
    requires { MayMakeCells heap.now seat.old × IsTrue (is_some (block_of_maker seat.old)) }
    ensures { MayMakeCells heap.now seat.new × IsTrue (is_none (block_of_maker seat.new)) × (cells_made seat.new ≡ cells_made seat.old) }
{
    heap.publish_cells(seat);
    heap.release_block(seat);
}

fn fill_block(heap: &Heap, seat: &mut HeapSeat, b: u32)
    requires makes { MayMakeCells heap.now seat.old × IsTrue (is_none (block_of_maker seat.old)) }
    requires block { b < blocks_in_all }
    requires few { cells_made seat.old ≤ b * block_cells }
    ensures makes { MayMakeCells heap.now seat.new × IsTrue (is_none (block_of_maker seat.new)) }
    ensures few { cells_made seat.new ≤ b * block_cells + block_cells }
{
    if claim(heap, seat, b) {
        read_free(heap, seat);
        fill(heap, seat, b);
        finish(heap, seat);
    }
}

#[inline(never)]
fn fill_all(heap: &Heap, seat: &mut HeapSeat)
    requires makes { MayMakeCells heap.now seat.old × IsTrue (is_none (block_of_maker seat.old)) }
    requires new { cells_made seat.old ≡ 0 }
    ensures { MayMakeCells heap.now seat.new × IsTrue (is_none (block_of_maker seat.new)) }
{
    for b in 0..BLOCKS {
        fill_block(heap, seat, b);
    }
}

fn leave(heap: &Heap, seat: &mut HeapSeat)
    requires { MayMakeCells heap.now seat.old × IsTrue (is_none (block_of_maker seat.old)) }
    ensures { Sits heap.now seat.new × ((state_of seat.new).number ≡ 0) × IsOutside (view_of seat.new) }
{
    heap.leave_step(seat);
}

fn one(alloc: Global) -> bool {
    let Some((heap, mut seat)) = open_entered(alloc) else {
        return false;
    };
    if !begin(&heap, &mut seat) {
        return false;
    }
    fill_all(&heap, &mut seat);
    let made = seat.state().made;
    leave(&heap, &mut seat);
    close_one(alloc, heap, seat) && made == CELLS
}

/// Fills heaps. False if there is no memory or a step could not be taken.
pub fn run(alloc: Global, rounds: u64) -> bool {
    for _round in 0..rounds {
        if !one(alloc) {
            return false;
        }
    }
    true
}
