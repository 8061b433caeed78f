ghost use Rattle.std.specs.Prelude.{IfSome};
ghost use Rattle.std.specs.Bool.{OnTrue};
ghost use Rattle.gc_table.specs.SeatRecords.{inside, resting};
ghost use Rattle.bench_steps.specs.Standing.{Blank, Waiting};

use gc_table::{Heap, HeapSeat};
use mark_core::{BLOCK_CELLS, Shape};
use std::alloc::Global;
use test_heaps::{enters, open_one, sees_marking, try_marking};

/// How many blocks a heap has.
pub const BLOCKS: u32 = 64;

/// How many cells a heap has.
pub const CELLS: u32 = BLOCKS * BLOCK_CELLS;

/// Objects of four fields.
pub const SIZES: Shape = Shape {
    cells: CELLS,
    packets: 64,
    entries: 64,
    sections: 1,
    fields: 4,
    objects: 2_000_000,
    sharing: false,
    slots: 0,
    stretch: 1,
};

/// A new heap, and its seat, the catalogue's.
pub fn open(alloc: Global) -> Option<(Heap, HeapSeat)>
    ensures { IfSome result (λ r. Blank r.0 resting r.1) }
{
    open_one(alloc, SIZES)
}

/// Reads the season: whether the seat may make cells and store in them.
fn sees_turn(heap: &Heap, seat: &mut HeapSeat) -> bool
    requires { Blank heap.now inside seat.old }
    ensures { OnTrue result (Waiting heap.now 0 seat.new) }
{
    heap.read_season(seat) % 2 == 0
}

/// The seat enters, and marking begins.
pub fn begin(heap: &Heap, seat: &mut HeapSeat) -> bool
    requires { Blank heap.now resting seat.old }
    ensures { OnTrue result (Waiting heap.now 0 seat.new) }
{
    if !enters(heap, seat, 0) {
        return false;
    }
    try_marking(heap, seat, 0);
    sees_marking(heap, seat, 0) && sees_turn(heap, seat)
}
