ghost use Rattle.std.specs.Prelude.{◌≡◌, IfSome};
ghost use Rattle.bench_steps.specs.Making.{objects_of};
ghost use Rattle.bench_steps.specs.Records.{SitsWithRecord, entered, resting};

use gc_table::{Heap, HeapSeat};
use mark_core::{BLOCK_CELLS, CARD_CELLS, Shape};
use std::alloc::Global;
use test_heaps::open_one;

/// How many blocks a heap has.
pub const BLOCKS: u32 = 64;

/// How many cells a heap has.
pub const CELLS: u32 = BLOCKS * BLOCK_CELLS;

/// How many cards a heap has.
pub const CARDS: u64 = (CELLS / CARD_CELLS) as u64;

/// Objects of two fields.
pub const SIZES: Shape = Shape {
    cells: CELLS,
    packets: 2,
    entries: 2,
    sections: 1,
    fields: 2,
    objects: 2_000_000,
    sharing: false,
    slots: 0,
    stretch: 1,
};

/// A new heap, and its seat.
pub fn open(alloc: Global) -> Option<(Heap, HeapSeat)>
    ensures rests { IfSome result (λ r. SitsWithRecord r.0 resting r.1) }
    ensures objects { IfSome result (λ r. objects_of r.1 ≡ 0) }
{
    open_one(alloc, SIZES)
}

/// A new heap, and its seat, which entered.
pub fn open_entered(alloc: Global) -> Option<(Heap, HeapSeat)>
    ensures enters { IfSome result (λ r. SitsWithRecord r.0 entered r.1) }
    ensures objects { IfSome result (λ r. objects_of r.1 ≡ 0) }
{
    let (heap, mut seat) = open(alloc)?;
    if heap.enter_step(&mut seat) {
        Some((heap, seat))
    } else {
        None
    }
}
