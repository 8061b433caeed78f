ghost use Rattle.std.specs.Prelude.{◌<◌};
ghost use Rattle.mark_core.specs.Shapes.{IsShape};
ghost use Rattle.gc_table.specs.SeatRecords.{At, resting};
ghost use Rattle.test_heaps.specs.Seats.{HasEachObject, New};

use super::seasons::begin;
use gc_table::{Heap, HeapSeat};
use mark_core::Shape;
use std::process::Abort;
use std::sync::Wait;
use test_heaps::{next_seat, open};

/// A heap; the catalogue's seat outside, a warehouse's active one, and one that has done nothing.
pub fn begun<R: Abort + AllocGlobal + Wait>(
    rt: &R,
    shape: Shape,
) -> (Heap, HeapSeat, HeapSeat, HeapSeat)
    requires { IsShape shape × (1 < shape.sections) }
    ensures outside { At result.0 resting 0 result.1 × New result.0 resting 2 result.3 }
    ensures active { HasEachObject result.0 result.2 }
{
    let Some((heap, mut seats)) = open(rt.alloc(), shape, 3) else {
        panic!(rt; "memory")
    };
    let mut zero = next_seat(&heap, &mut seats, 0);
    let mut one = next_seat(&heap, &mut seats, 1);
    let two = next_seat(&heap, &mut seats, 2);
    if !begin(rt, &heap, &mut zero, &mut one) {
        panic!(rt; "it doesn't begin");
    }
    (heap, zero, one, two)
}
