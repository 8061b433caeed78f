ghost use Rattle.std.specs.Prelude.{◌≡◌, ◌<◌};
ghost use Rattle.mark_core.specs.Shapes.{IsShape};
ghost use Rattle.gc_table.specs.SeatRecords.{At, inside, resting};
ghost use Rattle.test_operations.specs.Seats.{IsReadyMutator, playing};
ghost use Rattle.test_heaps.specs.Seats.{New};

use super::seasons::begin;
use gc_table::{Heap, HeapSeat};
use mark_core::Shape;
use std::process::Abort;
use std::sync::Wait;
use test_heaps::{next_seat, open};

/// A heap, and the seats of the catalogue, of a warehouse and of a tracer.
pub type Opened = (Heap, HeapSeat, HeapSeat, HeapSeat);

/// A heap in which nothing has happened.
pub fn opened<R: Abort + AllocGlobal>(rt: &R, shape: Shape) -> Opened
    requires { IsShape shape }
    ensures shape { result.0.shape ≡ shape }
    ensures seats { New result.0 resting 0 result.1 × New result.0 resting 1 result.2 × New result.0 resting 2 result.3 }
{
    let Some((heap, mut seats)) = open(rt.alloc(), shape, 3) else {
        panic!(rt; "memory")
    };
    let zero = next_seat(&heap, &mut seats, 0);
    let one = next_seat(&heap, &mut seats, 1);
    let two = next_seat(&heap, &mut seats, 2);
    (heap, zero, one, two)
}

/// A heap in whose first season the catalogue's seat marks, and the warehouse's marks as a mutator.
pub fn begun<R: Abort + AllocGlobal + Wait>(rt: &R, shape: Shape) -> Opened
    requires { IsShape shape × (1 < shape.sections) }
    ensures tracers { At result.0 inside 0 result.1 × At result.0 resting 2 result.3 }
    ensures mutator { At result.0 playing 1 result.2 × IsReadyMutator result.0 result.2 }
{
    let (heap, mut zero, mut one, two) = opened(rt, shape);
    if !begin(rt, &heap, &mut zero, &mut one) {
        panic!(rt; "it doesn't begin");
    }
    (heap, zero, one, two)
}
