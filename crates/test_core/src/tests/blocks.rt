ghost use Rattle.std.specs.Prelude.{◌≡◌, ◌<◌};
ghost use Rattle.std.specs.Bool.{OnTrue};
ghost use Rattle.gc_table.specs.Seats.{view_of};
ghost use Rattle.gc_table.specs.SeatRecords.{resting};
ghost use Rattle.test_core.specs.Ready.{Ready};
ghost use Rattle.test_heaps.specs.Seats.{New};

use super::cells::make_cell;
use super::claims::{cached, claim, read_free, release};
use super::seats::{begin, leave};
use gc_table::{Heap, HeapSeat};
use mark_core::BLOCK_CELLS;
use std::sync::Wait;
use test_heaps::has_making;

fn fill(heap: &Heap, seat: &mut HeapSeat) -> bool
    requires { Ready heap.now seat.old }
    ensures { OnTrue result (Ready heap.now seat.new) }
{
    for number in 0..BLOCK_CELLS {
        if !make_cell(heap, seat, number, number, 0) {
            return false;
        }
    }
    true
}

/// Publishes the cells that the seat made, and answers the allocation bits before.
pub fn publish(heap: &Heap, seat: &mut HeapSeat) -> Option<u64>
    requires ready { Ready heap.now seat.old }
    ensures ready { Ready heap.now seat.new }
    ensures section { (view_of seat.new).own ≡ (view_of seat.old).own }
{
    if seat.state().cache.is_some() && seat.state().owes.is_none() && !has_making(seat) {
        Some(heap.publish_cells(seat))
    } else {
        None
    }
}

/// Claims and reads the first block.
pub fn take_block(heap: &Heap, seat: &mut HeapSeat, bits: u64) -> bool
    requires { Ready heap.now seat.old }
    ensures { Ready heap.now seat.new }
{
    claim(heap, seat) == Some(true) && read_free(heap, seat) == Some(bits)
}

fn publishes(heap: &Heap, seat: &mut HeapSeat) -> bool
    requires { Ready heap.now seat.old }
    ensures { Ready heap.now seat.new }
{
    cached(seat) == Some((0, 0, u64::MAX))
        && publish(heap, seat) == Some(0)
        && cached(seat) == Some((0, 0, 0))
        && release(heap, seat)
        && take_block(heap, seat, u64::MAX)
        && cached(seat) == Some((0, 0, 0))
        && release(heap, seat)
}

/// A whole block is filled, published and given up.
pub fn fills<R: Wait>(rt: &R, heap: &Heap, zero: &mut HeapSeat, one: &mut HeapSeat) -> bool
    requires zero { New heap.now resting 0 zero.old × (0 < heap.now.shape.sections) }
    requires one { Ready heap.now one.old }
    ensures { OnTrue result (Ready heap.now zero.new × Ready heap.now one.new) }
{
    if !begin(rt, heap, zero, one) || !take_block(heap, one, 0) || !fill(heap, one) {
        return false;
    }
    publishes(heap, one) && leave(heap, zero) && leave(heap, one)
}
