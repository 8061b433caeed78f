//! Each block has one owner at a time.
//! Each block has one owner at a time.
//! Each block has one owner at a time.
ghost use Rattle.std.specs.Prelude.{◌≡◌, ◌<◌};
ghost use Rattle.std.specs.Bool.{OnTrue};
ghost use Rattle.mark_core.specs.Seats.{is_unread as is_unread_cache, has_used as has_used_cell};
ghost use Rattle.gc_table.specs.Seats.{state_of};
ghost use Rattle.gc_table.specs.SeatRecords.{resting};
ghost use Rattle.test_core.specs.Ready.{Ready};
ghost use Rattle.test_heaps.specs.Seats.{New};

use super::seats::{begin, is_running, leave};
use gc_table::{Heap, HeapSeat};
use mark_core::BLOCK_CELLS;
use std::sync::Wait;
use test_heaps::has_making;

/// Claims the first block: whether nobody had it. None if the seat may claim none.
pub fn claim(heap: &Heap, seat: &mut HeapSeat) -> Option<bool>
    requires { Ready heap.now seat.old }
    ensures { Ready heap.now seat.new }
{
    if is_running(seat)
        && heap.shape().cells >= BLOCK_CELLS
        && seat.state().cache.is_none()
        && seat.state().section.is_some()
    {
        Some(heap.claim_block(seat, 0))
    } else {
        None
    }
}

fn is_unread(seat: &HeapSeat) -> bool
    ensures { result ≡ is_unread_cache (state_of seat.now).cache }
{
    match seat.state().cache {
        None => false,
        Some(cache) => cache.unread,
    }
}

/// The allocation bits of the seat's block, if not read yet.
pub fn read_free(heap: &Heap, seat: &mut HeapSeat) -> Option<u64>
    requires { Ready heap.now seat.old }
    ensures { Ready heap.now seat.new }
{
    if is_unread(seat) {
        Some(heap.read_free(seat))
    } else {
        None
    }
}

fn has_used(seat: &HeapSeat) -> bool
    ensures { result ≡ has_used_cell (state_of seat.now).cache }
{
    match seat.state().cache {
        None => false,
        Some(cache) => !(cache.used == 0),
    }
}

/// Gives the block up, if there is no unpublished cell.
pub fn release(heap: &Heap, seat: &mut HeapSeat) -> bool
    requires { Ready heap.now seat.old }
    ensures { Ready heap.now seat.new }
{
    if seat.state().cache.is_some() && !has_used(seat) && !has_making(seat) {
        heap.release_block(seat);
        true
    } else {
        false
    }
}

/// The seat's block, its free and its used cells.
pub fn cached(seat: &HeapSeat) -> Option<(u32, u64, u64)> {
    match seat.state().cache {
        None => None,
        Some(cache) => Some((cache.block, cache.free, cache.used)),
    }
}

/// The second seat claims the free block, and the first doesn't get it.
pub fn claims<R: Wait>(rt: &R, heap: &Heap, zero: &mut HeapSeat, one: &mut HeapSeat) -> bool
    requires zero { New heap.now resting 0 zero.old × (0 < heap.now.shape.sections) }
    requires one { Ready heap.now one.old }
    ensures { OnTrue result (Ready heap.now zero.new × Ready heap.now one.new) }
{
    begin(rt, heap, zero, one)
        && claim(heap, one) == Some(true)
        && read_free(heap, one) == Some(0)
        && cached(one) == Some((0, u64::MAX, 0))
        && claim(heap, zero) == Some(false)
        && cached(zero).is_none()
        && release(heap, one)
        && leave(heap, zero)
        && leave(heap, one)
}
