//! A safe point of a mutator of a shared world, and the way to a new object. While nothing hinders the mutator, no root
//! is stored.
ghost use Rattle.std.specs.Prelude.{◌≡◌, ◌<◌, false, IfErr, IfOk, IsTrue};
ghost use Rattle.std.specs.Bool.{OnFalse, OnTrue};
ghost use Rattle.mark_core.specs.Numbers.{section_variables};
ghost use Rattle.gc_table.specs.Seats.{Across, view_of};
ghost use Rattle.seat_turns.specs.Coming.{FlushesFirst, MakesNoneAtTurn};
ghost use Rattle.seat_turns.specs.Halting.{LeftFull};
ghost use Rattle.seat_turns.specs.Sharing.{LeavesHeap, MakesShared, MakesSharedAfter};
ghost use Rattle.seat_turns.specs.Standing.{HoldsTurn};
ghost use Rattle.shared_heap.specs.Passing.{FindsFull, IsLeftSo, MakesAfter, MakesNoneAfter, MakesOn, Passes};

use alloc_cache::cache_of;
use cache_refills::Unwatched;
use gc_table::{Heap, HeapSeat};
use seat_steps::{Came, pass_once};
use seat_turns::{Refused, enter_turn, keep_some, make_flushed, make_shared_in, with_free};
use std::sync::Wait;

/// A safe point. If a stop is under way the seat leaves, and comes in again. Refused only if the heap is full; then the
/// seat is outside.
pub fn pass<R: Wait>(rt: &R, heap: &Heap, seat: &mut HeapSeat) -> Result<(), Refused>
    requires turn { HoldsTurn heap.now seat.old }
    ensures ok { IfOk result (λ _. HoldsTurn heap.now seat.new) }
    ensures err { IfErr result (λ e. LeftFull e heap.now seat.new) }
    ensures leaves { Across LeavesHeap seat.old seat.new }
    ensures passes { IfOk result (λ _. Across Passes seat.old seat.new) }
    ensures full { IfErr result (λ _. Across FindsFull seat.old seat.new) }
{
    match pass_once(heap, seat) {
        Came::Done => Ok(()),
        Came::Full => Err(Refused::Full),
        _ => enter_turn(rt, heap, seat),
    }
}

/// Makes an object in variable v, if the cache has a free cell and the section may make one.
fn makes_here(heap: &Heap, seat: &mut HeapSeat, v: u8, value: u32) -> bool
    requires turn { HoldsTurn heap.now seat.old }
    requires shared { IsTrue heap.now.shape.sharing }
    requires range { v < section_variables }
    ensures turn { HoldsTurn heap.now seat.new }
    ensures made { OnTrue result (Across (MakesShared v value) seat.old seat.new) }
    ensures none { OnFalse result (view_of seat.new ≡ view_of seat.old) }
{
    if seat.state().made >= heap.shape().objects {
        return false;
    }
    match with_free(cache_of(seat)) {
        Ok(free) => {
            make_shared_in(heap, seat, free, v, value);
            true
        }
        Err(none) => {
            keep_some(none);
            false
        }
    }
}

/// Makes an object in variable v: of the cache, or once no root lags and a cell was looked for.
fn make_on<R: Wait>(
    rt: &R,
    heap: &Heap,
    seat: &mut HeapSeat,
    v: u8,
    value: u32,
) -> Result<(), Refused>
    requires turn { HoldsTurn heap.now seat.old }
    requires shared { IsTrue heap.now.shape.sharing }
    requires range { v < section_variables }
    ensures ok { IfOk result (λ _. HoldsTurn heap.now seat.new × Across (MakesSharedAfter v value) seat.old seat.new) }
    ensures err { IfErr result (λ e. IsLeftSo e heap.now seat.new) }
    ensures leaves { IfErr result (λ _. Across LeavesHeap seat.old seat.new) }
    ensures made { IfOk result (λ _. Across (MakesOn heap.now.shape v value) seat.old seat.new) }
    ensures none { IfErr result (λ e. Across (FlushesFirst (MakesNoneAtTurn e false heap.now.shape)) seat.old seat.new) }
{
    if makes_here(heap, seat, v, value) {
        return Ok(());
    }
    make_flushed(rt, heap, seat, v, value, &mut Unwatched)
}

/// Makes an object in variable v, after a safe point. Refused if the heap is full (the seat is outside then) or the
/// section has made all its objects.
pub fn make<R: Wait>(
    rt: &R,
    heap: &Heap,
    seat: &mut HeapSeat,
    v: u8,
    value: u32,
) -> Result<(), Refused>
    requires turn { HoldsTurn heap.now seat.old }
    requires shared { IsTrue heap.now.shape.sharing }
    requires range { v < section_variables }
    ensures ok { IfOk result (λ _. HoldsTurn heap.now seat.new × Across (MakesSharedAfter v value) seat.old seat.new) }
    ensures err { IfErr result (λ e. IsLeftSo e heap.now seat.new) }
    ensures leaves { IfErr result (λ _. Across LeavesHeap seat.old seat.new) }
    ensures made { IfOk result (λ _. Across (MakesAfter heap.now.shape v value) seat.old seat.new) }
    ensures none { IfErr result (λ e. Across (MakesNoneAfter e heap.now.shape) seat.old seat.new) }
{
    match pass(rt, heap, seat) {
        Ok(()) => make_on(rt, heap, seat, v, value),
        Err(full) => Err(full),
    }
}
