//! Two threads take and give one packet, step by step.
ghost use Rattle.std.specs.Bool.{OnTrue, OnFalse};
ghost use Rattle.gc_table.specs.SeatRecords.{At, inside, reserved, holding, measured, returned, resting};

use super::meeting::Meeting;
use super::opening::opened;
use gc_table::{Heap, HeapSeat};
use mark_core::EMPTY_POOL;
use std::sync::Wait;
use std::thread::{Threads, join_mut};
use test_heaps::{SMALL, enters, sees_marking, try_marking};

fn reserve(heap: &Heap, seat: &mut HeapSeat, k: u32)
    requires { At heap.now inside k seat.old }
    ensures { At heap.now reserved k seat.new }
{
    heap.reserve(seat);
}

fn take(heap: &Heap, seat: &mut HeapSeat, k: u32) -> bool
    requires { At heap.now reserved k seat.old }
    ensures taken { OnTrue result (At heap.now holding k seat.new) }
    ensures lost { OnFalse result (At heap.now reserved k seat.new) }
{
    heap.take(seat, EMPTY_POOL, 0)
}

fn is_empty(heap: &Heap, seat: &mut HeapSeat, k: u32) -> bool
    requires { At heap.now holding k seat.old }
    ensures { OnTrue result (At heap.now measured k seat.new) }
{
    heap.read_length(seat, 0) == 0
}

fn give(heap: &Heap, seat: &mut HeapSeat, k: u32)
    requires { At heap.now measured k seat.old }
    ensures { At heap.now returned k seat.new }
{
    heap.give(seat, 0, false);
}

fn credit(heap: &Heap, seat: &mut HeapSeat, k: u32)
    requires { At heap.now returned k seat.old }
    ensures { At heap.now inside k seat.new }
{
    heap.credit(seat);
}

fn cancel(heap: &Heap, seat: &mut HeapSeat, k: u32)
    requires { At heap.now reserved k seat.old }
    ensures { At heap.now inside k seat.new }
{
    heap.credit(seat);
}

fn leave(heap: &Heap, seat: &mut HeapSeat, k: u32)
    requires { At heap.now inside k seat.old }
    ensures { At heap.now resting k seat.new }
{
    heap.leave_step(seat);
}

/// Takes packet 0 and gives it back, or finds it taken. False if it can do neither.
fn round(heap: &Heap, seat: &mut HeapSeat, k: u32) -> bool
    requires { At heap.now resting k seat.old }
    ensures { OnTrue result (At heap.now resting k seat.new) }
{
    if !enters(heap, seat, k) {
        return false;
    }
    try_marking(heap, seat, k);
    if !sees_marking(heap, seat, k) {
        return false;
    }
    reserve(heap, seat, k);
    if take(heap, seat, k) {
        if !is_empty(heap, seat, k) {
            return false;
        }
        give(heap, seat, k);
        credit(heap, seat, k);
    } else {
        cancel(heap, seat, k);
    }
    leave(heap, seat, k);
    true
}

fn rounds(heap: &Heap, seat: &mut HeapSeat, k: u32, count: u32) -> u32
    requires { At heap.now resting k seat.old }
{
    for done in 0..count {
        if !round(heap, seat, k) {
            return done;
        }
    }
    count
}

fn meets_and_trades<R: Wait>(
    rt: &R,
    heap: &Heap,
    seat: &mut HeapSeat,
    k: u32,
    meeting: &Meeting,
) -> u32
    requires { At heap.now resting k seat.old }
{
    meeting.come(rt);
    rounds(heap, seat, k, 1000)
}

fn both<R: Threads + Wait + Sync>(
    rt: &R,
    heap: &Heap,
    one: &mut HeapSeat,
    two: &mut HeapSeat,
    meeting: &Meeting,
) -> (u32, u32)
    requires one { At heap.now resting 0 one.old }
    requires two { At heap.now resting 1 two.old }
{
    join_mut(
        rt,
        &mut || meets_and_trades(rt, heap, one, 0, meeting),
        &mut || meets_and_trades(rt, heap, two, 1, meeting),
    )
}

#[test]
fn two_threads(rt: HostRuntime) {
    let (heap, mut one, mut two, _two) = opened(&rt, SMALL);
    let meeting = Meeting::of(2);
    let (a, b) = both(&rt, &heap, &mut one, &mut two, &meeting);
    assert!(&rt; meeting.is_met());
    assert!(&rt; a == 1000 && b == 1000, "{a} {b}");
}
