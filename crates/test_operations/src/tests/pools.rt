ghost use Rattle.std.specs.Prelude.{◌≡◌, IsTrue, IsFalse};
ghost use Rattle.std.specs.Bool.{OnTrue};
ghost use Rattle.mark_core.specs.Held.{has_free_slot};
ghost use Rattle.mark_core.specs.Seats.{work_in_hand};
ghost use Rattle.gc_table.specs.Seats.{state_of, view_of};
ghost use Rattle.gc_table.specs.SeatRecords.{At, inside, resting};
ghost use Rattle.packet_pools.specs.Tracing.{IsTracer};

use super::meeting::Meeting;
use super::opening::opened;
use gc_table::{Heap, HeapSeat};
use packet_pools::{all_empty, give, pop, take_deferred, take_input, take_output};
use std::sync::Wait;
use std::thread::{Threads, join_mut};
use test_heaps::{SMALL, enters, sees_marking, try_marking};

fn begin(heap: &Heap, seat: &mut HeapSeat, k: u32) -> bool
    requires { At heap.now resting k seat.old }
    ensures { OnTrue result (At heap.now inside k seat.new) }
{
    if !enters(heap, seat, k) {
        return false;
    }
    try_marking(heap, seat, k);
    sees_marking(heap, seat, k)
}

/// The length of a packet, and whether all are empty while a seat has it, and then.
fn one_packet(heap: &Heap, seat: &mut HeapSeat, k: u32) -> Option<(u32, bool, bool)>
    requires { At heap.now resting k seat.old }
{
    if !begin(heap, seat, k) {
        return None;
    }
    let held = take_output(heap, seat)?;
    let length = held.length();
    let before = all_empty(heap, seat);
    give(heap, seat, held, false);
    let after = all_empty(heap, seat);
    Some((length, before, after))
}

fn exchange(heap: &Heap, seat: &mut HeapSeat) -> bool
    requires seat { IsTracer heap.now seat.old }
    requires free { IsTrue (has_free_slot (state_of seat.old).held) }
    requires idle { IsFalse (work_in_hand heap.now.shape.fields (state_of seat.old)) }
    ensures seat { IsTracer heap.now seat.new }
    ensures shape { (view_of seat.new).shape ≡ (view_of seat.old).shape }
    ensures state { state_of seat.new ≡ state_of seat.old }
{
    match take_output(heap, seat) {
        Some(held) => {
            give(heap, seat, held, false);
            true
        }
        None => false,
    }
}

fn third_packet(heap: &Heap, seat: &mut HeapSeat, k: u32) -> Option<bool>
    requires { At heap.now resting k seat.old }
{
    if !begin(heap, seat, k) {
        return None;
    }
    let first = take_output(heap, seat)?;
    let Some(second) = take_output(heap, seat) else {
        give(heap, seat, first, false);
        return None;
    };
    let found = exchange(heap, seat);
    give(heap, seat, second, false);
    give(heap, seat, first, false);
    Some(found)
}

fn finds_work(heap: &Heap, seat: &mut HeapSeat, k: u32) -> bool
    requires { At heap.now inside k seat.old }
    ensures { At heap.now inside k seat.new }
{
    if let Some(held) = take_input(heap, seat) {
        give(heap, seat, held, false);
        return true;
    }
    if let Some(held) = take_deferred(heap, seat) {
        give(heap, seat, held, false);
        return true;
    }
    false
}

fn pops_nothing(heap: &Heap, seat: &mut HeapSeat, k: u32) -> Option<bool>
    requires { At heap.now inside k seat.old }
{
    let mut held = take_output(heap, seat)?;
    if held.length() != 0 {
        give(heap, seat, held, false);
        return None;
    }
    let popped = pop(heap, seat, &mut held);
    give(heap, seat, held, false);
    Some(popped.is_none())
}

fn round(heap: &Heap, seat: &mut HeapSeat, k: u32) -> bool
    requires { At heap.now inside k seat.old }
    ensures { At heap.now inside k seat.new }
{
    exchange(heap, seat)
}

fn rounds(heap: &Heap, seat: &mut HeapSeat, k: u32, count: u32) -> u32
    requires { At heap.now resting k seat.old }
{
    if !begin(heap, seat, k) {
        return 0;
    }
    let mut done = 0;
    for _attempt in 0..10_000_000_u32 {
        if done == count {
            return done;
        }
        if round(heap, seat, k) {
            done = done.saturating_add(1);
        }
    }
    done
}

/// How many of 1,000 packets it got, once the other thread was there.
fn meets_and_exchanges<R: Wait>(
    rt: &R,
    heap: &Heap,
    seat: &mut HeapSeat,
    k: u32,
    meeting: &Meeting,
) -> u32
    requires { At heap.now resting k seat.old }
{
    meeting.come(rt);
    rounds(heap, seat, k, 1000)
}

fn both<R: Threads + Wait + Sync>(
    rt: &R,
    heap: &Heap,
    one: &mut HeapSeat,
    two: &mut HeapSeat,
    j: u32,
    k: u32,
    meeting: &Meeting,
) -> u32
    requires { At heap.now resting j one.old × At heap.now resting k two.old }
{
    let (a, b) = join_mut(
        rt,
        &mut || meets_and_exchanges(rt, heap, one, j, meeting),
        &mut || meets_and_exchanges(rt, heap, two, k, meeting),
    );
    a.saturating_add(b)
}

fn first_answers(heap: &Heap, seat: &mut HeapSeat) -> Option<(bool, bool)>
    requires { At heap.now resting 0 seat.old }
{
    if !begin(heap, seat, 0) {
        return None;
    }
    let found = finds_work(heap, seat, 0);
    let popped = pops_nothing(heap, seat, 0)?;
    Some((found, popped))
}

#[test]
fn answers(rt: HostRuntime) {
    let (heap, mut seat, _one, _two) = opened(&rt, SMALL);
    assert!(&rt; first_answers(&heap, &mut seat) == Some((false, true)));
}

#[test]
fn quiet(rt: HostRuntime) {
    let (heap, mut seat, _one, _two) = opened(&rt, SMALL);
    assert!(&rt; one_packet(&heap, &mut seat, 0) == Some((0, false, true)));
}

#[test]
fn no_third(rt: HostRuntime) {
    let (heap, mut seat, _one, _two) = opened(&rt, SMALL);
    assert!(&rt; third_packet(&heap, &mut seat, 0) == Some(false));
}

#[test]
fn two_threads(rt: HostRuntime) {
    let (heap, mut one, mut two, mut other) = opened(&rt, SMALL);
    let meeting = Meeting::of(2);
    let done = both(&rt, &heap, &mut one, &mut two, 0, 1, &meeting);
    assert!(&rt; meeting.is_met());
    assert!(&rt; done == 2000 && all_empty(&heap, &mut other), "{done}");
}
