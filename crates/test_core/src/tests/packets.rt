//! The pool of empty packets, one more than fit into a word of it.
ghost use Rattle.test_core.specs.Ready.{Ready};

use super::seats::{both_mark, close, leave, open_two, unlike};
use gc_table::{Heap, HeapSeat, Words};
use mark_core::{EMPTY_POOL, Phase, Shape};
use std::alloc::Global;
use test_heaps::{SMALL, is_marking, work_in_hand};

const WIDE: Shape = Shape {
    packets: 65,
    ..SMALL
};

fn second_word(heap: &Heap, seat: &mut HeapSeat) -> Option<u64>
    requires { Ready heap.now seat.old }
    ensures { Ready heap.now seat.new }
{
    if heap.shape().packets == 65 {
        Some(heap.look(seat, EMPTY_POOL, 1))
    } else {
        None
    }
}

/// Reserves an empty packet, if the seat marks.
fn reserve(heap: &Heap, seat: &mut HeapSeat) -> bool
    requires { Ready heap.now seat.old }
    ensures { Ready heap.now seat.new }
{
    if is_marking(seat) && !seat.state().reserved && !seat.state().credit {
        heap.reserve(seat);
        true
    } else {
        false
    }
}

/// Takes the last packet: whether it was there.
fn take_last(heap: &Heap, seat: &mut HeapSeat) -> bool
    requires { Ready heap.now seat.old }
    ensures { Ready heap.now seat.new }
{
    if heap.shape().packets == 65
        && is_marking(seat)
        && !seat.state().holds(64)
        && seat.state().has_free_slot()
        && seat.state().reserved
    {
        heap.take(seat, EMPTY_POOL, 64)
    } else {
        false
    }
}

fn is_empty(heap: &Heap, seat: &mut HeapSeat) -> bool
    requires { Ready heap.now seat.old }
    ensures { Ready heap.now seat.new }
{
    heap.shape().packets == 65
        && seat.state().holds(64)
        && !seat.state().has_length(64)
        && heap.read_length(seat, 64) == 0
}

/// Gives the last packet back, if no work is in hand.
fn give_last(heap: &Heap, seat: &mut HeapSeat) -> bool
    requires { Ready heap.now seat.old }
    ensures { Ready heap.now seat.new }
{
    if heap.shape().packets == 65
        && seat.state().holds(64)
        && seat.state().has_length(64)
        && seat.state().is_stored(64)
        && !work_in_hand(heap.shape().fields, seat)
        && !seat.state().credit
        && !seat.state().reserved
    {
        heap.give(seat, 64, false);
        true
    } else {
        false
    }
}

fn credit(heap: &Heap, seat: &mut HeapSeat) -> bool
    requires { Ready heap.now seat.old }
    ensures { Ready heap.now seat.new }
{
    if seat.state().credit {
        heap.credit(seat);
        true
    } else {
        false
    }
}

/// Packet 64 is the only bit of the second word, until it is taken and when it is back.
fn takes(heap: &Heap, zero: &mut HeapSeat, one: &mut HeapSeat) -> bool
    requires zero { Ready heap.now zero.old }
    requires one { Ready heap.now one.old }
    ensures zero { Ready heap.now zero.new }
    ensures one { Ready heap.now one.new }
{
    second_word(heap, one) == Some(1)
        && both_mark(heap, zero, one)
        && reserve(heap, one)
        && take_last(heap, one)
        && second_word(heap, one) == Some(0)
        && is_empty(heap, one)
        && give_last(heap, one)
        && second_word(heap, one) == Some(1)
        && credit(heap, one)
        && leave(heap, zero)
        && leave(heap, one)
}

fn taken(alloc: Global) -> Option<Words> {
    let (heap, mut zero, mut one) = open_two(alloc, WIDE)?;
    if takes(&heap, &mut zero, &mut one) {
        close(alloc, heap, zero, one)
    } else {
        None
    }
}

#[test]
fn last_packet(rt: HostRuntime) {
    let words = taken(rt.alloc());
    let told = "alloc 1, idents 64, roots 64";
    assert_eq!(&rt; unlike(&words, Phase::Marking, told), None);
}
