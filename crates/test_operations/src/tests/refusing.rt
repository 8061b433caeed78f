//! A packet that is full refuses a cell, and nothing changes.
ghost use Rattle.std.specs.Prelude.{◌≡◌, ◌<◌, Some, IsTrue};
ghost use Rattle.std.specs.Bool.{OnTrue};
ghost use Rattle.mark_core.specs.Numbers.{section_variables};
ghost use Rattle.mark_core.specs.Steps.PacketSteps.{may_push};
ghost use Rattle.gc_table.specs.Seats.{state_of, view_of};
ghost use Rattle.packet_pools.specs.Hands.{HoldsPacket};
ghost use Rattle.packet_pools.specs.Tracing.{IsTracer};
ghost use Rattle.test_operations.specs.Seats.{IsReadyMutator};

use super::objects::{gives_up, publish, take};
use super::opening::begun;
use super::tracing::is_idle;
use gc_table::{Heap, HeapSeat};
use mark_core::{Cell, card_of};
use packet_pools::{Held, PacketFull, give, push, take_output};
use std::process::Abort;
use test_heaps::{SMALL, make, work_in_hand};

/// An object in each of variables 0, 1 and 2.
fn makes_three(heap: &Heap, seat: &mut HeapSeat) -> bool
    requires { IsReadyMutator heap.now seat.old }
    ensures { OnTrue result (IsReadyMutator heap.now seat.new) }
{
    let Some(mut cache) = take(heap, seat) else {
        return false;
    };
    make(heap, seat, &mut cache, 0, 7);
    make(heap, seat, &mut cache, 1, 8);
    make(heap, seat, &mut cache, 2, 9);
    publish(heap, seat, &mut cache);
    gives_up(heap, seat, cache);
    true
}

/// Marks the object in a variable of section 1, which then is in hand, and in no packet yet.
fn marks<R: Abort>(rt: &R, heap: &Heap, seat: &mut HeapSeat, held: &Held, v: u8) -> Cell
    requires seat { IsTracer heap.now seat.old }
    requires held { HoldsPacket held.now (view_of seat.old) }
    requires root { (1 < heap.now.shape.sections) × (v < section_variables) }
    ensures seat { IsTracer heap.now seat.new }
    ensures held { HoldsPacket held.now (view_of seat.new) }
    ensures fresh { (state_of seat.new).fresh ≡ Some result }
    ensures may { IsTrue (may_push (state_of seat.new) result) }
{
    if work_in_hand(heap.shape().fields, seat) {
        panic!(rt; "work is in hand");
    }
    heap.read_root(seat, 1, v);
    let Some(cell) = seat.state().value else {
        panic!(rt; "the variable is nil")
    };
    if seat.state().fresh.is_some() {
        panic!(rt; "another is in hand");
    }
    if !heap.set_mark(seat, cell) {
        panic!(rt; "it is marked already");
    }
    match seat.state().fresh {
        Some(fresh) => fresh,
        None => panic!(rt; "it isn't in hand"),
    }
}

/// Marks it, and puts it into the packet.
fn puts<R: Abort>(rt: &R, heap: &Heap, seat: &mut HeapSeat, held: &mut Held, v: u8)
    requires seat { IsTracer heap.now seat.old }
    requires held { HoldsPacket held.old (view_of seat.old) }
    requires root { (1 < heap.now.shape.sections) × (v < section_variables) }
    ensures seat { IsTracer heap.now seat.new }
    ensures held { HoldsPacket held.new (view_of seat.new) }
{
    let cell = marks(rt, heap, seat, held, v);
    if push(heap, seat, held, cell).is_err() {
        panic!(rt; "it is full already");
    }
}

/// Dirties the card of the cell in hand, and gives the packet back.
fn lets_go<R: Abort>(rt: &R, heap: &Heap, seat: &mut HeapSeat, held: Held, cell: Cell)
    requires seat { IsTracer heap.now seat.old }
    requires held { HoldsPacket held (view_of seat.old) }
    requires fresh { (state_of seat.old).fresh ≡ Some cell }
{
    heap.dirty_card(seat, card_of(cell));
    if work_in_hand(heap.shape().fields, seat) {
        panic!(rt; "work is left");
    }
    give(heap, seat, held, false);
}

/// Fills a packet with two cells: whether a third that is refused is in hand still, and how many cells the packet has
/// then.
fn refuses<R: Abort>(rt: &R, heap: &Heap, seat: &mut HeapSeat) -> Option<(bool, u32)>
    requires { IsReadyMutator heap.now seat.old }
{
    if !makes_three(heap, seat) || !is_idle(seat) || heap.shape().sections < 2 {
        return None;
    }
    let mut held = take_output(heap, seat)?;
    puts(rt, heap, seat, &mut held, 0);
    puts(rt, heap, seat, &mut held, 1);
    let cell = marks(rt, heap, seat, &held, 2);
    let Err(PacketFull) = push(heap, seat, &mut held, cell) else {
        panic!(rt; "it has room")
    };
    let is_in_hand = seat.state().fresh == Some(cell);
    let length = held.length();
    lets_go(rt, heap, seat, held, cell);
    Some((is_in_hand, length))
}

#[test]
fn a_full_packet_refuses_a_cell(rt: HostRuntime) {
    let (heap, _zero, mut one, _two) = begun(&rt, SMALL);
    assert!(&rt; refuses(&rt, &heap, &mut one) == Some((true, 2)));
}
