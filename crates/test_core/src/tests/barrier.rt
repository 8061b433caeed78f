//! A store in an object dirties the object's card, unless nobody else can know the object.
ghost use Rattle.std.specs.Prelude.{◌≡◌, ◌<◌, is_none, true};
ghost use Rattle.std.specs.Bool.{OnTrue};
ghost use Rattle.gc_table.specs.Seats.{state_of};
ghost use Rattle.gc_table.specs.SeatRecords.{resting};
ghost use Rattle.test_core.specs.Ready.{Ready, SeatHasOwn, may_link as may_link_of};
ghost use Rattle.test_heaps.specs.Seats.{New};

use super::blocks::{publish, take_block};
use super::cells::make_cell;
use super::claims::release;
use super::seats::{begin, leave, takes_part};
use gc_table::{Heap, HeapSeat};
use mark_core::{CARD_CELLS, Shape, VARIABLES};
use std::sync::Wait;
use test_heaps::{is_marking, may_mutate};

fn may_link(shape: &Shape, seat: &HeapSeat, v: u8, i: u8, w: u8) -> bool
    ensures { result ≡ may_link_of shape.now (state_of seat.now) v i w }
{
    let s = seat.state();
    (v < VARIABLES && u32::from(i) < shape.fields && w < VARIABLES && may_mutate(seat))
        && (s.owes.is_none() && !s.spent && !shape.sharing)
}

/// Stores variable w in field i of variable 0's object, if the seat owes no card.
fn link(heap: &Heap, seat: &mut HeapSeat, i: u8, w: u8) -> bool
    requires { Ready heap.now seat.old × SeatHasOwn seat.old 0 }
    ensures { Ready heap.now seat.new × SeatHasOwn seat.new 0 }
{
    let shape = heap.shape();
    if may_link(&shape, seat, 0, i, w) && is_marking(seat) {
        heap.store_field(seat, 0, i, Some(w));
        true
    } else {
        false
    }
}

fn owed(seat: &HeapSeat) -> Option<u32>
    ensures { result ≡ (state_of seat.now).owes }
{
    seat.state().owes
}

/// Dirties the card that the seat owes, if any.
fn dirty_owed(heap: &Heap, seat: &mut HeapSeat) -> bool
    requires { Ready heap.now seat.old × SeatHasOwn seat.old 0 }
    ensures ready { Ready heap.now seat.new × SeatHasOwn seat.new 0 }
    ensures paid { OnTrue result (is_none (state_of seat.new).owes ≡ true) }
{
    let Some(card) = owed(seat) else {
        return false;
    };
    if card < heap.shape().cells / CARD_CELLS && takes_part(seat) {
        heap.dirty_card(seat, card);
        true
    } else {
        false
    }
}

fn is_dirty(heap: &Heap, seat: &mut HeapSeat) -> Option<bool>
    requires { Ready heap.now seat.old × SeatHasOwn seat.old 0 }
    ensures { Ready heap.now seat.new × SeatHasOwn seat.new 0 }
{
    if heap.shape().cells >= CARD_CELLS {
        Some(heap.read_card(seat, 0))
    } else {
        None
    }
}

/// The whole barrier.
fn store(heap: &Heap, seat: &mut HeapSeat, i: u8, w: u8) -> bool
    requires { Ready heap.now seat.old × SeatHasOwn seat.old 0 }
    ensures ready { Ready heap.now seat.new × SeatHasOwn seat.new 0 }
    ensures paid { OnTrue result (is_none (state_of seat.new).owes ≡ true) }
{
    link(heap, seat, i, w) && dirty_owed(heap, seat)
}

fn links_new(heap: &Heap, seat: &mut HeapSeat) -> bool
    requires { Ready heap.now seat.old × SeatHasOwn seat.old 0 }
    ensures { Ready heap.now seat.new × SeatHasOwn seat.new 0 }
{
    link(heap, seat, 0, 1) && owed(seat).is_none() && is_dirty(heap, seat) == Some(false)
}

fn publish_both(heap: &Heap, seat: &mut HeapSeat) -> bool
    requires { Ready heap.now seat.old × SeatHasOwn seat.old 0 }
    ensures { Ready heap.now seat.new × SeatHasOwn seat.new 0 }
{
    publish(heap, seat) == Some(0)
}

fn links_published(heap: &Heap, seat: &mut HeapSeat) -> bool
    requires { Ready heap.now seat.old × SeatHasOwn seat.old 0 }
    ensures { Ready heap.now seat.new × SeatHasOwn seat.new 0 }
{
    link(heap, seat, 0, 1)
        && owed(seat) == Some(0)
        && is_dirty(heap, seat) == Some(false)
        && dirty_owed(heap, seat)
        && is_dirty(heap, seat) == Some(true)
}

fn links(heap: &Heap, seat: &mut HeapSeat) -> bool
    requires { Ready heap.now seat.old × SeatHasOwn seat.old 0 }
    ensures { Ready heap.now seat.new }
{
    links_new(heap, seat)
        && publish_both(heap, seat)
        && links_published(heap, seat)
        && store(heap, seat, 0, 1)
        && release(heap, seat)
}

/// Two cells are made and linked, before and after they are published.
pub fn stores<R: Wait>(rt: &R, heap: &Heap, zero: &mut HeapSeat, one: &mut HeapSeat) -> bool
    requires zero { New heap.now resting 0 zero.old × (0 < heap.now.shape.sections) }
    requires one { Ready heap.now one.old }
    ensures { OnTrue result (Ready heap.now zero.new × Ready heap.now one.new) }
{
    if !begin(rt, heap, zero, one) || !take_block(heap, one, 0) || !make_cell(heap, one, 1, 8, 1) {
        return false;
    }
    if !make_cell(heap, one, 0, 7, 0) {
        return false;
    }
    links(heap, one) && leave(heap, zero) && leave(heap, one)
}
