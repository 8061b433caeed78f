//! The steps on packets.
ghost use Rattle.std.specs.Prelude.{◌≡◌, ◌<◌, ◌+◌, ◌-◌, ◌%◌, ◌==◌, ◌&&◌, not, if◌then◌else◌, true, false};
ghost use Rattle.mark_core.specs.Bits.{has_bit, with_bit, without_bit, cell_of};
ghost use Rattle.mark_core.specs.Held.{length_in_hand, has_entry, put_packet, drop_packet, set_length};
ghost use Rattle.mark_core.specs.Numbers.{empty_pool_number, pools_in_all, word_bits};
ghost use Rattle.mark_core.specs.Steps.PacketSteps.{reserve_parts, reserve_effect, take_parts, pool_for as pool_for_of, give_parts, credit_parts, credit_effect, push_parts, pop_parts, look_parts, store_length_parts, read_length_parts, read_length_effect};
ghost use Rattle.mark_core.specs.Seats.{is_the};
ghost use Rattle.mark_core.specs.Steps.{first_false as first_false_of};

use crate::cell::Cell;
use crate::failing_part::first_false;
use crate::kinds::Shape;
use crate::layout::pool_words;
use crate::numbers::{DEFERRED_POOL, EMPTY_POOL, HIGH_POOL, LOW_POOL, POOLS, WORD_BITS};
use crate::seat::SeatState;
use crate::standing::may_trace;
use crate::{bits, hand, slots};

/// The record has one reservation at most.
pub fn check_reserve(phase: u64, s: &SeatState) -> Option<u8>
    ensures { result ≡ first_false_of 1 (reserve_parts phase s.now) }
{
    first_false(&[may_trace(phase, s), !s.reserved && !s.credit])
}

pub fn reserve(s: &mut SeatState, old: u64) -> u64
    ensures word { result ≡ (reserve_effect s.old).written old }
    ensures seat { s.new ≡ (reserve_effect s.old).seat old }
{
    s.reserved = true;
    old.wrapping_sub(1)
}

/// Without a reservation the count would say that tracing is done while a seat has work.
pub fn check_take(shape: &Shape, phase: u64, s: &SeatState, q: u8, p: u32) -> Option<u8>
    ensures { result ≡ first_false_of 1 (take_parts shape.now phase s.now q p) }
{
    first_false(&[
        q < POOLS && p < shape.packets && may_trace(phase, s),
        !s.holds(p),
        !(q == EMPTY_POOL) || s.reserved,
        s.has_free_slot(),
    ])
}

pub fn take(s: &mut SeatState, q: u8, p: u32, old: u64) -> u64
    ensures word { result ≡ without_bit old (p % word_bits) }
    ensures seat { let found = has_bit old (p % word_bits) in s.new ≡ record s.old { held = if found then put_packet s.old.held p else s.old.held; reserved = s.old.reserved && not ((q == empty_pool_number) && found) } }
{
    let found = bits::has_bit(old, p % WORD_BITS);
    if found {
        slots::put_packet(&mut s.held, p);
    }
    s.reserved = s.reserved && !(q == EMPTY_POOL && found);
    bits::without_bit(old, p % WORD_BITS)
}

pub fn pool_for(shape: &Shape, length: u32, deferred: bool) -> usize
    ensures value { result ≡ pool_for_of shape.now length deferred }
    ensures few { result < pools_in_all }
{
    if deferred {
        DEFERRED_POOL as usize
    } else if length == 0 {
        EMPTY_POOL as usize
    } else if u64::from(shape.entries) <= 2 * u64::from(length) {
        HIGH_POOL as usize
    } else {
        LOW_POOL as usize
    }
}

/// With an old head, or in the pool of another length, the packet would be misread.
pub fn check_give(shape: &Shape, s: &SeatState, p: u32, deferred: bool) -> Option<u8>
    ensures { result ≡ first_false_of 1 (give_parts shape.now s.now p deferred) }
{
    first_false(&[
        p < shape.packets && s.holds(p),
        s.has_length(p) && (!deferred || slots::has_entry(&s.held, p)),
        !s.work_in_hand(shape.fields) || slots::holds_another(s.held, p),
        !s.credit && !s.reserved,
        s.is_stored(p),
    ])
}

pub fn give(s: &mut SeatState, p: u32, old: u64) -> u64
    ensures word { result ≡ with_bit old (p % word_bits) }
    ensures seat { s.new ≡ record s.old { held = drop_packet s.old.held p; credit = not (has_entry s.old.held p) } }
{
    let has_entry = slots::has_entry(&s.held, p);
    slots::drop_packet(&mut s.held, p);
    s.credit = !has_entry;
    bits::with_bit(old, p % WORD_BITS)
}

/// A count that rises for no packet would say too early that all are empty.
pub fn check_credit(s: &SeatState) -> Option<u8>
    ensures { result ≡ first_false_of 1 (credit_parts s.now) }
{
    first_false(&[s.credit || s.reserved])
}

pub fn credit(s: &mut SeatState, old: u64) -> u64
    ensures word { result ≡ (credit_effect s.old).written old }
    ensures seat { s.new ≡ (credit_effect s.old).seat old }
{
    s.credit = false;
    s.reserved = false;
    old.wrapping_add(1)
}

pub fn check_push(shape: &Shape, s: &SeatState, p: u32, c: Cell) -> Option<u8>
    ensures { result ≡ first_false_of 1 (push_parts shape.now s.now p c) }
{
    first_false(&[
        p < shape.packets && c.number() < shape.cells && s.holds(p),
        s.has_length(p) && slots::length_in_hand(&s.held, p) < shape.entries,
        hand::is_the_cell(s.fresh, c) || hand::is_unpublished(s.popped, c),
    ])
}

/// What a push makes of the record, if the length of packet p is known.
#[inline(always)]
pub fn push_at(s: &mut SeatState, p: u32, length: u32, c: Cell)
    requires known { length ≡ length_in_hand s.old.held p }
    requires room { length < 4294967295 }
    ensures { s.new ≡ record s.old { held = set_length s.old.held p (length_in_hand s.old.held p + 1) false; fresh = if is_the s.old.fresh c then None else s.old.fresh; popped = if is_the s.old.fresh c then s.old.popped else None } }
{
    slots::set_length(&mut s.held, p, length + 1, false);
    if hand::is_the_cell(s.fresh, c) {
        s.fresh = None;
    } else {
        s.popped = None;
    }
}

pub fn push(s: &mut SeatState, p: u32, c: Cell) -> u64
    requires { length_in_hand s.old.held p < 4294967295 }
    ensures word { result ≡ c + 1 }
    ensures seat { s.new ≡ record s.old { held = set_length s.old.held p (length_in_hand s.old.held p + 1) false; fresh = if is_the s.old.fresh c then None else s.old.fresh; popped = if is_the s.old.fresh c then s.old.popped else None } }
{
    let length = slots::length_in_hand(&s.held, p);
    push_at(s, p, length, c);
    u64::from(c.number()) + 1
}

pub fn check_pop(shape: &Shape, phase: u64, s: &SeatState, p: u32) -> Option<u8>
    ensures { result ≡ first_false_of 1 (pop_parts shape.now phase s.now p) }
{
    first_false(&[
        p < shape.packets && s.holds(p),
        slots::has_entry(&s.held, p),
        !s.work_in_hand(shape.fields),
        may_trace(phase, s),
    ])
}

/// What a pop makes of the record, if the length of packet p is known.
#[inline(always)]
pub fn pop_at(s: &mut SeatState, p: u32, length: u32, c: Cell)
    requires known { length ≡ length_in_hand s.old.held p }
    ensures { s.new ≡ record s.old { held = set_length s.old.held p (length_in_hand s.old.held p - 1) false; popped = Some (c, false) } }
{
    slots::set_length(&mut s.held, p, length.saturating_sub(1), false);
    s.popped = Some((c, false));
}

pub fn pop(s: &mut SeatState, p: u32, old: u64) -> u64
    ensures word { result ≡ old }
    ensures seat { s.new ≡ record s.old { held = set_length s.old.held p (length_in_hand s.old.held p - 1) false; popped = Some (cell_of old, false) } }
{
    let length = slots::length_in_hand(&s.held, p);
    pop_at(s, p, length, bits::cell_of(old));
    old
}

pub fn check_look(shape: &Shape, q: u8, g: u32) -> Option<u8>
    requires { shape.now.packets < 65536 }
    ensures { result ≡ first_false_of 1 (look_parts shape.now q g) }
{
    first_false(&[q < POOLS && (g as usize) < pool_words(shape)])
}

/// Otherwise an unknown length would be stored as 0.
pub fn check_store_length(shape: &Shape, s: &SeatState, p: u32) -> Option<u8>
    ensures { result ≡ first_false_of 1 (store_length_parts shape.now s.now p) }
{
    first_false(&[p < shape.packets && s.holds(p), s.has_length(p)])
}

pub fn store_length(s: &mut SeatState, p: u32) -> u64
    ensures word { result ≡ length_in_hand s.old.held p }
    ensures seat { s.new ≡ record s.old { held = set_length s.old.held p (length_in_hand s.old.held p) true } }
{
    let length = slots::length_in_hand(&s.held, p);
    slots::set_length(&mut s.held, p, length, true);
    u64::from(length)
}

/// Once the length is known, the head may lie behind pushes and pops.
pub fn check_read_length(shape: &Shape, s: &SeatState, p: u32) -> Option<u8>
    ensures { result ≡ first_false_of 1 (read_length_parts shape.now s.now p) }
{
    first_false(&[p < shape.packets && s.holds(p), !s.has_length(p)])
}

pub fn read_length(s: &mut SeatState, p: u32, old: u64) -> u64
    ensures word { result ≡ (read_length_effect s.old p).written old }
    ensures seat { s.new ≡ (read_length_effect s.old p).seat old }
{
    slots::set_length(&mut s.held, p, bits::reference_in(old), true);
    old
}
