//! The packets that a seat holds, in four slots.
ghost use Rattle.std.specs.Prelude.{ℕ, ◌≡◌, Option, Some, unwrap_or};
ghost use Rattle.mark_core.specs.Held.{slot_of, length_in_slot, stored_in_slot, holds as holds_packet, known_length as known_length_of, length_in_hand as length_in_hand_of, has_length as has_length_of, has_entry as has_entry_of, is_stored as is_stored_packet, holds_any as holds_any_packet, has_free_slot as has_a_free_slot, put_packet as put_of, slot_without, slot_with, drop_packet as dropped_from, set_length as set_length_of, holds_another as holds_another_packet};

use crate::seat::SeatState;

/// A packet, its length, if known, and whether its head holds it; or nothing.
pub type Slot = Option<(u32, Option<u32>, bool)>;

pub type Slots = [Slot; 4];

fn is_of(slot: Slot, p: u32) -> bool
    ensures { result ≡ slot_of slot p }
{
    match slot {
        None => false,
        Some(x) => x.0 == p,
    }
}

fn length_in(slot: &Slot, p: u32) -> Option<Option<u32>>
    ensures { (rest : Option ℕ) → length_in_slot slot.now p rest ≡ unwrap_or result rest }
{
    match slot {
        Some(x) => if x.0 == p { Some(x.1) } else { None },
        None => None,
    }
}

fn is_stored_in(slot: Slot, p: u32) -> bool
    ensures { result ≡ stored_in_slot slot p }
{
    match slot {
        None => false,
        Some(x) => x.0 == p && x.2,
    }
}

pub fn known_length(held: &Slots, p: u32) -> Option<u32>
    ensures { result ≡ known_length_of held.now p }
{
    let [a, b, c, d] = held;
    if let Some(length) = length_in(a, p) {
        return length;
    }
    if let Some(length) = length_in(b, p) {
        return length;
    }
    if let Some(length) = length_in(c, p) {
        return length;
    }
    if let Some(length) = length_in(d, p) {
        return length;
    }
    None
}

/// The length is 0 if it isn't known.
pub fn length_in_hand(held: &Slots, p: u32) -> u32
    ensures { result ≡ length_in_hand_of held.now p }
{
    known_length(held, p).unwrap_or(0)
}

pub fn has_entry(held: &Slots, p: u32) -> bool
    ensures { result ≡ has_entry_of held.now p }
{
    !(length_in_hand(held, p) == 0)
}

pub fn holds_any(held: Slots) -> bool
    ensures { result ≡ holds_any_packet held }
{
    held[0].is_some() || held[1].is_some() || held[2].is_some() || held[3].is_some()
}

/// The packet goes into the first free slot, with no length known.
pub fn put_packet(held: &mut Slots, p: u32)
    ensures { held.new ≡ put_of held.old p }
{
    let new = Some((p, None, true));
    if held[0].is_none() {
        held[0] = new;
    } else if held[1].is_none() {
        held[1] = new;
    } else if held[2].is_none() {
        held[2] = new;
    } else if held[3].is_none() {
        held[3] = new;
    }
}

fn empty_slot(slot: &mut Slot, p: u32)
    ensures { slot.new ≡ slot_without p slot.old }
{
    if is_of(*slot, p) {
        *slot = None;
    }
}

pub fn drop_packet(held: &mut Slots, p: u32)
    ensures { held.new ≡ dropped_from held.old p }
{
    empty_slot(&mut held[0], p);
    empty_slot(&mut held[1], p);
    empty_slot(&mut held[2], p);
    empty_slot(&mut held[3], p);
}

fn set_slot(slot: &mut Slot, p: u32, length: u32, stored: bool)
    ensures { slot.new ≡ slot_with p (Some length) stored slot.old }
{
    if let Some(x) = slot {
        if x.0 == p {
            *x = (p, Some(length), stored);
        }
    }
}

#[inline(always)]
pub fn set_length(held: &mut Slots, p: u32, length: u32, stored: bool)
    ensures { held.new ≡ set_length_of held.old p length stored }
{
    set_slot(&mut held[0], p, length, stored);
    set_slot(&mut held[1], p, length, stored);
    set_slot(&mut held[2], p, length, stored);
    set_slot(&mut held[3], p, length, stored);
}

pub fn holds_another(held: Slots, p: u32) -> bool
    ensures { result ≡ holds_another_packet held p }
{
    let mut others = held;
    drop_packet(&mut others, p);
    holds_any(others)
}

impl SeatState {
    /// Whether the seat holds packet `p`.
    pub fn holds(&self, p: u32) -> bool
        ensures { result ≡ holds_packet self.now.held p }
    {
        let [a, b, c, d] = self.held;
        is_of(a, p) || is_of(b, p) || is_of(c, p) || is_of(d, p)
    }

    /// Whether the seat holds packet `p` and knows its length.
    pub fn has_length(&self, p: u32) -> bool
        ensures { result ≡ has_length_of self.now.held p }
    {
        known_length(&self.held, p).is_some()
    }

    /// Whether the seat holds packet `p`, and the packet's head holds the length that the seat knows.
    pub fn is_stored(&self, p: u32) -> bool
        ensures { result ≡ is_stored_packet self.now.held p }
    {
        let [a, b, c, d] = self.held;
        is_stored_in(a, p) || is_stored_in(b, p) || is_stored_in(c, p) || is_stored_in(d, p)
    }

    /// Whether the seat may take a further packet: it has four slots.
    pub fn has_free_slot(&self) -> bool
        ensures { result ≡ has_a_free_slot self.now.held }
    {
        let [a, b, c, d] = self.held;
        a.is_none() || b.is_none() || c.is_none() || d.is_none()
    }
}
