//! The steps of tracing: white cells turn grey and grey cells black, and cards are cleaned.
ghost use Rattle.std.specs.Prelude.{◌≡◌, ◌<◌, ◌+◌, if◌then◌else◌};
ghost use Rattle.mark_core.specs.Bits.{cell_named};
ghost use Rattle.mark_core.specs.Steps.ColourSteps.{without_cell, redirty_off, popped_after as popped_after_of, scan_after as scan_after_of, with_alloc_word as with_alloc_word_of, fresh_off as fresh_off_of, popped_off as popped_off_of, read_alloc_parts, read_alloc_effect, read_field_parts, read_root_parts, load_slot_parts, set_mark_parts, set_mark_effect, dirty_card_parts, check_card_effect, clear_card_parts, clear_card_effect, read_marks_parts, read_marks_effect, read_card_parts, read_phase_effect};
ghost use Rattle.mark_core.specs.Seats.{is_the as is_the_number};
ghost use Rattle.mark_core.specs.Steps.{first_false as first_false_of};

use crate::cards::{BLOCK_CELLS, card_of};
use crate::cell::Cell;
use crate::failing_part::first_false;
use crate::kinds::Shape;
use crate::layout::{block_count, card_count};
use crate::numbers::VARIABLES;
use crate::seat::{BlockState, Cleaning, SeatState};
use crate::standing::{is_the, may_trace, phase_of};
use crate::steps::cleaning;
use crate::{bits, hand, slots};

fn scan_popped(popped: &mut Option<(Cell, bool)>, scan: &mut Option<(Cell, u8)>, b: u32, word: u64)
    ensures popped { popped.new ≡ popped_after_of popped.old b word }
    ensures scan { scan.new ≡ scan_after_of popped.old scan.old b word }
{
    if let Some(x) = *popped {
        if x.0.number() / BLOCK_CELLS == b {
            if bits::has_bit(word, x.0.number() % BLOCK_CELLS) {
                *popped = None;
                *scan = Some((x.0, 0));
            } else {
                *popped = Some((x.0, true));
            }
        }
    }
}

fn with_alloc_word(block: &mut Option<BlockState>, b: u32, word: u64)
    ensures { block.new ≡ with_alloc_word_of block.old b word }
{
    if let Some(x) = block {
        if x.block == b {
            x.alloc_word = Some(word);
        }
    }
}

/// Otherwise a cell that was seen published could be freed before the seat's next step.
pub fn check_read_alloc(shape: &Shape, s: &SeatState, b: u32) -> Option<u8>
    ensures { result ≡ first_false_of 1 (read_alloc_parts shape.now s.now b) }
{
    first_false(&[b < block_count(shape) && s.takes_part()])
}

pub fn read_alloc(s: &mut SeatState, b: u32, old: u64) -> u64
    ensures word { result ≡ (read_alloc_effect s.old b).written old }
    ensures seat { s.new ≡ (read_alloc_effect s.old b).seat old }
{
    scan_popped(&mut s.popped, &mut s.scan, b, old);
    cleaning::cleaning_after(&mut s.cleaning, b, old);
    with_alloc_word(&mut s.block, b, old);
    old
}

/// Otherwise a field passed over could hide a white cell, and one could be read of a cell that is still being written.
pub fn check_read_field(shape: &Shape, s: &SeatState, c: Cell, i: u8) -> Option<u8>
    ensures { result ≡ first_false_of 1 (read_field_parts shape.now s.now c i) }
{
    let begins = i == 0 && hand::may_scan(s.cleaning, c) && !hand::scan_left(shape.fields, s.scan);
    first_false(&[
        c.number() < shape.cells
            && u32::from(i) < shape.fields
            && (hand::scans(s.scan, c, i) || begins),
        !(s.popped.is_some() || s.value.is_some() || s.fresh.is_some()),
    ])
}

fn load(value: &mut Option<Cell>, word: u64)
    ensures { value.new ≡ cell_named word }
{
    if word == 0 {
        *value = None;
    } else {
        *value = Some(bits::cell_of(word));
    }
}

pub fn read_field(s: &mut SeatState, c: Cell, i: u8, old: u64) -> u64
    requires { i < 255 }
    ensures word { result ≡ old }
    ensures seat { s.new ≡ record s.old { scan = Some (c, i + 1); cleaning = without_cell s.old.cleaning c; value = cell_named old } }
{
    s.scan = Some((c, i + 1));
    cleaning::without_cell(&mut s.cleaning, c);
    load(&mut s.value, old);
    old
}

/// What a root names is work, which shows in the count only if a packet is held.
pub fn check_read_root(shape: &Shape, phase: u64, s: &SeatState, section: u32, v: u8) -> Option<u8>
    ensures { result ≡ first_false_of 1 (read_root_parts shape.now phase s.now section v) }
{
    first_false(&[
        section < shape.sections
            && v < VARIABLES
            && may_trace(phase, s)
            && slots::holds_any(s.held),
        !s.work_in_hand(shape.fields),
    ])
}

pub fn check_load_slot(shape: &Shape, phase: u64, s: &SeatState, section: u32, k: u16) -> Option<u8>
    ensures { result ≡ first_false_of 1 (load_slot_parts shape.now phase s.now section k) }
{
    first_false(&[
        section < shape.sections
            && u32::from(k) < shape.slots
            && may_trace(phase, s)
            && slots::holds_any(s.held),
        !s.work_in_hand(shape.fields),
    ])
}

pub fn read_root(s: &mut SeatState, old: u64) -> u64
    ensures word { result ≡ old }
    ensures seat { s.new ≡ record s.old { value = cell_named old } }
{
    load(&mut s.value, old);
    old
}

/// Outside Marking and Drain a marked cell isn't scanned, and one to which nothing refers would be kept.
pub fn check_set_mark(shape: &Shape, phase: u64, s: &SeatState, c: Cell) -> Option<u8>
    ensures { result ≡ first_false_of 1 (set_mark_parts shape.now phase s.now c) }
{
    first_false(&[
        c.number() < shape.cells && hand::is_the_cell(s.value, c),
        may_trace(phase, s),
    ])
}

pub fn set_mark(s: &mut SeatState, c: Cell, old: u64) -> u64
    ensures word { result ≡ (set_mark_effect s.old c).written old }
    ensures seat { s.new ≡ (set_mark_effect s.old c).seat old }
{
    s.value = None;
    if !bits::has_bit(old, c.number() % BLOCK_CELLS) {
        s.fresh = Some(c);
    }
    bits::with_bit(old, c.number() % BLOCK_CELLS)
}

#[inline(always)]
fn fresh_off(fresh: &mut Option<Cell>, card: u32)
    ensures { fresh.new ≡ fresh_off_of fresh.old card }
{
    if let Some(c) = *fresh {
        if card_of(c) == card {
            *fresh = None;
        }
    }
}

#[inline(always)]
fn popped_off(popped: &mut Option<(Cell, bool)>, card: u32)
    ensures { popped.new ≡ popped_off_of popped.old card }
{
    if let Some(x) = *popped {
        if x.1 && card_of(x.0) == card {
            *popped = None;
        }
    }
}

/// Otherwise a card that was seen clean in a stop could be dirtied.
pub fn check_dirty_card(shape: &Shape, s: &SeatState, card: u32) -> Option<u8>
    ensures { result ≡ first_false_of 1 (dirty_card_parts shape.now s.now card) }
{
    first_false(&[card < card_count(shape) && s.takes_part()])
}

#[inline(always)]
pub fn dirty_card(s: &mut SeatState, card: u32) -> u64
    ensures word { result ≡ 1 }
    ensures seat { s.new ≡ record s.old { fresh = fresh_off_of s.old.fresh card; popped = popped_off_of s.old.popped card; owes = if is_the_number s.old.owes card then None else s.old.owes; cleaning = redirty_off s.old.cleaning card } }
{
    fresh_off(&mut s.fresh, card);
    popped_off(&mut s.popped, card);
    if is_the(s.owes, card) {
        s.owes = None;
    }
    cleaning::redirty_off(&mut s.cleaning, card);
    1
}

/// A card that is found dirty answers for the field that the seat stored before: whoever clears the card later reads
/// that field after it.
#[inline(always)]
pub fn check_card(s: &mut SeatState, card: u32, old: u64) -> u64
    ensures word { result ≡ (check_card_effect s.old card).written old }
    ensures seat { s.new ≡ (check_card_effect s.old card).seat old }
{
    if is_the(s.owes, card) && old == 1 {
        s.owes = None;
    }
    old
}

/// The cells of a cleared card are work, as what a root names.
pub fn check_clear_card(shape: &Shape, phase: u64, s: &SeatState, card: u32) -> Option<u8>
    ensures { result ≡ first_false_of 1 (clear_card_parts shape.now phase s.now card) }
{
    first_false(&[
        card < card_count(shape) && may_trace(phase, s) && slots::holds_any(s.held),
        !s.work_in_hand(shape.fields),
    ])
}

pub fn clear_card(s: &mut SeatState, card: u32, old: u64) -> u64
    ensures word { result ≡ (clear_card_effect s.old card).written old }
    ensures seat { s.new ≡ (clear_card_effect s.old card).seat old }
{
    if old == 1 {
        s.cleaning = Some(Cleaning {
            card,
            known: false,
            left: 0,
            published: 0,
            redirty: false,
        });
    }
    0
}

/// Otherwise marks that were seen could be cleared before the seat's next step.
pub fn check_read_marks(shape: &Shape, s: &SeatState, b: u32) -> Option<u8>
    ensures { result ≡ first_false_of 1 (read_marks_parts shape.now s.now b) }
{
    first_false(&[b < block_count(shape) && s.takes_part()])
}

pub fn read_marks(s: &mut SeatState, b: u32, old: u64) -> u64
    ensures word { result ≡ (read_marks_effect s.old b).written old }
    ensures seat { s.new ≡ (read_marks_effect s.old b).seat old }
{
    cleaning::known_in(&mut s.cleaning, b, old);
    old
}

pub fn check_read_card(shape: &Shape, card: u32) -> Option<u8>
    ensures { result ≡ first_false_of 1 (read_card_parts shape.now card) }
{
    first_false(&[card < card_count(shape)])
}

pub fn read_phase(s: &mut SeatState, old: u64) -> u64
    ensures word { result ≡ (read_phase_effect s.old).written old }
    ensures seat { s.new ≡ (read_phase_effect s.old).seat old }
{
    if s.takes_part() {
        s.phase_seen = Some(phase_of(old));
    }
    old
}
