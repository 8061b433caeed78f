//! The steps of a mutator on objects and roots.
ghost use Rattle.std.specs.Prelude.{◌≡◌, ◌<◌, ◌-◌, ◌/◌, ◌==◌, ℕ, List, if◌then◌else◌, slice_index, slice_set};
ghost use Rattle.std.specs.List.{list_any};
ghost use Rattle.mark_core.specs.Bits.{cell_of, reference_in, with_bit, without_bit};
ghost use Rattle.mark_core.specs.Cards.{card_of as card_of_cell};
ghost use Rattle.mark_core.specs.Steps.MutatorSteps.{read_object_parts, read_own_parts, read_cat_parts, store_field_parts, store_value_parts, store_root_parts, store_slot_parts, read_slot_parts, exchange_field_parts, exchange_value_parts, read_weak_parts, flush_root_parts};
ghost use Rattle.mark_core.specs.Steps.MutatorSteps.{knows_cell as knows_cell_of, seat_variable as variable_of, may_change as may_change_of, in_variables as in_variables_of, variable_or_nil as variable_or_nil_of, names_last as names_last_of, has_reference as has_reference_of, weak_reference as weak_reference_of};
ghost use Rattle.mark_core.specs.Seats.{used_in};
ghost use Rattle.mark_core.specs.Steps.{first_false as first_false_of};
ghost use Rattle.mark_core.specs.Numbers.{section_variables};

use crate::cards::{BLOCK_CELLS, card_of};
use crate::cell::Cell;
use crate::failing_part::first_false;
use crate::kinds::Shape;
use crate::numbers::VARIABLES;
use crate::seat::{CacheState, SeatState};
use crate::standing::is_the;
use crate::{bits, hand};

fn has_variable(s: &SeatState, reference: u64) -> bool
    ensures { result ≡ list_any (λ x. x == reference) s.now.env }
{
    s.env.iter().any(|x| u64::from(*x) == reference)
}

fn knows_cell(s: &SeatState, c: Cell) -> bool
    ensures { result ≡ knows_cell_of s.now c }
{
    let reference = u64::from(c.number()) + 1;
    u64::from(s.got) == reference || has_variable(s, reference)
}

/// Otherwise the cell could be freed, and made anew.
pub fn check_read_object(shape: &Shape, s: &SeatState, c: Cell) -> Option<u8>
    ensures { result ≡ first_false_of 1 (read_object_parts shape.now s.now c) }
{
    first_false(&[c.number() < shape.cells && s.may_mutate(), knows_cell(s, c)])
}

pub fn check_read_own(shape: &Shape, s: &SeatState, c: Cell, i: u8) -> Option<u8>
    ensures { result ≡ first_false_of 1 (read_own_parts shape.now s.now c i) }
{
    first_false(&[
        c.number() < shape.cells && u32::from(i) < shape.fields && s.may_mutate(),
        knows_cell(s, c),
    ])
}

pub fn read_reference(s: &mut SeatState, old: u64) -> u64
    ensures word { result ≡ old }
    ensures seat { s.new ≡ record s.old { got = reference_in old } }
{
    s.got = bits::reference_in(old);
    old
}

/// In the catalogue's own turn its variables change, so what was read could be freed.
pub fn check_read_cat(s: &SeatState, v: u8) -> Option<u8>
    ensures { result ≡ first_false_of 1 (read_cat_parts s.now v) }
{
    first_false(&[v < VARIABLES && s.may_mutate(), !is_the(s.section, 0)])
}

pub fn variable(s: &SeatState, v: u8) -> u32
    ensures { result ≡ variable_of s.now v }
{
    s.env.get(v as usize).copied().unwrap_or(0)
}

/// The cell that variable v names, if it isn't nil.
pub fn variable_cell(s: &SeatState, v: u8) -> u32
    ensures { result ≡ variable_of s.now v - 1 }
{
    variable(s, v).saturating_sub(1)
}

/// `identity` is that of variable v's cell.
fn may_change(shape: &Shape, s: &SeatState, v: u8, identity: u64) -> bool
    ensures { (ids : List ℕ) → slice_index ids (variable_of s.now v - 1) ≡ identity → result ≡ may_change_of shape.now ids s.now v }
{
    !(variable(s, v) == 0) && (shape.sharing || is_the(s.section, (identity / bits::FLAG) as u32))
}

fn in_variables(w: Option<u8>) -> bool
    ensures { result ≡ in_variables_of w }
{
    match w {
        None => true,
        Some(x) => x < VARIABLES,
    }
}

/// What variable w of the seat refers to; nil if none is named.
pub fn variable_or_nil(s: &SeatState, w: Option<u8>) -> u32
    ensures { result ≡ variable_or_nil_of s.now w }
{
    match w {
        None => 0,
        Some(x) => variable(s, x),
    }
}

/// Otherwise a seat would store in another section's object that isn't shared, or a card still owed be forgotten.
pub fn check_store_field(
    shape: &Shape,
    identity: u64,
    s: &SeatState,
    v: u8,
    i: u8,
    w: Option<u8>,
) -> Option<u8>
    ensures { (ids : List ℕ) → slice_index ids (variable_of s.now v - 1) ≡ identity → result ≡ first_false_of 1 (store_field_parts shape.now ids s.now v i w) }
{
    first_false(&[
        v < VARIABLES && u32::from(i) < shape.fields && in_variables(w) && s.may_mutate(),
        may_change(shape, s, v, identity),
        s.owes.is_none(),
    ])
}

/// Nobody scans a cell before it is published, so one of the seat's own cache owes no card.
pub fn store_field(s: &mut SeatState, v: u8, w: Option<u8>) -> u64
    ensures word { result ≡ variable_or_nil_of s.old w }
    ensures seat { let c = cell_of (variable_of s.old v) in s.new ≡ record s.old { owes = if used_in s.old.cache c then s.old.owes else Some (card_of_cell c) } }
{
    let c = bits::cell_of(u64::from(variable(s, v)));
    if !hand::used_in(s.cache, c) {
        s.owes = Some(card_of(c));
    }
    u64::from(variable_or_nil(s, w))
}

pub fn check_store_value(shape: &Shape, identity: u64, s: &SeatState, v: u8) -> Option<u8>
    ensures { (ids : List ℕ) → slice_index ids (variable_of s.now v - 1) ≡ identity → result ≡ first_false_of 1 (store_value_parts shape.now ids s.now v) }
{
    first_false(&[
        v < VARIABLES && s.may_mutate(),
        may_change(shape, s, v, identity),
        s.owes.is_none(),
    ])
}

/// If objects aren't shared nobody else changes the field; and a card still owed would be forgotten.
pub fn check_exchange_field(
    shape: &Shape,
    s: &SeatState,
    v: u8,
    i: u8,
    expected: Option<u8>,
    new: Option<u8>,
) -> Option<u8>
    ensures { result ≡ first_false_of 1 (exchange_field_parts shape.now s.now v i expected new) }
{
    first_false(&[
        v < VARIABLES
            && u32::from(i) < shape.fields
            && (in_variables(expected) && in_variables(new))
            && s.may_mutate(),
        !(variable(s, v) == 0) && shape.sharing,
        s.owes.is_none(),
    ])
}

pub fn exchange_field(
    s: &mut SeatState,
    v: u8,
    expected: Option<u8>,
    new: Option<u8>,
    old: u64,
) -> u64
    ensures word { result ≡ if old == variable_or_nil_of s.old expected then variable_or_nil_of s.old new else old }
    ensures seat { let c = cell_of (variable_of s.old v) in s.new ≡ record s.old { owes = if old == variable_or_nil_of s.old expected then (if used_in s.old.cache c then s.old.owes else Some (card_of_cell c)) else s.old.owes } }
{
    if old == u64::from(variable_or_nil(s, expected)) {
        store_field(s, v, new)
    } else {
        old
    }
}

pub fn check_exchange_value(shape: &Shape, s: &SeatState, v: u8, new: u32) -> Option<u8>
    ensures { result ≡ first_false_of 1 (exchange_value_parts shape.now s.now v new) }
{
    first_false(&[
        v < VARIABLES && u64::from(new) < bits::FLAG && s.may_mutate(),
        !(variable(s, v) == 0) && shape.sharing,
        s.owes.is_none(),
    ])
}

pub fn exchange_value(expected: u32, new: u32, old: u64) -> u64
    ensures { result ≡ if old == expected then new else old }
{
    if old == u64::from(expected) {
        u64::from(new)
    } else {
        old
    }
}

fn names_last(cache: Option<CacheState>, r: u64) -> bool
    ensures { result ≡ names_last_of cache r }
{
    match cache {
        None => false,
        Some(x) => match x.last {
            None => false,
            Some(c) => !(r == 0) && u64::from(c.number()) == r - 1,
        },
    }
}

fn has_reference(s: &SeatState, r: u64) -> bool
    ensures { result ≡ has_reference_of s.now r }
{
    r == 0 || r == u64::from(s.got) || has_variable(s, r) || names_last(s.cache, r)
}

/// Otherwise the root could dangle. A store or a new cell that was begun ends first.
pub fn check_store_root(s: &SeatState, v: u8, r: u64) -> Option<u8>
    ensures { result ≡ first_false_of 1 (store_root_parts s.now v r) }
{
    first_false(&[
        v < VARIABLES && s.may_mutate(),
        has_reference(s, r),
        s.owes.is_none() && !s.has_making(),
    ])
}

fn set_variable(env: &mut [u32; 32], v: u8, reference: u32)
    requires { v < section_variables }
    ensures { env.new ≡ slice_set env.old v reference }
{
    env[v as usize] = reference;
}

pub fn store_root(s: &mut SeatState, v: u8, r: u64) -> u64
    requires { v < section_variables }
    ensures word { result ≡ r }
    ensures seat { s.new ≡ record s.old { env = slice_set s.old.env v (reference_in r); got = 0 } }
{
    set_variable(&mut s.env, v, bits::reference_in(r));
    s.got = 0;
    r
}

/// The root is stored later, before the seat leaves the world.
pub fn hold_root(s: &mut SeatState, v: u8, r: u64, old: u64) -> u64
    requires { v < section_variables }
    ensures word { result ≡ old }
    ensures seat { s.new ≡ record s.old { env = slice_set s.old.env v (reference_in r); lags = with_bit s.old.lags v; got = 0 } }
{
    set_variable(&mut s.env, v, bits::reference_in(r));
    s.lags = bits::with_bit(s.lags, u32::from(v));
    s.got = 0;
    old
}

pub fn check_flush_root(s: &SeatState, v: u8) -> Option<u8>
    ensures { result ≡ first_false_of 1 (flush_root_parts s.now v) }
{
    first_false(&[v < VARIABLES && s.may_mutate()])
}

pub fn flush_root(s: &mut SeatState, v: u8) -> u64
    requires { v < section_variables }
    ensures word { result ≡ variable_of s.old v }
    ensures seat { s.new ≡ record s.old { lags = without_bit s.old.lags v } }
{
    s.lags = bits::without_bit(s.lags, u32::from(v));
    u64::from(variable(s, v))
}

pub fn check_store_slot(shape: &Shape, s: &SeatState, k: u16, r: u64) -> Option<u8>
    ensures { result ≡ first_false_of 1 (store_slot_parts shape.now s.now k r) }
{
    first_false(&[
        u32::from(k) < shape.slots && s.may_mutate(),
        has_reference(s, r),
        s.owes.is_none() && !s.has_making(),
    ])
}

pub fn store_slot(s: &mut SeatState, r: u64) -> u64
    ensures word { result ≡ r }
    ensures seat { s.new ≡ record s.old { got = 0 } }
{
    s.got = 0;
    r
}

/// Outside its turn a seat has no register that would keep what was read.
pub fn check_read_slot(shape: &Shape, s: &SeatState, k: u16) -> Option<u8>
    ensures { result ≡ first_false_of 1 (read_slot_parts shape.now s.now k) }
{
    first_false(&[u32::from(k) < shape.slots && s.may_mutate()])
}

/// Only while the world is stopped cells are freed, and a mutator is outside a stop. Outside its turn a seat has no
/// register that would keep what was read.
pub fn check_read_weak(shape: &Shape, s: &SeatState, c: Cell) -> Option<u8>
    ensures { result ≡ first_false_of 1 (read_weak_parts shape.now s.now c) }
{
    first_false(&[c.number() < shape.cells && s.may_mutate()])
}

/// `old` has the allocation bits of the cell's block. A cell without its bit is free, or was made by a seat that
/// hasn't published it, which knows so.
fn weak_reference(s: &SeatState, c: Cell, old: u64) -> u32
    ensures { result ≡ weak_reference_of s.now c old }
{
    if bits::has_bit(old, c.number() % BLOCK_CELLS) || hand::used_in(s.cache, c) {
        bits::reference_in(u64::from(c.number()) + 1)
    } else {
        0
    }
}

pub fn read_weak(s: &mut SeatState, c: Cell, old: u64) -> u64
    ensures word { result ≡ old }
    ensures seat { s.new ≡ record s.old { got = weak_reference_of s.old c old } }
{
    s.got = weak_reference(s, c, old);
    old
}
