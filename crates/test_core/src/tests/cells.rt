ghost use Rattle.std.specs.Prelude.{◌≡◌, ◌≤◌, ◌+◌, ◌*◌};
ghost use Rattle.std.specs.Bool.{OnTrue};
ghost use Rattle.mark_core.specs.Numbers.{section_span};
ghost use Rattle.mark_core.specs.Steps.MutatorSteps.{is_next_part, fits_part as fits_part_of, names_last as names_last_of};
ghost use Rattle.mark_core.specs.Seats.{makes as makes_part};
ghost use Rattle.gc_table.specs.Seats.{state_of};
ghost use Rattle.test_core.specs.Ready.{Ready, SeatHasOwn, Unnamed, may_store_new, may_name as may_name_of};

use gc_table::{Heap, HeapSeat};
use mark_core::{Cell, SECTION_SPAN, Shape, VALUE_BOUND, VARIABLES};
use test_heaps::{has_free, has_making, is_marking, may_mutate};

fn makes(seat: &HeapSeat, c: Cell, part: u8) -> bool
    ensures { result ≡ makes_part (state_of seat.now).cache c part }
{
    match seat.state().cache {
        None => false,
        Some(cache) => match cache.making {
            None => false,
            Some(x) => x.0.number() == c.number() && x.1 == part,
        },
    }
}

fn is_next(seat: &HeapSeat, c: Cell, part: u8) -> bool
    ensures { result ≡ is_next_part (state_of seat.now) c part }
{
    if part == 0 {
        has_free(seat, c) && !has_making(seat)
    } else {
        makes(seat, c, part)
    }
}

fn identity_of(section: u32, number: u32) -> u64
    ensures { result ≡ section * section_span + number }
{
    u64::from(section) * SECTION_SPAN + u64::from(number)
}

fn fits_part(shape: &Shape, seat: &HeapSeat, part: u8, word: u64) -> bool
    ensures { result ≡ fits_part_of shape.now (state_of seat.now) part word }
{
    let s = seat.state();
    if u32::from(part) < shape.fields {
        word == 0
    } else if u32::from(part) == shape.fields {
        word < VALUE_BOUND
    } else {
        s.section.is_some()
            && s.made < shape.objects
            && word == identity_of(s.section.unwrap_or(0), s.made)
    }
}

fn may_store(shape: &Shape, seat: &HeapSeat, c: Cell, part: u8, word: u64) -> bool
    requires { shape.now.fields ≤ 16 }
    ensures { result ≡ may_store_new shape.now (state_of seat.now) c part word }
{
    (c.number() < shape.cells && u32::from(part) <= shape.fields + 1 && may_mutate(seat))
        && is_next(seat, c, part)
        && fits_part(shape, seat, part, word)
}

/// Stores a word of a new cell before its last one.
fn store_part(heap: &Heap, seat: &mut HeapSeat, c: Cell, part: u8, word: u64) -> bool
    requires { Ready heap.now seat.old }
    ensures { Ready heap.now seat.new }
{
    let shape = heap.shape();
    if u32::from(part) <= shape.fields && may_store(&shape, seat, c, part, word) {
        heap.store_new(seat, c, part, word);
        true
    } else {
        false
    }
}

/// Stores the last, the identity.
fn store_identity(heap: &Heap, seat: &mut HeapSeat, c: Cell, part: u8, word: u64) -> bool
    requires { Ready heap.now seat.old }
    ensures made { OnTrue result (Unnamed heap.now seat.new) }
{
    let shape = heap.shape();
    if u32::from(part) > shape.fields && may_store(&shape, seat, c, part, word) {
        heap.store_new(seat, c, part, word);
        true
    } else {
        false
    }
}

fn names_last(seat: &HeapSeat, r: u64) -> bool
    ensures { result ≡ names_last_of (state_of seat.now).cache r }
{
    match seat.state().cache {
        None => false,
        Some(cache) => match cache.last {
            None => false,
            Some(c) => !(r == 0) && u64::from(c.number()) == r - 1,
        },
    }
}

fn may_name(seat: &HeapSeat, v: u8, r: u64) -> bool
    ensures { result ≡ may_name_of (state_of seat.now) v r }
{
    (v < VARIABLES && may_mutate(seat))
        && names_last(seat, r)
        && (seat.state().owes.is_none() && !has_making(seat))
}

/// Stores the cell made last in a variable.
fn name(heap: &Heap, seat: &mut HeapSeat, v: u8, r: u64) -> bool
    requires { Unnamed heap.now seat.old }
    ensures { OnTrue result (Ready heap.now seat.new × SeatHasOwn seat.new v) }
{
    if may_name(seat, v, r) && is_marking(seat) {
        heap.store_root(seat, v, r);
        true
    } else {
        false
    }
}

/// Makes a cell of four fields with this value, and stores it in a variable.
pub fn make_cell(heap: &Heap, seat: &mut HeapSeat, number: u32, value: u32, v: u8) -> bool
    requires { Ready heap.now seat.old }
    ensures { OnTrue result (Ready heap.now seat.new × SeatHasOwn seat.new v) }
{
    let c = Cell::make(number);
    let identity = identity_of(seat.state().section.unwrap_or(0), seat.state().made);
    if !store_part(heap, seat, c, 0, 0)
        || !store_part(heap, seat, c, 1, 0)
        || !store_part(heap, seat, c, 2, 0)
        || !store_part(heap, seat, c, 3, 0)
        || !store_part(heap, seat, c, 4, u64::from(value))
        || !store_identity(heap, seat, c, 5, identity)
    {
        return false;
    }
    name(heap, seat, v, u64::from(number) + 1)
}
