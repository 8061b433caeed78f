//! Two seats of a heap come and go.
ghost use Rattle.std.specs.Prelude.{◌≡◌, ◌<◌, ◌&&◌, not, IfSome};
ghost use Rattle.std.specs.Bool.{OnTrue};
ghost use Rattle.gc_table.specs.SeatRecords.{resting};
ghost use Rattle.gc_table.specs.Seats.{state_of};
ghost use Rattle.mark_core.specs.Seats.{takes_part as takes_part_of};
ghost use Rattle.mark_core.specs.Shapes.{IsShape};
ghost use Rattle.test_core.specs.Ready.{Ready};
ghost use Rattle.test_heaps.specs.Seats.{New};

use gc_table::{Heap, HeapSeat, Words};
use mark_core::{Phase, SEATS, Shape};
use plain_heap::NoPlan;
use std::alloc::Global;
use std::sync::Wait;
use test_heaps::{is_bare, leaves, next_seat, next_turn, open};

/// A new heap with its seats 0 and 1.
pub fn open_two(alloc: Global, shape: Shape) -> Option<(Heap, HeapSeat, HeapSeat)>
    requires { IsShape shape }
    ensures { IfSome result (λ r. (r.0.shape ≡ shape) × New r.0 resting 0 r.1 × Ready r.0 r.1 × Ready r.0 r.2) }
{
    let Some((heap, mut seats)) = open(alloc, shape, 2) else {
        return None;
    };
    let zero = next_seat(&heap, &mut seats, 0);
    let one = next_seat(&heap, &mut seats, 1);
    Some((heap, zero, one))
}

/// Closes the heap, if both seats are outside.
pub fn close(alloc: Global, heap: Heap, zero: HeapSeat, one: HeapSeat) -> Option<Words>
    requires zero { Ready heap zero }
    requires one { Ready heap one }
{
    if zero.number() != 0 || one.number() != 1 || !is_bare(&zero) || !is_bare(&one) {
        return None;
    }
    let Ok(mut seats) = Vec::with_capacity(alloc, 2) else {
        return None;
    };
    seats.push_reserved(zero);
    seats.push_reserved(one);
    heap.close(alloc, seats).ok()
}

/// Whether the seat is active, and stops nobody.
pub fn is_running(seat: &HeapSeat) -> bool
    ensures { result ≡ ((state_of seat.now).active && not (state_of seat.now).knows) }
{
    let s = seat.state();
    s.active && !s.knows
}

/// Whether the seat runs, stopped the world, or helps.
pub fn takes_part(seat: &HeapSeat) -> bool
    ensures { result ≡ takes_part_of (state_of seat.now) }
{
    seat.state().takes_part()
}

/// Enters: whether the seat was outside, and is active now.
pub fn enter(heap: &Heap, seat: &mut HeapSeat) -> bool
    requires { Ready heap.now seat.old }
    ensures { Ready heap.now seat.new }
{
    is_bare(seat) && heap.enter_step(seat)
}

/// Leaves, if the seat has nothing in hand.
pub fn leave(heap: &Heap, seat: &mut HeapSeat) -> bool
    requires { Ready heap.now seat.old }
    ensures { Ready heap.now seat.new }
{
    leaves(heap, seat)
}

/// Whether the seat finds this phase.
pub fn sees_phase(heap: &Heap, seat: &mut HeapSeat, phase: Phase) -> bool
    requires { Ready heap.now seat.old }
    ensures { Ready heap.now seat.new }
{
    heap.read_phase(seat) == phase
}

/// Whether the seat is active and finds this season.
pub fn sees_season(heap: &Heap, seat: &mut HeapSeat, season: u64) -> bool
    requires { Ready heap.now seat.old }
    ensures { Ready heap.now seat.new }
{
    is_running(seat) && heap.read_season(seat) == season
}

/// Begins marking: whether the seat is active, and the phase was idle.
pub fn try_marking(heap: &Heap, seat: &mut HeapSeat) -> bool
    requires { Ready heap.now seat.old }
    ensures { Ready heap.now seat.new }
{
    is_running(seat) && heap.store_phase(seat, Phase::Marking)
}

/// Both seats enter, the second begins marking, and both see it.
pub fn both_mark(heap: &Heap, zero: &mut HeapSeat, one: &mut HeapSeat) -> bool
    requires zero { Ready heap.now zero.old }
    requires one { Ready heap.now one.old }
    ensures zero { Ready heap.now zero.new }
    ensures one { Ready heap.now one.new }
{
    enter(heap, zero)
        && enter(heap, one)
        && try_marking(heap, one)
        && sees_phase(heap, zero, Phase::Marking)
        && sees_phase(heap, one, Phase::Marking)
}

fn turns<R: Wait>(rt: &R, heap: &Heap, seat: &mut HeapSeat) -> bool
    requires { New heap.now resting 0 seat.old × (0 < heap.now.shape.sections) }
    ensures { OnTrue result (Ready heap.now seat.new) }
{
    if !next_turn(rt, heap, seat) {
        return false;
    }
    true
}

/// The first season begins, and marking in it; both seats are active, and the warehouse's has its turn.
pub fn begin<R: Wait>(rt: &R, heap: &Heap, zero: &mut HeapSeat, one: &mut HeapSeat) -> bool
    requires zero { New heap.now resting 0 zero.old × (0 < heap.now.shape.sections) }
    requires one { Ready heap.now one.old }
    ensures { OnTrue result (Ready heap.now zero.new × Ready heap.now one.new) }
{
    turns(rt, heap, zero) && both_mark(heap, zero, one) && sees_season(heap, one, 1)
}

fn words_of_largest(alloc: Global) -> Option<Words> {
    let shape = Shape {
        cells: 65536,
        packets: 1024,
        entries: 512,
        sections: 33,
        fields: 16,
        objects: 2_000_000,
        sharing: false,
        slots: 0,
        stretch: 1,
    };
    let Ok((heap, seats)) = Heap::create(alloc, shape, SEATS, &NoPlan) else {
        return None;
    };
    match heap.close(alloc, seats) {
        Ok(words) => Some(words),
        Err(_) => None,
    }
}

fn list_of<'a>(words: &'a Words, name: &str) -> Option<&'a [u64]> {
    match name {
        "idents" => Some(words.idents.as_slice()),
        "values" => Some(words.values.as_slice()),
        "fields" => Some(words.fields.as_slice()),
        "alloc" => Some(words.alloc.as_slice()),
        "positions" => Some(words.positions.as_slice()),
        "roots" => Some(words.roots.as_slice()),
        _ => None,
    }
}

fn count_others(words: &[u64]) -> usize {
    let mut others = 0usize;
    for word in words {
        if *word != 0 {
            others = others.saturating_add(1);
        }
    }
    others
}

/// Whether the word is as told, in `0=3`.
fn is_word(list: &[u64], told: &str) -> Option<bool> {
    let (i, n) = told.split_once('=')?;
    let word = list.get(i.parse::<usize>().ok()?)?;
    Some(*word == n.parse::<u64>().ok()?)
}

/// Whether a list has so many words, all 0 but those told, as in `alloc 1 0=3`.
fn is_list(words: &Words, told: &str) -> Option<bool> {
    let mut told = told.split(' ');
    let list = list_of(words, told.next()?)?;
    let count = told.next()?.parse::<usize>().ok()?;
    let mut others = count_others(list);
    for other in told {
        if is_word(list, other) != Some(true) {
            return Some(false);
        }
        others = others.saturating_sub(1);
    }
    Some(list.len() == count && others == 0)
}

/// The first of the lists that isn't as told, or what else differs.
pub fn unlike<'a>(words: &Option<Words>, phase: Phase, lists: &'a str) -> Option<&'a str> {
    let Some(words) = words else {
        return Some("a step");
    };
    if words.phase != phase || words.named != 0 {
        return Some("phase");
    }
    for told in lists.split(", ") {
        if is_list(words, told) != Some(true) {
            return Some(told);
        }
    }
    None
}

const LARGEST: &str =
    "idents 65536, values 65536, fields 1048576, alloc 1024, positions 33, roots 1056";

#[test]
fn largest(rt: HostRuntime) {
    let words = words_of_largest(rt.alloc());
    assert_eq!(&rt; unlike(&words, Phase::Idle, LARGEST), None);
}
