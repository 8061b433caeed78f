//! One operation of a mutator at its turn.
ghost use Rattle.std.specs.Prelude.{ℕ, ◌≡◌, ◌<◌, ◌+◌, IfErr, IfOk, IsFalse};
ghost use Rattle.std.specs.Bool.{OnFalse, OnTrue};
ghost use Rattle.std.specs.Int.Count.{ones};
ghost use Rattle.mark_core.specs.Numbers.{section_variables};
ghost use Rattle.plain_heap.specs.PlainHeap.{variable};
ghost use Rattle.plain_heap.specs.declared.object.Ref.TheVariants.{Nil};
ghost use Rattle.plain_heap.specs.declared.operation.Op.TheVariants as ops;
ghost use Rattle.gc_table.specs.Log.{Only, steps_of};
ghost use Rattle.gc_table.specs.Running.{Ran};
ghost use Rattle.gc_table.specs.Seats.{Across, did, state_of, view_of};
ghost use Rattle.alloc_cache.specs.Caching.{IsCached};
ghost use Rattle.cache_refills.specs.Notices.{IsTold};
ghost use Rattle.mutator_ops.specs.Few.{AtMost};
ghost use Rattle.mutator_ops.specs.Listing.{creating_steps};
ghost use Rattle.seat_turns.specs.Coming.{MakesAtTurn, MakesNoneAtTurn};
ghost use Rattle.seat_turns.specs.Halting.{MadeNone};
ghost use Rattle.seat_turns.specs.Operating.{TakesSteps};
ghost use Rattle.seat_turns.specs.Plain.{Steps, value_in};
ghost use Rattle.seat_turns.specs.Sharing.{spares_tracers};
ghost use Rattle.seat_turns.specs.Standing.{IsAtTurn, Plays, plain_of};
ghost use Rattle.seat_turns.specs.Telling.{TellsFills};

use crate::gates::leave_full;
use crate::refused::Refused;
use crate::sharing::word_of;
use crate::turns::come_to;
use alloc_cache::{Cache, cache_of, leave_with_seat};
use cache_refills::Watch;
use gc_table::{Heap, HeapSeat};
use mutator_ops::{create, say};
use plain_heap::Line;
use std::sync::Wait;

/// Makes an object in variable v. The cache stays the seat's.
pub fn make_in(heap: &Heap, seat: &mut HeapSeat, cache: Cache, v: u8, value: u32)
    requires plays { Plays heap.now seat.old }
    requires owned { IsFalse heap.now.shape.sharing }
    requires cache { IsCached cache (view_of seat.old) }
    requires free { 0 < ones cache.cells }
    requires room { (state_of seat.old).made < heap.now.shape.objects }
    requires range { v < section_variables }
    ensures turn { IsAtTurn heap.now seat.new }
    ensures steps { Steps (ops.New v value) (plain_of seat.old) (plain_of seat.new) }
    ensures ran { Across Ran seat.old seat.new }
    ensures few { Across (AtMost (heap.now.shape.fields + 3)) seat.old seat.new }
    ensures tracers { Across (Only spares_tracers) seat.old seat.new }
    ensures takes { (cell : ℕ) × (steps_of (did seat.old seat.new) ≡ creating_steps heap.now.shape.fields (state_of seat.old) v value cell) }
{
    let mut cache = cache;
    let Some(_cell) = create(heap, seat, &mut cache, v, value) else {
        unreachable!()
    };
    leave_with_seat(cache);
}

/// Makes an object in variable v, after a safe point. Refused if the heap is full (the seat is outside then) or the
/// section has made all its objects.
pub fn make_object<R: Wait, W: Watch>(
    rt: &R,
    heap: &Heap,
    seat: &mut HeapSeat,
    v: u8,
    value: u32,
    in_stops: bool,
    watch: &mut W,
) -> Result<(), Refused>
    requires turn { IsAtTurn heap.now seat.old }
    requires owned { IsFalse heap.now.shape.sharing }
    requires range { v < section_variables }
    ensures ok { IfOk result (λ _. IsAtTurn heap.now seat.new × Steps (ops.New v value) (plain_of seat.old) (plain_of seat.new)) }
    ensures err { IfErr result (λ e. MadeNone e heap.now seat.new × (plain_of seat.new ≡ plain_of seat.old)) }
    ensures ran { Across Ran seat.old seat.new }
    ensures tracers { Across (Only spares_tracers) seat.old seat.new }
    ensures made { IfOk result (λ _. Across (MakesAtTurn in_stops heap.now.shape v value) seat.old seat.new) }
    ensures none { IfErr result (λ e. Across (MakesNoneAtTurn e in_stops heap.now.shape) seat.old seat.new) }
    ensures told { IsTold W.hears (λ ns. Across (TellsFills in_stops heap.now.shape ns) seat.old seat.new) watch.old watch.new }
{
    let cache = cache_of(seat);
    match come_to(rt, heap, seat, cache, in_stops, watch) {
        Ok(free) => {
            make_in(heap, seat, free, v, value);
            Ok(())
        }
        Err(Refused::Full) => Err(leave_full(heap, seat)),
        Err(other) => Err(other),
    }
}

/// The value of variable v's object; None if it refers to nothing.
pub fn read_value(heap: &Heap, seat: &mut HeapSeat, v: u8) -> Option<u32>
    requires turn { IsAtTurn heap.now seat.old }
    requires owned { IsFalse heap.now.shape.sharing }
    requires range { v < section_variables }
    ensures turn { IsAtTurn heap.now seat.new }
    ensures same { plain_of seat.new ≡ plain_of seat.old }
    ensures value { result ≡ value_in (plain_of seat.old) v }
    ensures few { Across (AtMost 1) seat.old seat.new }
    ensures ran { Across Ran seat.old seat.new }
    ensures tracers { Across (Only spares_tracers) seat.old seat.new }
    ensures takes { Across (TakesSteps (ops.Say v)) seat.old seat.new }
{
    match say(heap, seat, v) {
        Line::Value(value) => Some(value),
        Line::Nil => None,
        Line::Walk { .. } => None,
    }
}

/// Whether variable v refers to nothing.
pub fn refers_to_nothing(_heap: &Heap, seat: &HeapSeat, v: u8) -> bool
    requires turn { IsAtTurn _heap.now seat.now }
    requires owned { IsFalse _heap.now.shape.sharing }
    requires range { v < section_variables }
    ensures nil { OnTrue result (variable (plain_of seat.now) v ≡ Nil) }
    ensures some { OnFalse result (variable (plain_of seat.now) v ≡ Nil → ⊥) }
{
    word_of(seat, v) == 0
}

/// Whether two variables refer to one object, or both to nothing.
pub fn refer_to_one(_heap: &Heap, seat: &HeapSeat, v: u8, w: u8) -> bool
    requires turn { IsAtTurn _heap.now seat.now }
    requires owned { IsFalse _heap.now.shape.sharing }
    requires range { (v < section_variables) × (w < section_variables) }
    ensures one { OnTrue result (variable (plain_of seat.now) v ≡ variable (plain_of seat.now) w) }
    ensures two { OnFalse result (variable (plain_of seat.now) v ≡ variable (plain_of seat.now) w → ⊥) }
{
    word_of(seat, v) == word_of(seat, w)
}
