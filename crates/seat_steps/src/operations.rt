//! One operation of a mutator at its turn, whether or not its heap's objects are shared.
ghost use Rattle.std.specs.Prelude.{[], ◌<◌, ◌+◌, IfNone, IfSome, IsTrue};
ghost use Rattle.std.specs.Bool.{OnFalse, OnTrue};
ghost use Rattle.std.specs.Int.Count.{ones};
ghost use Rattle.mark_core.specs.Numbers.{section_variables};
ghost use Rattle.plain_heap.specs.declared.operation.Op.TheVariants as ops;
ghost use Rattle.gc_table.specs.Running.{Ran};
ghost use Rattle.gc_table.specs.Seats.{Across, did, state_of, view_of};
ghost use Rattle.alloc_cache.specs.Caching.{IsCached};
ghost use Rattle.gc_cycle.specs.Events.{never};
ghost use Rattle.gc_cycle.specs.Sorts.{tries_marking};
ghost use Rattle.gc_cycle.specs.Statistics.{ChangesBy};
ghost use Rattle.mutator_ops.specs.Few.{AtMost};
ghost use Rattle.seat_turns.specs.Standing.{HoldsTurn};
ghost use Rattle.seat_steps.specs.Doing.{Does, FindsNone, FindsSome, MakesNow, RefersToNothing, RefersToOne};

use alloc_cache::Cache;
use gc_table::{Heap, HeapSeat};
use mutator_ops::{
    assign, clear, follow, put, set, share_copy, share_forget, share_put, share_set, share_value_of,
};
use seat_turns::{
    get_shared, make_in, make_shared_in, read_value, refer_to_one, refers_to_nothing, word_of,
};

/// Makes an object in variable v. The cache stays the seat's.
pub fn makes(heap: &Heap, seat: &mut HeapSeat, cache: Cache, v: u8, value: u32)
    requires turn { HoldsTurn heap.now seat.old }
    requires cache { IsCached cache (view_of seat.old) }
    requires free { 0 < ones cache.cells }
    requires room { (state_of seat.old).made < heap.now.shape.objects }
    requires range { v < section_variables }
    ensures turn { HoldsTurn heap.now seat.new }
    ensures made { MakesNow v value heap.now seat.old seat.new }
    ensures ran { Across Ran seat.old seat.new }
    ensures few { Across (AtMost (heap.now.shape.fields + 3)) seat.old seat.new }
    ensures quiet { IsTrue (never tries_marking (did seat.old seat.new)) }
    ensures numbers { Across (ChangesBy []) seat.old seat.new }
{
    if heap.shape().sharing {
        make_shared_in(heap, seat, cache, v, value);
    } else {
        make_in(heap, seat, cache, v, value);
    }
}

#[tactic(auto, using(seat_turns::proofs::Done::operating))]
pub fn sets(heap: &Heap, seat: &mut HeapSeat, v: u8, i: u8, w: u8)
    requires turn { HoldsTurn heap.now seat.old }
    requires range { (v < section_variables) × (i < heap.now.shape.fields) × (w < section_variables) }
    ensures turn { HoldsTurn heap.now seat.new }
    ensures does { Does (ops.Set v i w) heap.now seat.old seat.new }
    ensures few { Across (AtMost 4) seat.old seat.new }
{
    if heap.shape().sharing {
        share_set(heap, seat, v, i, w);
    } else {
        set(heap, seat, v, i, w);
    }
}

#[tactic(auto, using(seat_turns::proofs::Done::operating))]
pub fn gets(heap: &Heap, seat: &mut HeapSeat, w: u8, v: u8, i: u8)
    requires turn { HoldsTurn heap.now seat.old }
    requires range { (w < section_variables) × (v < section_variables) × (i < heap.now.shape.fields) }
    ensures turn { HoldsTurn heap.now seat.new }
    ensures does { Does (ops.Get w v i) heap.now seat.old seat.new }
    ensures few { Across (AtMost 2) seat.old seat.new }
{
    if heap.shape().sharing {
        get_shared(heap, seat, w, v, i);
    } else {
        follow(heap, seat, w, v, i);
    }
}

#[tactic(auto, using(seat_turns::proofs::Done::operating))]
pub fn copies(heap: &Heap, seat: &mut HeapSeat, w: u8, v: u8)
    requires turn { HoldsTurn heap.now seat.old }
    requires range { (w < section_variables) × (v < section_variables) }
    ensures turn { HoldsTurn heap.now seat.new }
    ensures does { Does (ops.Let w v) heap.now seat.old seat.new }
    ensures few { Across (AtMost 1) seat.old seat.new }
{
    if heap.shape().sharing {
        share_copy(heap, seat, w, v);
    } else {
        assign(heap, seat, w, v);
    }
}

#[tactic(auto, using(seat_turns::proofs::Done::operating))]
pub fn forgets(heap: &Heap, seat: &mut HeapSeat, v: u8)
    requires turn { HoldsTurn heap.now seat.old }
    requires range { v < section_variables }
    ensures turn { HoldsTurn heap.now seat.new }
    ensures does { Does (ops.Nil v) heap.now seat.old seat.new }
    ensures few { Across (AtMost 1) seat.old seat.new }
{
    if heap.shape().sharing {
        share_forget(heap, seat, v);
    } else {
        clear(heap, seat, v);
    }
}

#[tactic(auto, using(seat_turns::proofs::Done::operating))]
pub fn puts(heap: &Heap, seat: &mut HeapSeat, v: u8, value: u32)
    requires turn { HoldsTurn heap.now seat.old }
    requires range { v < section_variables }
    ensures turn { HoldsTurn heap.now seat.new }
    ensures does { Does (ops.Put v value) heap.now seat.old seat.new }
    ensures few { Across (AtMost 2) seat.old seat.new }
{
    if heap.shape().sharing {
        share_put(heap, seat, v, value);
    } else {
        put(heap, seat, v, value);
    }
}

fn finds_low(heap: &Heap, seat: &mut HeapSeat, v: u8) -> Option<u32>
    requires turn { HoldsTurn heap.now seat.old }
    requires shared { IsTrue heap.now.shape.sharing }
    requires range { v < section_variables }
    ensures turn { HoldsTurn heap.now seat.new }
    ensures some { IfSome result (λ n. FindsSome v n heap.now seat.old seat.new) }
    ensures none { IfNone result (FindsNone v heap.now seat.old seat.new) }
    ensures few { Across (AtMost 1) seat.old seat.new }
{
    match share_value_of(heap, seat, v) {
        Some(value) => Some((value % 4_294_967_296) as u32),
        None => None,
    }
}

pub fn finds(heap: &Heap, seat: &mut HeapSeat, v: u8) -> Option<u32>
    requires turn { HoldsTurn heap.now seat.old }
    requires range { v < section_variables }
    ensures turn { HoldsTurn heap.now seat.new }
    ensures some { IfSome result (λ n. FindsSome v n heap.now seat.old seat.new) }
    ensures none { IfNone result (FindsNone v heap.now seat.old seat.new) }
    ensures few { Across (AtMost 1) seat.old seat.new }
{
    if heap.shape().sharing {
        finds_low(heap, seat, v)
    } else {
        read_value(heap, seat, v)
    }
}

pub fn is_nothing(heap: &Heap, seat: &HeapSeat, v: u8) -> bool
    requires turn { HoldsTurn heap.now seat.now }
    requires range { v < section_variables }
    ensures nil { OnTrue result (RefersToNothing heap.now.shape.sharing v seat.now) }
    ensures some { OnFalse result (RefersToNothing heap.now.shape.sharing v seat.now → ⊥) }
{
    if heap.shape().sharing {
        word_of(seat, v) == 0
    } else {
        refers_to_nothing(heap, seat, v)
    }
}

pub fn are_one(heap: &Heap, seat: &HeapSeat, v: u8, w: u8) -> bool
    requires turn { HoldsTurn heap.now seat.now }
    requires range { (v < section_variables) × (w < section_variables) }
    ensures one { OnTrue result (RefersToOne heap.now.shape.sharing v w seat.now) }
    ensures two { OnFalse result (RefersToOne heap.now.shape.sharing v w seat.now → ⊥) }
{
    if heap.shape().sharing {
        word_of(seat, v) == word_of(seat, w)
    } else {
        refer_to_one(heap, seat, v, w)
    }
}
