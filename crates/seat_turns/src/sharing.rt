//! One operation in a heap whose objects are shared, where `mutator_ops` has none that fits.
ghost use Rattle.std.specs.Prelude.{◌≡◌, ◌<◌, ◌≤◌, ◌+◌, ◌-◌, [], ◌∷◌, IfErr, IfOk, IsTrue, false, slice_index};
ghost use Rattle.std.specs.Int.Count.{ones};
ghost use Rattle.mark_core.specs.Numbers.{section_variables};
ghost use Rattle.mark_core.specs.Steps.MutatorSteps.{seat_variable as word_in};
ghost use Rattle.mark_core.specs.declared.kinds.Step.TheVariants.{ReadIdent, StoreSlot};
ghost use Rattle.gc_table.specs.Seats.{Across, Found, state_of, view_of};
ghost use Rattle.alloc_cache.specs.Caching.{IsCached};
ghost use Rattle.cache_refills.specs.Notices.{IsTold};
ghost use Rattle.mutator_ops.specs.Few.{AtMost};
ghost use Rattle.mutator_ops.specs.Sharing.{TakesSteps};
ghost use Rattle.seat_turns.specs.Clearing.{clearing_steps};
ghost use Rattle.seat_turns.specs.Coming.{MakesNoneAtTurn, MakesSharedAtTurn};
ghost use Rattle.seat_turns.specs.Halting.{MadeNone};
ghost use Rattle.seat_turns.specs.Sharing.{FollowsField, LeavesHeap, MakesShared, MakesSharedAfter};
ghost use Rattle.seat_turns.specs.Standing.{HoldsTurn, IsAtTurn};
ghost use Rattle.seat_turns.specs.Telling.{TellsFills};

use crate::gates::leave_full;
use crate::refused::Refused;
use crate::turns::come_to;
use alloc_cache::{Cache, cache_of, leave_with_seat};
use cache_refills::Watch;
use gc_table::{Heap, HeapSeat};
use mark_core::Cell;
use mutator_ops::{share_create, share_follow, share_forget};
use std::sync::Wait;

/// Variable w becomes reference i of variable v's object, or nil if v is.
pub fn get_shared(heap: &Heap, seat: &mut HeapSeat, w: u8, v: u8, i: u8)
    requires turn { HoldsTurn heap.now seat.old }
    requires shared { IsTrue heap.now.shape.sharing }
    requires range { (w < section_variables) × (v < section_variables) × (i < heap.now.shape.fields) }
    ensures turn { HoldsTurn heap.now seat.new }
    ensures follows { Across (FollowsField w v i) seat.old seat.new }
    ensures few { Across (AtMost 2) seat.old seat.new }
{
    if word_of(seat, v) == 0 {
        share_forget(heap, seat, w);
    } else {
        share_follow(heap, seat, w, v, i);
    }
}

/// The word of variable v: 0 if it refers to nothing, and otherwise its object's cell number plus 1.
pub fn word_of(seat: &HeapSeat, v: u8) -> u32
    requires { v < section_variables }
    ensures { result ≡ slice_index (state_of seat.now).env v }
{
    seat.state().env[v as usize]
}

/// Makes an object in variable v. The cache stays the seat's.
pub fn make_shared_in(heap: &Heap, seat: &mut HeapSeat, cache: Cache, v: u8, value: u32)
    requires turn { HoldsTurn heap.now seat.old }
    requires shared { IsTrue heap.now.shape.sharing }
    requires cache { IsCached cache (view_of seat.old) }
    requires free { 0 < ones cache.cells }
    requires room { (state_of seat.old).made < heap.now.shape.objects }
    requires range { v < section_variables }
    ensures turn { HoldsTurn heap.now seat.new }
    ensures makes { Across (MakesShared v value) seat.old seat.new }
    ensures few { Across (AtMost (heap.now.shape.fields + 3)) seat.old seat.new }
{
    let mut cache = cache;
    let Some(_cell) = share_create(heap, seat, &mut cache, v, value) else {
        unreachable!()
    };
    leave_with_seat(cache);
}

/// Makes an object in variable v, after a safe point. Refused as [`make_object`](crate::make_object).
pub fn make_shared<R: Wait, W: Watch>(
    rt: &R,
    heap: &Heap,
    seat: &mut HeapSeat,
    v: u8,
    value: u32,
    watch: &mut W,
) -> Result<(), Refused>
    requires turn { IsAtTurn heap.now seat.old }
    requires shared { IsTrue heap.now.shape.sharing }
    requires range { v < section_variables }
    ensures ok { IfOk result (λ _. HoldsTurn heap.now seat.new × Across (MakesSharedAfter v value) seat.old seat.new) }
    ensures err { IfErr result (λ e. MadeNone e heap.now seat.new) }
    ensures leaves { IfErr result (λ _. Across LeavesHeap seat.old seat.new) }
    ensures made { IfOk result (λ _. Across (MakesSharedAtTurn heap.now.shape v value) seat.old seat.new) }
    ensures none { IfErr result (λ e. Across (MakesNoneAtTurn e false heap.now.shape) seat.old seat.new) }
    ensures told { IsTold W.hears (λ ns. Across (TellsFills false heap.now.shape ns) seat.old seat.new) watch.old watch.new }
{
    let cache = cache_of(seat);
    match come_to(rt, heap, seat, cache, false, watch) {
        Ok(free) => {
            make_shared_in(heap, seat, free, v, value);
            Ok(())
        }
        Err(Refused::Full) => Err(leave_full(heap, seat)),
        Err(other) => Err(other),
    }
}

/// The identity of variable v's object, which isn't nil, by one read: 4,294,967,296 times its section, and its
/// number there.
pub fn identity_shared(heap: &Heap, seat: &mut HeapSeat, v: u8) -> u64
    requires turn { HoldsTurn heap.now seat.old }
    requires shared { IsTrue heap.now.shape.sharing }
    requires range { v < section_variables }
    requires some { 0 < word_in (state_of seat.old) v }
    ensures turn { HoldsTurn heap.now seat.new }
    ensures found { Across (Found (ReadIdent (word_in (state_of seat.old) v - 1)) result) seat.old seat.new }
{
    let word = word_of(seat, v);
    heap.read_ident(seat, Cell::make(word - 1))
}

fn clear_slot(heap: &Heap, seat: &mut HeapSeat, k: u16)
    requires turn { HoldsTurn heap.now seat.old }
    requires shared { IsTrue heap.now.shape.sharing }
    requires range { k < heap.now.shape.slots }
    ensures turn { HoldsTurn heap.now seat.new }
    ensures takes { Across (TakesSteps (StoreSlot k 0 ∷ [])) seat.old seat.new }
{
    heap.store_slot(seat, k, 0);
}

/// The slots from `from` on and below `to` become nil.
pub fn clear_slots_shared(heap: &Heap, seat: &mut HeapSeat, from: u32, to: u32)
    requires turn { HoldsTurn heap.now seat.old }
    requires shared { IsTrue heap.now.shape.sharing }
    requires range { (from ≤ to) × (to ≤ heap.now.shape.slots) }
    ensures turn { HoldsTurn heap.now seat.new }
    ensures takes { Across (TakesSteps (clearing_steps from (to - from))) seat.old seat.new }
{
    for k in from..to {
        clear_slot(heap, seat, k as u16);
    }
}
