//! A mutator goes into the world and out of it.
ghost use Rattle.std.specs.Prelude.{◌≡◌, IfErr, IfOk, IsTrue};
ghost use Rattle.gc_cycle.specs.Answering.{HasCache};
ghost use Rattle.gc_cycle.specs.Answering.{retires};
ghost use Rattle.gc_cycle.specs.Cycles.{collects};
ghost use Rattle.gc_table.specs.Log.{Only};
ghost use Rattle.gc_table.specs.Rule.{KnowsFull};
ghost use Rattle.gc_table.specs.Running.{Ran};
ghost use Rattle.gc_table.specs.Seats.{Across, did, view_of};
ghost use Rattle.mutator_ops.specs.Few.{AtMost};
ghost use Rattle.seat_turns.specs.Coming.{CollectsAtTurn, CollectsNone, EntersFull, EntersTurn, GivesCache, LeavesTurn, PollsOutWith, PollsWith, StepsOut, WithOwn};
ghost use Rattle.seat_turns.specs.Halting.{LeftFull};
ghost use Rattle.seat_turns.specs.declared.refused.Refused.TheVariants as refusals;
ghost use Rattle.seat_turns.specs.Sharing.{LeavesHeap};
ghost use Rattle.seat_turns.specs.Standing.{Halts, IsAtTurn, IsMutatorOutside, Works, plain_of};

use crate::refused::Refused;
use crate::turns::{keep_some, pass, retire_some};
use alloc_cache::{Cache, cache_of};
use gc_cycle::{Safe, collect, go_in, go_out};
use gc_table::{Heap, HeapSeat};
use std::sync::Wait;

/// Leaves the world without a cache.
pub fn leave(heap: &Heap, seat: &mut HeapSeat)
    requires halts { Halts heap.now seat.old }
    ensures waits { IsMutatorOutside heap.now seat.new }
    ensures same { plain_of seat.new ≡ plain_of seat.old }
    ensures leaves { Across LeavesHeap seat.old seat.new }
    ensures full { KnowsFull (view_of seat.old) → KnowsFull (view_of seat.new) }
    ensures ran { Across Ran seat.old seat.new }
    ensures few { Across (AtMost 2) seat.old seat.new }
    ensures out { Across StepsOut seat.old seat.new }
{
    let made = seat.state().made;
    go_out(heap, seat, made);
}

pub fn leave_full(heap: &Heap, seat: &mut HeapSeat) -> Refused
    requires halts { Halts heap.now seat.old }
    requires full { KnowsFull (view_of seat.old) }
    ensures left { LeftFull result heap.now seat.new }
    ensures same { plain_of seat.new ≡ plain_of seat.old }
    ensures leaves { Across LeavesHeap seat.old seat.new }
    ensures answer { result ≡ refusals.Full }
    ensures ran { Across Ran seat.old seat.new }
    ensures few { Across (AtMost 2) seat.old seat.new }
    ensures out { Across StepsOut seat.old seat.new }
{
    leave(heap, seat);
    Refused::Full
}

/// Gives up the cache that the seat has, if there is one.
pub fn retire_own_cache(heap: &Heap, seat: &mut HeapSeat)
    requires turn { IsAtTurn heap.now seat.old }
    ensures halts { Halts heap.now seat.new }
    ensures only { Across (Only retires) seat.old seat.new }
    ensures same { plain_of seat.new ≡ plain_of seat.old }
    ensures leaves { Across LeavesHeap seat.old seat.new }
    ensures ran { Across Ran seat.old seat.new }
    ensures gives { Across (WithOwn GivesCache) seat.old seat.new }
    ensures few { Across (AtMost 3) seat.old seat.new }
{
    let cache = cache_of(seat);
    retire_some(heap, seat, cache);
}

/// Leaves the world from its turn.
pub fn leave_turn(heap: &Heap, seat: &mut HeapSeat)
    requires turn { IsAtTurn heap.now seat.old }
    ensures waits { IsMutatorOutside heap.now seat.new }
    ensures same { plain_of seat.new ≡ plain_of seat.old }
    ensures leaves { Across LeavesHeap seat.old seat.new }
    ensures out { Across LeavesTurn seat.old seat.new }
    ensures few { Across (AtMost 5) seat.old seat.new }
{
    retire_own_cache(heap, seat);
    leave(heap, seat);
}

fn come_to_turn<R: Wait>(
    rt: &R,
    heap: &Heap,
    seat: &mut HeapSeat,
    cache: Option<Cache>,
) -> Result<(), Refused>
    requires works { Works heap.now seat.old }
    requires cache { HasCache cache (view_of seat.old) }
    ensures ok { IfOk result (λ _. IsAtTurn heap.now seat.new) }
    ensures err { IfErr result (λ e. LeftFull e heap.now seat.new) }
    ensures same { plain_of seat.new ≡ plain_of seat.old }
    ensures leaves { Across LeavesHeap seat.old seat.new }
    ensures ran { Across Ran seat.old seat.new }
    ensures polls { IfOk result (λ _. Across (PollsWith cache) seat.old seat.new) }
    ensures full { IfErr result (λ _. Across (PollsOutWith cache) seat.old seat.new) }
{
    match pass(rt, heap, seat, cache) {
        Ok(kept) => {
            keep_some(kept);
            Ok(())
        }
        Err(_) => Err(leave_full(heap, seat)),
    }
}

/// Enters the world, as soon as no stop is under way, and comes to its turn. Refused only if the heap is full; then the
/// seat is outside.
pub fn enter_turn<R: Wait>(rt: &R, heap: &Heap, seat: &mut HeapSeat) -> Result<(), Refused>
    requires waits { IsMutatorOutside heap.now seat.old }
    ensures ok { IfOk result (λ _. IsAtTurn heap.now seat.new) }
    ensures err { IfErr result (λ e. LeftFull e heap.now seat.new) }
    ensures same { plain_of seat.new ≡ plain_of seat.old }
    ensures leaves { Across LeavesHeap seat.old seat.new }
    ensures enters { IfOk result (λ _. Across EntersTurn seat.old seat.new) }
    ensures full { IfErr result (λ _. Across EntersFull seat.old seat.new) }
{
    go_in(rt, heap, seat);
    come_to_turn(rt, heap, seat, None)
}

/// A safe point at its turn. Refused as [`enter_turn`].
pub fn pass_turn<R: Wait>(rt: &R, heap: &Heap, seat: &mut HeapSeat) -> Result<(), Refused>
    requires turn { IsAtTurn heap.now seat.old }
    ensures ok { IfOk result (λ _. IsAtTurn heap.now seat.new) }
    ensures err { IfErr result (λ e. LeftFull e heap.now seat.new) }
    ensures same { plain_of seat.new ≡ plain_of seat.old }
    ensures leaves { Across LeavesHeap seat.old seat.new }
    ensures polls { IfOk result (λ _. Across (WithOwn PollsWith) seat.old seat.new) }
    ensures full { IfErr result (λ _. Across (WithOwn PollsOutWith) seat.old seat.new) }
{
    let cache = cache_of(seat);
    come_to_turn(rt, heap, seat, cache)
}

/// A precise collection, which begins and ends at its turn. Refused as [`enter_turn`].
pub fn collect_turn<R: Wait>(rt: &R, heap: &Heap, seat: &mut HeapSeat) -> Result<(), Refused>
    requires turn { IsAtTurn heap.now seat.old }
    ensures ok { IfOk result (λ _. IsAtTurn heap.now seat.new × IsTrue (collects (did seat.old seat.new))) }
    ensures err { IfErr result (λ e. LeftFull e heap.now seat.new) }
    ensures same { plain_of seat.new ≡ plain_of seat.old }
    ensures leaves { Across LeavesHeap seat.old seat.new }
    ensures collects { IfOk result (λ _. Across CollectsAtTurn seat.old seat.new) }
    ensures none { IfErr result (λ _. Across CollectsNone seat.old seat.new) }
{
    retire_own_cache(heap, seat);
    let made = seat.state().made;
    match collect(rt, heap, seat, made) {
        Safe::Going(cache) => come_to_turn(rt, heap, seat, cache),
        Safe::Full => Err(leave_full(heap, seat)),
    }
}
