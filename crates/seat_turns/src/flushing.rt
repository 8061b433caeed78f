//! The variables of a mutator whose roots lag are stored.
ghost use Rattle.std.specs.Prelude.{◌≡◌, ◌+◌, ◌<◌, false, IfErr, IfOk, IsTrue};
ghost use Rattle.alloc_cache.specs.Caching.{is_whole};
ghost use Rattle.gc_table.specs.Rule.{KnowsFull};
ghost use Rattle.gc_cycle.specs.Cycles.{collects};
ghost use Rattle.gc_table.specs.Seats.{Across, did, state_of, view_of};
ghost use Rattle.mark_core.specs.Numbers.{section_variables};
ghost use Rattle.cache_refills.specs.Notices.{IsTold};
ghost use Rattle.mutator_ops.specs.Few.{AtMost};
ghost use Rattle.mutator_ops.specs.Flushing.{Flushes};
ghost use Rattle.seat_turns.specs.Coming.{CollectsAtTurn, CollectsNone, FlushesFirst, LeavesTurn, MakesNoneAtTurn, MakesSharedAtTurn};
ghost use Rattle.seat_turns.specs.Halting.{LeftFull, MadeNone};
ghost use Rattle.seat_turns.specs.Sharing.{LeavesHeap, MakesSharedAfter};
ghost use Rattle.seat_turns.specs.Standing.{HoldsTurn, HoldsWorld, IsAtTurn, IsMutatorOutside, Works, flush_steps, plain_of, saw_going};
ghost use Rattle.seat_turns.specs.Telling.{TellsFills};

use crate::gates::{collect_turn, leave_turn};
use crate::refused::Refused;
use crate::sharing::make_shared;
use cache_refills::Watch;
use gc_table::{Heap, HeapSeat};
use mutator_ops::flush_roots;
use std::sync::Wait;

/// Stores each variable whose root lags. Afterwards the mutator is at rest, and at its turn if it has read the phase.
pub fn flush_turn(heap: &Heap, seat: &mut HeapSeat)
    requires holds { HoldsWorld heap.now seat.old }
    ensures works { Works heap.now seat.new }
    ensures whole { IsTrue (is_whole (state_of seat.new).cache) }
    ensures turn { IsTrue (saw_going (state_of seat.old).phase_seen) → IsAtTurn heap.now seat.new }
    ensures flushes { Across Flushes seat.old seat.new }
    ensures same { plain_of seat.new ≡ plain_of seat.old }
    ensures leaves { Across LeavesHeap seat.old seat.new }
    ensures full { KnowsFull (view_of seat.old) → KnowsFull (view_of seat.new) }
    ensures few { Across (AtMost (flush_steps (view_of seat.old))) seat.old seat.new }
{
    flush_roots(heap, seat);
}

/// Leaves the world, at its turn, once no root lags.
pub fn leave_flushed(heap: &Heap, seat: &mut HeapSeat)
    requires turn { HoldsTurn heap.now seat.old }
    ensures waits { IsMutatorOutside heap.now seat.new }
    ensures same { plain_of seat.new ≡ plain_of seat.old }
    ensures leaves { Across LeavesHeap seat.old seat.new }
    ensures out { Across (FlushesFirst LeavesTurn) seat.old seat.new }
    ensures few { Across (AtMost (flush_steps (view_of seat.old) + 5)) seat.old seat.new }
{
    flush_turn(heap, seat);
    leave_turn(heap, seat);
}

/// A precise collection, as [`collect_turn`], once no root lags.
pub fn collect_flushed<R: Wait>(rt: &R, heap: &Heap, seat: &mut HeapSeat) -> Result<(), Refused>
    requires turn { HoldsTurn heap.now seat.old }
    ensures ok { IfOk result (λ _. IsAtTurn heap.now seat.new × IsTrue (collects (did seat.old seat.new))) }
    ensures err { IfErr result (λ e. LeftFull e heap.now seat.new) }
    ensures same { plain_of seat.new ≡ plain_of seat.old }
    ensures leaves { Across LeavesHeap seat.old seat.new }
    ensures collects { IfOk result (λ _. Across (FlushesFirst CollectsAtTurn) seat.old seat.new) }
    ensures none { IfErr result (λ _. Across (FlushesFirst CollectsNone) seat.old seat.new) }
{
    flush_turn(heap, seat);
    collect_turn(rt, heap, seat)
}

/// Makes an object in variable v, as [`make_shared`], once no root lags.
pub fn make_flushed<R: Wait, W: Watch>(
    rt: &R,
    heap: &Heap,
    seat: &mut HeapSeat,
    v: u8,
    value: u32,
    watch: &mut W,
) -> Result<(), Refused>
    requires turn { HoldsTurn heap.now seat.old }
    requires shared { IsTrue heap.now.shape.sharing }
    requires range { v < section_variables }
    ensures ok { IfOk result (λ _. HoldsTurn heap.now seat.new × Across (MakesSharedAfter v value) seat.old seat.new) }
    ensures err { IfErr result (λ e. MadeNone e heap.now seat.new) }
    ensures leaves { IfErr result (λ _. Across LeavesHeap seat.old seat.new) }
    ensures made { IfOk result (λ _. Across (FlushesFirst (MakesSharedAtTurn heap.now.shape v value)) seat.old seat.new) }
    ensures none { IfErr result (λ e. Across (FlushesFirst (MakesNoneAtTurn e false heap.now.shape)) seat.old seat.new) }
    ensures told { IsTold W.hears (λ ns. Across (TellsFills false heap.now.shape ns) seat.old seat.new) watch.old watch.new }
{
    flush_turn(heap, seat);
    make_shared(rt, heap, seat, v, value, watch)
}
