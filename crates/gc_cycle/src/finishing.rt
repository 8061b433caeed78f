//! A cycle ends in a stop: the final phase, and the sweep.
ghost use Rattle.std.specs.Prelude.{◌≡◌, ◌+◌, ◌⊎◌, min, IsTrue};
ghost use Rattle.mark_core.specs.declared.kinds.Phase.TheVariants.{Idle, Marking, Drain};
ghost use Rattle.std.specs.Bool.{OnTrue, OnFalse};
ghost use Rattle.mark_core.specs.declared.kinds.Step.TheVariants.{ReadPhase};
ghost use Rattle.gc_table.specs.Seats.{Across, did, Sits, state_of, Took, view_of};
ghost use Rattle.sweeper.specs.Freeing.{freed_in};
ghost use Rattle.card_clean.specs.Leaving.{rescanned_in};
ghost use Rattle.gc_cycle.specs.Cycles.{collects_exactly};
ghost use Rattle.gc_cycle.specs.DrainRounds.{DrainsBefore, DrainsToSweep};
ghost use Rattle.gc_cycle.specs.Ending.{InEach, IsCycleEnd, IsExact};
ghost use Rattle.gc_cycle.specs.Events.{never};
ghost use Rattle.gc_cycle.specs.Finishing.{BeginsExactly, Completes, IsAloneIn, most};
ghost use Rattle.gc_cycle.specs.Moments.{begins};
ghost use Rattle.gc_cycle.specs.OneCycle.{EndsCycle};
ghost use Rattle.gc_cycle.specs.Sorts.{begins_exactly};

use crate::clearing::clear_all_marks;
use crate::counts::Counts;
use crate::draining::{begin_drain, begin_sweep, drain_alone, drain_together};
use crate::settling::settle;
use crate::sweeping::{end_sweep, sweep_together};
use gc_table::{Heap, HeapSeat};
use mark_core::Phase as CyclePhase;
use std::sync::Wait;

fn complete<R: Wait>(rt: &R, heap: &Heap, seat: &mut HeapSeat, before: u32) -> Counts
    requires seat { Sits heap.now seat.old }
    requires alone { IsAloneIn Drain (view_of seat.old) }
    ensures seat { Sits heap.now seat.new }
    ensures completes { Across Completes seat.old seat.new }
    ensures drains { Across DrainsToSweep seat.old seat.new }
    ensures end { InEach (IsCycleEnd result) (view_of seat.new) }
    ensures rescanned { result.rescanned ≡ min (before + rescanned_in (view_of seat.old) (did seat.old seat.new)) most }
    ensures freed { result.freed ≡ freed_in (view_of seat.old) (did seat.old seat.new) }
{
    let together = before.saturating_add(drain_together(rt, heap, seat));
    let rescanned = together.saturating_add(drain_alone(heap, seat));
    begin_sweep(heap, seat);
    let freed = sweep_together(rt, heap, seat);
    end_sweep(heap, seat);
    settle(heap, seat, rescanned, freed)
}

fn finds_idle(heap: &Heap, seat: &mut HeapSeat) -> bool
    requires seat { Sits heap.now seat.old }
    requires alone { IsAloneIn Idle (view_of seat.old) ⊎ IsAloneIn Marking (view_of seat.old) }
    ensures seat { Sits heap.now seat.new }
    ensures read { Across (Took ReadPhase) seat.old seat.new }
    ensures idle { OnTrue result (IsAloneIn Idle (view_of seat.new)) }
    ensures marking { OnFalse result (IsAloneIn Marking (view_of seat.new)) }
{
    match heap.read_phase(seat) {
        CyclePhase::Idle => true,
        _ => false,
    }
}

/// Begins a drain in which no cell is marked.
fn begin_exactly(heap: &Heap, seat: &mut HeapSeat) -> u32
    requires seat { Sits heap.now seat.old }
    requires alone { IsAloneIn Idle (view_of seat.old) ⊎ IsAloneIn Marking (view_of seat.old) }
    ensures seat { Sits heap.now seat.new }
    ensures begun { Across BeginsExactly seat.old seat.new }
    ensures first { IsAloneIn Marking (view_of seat.old) → Across DrainsBefore seat.old seat.new }
    ensures rescanned { result ≡ min (rescanned_in (view_of seat.old) (did seat.old seat.new)) most }
    ensures freed { freed_in (view_of seat.old) (did seat.old seat.new) ≡ 0 }
{
    let idle = finds_idle(heap, seat);
    begin_drain(heap, seat);
    if idle {
        return 0;
    }
    let rescanned = drain_alone(heap, seat);
    clear_all_marks(heap, seat);
    rescanned
}

/// Ends a cycle that is marking: marks what the mutators left, and frees white cells. Helpers have left before each
/// move of the phase.
pub fn finish_cycle<R: Wait>(rt: &R, heap: &Heap, seat: &mut HeapSeat) -> Counts
    requires seat { Sits heap.now seat.old }
    requires alone { IsAloneIn Marking (view_of seat.old) }
    ensures seat { Sits heap.now seat.new }
    ensures ends { Across (EndsCycle result) seat.old seat.new }
    ensures ordinary { IsTrue (never begins_exactly (did seat.old seat.new)) }
{
    begin_drain(heap, seat);
    complete(rt, heap, seat, 0)
}

/// A precise collection: the cells in use afterwards are exactly the reachable ones. A cycle that was marking has
/// marked cells that died since, so it drains, clears all marks, and drains once more.
pub fn precise<R: Wait>(rt: &R, heap: &Heap, seat: &mut HeapSeat) -> Counts
    requires seat { Sits heap.now seat.old }
    requires alone { IsAloneIn Idle (view_of seat.old) ⊎ IsAloneIn Marking (view_of seat.old) }
    ensures seat { Sits heap.now seat.new }
    ensures ends { Across (EndsCycle result) seat.old seat.new }
    ensures first { IsAloneIn Marking (view_of seat.old) → Across DrainsBefore seat.old seat.new }
    ensures collects { IsTrue (collects_exactly heap.now.shape (begins (view_of seat.old)) (did seat.old seat.new)) }
    ensures known { IsTrue (state_of seat.new).exact }
    ensures exact { InEach IsExact (view_of seat.new) }
{
    let first = begin_exactly(heap, seat);
    complete(rt, heap, seat, first)
}
