//! The parts of a tracer's turn.
ghost use Rattle.std.specs.Prelude.{◌≡◌, ◌+◌, Some, IsTrue, IsFalse};
ghost use Rattle.std.specs.Bool.{OnFalse, OnTrue};
ghost use Rattle.mark_core.specs.Numbers.{done_count};
ghost use Rattle.mark_core.specs.declared.kinds.Step.TheVariants.{LeaveStep, ReadStat};
ghost use Rattle.gc_table.specs.Running.{Ran};
ghost use Rattle.gc_table.specs.Seats.{Across, Found, Took, state_of};
ghost use Rattle.stop_world.specs.Gates.{Enters, TurnsBack};
ghost use Rattle.mutator_ops.specs.Few.{AtMost};
ghost use Rattle.seat_turns.specs.TracerStanding.{Goes, GoesMarking};
ghost use Rattle.seat_turns.specs.StepBounds.{turn_steps};
ghost use Rattle.seat_turns.specs.Standing.{RestsOutside};
ghost use Rattle.seat_turns.specs.Tallying.{Tallies};
ghost use Rattle.seat_turns.specs.Tracing.{HasMarked, MarksIn, Rounds, marking_steps};

use crate::tracer_marking::{mark_some, see_phase};
use gc_table::{Heap, HeapSeat};
use mark_core::{DONE, Phase, TRACED};
use stop_world::{enter, leave};

fn mark(heap: &Heap, seat: &mut HeapSeat, tally: &mut u64)
    requires { GoesMarking heap.now seat.old }
    ensures seat { Goes heap.now seat.new }
    ensures marks { Across HasMarked seat.old seat.new }
    ensures tally { Across (Tallies tally.old tally.new) seat.old seat.new }
    ensures few { Across (AtMost (turn_steps heap.now.shape + 1)) seat.old seat.new }
{
    let traced = mark_some(heap, seat);
    heap.add_stat(seat, TRACED, traced, false);
    *tally = tally.wrapping_add(u64::from(traced));
}

fn mark_in(heap: &Heap, seat: &mut HeapSeat, phase: Phase, tally: &mut u64)
    requires seat { Goes heap.now seat.old }
    requires seen { (state_of seat.old).phase_seen ≡ Some phase }
    ensures seat { Goes heap.now seat.new }
    ensures marks { Across (MarksIn phase) seat.old seat.new }
    ensures tally { Across (Tallies tally.old tally.new) seat.old seat.new }
    ensures few { Across (AtMost (marking_steps phase heap.now.shape)) seat.old seat.new }
{
    if let Phase::Marking = phase {
        mark(heap, seat, tally);
    }
}

/// Enters the world. False if a stop is under way.
pub fn goes_in(heap: &Heap, seat: &mut HeapSeat) -> bool
    requires { RestsOutside heap.now seat.old }
    ensures inside { IsTrue result → Goes heap.now seat.new }
    ensures outside { IsFalse result → RestsOutside heap.now seat.new }
    ensures enters { OnTrue result (Across Enters seat.old seat.new) }
    ensures turns { OnFalse result (Across TurnsBack seat.old seat.new) }
    ensures ran { Across Ran seat.old seat.new }
{
    enter(heap, seat)
}

pub fn goes_out(heap: &Heap, seat: &mut HeapSeat)
    requires { Goes heap.now seat.old }
    ensures seat { RestsOutside heap.now seat.new }
    ensures leaves { Across (Took LeaveStep) seat.old seat.new }
    ensures ran { Across Ran seat.old seat.new }
{
    leave(heap, seat);
}

/// Marks if it can, and leaves. The answer: the phase that it read.
pub fn go_round(heap: &Heap, seat: &mut HeapSeat, tally: &mut u64) -> Phase
    requires { Goes heap.now seat.old }
    ensures seat { RestsOutside heap.now seat.new }
    ensures rounds { Across (Rounds result) seat.old seat.new }
    ensures tally { Across (Tallies tally.old tally.new) seat.old seat.new }
    ensures few { Across (AtMost (marking_steps result heap.now.shape + 2)) seat.old seat.new }
{
    let phase = see_phase(heap, seat);
    mark_in(heap, seat, phase, tally);
    goes_out(heap, seat);
    phase
}

/// How often the tracers were dismissed.
pub fn see_dismissals(heap: &Heap, seat: &mut HeapSeat) -> u64
    requires { RestsOutside heap.now seat.old }
    ensures seat { RestsOutside heap.now seat.new }
    ensures looks { Across (Found (ReadStat done_count) result) seat.old seat.new }
    ensures ran { Across Ran seat.old seat.new }
{
    heap.read_stat(seat, DONE)
}
