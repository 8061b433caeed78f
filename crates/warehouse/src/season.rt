//! The season moves on between two turns.
ghost use Rattle.std.specs.Prelude.{◌≡◌, IsTrue, IsFalse};
ghost use Rattle.mark_core.specs.Seats.{phase_number};
ghost use Rattle.mark_core.specs.Rules.WorldRules.{is_resting};
ghost use Rattle.mark_core.specs.declared.kinds.Phase.{Phase};
ghost use Rattle.gc_table.specs.Running.{Alone};
ghost use Rattle.mark_core.specs.Steps.WorldSteps.{has_nothing};
ghost use Rattle.gc_table.specs.Seats.{Across, Sits, state_of, view_of};
ghost use Rattle.stop_world.specs.Waiting.{HasStopped};
ghost use Rattle.gc_cycle.specs.Standing.{IsAlone, IsOut};
ghost use Rattle.warehouse.specs.Ending.{PlaySettles};
ghost use Rattle.warehouse.specs.Pacing.{EndsCyclesAlone};
ghost use Rattle.warehouse.specs.Turns.{AloneAt, LeavesNoCycle, EndsTurn, KeepsPart, LeavesStop, MayTurnSeason, StopsAt, TurnEnds};

use gc_cycle::{await_resumed_helping, finish_cycle, precise};
use gc_table::{Heap, HeapSeat};
use mark_core::Phase as CyclePhase;
use play_end::Played;
use std::sync::Wait;
use stop_world::{Raised, await_stopped, leave, raise, resume};

/// If another seat's stop comes first, the seat helps until that has ended, and tries again.
fn stop_at_last<R: Wait>(rt: &R, heap: &Heap, seat: &mut HeapSeat)
    requires seat { Sits heap.now seat.old × IsOut (view_of seat.old) }
    ensures seat { Sits heap.now seat.new }
    ensures stops { Across StopsAt seat.old seat.new }
    ensures paces { Across EndsCyclesAlone seat.old seat.new }
{
    for _ in rt.forever() {
        match raise(heap, seat) {
            Raised::Yours => {
                await_stopped(rt, heap, seat);
                return;
            }
            Raised::Theirs => await_resumed_helping(rt, heap, seat),
        }
    }
    unreachable!()
}

/// Answers whether the heap is full.
fn end_cycle<R: Wait>(rt: &R, heap: &Heap, seat: &mut HeapSeat) -> bool
    requires seat { Sits heap.now seat.old }
    requires stopped { HasStopped (view_of seat.old) }
    requires rest { IsTrue (has_nothing (view_of seat.old).shape (state_of seat.old)) }
    ensures seat { Sits heap.now seat.new }
    ensures ends { Across (LeavesNoCycle result) seat.old seat.new }
    ensures alone { AloneAt result (view_of seat.new) }
    ensures paces { Across EndsCyclesAlone seat.old seat.new }
{
    match heap.read_phase(seat) {
        CyclePhase::Full => true,
        CyclePhase::Marking => {
            finish_cycle(rt, heap, seat);
            false
        }
        _ => false,
    }
}

fn leave_stop(heap: &Heap, seat: &mut HeapSeat)
    requires seat { Sits heap.now seat.old }
    requires rest { IsAlone (view_of seat.old) }
    requires unhelping { IsFalse (state_of seat.old).helping }
    requires alone { (p : Phase) × IsTrue (is_resting (phase_number p)) × Alone p (view_of seat.old) }
    ensures seat { Sits heap.now seat.new × IsOut (view_of seat.new) }
    ensures leaves { Across LeavesStop seat.old seat.new }
    ensures paces { Across EndsCyclesAlone seat.old seat.new }
{
    resume(heap, seat);
    leave(heap, seat);
}

fn end_turn<R: Wait>(rt: &R, heap: &Heap, seat: &mut HeapSeat) -> Played
    requires seat { Sits heap.now seat.old × IsOut (view_of seat.old) }
    requires turn { MayTurnSeason (view_of seat.old) }
    ensures seat { Sits heap.now seat.new }
    ensures ends { Across (EndsTurn result) seat.old seat.new }
    ensures paces { Across EndsCyclesAlone seat.old seat.new }
{
    stop_at_last(rt, heap, seat);
    if end_cycle(rt, heap, seat) {
        return Played::Full;
    }
    heap.next_season(seat);
    Played::Done
}

/// Moves the season on, in a stop in which no cycle is under way any more. Full if the heap was found full in it: then
/// the season stays.
pub fn turn_season<R: Wait>(rt: &R, heap: &Heap, seat: &mut HeapSeat) -> Played
    requires seat { Sits heap.now seat.old × IsOut (view_of seat.old) }
    requires turn { MayTurnSeason (view_of seat.old) }
    ensures seat { Sits heap.now seat.new × IsOut (view_of seat.new) }
    ensures keeps { Across KeepsPart seat.old seat.new }
    ensures ends { Across (TurnEnds result) seat.old seat.new }
    ensures paces { Across EndsCyclesAlone seat.old seat.new }
{
    let played = end_turn(rt, heap, seat);
    leave_stop(heap, seat);
    played
}

/// Ends the last turn: as [`turn_season`], with a precise collection in the same stop, after which the cells in use are
/// the reachable ones.
pub fn end_play<R: Wait>(rt: &R, heap: &Heap, seat: &mut HeapSeat) -> Played
    requires seat { Sits heap.now seat.old × IsOut (view_of seat.old) }
    requires turn { MayTurnSeason (view_of seat.old) }
    ensures seat { Sits heap.now seat.new × IsOut (view_of seat.new) }
    ensures keeps { Across KeepsPart seat.old seat.new }
    ensures ends { Across (TurnEnds result) seat.old seat.new }
    ensures settles { Across (PlaySettles result) seat.old seat.new }
    ensures paces { Across EndsCyclesAlone seat.old seat.new }
{
    match end_turn(rt, heap, seat) {
        Played::Full => {
            leave_stop(heap, seat);
            Played::Full
        }
        Played::Done => {
            precise(rt, heap, seat);
            leave_stop(heap, seat);
            Played::Done
        }
    }
}
