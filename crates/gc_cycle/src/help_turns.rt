//! A helper that doesn't wait: each turn is one call.
ghost use Rattle.std.specs.Prelude.{◌≡◌, ◌≤◌, length, Some, IsTrue, IfSome, IfNone};
ghost use Rattle.mark_core.specs.declared.kinds.Phase.TheVariants.{Drain, Sweep};
ghost use Rattle.gc_table.specs.Log.{Only};
ghost use Rattle.gc_table.specs.Seats.{Across, did, Sits, state_of, view_of};
ghost use Rattle.stop_world.specs.Gates.{Declines};
ghost use Rattle.gc_cycle.specs.Events.{never};
ghost use Rattle.gc_cycle.specs.HelpTurns.{HelpsAtMost, StaysAHelper, SweepsAtMost, TakesShortTurn, TracesAtMost, turn_steps, work_steps};
ghost use Rattle.gc_cycle.specs.Mutating.{GoesOut};
ghost use Rattle.gc_cycle.specs.Sorts.{leaves};
ghost use Rattle.gc_cycle.specs.Standing.{IsAdmitted, IsOut};
ghost use Rattle.gc_cycle.specs.Statistics.{leaves_numbers};

use crate::sweep_steps::sweep_some;
use crate::tracing::trace;
use gc_table::{Heap, HeapSeat};
use mark_core::Phase;
use stop_world::{join_help, leave_help};

fn trace_helping(heap: &Heap, seat: &mut HeapSeat, objects: u32) -> u32
    requires seat { Sits heap.now seat.old × IsAdmitted (view_of seat.old) }
    requires drain { (state_of seat.old).phase_seen ≡ Some Drain }
    ensures seat { Sits heap.now seat.new × IsAdmitted (view_of seat.new) }
    ensures stays { Across StaysAHelper seat.old seat.new }
    ensures traces { Across (TracesAtMost objects result) seat.old seat.new }
{
    trace(heap, seat, objects).done
}

fn sweep_helping(heap: &Heap, seat: &mut HeapSeat, stretches: u32) -> u32
    requires seat { Sits heap.now seat.old × IsAdmitted (view_of seat.old) }
    requires sweep { (state_of seat.old).phase_seen ≡ Some Sweep }
    ensures seat { Sits heap.now seat.new × IsAdmitted (view_of seat.new) }
    ensures stays { Across StaysAHelper seat.old seat.new }
    ensures sweeps { Across (SweepsAtMost stretches result) seat.old seat.new }
{
    sweep_some(heap, seat, stretches).stretches
}

fn help_some(heap: &Heap, seat: &mut HeapSeat, objects: u32, stretches: u32) -> u32
    requires seat { Sits heap.now seat.old × IsAdmitted (view_of seat.old) }
    ensures seat { Sits heap.now seat.new × IsAdmitted (view_of seat.new) }
    ensures stays { Across StaysAHelper seat.old seat.new }
    ensures helps { Across (HelpsAtMost objects stretches result) seat.old seat.new }
    ensures few { length (did seat.old seat.new) ≤ work_steps objects stretches heap.now.shape }
{
    match seat.state().phase_seen {
        Some(Phase::Drain) => trace_helping(heap, seat, objects),
        Some(Phase::Sweep) => sweep_helping(heap, seat, stretches),
        _ => 0,
    }
}

/// Helps the stop of another, if it is open: traces at most `objects` objects in a drain, or sweeps at most `stretches`
/// stretches of blocks in a sweep, and has left again. The answer: how many. None: help is closed.
pub fn help_turn(heap: &Heap, seat: &mut HeapSeat, objects: u32, stretches: u32) -> Option<u32>
    requires seat { Sits heap.now seat.old × IsOut (view_of seat.old) }
    ensures seat { Sits heap.now seat.new × IsOut (view_of seat.new) }
    ensures out { Across GoesOut seat.old seat.new }
    ensures own { (view_of seat.new).own ≡ (view_of seat.old).own }
    ensures numbers { Across (Only leaves_numbers) seat.old seat.new }
    ensures inside { IsTrue (never leaves (did seat.old seat.new)) }
    ensures helped { IfSome result (λ done. Across (TakesShortTurn objects stretches done) seat.old seat.new) }
    ensures closed { IfNone result (Across Declines seat.old seat.new) }
    ensures few { length (did seat.old seat.new) ≤ turn_steps objects stretches heap.now.shape }
{
    if !join_help(heap, seat) {
        return None;
    }
    let done = help_some(heap, seat, objects, stretches);
    leave_help(heap, seat);
    Some(done)
}
