//! A tracer inside the world.
ghost use Rattle.std.specs.Prelude.{◌≡◌, ◌≤◌, ◌+◌, Some, length};
ghost use Rattle.mark_core.specs.Seats.{phase_of};
ghost use Rattle.mark_core.specs.declared.kinds.Step.TheVariants.{ReadPhase};
ghost use Rattle.gc_table.specs.Seats.{Across, Answered, did, state_of};
ghost use Rattle.tracer.specs.StepBounds.{recycle_steps};
ghost use Rattle.seat_turns.specs.TracerStanding.{Goes, GoesMarking};
ghost use Rattle.seat_turns.specs.CardPass.{PassesSome, PassesFor, PassesLate};
ghost use Rattle.seat_turns.specs.StepBounds.{cards_steps, late_steps, turn_steps};
ghost use Rattle.seat_turns.specs.Tending.{MarksAndRecycles, MarksSome, TendsCards};

use cache_refills::is_far_on;
use card_clean::clean_next;
use gc_table::{Heap, HeapSeat};
use mark_core::Phase;
use tracer::{Stopped, recycle_deferred, trace};

const OBJECTS: u32 = 64;

const CARDS: u32 = 1_024;

/// Reads the phase, by one step.
pub fn see_phase(heap: &Heap, seat: &mut HeapSeat) -> Phase
    requires { Goes heap.now seat.old }
    ensures seat { Goes heap.now seat.new }
    ensures seen { (state_of seat.new).phase_seen ≡ Some result }
    ensures sees { Across (Answered ReadPhase (λ n. result ≡ phase_of n)) seat.old seat.new }
{
    heap.read_phase(seat)
}

/// A clean card costs one look and no packet.
fn clean_cards(heap: &Heap, seat: &mut HeapSeat)
    requires { GoesMarking heap.now seat.old }
    ensures seat { GoesMarking heap.now seat.new }
    ensures tends { Across (TendsCards 0) seat.old seat.new }
    ensures passes { Across PassesSome seat.old seat.new }
    ensures few { length (did seat.old seat.new) ≤ cards_steps heap.now.shape }
{
    let _ = clean_next(heap, seat, CARDS, None);
}

fn clean_late(heap: &Heap, seat: &mut HeapSeat)
    requires { GoesMarking heap.now seat.old }
    ensures seat { GoesMarking heap.now seat.new }
    ensures tends { Across (TendsCards 0) seat.old seat.new }
    ensures passes { Across PassesLate seat.old seat.new }
    ensures few { length (did seat.old seat.new) ≤ late_steps heap.now.shape }
{
    if is_far_on(heap, seat) {
        clean_cards(heap, seat);
    }
}

#[tactic(auto, using(crate::proofs::Cards::tends_nothing))]
fn clean_after(heap: &Heap, seat: &mut HeapSeat, stopped: Stopped)
    requires { GoesMarking heap.now seat.old }
    ensures seat { GoesMarking heap.now seat.new }
    ensures tends { Across (TendsCards 0) seat.old seat.new }
    ensures passes { Across (PassesFor stopped) seat.old seat.new }
    ensures few { length (did seat.old seat.new) ≤ late_steps heap.now.shape }
{
    if let Stopped::NoWork = stopped {
        clean_late(heap, seat);
    }
}

/// Marks as a turn does, and answers how many objects it traced. The caller tells the collector so, by a step of its
/// own.
///
/// What is deferred stays where it is: it is traced in the stop, or when a mutator that pays finds nothing else.
/// Otherwise an idle tracer would pop the same unpublished cells and defer them again at each of its turns.
pub fn mark_some(heap: &Heap, seat: &mut HeapSeat) -> u32
    requires { GoesMarking heap.now seat.old }
    ensures seat { GoesMarking heap.now seat.new }
    ensures marks { Across (MarksSome result) seat.old seat.new }
    ensures few { length (did seat.old seat.new) ≤ turn_steps heap.now.shape }
{
    let traced = trace(heap, seat, OBJECTS);
    clean_after(heap, seat, traced.stopped);
    traced.done
}

/// Marks as a turn does, and then brings back what was deferred, so that the next turn finds what was published
/// meanwhile.
pub fn mark_and_recycle(heap: &Heap, seat: &mut HeapSeat) -> u32
    requires { GoesMarking heap.now seat.old }
    ensures seat { GoesMarking heap.now seat.new }
    ensures marks { Across (MarksAndRecycles result) seat.old seat.new }
    ensures few { length (did seat.old seat.new) ≤ turn_steps heap.now.shape + recycle_steps heap.now.shape }
{
    let traced = mark_some(heap, seat);
    recycle_deferred(heap, seat);
    traced
}
