//! How a collection in steps begins: the world stops, and the drain begins.
ghost use Rattle.std.specs.Prelude.{◌≡◌, ◌≢◌, [], ◌∷◌, None, Some, ◌≤◌, length, if◌then◌else◌};
ghost use Rattle.std.specs.Bool.{OnFalse, OnTrue};
ghost use Rattle.mark_core.specs.declared.kinds.Phase.TheVariants.{Drain, Full, Idle};
ghost use Rattle.mark_core.specs.declared.kinds.Step.TheVariants.{Reset};
ghost use Rattle.mark_core.specs.Numbers.{block_counter, card_counter};
ghost use Rattle.gc_table.specs.Rule.{KnowsFull};
ghost use Rattle.gc_table.specs.Running.{Ran};
ghost use Rattle.gc_table.specs.Seats.{Across, did, Sits, state_of, view_of};
ghost use Rattle.gc_table.specs.declared.view.View.{View};
ghost use Rattle.gc_cycle.specs.Collecting.{HoldsWorld};
ghost use Rattle.gc_cycle.specs.Courses.{TakesCourse};
ghost use Rattle.gc_cycle.specs.Finishing.{IsAloneIn, IsPart};
ghost use Rattle.gc_cycle.specs.Standing.{IsOut, Mutates};
ghost use Rattle.gc_cycle.specs.Stepping.{AwaitsStop, AsksOnce, FindsRunning, FindsStopped, IsExactSince, IsOwner, Keeps, RunsAgain, IsAtRoots};

use crate::collecting::has_seen_full;
use crate::draining::begin_drain;
use crate::stopping::go_out;
use gc_table::{Heap, HeapSeat};
use mark_core::BLOCK_COUNTER;
use stop_world::{Raised, raise, resume};

/// Leaves the world with the position stored, and asks for a stop. True: the flag is the seat's own now. False:
/// another's was up, and the seat is outside.
pub fn ask_to_stop(heap: &Heap, seat: &mut HeapSeat, done: u32) -> bool
    requires seat { Sits heap.now seat.old × Mutates (view_of seat.old) }
    requires cache { (state_of seat.old).cache ≡ None }
    ensures seat { Sits heap.now seat.new }
    ensures ran { Across Ran seat.old seat.new }
    ensures asks { Across (AsksOnce done result) seat.old seat.new }
    ensures yours { OnTrue result (AwaitsStop (view_of seat.new)) }
    ensures theirs { OnFalse result (IsOut (view_of seat.new)) }
    ensures position { (view_of seat.new).own.position ≡ done }
    ensures few { length (did seat.old seat.new) ≤ 3 }
    ensures keeps { Across Keeps seat.old seat.new }
{
    go_out(heap, seat, done);
    match raise(heap, seat) {
        Raised::Yours => true,
        Raised::Theirs => false,
    }
}

/// Whether the world has stopped, by one look.
pub fn finds_stopped(heap: &Heap, seat: &mut HeapSeat) -> bool
    requires seat { Sits heap.now seat.old }
    requires asks { AwaitsStop (view_of seat.old) }
    ensures seat { Sits heap.now seat.new }
    ensures ran { Across Ran seat.old seat.new }
    ensures stopped { OnTrue result (HoldsWorld (view_of seat.new) × Across FindsStopped seat.old seat.new) }
    ensures not_yet { OnFalse result (AwaitsStop (view_of seat.new) × Across FindsRunning seat.old seat.new) }
    ensures few { length (did seat.old seat.new) ≤ 2 }
    ensures keeps { Across Keeps seat.old seat.new }
{
    heap.observe(seat);
    if !seat.state().knows {
        return false;
    }
    heap.read_phase(seat);
    true
}

pub(crate) fn reset_blocks(heap: &Heap, seat: &mut HeapSeat)
    requires seat { Sits heap.now seat.old }
    requires owner { IsOwner (view_of seat.old) }
    requires alone { IsAloneIn Drain (view_of seat.old) }
    ensures seat { Sits heap.now seat.new }
    ensures part { Across (IsPart Drain) seat.old seat.new }
    ensures course { Across (TakesCourse [] (Reset block_counter ∷ [])) seat.old seat.new }
    ensures roots { IsAtRoots (view_of seat.new) }
    ensures few { length (did seat.old seat.new) ≤ 1 }
{
    heap.reset(seat, BLOCK_COUNTER);
}

/// Begins the drain in a stopped world. False: the heap is full, and the world goes on.
pub fn begin_collection(heap: &Heap, seat: &mut HeapSeat) -> bool
    requires seat { Sits heap.now seat.old }
    requires stopped { HoldsWorld (view_of seat.old) }
    ensures seat { Sits heap.now seat.new }
    ensures ran { Across Ran seat.old seat.new }
    ensures begun { OnTrue result (IsAtRoots (view_of seat.new) × ((state_of seat.old).phase_seen ≢ Some Full)) }
    ensures exact { OnTrue result ((state_of seat.old).phase_seen ≡ Some Idle → (u : View) → Ran u (view_of seat.old) → IsExactSince u (view_of seat.new)) }
    ensures full { OnFalse result (RunsAgain (view_of seat.new) × KnowsFull (view_of seat.new)) }
    ensures course { OnTrue result (Across (TakesCourse (Drain ∷ []) (Reset card_counter ∷ Reset block_counter ∷ [])) seat.old seat.new) }
    ensures over { OnFalse result (Across (TakesCourse [] []) seat.old seat.new) }
    ensures few { length (did seat.old seat.new) ≤ (if result then 3 else 1) }
    ensures keeps { Across Keeps seat.old seat.new }
{
    if has_seen_full(seat) {
        resume(heap, seat);
        return false;
    }
    begin_drain(heap, seat);
    reset_blocks(heap, seat);
    true
}
