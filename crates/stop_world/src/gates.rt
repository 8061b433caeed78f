//! The gate of the running world.
ghost use Rattle.std.specs.Prelude.{◌≡◌, if◌then◌else◌, IsTrue, IsFalse};
ghost use Rattle.std.specs.Bool.{OnTrue, OnFalse};
ghost use Rattle.mark_core.specs.Bits.{has_flag};
ghost use Rattle.mark_core.specs.Seats.{is_bare, phase_number};
ghost use Rattle.mark_core.specs.Rules.WorldRules.{is_resting};
ghost use Rattle.mark_core.specs.declared.kinds.Phase.{Phase};
ghost use Rattle.gc_table.specs.Seats.{Across, Answered, Sits, state_of, Took, view_of};
ghost use Rattle.gc_table.specs.Running.{Alone, Ran};
ghost use Rattle.gc_table.specs.Stopping.{has_moved};
ghost use Rattle.stop_world.specs.Gates.{Enters, IsDone, IsFreeToLeave, TurnsBack};

use gc_table::{Heap, HeapSeat};
use mark_core::{Step, has_flag as flag_of};

/// Whose flag it is that stops the world.
#[derive(Clone, Copy)]
pub enum Raised {
    /// The seat's own.
    Yours,
    /// Another seat's, which was up before.
    Theirs,
}

/// Enters the running world: true if the seat is now active. If a stop is under way it has left again.
pub fn enter(heap: &Heap, seat: &mut HeapSeat) -> bool
    requires seat { Sits heap.now seat.old }
    requires bare { IsTrue (is_bare (state_of seat.old)) }
    ensures seat { Sits heap.now seat.new }
    ensures ran { Across Ran seat.old seat.new }
    ensures enters { OnTrue result (Across Enters seat.old seat.new) }
    ensures turns { OnFalse result (Across TurnsBack seat.old seat.new) }
{
    if heap.enter_step(seat) {
        return true;
    }
    heap.leave_step(seat);
    false
}

/// Leaves the running world, with no packet and no cache in hand.
pub fn leave(heap: &Heap, seat: &mut HeapSeat)
    requires seat { Sits heap.now seat.old }
    requires active { IsTrue (state_of seat.old).active }
    requires free { IsFreeToLeave (view_of seat.old) }
    ensures seat { Sits heap.now seat.new }
    ensures ran { Across Ran seat.old seat.new }
    ensures step { Across (Took Step.LeaveStep) seat.old seat.new }
{
    heap.leave_step(seat);
}

/// Whether a stop is under way. Any seat may ask.
pub fn poll(heap: &Heap, seat: &mut HeapSeat) -> bool
    requires seat { Sits heap.now seat.old }
    ensures seat { Sits heap.now seat.new }
    ensures ran { Across Ran seat.old seat.new }
    ensures step { Across (Answered Step.Observe (λ n. result ≡ has_flag n)) seat.old seat.new }
    ensures state { IsFalse (state_of seat.old).raised → state_of seat.new ≡ state_of seat.old }
{
    flag_of(heap.observe(seat))
}

/// Raises the flag that stops the world. The seat is outside the world and its help.
pub fn raise(heap: &Heap, seat: &mut HeapSeat) -> Raised
    requires seat { Sits heap.now seat.old }
    requires bare { IsTrue (is_bare (state_of seat.old)) }
    ensures seat { Sits heap.now seat.new }
    ensures ran { Across Ran seat.old seat.new }
    ensures step { Across (Answered Step.RaiseStep (λ n. result ≡ (if has_flag n then Raised.Theirs else Raised.Yours))) seat.old seat.new }
    ensures unmoved { IsFalse (has_moved (view_of seat.new).log) }
{
    if heap.raise_step(seat) {
        Raised::Yours
    } else {
        Raised::Theirs
    }
}

/// Lets the world go on. The seat is active in the same step.
pub fn resume(heap: &Heap, seat: &mut HeapSeat)
    requires seat { Sits heap.now seat.old }
    requires alone { (p : Phase) × IsTrue (is_resting (phase_number p)) × Alone p (view_of seat.old) }
    requires done { IsDone (view_of seat.old) }
    ensures seat { Sits heap.now seat.new }
    ensures ran { Across Ran seat.old seat.new }
    ensures step { Across (Took Step.DropStep) seat.old seat.new }
{
    heap.drop_step(seat);
}
