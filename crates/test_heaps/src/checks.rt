//! What a seat's record says.
ghost use Rattle.std.specs.Prelude.{◌≡◌, ◌&&◌};
ghost use Rattle.std.specs.Bool.{OnTrue};
ghost use Rattle.mark_core.specs.Seats.{empty_handed as empty_handed_of, free_in, has_making as has_making_of, is_bare as is_bare_seat, may_mutate as may_mutate_of, saw, work_in_hand as work_in_hand_of};
ghost use Rattle.mark_core.specs.declared.kinds.Phase.TheVariants.{Marking};
ghost use Rattle.gc_table.specs.PlainSteps.{HasSeenPhase};
ghost use Rattle.gc_table.specs.Seats.{Sits, state_of, view_of};
ghost use Rattle.packet_pools.specs.Tracing.{Traces};
ghost use Rattle.tracer.specs.Hands.{IsIdle, no_packets};
ghost use Rattle.stop_world.specs.Gates.{IsFreeToLeave};
ghost use Rattle.mutator_ops.specs.Ready.{IsReady};
ghost use Rattle.test_heaps.specs.Seats.{Bare, HasEachObject};

use gc_table::{Heap, HeapSeat};
use mark_core::{BLOCK_CELLS, Cell, Phase, has_bit};

type Slots = [Option<(u32, Option<u32>, bool)>; 4];

/// Whether the seat is outside the world, its stop and its help.
pub fn is_bare(seat: &HeapSeat) -> bool
    ensures { result ≡ is_bare_seat (state_of seat.now) }
{
    seat.state().is_bare()
}

/// Whether the seat has neither a packet, nor a reservation, nor a credit.
pub fn empty_handed(seat: &HeapSeat) -> bool
    ensures { result ≡ empty_handed_of (state_of seat.now) }
{
    seat.state().empty_handed()
}

/// Whether the seat has a grey cell, or something that may lead to one.
pub fn work_in_hand(fields: u32, seat: &HeapSeat) -> bool
    ensures { result ≡ work_in_hand_of fields (state_of seat.now) }
{
    seat.state().work_in_hand(fields)
}

/// Whether a cell is half made.
pub fn has_making(seat: &HeapSeat) -> bool
    ensures { result ≡ has_making_of (state_of seat.now).cache }
{
    seat.state().has_making()
}

/// Whether the seat's block has this cell free.
pub fn has_free(seat: &HeapSeat, c: Cell) -> bool
    ensures { result ≡ free_in (state_of seat.now).cache c }
{
    match seat.state().cache {
        None => false,
        Some(x) => x.block == c.number() / BLOCK_CELLS && has_bit(x.free, c.number() % BLOCK_CELLS),
    }
}

/// The seat is active in its section's turn.
pub fn may_mutate(seat: &HeapSeat) -> bool
    ensures { result ≡ may_mutate_of (state_of seat.now) }
{
    seat.state().may_mutate()
}

/// Whether the seat has read the phase, in which it may store.
pub fn has_seen_phase(seat: &HeapSeat) -> bool
    ensures { OnTrue result (HasSeenPhase (state_of seat.now)) }
{
    match seat.state().phase_seen {
        Some(Phase::Idle) => true,
        Some(Phase::Marking) => true,
        _ => false,
    }
}

/// Whether the seat is active, and has read that marking is under way.
pub fn is_marking(seat: &HeapSeat) -> bool
    ensures { result ≡ ((state_of seat.now).active && saw (state_of seat.now).phase_seen Marking) }
{
    seat.state().is_marking()
}

/// Whether the slots hold no packet.
pub fn are_bare(held: Slots) -> bool
    ensures { OnTrue result (held ≡ no_packets) }
{
    let [a, b, c, d] = held;
    a.is_none() && b.is_none() && c.is_none() && d.is_none()
}

/// Whether the seat holds no packet, and has nothing to trace or to clean.
pub fn holds_nothing(seat: &HeapSeat) -> bool
    ensures { OnTrue result (Bare (state_of seat.now)) }
{
    let s = seat.state();
    are_bare(s.held)
        && (!s.reserved && !s.credit)
        && (s.popped.is_none() && s.scan.is_none() && s.value.is_none())
        && (s.fresh.is_none() && s.cleaning.is_none())
}

/// Whether the seat marks as a mutator, and is between two calls.
pub fn marks_as_mutator(heap: &Heap, seat: &HeapSeat) -> bool
    requires { Sits heap.now seat.now }
    ensures { OnTrue result (Traces (view_of seat.now) × IsIdle (view_of seat.now)) }
{
    let s = seat.state();
    is_marking(seat)
        && (!s.reserved && !s.credit)
        && are_bare(s.held)
        && !work_in_hand(heap.shape().fields, seat)
        && s.block.is_none()
}

/// Whether the seat has nothing that it must give back before it leaves the world.
pub fn is_free(heap: &Heap, seat: &HeapSeat) -> bool
    requires { Sits heap.now seat.now }
    ensures { OnTrue result (IsFreeToLeave (view_of seat.now)) }
{
    let s = seat.state();
    empty_handed(seat)
        && !work_in_hand(heap.shape().fields, seat)
        && s.owes.is_none()
        && s.cache.is_none()
        && s.got == 0
        && s.lags == 0
}

/// Whether the seat may store in its section's turn, in a heap whose objects aren't shared.
pub fn is_ready(heap: &Heap, seat: &HeapSeat) -> bool
    requires { HasEachObject heap.now seat.now }
    ensures { OnTrue result (IsReady (view_of seat.now)) }
{
    let s = seat.state();
    let shape = heap.shape();
    !shape.sharing
        && (may_mutate(seat) && has_seen_phase(seat) && s.owes.is_none())
        && !work_in_hand(shape.fields, seat)
        && !has_making(seat)
        && s.got == 0
}
