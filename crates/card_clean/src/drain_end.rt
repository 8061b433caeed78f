//! The end of a drain, as a seat sees it that is alone.
//!
//! What such a seat reads stays until it changes it. So once each root is nil, or names a marked cell, it is enough to
//! look at every card, and at the count of empty packets, with no step between that dirties a card or takes a packet.
ghost use Rattle.std.specs.Prelude.{◌≡◌, IsTrue, IsFalse, ◌≤◌, ◌+◌, length};
ghost use Rattle.mark_core.specs.Seats.{work_in_hand};
ghost use Rattle.gc_table.specs.Seats.{Across, did, Sits, state_of, view_of};
ghost use Rattle.packet_pools.specs.OnlyTraced.{OnlyTraced};
ghost use Rattle.card_clean.specs.Drained.{FindsNoDirtyCard, FindsWork, IsDrained, IsRooted, IsSettled};
ghost use Rattle.card_clean.specs.Leaving.{rescanned_in};
ghost use Rattle.mark_core.specs.Layout.{card_count};

use crate::dirty_cards::first_dirty;
use gc_table::{Heap, HeapSeat};
use packet_pools::all_empty;

/// For a seat that is alone and has seen to all roots: true only if no card is dirty and no packet has an entry. It is
/// true if the seat knows already that each card is clean, and that each packet is in the pool of empty ones.
pub fn is_drained(heap: &Heap, seat: &mut HeapSeat) -> bool
    requires seat { Sits heap.now seat.old }
    requires rooted { IsRooted (view_of seat.old) }
    requires work { IsFalse (work_in_hand heap.now.shape.fields (state_of seat.old)) }
    ensures seat { Sits heap.now seat.new }
    ensures only { Across OnlyTraced seat.old seat.new }
    ensures state { state_of seat.new ≡ state_of seat.old }
    ensures rooted { IsRooted (view_of seat.new) }
    ensures drained { IsTrue result → IsDrained (view_of seat.new) }
    ensures over { IsTrue result → FindsNoDirtyCard heap.now.shape (did seat.old seat.new) }
    ensures settled { IsSettled (view_of seat.old) → IsTrue result }
    ensures undrained { IsFalse result → FindsWork heap.now.shape (did seat.old seat.new) }
    ensures left { rescanned_in (view_of seat.old) (did seat.old seat.new) ≡ 0 }
    ensures few { length (did seat.old seat.new) ≤ card_count heap.now.shape + 1 }
{
    match first_dirty(heap, seat, 0) {
        Some(_) => false,
        None => all_empty(heap, seat),
    }
}
