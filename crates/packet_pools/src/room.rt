//! A full packet is changed for one with room.
ghost use Rattle.std.specs.Prelude.{ℕ, ◌≡◌, ◌<◌, ◌≤◌, ◌+◌, ◌≢◌, [], ◌∷◌, length, IsTrue, IsFalse, IfSome, IfNone};
ghost use Rattle.mark_core.specs.Held.{drop_packet, has_free_slot};
ghost use Rattle.mark_core.specs.Numbers.{high_pool_number};
ghost use Rattle.gc_table.specs.Seats.{Across, did, state_of, view_of};
ghost use Rattle.packet_pools.specs.OnlyTraced.{OnlyTraced};
ghost use Rattle.packet_pools.specs.Tracing.{IsTracer};
ghost use Rattle.packet_pools.specs.Hands.{HoldsPacket};
ghost use Rattle.packet_pools.specs.Gains.{Brings, GainsFirst};
ghost use Rattle.packet_pools.specs.Scanning.{Fills};
ghost use Rattle.packet_pools.specs.Seeking.{only_moves, output_pools, was_got};
ghost use Rattle.packet_pools.specs.StepBounds.{give_steps, left_steps, room_left};
ghost use Rattle.packet_pools.specs.Tried.{Leads, LeadsFull, StaysFull};

use crate::giving::give;
use crate::held::Held;
use crate::search::Search;
use crate::seeking::take_high_from;
use crate::taking::take_spare;
use gc_table::{Heap, HeapSeat};
use std::mem;

fn change(heap: &Heap, seat: &mut HeapSeat, out: &mut Held, other: Held)
    requires seat { IsTracer heap.now seat.old }
    requires out { HoldsPacket out.old (view_of seat.old) }
    requires other { HoldsPacket other (view_of seat.old) × (other.packet ≢ out.old.packet) }
    ensures seat { IsTracer heap.now seat.new }
    ensures only { Across OnlyTraced seat.old seat.new }
    ensures out { out.new ≡ other }
    ensures state { state_of seat.new ≡ record (state_of seat.old) { held = drop_packet (state_of seat.old).held out.old.packet } }
    ensures moves { IsTrue (only_moves output_pools (did seat.old seat.new)) }
    ensures ungot { (p : ℕ) → IsFalse (was_got p (did seat.old seat.new)) }
    ensures few { length (did seat.old seat.new) ≤ give_steps }
{
    let full = mem::replace(out, other);
    give(heap, seat, full, false);
}

fn take_on(heap: &Heap, seat: &mut HeapSeat, search: &mut Search, from: u32) -> Option<Held>
    requires seat { IsTracer heap.now seat.old }
    requires free { IsTrue (has_free_slot (state_of seat.old).held) }
    ensures seat { IsTracer heap.now seat.new }
    ensures only { Across OnlyTraced seat.old seat.new }
    ensures some { IfSome result (λ h. Across (GainsFirst heap.now.shape high_pool_number from h) seat.old seat.new × Across (Brings h) seat.old seat.new × (search.new ≡ Search.Tried (h.packet + 1)) × LeadsFull heap.now.shape (Search.Tried from) search.new h (did seat.old seat.new)) }
    ensures none { IfNone result ((state_of seat.new ≡ state_of seat.old) × (search.new ≡ Search.Tried heap.now.shape.packets) × StaysFull heap.now.shape (Search.Tried from) search.new (did seat.old seat.new)) }
    ensures moves { IsTrue (only_moves output_pools (did seat.old seat.new)) }
    ensures few { IfSome result (λ h. length (did seat.old seat.new) + 2 + left_steps heap.now.shape search.new ≤ left_steps heap.now.shape (Search.Tried from)) × IfNone result (length (did seat.old seat.new) + left_steps heap.now.shape search.new ≤ left_steps heap.now.shape (Search.Tried from)) }
{
    match take_high_from(heap, seat, from) {
        Some(held) => {
            *search = Search::Tried(held.packet + 1);
            Some(held)
        }
        None => {
            *search = Search::Tried(heap.shape().packets);
            None
        }
    }
}

/// Takes a packet with room. In a call it first looks where [`take_output`](crate::take_output) does, and later only
/// where it hasn't yet.
///
/// The seat may trace, and holds at most three packets.
pub fn take_other(heap: &Heap, seat: &mut HeapSeat, search: &mut Search) -> Option<Held>
    requires seat { IsTracer heap.now seat.old }
    requires free { IsTrue (has_free_slot (state_of seat.old).held) }
    ensures seat { IsTracer heap.now seat.new }
    ensures only { Across OnlyTraced seat.old seat.new }
    ensures some { IfSome result (λ h. Across (Brings h) seat.old seat.new × (h.length < heap.now.shape.entries) × LeadsFull heap.now.shape search.old search.new h (did seat.old seat.new)) }
    ensures none { IfNone result ((state_of seat.new ≡ state_of seat.old) × (search.new ≡ Search.Tried heap.now.shape.packets) × StaysFull heap.now.shape search.old search.new (did seat.old seat.new)) }
    ensures moves { IsTrue (only_moves output_pools (did seat.old seat.new)) }
    ensures few { IfSome result (λ h. length (did seat.old seat.new) + give_steps + room_left heap.now.shape search.new h.length ≤ room_left heap.now.shape search.old heap.now.shape.entries) × IfNone result (length (did seat.old seat.new) + left_steps heap.now.shape search.new ≤ left_steps heap.now.shape search.old) }
{
    match *search {
        Search::Tried(from) => take_on(heap, seat, search, from),
        Search::Open => match take_spare(heap, seat) {
            Some(held) => Some(held),
            None => take_on(heap, seat, search, 0),
        },
    }
}

#[inline(never)]
fn change_full(heap: &Heap, seat: &mut HeapSeat, out: &mut Held, search: &mut Search)
    requires seat { IsTracer heap.now seat.old }
    requires out { HoldsPacket out.old (view_of seat.old) × IsTrue (has_free_slot (state_of seat.old).held) × (out.old.length ≡ heap.now.shape.entries) }
    ensures seat { IsTracer heap.now seat.new }
    ensures only { Across OnlyTraced seat.old seat.new }
    ensures out { Across (Fills out.old out.new) seat.old seat.new }
    ensures state { state_of seat.new ≡ record (state_of seat.old) { held = (state_of seat.new).held } }
    ensures moves { IsTrue (only_moves output_pools (did seat.old seat.new)) }
    ensures leads { Leads heap.now.shape search.old search.new out.old out.new (did seat.old seat.new) }
    ensures full { out.new.length ≡ heap.now.shape.entries → search.new ≡ Search.Tried heap.now.shape.packets }
    ensures few { length (did seat.old seat.new) + room_left heap.now.shape search.new out.new.length ≤ room_left heap.now.shape search.old out.old.length }
{
    if let Some(other) = take_other(heap, seat, search) {
        change(heap, seat, out, other);
    }
}

/// Leaves `out` full only if the call has tried all packets.
#[inline(always)]
pub(crate) fn make_room(heap: &Heap, seat: &mut HeapSeat, out: &mut Held, search: &mut Search)
    requires seat { IsTracer heap.now seat.old }
    requires out { HoldsPacket out.old (view_of seat.old) × IsTrue (has_free_slot (state_of seat.old).held) }
    ensures seat { IsTracer heap.now seat.new }
    ensures only { Across OnlyTraced seat.old seat.new }
    ensures out { Across (Fills out.old out.new) seat.old seat.new }
    ensures state { state_of seat.new ≡ record (state_of seat.old) { held = (state_of seat.new).held } }
    ensures moves { IsTrue (only_moves output_pools (did seat.old seat.new)) }
    ensures leads { Leads heap.now.shape search.old search.new out.old out.new (did seat.old seat.new) }
    ensures full { out.new.length ≡ heap.now.shape.entries → search.new ≡ Search.Tried heap.now.shape.packets }
    ensures few { length (did seat.old seat.new) + room_left heap.now.shape search.new out.new.length ≤ room_left heap.now.shape search.old out.old.length }
{
    if out.length == heap.shape().entries {
        change_full(heap, seat, out, search);
    }
}
