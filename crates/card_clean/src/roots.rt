//! Roots are seen to: what each refers to is marked.
ghost use Rattle.std.specs.Prelude.{◌≡◌, ◌<◌, ◌≤◌, ◌+◌, ◌-◌, ◌*◌, [], ◌∷◌, IsTrue, IsFalse, length};
ghost use Rattle.std.specs.List.{range_with_len};
ghost use Rattle.mark_core.specs.Held.{has_free_slot, holds_any};
ghost use Rattle.mark_core.specs.Layout.{root_count};
ghost use Rattle.mark_core.specs.Numbers.{deferred_pool_number, section_variables};
ghost use Rattle.mark_core.specs.Seats.{work_in_hand};
ghost use Rattle.gc_table.specs.Log.{Only};
ghost use Rattle.gc_table.specs.Seats.{Across, did, Sits, state_of, view_of};
ghost use Rattle.packet_pools.specs.Fields.{picked};
ghost use Rattle.packet_pools.specs.OnlyTraced.{OnlyTraced};
ghost use Rattle.packet_pools.specs.Outside.{AreNotedOutside};
ghost use Rattle.packet_pools.specs.Tracing.{IsTracer};
ghost use Rattle.packet_pools.specs.Hands.{HoldsPacket};
ghost use Rattle.packet_pools.specs.Scanning.{Fills};
ghost use Rattle.card_clean.specs.Drained.{IsNotedRoot, IsBeforeSweep, IsRooted, RootsBetween, roots_read, sees_roots, slot_index};
ghost use Rattle.packet_pools.specs.Hands.{free_slots};
ghost use Rattle.card_clean.specs.Leaving.{rescanned_in};
ghost use Rattle.card_clean.specs.Taking.{NoPacket};
ghost use Rattle.packet_pools.specs.StepBounds.{follow_steps, room_left};
ghost use Rattle.packet_pools.specs.Tried.{DirtiesLast, SearchesOn};
ghost use Rattle.card_clean.specs.StepBounds.{see_to_steps};

use crate::taking::take_some;
use gc_table::{Heap, HeapSeat};
use mark_core::{VARIABLES, cell_of};
use packet_pools::{Held, Search, give, mark_cell};

const ROW: u32 = VARIABLES as u32;

fn mark_root(
    heap: &Heap,
    seat: &mut HeapSeat,
    out: &mut Held,
    search: &mut Search,
    section: u32,
    v: u8,
)
    requires seat { IsTracer heap.now seat.old }
    requires out { HoldsPacket out.old (view_of seat.old) × IsTrue (has_free_slot (state_of seat.old).held) }
    requires root { (section < heap.now.shape.sections) × (v < section_variables) }
    requires work { IsFalse (work_in_hand heap.now.shape.fields (state_of seat.old)) }
    ensures seat { IsTracer heap.now seat.new }
    ensures only { Across OnlyTraced seat.old seat.new }
    ensures out { Across (Fills out.old out.new) seat.old seat.new }
    ensures work { IsFalse (work_in_hand heap.now.shape.fields (state_of seat.new)) }
    ensures left { rescanned_in (view_of seat.old) (did seat.old seat.new) ≡ 0 }
    ensures steps { Across (Only sees_roots) seat.old seat.new }
    ensures noted { IsTrue (state_of seat.old).alone → IsNotedRoot (section * section_variables + v) (view_of seat.new) }
    ensures reads { picked (roots_read heap.now.shape) (did seat.old seat.new) ≡ (section * section_variables + v) ∷ [] }
    ensures tried { SearchesOn heap.now.shape search.old search.new out.old out.new (did seat.old seat.new) }
    ensures few { length (did seat.old seat.new) + room_left heap.now.shape search.new out.new.length ≤ room_left heap.now.shape search.old out.old.length + follow_steps heap.now.shape }
{
    let word = heap.read_root(seat, section, v);
    if word != 0 {
        mark_cell(heap, seat, out, search, cell_of(word));
    }
}

fn mark_slot(
    heap: &Heap,
    seat: &mut HeapSeat,
    out: &mut Held,
    search: &mut Search,
    section: u32,
    k: u16,
)
    requires seat { IsTracer heap.now seat.old }
    requires out { HoldsPacket out.old (view_of seat.old) × IsTrue (has_free_slot (state_of seat.old).held) }
    requires root { (section < heap.now.shape.sections) × (k < heap.now.shape.slots) }
    requires work { IsFalse (work_in_hand heap.now.shape.fields (state_of seat.old)) }
    ensures seat { IsTracer heap.now seat.new }
    ensures only { Across OnlyTraced seat.old seat.new }
    ensures out { Across (Fills out.old out.new) seat.old seat.new }
    ensures work { IsFalse (work_in_hand heap.now.shape.fields (state_of seat.new)) }
    ensures left { rescanned_in (view_of seat.old) (did seat.old seat.new) ≡ 0 }
    ensures steps { Across (Only sees_roots) seat.old seat.new }
    ensures noted { IsTrue (state_of seat.old).alone → IsNotedRoot (slot_index heap.now.shape section k) (view_of seat.new) }
    ensures reads { picked (roots_read heap.now.shape) (did seat.old seat.new) ≡ slot_index heap.now.shape section k ∷ [] }
    ensures tried { SearchesOn heap.now.shape search.old search.new out.old out.new (did seat.old seat.new) }
    ensures few { length (did seat.old seat.new) + room_left heap.now.shape search.new out.new.length ≤ room_left heap.now.shape search.old out.old.length + follow_steps heap.now.shape }
{
    let word = heap.load_slot(seat, section, k);
    if word != 0 {
        mark_cell(heap, seat, out, search, cell_of(word));
    }
}

fn mark_one(heap: &Heap, seat: &mut HeapSeat, out: &mut Held, search: &mut Search, i: u32)
    requires seat { IsTracer heap.now seat.old }
    requires out { HoldsPacket out.old (view_of seat.old) × IsTrue (has_free_slot (state_of seat.old).held) }
    requires root { i < root_count heap.now.shape }
    requires work { IsFalse (work_in_hand heap.now.shape.fields (state_of seat.old)) }
    ensures seat { IsTracer heap.now seat.new }
    ensures only { Across OnlyTraced seat.old seat.new }
    ensures out { Across (Fills out.old out.new) seat.old seat.new }
    ensures work { IsFalse (work_in_hand heap.now.shape.fields (state_of seat.new)) }
    ensures left { rescanned_in (view_of seat.old) (did seat.old seat.new) ≡ 0 }
    ensures steps { Across (Only sees_roots) seat.old seat.new }
    ensures noted { IsTrue (state_of seat.old).alone → IsNotedRoot i (view_of seat.new) }
    ensures reads { picked (roots_read heap.now.shape) (did seat.old seat.new) ≡ i ∷ [] }
    ensures tried { SearchesOn heap.now.shape search.old search.new out.old out.new (did seat.old seat.new) }
    ensures few { length (did seat.old seat.new) + room_left heap.now.shape search.new out.new.length ≤ room_left heap.now.shape search.old out.old.length + follow_steps heap.now.shape }
{
    let shape = heap.shape();
    let variables = shape.sections * ROW;
    if i < variables {
        mark_root(heap, seat, out, search, i / ROW, (i % ROW) as u8);
        return;
    }
    let slot = i - variables;
    mark_slot(
        heap,
        seat,
        out,
        search,
        slot / shape.slots,
        (slot % shape.slots) as u16,
    );
}

fn mark_between(
    heap: &Heap,
    seat: &mut HeapSeat,
    out: &mut Held,
    search: &mut Search,
    from: u32,
    end: u32,
)
    requires seat { IsTracer heap.now seat.old }
    requires out { HoldsPacket out.old (view_of seat.old) × IsTrue (has_free_slot (state_of seat.old).held) }
    requires roots { (from ≤ end) × (end ≤ root_count heap.now.shape) }
    requires work { IsFalse (work_in_hand heap.now.shape.fields (state_of seat.old)) }
    ensures seat { IsTracer heap.now seat.new }
    ensures only { Across OnlyTraced seat.old seat.new }
    ensures out { Across (Fills out.old out.new) seat.old seat.new }
    ensures work { IsFalse (work_in_hand heap.now.shape.fields (state_of seat.new)) }
    ensures left { rescanned_in (view_of seat.old) (did seat.old seat.new) ≡ 0 }
    ensures steps { Across (Only sees_roots) seat.old seat.new }
    ensures noted { IsTrue (state_of seat.old).alone → RootsBetween from end (view_of seat.new) }
    ensures reads { picked (roots_read heap.now.shape) (did seat.old seat.new) ≡ range_with_len from (end - from) }
    ensures tried { SearchesOn heap.now.shape search.old search.new out.old out.new (did seat.old seat.new) }
    ensures few { length (did seat.old seat.new) + room_left heap.now.shape search.new out.new.length ≤ room_left heap.now.shape search.old out.old.length + (end - from) * follow_steps heap.now.shape }
{
    for i in from..end {
        mark_one(heap, seat, out, search, i);
    }
}

/// Sees to the roots from this one on and before `end`, as [`see_to_roots`] does to all.
pub fn see_to_some(heap: &Heap, seat: &mut HeapSeat, from: u32, end: u32) -> bool
    requires seat { IsTracer heap.now seat.old }
    requires ready { IsBeforeSweep (view_of seat.old) }
    requires roots { (from ≤ end) × (end ≤ root_count heap.now.shape) }
    requires free { 2 ≤ free_slots (state_of seat.old).held }
    requires work { IsFalse (work_in_hand heap.now.shape.fields (state_of seat.old)) }
    ensures seat { IsTracer heap.now seat.new }
    ensures only { Across OnlyTraced seat.old seat.new }
    ensures held { (state_of seat.new).held ≡ (state_of seat.old).held }
    ensures work { IsFalse (work_in_hand heap.now.shape.fields (state_of seat.new)) }
    ensures left { rescanned_in (view_of seat.old) (did seat.old seat.new) ≡ 0 }
    ensures steps { Across (Only sees_roots) seat.old seat.new }
    ensures none { IsFalse result → (state_of seat.new ≡ state_of seat.old) × NoPacket heap.now.shape (did seat.old seat.new) }
    ensures tried { DirtiesLast heap.now.shape (did seat.old seat.new) }
    ensures pooled { IsFalse (holds_any (state_of seat.old).held) → AreNotedOutside deferred_pool_number (view_of seat.old) → IsTrue result }
    ensures noted { IsTrue result → RootsBetween from end (view_of seat.new) }
    ensures reads { IsTrue result → picked (roots_read heap.now.shape) (did seat.old seat.new) ≡ range_with_len from (end - from) }
    ensures few { length (did seat.old seat.new) ≤ see_to_steps (end - from) heap.now.shape }
{
    let Some(mut out) = take_some(heap, seat) else {
        return false;
    };
    mark_between(heap, seat, &mut out, &mut Search::open(), from, end);
    give(heap, seat, out, false);
    true
}

/// How many roots there are: the variables of all sections, and then the slots of all sections.
pub fn count_roots(heap: &Heap, seat: &HeapSeat) -> u32
    requires { Sits heap.now seat.now }
    ensures { result ≡ root_count heap.now.shape }
{
    let shape = heap.shape();
    shape.sections * ROW + shape.sections * shape.slots
}

/// Sees to all roots, for a seat that is alone in a drain: each root is then nil, or names a cell that the seat knows
/// marked. The seat has no work in hand and holds at most two packets.
///
/// The answer is false only if this call found no packet, with room or with entries; nothing is marked then. It doesn't
/// look for deferred packets. It is true if the seat holds no packet and knows that none is deferred.
pub fn see_to_roots(heap: &Heap, seat: &mut HeapSeat) -> bool
    requires seat { IsTracer heap.now seat.old }
    requires ready { IsBeforeSweep (view_of seat.old) }
    requires free { 2 ≤ free_slots (state_of seat.old).held }
    requires work { IsFalse (work_in_hand heap.now.shape.fields (state_of seat.old)) }
    ensures seat { IsTracer heap.now seat.new }
    ensures only { Across OnlyTraced seat.old seat.new }
    ensures held { (state_of seat.new).held ≡ (state_of seat.old).held }
    ensures work { IsFalse (work_in_hand heap.now.shape.fields (state_of seat.new)) }
    ensures left { rescanned_in (view_of seat.old) (did seat.old seat.new) ≡ 0 }
    ensures steps { Across (Only sees_roots) seat.old seat.new }
    ensures none { IsFalse result → (state_of seat.new ≡ state_of seat.old) × NoPacket heap.now.shape (did seat.old seat.new) }
    ensures tried { DirtiesLast heap.now.shape (did seat.old seat.new) }
    ensures pooled { IsFalse (holds_any (state_of seat.old).held) → AreNotedOutside deferred_pool_number (view_of seat.old) → IsTrue result }
    ensures rooted { IsTrue result → IsRooted (view_of seat.new) }
    ensures few { length (did seat.old seat.new) ≤ see_to_steps (root_count heap.now.shape) heap.now.shape }
{
    let end = count_roots(heap, seat);
    see_to_some(heap, seat, 0, end)
}
