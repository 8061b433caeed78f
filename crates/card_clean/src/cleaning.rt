//! One card is cleaned.
ghost use Rattle.std.specs.Prelude.{◌≡◌, ◌<◌, ◌≤◌, ◌⊎◌, ◌||◌, nat_lt, [], ◌∷◌, if◌then◌else◌, Some, None, IsTrue, IsFalse, ◌+◌, length};
ghost use Rattle.mark_core.specs.Cards.{card_cells};
ghost use Rattle.mark_core.specs.Layout.{card_count};
ghost use Rattle.mark_core.specs.Held.{has_free_slot};
ghost use Rattle.mark_core.specs.Seats.{scan_left, work_in_hand};
ghost use Rattle.mark_core.specs.declared.kinds.Step.TheVariants.{DirtyCard};
ghost use Rattle.gc_table.specs.Seats.{Across, did, state_of, view_of};
ghost use Rattle.packet_pools.specs.OnlyTraced.{OnlyTraced, OnlyCleaned};
ghost use Rattle.gc_table.specs.Log.{events, event};
ghost use Rattle.packet_pools.specs.Tracing.{IsTracer};
ghost use Rattle.packet_pools.specs.Counts.{count_of, dirties};
ghost use Rattle.packet_pools.specs.Hands.{HoldsPacket};
ghost use Rattle.packet_pools.specs.Scanning.{Fills, InHand, owes_redirty};
ghost use Rattle.card_clean.specs.Cleaning.{Cleans, LearnsCells, RescansCard, SpillsWhite};
ghost use Rattle.card_clean.specs.Leaving.{rescanned_in};
ghost use Rattle.card_clean.specs.Rescanning.{OnlyOwes, just_cleared, left_word};
ghost use Rattle.packet_pools.specs.StepBounds.{room_left, room_steps};
ghost use Rattle.packet_pools.specs.Tried.{OverflowsLast, SearchesThrough};
ghost use Rattle.card_clean.specs.StepBounds.{clean_steps, rescan_steps};

use crate::cleaned::Cleaned;
use crate::rescanning::rescan_cells;
use gc_table::{Heap, HeapSeat};
use mark_core::BLOCK_CARDS;
use packet_pools::{Held, Search};

fn what_is_left(seat: &HeapSeat) -> (u64, bool)
    ensures { (result.0 ≡ left_word (state_of seat.now).cleaning) × (result.1 ≡ owes_redirty (state_of seat.now).cleaning) }
{
    match seat.state().cleaning {
        None => (0, false),
        Some(cleaning) => (cleaning.left, cleaning.redirty),
    }
}

fn read_block(heap: &Heap, seat: &mut HeapSeat, card: u32) -> (u64, bool)
    requires seat { IsTracer heap.now seat.old }
    requires card { card < card_count heap.now.shape }
    requires hand { InHand None None (state_of seat.old) }
    requires cleared { (state_of seat.old).cleaning ≡ Some (just_cleared card) }
    ensures seat { IsTracer heap.now seat.new }
    ensures only { Across OnlyTraced seat.old seat.new }
    ensures learns { Across (LearnsCells card result.0 result.1) seat.old seat.new }
    ensures published { IsFalse (state_of seat.old).active → IsFalse result.1 }
    ensures few { length (did seat.old seat.new) ≤ 2 }
{
    heap.read_marks(seat, card / BLOCK_CARDS);
    heap.read_alloc(seat, card / BLOCK_CARDS);
    what_is_left(seat)
}

fn is_dirty_again(owes: bool, overflowed: u32) -> bool
    ensures { result ≡ (owes || nat_lt 0 overflowed) }
{
    owes || overflowed > 0
}

fn redirty(heap: &Heap, seat: &mut HeapSeat, card: u32, redirtied: bool)
    requires seat { IsTracer heap.now seat.old }
    requires card { card < card_count heap.now.shape }
    requires owes { OnlyOwes card heap.now.shape.fields (state_of seat.old) }
    requires told { IsTrue (owes_redirty (state_of seat.old).cleaning) → IsTrue redirtied }
    ensures seat { IsTracer heap.now seat.new }
    ensures only { Across OnlyCleaned seat.old seat.new }
    ensures held { (state_of seat.new).held ≡ (state_of seat.old).held }
    ensures work { IsFalse (work_in_hand heap.now.shape.fields (state_of seat.new)) }
    ensures owed { ((state_of seat.new).owes ≡ (state_of seat.old).owes) ⊎ ((state_of seat.new).owes ≡ None) }
    ensures events { did seat.old seat.new ≡ (if redirtied then event (DirtyCard card) 1 ∷ [] else []) }
    ensures few { length (did seat.old seat.new) ≤ 1 }
{
    if redirtied {
        heap.dirty_card(seat, card);
    }
}

fn rescan_card(
    heap: &Heap,
    seat: &mut HeapSeat,
    card: u32,
    out: &mut Held,
    search: &mut Search,
) -> Cleaned
    requires seat { IsTracer heap.now seat.old }
    requires card { card < card_count heap.now.shape }
    requires out { HoldsPacket out.old (view_of seat.old) × IsTrue (has_free_slot (state_of seat.old).held) }
    requires hand { InHand None None (state_of seat.old) }
    requires over { IsFalse (scan_left heap.now.shape.fields (state_of seat.old).scan) }
    requires cleared { (state_of seat.old).cleaning ≡ Some (just_cleared card) }
    ensures seat { IsTracer heap.now seat.new }
    ensures only { Across OnlyCleaned seat.old seat.new }
    ensures out { Across (Fills out.old out.new) seat.old seat.new }
    ensures work { IsFalse (work_in_hand heap.now.shape.fields (state_of seat.new)) }
    ensures owes { ((state_of seat.new).owes ≡ (state_of seat.old).owes) ⊎ ((state_of seat.new).owes ≡ None) }
    ensures most { result.rescanned ≤ card_cells }
    ensures left { rescanned_in (view_of seat.old) (did seat.old seat.new) ≡ result.rescanned }
    ensures rescans { RescansCard heap.now.shape card result (did seat.old seat.new) }
    ensures clean { IsFalse (state_of seat.old).active → IsTrue result.redirtied → 2 ≤ count_of dirties (did seat.old seat.new) }
    ensures tried { SearchesThrough heap.now.shape search.old search.new out.old out.new (did seat.old seat.new) }
    ensures few { length (did seat.old seat.new) + room_left heap.now.shape search.new out.new.length ≤ room_left heap.now.shape search.old out.old.length + rescan_steps result.rescanned heap.now.shape + 3 }
{
    let (left, owes) = read_block(heap, seat, card);
    let all = rescan_cells(heap, seat, out, search, card, left);
    let redirtied = is_dirty_again(owes, all.overflowed);
    redirty(heap, seat, card, redirtied);
    Cleaned {
        rescanned: all.cells,
        redirtied,
    }
}

/// Cleans a card as [`clean_card`] does, with what the call has tried of the packets so far.
pub(crate) fn clean_card_on(
    heap: &Heap,
    seat: &mut HeapSeat,
    card: u32,
    out: &mut Held,
    search: &mut Search,
) -> Cleaned
    requires seat { IsTracer heap.now seat.old }
    requires card { card < card_count heap.now.shape }
    requires out { HoldsPacket out.old (view_of seat.old) × IsTrue (has_free_slot (state_of seat.old).held) }
    requires work { IsFalse (work_in_hand heap.now.shape.fields (state_of seat.old)) }
    ensures seat { IsTracer heap.now seat.new }
    ensures only { Across OnlyCleaned seat.old seat.new }
    ensures out { Across (Fills out.old out.new) seat.old seat.new }
    ensures work { IsFalse (work_in_hand heap.now.shape.fields (state_of seat.new)) }
    ensures owes { ((state_of seat.new).owes ≡ (state_of seat.old).owes) ⊎ ((state_of seat.new).owes ≡ None) }
    ensures most { result.rescanned ≤ card_cells }
    ensures left { rescanned_in (view_of seat.old) (did seat.old seat.new) ≡ result.rescanned }
    ensures cleans { Cleans heap.now.shape card result (did seat.old seat.new) }
    ensures spills { IsFalse (state_of seat.old).active → SpillsWhite (did seat.old seat.new) }
    ensures clean { IsFalse (state_of seat.old).active → IsTrue result.redirtied → 2 ≤ count_of dirties (did seat.old seat.new) }
    ensures tried { SearchesThrough heap.now.shape search.old search.new out.old out.new (did seat.old seat.new) }
    ensures few { length (did seat.old seat.new) + room_left heap.now.shape search.new out.new.length ≤ room_left heap.now.shape search.old out.old.length + clean_steps result.rescanned heap.now.shape }
{
    if !heap.clear_card(seat, card) {
        return Cleaned::nothing();
    }
    rescan_card(heap, seat, card, out, search)
}

/// Cleans a card: if it is dirty it is cleared, and then its marked published cells are scanned again, into packet
/// `out`. If it has a marked cell that isn't published yet, or a cell found no packet with room, it is dirtied again.
/// While the world is stopped only the latter may be: then the card of that cell is dirtied too.
///
/// The card is cleared first. In the other order a white cell x that is stored in an object c of the card can be lost:
///
/// ```text
/// tracer                          mutator
/// reads the field of c
///                                 stores x in the field of c
///                                 dirties the card of c
/// clears the card of c
/// ```
///
/// Now the card is clean, and no tracer looks at c again. With the clearing first, a mutator that stores after c was
/// read dirties the card after it was cleared, or finds that another has, so it stays dirty.
///
/// The seat may trace, has no work in hand, and holds at most three packets, `out` among them, which may be exchanged
/// as [`scan_cell`](packet_pools::scan_cell) says.
pub fn clean_card(heap: &Heap, seat: &mut HeapSeat, card: u32, out: &mut Held) -> Cleaned
    requires seat { IsTracer heap.now seat.old }
    requires card { card < card_count heap.now.shape }
    requires out { HoldsPacket out.old (view_of seat.old) × IsTrue (has_free_slot (state_of seat.old).held) }
    requires work { IsFalse (work_in_hand heap.now.shape.fields (state_of seat.old)) }
    ensures seat { IsTracer heap.now seat.new }
    ensures only { Across OnlyCleaned seat.old seat.new }
    ensures out { Across (Fills out.old out.new) seat.old seat.new }
    ensures work { IsFalse (work_in_hand heap.now.shape.fields (state_of seat.new)) }
    ensures owes { ((state_of seat.new).owes ≡ (state_of seat.old).owes) ⊎ ((state_of seat.new).owes ≡ None) }
    ensures most { result.rescanned ≤ card_cells }
    ensures left { rescanned_in (view_of seat.old) (did seat.old seat.new) ≡ result.rescanned }
    ensures cleans { Cleans heap.now.shape card result (did seat.old seat.new) }
    ensures spills { IsFalse (state_of seat.old).active → SpillsWhite (did seat.old seat.new) }
    ensures clean { IsFalse (state_of seat.old).active → IsTrue result.redirtied → 2 ≤ count_of dirties (did seat.old seat.new) }
    ensures tried { OverflowsLast heap.now.shape (did seat.old seat.new) }
    ensures few { length (did seat.old seat.new) ≤ clean_steps result.rescanned heap.now.shape + room_steps heap.now.shape }
{
    clean_card_on(heap, seat, card, out, &mut Search::open())
}
