//! Looks at cards, and passes over them that clean the dirty ones.
//!
//! A public call that cleans takes a packet for it. The seat may trace, has no work in hand, and holds at most two
//! packets. A card may be dirty again afterwards, as [`clean_card`](crate::clean_card) says.
ghost use Rattle.std.specs.Prelude.{◌≡◌, ◌≢◌, ◌<◌, ◌≤◌, ◌-◌, ◌*◌, Some, IsTrue, IsFalse, IfSome, IfNone, length, min, ◌+◌};
ghost use Rattle.mark_core.specs.Cards.{card_cells};
ghost use Rattle.mark_core.specs.Layout.{card_count};
ghost use Rattle.mark_core.specs.Held.{has_free_slot, holds_any};
ghost use Rattle.mark_core.specs.Numbers.{deferred_pool_number};
ghost use Rattle.mark_core.specs.Places.{card_at};
ghost use Rattle.mark_core.specs.Seats.{work_in_hand};
ghost use Rattle.gc_table.specs.Seats.{Across, did, Sits, state_of, view_of};
ghost use Rattle.gc_table.specs.Notes.{look};
ghost use Rattle.packet_pools.specs.OnlyTraced.{OnlyTraced, OnlyCleaned};
ghost use Rattle.packet_pools.specs.Outside.{AreNotedOutside};
ghost use Rattle.packet_pools.specs.Tracing.{IsTracer};
ghost use Rattle.packet_pools.specs.Hands.{HoldsPacket};
ghost use Rattle.packet_pools.specs.Counts.{count_of};
ghost use Rattle.packet_pools.specs.Scanning.{Fills};
ghost use Rattle.card_clean.specs.Cleaning.{SpillsWhite, clears};
ghost use Rattle.card_clean.specs.Leaving.{rescanned_in};
ghost use Rattle.card_clean.specs.NextCards.{LooksAtCard};
ghost use Rattle.card_clean.specs.DirtyCards.{CleanedFrom, CleanedWhereDirty, CleansAllDirty, CleansDirty, CleansRound, CleansStretch, stretch_cards, stretch_count};
ghost use Rattle.card_clean.specs.Drained.{AreNotedClean};
ghost use Rattle.card_clean.specs.Looking.{KeepsAllNotes, looks_clean, looks_dirty};
ghost use Rattle.card_clean.specs.Taking.{CleansWithPacket, NoPacket};
ghost use Rattle.packet_pools.specs.Seeking.{only_moves, output_pools};
ghost use Rattle.packet_pools.specs.Hands.{free_slots};
ghost use Rattle.packet_pools.specs.StepBounds.{any_steps, room_left};
ghost use Rattle.packet_pools.specs.Tried.{SearchesThrough};
ghost use Rattle.card_clean.specs.StepBounds.{clean_dirty_steps, clean_round_steps, clean_some_steps, pass_steps};

use crate::cleaned::CleanedCards;
use crate::cleaning::clean_card_on;
use crate::taking::take_some;
use gc_table::{Heap, HeapSeat};
use mark_core::CARD_CELLS;
use packet_pools::{Held, Search, give};

/// The first dirty card from this one on and before `end`. If there is none a seat that is alone knows them all clean.
pub fn dirty_between(heap: &Heap, seat: &mut HeapSeat, from: u32, end: u32) -> Option<u32>
    requires seat { Sits heap.now seat.old }
    requires cards { from < end → end ≤ card_count heap.now.shape }
    ensures seat { Sits heap.now seat.new }
    ensures only { Across OnlyTraced seat.old seat.new }
    ensures state { state_of seat.new ≡ state_of seat.old }
    ensures notes { Across KeepsAllNotes seat.old seat.new }
    ensures dirty { IfSome result (λ card. (from ≤ card) × (card < end) × (did seat.old seat.new ≡ looks_dirty from card)) }
    ensures clean { IfNone result (did seat.old seat.new ≡ looks_clean from end) }
    ensures noted { IfNone result (IsTrue (state_of seat.old).alone → AreNotedClean from end (view_of seat.new)) }
    ensures unnoted { IfSome result (λ card. look (card_at card) (view_of seat.old).known ≢ Some 0) }
    ensures few { length (did seat.old seat.new) ≤ end - from }
{
    for card in from..end {
        if heap.read_card(seat, card) {
            return Some(card);
        }
    }
    None
}

pub(crate) fn first_dirty(heap: &Heap, seat: &mut HeapSeat, from: u32) -> Option<u32>
    requires seat { Sits heap.now seat.old }
    ensures seat { Sits heap.now seat.new }
    ensures only { Across OnlyTraced seat.old seat.new }
    ensures state { state_of seat.new ≡ state_of seat.old }
    ensures notes { Across KeepsAllNotes seat.old seat.new }
    ensures dirty { IfSome result (λ card. (from ≤ card) × (card < card_count heap.now.shape) × (did seat.old seat.new ≡ looks_dirty from card)) }
    ensures clean { IfNone result (did seat.old seat.new ≡ looks_clean from (card_count heap.now.shape)) }
    ensures noted { IfNone result (IsTrue (state_of seat.old).alone → AreNotedClean from (card_count heap.now.shape) (view_of seat.new)) }
    ensures unnoted { IfSome result (λ card. look (card_at card) (view_of seat.old).known ≢ Some 0) }
    ensures few { length (did seat.old seat.new) ≤ card_count heap.now.shape - from }
{
    dirty_between(heap, seat, from, heap.shape().cells / CARD_CELLS)
}

pub(crate) fn clean_where_dirty(
    heap: &Heap,
    seat: &mut HeapSeat,
    card: u32,
    out: &mut Held,
    search: &mut Search,
) -> CleanedCards
    requires seat { IsTracer heap.now seat.old }
    requires card { card < card_count heap.now.shape }
    requires out { HoldsPacket out.old (view_of seat.old) × IsTrue (has_free_slot (state_of seat.old).held) }
    requires work { IsFalse (work_in_hand heap.now.shape.fields (state_of seat.old)) }
    ensures seat { IsTracer heap.now seat.new }
    ensures only { Across OnlyCleaned seat.old seat.new }
    ensures out { Across (Fills out.old out.new) seat.old seat.new }
    ensures work { IsFalse (work_in_hand heap.now.shape.fields (state_of seat.new)) }
    ensures most { (result.rescanned ≤ card_cells) × (result.cards ≤ 1) }
    ensures left { rescanned_in (view_of seat.old) (did seat.old seat.new) ≡ result.rescanned }
    ensures cleared { count_of clears (did seat.old seat.new) ≡ result.cards }
    ensures spills { IsFalse (state_of seat.old).active → SpillsWhite (did seat.old seat.new) }
    ensures cleans { CleanedWhereDirty heap.now.shape card result.rescanned (did seat.old seat.new) }
    ensures looks { Across (LooksAtCard card) seat.old seat.new }
    ensures tried { SearchesThrough heap.now.shape search.old search.new out.old out.new (did seat.old seat.new) }
    ensures few { length (did seat.old seat.new) + room_left heap.now.shape search.new out.new.length ≤ room_left heap.now.shape search.old out.old.length + pass_steps 1 result.rescanned heap.now.shape }
{
    if !heap.read_card(seat, card) {
        return CleanedCards {
            rescanned: 0,
            cards: 0,
        };
    }
    let cleaned = clean_card_on(heap, seat, card, out, search);
    CleanedCards {
        rescanned: cleaned.rescanned,
        cards: 1,
    }
}

fn clean_between(
    heap: &Heap,
    seat: &mut HeapSeat,
    first: u32,
    end: u32,
    out: &mut Held,
    search: &mut Search,
) -> CleanedCards
    requires seat { IsTracer heap.now seat.old }
    requires cards { (first ≤ end) × (end ≤ card_count heap.now.shape) }
    requires out { HoldsPacket out.old (view_of seat.old) × IsTrue (has_free_slot (state_of seat.old).held) }
    requires work { IsFalse (work_in_hand heap.now.shape.fields (state_of seat.old)) }
    ensures seat { IsTracer heap.now seat.new }
    ensures only { Across OnlyCleaned seat.old seat.new }
    ensures out { Across (Fills out.old out.new) seat.old seat.new }
    ensures work { IsFalse (work_in_hand heap.now.shape.fields (state_of seat.new)) }
    ensures most { (result.rescanned ≤ card_cells * (end - first)) × (result.cards ≤ end - first) }
    ensures left { rescanned_in (view_of seat.old) (did seat.old seat.new) ≡ result.rescanned }
    ensures cleared { count_of clears (did seat.old seat.new) ≡ result.cards }
    ensures spills { IsFalse (state_of seat.old).active → SpillsWhite (did seat.old seat.new) }
    ensures cleans { CleanedFrom heap.now.shape first (end - first) result.rescanned (did seat.old seat.new) }
    ensures tried { SearchesThrough heap.now.shape search.old search.new out.old out.new (did seat.old seat.new) }
    ensures few { length (did seat.old seat.new) + room_left heap.now.shape search.new out.new.length ≤ room_left heap.now.shape search.old out.old.length + pass_steps (end - first) result.rescanned heap.now.shape }
{
    let mut rescanned = 0;
    let mut cards = 0;
    for card in first..end {
        let one = clean_where_dirty(heap, seat, card, out, search);
        rescanned += one.rescanned;
        cards += one.cards;
    }
    CleanedCards { rescanned, cards }
}

/// Cleans every dirty card, if it finds a packet: how many cells were scanned again. A seat that is alone, holds none and
/// knows that none is deferred finds one.
pub fn clean_dirty(heap: &Heap, seat: &mut HeapSeat) -> u32
    requires seat { IsTracer heap.now seat.old }
    requires free { 2 ≤ free_slots (state_of seat.old).held }
    requires work { IsFalse (work_in_hand heap.now.shape.fields (state_of seat.old)) }
    ensures seat { IsTracer heap.now seat.new }
    ensures only { Across OnlyCleaned seat.old seat.new }
    ensures held { (state_of seat.new).held ≡ (state_of seat.old).held }
    ensures work { IsFalse (work_in_hand heap.now.shape.fields (state_of seat.new)) }
    ensures left { rescanned_in (view_of seat.old) (did seat.old seat.new) ≡ result }
    ensures spills { IsFalse (state_of seat.old).active → SpillsWhite (did seat.old seat.new) }
    ensures cleans { CleansDirty heap.now.shape result (did seat.old seat.new) }
    ensures packet { IsTrue (state_of seat.old).alone → IsFalse (holds_any (state_of seat.old).held) → AreNotedOutside deferred_pool_number (view_of seat.old) → CleansAllDirty heap.now.shape result (did seat.old seat.new) }
    ensures few { length (did seat.old seat.new) ≤ clean_dirty_steps result heap.now.shape }
{
    let Some(card) = first_dirty(heap, seat, 0) else {
        return 0;
    };
    let Some(mut out) = take_some(heap, seat) else {
        return 0;
    };
    let cleaned = clean_between(
        heap,
        seat,
        card,
        heap.shape().cells / CARD_CELLS,
        &mut out,
        &mut Search::open(),
    );
    give(heap, seat, out, false);
    cleaned.rescanned
}

/// Cleans the dirty ones of these cards. The answer is None only if no packet was found, and then no card was looked
/// at.
pub fn clean_some(heap: &Heap, seat: &mut HeapSeat, first: u32, end: u32) -> Option<CleanedCards>
    requires seat { IsTracer heap.now seat.old }
    requires cards { (first ≤ end) × (end ≤ card_count heap.now.shape) }
    requires free { 2 ≤ free_slots (state_of seat.old).held }
    requires work { IsFalse (work_in_hand heap.now.shape.fields (state_of seat.old)) }
    ensures seat { IsTracer heap.now seat.new }
    ensures only { Across OnlyCleaned seat.old seat.new }
    ensures held { (state_of seat.new).held ≡ (state_of seat.old).held }
    ensures work { IsFalse (work_in_hand heap.now.shape.fields (state_of seat.new)) }
    ensures some { IfSome result (λ r. (r.rescanned ≤ card_cells * (end - first)) × (rescanned_in (view_of seat.old) (did seat.old seat.new) ≡ r.rescanned) × CleansWithPacket heap.now.shape (CleanedFrom heap.now.shape first (end - first) r.rescanned) (did seat.old seat.new)) }
    ensures cleared { IfSome result (λ r. (r.cards ≤ end - first) × (count_of clears (did seat.old seat.new) ≡ r.cards)) }
    ensures none { IfNone result (NoPacket heap.now.shape (did seat.old seat.new) × IsTrue (only_moves output_pools (did seat.old seat.new)) × (rescanned_in (view_of seat.old) (did seat.old seat.new) ≡ 0)) }
    ensures few { IfSome result (λ r. length (did seat.old seat.new) ≤ clean_some_steps (end - first) r.rescanned heap.now.shape) × IfNone result (length (did seat.old seat.new) ≤ any_steps heap.now.shape) }
{
    let Some(mut out) = take_some(heap, seat) else {
        return None;
    };
    let cleaned = clean_between(heap, seat, first, end, &mut out, &mut Search::open());
    give(heap, seat, out, false);
    Some(cleaned)
}

/// How many cards are passed with one packet.
const STRETCH: u32 = 4_096;

fn clean_stretch(heap: &Heap, seat: &mut HeapSeat, s: u32) -> u32
    requires seat { IsTracer heap.now seat.old }
    requires stretch { s < stretch_count heap.now.shape }
    requires free { 2 ≤ free_slots (state_of seat.old).held }
    requires work { IsFalse (work_in_hand heap.now.shape.fields (state_of seat.old)) }
    ensures seat { IsTracer heap.now seat.new }
    ensures only { Across OnlyCleaned seat.old seat.new }
    ensures held { (state_of seat.new).held ≡ (state_of seat.old).held }
    ensures work { IsFalse (work_in_hand heap.now.shape.fields (state_of seat.new)) }
    ensures most { result ≤ card_cells * stretch_cards }
    ensures left { rescanned_in (view_of seat.old) (did seat.old seat.new) ≡ result }
    ensures cleans { CleansStretch heap.now.shape s result (did seat.old seat.new) }
    ensures few { length (did seat.old seat.new) ≤ clean_some_steps (min stretch_cards (card_count heap.now.shape)) result heap.now.shape }
{
    let first = s * STRETCH;
    let end = (first + STRETCH).min(heap.shape().cells / CARD_CELLS);
    match clean_some(heap, seat, first, end) {
        Some(cleaned) => cleaned.rescanned,
        None => 0,
    }
}

fn first_stretch(number: u32, sections: u32, stretches: u32) -> u32
    requires stretches { 0 < stretches }
    ensures { result < stretches }
{
    let spread = u64::from(number) * u64::from(stretches) / u64::from(sections.max(1));
    (spread % u64::from(stretches)) as u32
}

/// Cleans every dirty card, from a stretch of the seat's own on and around: how many cells were scanned again. A
/// stretch for which no packet is found is left as it is. A card that two seats find dirty is cleaned twice.
pub fn clean_dirty_round(heap: &Heap, seat: &mut HeapSeat) -> u32
    requires seat { IsTracer heap.now seat.old }
    requires free { 2 ≤ free_slots (state_of seat.old).held }
    requires work { IsFalse (work_in_hand heap.now.shape.fields (state_of seat.old)) }
    ensures seat { IsTracer heap.now seat.new }
    ensures only { Across OnlyCleaned seat.old seat.new }
    ensures held { (state_of seat.new).held ≡ (state_of seat.old).held }
    ensures work { IsFalse (work_in_hand heap.now.shape.fields (state_of seat.new)) }
    ensures left { rescanned_in (view_of seat.old) (did seat.old seat.new) ≡ result }
    ensures cleans { CleansRound heap.now.shape result (did seat.old seat.new) }
    ensures few { length (did seat.old seat.new) ≤ clean_round_steps result heap.now.shape }
{
    let stretches = (heap.shape().cells / CARD_CELLS).div_ceil(STRETCH);
    let begin = first_stretch(seat.state().number, heap.shape().sections, stretches);
    let mut rescanned = 0;
    for i in 0..stretches {
        rescanned += clean_stretch(heap, seat, (begin + i) % stretches);
    }
    rescanned
}
