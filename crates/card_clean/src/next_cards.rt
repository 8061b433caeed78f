//! The next cards of the pass are drawn, and the dirty ones cleaned, with one packet for all of them.
ghost use Rattle.std.specs.Prelude.{◌≡◌, ◌<◌, ◌≤◌, ◌+◌, ◌-◌, ◌*◌, None, false, is_some, IsTrue, IsFalse, IfSome, IfNone, length};
ghost use Rattle.std.specs.Bool.{OnFalse, OnTrue};
ghost use Rattle.mark_core.specs.Cards.{card_cells};
ghost use Rattle.mark_core.specs.Layout.{card_count};
ghost use Rattle.mark_core.specs.Held.{has_free_slot};
ghost use Rattle.mark_core.specs.Seats.{work_in_hand};
ghost use Rattle.gc_table.specs.Seats.{Across, did, state_of, view_of};
ghost use Rattle.packet_pools.specs.Hands.{HoldsPacket, free_slots};
ghost use Rattle.packet_pools.specs.Scanning.{Fills};
ghost use Rattle.packet_pools.specs.Seeking.{NoOutput, only_moves, output_pools};
ghost use Rattle.packet_pools.specs.StepBounds.{give_steps, output_steps, room_left, room_steps};
ghost use Rattle.packet_pools.specs.Tracing.{IsTracer};
ghost use Rattle.packet_pools.specs.Tried.{SearchesThrough};
ghost use Rattle.card_clean.specs.NextCards.{MeetsDirty, MeetsNone, OnlyPassed, PassesNext, PassesNextCards, PassesNone, PassesOn, PassesWithPacket, SeesNext};
ghost use Rattle.card_clean.specs.Passing.{DrawsCard};
ghost use Rattle.card_clean.specs.StepBounds.{clean_next_steps, clean_steps, next_steps};

use crate::card_pass::next_card;
use crate::cleaning::clean_card_on;
use crate::dirty_cards::clean_where_dirty;
use gc_table::{Heap, HeapSeat};
use packet_pools::{Held, Search, give, take_output};

/// The next card, and whether it is dirty.
fn see_next(heap: &Heap, seat: &mut HeapSeat) -> Option<(u32, bool)>
    requires seat { IsTracer heap.now seat.old }
    ensures seat { IsTracer heap.now seat.new }
    ensures only { Across OnlyPassed seat.old seat.new }
    ensures state { state_of seat.new ≡ record (state_of seat.old) { below_card = false } }
    ensures there { IfSome result (λ r. r.0 < card_count heap.now.shape) }
    ensures some { IfSome result (λ r. Across (SeesNext r.1 r.0) seat.old seat.new) }
    ensures none { IfNone result (Across (DrawsCard None) seat.old seat.new) }
    ensures few { length (did seat.old seat.new) ≤ 3 }
{
    match next_card(heap, seat) {
        Some(card) => Some((card, heap.read_card(seat, card))),
        None => None,
    }
}

/// The first dirty one of the next cards, and how many looks are left then.
fn meet_dirty(heap: &Heap, seat: &mut HeapSeat, looks: u32) -> Option<(u32, u32)>
    requires seat { IsTracer heap.now seat.old }
    ensures seat { IsTracer heap.now seat.new }
    ensures only { Across OnlyPassed seat.old seat.new }
    ensures state { record (state_of seat.new) { below_card = false } ≡ record (state_of seat.old) { below_card = false } }
    ensures there { IfSome result (λ r. r.0 < card_count heap.now.shape) }
    ensures some { IfSome result (λ r. Across (MeetsDirty r.1 looks r.0) seat.old seat.new) }
    ensures none { IfNone result (Across (MeetsNone looks) seat.old seat.new) }
    ensures few { IfSome result (λ r. length (did seat.old seat.new) + 3 * r.1 ≤ 3 * looks) × IfNone result (length (did seat.old seat.new) ≤ 3 * looks) }
{
    for look in 0..looks {
        let Some((card, dirty)) = see_next(heap, seat) else {
            return None;
        };
        if dirty {
            return Some((card, looks - look - 1));
        }
    }
    None
}

/// False if no card is left.
fn pass_next(heap: &Heap, seat: &mut HeapSeat, out: &mut Held, search: &mut Search) -> bool
    requires seat { IsTracer heap.now seat.old }
    requires out { HoldsPacket out.old (view_of seat.old) × IsTrue (has_free_slot (state_of seat.old).held) }
    requires work { IsFalse (work_in_hand heap.now.shape.fields (state_of seat.old)) }
    ensures seat { IsTracer heap.now seat.new }
    ensures only { Across OnlyPassed seat.old seat.new }
    ensures out { Across (Fills out.old out.new) seat.old seat.new }
    ensures work { IsFalse (work_in_hand heap.now.shape.fields (state_of seat.new)) }
    ensures passes { OnTrue result (Across PassesNext seat.old seat.new) }
    ensures over { OnFalse result (Across (DrawsCard None) seat.old seat.new) }
    ensures tried { SearchesThrough heap.now.shape search.old search.new out.old out.new (did seat.old seat.new) }
    ensures few { length (did seat.old seat.new) + room_left heap.now.shape search.new out.new.length ≤ room_left heap.now.shape search.old out.old.length + next_steps heap.now.shape }
{
    let Some(card) = next_card(heap, seat) else {
        return false;
    };
    clean_where_dirty(heap, seat, card, out, search);
    true
}

fn is_enough(out: &Held, enough: Option<u32>) -> bool
    ensures { IsTrue result → IsTrue (is_some enough) }
{
    match enough {
        Some(cells) => out.length() >= cells,
        None => false,
    }
}

/// How many looks are left once it has passed cards.
fn pass_on(
    heap: &Heap,
    seat: &mut HeapSeat,
    looks: u32,
    enough: Option<u32>,
    out: &mut Held,
    search: &mut Search,
) -> u32
    requires seat { IsTracer heap.now seat.old }
    requires out { HoldsPacket out.old (view_of seat.old) × IsTrue (has_free_slot (state_of seat.old).held) }
    requires work { IsFalse (work_in_hand heap.now.shape.fields (state_of seat.old)) }
    ensures seat { IsTracer heap.now seat.new }
    ensures only { Across OnlyPassed seat.old seat.new }
    ensures out { Across (Fills out.old out.new) seat.old seat.new }
    ensures work { IsFalse (work_in_hand heap.now.shape.fields (state_of seat.new)) }
    ensures passes { Across (PassesOn (is_some enough) result looks) seat.old seat.new }
    ensures tried { SearchesThrough heap.now.shape search.old search.new out.old out.new (did seat.old seat.new) }
    ensures few { (result ≤ looks) × (length (did seat.old seat.new) + room_left heap.now.shape search.new out.new.length ≤ room_left heap.now.shape search.old out.old.length + (looks - result) * next_steps heap.now.shape) }
{
    for look in 0..looks {
        if is_enough(out, enough) {
            return looks - look;
        }
        if !pass_next(heap, seat, out, search) {
            return 0;
        }
    }
    0
}

/// Cleans a card that was seen dirty, and then the dirty ones of the cards that follow, with a packet for all.
fn pass_from(
    heap: &Heap,
    seat: &mut HeapSeat,
    card: u32,
    looks: u32,
    enough: Option<u32>,
) -> Option<u32>
    requires seat { IsTracer heap.now seat.old }
    requires card { card < card_count heap.now.shape }
    requires free { 2 ≤ free_slots (state_of seat.old).held }
    requires work { IsFalse (work_in_hand heap.now.shape.fields (state_of seat.old)) }
    ensures seat { IsTracer heap.now seat.new }
    ensures only { Across OnlyPassed seat.old seat.new }
    ensures held { (state_of seat.new).held ≡ (state_of seat.old).held }
    ensures work { IsFalse (work_in_hand heap.now.shape.fields (state_of seat.new)) }
    ensures some { IfSome result (λ left. Across (PassesWithPacket (is_some enough) left looks card) seat.old seat.new) }
    ensures none { IfNone result (NoOutput heap.now.shape (did seat.old seat.new) × IsTrue (only_moves output_pools (did seat.old seat.new))) }
    ensures few { IfSome result (λ left. (left ≤ looks) × (length (did seat.old seat.new) ≤ output_steps heap.now.shape + clean_steps card_cells heap.now.shape + (looks - left) * next_steps heap.now.shape + room_steps heap.now.shape + give_steps)) × IfNone result (length (did seat.old seat.new) ≤ output_steps heap.now.shape) }
{
    let Some(mut out) = take_output(heap, seat) else {
        return None;
    };
    let mut search = Search::open();
    clean_card_on(heap, seat, card, &mut out, &mut search);
    let left = pass_on(heap, seat, looks, enough, &mut out, &mut search);
    give(heap, seat, out, false);
    Some(left)
}

/// Cleans the dirty ones of the next cards of this cycle's pass, with a packet that it takes at the first of them and
/// gives back. It looks at `looks` cards, or at fewer if no card is left, or if so many cells as are `enough` are in
/// the packet: then the answer tells how many looks are left. None: no card was cleaned, since none was dirty, or no
/// packet with room was found. The seat holds at most two packets.
pub fn clean_next(heap: &Heap, seat: &mut HeapSeat, looks: u32, enough: Option<u32>) -> Option<u32>
    requires seat { IsTracer heap.now seat.old }
    requires free { 2 ≤ free_slots (state_of seat.old).held }
    requires work { IsFalse (work_in_hand heap.now.shape.fields (state_of seat.old)) }
    ensures seat { IsTracer heap.now seat.new }
    ensures only { Across OnlyPassed seat.old seat.new }
    ensures held { (state_of seat.new).held ≡ (state_of seat.old).held }
    ensures work { IsFalse (work_in_hand heap.now.shape.fields (state_of seat.new)) }
    ensures some { IfSome result (λ left. Across (PassesNextCards (is_some enough) left looks) seat.old seat.new) }
    ensures none { IfNone result (Across (PassesNone looks) seat.old seat.new) }
    ensures few { IfSome result (λ left. (left ≤ looks) × (length (did seat.old seat.new) ≤ clean_next_steps (looks - left) heap.now.shape)) × IfNone result (length (did seat.old seat.new) ≤ output_steps heap.now.shape + 3 * looks) }
{
    let Some((card, left)) = meet_dirty(heap, seat, looks) else {
        return None;
    };
    pass_from(heap, seat, card, left, enough)
}
