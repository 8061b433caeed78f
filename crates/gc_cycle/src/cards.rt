//! Cards are looked at and cleaned, through `card_clean`.
ghost use Rattle.std.specs.Prelude.{◌≡◌, ◌≤◌, ◌+◌, IsTrue, IsFalse, IfSome, IfNone, true, ◌*◌, ◌-◌, length};
ghost use Rattle.mark_core.specs.Cards.{card_cells};
ghost use Rattle.mark_core.specs.Layout.{card_count};
ghost use Rattle.mark_core.specs.Numbers.{deferred_pool_number};
ghost use Rattle.gc_table.specs.Seats.{Across, did, Sits, state_of, view_of};
ghost use Rattle.packet_pools.specs.Counts.{count_of};
ghost use Rattle.packet_pools.specs.Tracing.{traces};
ghost use Rattle.packet_pools.specs.StepBounds.{output_steps};
ghost use Rattle.packet_pools.specs.Outside.{AreNotedOutside};
ghost use Rattle.card_clean.specs.Cleaning.{SpillsWhite};
ghost use Rattle.card_clean.specs.DirtyCards.{CleansAllDirty, CleansDirty, CleansRound};
ghost use Rattle.card_clean.specs.Drained.{FindsNoDirtyCard, FindsWork, IsSettled};
ghost use Rattle.card_clean.specs.NextCards.{PassesNextCards, PassesNone};
ghost use Rattle.card_clean.specs.Leaving.{rescanned_in};
ghost use Rattle.card_clean.specs.StepBounds.{clean_next_steps, clean_some_steps};
ghost use Rattle.gc_cycle.specs.CardLooks.{PassesCards, looks_at_card};
ghost use Rattle.gc_cycle.specs.Drained.{DrainedAlone, RootedAlone};
ghost use Rattle.gc_cycle.specs.Events.{never};
ghost use Rattle.gc_cycle.specs.Lower.{HasTraced};
ghost use Rattle.gc_cycle.specs.Sorts.{draws, pops, reads_card_left, reads_counter, reads_pace, reads_root, takes_deferred};
ghost use Rattle.gc_cycle.specs.Standing.{is_at_rest};

use gc_table::{Heap, HeapSeat};

pub(crate) fn clean_dirty(heap: &Heap, seat: &mut HeapSeat) -> u32
    requires seat { Sits heap.now seat.old × IsTrue (traces (view_of seat.old)) }
    requires rest { IsTrue (is_at_rest heap.now.shape (state_of seat.old)) }
    ensures seat { Sits heap.now seat.new }
    ensures traced { Across HasTraced seat.old seat.new }
    ensures rescanned { rescanned_in (view_of seat.old) (did seat.old seat.new) ≡ result }
    ensures cleans { CleansDirty heap.now.shape result (did seat.old seat.new) }
    ensures packet { IsTrue (state_of seat.old).alone → AreNotedOutside deferred_pool_number (view_of seat.old) → CleansAllDirty heap.now.shape result (did seat.old seat.new) }
    ensures spills { IsFalse (state_of seat.old).active → SpillsWhite (did seat.old seat.new) }
{
    card_clean::clean_dirty(heap, seat)
}

/// It begins at a card of the seat's own, and goes around.
pub(crate) fn clean_dirty_round(heap: &Heap, seat: &mut HeapSeat) -> u32
    requires seat { Sits heap.now seat.old × IsTrue (traces (view_of seat.old)) }
    requires rest { IsTrue (is_at_rest heap.now.shape (state_of seat.old)) }
    ensures seat { Sits heap.now seat.new }
    ensures traced { Across HasTraced seat.old seat.new }
    ensures rescanned { rescanned_in (view_of seat.old) (did seat.old seat.new) ≡ result }
    ensures cleans { CleansRound heap.now.shape result (did seat.old seat.new) }
    ensures unpopped { IsTrue (never pops (did seat.old seat.new)) }
{
    card_clean::clean_dirty_round(heap, seat)
}

/// Cleans the dirty ones of the next cards of the pass, `looks` at most, or fewer once so many cells are found as are
/// `enough`: how many looks are left, or None if no card was cleaned, since none was dirty or no packet could be had.
pub fn clean_next(heap: &Heap, seat: &mut HeapSeat, looks: u32, enough: u32) -> Option<u32>
    requires seat { Sits heap.now seat.old × IsTrue (traces (view_of seat.old)) }
    requires rest { IsTrue (is_at_rest heap.now.shape (state_of seat.old)) }
    ensures seat { Sits heap.now seat.new }
    ensures traced { Across HasTraced seat.old seat.new }
    ensures some { IfSome result (λ left. Across (PassesNextCards true left looks) seat.old seat.new) }
    ensures none { IfNone result (Across (PassesNone looks) seat.old seat.new) }
    ensures looked { IfSome result (λ left. count_of draws (did seat.old seat.new) + left ≤ looks) × IfNone result (count_of draws (did seat.old seat.new) ≤ looks) }
    ensures late { count_of looks_at_card (did seat.old seat.new) ≤ count_of draws (did seat.old seat.new) }
    ensures counted { count_of (reads_card_left (card_count heap.now.shape)) (did seat.old seat.new) ≤ count_of draws (did seat.old seat.new) }
    ensures unpopped { IsTrue (never pops (did seat.old seat.new)) }
    ensures unrooted { IsTrue (never reads_root (did seat.old seat.new)) }
    ensures undeferred { IsTrue (never takes_deferred (did seat.old seat.new)) }
    ensures unread { IsTrue (never reads_pace (did seat.old seat.new)) }
    ensures few { IfSome result (λ left. (left ≤ looks) × (length (did seat.old seat.new) ≤ clean_next_steps (looks - left) heap.now.shape)) × IfNone result (length (did seat.old seat.new) ≤ output_steps heap.now.shape + 3 * looks) }
{
    card_clean::clean_next(heap, seat, looks, Some(enough))
}

/// Cleans those of these cards that are dirty, or looks at none if no packet can be had.
pub fn clean_between(heap: &Heap, seat: &mut HeapSeat, first: u32, end: u32)
    requires seat { Sits heap.now seat.old × IsTrue (traces (view_of seat.old)) }
    requires rest { IsTrue (is_at_rest heap.now.shape (state_of seat.old)) }
    requires cards { (first ≤ end) × (end ≤ card_count heap.now.shape) }
    ensures seat { Sits heap.now seat.new }
    ensures traced { Across HasTraced seat.old seat.new }
    ensures passes { PassesCards heap.now.shape first end (did seat.old seat.new) }
    ensures undrawn { IsTrue (never draws (did seat.old seat.new)) }
    ensures unpopped { IsTrue (never pops (did seat.old seat.new)) }
    ensures unrooted { IsTrue (never reads_root (did seat.old seat.new)) }
    ensures undeferred { IsTrue (never takes_deferred (did seat.old seat.new)) }
    ensures unread { IsTrue (never reads_pace (did seat.old seat.new)) }
    ensures uncounted { IsTrue (never reads_counter (did seat.old seat.new)) }
    ensures few { length (did seat.old seat.new) ≤ clean_some_steps (end - first) (card_cells * (end - first)) heap.now.shape }
{
    let _ = card_clean::clean_some(heap, seat, first, end);
}

pub(crate) fn is_drained(heap: &Heap, seat: &mut HeapSeat) -> bool
    requires seat { Sits heap.now seat.old × RootedAlone (view_of seat.old) }
    ensures seat { Sits heap.now seat.new × RootedAlone (view_of seat.new) }
    ensures traced { Across HasTraced seat.old seat.new }
    ensures rescanned { rescanned_in (view_of seat.old) (did seat.old seat.new) ≡ 0 }
    ensures drained { IsTrue result → DrainedAlone (view_of seat.new) }
    ensures settled { IsSettled (view_of seat.old) → IsTrue result }
    ensures over { IsTrue result → FindsNoDirtyCard heap.now.shape (did seat.old seat.new) }
    ensures undrained { IsFalse result → FindsWork heap.now.shape (did seat.old seat.new) }
{
    card_clean::is_drained(heap, seat)
}
