//! A drain in pieces, once the roots are seen to.
ghost use Rattle.std.specs.Prelude.{◌≡◌, ◌<◌, ◌≤◌, ◌+◌, ◌-◌, min, length, IsTrue, IfSome, IfNone, ◌*◌};
ghost use Rattle.std.specs.Bool.{OnFalse, OnTrue};
ghost use Rattle.mark_core.specs.Layout.{card_count};
ghost use Rattle.mark_core.specs.declared.kinds.Phase.TheVariants.{Drain};
ghost use Rattle.mark_core.specs.Cards.{card_cells};
ghost use Rattle.gc_table.specs.Log.{Only};
ghost use Rattle.gc_table.specs.Seats.{Across, did, Sits, view_of};
ghost use Rattle.gc_table.specs.declared.view.View.{View};
ghost use Rattle.packet_pools.specs.Counts.{count_of};
ghost use Rattle.tracer.specs.StepBounds.{recycle_steps, trace_steps};
ghost use Rattle.card_clean.specs.Cleaning.{SpillsWhite};
ghost use Rattle.card_clean.specs.Leaving.{rescanned_in};
ghost use Rattle.card_clean.specs.StepBounds.{clean_some_steps};
ghost use Rattle.gc_cycle.specs.Events.{never};
ghost use Rattle.gc_cycle.specs.Finishing.{DrainsInStop, IsAloneIn, IsPart};
ghost use Rattle.gc_cycle.specs.LeftToDrain.{CleansDown, NotesDirty, TracesDown, has_traced_all, left_to_drain};
ghost use Rattle.gc_cycle.specs.Lower.{HasTraced};
ghost use Rattle.gc_cycle.specs.Sorts.{clears, pops};
ghost use Rattle.gc_cycle.specs.Statistics.{leaves_numbers};
ghost use Rattle.gc_cycle.specs.RoundParts.{BringsBack, LacksPacket};
ghost use Rattle.gc_cycle.specs.Turns.{DrainsFor};
ghost use Rattle.gc_cycle.specs.Pieces.{CleansCards, HasLooked, LooksAt, LooksFrom, ReadsCount, StandsAfter};
ghost use Rattle.gc_cycle.specs.Stepping.{Drains, HasMarkedAll, IsExactSince, Keeps};

use crate::pieces::at_most;
use crate::tracing::{recycle_deferred, sees_all_empty, trace};
use card_clean::{CleanedCards, clean_some, dirty_between};
use gc_table::{Heap, HeapSeat};
use mark_core::CARD_CELLS;

/// What a look at some cards came to.
#[derive(Clone, Copy, Debug, PartialEq, Eq, Drop)]
pub enum Look {
    /// So many cards are clean: fewer than asked for only if none is left.
    Clean(u32),
    /// This card is dirty.
    Dirty(u32),
}

/// What a step of cleaning did.
#[derive(Clone, Copy, Debug, PartialEq, Eq, Drop)]
pub struct CleanStep {
    /// How many cards it passed: fewer than asked for only if none is left.
    pub passed: u32,
    /// How many of them it cleaned.
    pub cleaned: u32,
    /// How many objects it scanned again.
    pub rescanned: u32,
}

/// Brings back what was deferred, and traces, alone or beside helpers.
pub(crate) fn trace_some(heap: &Heap, seat: &mut HeapSeat, most: u32) -> u32
    requires seat { Sits heap.now seat.old }
    requires drains { DrainsInStop (view_of seat.old) }
    ensures seat { Sits heap.now seat.new }
    ensures traced { Across HasTraced seat.old seat.new }
    ensures popped { (result ≤ most) × (count_of pops (did seat.old seat.new) ≡ result) }
    ensures brings { Across BringsBack seat.old seat.new }
    ensures worked { Across (DrainsFor most) seat.old seat.new }
    ensures falls { IsAloneIn Drain (view_of seat.old) → Across TracesDown seat.old seat.new }
    ensures all { IsAloneIn Drain (view_of seat.old) → 0 < most → result ≡ 0 → IsTrue (has_traced_all (view_of seat.new)) }
    ensures few { length (did seat.old seat.new) ≤ recycle_steps heap.now.shape + trace_steps result heap.now.shape }
{
    recycle_deferred(heap, seat);
    let traced = trace(heap, seat, most);
    traced.done
}

/// Brings back what was deferred, and traces. The answer: how many objects it popped, fewer than `most` only if at
/// some moment there was none. Each is one fewer of what is left to drain; if it popped none, none is left to trace.
pub fn trace_step(heap: &Heap, seat: &mut HeapSeat, most: u32) -> u32
    requires seat { Sits heap.now seat.old }
    requires drains { Drains (view_of seat.old) }
    ensures seat { Sits heap.now seat.new }
    ensures part { Across (IsPart Drain) seat.old seat.new }
    ensures drains { Drains (view_of seat.new) }
    ensures popped { (result ≤ most) × (count_of pops (did seat.old seat.new) ≡ result) }
    ensures brings { Across BringsBack seat.old seat.new }
    ensures worked { Across (DrainsFor most) seat.old seat.new }
    ensures falls { Across TracesDown seat.old seat.new }
    ensures all { 0 < most → result ≡ 0 → IsTrue (has_traced_all (view_of seat.new)) }
    ensures exact { (u : View) → IsExactSince u (view_of seat.old) → IsExactSince u (view_of seat.new) }
    ensures numbers { Across (Only leaves_numbers) seat.old seat.new }
    ensures keeps { Across Keeps seat.old seat.new }
    ensures few { length (did seat.old seat.new) ≤ recycle_steps heap.now.shape + trace_steps result heap.now.shape }
{
    trace_some(heap, seat, most)
}

/// Looks at up to `most` cards from `from` on, up to the first dirty one. What it saw clean stays noted while it
/// does nothing else.
pub fn look_step(heap: &Heap, seat: &mut HeapSeat, from: u32, most: u32) -> Look
    requires seat { Sits heap.now seat.old }
    requires looks { LooksFrom from (view_of seat.old) }
    ensures seat { Sits heap.now seat.new }
    ensures part { Across (IsPart Drain) seat.old seat.new }
    ensures looked { LooksAt heap.now.shape from most result (did seat.old seat.new) }
    ensures stands { StandsAfter from most result (view_of seat.new) }
    ensures falls { left_to_drain (view_of seat.new) ≤ left_to_drain (view_of seat.old) }
    ensures all { IsTrue (has_traced_all (view_of seat.old)) → IsTrue (has_traced_all (view_of seat.new)) }
    ensures dirty { NotesDirty result (view_of seat.new) }
    ensures few { length (did seat.old seat.new) ≤ most }
    ensures exact { (u : View) → IsExactSince u (view_of seat.old) → IsExactSince u (view_of seat.new) }
    ensures numbers { Across (Only leaves_numbers) seat.old seat.new }
    ensures keeps { Across Keeps seat.old seat.new }
{
    let number = at_most(most, from, heap.shape().cells / CARD_CELLS);
    match dirty_between(heap, seat, from, from + number) {
        Some(card) => Look::Dirty(card),
        None => Look::Clean(number),
    }
}

/// Whether all is marked, once each card was seen clean, by the count of empty packets.
pub fn finds_all_marked(heap: &Heap, seat: &mut HeapSeat) -> bool
    requires seat { Sits heap.now seat.old }
    requires looked { HasLooked (view_of seat.old) }
    ensures seat { Sits heap.now seat.new }
    ensures part { Across (IsPart Drain) seat.old seat.new }
    ensures marked { OnTrue result (HasMarkedAll (view_of seat.new)) }
    ensures not_yet { OnFalse result (Drains (view_of seat.new)) }
    ensures reads { Across (ReadsCount result) seat.old seat.new }
    ensures falls { left_to_drain (view_of seat.new) ≤ left_to_drain (view_of seat.old) }
    ensures all { IsTrue (has_traced_all (view_of seat.old)) → IsTrue result }
    ensures exact { (u : View) → IsExactSince u (view_of seat.old) → IsExactSince u (view_of seat.new) }
    ensures numbers { Across (Only leaves_numbers) seat.old seat.new }
    ensures keeps { Across Keeps seat.old seat.new }
{
    sees_all_empty(heap, seat)
}

fn cleans_some(heap: &Heap, seat: &mut HeapSeat, first: u32, end: u32) -> Option<CleanedCards>
    requires seat { Sits heap.now seat.old }
    requires drains { DrainsInStop (view_of seat.old) }
    requires cards { (first ≤ end) × (end ≤ card_count heap.now.shape) }
    ensures seat { Sits heap.now seat.new }
    ensures traced { Across HasTraced seat.old seat.new }
    ensures unpopped { IsTrue (never pops (did seat.old seat.new)) }
    ensures cleaned { IfSome result (λ _. Across (CleansCards first (end - first)) seat.old seat.new) }
    ensures counts { IfSome result (λ r. (r.cards ≤ end - first) × (count_of clears (did seat.old seat.new) ≡ r.cards)) }
    ensures rescanned { IfSome result (λ r. rescanned_in (view_of seat.old) (did seat.old seat.new) ≡ r.rescanned) }
    ensures lacks { IfNone result (Across LacksPacket seat.old seat.new) }
    ensures uncleaned { IfNone result (IsTrue (never clears (did seat.old seat.new))) }
    ensures unscanned { IfNone result (rescanned_in (view_of seat.old) (did seat.old seat.new) ≡ 0) }
    ensures few { length (did seat.old seat.new) ≤ clean_some_steps (end - first) (card_cells * (end - first)) heap.now.shape + recycle_steps heap.now.shape }
{
    match clean_some(heap, seat, first, end) {
        Some(cleaned) => Some(cleaned),
        None => {
            recycle_deferred(heap, seat);
            None
        }
    }
}

/// Looks at up to `most` cards and cleans those that are dirty, alone or beside helpers.
pub(crate) fn clean_piece(
    heap: &Heap,
    seat: &mut HeapSeat,
    from: u32,
    most: u32,
) -> Option<CleanStep>
    requires seat { Sits heap.now seat.old }
    requires drains { DrainsInStop (view_of seat.old) }
    ensures seat { Sits heap.now seat.new }
    ensures traced { Across HasTraced seat.old seat.new }
    ensures unpopped { IsTrue (never pops (did seat.old seat.new)) }
    ensures cleaned { IfSome result (λ r. (r.passed ≡ min most (card_count heap.now.shape - from)) × Across (CleansCards from r.passed) seat.old seat.new) }
    ensures counts { IfSome result (λ r. (r.cleaned ≤ r.passed) × (count_of clears (did seat.old seat.new) ≡ r.cleaned)) }
    ensures rescanned { IfSome result (λ r. rescanned_in (view_of seat.old) (did seat.old seat.new) ≡ r.rescanned) }
    ensures lacks { IfNone result (Across LacksPacket seat.old seat.new) }
    ensures uncleaned { IfNone result (IsTrue (never clears (did seat.old seat.new))) }
    ensures unscanned { IfNone result (rescanned_in (view_of seat.old) (did seat.old seat.new) ≡ 0) }
    ensures few { length (did seat.old seat.new) ≤ clean_some_steps most (card_cells * most) heap.now.shape + recycle_steps heap.now.shape }
{
    let number = at_most(most, from, heap.shape().cells / CARD_CELLS);
    if number == 0 {
        return Some(CleanStep {
            passed: 0,
            cleaned: 0,
            rescanned: 0,
        });
    }
    match cleans_some(heap, seat, from, from + number) {
        Some(cleaned) => Some(CleanStep {
            passed: number,
            cleaned: cleaned.cards,
            rescanned: cleaned.rescanned,
        }),
        None => None,
    }
}

/// Looks at up to `most` cards from `from` on, fewer only if none is left, and cleans those that are dirty. None: no
/// packet could be had; the deferred ones are back, and it is to be called again.
///
/// A card may be dirty again afterwards, so another look is due.
pub fn clean_step(heap: &Heap, seat: &mut HeapSeat, from: u32, most: u32) -> Option<CleanStep>
    requires seat { Sits heap.now seat.old }
    requires drains { Drains (view_of seat.old) }
    ensures seat { Sits heap.now seat.new }
    ensures part { Across (IsPart Drain) seat.old seat.new }
    ensures drains { Drains (view_of seat.new) }
    ensures unpopped { IsTrue (never pops (did seat.old seat.new)) }
    ensures cleaned { IfSome result (λ r. (r.passed ≡ min most (card_count heap.now.shape - from)) × Across (CleansCards from r.passed) seat.old seat.new) }
    ensures falls { SpillsWhite (did seat.old seat.new) → IfSome result (λ r. Across (CleansDown from r.passed) seat.old seat.new) }
    ensures counts { IfSome result (λ r. (r.cleaned ≤ r.passed) × (count_of clears (did seat.old seat.new) ≡ r.cleaned)) }
    ensures rescanned { IfSome result (λ r. rescanned_in (view_of seat.old) (did seat.old seat.new) ≡ r.rescanned) }
    ensures lacks { IfNone result (Across LacksPacket seat.old seat.new) }
    ensures uncleaned { IfNone result (IsTrue (never clears (did seat.old seat.new))) }
    ensures unscanned { IfNone result (rescanned_in (view_of seat.old) (did seat.old seat.new) ≡ 0) }
    ensures exact { (u : View) → IsExactSince u (view_of seat.old) → IsExactSince u (view_of seat.new) }
    ensures numbers { Across (Only leaves_numbers) seat.old seat.new }
    ensures keeps { Across Keeps seat.old seat.new }
    ensures few { length (did seat.old seat.new) ≤ clean_some_steps most (card_cells * most) heap.now.shape + recycle_steps heap.now.shape }
{
    clean_piece(heap, seat, from, most)
}
