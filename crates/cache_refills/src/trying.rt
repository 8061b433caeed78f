//! Safe points, entries and caches for a mutator that doesn't wait. If another seat's stop is under way it is told
//! so, and comes again. A collection it makes in steps (`gc_cycle`).
ghost use Rattle.std.specs.Bool.{OnFalse, OnTrue};
ghost use Rattle.std.specs.Prelude.{◌≡◌, ◌≤◌, ◌+◌, ◌*◌, [], length, None, Some, IfNone, IfSome, IsFalse, IsTrue, is_some};
ghost use Rattle.mark_core.specs.Layout.{block_count};
ghost use Rattle.mark_core.specs.Places.{the_phase};
ghost use Rattle.mark_core.specs.Seats.{phase_number};
ghost use Rattle.mark_core.specs.declared.kinds.Phase.TheVariants.{Marking};
ghost use Rattle.gc_table.specs.Log.{Only, events};
ghost use Rattle.gc_table.specs.Running.{Known, Ran};
ghost use Rattle.gc_table.specs.Seats.{Across, did, Sits, state_of, view_of};
ghost use Rattle.gc_table.specs.declared.view.View.{View};
ghost use Rattle.packet_pools.specs.Seeking.{some_event};
ghost use Rattle.cache_refills.specs.Getting.{RefillsTo};
ghost use Rattle.gc_cycle.specs.Answering.{HasCache, StoredAt, TellsFull};
ghost use Rattle.gc_cycle.specs.Cycles.{never_fills};
ghost use Rattle.gc_cycle.specs.Events.{never};
ghost use Rattle.gc_cycle.specs.Mutating.{GoesOut};
ghost use Rattle.cache_refills.specs.Pace.Pacing.{begins_where_due, card_looks};
ghost use Rattle.cache_refills.specs.Pace.Paying.{pops_where_paid};
ghost use Rattle.cache_refills.specs.Pace.StepBounds.{payment_steps};
ghost use Rattle.cache_refills.specs.Pieces.{LeavesBlocks};
ghost use Rattle.cache_refills.specs.Refilling.{IsPaced, SeesEnd, prepares};
ghost use Rattle.gc_cycle.specs.Sorts.{polls, pops, raises_flag};
ghost use Rattle.gc_cycle.specs.Sparing.{SparesRefill, spares_part};
ghost use Rattle.gc_cycle.specs.Standing.{IsOut, KeepsSeat, KeepsSection, Mutates};
ghost use Rattle.gc_cycle.specs.Statistics.{ChangesBy, GivesUp, RoundNumbers, leaves_numbers};
ghost use Rattle.cache_refills.specs.Trying.{CallsForCollection, EntersTo, FindsNoBlock, PassesTo, PlaysOn};

use crate::pace::begin_due;
use crate::refilling::{has_seen_marking, marking_is_done, pay_for};
use alloc_cache::{Cache, claim};
use gc_cycle::{Refill, go_out, goes_on, reads_full, retire_some, stores_if_full};
use gc_table::{Heap, HeapSeat};
use stop_world::{enter, poll};

/// What a mutator is told that doesn't wait.
#[derive(Clone, Copy, Debug, PartialEq, Eq, Drop)]
pub enum Pass {
    /// It goes on.
    Going,
    /// Another seat's stop is under way, and it is outside.
    Out,
    /// Every cell is reachable.
    Full,
}

/// A safe point of a mutator that has done `done` commands. Out: it has given its cache up and left; it comes in by
/// [`try_enter`]. Full: it read that the heap is full, and has no cache.
pub fn try_safe_point(
    heap: &Heap,
    seat: &mut HeapSeat,
    cache: &mut Option<Cache>,
    done: u32,
) -> Pass
    requires seat { Sits heap.now seat.old × Mutates (view_of seat.old) }
    requires cache { HasCache cache.old (view_of seat.old) }
    ensures seat { Sits heap.now seat.new }
    ensures passes { Across (PassesTo result cache.old cache.new done) seat.old seat.new }
    ensures polled { IsTrue (some_event polls (did seat.old seat.new)) }
    ensures out { Across GoesOut seat.old seat.new }
    ensures spares { Across (Only spares_part) seat.old seat.new }
    ensures numbers { Across (GivesUp cache.old cache.new) seat.old seat.new }
    ensures few { length (did seat.old seat.new) ≤ 6 }
{
    if poll(heap, seat) {
        retire_some(heap, seat, cache.take());
        go_out(heap, seat, done);
        return Pass::Out;
    }
    if goes_on(heap, seat, cache, done) {
        return Pass::Going;
    }
    Pass::Full
}

/// Enters the world if one step finds no stop under way. Full: it entered and read that the heap is full.
pub fn try_enter(heap: &Heap, seat: &mut HeapSeat) -> Pass
    requires seat { Sits heap.now seat.old × IsOut (view_of seat.old) }
    requires section { IsTrue (is_some (state_of seat.old).section) }
    ensures seat { Sits heap.now seat.new }
    ensures enters { Across (EntersTo result) seat.old seat.new }
    ensures out { Across GoesOut seat.old seat.new }
    ensures own { (view_of seat.new).own ≡ (view_of seat.old).own }
    ensures spares { Across (Only spares_part) seat.old seat.new }
    ensures numbers { Across (Only leaves_numbers) seat.old seat.new }
    ensures few { length (did seat.old seat.new) ≤ 2 }
{
    if !enter(heap, seat) {
        return Pass::Out;
    }
    if reads_full(heap, seat) {
        return Pass::Full;
    }
    Pass::Going
}

/// `sees_to_cycle` of `refilling`, but it wakes no tracer: one that rests looks again after a while. These stay two,
/// since a static library may not link what wakes a thread, not even behind a test.
pub(crate) fn begins_or_ends(heap: &Heap, seat: &mut HeapSeat) -> bool
    requires seat { Sits heap.now seat.old × Mutates (view_of seat.old) }
    requires marking { (state_of seat.old).phase_seen ≡ Some Marking → Known (view_of seat.old) the_phase (phase_number Marking) }
    ensures seat { Sits heap.now seat.new × Mutates (view_of seat.new) }
    ensures ran { Across Ran seat.old seat.new }
    ensures only { Across (Only prepares) seat.old seat.new }
    ensures numbers { Across (ChangesBy []) seat.old seat.new }
    ensures cache { (state_of seat.new).cache ≡ (state_of seat.old).cache }
    ensures done { OnTrue result (((state_of seat.old).phase_seen ≡ Some Marking) × SeesEnd heap.now.shape (did seat.old seat.new)) }
    ensures due { IsTrue (begins_where_due (did seat.old seat.new)) }
    ensures paced { OnFalse result (IsPaced (did seat.old seat.new) (view_of seat.new)) }
    ensures leaves { Across LeavesBlocks seat.old seat.new }
    ensures few { length (did seat.old seat.new) ≤ 4 }
{
    if has_seen_marking(seat) {
        return marking_is_done(heap, seat);
    }
    begin_due(heap, seat);
    false
}

/// [`refill`](crate::refill) without waiting. None: no block has a free cell or marking is done, and nothing was
/// traced; the caller collects in steps.
///
/// It takes three steps for each block, and five more; with a cache six more, and those of a payment.
pub fn try_refill(heap: &Heap, seat: &mut HeapSeat, done: u32) -> Option<Refill>
    requires seat { Sits heap.now seat.old × Mutates (view_of seat.old) }
    requires cache { (state_of seat.old).cache ≡ None }
    ensures seat { Sits heap.now seat.new }
    ensures plays { Across PlaysOn seat.old seat.new }
    ensures refills { IfSome result (λ r. Across (RefillsTo r done) seat.old seat.new × Across (SparesRefill r) seat.old seat.new) }
    ensures calls { IfNone result (Across CallsForCollection seat.old seat.new) }
    ensures keeps { Across KeepsSeat seat.old seat.new × Across KeepsSection seat.old seat.new }
    ensures due { IsTrue (begins_where_due (did seat.old seat.new)) }
    ensures pops { IsTrue (pops_where_paid (did seat.old seat.new)) }
    ensures unpopped { IfNone result (IsFalse (some_event pops (did seat.old seat.new))) }
    ensures numbers { Across (RoundNumbers result) seat.old seat.new }
    ensures few { IfNone result (length (did seat.old seat.new) ≤ 3 * block_count heap.now.shape + 5) }
    ensures longest { length (did seat.old seat.new) ≤ 3 * block_count heap.now.shape + 6 + payment_steps 1024 card_looks heap.now.shape }
{
    if stores_if_full(heap, seat, done) {
        return Some(Refill::Full);
    }
    if begins_or_ends(heap, seat) {
        return None;
    }
    try_claim(heap, seat, done)
}

fn try_claim(heap: &Heap, seat: &mut HeapSeat, done: u32) -> Option<Refill>
    requires seat { Sits heap.now seat.old × Mutates (view_of seat.old) }
    requires cache { (state_of seat.old).cache ≡ None }
    ensures seat { Sits heap.now seat.new }
    ensures plays { Across PlaysOn seat.old seat.new }
    ensures some { IfSome result (λ r. (u : View) → Ran u (view_of seat.old) → TellsFull u (view_of seat.old) → StoredAt done u (view_of seat.old) → IsPaced (events u (view_of seat.old)) (view_of seat.old) → RefillsTo r done u (view_of seat.new)) }
    ensures spares { IfSome result (λ r. Across (SparesRefill r) seat.old seat.new) }
    ensures none { IfNone result (Across FindsNoBlock seat.old seat.new) }
    ensures due { IsTrue (begins_where_due (did seat.old seat.new)) }
    ensures pops { IsTrue (pops_where_paid (did seat.old seat.new)) }
    ensures unpopped { IfNone result (IsFalse (some_event pops (did seat.old seat.new))) }
    ensures numbers { Across (RoundNumbers result) seat.old seat.new }
    ensures few { IfNone result (length (did seat.old seat.new) ≤ 3 * block_count heap.now.shape) }
    ensures longest { length (did seat.old seat.new) ≤ 3 * block_count heap.now.shape + 1 + payment_steps 1024 card_looks heap.now.shape }
{
    match claim(heap, seat) {
        None => None,
        Some(cache) => Some(pay_for(heap, seat, cache, done)),
    }
}
