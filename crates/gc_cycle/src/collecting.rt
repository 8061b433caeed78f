//! Safe points, and collections that a mutator asks for.
ghost use Rattle.std.specs.Prelude.{[], List, ◌≡◌, ◌≢◌, ◌≤◌, ◌⊎◌, length, None, Some, IfNone, IfSome, IsFalse, IsTrue};
ghost use Rattle.std.specs.Bool.{OnFalse, OnTrue};
ghost use Rattle.mark_core.specs.Steps.MutatorSteps.{used_bits};
ghost use Rattle.mark_core.specs.declared.kinds.Phase.TheVariants.{Full};
ghost use Rattle.mark_core.specs.declared.kinds.Step.TheVariants.{ReadPhase};
ghost use Rattle.gc_table.specs.declared.view.Entry.{Entry};
ghost use Rattle.gc_table.specs.declared.view.View.{View};
ghost use Rattle.gc_table.specs.Rule.{KnowsFull};
ghost use Rattle.packet_pools.specs.Counts.{count_of};
ghost use Rattle.gc_cycle.specs.Events.{each_after, never};
ghost use Rattle.gc_table.specs.Seats.{Across, did, Sits, state_of, Took, view_of};
ghost use Rattle.packet_pools.specs.Seeking.{some_event};
ghost use Rattle.gc_table.specs.Log.{Only, steps_of};
ghost use Rattle.gc_table.specs.Running.{Ran};
ghost use Rattle.gc_cycle.specs.Answering.{AnswersTo, CollectsTo, EndsFull, GivesWay, GoesOn, HasCache, KeepsOn, SafeTo, TellsFull, answers, giving_up, retires, waits_helping};
ghost use Rattle.gc_cycle.specs.Collecting.{EndsStop, HoldsWorld, TriesAgain, spares_section};
ghost use Rattle.gc_cycle.specs.Cycles.{never_fills};
ghost use Rattle.gc_cycle.specs.Mutating.{holds_stop, is_in_stop, spares_blocks, works_in_stops};
ghost use Rattle.gc_cycle.specs.Polling.{poll_found_stop, saw_full};
ghost use Rattle.gc_cycle.specs.Sorts.{ends_cycle, polls, pops_or_clears, raises_flag, tries_marking};
ghost use Rattle.gc_cycle.specs.Sparing.{KnowsAnswer, spares_part};
ghost use Rattle.gc_cycle.specs.Standing.{KeepsSeat, KeepsSection, Mutates};
ghost use Rattle.gc_cycle.specs.Statistics.{ChangesBy, ChangesNumbers, GivesUp, cache_of};
ghost use Rattle.gc_cycle.specs.Turns.{HelpsInTurns};
ghost use Rattle.gc_cycle.specs.declared.counts.Safe.TheVariants as safes;

use crate::counts::Safe;
use crate::finishing::precise;
use crate::stopping::{go_in, go_out, stop};
use alloc_cache::{Cache, retire};
use gc_table::{Heap, HeapSeat};
use mark_core::Phase;
use std::sync::Wait;
use stop_world::{poll, resume};

/// A precise collection by a mutator without a cache, that has done `done` commands: of its own one cycle ends, and
/// then exactly the reachable cells are in use. If another seat's stop comes first it tries again. It pops cells
/// and cleans cards only in stops. Full: it read that the heap is full.
pub fn collect<R: Wait>(rt: &R, heap: &Heap, seat: &mut HeapSeat, done: u32) -> Safe
    requires seat { Sits heap.now seat.old × Mutates (view_of seat.old) }
    requires cache { (state_of seat.old).cache ≡ None }
    ensures seat { Sits heap.now seat.new }
    ensures ran { Across Ran seat.old seat.new }
    ensures collects { Across (CollectsTo result done) seat.old seat.new }
    ensures once { count_of raises_flag (did seat.old seat.new) ≤ 1 }
    ensures cycles { count_of ends_cycle (did seat.old seat.new) ≤ 1 }
    ensures not_full { IsTrue (never_fills (did seat.old seat.new)) }
    ensures keeps { Across KeepsSeat seat.old seat.new × Across KeepsSection seat.old seat.new }
    ensures spares { Across (Only spares_part) seat.old seat.new }
    ensures numbers { Across (ChangesNumbers []) seat.old seat.new }
    ensures unbegun { IsTrue (never tries_marking (did seat.old seat.new)) }
    ensures pops { IsTrue (works_in_stops (did seat.old seat.new)) }
    ensures known { KnowsAnswer result (view_of seat.new) }
{
    for _ in rt.forever() {
        if let Some(safe) = collect_once(rt, heap, seat, done) {
            return safe;
        }
    }
    unreachable!()
}

/// None: another seat's stop came first.
fn collect_once<R: Wait>(rt: &R, heap: &Heap, seat: &mut HeapSeat, done: u32) -> Option<Safe>
    requires seat { Sits heap.now seat.old × Mutates (view_of seat.old) }
    requires cache { (state_of seat.old).cache ≡ None }
    ensures seat { Sits heap.now seat.new }
    ensures ran { Across Ran seat.old seat.new }
    ensures none { IfNone result (Across (TriesAgain done) seat.old seat.new) }
    ensures some { IfSome result (λ safe. (u : View) → Ran u (view_of seat.old) → TellsFull u (view_of seat.old) → CollectsTo safe done u (view_of seat.new)) }
    ensures once { count_of raises_flag (did seat.old seat.new) ≤ 1 }
    ensures cycles { count_of ends_cycle (did seat.old seat.new) ≤ 1 }
    ensures only { Across (Only spares_section) seat.old seat.new }
    ensures numbers { Across (ChangesNumbers []) seat.old seat.new }
    ensures unbegun { IsTrue (never tries_marking (did seat.old seat.new)) }
    ensures pops { IsTrue (works_in_stops (did seat.old seat.new)) }
    ensures known { IfSome result (λ safe. KnowsAnswer safe (view_of seat.new)) }
{
    if stores_if_full(heap, seat, done) {
        return Some(Safe::Full);
    }
    if !stop(rt, heap, seat, done) {
        return None;
    }
    collect_in_stop(rt, heap, seat);
    if stores_if_full(heap, seat, done) {
        return Some(Safe::Full);
    }
    Some(Safe::Going(None))
}

fn collect_in_stop<R: Wait>(rt: &R, heap: &Heap, seat: &mut HeapSeat)
    requires seat { Sits heap.now seat.old }
    requires stopped { HoldsWorld (view_of seat.old) }
    ensures seat { Sits heap.now seat.new × Mutates (view_of seat.new) }
    ensures ends { Across EndsStop seat.old seat.new }
    ensures numbers { Across (ChangesNumbers []) seat.old seat.new }
    ensures unbegun { IsTrue (never tries_marking (did seat.old seat.new)) }
    ensures pops { (before : List Entry) → IsTrue (holds_stop before) → IsTrue (each_after is_in_stop pops_or_clears before (did seat.old seat.new)) }
{
    if has_seen_full(seat) {
        resume(heap, seat);
        return;
    }
    precise(rt, heap, seat);
    resume(heap, seat);
}

pub(crate) fn has_seen_full(seat: &HeapSeat) -> bool
    ensures seen { OnTrue result ((state_of seat.now).phase_seen ≡ Some Full) }
    ensures other { OnFalse result ((state_of seat.now).phase_seen ≢ Some Full) }
{
    match seat.state().phase_seen {
        Some(Phase::Full) => true,
        _ => false,
    }
}

/// A safe point of a mutator that has done `done` commands. If a stop is under way it gives its cache up, leaves
/// until the stop has ended, and helps. If none is it takes two steps, and pops no cell. Full: it read that the heap
/// is full; then it takes four more at most.
pub fn safe_point<R: Wait>(
    rt: &R,
    heap: &Heap,
    seat: &mut HeapSeat,
    cache: Option<Cache>,
    done: u32,
) -> Safe
    requires seat { Sits heap.now seat.old × Mutates (view_of seat.old) }
    requires cache { HasCache cache (view_of seat.old) }
    ensures seat { Sits heap.now seat.new }
    ensures ran { Across Ran seat.old seat.new }
    ensures safe { Across (SafeTo result cache done) seat.old seat.new }
    ensures polled { IsTrue (some_event polls (did seat.old seat.new)) }
    ensures calm { IsTrue (never raises_flag (did seat.old seat.new)) }
    ensures apart { Across (Only spares_blocks) seat.old seat.new }
    ensures helping { IsTrue (waits_helping (did seat.old seat.new)) }
    ensures helps { Across HelpsInTurns seat.old seat.new }
    ensures pops { IsTrue (works_in_stops (did seat.old seat.new)) }
    ensures few { IsFalse (poll_found_stop (did seat.old seat.new)) → length (did seat.old seat.new) ≤ 6 }
    ensures not_full { IsTrue (never_fills (did seat.old seat.new)) }
    ensures keeps { Across KeepsSeat seat.old seat.new × Across KeepsSection seat.old seat.new }
    ensures spares { Across (Only spares_part) seat.old seat.new }
    ensures numbers { Across (GivesUp cache (cache_of result)) seat.old seat.new }
    ensures unbegun { IsTrue (never tries_marking (did seat.old seat.new)) }
    ensures known { KnowsAnswer result (view_of seat.new) }
{
    let mut cache = cache;
    if pass_safe_point(rt, heap, seat, &mut cache, done) {
        return Safe::Going(cache);
    }
    spend_none(cache);
    Safe::Full
}

/// [`safe_point`] with the cache lent. False: the heap is full, and the mutator has no cache.
#[inline(always)]
pub fn pass_safe_point<R: Wait>(
    rt: &R,
    heap: &Heap,
    seat: &mut HeapSeat,
    cache: &mut Option<Cache>,
    done: u32,
) -> bool
    requires seat { Sits heap.now seat.old × Mutates (view_of seat.old) }
    requires cache { HasCache cache.old (view_of seat.old) }
    ensures seat { Sits heap.now seat.new }
    ensures ran { Across Ran seat.old seat.new }
    ensures going { OnTrue result (Across (SafeTo (safes.Going cache.new) cache.old done) seat.old seat.new) }
    ensures full { OnFalse result (Across (SafeTo safes.Full cache.old done) seat.old seat.new × KnowsFull (view_of seat.new) × (cache.new ≡ None)) }
    ensures polled { IsTrue (some_event polls (did seat.old seat.new)) }
    ensures calm { IsTrue (never raises_flag (did seat.old seat.new)) }
    ensures apart { Across (Only spares_blocks) seat.old seat.new }
    ensures helping { IsTrue (waits_helping (did seat.old seat.new)) }
    ensures helps { Across HelpsInTurns seat.old seat.new }
    ensures pops { IsTrue (works_in_stops (did seat.old seat.new)) }
    ensures few { IsFalse (poll_found_stop (did seat.old seat.new)) → length (did seat.old seat.new) ≤ 6 }
    ensures not_full { IsTrue (never_fills (did seat.old seat.new)) }
    ensures keeps { Across KeepsSeat seat.old seat.new × Across KeepsSection seat.old seat.new }
    ensures spares { Across (Only spares_part) seat.old seat.new }
    ensures numbers { Across (GivesUp cache.old cache.new) seat.old seat.new }
    ensures unbegun { IsTrue (never tries_marking (did seat.old seat.new)) }
{
    give_way(rt, heap, seat, cache, done);
    goes_on(heap, seat, cache, done)
}

#[inline(always)]
fn give_way<R: Wait>(rt: &R, heap: &Heap, seat: &mut HeapSeat, cache: &mut Option<Cache>, done: u32)
    requires seat { Sits heap.now seat.old × Mutates (view_of seat.old) }
    requires cache { HasCache cache.old (view_of seat.old) }
    ensures seat { Sits heap.now seat.new × Mutates (view_of seat.new) }
    ensures gives { Across (GivesWay cache.old cache.new done) seat.old seat.new }
    ensures apart { Across (Only spares_blocks) seat.old seat.new }
    ensures numbers { Across (GivesUp cache.old cache.new) seat.old seat.new }
{
    if !poll(heap, seat) {
        return;
    }
    retire_some(heap, seat, cache.take());
    go_out(heap, seat, done);
    go_in(rt, heap, seat);
}

/// Whether a mutator goes on, with its cache. If the heap is full it gives the cache up and stores its position.
#[inline(always)]
pub fn goes_on(heap: &Heap, seat: &mut HeapSeat, cache: &mut Option<Cache>, done: u32) -> bool
    requires seat { Sits heap.now seat.old × Mutates (view_of seat.old) }
    requires cache { HasCache cache.old (view_of seat.old) }
    ensures seat { Sits heap.now seat.new × Mutates (view_of seat.new) }
    ensures ran { Across Ran seat.old seat.new }
    ensures only { Across (Only answers) seat.old seat.new }
    ensures numbers { Across (GivesUp cache.old cache.new) seat.old seat.new }
    ensures going { OnTrue result (Across (AnswersTo (safes.Going cache.new) cache.old done) seat.old seat.new) }
    ensures full { OnFalse result (Across (AnswersTo safes.Full cache.old done) seat.old seat.new × (cache.new ≡ None)) }
    ensures few { length (did seat.old seat.new) ≤ 5 }
{
    if !reads_full(heap, seat) {
        return true;
    }
    retire_some(heap, seat, cache.take());
    heap.store_position(seat, done);
    false
}

/// Takes a cache that isn't there: a [`Cache`] can't be dropped.
pub fn spend_none(cache: Option<Cache>)
    requires { cache ≡ None }
{
    match cache {
        None => (),
        Some(_) => unreachable!(),
    }
}

/// Whether the heap is full. If so the mutator, which has no cache, stores its position.
pub fn stores_if_full(heap: &Heap, seat: &mut HeapSeat, done: u32) -> bool
    requires seat { Sits heap.now seat.old × Mutates (view_of seat.old) }
    requires cache { (state_of seat.old).cache ≡ None }
    ensures seat { Sits heap.now seat.new × Mutates (view_of seat.new) }
    ensures ran { Across Ran seat.old seat.new }
    ensures only { Across (Only answers) seat.old seat.new }
    ensures numbers { Across (ChangesBy []) seat.old seat.new }
    ensures full { OnTrue result (Across (EndsFull done) seat.old seat.new × KnowsFull (view_of seat.new)) }
    ensures going { OnFalse result (Across (KeepsOn None None) seat.old seat.new) }
    ensures few { length (did seat.old seat.new) ≤ 2 }
{
    if !reads_full(heap, seat) {
        return false;
    }
    heap.store_position(seat, done);
    true
}

/// Whether the heap is full, as a mutator reads it.
#[inline(always)]
pub fn reads_full(heap: &Heap, seat: &mut HeapSeat) -> bool
    requires seat { Sits heap.now seat.old × Mutates (view_of seat.old) }
    ensures seat { Sits heap.now seat.new × Mutates (view_of seat.new) }
    ensures read { Across (Took ReadPhase) seat.old seat.new }
    ensures full { OnTrue result (((state_of seat.new).phase_seen ≡ Some Full) × IsTrue (saw_full (did seat.old seat.new))) }
    ensures going { OnFalse result ((u : View) → Ran u (view_of seat.old) → TellsFull u (view_of seat.old) → GoesOn u (view_of seat.new)) }
{
    match heap.read_phase(seat) {
        Phase::Full => true,
        _ => false,
    }
}

/// Gives a cache up, if there is one: in two steps, and one more if objects in it aren't published yet.
#[cold]
#[inline(never)]
pub fn retire_some(heap: &Heap, seat: &mut HeapSeat, cache: Option<Cache>)
    requires seat { Sits heap.now seat.old × Mutates (view_of seat.old) }
    requires cache { HasCache cache (view_of seat.old) }
    ensures seat { Sits heap.now seat.new × Mutates (view_of seat.new) }
    ensures ran { Across Ran seat.old seat.new }
    ensures only { Across (Only retires) seat.old seat.new }
    ensures numbers { Across (GivesUp cache None) seat.old seat.new }
    ensures steps { steps_of (did seat.old seat.new) ≡ giving_up cache (used_bits (state_of seat.old).cache) }
    ensures few { length (did seat.old seat.new) ≤ 3 }
    ensures state { state_of seat.new ≡ record (state_of seat.old) { cache = None } }
    ensures own { (view_of seat.new).own ≡ (view_of seat.old).own }
{
    if let Some(cache) = cache {
        retire(heap, seat, cache);
    }
}
