//! A cache for a mutator, in rounds.
ghost use Rattle.std.specs.Prelude.{◌≡◌, ◌≤◌, [], length, None, Some, IfSome, IsTrue, ◌+◌};
ghost use Rattle.std.specs.Bool.{OnFalse, OnTrue};
ghost use Rattle.mark_core.specs.Places.{the_phase};
ghost use Rattle.mark_core.specs.Seats.{phase_number};
ghost use Rattle.mark_core.specs.declared.kinds.Phase.TheVariants.{Full, Idle, Marking};
ghost use Rattle.gc_table.specs.Log.{Only, events};
ghost use Rattle.gc_table.specs.Running.{Known, Ran};
ghost use Rattle.gc_table.specs.Seats.{Across, did, Sits, state_of, view_of};
ghost use Rattle.gc_table.specs.declared.view.View.{View};
ghost use Rattle.alloc_cache.specs.Caching.{IsCached};
ghost use Rattle.cache_refills.specs.Getting.{RefillsTo};
ghost use Rattle.gc_cycle.specs.declared.counts.Refill.TheVariants as refills;
ghost use Rattle.gc_cycle.specs.Answering.{StoredAt, TellsFull};
ghost use Rattle.gc_cycle.specs.Events.{each_after, never};
ghost use Rattle.gc_cycle.specs.Sorts.{comes_in, raises_flag};
ghost use Rattle.cache_refills.specs.InStops.{begins_none};
ghost use Rattle.gc_cycle.specs.Mutating.{pops_in_stops, stays_calm};
ghost use Rattle.cache_refills.specs.Pace.Pacing.{begins_where_due, card_looks};
ghost use Rattle.cache_refills.specs.Pace.Paying.{IsFree, pops_where_paid};
ghost use Rattle.cache_refills.specs.Notices.{IsTold};
ghost use Rattle.cache_refills.specs.RefillRules.{KeepsRefillRules};
ghost use Rattle.cache_refills.specs.Refilling.{HasClaimed, IsPaced, IsRound, SeesEnd, looks_for_end, prepares};
ghost use Rattle.gc_cycle.specs.Sparing.{SparesRefill};
ghost use Rattle.gc_cycle.specs.Standing.{Mutates};
ghost use Rattle.gc_cycle.specs.Statistics.{ChangesBy, PaysNumbers, RoundNumbers};
ghost use Rattle.cache_refills.specs.Stops.{stops_in_visit, stops_with_cause};
ghost use Rattle.cache_refills.specs.Pace.StepBounds.{payment_steps};
ghost use Rattle.cache_refills.specs.Telling.{IsInside, TellsRefill, TellsRound, TellsStops, payment};

use crate::claiming::claim_in_stop;
use crate::pace::kick_off;
use crate::paying::pay;
use crate::watching::{Unwatched, Watch};
use alloc_cache::{Cache, claim, retire};
use gc_cycle::{Paid, Refill, goes_on, spend_none, stop, stores_if_full};
use gc_table::{Heap, HeapSeat};
use mark_core::{CARD_CELLS, CARD_COUNTER, Phase};
use packet_pools::all_empty;
use std::sync::Wait;
use stop_world::resume;
use tracer::Stopped;

pub(crate) fn nothing_paid() -> Paid
    ensures { IsFree result }
{
    Paid {
        quota: 0,
        done: 0,
        stopped: Stopped::Quota,
    }
}

/// A cache for a mutator without one, that has done `done` commands. While a cycle is marking it pays for it
/// ([`quota_of`](crate::quota_of)).
///
/// The world is stopped only if no block has a free cell, or marking is done, and once more only if a collection
/// left a cell free. Full: the phase said so, or a precise collection in the call's own stop left no cell free.
pub fn refill<R: Wait>(rt: &R, heap: &Heap, seat: &mut HeapSeat, done: u32) -> Refill
    requires seat { Sits heap.now seat.old × Mutates (view_of seat.old) }
    requires cache { (state_of seat.old).cache ≡ None }
    ensures seat { Sits heap.now seat.new }
    ensures rules { Across (KeepsRefillRules heap.now.shape result) seat.old seat.new }
    ensures refills { Across (RefillsTo result done) seat.old seat.new }
    ensures pops { IsTrue (pops_where_paid (did seat.old seat.new)) }
    ensures due { IsTrue (begins_where_due (did seat.old seat.new)) }
{
    refill_watched(rt, heap, seat, done, &mut Unwatched)
}

/// [`refill`], and `watch` is told of each stop that the call makes.
pub fn refill_watched<R: Wait, W: Watch>(
    rt: &R,
    heap: &Heap,
    seat: &mut HeapSeat,
    done: u32,
    watch: &mut W,
) -> Refill
    requires seat { Sits heap.now seat.old × Mutates (view_of seat.old) }
    requires cache { (state_of seat.old).cache ≡ None }
    ensures seat { Sits heap.now seat.new }
    ensures rules { Across (KeepsRefillRules heap.now.shape result) seat.old seat.new }
    ensures refills { Across (RefillsTo result done) seat.old seat.new }
    ensures pops { IsTrue (pops_where_paid (did seat.old seat.new)) }
    ensures due { IsTrue (begins_where_due (did seat.old seat.new)) }
    ensures told { IsTold W.hears (λ ns. Across (TellsRefill result ns) seat.old seat.new) watch.old watch.new }
{
    for _ in rt.forever() {
        if let Some(refill) = refill_once(rt, heap, seat, done, watch) {
            return refill;
        }
    }
    unreachable!()
}

/// None: another seat's stop came first.
fn refill_once<R: Wait, W: Watch>(
    rt: &R,
    heap: &Heap,
    seat: &mut HeapSeat,
    done: u32,
    watch: &mut W,
) -> Option<Refill>
    requires seat { Sits heap.now seat.old × Mutates (view_of seat.old) }
    requires cache { (state_of seat.old).cache ≡ None }
    ensures seat { Sits heap.now seat.new }
    ensures round { Across (IsRound result done) seat.old seat.new }
    ensures numbers { Across (RoundNumbers result) seat.old seat.new }
    ensures stops { IsTrue (stops_with_cause heap.now.shape (did seat.old seat.new)) }
    ensures visit { IsTrue (stops_in_visit heap.now.shape (did seat.old seat.new)) }
    ensures pops { IsTrue (pops_where_paid (did seat.old seat.new)) }
    ensures due { IsTrue (begins_where_due (did seat.old seat.new)) }
    ensures some { IfSome result (λ r. (u : View) → Ran u (view_of seat.old) → TellsFull u (view_of seat.old) → StoredAt done u (view_of seat.old) → RefillsTo r done u (view_of seat.new)) }
    ensures told { IsTold W.hears (λ ns. Across (TellsRound result ns) seat.old seat.new) watch.old watch.new }
{
    if stores_if_full(heap, seat, done) {
        return Some(Refill::Full);
    }
    if sees_to_cycle(heap, seat) {
        return refill_in_stop(rt, heap, seat, done, watch);
    }
    claim_or_stop(rt, heap, seat, done, watch)
}

/// Begins a cycle, if the phase was read as Idle and one is due. The answer: whether marking is done.
fn sees_to_cycle(heap: &Heap, seat: &mut HeapSeat) -> bool
    requires seat { Sits heap.now seat.old × Mutates (view_of seat.old) }
    requires marking { (state_of seat.old).phase_seen ≡ Some Marking → Known (view_of seat.old) the_phase (phase_number Marking) }
    ensures seat { Sits heap.now seat.new × Mutates (view_of seat.new) }
    ensures ran { Across Ran seat.old seat.new }
    ensures only { Across (Only prepares) seat.old seat.new }
    ensures numbers { Across (ChangesBy []) seat.old seat.new }
    ensures cache { (state_of seat.new).cache ≡ (state_of seat.old).cache }
    ensures done { OnTrue result (((state_of seat.old).phase_seen ≡ Some Marking) × SeesEnd heap.now.shape (did seat.old seat.new)) }
    ensures due { IsTrue (begins_where_due (did seat.old seat.new)) }
    ensures paced { OnFalse result (IsPaced (did seat.old seat.new) (view_of seat.new)) }
{
    if has_seen_marking(seat) {
        return marking_is_done(heap, seat);
    }
    kick_off(heap, seat);
    false
}

pub(crate) fn has_seen_marking(seat: &HeapSeat) -> bool
    ensures seen { OnTrue result ((state_of seat.now).phase_seen ≡ Some Marking) }
{
    match seat.state().phase_seen {
        Some(Phase::Marking) => true,
        _ => false,
    }
}

fn claim_or_stop<R: Wait, W: Watch>(
    rt: &R,
    heap: &Heap,
    seat: &mut HeapSeat,
    done: u32,
    watch: &mut W,
) -> Option<Refill>
    requires seat { Sits heap.now seat.old × Mutates (view_of seat.old) }
    requires cache { (state_of seat.old).cache ≡ None }
    ensures seat { Sits heap.now seat.new }
    ensures round { Across (IsRound result done) seat.old seat.new }
    ensures numbers { Across (RoundNumbers result) seat.old seat.new }
    ensures stops { IsTrue (stops_with_cause heap.now.shape (did seat.old seat.new)) }
    ensures visit { IsTrue (stops_in_visit heap.now.shape (did seat.old seat.new)) }
    ensures pops { IsTrue (pops_where_paid (did seat.old seat.new)) }
    ensures due { IsTrue (begins_where_due (did seat.old seat.new)) }
    ensures some { IfSome result (λ r. (u : View) → Ran u (view_of seat.old) → TellsFull u (view_of seat.old) → StoredAt done u (view_of seat.old) → IsPaced (events u (view_of seat.old)) (view_of seat.old) → RefillsTo r done u (view_of seat.new)) }
    ensures told { IsTold W.hears (λ ns. Across (TellsRound result ns) seat.old seat.new) watch.old watch.new }
{
    match claim(heap, seat) {
        None => refill_in_stop(rt, heap, seat, done, watch),
        Some(cache) => {
            let refill = pay_for(heap, seat, cache, done);
            tell_paid(&refill, watch);
            Some(refill)
        }
    }
}

fn tell_paid<W: Watch>(refill: &Refill, watch: &mut W)
    ensures { IsTold W.hears (λ ns. ns ≡ payment refill.now) watch.old watch.new }
{
    match refill {
        Refill::Cache(_, paid) => watch.pays(*paid),
        Refill::Full => {}
    }
}

/// Whether marking is done, but for what mutators still do.
pub(crate) fn marking_is_done(heap: &Heap, seat: &mut HeapSeat) -> bool
    requires seat { Sits heap.now seat.old × Mutates (view_of seat.old) }
    ensures seat { Sits heap.now seat.new × Mutates (view_of seat.new) }
    ensures ran { Across Ran seat.old seat.new }
    ensures only { Across (Only looks_for_end) seat.old seat.new }
    ensures cache { (state_of seat.new).cache ≡ (state_of seat.old).cache }
    ensures done { IsTrue result → SeesEnd heap.now.shape (did seat.old seat.new) }
    ensures few { length (did seat.old seat.new) ≤ 2 }
{
    let seen = heap.read_stat(seat, CARD_COUNTER);
    if seen < u64::from(heap.shape().cells / CARD_CELLS) {
        return false;
    }
    all_empty(heap, seat)
}

pub(crate) fn pay_for(heap: &Heap, seat: &mut HeapSeat, cache: Cache, done: u32) -> Refill
    requires seat { Sits heap.now seat.old × Mutates (view_of seat.old) }
    requires cache { IsCached cache (view_of seat.old) }
    ensures seat { Sits heap.now seat.new }
    ensures ran { Across Ran seat.old seat.new }
    ensures only { Across (Only stays_calm) seat.old seat.new }
    ensures inside { IsTrue (never comes_in (did seat.old seat.new)) }
    ensures numbers { Across (PaysNumbers cache result) seat.old seat.new }
    ensures known { Across (SparesRefill result) seat.old seat.new }
    ensures few { result ≡ refills.Full → length (did seat.old seat.new) ≤ 5 }
    ensures refills { (u : View) → HasClaimed cache done u (view_of seat.old) → RefillsTo result done u (view_of seat.new) }
    ensures longest { length (did seat.old seat.new) ≤ 1 + payment_steps 1024 card_looks heap.now.shape }
{
    match heap.read_phase(seat) {
        Phase::Full => {
            retire(heap, seat, cache);
            heap.store_position(seat, done);
            Refill::Full
        }
        Phase::Marking => {
            let paid = pay(heap, seat, cache.free());
            Refill::Cache(cache, paid)
        }
        _ => Refill::Cache(cache, nothing_paid()),
    }
}

/// If another seat's flag is up it waits, and has no answer.
pub(crate) fn refill_in_stop<R: Wait, W: Watch>(
    rt: &R,
    heap: &Heap,
    seat: &mut HeapSeat,
    done: u32,
    watch: &mut W,
) -> Option<Refill>
    requires seat { Sits heap.now seat.old × Mutates (view_of seat.old) }
    requires cache { (state_of seat.old).cache ≡ None }
    ensures seat { Sits heap.now seat.new }
    ensures round { Across (IsRound result done) seat.old seat.new }
    ensures numbers { Across (RoundNumbers result) seat.old seat.new }
    ensures some { IfSome result (λ r. (u : View) → Ran u (view_of seat.old) → TellsFull u (view_of seat.old) → StoredAt done u (view_of seat.old) → RefillsTo r done u (view_of seat.new)) }
    ensures unbegun { IsTrue (begins_none (did seat.old seat.new)) }
    ensures outside { IsTrue (each_after (never comes_in) raises_flag [] (did seat.old seat.new)) }
    ensures pops { IsTrue (pops_in_stops (did seat.old seat.new)) }
    ensures told { IsTold W.hears (λ ns. Across (TellsStops ns) seat.old seat.new) watch.old watch.new }
    ensures inside { IsInside result (did seat.old seat.new) }
{
    watch.asks();
    if !stop(rt, heap, seat, done) {
        return None;
    }
    let mut cache = claim_in_stop(rt, heap, seat, watch);
    resume(heap, seat);
    watch.resumes();
    if !goes_on(heap, seat, &mut cache, done) {
        spend_none(cache);
        return Some(Refill::Full);
    }
    match cache {
        Some(kept) => Some(Refill::Cache(kept, nothing_paid())),
        None => None,
    }
}
