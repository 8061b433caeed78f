//! A cache for a mutator that collects only in stops.
ghost use Rattle.std.specs.Prelude.{◌≡◌, None, IfSome, IsTrue};
ghost use Rattle.gc_table.specs.Log.{Only};
ghost use Rattle.gc_table.specs.Running.{Ran};
ghost use Rattle.gc_table.specs.Seats.{Across, did, Sits, state_of, view_of};
ghost use Rattle.gc_table.specs.declared.view.View.{View};
ghost use Rattle.alloc_cache.specs.Caching.{IsCached};
ghost use Rattle.gc_cycle.specs.Answering.{StoredAt, TellsFull, answers};
ghost use Rattle.cache_refills.specs.InStops.{FillsTo, HasSearched, begins_none};
ghost use Rattle.cache_refills.specs.Notices.{IsTold};
ghost use Rattle.cache_refills.specs.RefillRules.{KeepsRefillRules};
ghost use Rattle.cache_refills.specs.Refilling.{IsRound};
ghost use Rattle.gc_cycle.specs.Mutating.{pops_in_stops};
ghost use Rattle.gc_cycle.specs.Sparing.{SparesRefill};
ghost use Rattle.gc_cycle.specs.Standing.{Mutates};
ghost use Rattle.gc_cycle.specs.Statistics.{PaysNumbers, RoundNumbers};
ghost use Rattle.cache_refills.specs.Stops.{stops_in_visit, stops_with_cause};
ghost use Rattle.cache_refills.specs.Telling.{TellsStops};

use crate::refilling::{nothing_paid, refill_in_stop};
use crate::watching::Watch;
use alloc_cache::{Cache, claim};
use gc_cycle::{Refill, goes_on, spend_none};
use gc_table::{Heap, HeapSeat};
use std::sync::Wait;

/// [`refill`](crate::refill) without beginning a cycle or paying: all marking is done in stops. It is there to be
/// compared with a collector that marks beside the mutators. If another mutator has begun a cycle, the stop ends it.
pub fn refill_in_stops<R: Wait, W: Watch>(
    rt: &R,
    heap: &Heap,
    seat: &mut HeapSeat,
    done: u32,
    watch: &mut W,
) -> Refill
    requires seat { Sits heap.now seat.old × Mutates (view_of seat.old) }
    requires cache { (state_of seat.old).cache ≡ None }
    ensures seat { Sits heap.now seat.new }
    ensures rules { Across (KeepsRefillRules heap.now.shape result) seat.old seat.new }
    ensures fills { Across (FillsTo result done) seat.old seat.new }
    ensures pops { IsTrue (pops_in_stops (did seat.old seat.new)) }
    ensures unbegun { IsTrue (begins_none (did seat.old seat.new)) }
    ensures told { IsTold W.hears (λ ns. Across (TellsStops ns) seat.old seat.new) watch.old watch.new }
{
    for _ in rt.forever() {
        if let Some(refill) = fill_once(rt, heap, seat, done, watch) {
            return refill;
        }
    }
    unreachable!()
}

/// None: another seat's stop came first.
fn fill_once<R: Wait, W: Watch>(
    rt: &R,
    heap: &Heap,
    seat: &mut HeapSeat,
    done: u32,
    watch: &mut W,
) -> Option<Refill>
    requires seat { Sits heap.now seat.old × Mutates (view_of seat.old) }
    requires cache { (state_of seat.old).cache ≡ None }
    ensures seat { Sits heap.now seat.new }
    ensures round { Across (IsRound result done) seat.old seat.new }
    ensures numbers { Across (RoundNumbers result) seat.old seat.new }
    ensures stops { IsTrue (stops_with_cause heap.now.shape (did seat.old seat.new)) }
    ensures visit { IsTrue (stops_in_visit heap.now.shape (did seat.old seat.new)) }
    ensures pops { IsTrue (pops_in_stops (did seat.old seat.new)) }
    ensures unbegun { IsTrue (begins_none (did seat.old seat.new)) }
    ensures told { IsTold W.hears (λ ns. Across (TellsStops ns) seat.old seat.new) watch.old watch.new }
    ensures some { IfSome result (λ r. (u : View) → Ran u (view_of seat.old) → TellsFull u (view_of seat.old) → StoredAt done u (view_of seat.old) → FillsTo r done u (view_of seat.new)) }
{
    match claim(heap, seat) {
        None => refill_in_stop(rt, heap, seat, done, watch),
        Some(cache) => Some(keep_cache(heap, seat, cache, done)),
    }
}

fn keep_cache(heap: &Heap, seat: &mut HeapSeat, cache: Cache, done: u32) -> Refill
    requires seat { Sits heap.now seat.old × Mutates (view_of seat.old) }
    requires cache { IsCached cache (view_of seat.old) }
    ensures seat { Sits heap.now seat.new }
    ensures ran { Across Ran seat.old seat.new }
    ensures only { Across (Only answers) seat.old seat.new }
    ensures numbers { Across (PaysNumbers cache result) seat.old seat.new }
    ensures known { Across (SparesRefill result) seat.old seat.new }
    ensures fills { (u : View) → HasSearched cache done u (view_of seat.old) → FillsTo result done u (view_of seat.new) }
{
    let mut cache = Some(cache);
    if !goes_on(heap, seat, &mut cache, done) {
        spend_none(cache);
        return Refill::Full;
    }
    match cache {
        Some(kept) => Refill::Cache(kept, nothing_paid()),
        None => unreachable!(),
    }
}
