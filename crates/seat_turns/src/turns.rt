//! A mutator comes to its turn, and to a free cell.
ghost use Rattle.std.specs.Prelude.{◌≡◌, ◌<◌, true, false, None, Some, IfOk, IfErr};
ghost use Rattle.std.specs.Int.Count.{ones};
ghost use Rattle.gc_table.specs.Log.{Only};
ghost use Rattle.gc_cycle.specs.Answering.{retires};
ghost use Rattle.gc_table.specs.Running.{Ran};
ghost use Rattle.mutator_ops.specs.Few.{AtMost};
ghost use Rattle.gc_table.specs.Seats.{Across, state_of, view_of};
ghost use Rattle.alloc_cache.specs.Caching.{IsCached};
ghost use Rattle.cache_refills.specs.Notices.{IsTold};
ghost use Rattle.gc_cycle.specs.Answering.{HasCache};
ghost use Rattle.gc_cycle.specs.declared.counts.Refill.TheVariants as refills;
ghost use Rattle.seat_turns.specs.Coming.{ComesTo, ComesToNone, FillsOnce, FillsWith, GivesCache, Polls, RefillsBeside, RefillsInStops};
ghost use Rattle.seat_turns.specs.Halting.{EndsFullOrSpent, HaltsFull};
ghost use Rattle.seat_turns.specs.Sharing.{LeavesHeap};
ghost use Rattle.seat_turns.specs.Standing.{Halts, IsAtTurn, LacksFree, Plays, Works, plain_of};
ghost use Rattle.seat_turns.specs.Telling.{GoesUntold, TellsFill, TellsFills};

use crate::own_turn::is_turn;
use crate::refused::Refused;
use alloc_cache::{Cache, leave_with_seat};
use cache_refills::{Watch, refill_in_stops, refill_watched};
use gc_cycle::{Refill, Safe, safe_point};
use gc_table::{Heap, HeapSeat};
use std::sync::Wait;

/// The season in which the mutators play: section 0 has ended its turn.
pub const TURN: u64 = 1;

/// Gives a cache up, if there is one.
#[tactic(auto, using(crate::proofs::Leaving::leaving))]
pub fn retire_some(heap: &Heap, seat: &mut HeapSeat, cache: Option<Cache>)
    requires works { Works heap.now seat.old }
    requires cache { HasCache cache (view_of seat.old) }
    ensures halts { Halts heap.now seat.new }
    ensures only { Across (Only retires) seat.old seat.new }
    ensures same { plain_of seat.new ≡ plain_of seat.old }
    ensures leaves { Across LeavesHeap seat.old seat.new }
    ensures ran { Across Ran seat.old seat.new }
    ensures gives { Across (GivesCache cache) seat.old seat.new }
    ensures few { Across (AtMost 3) seat.old seat.new }
{
    gc_cycle::retire_some(heap, seat, cache);
}

/// Lets go of a cache that stays the seat's.
pub fn keep_some(cache: Option<Cache>) {
    if let Some(cache) = cache {
        leave_with_seat(cache);
    }
}

pub fn pass<R: Wait>(
    rt: &R,
    heap: &Heap,
    seat: &mut HeapSeat,
    cache: Option<Cache>,
) -> Result<Option<Cache>, Refused>
    requires works { Works heap.now seat.old }
    requires cache { HasCache cache (view_of seat.old) }
    ensures ok { IfOk result (λ kept. Plays heap.now seat.new × HasCache kept (view_of seat.new)) }
    ensures turn { IfOk result (λ _. IsAtTurn heap.now seat.new) }
    ensures err { IfErr result (λ e. HaltsFull e heap.now seat.new) }
    ensures same { plain_of seat.new ≡ plain_of seat.old }
    ensures leaves { Across LeavesHeap seat.old seat.new }
    ensures ran { Across Ran seat.old seat.new }
    ensures polls { IfOk result (λ kept. Across (Polls cache kept) seat.old seat.new) }
    ensures full { IfErr result (λ _. Across (Polls cache None) seat.old seat.new) }
    ensures untold { Across GoesUntold seat.old seat.new }
{
    let mut cache = cache;
    for _ in rt.forever() {
        let made = seat.state().made;
        match safe_point(rt, heap, seat, cache, made) {
            Safe::Full => return Err(Refused::Full),
            Safe::Going(kept) => {
                if is_turn(heap, seat, TURN) {
                    return Ok(kept);
                }
                cache = kept;
            }
        }
    }
    unreachable!()
}

fn fill_beside<R: Wait, W: Watch>(
    rt: &R,
    heap: &Heap,
    seat: &mut HeapSeat,
    watch: &mut W,
) -> Result<Option<Cache>, Refused>
    requires halts { Halts heap.now seat.old }
    ensures ok { IfOk result (λ kept. Works heap.now seat.new × HasCache kept (view_of seat.new)) }
    ensures err { IfErr result (λ e. HaltsFull e heap.now seat.new) }
    ensures same { plain_of seat.new ≡ plain_of seat.old }
    ensures leaves { Across LeavesHeap seat.old seat.new }
    ensures refilled { IfOk result (λ kept. Across (FillsWith (RefillsBeside heap.now.shape) kept) seat.old seat.new) }
    ensures full { IfErr result (λ _. Across (RefillsBeside heap.now.shape refills.Full) seat.old seat.new) }
    ensures told { IsTold W.hears (λ ns. Across (TellsFill false heap.now.shape ns) seat.old seat.new) watch.old watch.new }
{
    let made = seat.state().made;
    match refill_watched(rt, heap, seat, made, watch) {
        Refill::Cache(cache, _paid) => Ok(Some(cache)),
        Refill::Full => Err(Refused::Full),
    }
}

fn fill_in_stops<R: Wait, W: Watch>(
    rt: &R,
    heap: &Heap,
    seat: &mut HeapSeat,
    watch: &mut W,
) -> Result<Option<Cache>, Refused>
    requires halts { Halts heap.now seat.old }
    ensures ok { IfOk result (λ kept. Works heap.now seat.new × HasCache kept (view_of seat.new)) }
    ensures err { IfErr result (λ e. HaltsFull e heap.now seat.new) }
    ensures same { plain_of seat.new ≡ plain_of seat.old }
    ensures leaves { Across LeavesHeap seat.old seat.new }
    ensures refilled { IfOk result (λ kept. Across (FillsWith (RefillsInStops heap.now.shape) kept) seat.old seat.new) }
    ensures full { IfErr result (λ _. Across (RefillsInStops heap.now.shape refills.Full) seat.old seat.new) }
    ensures told { IsTold W.hears (λ ns. Across (TellsFill true heap.now.shape ns) seat.old seat.new) watch.old watch.new }
{
    let made = seat.state().made;
    match refill_in_stops(rt, heap, seat, made, watch) {
        Refill::Cache(cache, _paid) => Ok(Some(cache)),
        Refill::Full => Err(Refused::Full),
    }
}

fn fill<R: Wait, W: Watch>(
    rt: &R,
    heap: &Heap,
    seat: &mut HeapSeat,
    cache: Option<Cache>,
    in_stops: bool,
    watch: &mut W,
) -> Result<Option<Cache>, Refused>
    requires works { Works heap.now seat.old }
    requires cache { HasCache cache (view_of seat.old) }
    requires lacks { LacksFree cache }
    ensures ok { IfOk result (λ kept. Works heap.now seat.new × HasCache kept (view_of seat.new)) }
    ensures err { IfErr result (λ e. HaltsFull e heap.now seat.new) }
    ensures same { plain_of seat.new ≡ plain_of seat.old }
    ensures leaves { Across LeavesHeap seat.old seat.new }
    ensures fills { IfOk result (λ kept. Across (FillsWith (FillsOnce in_stops heap.now.shape cache) kept) seat.old seat.new) }
    ensures full { IfErr result (λ _. Across (FillsOnce in_stops heap.now.shape cache refills.Full) seat.old seat.new) }
    ensures told { IsTold W.hears (λ ns. Across (TellsFills in_stops heap.now.shape ns) seat.old seat.new) watch.old watch.new }
{
    retire_some(heap, seat, cache);
    if in_stops {
        fill_in_stops(rt, heap, seat, watch)
    } else {
        fill_beside(rt, heap, seat, watch)
    }
}

/// The cache, if it has a free cell.
pub fn with_free(cache: Option<Cache>) -> Result<Cache, Option<Cache>>
    ensures ok { IfOk result (λ free. (cache ≡ Some free) × (0 < ones free.cells)) }
    ensures lacks { IfErr result (λ none. LacksFree none) }
    ensures err { IfErr result (λ none. none ≡ cache) }
{
    match cache {
        Some(cache) => {
            if cache.free() == 0 {
                Err(Some(cache))
            } else {
                Ok(cache)
            }
        }
        None => Err(None),
    }
}

/// Comes to a cache with a free cell. A safe point follows each refill, since that may stop the world.
pub fn come_to<R: Wait, W: Watch>(
    rt: &R,
    heap: &Heap,
    seat: &mut HeapSeat,
    cache: Option<Cache>,
    in_stops: bool,
    watch: &mut W,
) -> Result<Cache, Refused>
    requires works { Works heap.now seat.old }
    requires cache { HasCache cache (view_of seat.old) }
    ensures ok { IfOk result (λ free. Plays heap.now seat.new × IsCached free (view_of seat.new)) }
    ensures free { IfOk result (λ free. 0 < ones free.cells) }
    ensures room { IfOk result (λ _. (state_of seat.new).made < heap.now.shape.objects) }
    ensures err { IfErr result (λ e. EndsFullOrSpent e heap.now seat.new) }
    ensures same { plain_of seat.new ≡ plain_of seat.old }
    ensures leaves { Across LeavesHeap seat.old seat.new }
    ensures comes { IfOk result (λ free. Across (ComesTo in_stops heap.now.shape cache (Some free)) seat.old seat.new) }
    ensures none { IfErr result (λ e. Across (ComesToNone e in_stops heap.now.shape cache) seat.old seat.new) }
    ensures told { IsTold W.hears (λ ns. Across (TellsFills in_stops heap.now.shape ns) seat.old seat.new) watch.old watch.new }
{
    let mut cache = cache;
    for _ in rt.forever() {
        match pass(rt, heap, seat, cache) {
            Err(full) => return Err(full),
            Ok(kept) => {
                if seat.state().made >= heap.shape().objects {
                    keep_some(kept);
                    return Err(Refused::Spent);
                }
                match with_free(kept) {
                    Ok(free) => return Ok(free),
                    Err(none) => match fill(rt, heap, seat, none, in_stops, watch) {
                        Err(full) => return Err(full),
                        Ok(next) => cache = next,
                    },
                }
            }
        }
    }
    unreachable!()
}
