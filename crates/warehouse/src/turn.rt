//! A mutator comes to its turn, and to a free cell.
ghost use Rattle.std.specs.Prelude.{ℕ, ◌≡◌, ◌⊎◌, Some, None, IsTrue, IsFalse};
ghost use Rattle.std.specs.Bool.{OnFalse, OnTrue};
ghost use Rattle.mark_core.specs.Seats.{has_turn, saw};
ghost use Rattle.mark_core.specs.declared.kinds.Phase.TheVariants.{Full};
ghost use Rattle.gc_table.specs.Seats.{Across, did, Sits, state_of, view_of};
ghost use Rattle.gc_cycle.specs.Answering.{GoesOn, HasCache};
ghost use Rattle.seat_turns.specs.SeasonLooks.{SeesOther};
ghost use Rattle.warehouse.specs.Playing.{FindsFull, GetsReady, GetsReadyWithOwn, Glances, HasFree, HasNoFree, ObjectsHaveCells, IsHindered, Stays, DoesNothing};
ghost use Rattle.gc_cycle.specs.Polling.{poll_found_stop};
ghost use Rattle.gc_cycle.specs.Standing.{Mutates};

use alloc_cache::Cache;
use cache_refills::refill;
use gc_cycle::{Refill, go_in, go_out, pass_safe_point, retire_some, spend_none};
use gc_table::{Heap, HeapSeat};
use mark_core::Phase;
use seat_turns::is_turn;
use std::sync::Wait;
use stop_world::poll;

/// It is called only if the season is another than the turn's.
#[cold]
#[inline(never)]
fn leave_and_enter<R: Wait>(
    rt: &R,
    heap: &Heap,
    seat: &mut HeapSeat,
    cache: &mut Option<Cache>,
    done: u32,
)
    requires seat { Sits heap.now seat.old × Mutates (view_of seat.old) }
    requires cache { HasCache cache.old (view_of seat.old) }
    requires other { (turn : ℕ) × SeesOther turn (view_of seat.old) }
    ensures seat { Sits heap.now seat.new × Mutates (view_of seat.new) }
    ensures cache { (state_of seat.new).cache ≡ None }
    ensures none { cache.new ≡ None }
    ensures stays { Across Stays seat.old seat.new }
    ensures acts { Across DoesNothing seat.old seat.new }
{
    retire_some(heap, seat, cache.take());
    go_out(heap, seat, done);
    go_in(rt, heap, seat);
}

fn is_full(phase: Phase) -> bool
    ensures { result ≡ saw (Some phase) Full }
{
    match phase {
        Phase::Full => true,
        _ => false,
    }
}

/// Whether no stop is under way and the heap isn't full. If not, the mutator still has a safe point to pass.
#[inline(always)]
fn sees_clear(heap: &Heap, seat: &mut HeapSeat) -> bool
    requires seat { Sits heap.now seat.old × Mutates (view_of seat.old) }
    ensures seat { Sits heap.now seat.new × Mutates (view_of seat.new) }
    ensures glances { Across Glances seat.old seat.new }
    ensures free { IsTrue result → IsFalse (poll_found_stop (did seat.old seat.new)) }
    ensures clear { IsTrue result → Across GoesOn seat.old seat.new }
    ensures hindered { OnFalse result (Across IsHindered seat.old seat.new) }
{
    if poll(heap, seat) {
        return false;
    }
    !is_full(heap.read_phase(seat))
}

/// Whether a command may be done at once, as it nearly always may. If not, the mutator only looked.
#[inline(always)]
pub(crate) fn is_ready(heap: &Heap, seat: &mut HeapSeat, turn: u64) -> bool
    requires seat { Sits heap.now seat.old × Mutates (view_of seat.old) }
    requires owned { IsFalse (view_of seat.old).shape.sharing }
    requires counted { ObjectsHaveCells (view_of seat.old) }
    requires turn { IsTrue (has_turn (state_of seat.old).section (Some turn)) }
    ensures seat { Sits heap.now seat.new × Mutates (view_of seat.new) }
    ensures cache { (state_of seat.new).cache ≡ (state_of seat.old).cache }
    ensures ready { IsTrue result → Across (GetsReadyWithOwn turn) seat.old seat.new }
    ensures late { OnFalse result (Across IsHindered seat.old seat.new ⊎ SeesOther turn (view_of seat.new)) }
    ensures stays { Across Stays seat.old seat.new }
    ensures waits { Across DoesNothing seat.old seat.new }
{
    if !sees_clear(heap, seat) {
        return false;
    }
    is_turn(heap, seat, turn)
}

/// Safe points, until the season is this turn's. False if the heap is full: then the cache is given up.
pub(crate) fn await_turn<R: Wait>(
    rt: &R,
    heap: &Heap,
    seat: &mut HeapSeat,
    cache: &mut Option<Cache>,
    turn: u64,
    done: u32,
) -> bool
    requires seat { Sits heap.now seat.old × Mutates (view_of seat.old) }
    requires cache { HasCache cache.old (view_of seat.old) }
    requires owned { IsFalse (view_of seat.old).shape.sharing }
    requires counted { ObjectsHaveCells (view_of seat.old) }
    requires turn { IsTrue (has_turn (state_of seat.old).section (Some turn)) }
    ensures seat { Sits heap.now seat.new }
    ensures ready { OnTrue result (Across (GetsReady turn cache.new) seat.old seat.new) }
    ensures full { OnFalse result (Across (FindsFull done) seat.old seat.new × (cache.new ≡ None)) }
    ensures unfilled { (view_of seat.new).own.full ≡ (view_of seat.old).own.full }
{
    for _ in rt.forever() {
        if !pass_safe_point(rt, heap, seat, cache, done) {
            return false;
        }
        if is_turn(heap, seat, turn) {
            return true;
        }
        leave_and_enter(rt, heap, seat, cache, done);
    }
    unreachable!()
}

pub(crate) fn has_free(cache: &Option<Cache>) -> bool
    ensures free { IsTrue result → HasFree cache.now }
    ensures none { OnFalse result (HasNoFree cache.now) }
{
    match cache {
        Some(cache) => cache.free() != 0,
        None => false,
    }
}

/// A cache is given up only if it has no free cell.
fn take_empty(cache: &mut Option<Cache>) -> Option<Cache>
    requires { HasNoFree cache.old }
    ensures value { result ≡ cache.old }
    ensures after { cache.new ≡ None }
{
    cache.take()
}

fn keep(place: &mut Option<Cache>, cache: Cache)
    requires { place.old ≡ None }
    ensures { place.new ≡ Some cache }
{
    spend_none(place.replace(cache));
}

/// As [`await_turn`], with a cell to make an object in.
pub(crate) fn await_cell<R: Wait>(
    rt: &R,
    heap: &Heap,
    seat: &mut HeapSeat,
    cache: &mut Option<Cache>,
    turn: u64,
    done: u32,
) -> bool
    requires seat { Sits heap.now seat.old × Mutates (view_of seat.old) }
    requires cache { HasCache cache.old (view_of seat.old) }
    requires owned { IsFalse (view_of seat.old).shape.sharing }
    requires counted { ObjectsHaveCells (view_of seat.old) }
    requires turn { IsTrue (has_turn (state_of seat.old).section (Some turn)) }
    ensures seat { Sits heap.now seat.new }
    ensures ready { OnTrue result (Across (GetsReady turn cache.new) seat.old seat.new × HasFree cache.new) }
    ensures full { OnFalse result (Across (FindsFull done) seat.old seat.new × (cache.new ≡ None)) }
{
    for _ in rt.forever() {
        if !await_turn(rt, heap, seat, cache, turn, done) {
            return false;
        }
        if has_free(cache) {
            return true;
        }
        retire_some(heap, seat, take_empty(cache));
        match refill(rt, heap, seat, done) {
            Refill::Full => return false,
            Refill::Cache(next, _) => keep(cache, next),
        }
    }
    unreachable!()
}
