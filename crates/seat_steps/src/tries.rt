//! Into the world, to the mutator's turn, and past a safe point, each as one try.
ghost use Rattle.std.specs.Prelude.{◌≡◌, ◌+◌, ◌<◌, IfErr, IfOk, IsTrue, is_some, None};
ghost use Rattle.std.specs.Bool.{OnFalse, OnTrue};
ghost use Rattle.gc_cycle.specs.Answering.{HasCache};
ghost use Rattle.cache_refills.specs.Trying.{EntersTo};
ghost use Rattle.gc_table.specs.Rule.{KnowsFull};
ghost use Rattle.gc_table.specs.Running.{Ran};
ghost use Rattle.gc_table.specs.Seats.{Across, Took, did, state_of, view_of};
ghost use Rattle.mark_core.specs.declared.kinds.Step.TheVariants.{ReadPhase};
ghost use Rattle.gc_cycle.specs.Polling.{saw_full};
ghost use Rattle.mutator_ops.specs.Few.{AtMost};
ghost use Rattle.seat_turns.specs.Coming.{FlushesFirst, LeavesTurn};
ghost use Rattle.seat_turns.specs.SeasonLooks.{LooksAtSeason, SeesOther};
ghost use Rattle.seat_turns.specs.Sharing.{LeavesHeap};
ghost use Rattle.seat_turns.specs.Standing.{Halts, HoldsTurn, HoldsWorld, IsMutatorOutside, Plays, Works, flush_steps, plain_of, saw_going};
ghost use Rattle.seat_steps.specs.Causes.{ArrivesBy, ComesBy, EntersBy, GoesFreely, LooksBy, LooksTo, PassesBy};
ghost use Rattle.seat_steps.specs.Pacing.{CarriesPace};
ghost use Rattle.seat_steps.specs.Arriving.{Arrives, HasLooked, HasLookedIn, HasPassed, LeavesWorld, Passes, Tries};

use crate::came::Came;
use alloc_cache::{Cache, cache_of};
use cache_refills::{Pass, try_enter, try_safe_point};
use gc_cycle::{reads_full, spend_none};
use gc_table::{Heap, HeapSeat};
use mark_core::Phase;
use seat_turns::{TURN, flush_turn, is_turn, leave, retire_some};
use stop_world::poll;

#[tactic(auto, using(seat_turns::proofs::Leaving::leaving, crate::proofs::Searched::trying))]
fn try_in(heap: &Heap, seat: &mut HeapSeat) -> Pass
    requires waits { IsMutatorOutside heap.now seat.old }
    ensures tries { Tries result heap.now seat.new }
    ensures same { plain_of seat.new ≡ plain_of seat.old }
    ensures leaves { Across LeavesHeap seat.old seat.new }
    ensures ran { Across Ran seat.old seat.new }
    ensures enters { Across (EntersTo result) seat.old seat.new }
    ensures few { Across (AtMost 2) seat.old seat.new }
    ensures paces { Across CarriesPace seat.old seat.new }
{
    try_enter(heap, seat)
}

#[tactic(auto, using(seat_turns::proofs::Leaving::leaving, crate::proofs::Searched::trying, crate::proofs::Found::looking))]
fn try_pass(heap: &Heap, seat: &mut HeapSeat, cache: &mut Option<Cache>) -> Pass
    requires works { Works heap.now seat.old }
    requires cache { HasCache cache.old (view_of seat.old) }
    ensures passes { Passes result heap.now seat.new cache.new }
    ensures same { plain_of seat.new ≡ plain_of seat.old }
    ensures leaves { Across LeavesHeap seat.old seat.new }
    ensures ran { Across Ran seat.old seat.new }
    ensures looks { Across (LooksBy result cache.old cache.new) seat.old seat.new }
    ensures few { Across (AtMost 6) seat.old seat.new }
    ensures paces { Across CarriesPace seat.old seat.new }
{
    let made = seat.state().made;
    try_safe_point(heap, seat, cache, made)
}

fn comes_to_turn(heap: &Heap, seat: &mut HeapSeat) -> bool
    requires going { HasPassed heap.now seat.old }
    ensures plays { OnTrue result (Plays heap.now seat.new) }
    ensures turn { OnTrue result (HoldsTurn heap.now seat.new) }
    ensures works { Works heap.now seat.new }
    ensures same { plain_of seat.new ≡ plain_of seat.old }
    ensures leaves { Across LeavesHeap seat.old seat.new }
    ensures looks { Across LooksAtSeason seat.old seat.new }
    ensures known { IsTrue (is_some (state_of seat.old).season_seen) → view_of seat.new ≡ view_of seat.old }
    ensures other { OnFalse result (SeesOther 1 (view_of seat.new)) }
{
    is_turn(heap, seat, TURN)
}

#[tactic(auto, using(seat_turns::proofs::Leaving::leaving))]
fn leave_with(heap: &Heap, seat: &mut HeapSeat, cache: Option<Cache>)
    requires works { Works heap.now seat.old }
    requires cache { HasCache cache (view_of seat.old) }
    ensures waits { IsMutatorOutside heap.now seat.new }
    ensures same { plain_of seat.new ≡ plain_of seat.old }
    ensures leaves { Across LeavesHeap seat.old seat.new }
    ensures ran { Across Ran seat.old seat.new }
    ensures full { KnowsFull (view_of seat.old) → KnowsFull (view_of seat.new) }
    ensures out { Across LeavesTurn seat.old seat.new }
    ensures few { Across (AtMost 5) seat.old seat.new }
    ensures paces { Across CarriesPace seat.old seat.new }
{
    retire_some(heap, seat, cache);
    leave(heap, seat);
}

/// Whether the phase is Full.
#[inline(always)]
fn finds_full(heap: &Heap, seat: &mut HeapSeat) -> bool
    requires holds { HoldsWorld heap.now seat.old }
    ensures holds { HoldsWorld heap.now seat.new }
    ensures read { Across (Took ReadPhase) seat.old seat.new }
    ensures full { OnTrue result (IsTrue (saw_full (did seat.old seat.new))) }
    ensures going { OnFalse result (IsTrue (saw_going (state_of seat.new).phase_seen)) }
{
    match heap.read_phase(seat) {
        Phase::Full => true,
        _ => false,
    }
}

/// Looks at the world and at the phase. Done: nothing hinders the mutator, which is at its turn still. It has only
/// looked, whatever it found.
#[inline(always)]
fn look(heap: &Heap, seat: &mut HeapSeat) -> Came
    requires turn { HoldsTurn heap.now seat.old }
    ensures looked { HasLooked result heap.now seat.new }
    ensures same { plain_of seat.new ≡ plain_of seat.old }
    ensures leaves { Across LeavesHeap seat.old seat.new }
    ensures ran { Across Ran seat.old seat.new }
    ensures looks { Across (LooksTo result) seat.old seat.new }
    ensures lags { flush_steps (view_of seat.new) ≡ flush_steps (view_of seat.old) }
{
    if poll(heap, seat) {
        return Came::Stopped;
    }
    if finds_full(heap, seat) {
        return Came::Full;
    }
    Came::Done
}

#[cold]
#[inline(never)]
fn leave_hindered(heap: &Heap, seat: &mut HeapSeat)
    requires holds { HoldsWorld heap.now seat.old }
    ensures waits { IsMutatorOutside heap.now seat.new }
    ensures same { plain_of seat.new ≡ plain_of seat.old }
    ensures leaves { Across LeavesHeap seat.old seat.new }
    ensures ran { Across Ran seat.old seat.new }
    ensures full { KnowsFull (view_of seat.old) → KnowsFull (view_of seat.new) }
    ensures out { Across (FlushesFirst LeavesTurn) seat.old seat.new }
    ensures few { Across (AtMost (flush_steps (view_of seat.old) + 5)) seat.old seat.new }
    ensures paces { Across CarriesPace seat.old seat.new }
{
    flush_turn(heap, seat);
    let cache = cache_of(seat);
    leave_with(heap, seat, cache);
}

pub fn point(heap: &Heap, seat: &mut HeapSeat, cache: Option<Cache>) -> Result<Option<Cache>, Came>
    requires works { Works heap.now seat.old }
    requires cache { HasCache cache (view_of seat.old) }
    ensures ok { IfOk result (λ kept. Plays heap.now seat.new × HasCache kept (view_of seat.new)) }
    ensures turn { IfOk result (λ _. HoldsTurn heap.now seat.new) }
    ensures err { IfErr result (λ came. LeavesWorld came heap.now seat.new) }
    ensures same { plain_of seat.new ≡ plain_of seat.old }
    ensures leaves { Across LeavesHeap seat.old seat.new }
    ensures ran { Across Ran seat.old seat.new }
    ensures freely { IfOk result (λ kept. (kept ≡ cache) × Across GoesFreely seat.old seat.new) }
    ensures found { IfErr result (λ came. Across (ArrivesBy came) seat.old seat.new) }
    ensures paces { Across CarriesPace seat.old seat.new }
{
    let mut cache = cache;
    match try_pass(heap, seat, &mut cache) {
        Pass::Out => {
            spend_none(cache);
            Err(Came::Stopped)
        }
        Pass::Full => {
            spend_none(cache);
            leave(heap, seat);
            Err(Came::Full)
        }
        Pass::Going => {
            if comes_to_turn(heap, seat) {
                return Ok(cache);
            }
            leave_with(heap, seat, cache);
            Err(Came::Stopped)
        }
    }
}

/// Looks at the world and at the phase, as a mutator without a cache. Done: nothing hinders it. It has only looked,
/// whatever it found.
fn look_in(heap: &Heap, seat: &mut HeapSeat) -> Came
    requires halts { Halts heap.now seat.old }
    ensures looked { HasLookedIn result heap.now seat.new }
    ensures same { plain_of seat.new ≡ plain_of seat.old }
    ensures leaves { Across LeavesHeap seat.old seat.new }
    ensures ran { Across Ran seat.old seat.new }
    ensures looks { Across (LooksTo result) seat.old seat.new }
{
    if poll(heap, seat) {
        return Came::Stopped;
    }
    if reads_full(heap, seat) {
        return Came::Full;
    }
    Came::Done
}

pub fn arrive(heap: &Heap, seat: &mut HeapSeat) -> Came
    requires halts { Halts heap.now seat.old }
    ensures arrives { Arrives result heap.now seat.new }
    ensures same { plain_of seat.new ≡ plain_of seat.old }
    ensures leaves { Across LeavesHeap seat.old seat.new }
    ensures ran { Across Ran seat.old seat.new }
    ensures found { Across (ArrivesBy result) seat.old seat.new }
    ensures came { Across (ComesBy result) seat.old seat.new }
    ensures paces { Across CarriesPace seat.old seat.new }
{
    match look_in(heap, seat) {
        Came::Done => {
            if comes_to_turn(heap, seat) {
                return Came::Done;
            }
            leave(heap, seat);
            Came::Stopped
        }
        other => {
            leave(heap, seat);
            other
        }
    }
}

pub fn enter_once(heap: &Heap, seat: &mut HeapSeat) -> Came
    requires waits { IsMutatorOutside heap.now seat.old }
    ensures arrives { Arrives result heap.now seat.new }
    ensures same { plain_of seat.new ≡ plain_of seat.old }
    ensures leaves { Across LeavesHeap seat.old seat.new }
    ensures found { Across (EntersBy result) seat.old seat.new }
    ensures paces { Across CarriesPace seat.old seat.new }
{
    match try_in(heap, seat) {
        Pass::Out => Came::Stopped,
        Pass::Full => {
            leave(heap, seat);
            Came::Full
        }
        Pass::Going => arrive(heap, seat),
    }
}

/// A safe point at its turn.
#[inline(always)]
pub fn pass_once(heap: &Heap, seat: &mut HeapSeat) -> Came
    requires turn { HoldsTurn heap.now seat.old }
    ensures arrives { Arrives result heap.now seat.new }
    ensures same { plain_of seat.new ≡ plain_of seat.old }
    ensures leaves { Across LeavesHeap seat.old seat.new }
    ensures ran { Across Ran seat.old seat.new }
    ensures found { Across (PassesBy result) seat.old seat.new }
    ensures paces { Across CarriesPace seat.old seat.new }
{
    match look(heap, seat) {
        Came::Done => Came::Done,
        other => {
            leave_hindered(heap, seat);
            other
        }
    }
}
