//! The drain marks what the mutators left, first with helpers and then alone.
ghost use Rattle.std.specs.Prelude.{ℕ, ◌≡◌, ◌<◌, ◌+◌, ◌⊎◌, [], ◌∷◌, min, IsTrue};
ghost use Rattle.mark_core.specs.Numbers.{card_counter, empty_offset};
ghost use Rattle.mark_core.specs.Seats.{phase_number};
ghost use Rattle.mark_core.specs.declared.kinds.Phase.{Phase};
ghost use Rattle.mark_core.specs.declared.kinds.Phase.TheVariants.{Idle, Marking, Drain, Sweep};
ghost use Rattle.mark_core.specs.declared.kinds.Step.TheVariants.{Reset, StorePhase};
ghost use Rattle.gc_table.specs.Seats.{Across, did, Sits, state_of, view_of};
ghost use Rattle.packet_pools.specs.Seeking.{some_event};
ghost use Rattle.gc_table.specs.Log.{event, events};
ghost use Rattle.gc_table.specs.Running.{Ran};
ghost use Rattle.card_clean.specs.Leaving.{rescanned_in};
ghost use Rattle.gc_cycle.specs.DrainRounds.{BringsAtLast, DrainsAlone, DrainsTogether};
ghost use Rattle.gc_cycle.specs.Drained.{DrainedAlone};
ghost use Rattle.gc_cycle.specs.Finishing.{DrainsInStop, IsAloneIn, IsMove, most};
ghost use Rattle.gc_cycle.specs.LeftToDrain.{Shrinks, UsesUp};
ghost use Rattle.gc_cycle.specs.Lower.{HasTraced};
ghost use Rattle.gc_cycle.specs.Sorts.{sees_all_empty as says_all_empty};
ghost use Rattle.gc_cycle.specs.RoundParts.{BringsBack, CleansLast};
ghost use Rattle.gc_cycle.specs.Turns.{DrainsFor, SeesToRoots, round_quota};

use crate::cards::{clean_dirty, clean_dirty_round, is_drained};
use crate::roots::{scan_roots, see_to_roots};
use crate::tracing::{recycle_deferred, sees_all_empty, trace};
use gc_table::{Heap, HeapSeat};
use mark_core::{BLOCK_COUNTER, CARD_COUNTER, Phase as CyclePhase};
use std::sync::Wait;
use std::thread;
use stop_world::{close_help, open_help};

/// How many objects a round of the drain pops at most: all there are, since each round ends with a pass over all
/// cards.
const ROUND: u32 = u32::MAX;

pub(crate) fn begin_drain(heap: &Heap, seat: &mut HeapSeat)
    requires seat { Sits heap.now seat.old }
    requires alone { IsAloneIn Idle (view_of seat.old) ⊎ IsAloneIn Marking (view_of seat.old) }
    ensures seat { Sits heap.now seat.new }
    ensures ran { Across Ran seat.old seat.new }
    ensures alone { IsAloneIn Drain (view_of seat.new) }
    ensures events { (p : Phase) → IsAloneIn p (view_of seat.old) → did seat.old seat.new ≡ event (StorePhase Drain) (phase_number p) ∷ event (Reset card_counter) 0 ∷ [] }
    ensures exact { IsAloneIn Idle (view_of seat.old) → IsTrue (state_of seat.new).exact }
{
    heap.store_phase(seat, CyclePhase::Drain);
    heap.reset(seat, CARD_COUNTER);
}

fn drain_round(heap: &Heap, seat: &mut HeapSeat, quota: u32) -> u32
    requires seat { Sits heap.now seat.old }
    requires drains { DrainsInStop (view_of seat.old) }
    ensures seat { Sits heap.now seat.new }
    ensures traced { Across HasTraced seat.old seat.new }
    ensures rescanned { rescanned_in (view_of seat.old) (did seat.old seat.new) ≡ result }
    ensures uses { IsAloneIn Drain (view_of seat.old) → Across UsesUp seat.old seat.new }
    ensures shrinks { IsAloneIn Drain (view_of seat.old) → 0 < quota → Across Shrinks seat.old seat.new }
    ensures worked { Across (DrainsFor quota) seat.old seat.new }
    ensures brings { Across BringsBack seat.old seat.new }
    ensures cleans { Across CleansLast seat.old seat.new }
{
    recycle_deferred(heap, seat);
    trace(heap, seat, quota);
    clean_dirty(heap, seat)
}

fn scan_all_roots(heap: &Heap, seat: &mut HeapSeat)
    requires seat { Sits heap.now seat.old }
    requires drains { DrainsInStop (view_of seat.old) }
    ensures seat { Sits heap.now seat.new }
    ensures traced { Across HasTraced seat.old seat.new }
    ensures rescanned { rescanned_in (view_of seat.old) (did seat.old seat.new) ≡ 0 }
    ensures roots { (section : ℕ) → section < heap.now.shape.sections → Across (SeesToRoots section) seat.old seat.new }
{
    for section in 0..heap.shape().sections {
        scan_roots(heap, seat, section);
    }
}

fn trace_and_look(heap: &Heap, seat: &mut HeapSeat) -> bool
    requires seat { Sits heap.now seat.old }
    requires drains { DrainsInStop (view_of seat.old) }
    ensures seat { Sits heap.now seat.new }
    ensures traced { Across HasTraced seat.old seat.new }
    ensures rescanned { rescanned_in (view_of seat.old) (did seat.old seat.new) ≡ 0 }
    ensures worked { Across (DrainsFor round_quota) seat.old seat.new }
    ensures brings { Across BringsBack seat.old seat.new }
    ensures empty { IsTrue result → IsTrue (some_event (says_all_empty (empty_offset + heap.now.shape.packets)) (did seat.old seat.new)) }
{
    recycle_deferred(heap, seat);
    trace(heap, seat, ROUND);
    sees_all_empty(heap, seat)
}

/// Once all packets are empty nobody has work in hand.
fn trace_to_end<R: Wait>(rt: &R, heap: &Heap, seat: &mut HeapSeat)
    requires seat { Sits heap.now seat.old }
    requires drains { DrainsInStop (view_of seat.old) }
    ensures seat { Sits heap.now seat.new }
    ensures traced { Across HasTraced seat.old seat.new }
    ensures rescanned { rescanned_in (view_of seat.old) (did seat.old seat.new) ≡ 0 }
    ensures worked { Across (DrainsFor round_quota) seat.old seat.new }
    ensures brings { Across BringsAtLast seat.old seat.new }
    ensures empty { IsTrue (some_event (says_all_empty (empty_offset + heap.now.shape.packets)) (did seat.old seat.new)) }
{
    for _ in rt.forever() {
        if trace_and_look(heap, seat) {
            return;
        }
        thread::yield_now();
    }
    unreachable!()
}

pub(crate) fn drain_together<R: Wait>(rt: &R, heap: &Heap, seat: &mut HeapSeat) -> u32
    requires seat { Sits heap.now seat.old }
    requires alone { IsAloneIn Drain (view_of seat.old) }
    ensures seat { Sits heap.now seat.new }
    ensures drains { Across DrainsTogether seat.old seat.new }
    ensures rescanned { rescanned_in (view_of seat.old) (did seat.old seat.new) ≡ result }
{
    open_help(heap, seat);
    let rescanned = clean_dirty_round(heap, seat);
    scan_all_roots(heap, seat);
    trace_to_end(rt, heap, seat);
    close_help(rt, heap, seat);
    rescanned
}

/// Helpers dirty cards and mark cells, so what was noted before help was opened ended with it: the roots, the cards
/// and the count are looked at again. What is read now stays. A look that finds work is followed by another round,
/// which leaves less to drain, or nothing: so this ends.
pub(crate) fn drain_alone(heap: &Heap, seat: &mut HeapSeat) -> u32
    requires seat { Sits heap.now seat.old }
    requires alone { IsAloneIn Drain (view_of seat.old) }
    ensures seat { Sits heap.now seat.new }
    ensures drains { Across DrainsAlone seat.old seat.new }
    ensures rescanned { result ≡ min (rescanned_in (view_of seat.old) (did seat.old seat.new)) most }
{
    heap.reset(seat, BLOCK_COUNTER);
    see_to_roots(heap, seat);
    let mut rescanned: u32 = 0;
    'rounds: while !is_drained(heap, seat) {
        rescanned = rescanned.saturating_add(drain_round(heap, seat, ROUND));
    }
    rescanned
}

pub(crate) fn begin_sweep(heap: &Heap, seat: &mut HeapSeat)
    requires seat { Sits heap.now seat.old }
    requires drained { DrainedAlone (view_of seat.old) }
    ensures seat { Sits heap.now seat.new }
    ensures moved { Across (IsMove Drain Sweep) seat.old seat.new }
{
    heap.store_phase(seat, CyclePhase::Sweep);
}
