//! A collection in steps whose stop is open to helpers.
ghost use Rattle.std.specs.Prelude.{ℕ, ◌==◌, ◌≡◌, ◌≢◌, ◌≤◌, ◌+◌, ◌-◌, ◌*◌, ◌⊎◌, [], ◌∷◌, min, length, IsTrue, IfSome, IfNone};
ghost use Rattle.std.specs.Bool.{OnFalse, OnTrue};
ghost use Rattle.mark_core.specs.Cards.{card_cells};
ghost use Rattle.mark_core.specs.Layout.{block_count, card_count};
ghost use Rattle.mark_core.specs.Numbers.{block_counter, empty_offset};
ghost use Rattle.mark_core.specs.declared.kinds.Phase.{Phase};
ghost use Rattle.mark_core.specs.declared.kinds.Phase.TheVariants.{Drain, Sweep};
ghost use Rattle.mark_core.specs.declared.kinds.Step.TheVariants.{CloseStep, OpenStep, ReadCount, Reset, SeeHelp};
ghost use Rattle.gc_table.specs.Log.{Only};
ghost use Rattle.gc_table.specs.Seats.{Across, Answered, did, Sits, Took, view_of};
ghost use Rattle.gc_table.specs.declared.view.View.{View};
ghost use Rattle.packet_pools.specs.Counts.{count_of};
ghost use Rattle.tracer.specs.StepBounds.{recycle_steps, trace_steps};
ghost use Rattle.card_clean.specs.Leaving.{rescanned_in};
ghost use Rattle.card_clean.specs.StepBounds.{clean_some_steps};
ghost use Rattle.sweeper.specs.Freeing.{block_floor, freed_in};
ghost use Rattle.gc_cycle.specs.Courses.{TakesCourse};
ghost use Rattle.gc_cycle.specs.Events.{never};
ghost use Rattle.gc_cycle.specs.Finishing.{IsAloneIn, IsOpenPart, IsPart, most as greatest};
ghost use Rattle.gc_cycle.specs.Pieces.{CleansCards};
ghost use Rattle.gc_cycle.specs.RoundParts.{BringsBack, LacksPacket};
ghost use Rattle.gc_cycle.specs.SharedSteps.{IsClosing, IsShared};
ghost use Rattle.gc_cycle.specs.Sorts.{clears, draws_block, pops};
ghost use Rattle.gc_cycle.specs.Statistics.{leaves_numbers};
ghost use Rattle.gc_cycle.specs.Stepping.{IsAtRoots, IsExactSince, IsOwner, Keeps};
ghost use Rattle.gc_cycle.specs.Turns.{DrainsFor};

use crate::card_steps::{CleanStep, clean_piece, trace_some};
use crate::stepping::reset_blocks;
use crate::sweep_steps::{SweepStep, sweep_some};
use crate::tracing::sees_all_empty;
use gc_table::{Heap, HeapSeat};
use stop_world::{finds_alone, open_help, shut_help};

/// Opens the stop to helpers, in a drain or a sweep. What was noted of words ends with it, but for the phase.
pub fn open_stop(heap: &Heap, seat: &mut HeapSeat)
    requires seat { Sits heap.now seat.old }
    requires owner { IsOwner (view_of seat.old) }
    requires alone { IsAloneIn Drain (view_of seat.old) ⊎ IsAloneIn Sweep (view_of seat.old) }
    ensures seat { Sits heap.now seat.new }
    ensures step { Across (Took OpenStep) seat.old seat.new }
    ensures shared { (p : Phase) → IsAloneIn p (view_of seat.old) → IsShared p (view_of seat.new) }
    ensures exact { (u : View) → IsExactSince u (view_of seat.old) → IsExactSince u (view_of seat.new) }
    ensures keeps { Across Keeps seat.old seat.new }
{
    open_help(heap, seat);
}

/// Lets no more helpers in. Those that were let in may still work.
pub fn shut_stop(heap: &Heap, seat: &mut HeapSeat)
    requires seat { Sits heap.now seat.old }
    requires shared { (p : Phase) × IsShared p (view_of seat.old) }
    ensures seat { Sits heap.now seat.new }
    ensures step { Across (Took CloseStep) seat.old seat.new }
    ensures closing { (p : Phase) → IsShared p (view_of seat.old) → IsClosing p (view_of seat.new) }
    ensures floor { (n : ℕ) → n ≤ block_floor (view_of seat.old) → n ≤ block_floor (view_of seat.new) }
    ensures exact { (u : View) → IsExactSince u (view_of seat.old) → IsExactSince u (view_of seat.new) }
    ensures keeps { Across Keeps seat.old seat.new }
{
    shut_help(heap, seat);
}

/// Whether all helpers have left, by one look: the seat is alone again.
pub fn finds_helpers_gone(heap: &Heap, seat: &mut HeapSeat) -> bool
    requires seat { Sits heap.now seat.old }
    requires closing { (p : Phase) × IsClosing p (view_of seat.old) }
    ensures seat { Sits heap.now seat.new }
    ensures step { Across (Answered SeeHelp (λ n. result ≡ (n == 0))) seat.old seat.new }
    ensures alone { OnTrue result ((p : Phase) → IsClosing p (view_of seat.old) → IsOwner (view_of seat.new) × IsAloneIn p (view_of seat.new)) }
    ensures closing { OnFalse result ((p : Phase) → IsClosing p (view_of seat.old) → IsClosing p (view_of seat.new)) }
    ensures floor { (n : ℕ) → n ≤ block_floor (view_of seat.old) → n ≤ block_floor (view_of seat.new) }
    ensures exact { (u : View) → IsExactSince u (view_of seat.old) → IsExactSince u (view_of seat.new) }
    ensures keeps { Across Keeps seat.old seat.new }
{
    finds_alone(heap, seat)
}

/// As [`trace_step`], while the stop is open.
///
/// [`trace_step`]: crate::trace_step
pub fn trace_shared(heap: &Heap, seat: &mut HeapSeat, most: u32) -> u32
    requires seat { Sits heap.now seat.old }
    requires drains { IsShared Drain (view_of seat.old) }
    ensures seat { Sits heap.now seat.new }
    ensures part { Across (IsOpenPart Drain) seat.old seat.new }
    ensures drains { IsShared Drain (view_of seat.new) }
    ensures popped { (result ≤ most) × (count_of pops (did seat.old seat.new) ≡ result) }
    ensures brings { Across BringsBack seat.old seat.new }
    ensures worked { Across (DrainsFor most) seat.old seat.new }
    ensures exact { (u : View) → IsExactSince u (view_of seat.old) → IsExactSince u (view_of seat.new) }
    ensures numbers { Across (Only leaves_numbers) seat.old seat.new }
    ensures keeps { Across Keeps seat.old seat.new }
    ensures few { length (did seat.old seat.new) ≤ recycle_steps heap.now.shape + trace_steps result heap.now.shape }
{
    trace_some(heap, seat, most)
}

/// As [`clean_step`], while the stop is open.
///
/// [`clean_step`]: crate::clean_step
pub fn clean_shared(heap: &Heap, seat: &mut HeapSeat, from: u32, most: u32) -> Option<CleanStep>
    requires seat { Sits heap.now seat.old }
    requires drains { IsShared Drain (view_of seat.old) }
    ensures seat { Sits heap.now seat.new }
    ensures part { Across (IsOpenPart Drain) seat.old seat.new }
    ensures drains { IsShared Drain (view_of seat.new) }
    ensures unpopped { IsTrue (never pops (did seat.old seat.new)) }
    ensures cleaned { IfSome result (λ r. (r.passed ≡ min most (card_count heap.now.shape - from)) × Across (CleansCards from r.passed) seat.old seat.new) }
    ensures counts { IfSome result (λ r. (r.cleaned ≤ r.passed) × (count_of clears (did seat.old seat.new) ≡ r.cleaned)) }
    ensures rescanned { IfSome result (λ r. rescanned_in (view_of seat.old) (did seat.old seat.new) ≡ r.rescanned) }
    ensures lacks { IfNone result (Across LacksPacket seat.old seat.new) }
    ensures uncleaned { IfNone result (IsTrue (never clears (did seat.old seat.new))) }
    ensures unscanned { IfNone result (rescanned_in (view_of seat.old) (did seat.old seat.new) ≡ 0) }
    ensures exact { (u : View) → IsExactSince u (view_of seat.old) → IsExactSince u (view_of seat.new) }
    ensures numbers { Across (Only leaves_numbers) seat.old seat.new }
    ensures keeps { Across Keeps seat.old seat.new }
    ensures few { length (did seat.old seat.new) ≤ clean_some_steps most (card_cells * most) heap.now.shape + recycle_steps heap.now.shape }
{
    clean_piece(heap, seat, from, most)
}

/// Whether all packets are empty, by one look: then nobody has work in hand, and help may be shut.
pub fn finds_no_work_shared(heap: &Heap, seat: &mut HeapSeat) -> bool
    requires seat { Sits heap.now seat.old }
    requires drains { IsShared Drain (view_of seat.old) }
    ensures seat { Sits heap.now seat.new }
    ensures looks { Across (Answered ReadCount (λ n. result ≡ (n == empty_offset + heap.now.shape.packets))) seat.old seat.new }
    ensures drains { IsShared Drain (view_of seat.new) }
    ensures exact { (u : View) → IsExactSince u (view_of seat.old) → IsExactSince u (view_of seat.new) }
    ensures keeps { Across Keeps seat.old seat.new }
{
    sees_all_empty(heap, seat)
}

/// As [`sweep_step`], while the stop is open.
///
/// [`sweep_step`]: crate::sweep_step
pub fn sweep_shared(heap: &Heap, seat: &mut HeapSeat, most: u32) -> SweepStep
    requires seat { Sits heap.now seat.old }
    requires sweeps { IsShared Sweep (view_of seat.old) }
    ensures seat { Sits heap.now seat.new }
    ensures part { Across (IsOpenPart Sweep) seat.old seat.new }
    ensures sweeps { IsShared Sweep (view_of seat.new) }
    ensures swept { result.stretches ≢ most → block_count heap.now.shape ≤ block_floor (view_of seat.new) }
    ensures stretches { (result.stretches ≤ most) × (count_of (draws_block (block_count heap.now.shape)) (did seat.old seat.new) ≡ result.stretches) }
    ensures freed { result.freed ≡ min (freed_in (view_of seat.old) (did seat.old seat.new)) greatest }
    ensures exact { (u : View) → IsExactSince u (view_of seat.old) → IsExactSince u (view_of seat.new) }
    ensures numbers { Across (Only leaves_numbers) seat.old seat.new }
    ensures keeps { Across Keeps seat.old seat.new }
    ensures few { length (did seat.old seat.new) ≤ most * (2 + 4 * heap.now.shape.stretch) }
{
    sweep_some(heap, seat, most)
}

/// Once it is alone again in the drain it sees to the roots from the first one on: what it had noted of them ended as it
/// opened the stop.
pub fn return_to_roots(heap: &Heap, seat: &mut HeapSeat)
    requires seat { Sits heap.now seat.old }
    requires owner { IsOwner (view_of seat.old) }
    requires alone { IsAloneIn Drain (view_of seat.old) }
    ensures seat { Sits heap.now seat.new }
    ensures part { Across (IsPart Drain) seat.old seat.new }
    ensures roots { IsAtRoots (view_of seat.new) }
    ensures course { Across (TakesCourse [] (Reset block_counter ∷ [])) seat.old seat.new }
    ensures exact { (u : View) → IsExactSince u (view_of seat.old) → IsExactSince u (view_of seat.new) }
    ensures keeps { Across Keeps seat.old seat.new }
    ensures few { length (did seat.old seat.new) ≤ 1 }
{
    reset_blocks(heap, seat);
}
