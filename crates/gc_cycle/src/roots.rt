//! Roots are scanned, and seen to.
ghost use Rattle.std.specs.Prelude.{◌≡◌, ◌<◌, ◌≤◌, ◌+◌, Some, IsTrue, IsFalse, ◌-◌, length, ℕ};
ghost use Rattle.std.specs.List.{range_with_len};
ghost use Rattle.mark_core.specs.Places.{the_next_block};
ghost use Rattle.mark_core.specs.declared.kinds.Phase.TheVariants.{Drain};
ghost use Rattle.mark_core.specs.Layout.{root_count};
ghost use Rattle.gc_table.specs.Log.{Only};
ghost use Rattle.gc_table.specs.Notes.{look};
ghost use Rattle.gc_table.specs.Seats.{Across, did, Sits, state_of, view_of};
ghost use Rattle.mark_core.specs.Numbers.{deferred_pool_number};
ghost use Rattle.packet_pools.specs.Outside.{AreNotedOutside};
ghost use Rattle.packet_pools.specs.Tracing.{traces};
ghost use Rattle.packet_pools.specs.Fields.{picked};
ghost use Rattle.tracer.specs.StepBounds.{recycle_steps, section_steps};
ghost use Rattle.card_clean.specs.Leaving.{rescanned_in};
ghost use Rattle.card_clean.specs.Drained.{IsNotedRoot, RootsBetween, roots_read, sees_roots};
ghost use Rattle.card_clean.specs.StepBounds.{see_to_steps};
ghost use Rattle.gc_cycle.specs.CardLooks.{looks_at_card};
ghost use Rattle.gc_cycle.specs.Drained.{RootedAlone};
ghost use Rattle.gc_cycle.specs.Events.{never};
ghost use Rattle.gc_cycle.specs.Finishing.{IsAloneIn, IsPart};
ghost use Rattle.gc_cycle.specs.Lower.{HasTraced, ScansRoots};
ghost use Rattle.gc_cycle.specs.Sorts.{draws_or_clears, pops, reads_counter, reads_pace, takes_deferred};
ghost use Rattle.gc_cycle.specs.Standing.{is_at_rest};
ghost use Rattle.gc_cycle.specs.Statistics.{leaves_numbers};
ghost use Rattle.gc_cycle.specs.RoundParts.{LacksPacket};

use card_clean::count_roots;
use gc_table::{Heap, HeapSeat};
use tracer::RootScan;

/// Marks what the roots of a section refer to.
pub fn scan_roots(heap: &Heap, seat: &mut HeapSeat, section: u32) -> RootScan
    requires seat { Sits heap.now seat.old × IsTrue (traces (view_of seat.old)) }
    requires rest { IsTrue (is_at_rest heap.now.shape (state_of seat.old)) }
    requires section { section < heap.now.shape.sections }
    ensures seat { Sits heap.now seat.new }
    ensures traced { Across HasTraced seat.old seat.new }
    ensures rescanned { rescanned_in (view_of seat.old) (did seat.old seat.new) ≡ 0 }
    ensures uncleaned { IsTrue (never draws_or_clears (did seat.old seat.new)) }
    ensures unpopped { IsTrue (never pops (did seat.old seat.new)) }
    ensures undeferred { IsTrue (never takes_deferred (did seat.old seat.new)) }
    ensures unread { IsTrue (never reads_pace (did seat.old seat.new)) }
    ensures uncounted { IsTrue (never reads_counter (did seat.old seat.new)) }
    ensures unlooked { IsTrue (never looks_at_card (did seat.old seat.new)) }
    ensures scans { Across (ScansRoots section result) seat.old seat.new }
    ensures few { length (did seat.old seat.new) ≤ section_steps heap.now.shape }
{
    tracer::scan_roots(heap, seat, section)
}

/// Marks what the roots from `from` on and before `end` refer to. If it finds no packet it is false, and brings back
/// what was deferred, which is all that can keep packets from a seat that is alone: the next call is true.
pub(crate) fn sees_to_some(heap: &Heap, seat: &mut HeapSeat, from: u32, end: u32) -> bool
    requires seat { Sits heap.now seat.old }
    requires alone { IsAloneIn Drain (view_of seat.old) × (look the_next_block (view_of seat.old).known ≡ Some 0) }
    requires roots { (from ≤ end) × (end ≤ root_count heap.now.shape) }
    ensures seat { Sits heap.now seat.new }
    ensures part { Across (IsPart Drain) seat.old seat.new }
    ensures next { look the_next_block (view_of seat.new).known ≡ Some 0 }
    ensures numbers { Across (Only leaves_numbers) seat.old seat.new }
    ensures rescanned { rescanned_in (view_of seat.old) (did seat.old seat.new) ≡ 0 }
    ensures unpopped { IsTrue (never pops (did seat.old seat.new)) }
    ensures kept { (i : ℕ) → IsNotedRoot i (view_of seat.old) → IsNotedRoot i (view_of seat.new) }
    ensures noted { IsTrue result → RootsBetween from end (view_of seat.new) }
    ensures only { IsTrue result → Across (Only sees_roots) seat.old seat.new }
    ensures reads { IsTrue result → picked (roots_read heap.now.shape) (did seat.old seat.new) ≡ range_with_len from (end - from) }
    ensures lacks { IsFalse result → Across LacksPacket seat.old seat.new }
    ensures outside { IsFalse result → AreNotedOutside deferred_pool_number (view_of seat.new) }
    ensures pooled { AreNotedOutside deferred_pool_number (view_of seat.old) → IsTrue result }
    ensures few { length (did seat.old seat.new) ≤ see_to_steps (end - from) heap.now.shape + recycle_steps heap.now.shape }
{
    if card_clean::see_to_some(heap, seat, from, end) {
        return true;
    }
    tracer::recycle_deferred(heap, seat);
    false
}

fn sees_to_all_roots(heap: &Heap, seat: &mut HeapSeat) -> bool
    requires seat { Sits heap.now seat.old }
    requires alone { IsAloneIn Drain (view_of seat.old) × (look the_next_block (view_of seat.old).known ≡ Some 0) }
    ensures seat { Sits heap.now seat.new }
    ensures part { Across (IsPart Drain) seat.old seat.new }
    ensures next { look the_next_block (view_of seat.new).known ≡ Some 0 }
    ensures rescanned { rescanned_in (view_of seat.old) (did seat.old seat.new) ≡ 0 }
    ensures rooted { IsTrue result → RootedAlone (view_of seat.new) }
    ensures outside { IsFalse result → AreNotedOutside deferred_pool_number (view_of seat.new) }
    ensures pooled { AreNotedOutside deferred_pool_number (view_of seat.old) → IsTrue result }
{
    let end = count_roots(heap, seat);
    sees_to_some(heap, seat, 0, end)
}

/// Marks what all roots refer to. Each packet is in a pool, so if none is found the deferred ones are brought back, and
/// then one is.
pub(crate) fn see_to_roots(heap: &Heap, seat: &mut HeapSeat)
    requires seat { Sits heap.now seat.old }
    requires alone { IsAloneIn Drain (view_of seat.old) × (look the_next_block (view_of seat.old).known ≡ Some 0) }
    ensures seat { Sits heap.now seat.new × RootedAlone (view_of seat.new) }
    ensures part { Across (IsPart Drain) seat.old seat.new }
    ensures rescanned { rescanned_in (view_of seat.old) (did seat.old seat.new) ≡ 0 }
{
    if sees_to_all_roots(heap, seat) {
        return;
    }
    sees_to_all_roots(heap, seat);
}
