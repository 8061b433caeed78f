//! The cards that payments pass early in a cycle.
//!
//! A mutator stores into the objects that it made last, so their cards are dirty when a cycle begins. Cleaned early,
//! they give the tracers work, and those that aren't dirtied again aren't left to the stop. The payments for a 256th
//! of a heap's cells pass all cards once: which are next follows from the number of free cells, which each claim
//! lowers.
ghost use Rattle.std.specs.Prelude.{◌≡◌, ◌≤◌, ◌+◌, length, Some};
ghost use Rattle.mark_core.specs.declared.kinds.Phase.TheVariants.{Marking};
ghost use Rattle.gc_table.specs.Seats.{Across, did, Sits, state_of, view_of};
ghost use Rattle.gc_cycle.specs.Standing.{Mutates};
ghost use Rattle.cache_refills.specs.Pace.Deferring.{LeavesDeferred};
ghost use Rattle.cache_refills.specs.Pace.Early.{PassesEarly, early_end as end_by};
ghost use Rattle.cache_refills.specs.Pace.Pacing.{card_looks, most_told};
ghost use Rattle.cache_refills.specs.Pace.Payment.{TracesNone};
ghost use Rattle.cache_refills.specs.Pace.StepBounds.{early_steps};

use gc_cycle::clean_between;
use gc_table::{Heap, HeapSeat};
use mark_core::CARD_CELLS;

/// The end of the cards that a payment passes: sixteen for each cell claimed since the cycle began, when the free
/// cells were an eighth of the last cycle's work. It is 0 if the cycle is far on.
pub(crate) fn early_end(late: bool, last: u32, rescanned: u32, free: u32) -> u32
    requires last { last ≤ most_told }
    requires rescanned { rescanned ≤ most_told }
    ensures { result ≡ end_by late last rescanned free }
{
    if late {
        return 0;
    }
    16 * ((last + rescanned) / 8).saturating_sub(free)
}

/// Looks at no card if no packet can be taken.
pub(crate) fn pass_early(heap: &Heap, seat: &mut HeapSeat, from: u32, end: u32)
    requires seat { Sits heap.now seat.old × Mutates (view_of seat.old) }
    requires marking { (state_of seat.old).phase_seen ≡ Some Marking }
    requires most { end ≤ from + card_looks }
    ensures seat { Sits heap.now seat.new }
    ensures passes { PassesEarly heap.now.shape from end (did seat.old seat.new) }
    ensures none { Across (TracesNone 0) seat.old seat.new }
    ensures leaves { Across LeavesDeferred seat.old seat.new }
    ensures few { length (did seat.old seat.new) ≤ early_steps heap.now.shape }
{
    let end = end.min(heap.shape().cells / CARD_CELLS);
    if from < end {
        clean_between(heap, seat, from, end);
    }
}
