//! The end of a cycle in pieces.
ghost use Rattle.std.specs.Prelude.{◌≡◌, ◌≢◌, ◌≤◌, ◌+◌, ◌-◌, [], min, length, IsTrue};
ghost use Rattle.mark_core.specs.Layout.{block_count};
ghost use Rattle.mark_core.specs.declared.kinds.Phase.TheVariants.{Idle, Sweep};
ghost use Rattle.gc_table.specs.Log.{Only, events, steps_of};
ghost use Rattle.gc_table.specs.Running.{Ran};
ghost use Rattle.gc_table.specs.Seats.{Across, did, Sits, view_of};
ghost use Rattle.gc_table.specs.declared.view.View.{View};
ghost use Rattle.gc_cycle.specs.Courses.{TakesCourse, sets_numbers};
ghost use Rattle.gc_cycle.specs.Cycles.{collects_exactly};
ghost use Rattle.gc_cycle.specs.Finishing.{IsMove, IsPart};
ghost use Rattle.gc_cycle.specs.Moments.{begins};
ghost use Rattle.gc_cycle.specs.Settling.{alloc_reads};
ghost use Rattle.gc_cycle.specs.Statistics.{leaves_numbers};
ghost use Rattle.gc_cycle.specs.Pieces.{CountsFrom, HasCollectedSince, HasCounted};
ghost use Rattle.gc_cycle.specs.Stepping.{EndsCollection, HasSwept, IsExactSince, Keeps, RunsAgain};

use crate::counts::Counts;
use crate::pieces::at_most;
use crate::settling::{count_between, set_numbers};
use crate::sweeping::end_sweep;
use gc_table::{Heap, HeapSeat};
use mark_core::BLOCK_CELLS;
use stop_world::resume;

/// What a step of the count did.
#[derive(Clone, Copy, Debug, PartialEq, Eq, Drop)]
pub struct CountStep {
    /// How many blocks it counted: fewer than asked for only if none is left.
    pub blocks: u32,
    /// How many cells are in use in all blocks counted so far.
    pub counted: u32,
}

/// Ends the sweep, and begins to count.
pub fn start_count(heap: &Heap, seat: &mut HeapSeat)
    requires seat { Sits heap.now seat.old }
    requires swept { HasSwept (view_of seat.old) }
    ensures seat { Sits heap.now seat.new }
    ensures moved { Across (IsMove Sweep Idle) seat.old seat.new }
    ensures counts { CountsFrom 0 0 (view_of seat.new) }
    ensures collects { (u : View) → IsExactSince u (view_of seat.old) → HasCollectedSince u (view_of seat.new) × IsTrue (view_of seat.new).state.exact }
    ensures keeps { Across Keeps seat.old seat.new }
{
    end_sweep(heap, seat);
}

/// Counts the cells in use of at most `most` blocks from `from` on: fewer only if none is left.
pub fn count_step(heap: &Heap, seat: &mut HeapSeat, from: u32, counted: u32, most: u32) -> CountStep
    requires seat { Sits heap.now seat.old }
    requires counts { CountsFrom from counted (view_of seat.old) }
    ensures seat { Sits heap.now seat.new }
    ensures part { Across (IsPart Idle) seat.old seat.new }
    ensures blocks { result.blocks ≡ min most (block_count heap.now.shape - from) }
    ensures counts { CountsFrom (from + result.blocks) result.counted (view_of seat.new) }
    ensures counted { result.blocks ≢ most → HasCounted result.counted (view_of seat.new) }
    ensures reads { steps_of (did seat.old seat.new) ≡ alloc_reads from result.blocks }
    ensures few { length (did seat.old seat.new) ≤ most }
    ensures collects { (u : View) → HasCollectedSince u (view_of seat.old) → HasCollectedSince u (view_of seat.new) }
    ensures numbers { Across (Only leaves_numbers) seat.old seat.new }
    ensures keeps { Across Keeps seat.old seat.new }
{
    let blocks = at_most(most, from, heap.shape().cells / BLOCK_CELLS);
    let counted = count_between(heap, seat, from, from + blocks, counted);
    CountStep { blocks, counted }
}

/// Sets the numbers for the next cycle and lets the world go on: the seat runs again. `rescanned`: how many objects
/// it scanned again in all, and `freed`: how many cells it freed.
pub fn finish_count(
    heap: &Heap,
    seat: &mut HeapSeat,
    counted: u32,
    rescanned: u32,
    freed: u32,
) -> Counts
    requires seat { Sits heap.now seat.old }
    requires counted { HasCounted counted (view_of seat.old) }
    ensures seat { Sits heap.now seat.new }
    ensures ran { Across Ran seat.old seat.new }
    ensures runs { RunsAgain (view_of seat.new) }
    ensures ends { Across (EndsCollection result) seat.old seat.new }
    ensures counts { result ≡ record { marked = counted; freed = freed; rescanned = rescanned } }
    ensures collects { (u : View) → HasCollectedSince u (view_of seat.old) → IsTrue (collects_exactly heap.now.shape (begins u) (events u (view_of seat.new))) }
    ensures course { Across (TakesCourse [] (sets_numbers heap.now.shape result)) seat.old seat.new }
    ensures few { length (did seat.old seat.new) ≤ 9 }
    ensures keeps { Across Keeps seat.old seat.new }
{
    let counts = set_numbers(heap, seat, counted, rescanned, freed);
    resume(heap, seat);
    counts
}
