//! The sweep in pieces.
ghost use Rattle.std.specs.Prelude.{◌≡◌, ◌≢◌, ◌≤◌, min, ◌+◌, ◌*◌, length, None, IsTrue};
ghost use Rattle.mark_core.specs.Layout.{block_count};
ghost use Rattle.mark_core.specs.declared.kinds.Phase.TheVariants.{Drain, Sweep};
ghost use Rattle.gc_table.specs.Log.{Only};
ghost use Rattle.gc_table.specs.Seats.{Across, did, Sits, state_of, view_of};
ghost use Rattle.gc_table.specs.declared.view.View.{View};
ghost use Rattle.packet_pools.specs.Counts.{count_of};
ghost use Rattle.packet_pools.specs.Seeking.{some_event};
ghost use Rattle.sweeper.specs.Freeing.{block_floor, freed_in};
ghost use Rattle.gc_cycle.specs.Finishing.{IsMove, IsPart, most as greatest};
ghost use Rattle.gc_cycle.specs.SharedSteps.{MaySweep, SweepsSome};
ghost use Rattle.gc_cycle.specs.Sorts.{draws_block, sees_last_block};
ghost use Rattle.gc_cycle.specs.Statistics.{leaves_numbers};
ghost use Rattle.gc_cycle.specs.Stepping.{HasMarkedAll, HasSwept, IsExactSince, Keeps, IsAtSweep};

use crate::blocks::sweep_next;
use crate::draining::begin_sweep;
use gc_table::{Heap, HeapSeat};

/// What a step of the sweep did.
#[derive(Clone, Copy, Debug, PartialEq, Eq, Drop)]
pub struct SweepStep {
    /// How many stretches it swept: fewer than asked for only if no block is left.
    pub stretches: u32,
    /// How many cells it freed.
    pub freed: u32,
}

/// Leaves the drain, once all is marked.
pub fn start_sweep(heap: &Heap, seat: &mut HeapSeat)
    requires seat { Sits heap.now seat.old }
    requires drained { HasMarkedAll (view_of seat.old) }
    ensures seat { Sits heap.now seat.new }
    ensures moved { Across (IsMove Drain Sweep) seat.old seat.new }
    ensures sweeps { IsAtSweep (view_of seat.new) }
    ensures exact { (u : View) → IsExactSince u (view_of seat.old) → IsExactSince u (view_of seat.new) }
    ensures keeps { Across Keeps seat.old seat.new }
{
    begin_sweep(heap, seat);
}

/// Sweeps at most `most` stretches of blocks, by the seat that stopped the world or by a helper: fewer only if no block
/// is left.
pub(crate) fn sweep_some(heap: &Heap, seat: &mut HeapSeat, most: u32) -> SweepStep
    requires seat { Sits heap.now seat.old }
    requires sweeps { MaySweep (view_of seat.old) }
    requires block { (state_of seat.old).block ≡ None }
    ensures seat { Sits heap.now seat.new }
    ensures sweeps { Across SweepsSome seat.old seat.new }
    ensures end { result.stretches ≢ most → IsTrue (some_event (sees_last_block (block_count heap.now.shape)) (did seat.old seat.new)) × (block_count heap.now.shape ≤ block_floor (view_of seat.new)) }
    ensures stretches { (result.stretches ≤ most) × (count_of (draws_block (block_count heap.now.shape)) (did seat.old seat.new) ≡ result.stretches) }
    ensures freed { result.freed ≡ min (freed_in (view_of seat.old) (did seat.old seat.new)) greatest }
    ensures few { length (did seat.old seat.new) ≤ most * (2 + 4 * heap.now.shape.stretch) }
{
    let mut freed: u32 = 0;
    for stretches in 0..most {
        let Some(more) = sweep_next(heap, seat) else {
            return SweepStep { stretches, freed };
        };
        freed = freed.saturating_add(more);
    }
    SweepStep {
        stretches: most,
        freed,
    }
}

/// Sweeps at most `most` stretches of blocks: fewer only if no block is left.
pub fn sweep_step(heap: &Heap, seat: &mut HeapSeat, most: u32) -> SweepStep
    requires seat { Sits heap.now seat.old }
    requires sweeps { IsAtSweep (view_of seat.old) }
    ensures seat { Sits heap.now seat.new }
    ensures part { Across (IsPart Sweep) seat.old seat.new }
    ensures sweeps { IsAtSweep (view_of seat.new) }
    ensures swept { result.stretches ≢ most → HasSwept (view_of seat.new) }
    ensures stretches { (result.stretches ≤ most) × (count_of (draws_block (block_count heap.now.shape)) (did seat.old seat.new) ≡ result.stretches) }
    ensures freed { result.freed ≡ min (freed_in (view_of seat.old) (did seat.old seat.new)) greatest }
    ensures exact { (u : View) → IsExactSince u (view_of seat.old) → IsExactSince u (view_of seat.new) }
    ensures numbers { Across (Only leaves_numbers) seat.old seat.new }
    ensures keeps { Across Keeps seat.old seat.new }
    ensures few { length (did seat.old seat.new) ≤ most * (2 + 4 * heap.now.shape.stretch) }
{
    sweep_some(heap, seat, most)
}
