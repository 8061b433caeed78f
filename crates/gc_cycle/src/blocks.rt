//! Blocks are swept, through `sweeper`.
ghost use Rattle.std.specs.Prelude.{◌≡◌, ◌<◌, ◌≤◌, ◌+◌, ◌&&◌, ◌⊎◌, None, IsTrue, IsFalse, IfSome, IfNone, ◌*◌, length};
ghost use Rattle.mark_core.specs.Layout.{block_count};
ghost use Rattle.mark_core.specs.Places.{the_phase};
ghost use Rattle.mark_core.specs.Seats.{cleaning_left, is_the, phase_number, saw};
ghost use Rattle.mark_core.specs.declared.kinds.Phase.TheVariants.{Sweep};
ghost use Rattle.gc_table.specs.Log.{Only};
ghost use Rattle.gc_table.specs.Notes.{look};
ghost use Rattle.gc_table.specs.Running.{Ran};
ghost use Rattle.gc_table.specs.Seats.{Across, did, Sits, state_of, view_of};
ghost use Rattle.packet_pools.specs.Counts.{count_of};
ghost use Rattle.packet_pools.specs.Seeking.{some_event};
ghost use Rattle.sweeper.specs.Freeing.{freed_in, block_floor};
ghost use Rattle.gc_cycle.specs.Lower.{sweeps_next};
ghost use Rattle.gc_cycle.specs.Sorts.{draws_block, sees_last_block};

use gc_table::{Heap, HeapSeat};

/// Sweeps the next stretch of blocks: how many cells were freed, or None if no block is left.
pub(crate) fn sweep_next(heap: &Heap, seat: &mut HeapSeat) -> Option<u32>
    requires seat { Sits heap.now seat.old }
    requires sweeps { IsTrue ((state_of seat.old).knows && is_the (look the_phase (view_of seat.old).known) (phase_number Sweep)) ⊎ IsTrue ((state_of seat.old).admitted && saw (state_of seat.old).phase_seen Sweep) }
    requires block { (state_of seat.old).block ≡ None }
    ensures seat { Sits heap.now seat.new }
    ensures ran { Across Ran seat.old seat.new }
    ensures only { Across (Only sweeps_next) seat.old seat.new }
    ensures state { state_of seat.new ≡ record (state_of seat.old) { below_block = (state_of seat.new).below_block; cleaning = (state_of seat.new).cleaning } }
    ensures left { IsFalse (cleaning_left (state_of seat.old).cleaning) → IsFalse (cleaning_left (state_of seat.new).cleaning) }
    ensures some { IfSome result (λ n. (freed_in (view_of seat.old) (did seat.old seat.new) ≡ n) × (block_floor (view_of seat.old) < block_floor (view_of seat.new)) × (block_floor (view_of seat.old) < block_count heap.now.shape) × (count_of (draws_block (block_count heap.now.shape)) (did seat.old seat.new) ≡ 1)) }
    ensures none { IfNone result (IsTrue (some_event (sees_last_block (block_count heap.now.shape)) (did seat.old seat.new)) × (block_count heap.now.shape ≤ block_floor (view_of seat.new)) × (count_of (draws_block (block_count heap.now.shape)) (did seat.old seat.new) ≡ 0)) }
    ensures unfreed { IfNone result (freed_in (view_of seat.old) (did seat.old seat.new) ≡ 0) }
    ensures few { length (did seat.old seat.new) ≤ 2 + 4 * heap.now.shape.stretch }
{
    match sweeper::sweep_next(heap, seat) {
        Some(swept) => Some(swept.freed),
        None => None,
    }
}
