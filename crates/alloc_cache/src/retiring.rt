//! The cells of a cache are published, and the cache is given up.
ghost use Rattle.std.specs.Prelude.{◌≡◌, None};
ghost use Rattle.mark_core.specs.Steps.MutatorSteps.{used_bits as used_bits_of, without_used};
ghost use Rattle.mark_core.specs.declared.kinds.Step.TheVariants.{PublishCells};
ghost use Rattle.gc_table.specs.Seats.{Across, did, Sits, state_of, Took, view_of};
ghost use Rattle.alloc_cache.specs.Caching.{IsCached};
ghost use Rattle.alloc_cache.specs.Retiring.{publishing_steps, retiring_steps};
ghost use Rattle.gc_table.specs.Log.{steps_of};
ghost use Rattle.gc_table.specs.Running.{Ran};

use crate::cache::Cache;
use gc_table::{Heap, HeapSeat};
use mark_core::{FREE, used_bits};

/// Publishes the cells made from this cache, by one step. From then on tracers scan them, and stores in them go through
/// the barrier. The seat owes no card.
pub fn publish(heap: &Heap, seat: &mut HeapSeat, cache: &mut Cache)
    requires seat { Sits heap.now seat.old }
    requires cache { IsCached cache.old (view_of seat.old) }
    requires owes { (state_of seat.old).owes ≡ None }
    ensures seat { Sits heap.now seat.new }
    ensures ran { Across Ran seat.old seat.new }
    ensures took { Across (Took PublishCells) seat.old seat.new }
    ensures cache { (cache.new ≡ cache.old) × IsCached cache.new (view_of seat.new) }
    ensures state { state_of seat.new ≡ record (state_of seat.old) { cache = without_used (state_of seat.old).cache } }
    ensures own { (view_of seat.new).own ≡ (view_of seat.old).own }
{
    heap.publish_cells(seat);
}

fn publish_used(heap: &Heap, seat: &mut HeapSeat, cache: &Cache)
    requires seat { Sits heap.now seat.old }
    requires cache { IsCached cache.now (view_of seat.old) }
    requires owes { (state_of seat.old).owes ≡ None }
    ensures seat { Sits heap.now seat.new }
    ensures ran { Across Ran seat.old seat.new }
    ensures cache { IsCached cache.now (view_of seat.new) × (used_bits_of (state_of seat.new).cache ≡ 0) }
    ensures state { state_of seat.new ≡ record (state_of seat.old) { cache = (state_of seat.new).cache } }
    ensures own { (view_of seat.new).own ≡ (view_of seat.old).own }
    ensures steps { steps_of (did seat.old seat.new) ≡ publishing_steps (used_bits_of (state_of seat.old).cache) }
{
    if used_bits(seat.state().cache) != 0 {
        heap.publish_cells(seat);
    }
}

/// Publishes what was made, counts the cells left as free, and releases the block. The seat owes no card.
pub fn retire(heap: &Heap, seat: &mut HeapSeat, cache: Cache)
    requires seat { Sits heap.now seat.old }
    requires cache { IsCached cache (view_of seat.old) }
    requires owes { (state_of seat.old).owes ≡ None }
    ensures seat { Sits heap.now seat.new }
    ensures ran { Across Ran seat.old seat.new }
    ensures state { state_of seat.new ≡ record (state_of seat.old) { cache = None } }
    ensures own { (view_of seat.new).own ≡ (view_of seat.old).own }
    ensures steps { steps_of (did seat.old seat.new) ≡ retiring_steps cache (used_bits_of (state_of seat.old).cache) }
{
    publish_used(heap, seat, &cache);
    let Cache { block: _, cells } = cache;
    heap.add_stat(seat, FREE, cells.count_ones(), false);
    heap.release_block(seat);
}
