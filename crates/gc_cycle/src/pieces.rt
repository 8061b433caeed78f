//! How much of a pass is done at a time.
ghost use Rattle.std.specs.Prelude.{◌≡◌, ◌-◌, min};
ghost use Rattle.gc_cycle.specs.Pieces.{stretches_in};

use gc_table::Heap;

pub(crate) fn at_most(most: u32, from: u32, all: u32) -> u32
    ensures { result ≡ min most (all - from) }
{
    most.min(all.saturating_sub(from))
}

/// How many stretches have at most `blocks` blocks between them, but at least one.
pub fn stretches_of(heap: &Heap, blocks: u32) -> u32
    ensures { result ≡ stretches_in heap.now.shape blocks }
{
    (blocks / heap.shape().stretch).max(1)
}
