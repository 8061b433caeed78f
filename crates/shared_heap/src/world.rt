//! A heap whose objects threads share.
ghost use Rattle.std.specs.Arc.{arc_value};
ghost use Rattle.std.specs.Prelude.{◌≤◌, vec_capacity};
ghost use Rattle.seat_turns.specs.Standing.{RestsOutside};
ghost use Rattle.shared_heap.specs.Rooting.{HasSeats, IsRootSeat};

use crate::mutator::SharedMutator;
use gc_table::{Heap, HeapSeat};
use managed_heap::Sizes;
use seat_turns::Tracer;
use std::alloc::Global;
use std::sync::Arc;

/// A heap whose objects threads share, with those of its mutators and tracers that nobody has taken.
#[derive(Drop)]
pub struct SharedWorld {
    pub(crate) heap: Arc<Heap, Global>,
    /// The seat of section 0, which has the root in its variable 0. From then on it reads and tells.
    pub(crate) zero: HeapSeat,
    /// Those that nobody has taken, with room for all.
    pub(crate) mutators: Vec<SharedMutator>,
    pub(crate) tracers: Vec<Tracer>,
    pub(crate) sizes: Sizes,
    ghost rests: { RestsOutside (arc_value heap) zero },
    ghost first: { IsRootSeat (arc_value heap) zero },
    ghost opened: { HasSeats (arc_value heap) sizes.tracers zero },
    ghost room: { (sizes.mutators ≤ vec_capacity mutators) × (sizes.tracers ≤ vec_capacity tracers) },
}
