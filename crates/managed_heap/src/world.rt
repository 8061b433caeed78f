//! A heap that threads share.
ghost use Rattle.std.specs.Arc.{arc_value};
ghost use Rattle.std.specs.Prelude.{◌≤◌, IsTrue, is_some, vec_capacity};
ghost use Rattle.gc_table.specs.Seats.{state_of};
ghost use Rattle.managed_heap.specs.Gathering.{IsFirstSeat};
ghost use Rattle.seat_turns.specs.Standing.{RestsOutside};

use crate::mutator::Mutator;
use crate::sizes::Sizes;
use gc_table::{Heap, HeapSeat};
use seat_turns::Tracer;
use std::alloc::Global;
use std::sync::Arc;

/// A heap that threads share, with those of its mutators and tracers that nobody has taken.
#[derive(Drop)]
pub struct World {
    pub(crate) heap: Arc<Heap, Global>,
    /// The seat of section 0, which has nothing to do with objects: it reads and tells.
    pub(crate) zero: HeapSeat,
    /// Those that nobody has taken, with room for all.
    pub(crate) mutators: Vec<Mutator>,
    pub(crate) tracers: Vec<Tracer>,
    pub(crate) sizes: Sizes,
    ghost rests: { RestsOutside (arc_value heap) zero },
    ghost section: { IsTrue (is_some (state_of zero).section) },
    ghost first: { IsFirstSeat (arc_value heap) sizes.tracers zero },
    ghost room: { (sizes.mutators ≤ vec_capacity mutators) × (sizes.tracers ≤ vec_capacity tracers) },
}
