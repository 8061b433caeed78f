//! What mutators and steppers are made of, and come apart into.
ghost use Rattle.std.specs.Arc.{arc_value};
ghost use Rattle.seat_turns.specs.Standing.{IsMutatorOutside};

use gc_table::{Heap, HeapSeat};
use std::alloc::Global;
use std::sync::Arc;

/// A mutator's seat, which is outside the world.
#[derive(Drop)]
pub struct RestingSeat {
    /// The world's heap.
    pub heap: Arc<Heap, Global>,
    /// The seat of its section.
    pub seat: HeapSeat,
    /// The name of the world that lends it.
    pub name: u32,
    /// Whether a mutator made of it collects only in stops.
    pub in_stops: bool,
    ghost outside: { IsMutatorOutside (arc_value heap) seat },
}
