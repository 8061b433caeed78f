//! A mutator in the hand of one thread.
ghost use Rattle.std.specs.Arc.{arc_value};
ghost use Rattle.std.specs.Prelude.{◌≡◌, IsFalse};
ghost use Rattle.seat_turns.specs.Standing.{IsAtTurn, IsMutatorOutside};
ghost use Rattle.managed_heap.specs.declared.mutator.Place.TheVariants as places;

use gc_table::{Heap, HeapSeat};
use std::alloc::Global;
use std::sync::Arc;

/// Where a mutator stands.
#[derive(Clone, Copy, Debug, PartialEq, Eq, Drop)]
pub enum Place {
    /// A stop doesn't wait for it.
    Outside,
    /// It is at its turn.
    Inside,
}

/// A mutator, for one thread at a time. It begins outside the world. It has to leave, or to be given back, before
/// it is dropped: a stop waits for each that is inside.
#[derive(Drop)]
pub struct Mutator {
    pub(crate) heap: Arc<Heap, Global>,
    pub(crate) seat: HeapSeat,
    pub(crate) place: Place,
    pub(crate) name: u32,
    /// Whether it collects only in stops.
    pub(crate) in_stops: bool,
    ghost owned: { IsFalse (arc_value heap).shape.sharing },
    ghost outside: { place ≡ places.Outside → IsMutatorOutside (arc_value heap) seat },
    ghost inside: { place ≡ places.Inside → IsAtTurn (arc_value heap) seat },
}
