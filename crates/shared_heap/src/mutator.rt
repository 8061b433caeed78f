//! A mutator of a shared world in the hand of one thread.
ghost use Rattle.std.specs.Arc.{arc_value};
ghost use Rattle.std.specs.Prelude.{◌≡◌, IsTrue};
ghost use Rattle.seat_turns.specs.Standing.{HoldsTurn, IsMutatorOutside};
ghost use Rattle.shared_heap.specs.declared.mutator.Place.TheVariants as places;

use gc_table::{Heap, HeapSeat};
use std::alloc::Global;
use std::sync::Arc;

/// Where a mutator stands.
#[derive(Clone, Copy, Debug, PartialEq, Eq, Drop)]
pub enum Place {
    /// A stop doesn't wait for it.
    Outside,
    /// It is at its turn.
    Inside,
}

/// A mutator, for one thread at a time, with 32 variables, 0 to 31, which are its roots. It begins outside the world.
/// It has to leave, or to be given back, before it is dropped: a stop waits for each that is inside.
#[derive(Drop)]
pub struct SharedMutator {
    pub(crate) heap: Arc<Heap, Global>,
    pub(crate) seat: HeapSeat,
    pub(crate) place: Place,
    pub(crate) name: u32,
    ghost shared: { IsTrue (arc_value heap).shape.sharing },
    ghost outside: { place ≡ places.Outside → IsMutatorOutside (arc_value heap) seat },
    ghost inside: { place ≡ places.Inside → HoldsTurn (arc_value heap) seat },
}
