//! A heap that somebody else has still, with the seats of all that left a world.
ghost use Rattle.std.specs.Arc.{arc_value};
ghost use Rattle.std.specs.Prelude.{◌≡◌, ◌<◌, All, IfErr, IfOk, vec_len};
ghost use Rattle.gc_table.specs.Ends.{HasRoom, IsEnd};
ghost use Rattle.seat_turns.specs.Standing.{RestsOutside};
ghost use Rattle.managed_heap.specs.Gathering.{AreInOrder};

use gc_table::{Heap, HeapSeat, Room, Words};
use std::alloc::Global;
use std::sync::Arc;

/// A heap with all its seats, which have left, while somebody else has it still.
#[derive(Drop)]
pub struct Gathered {
    pub(crate) heap: Arc<Heap, Global>,
    pub(crate) seats: Vec<HeapSeat>,
    pub(crate) words: Room,
    ghost some: { 0 < vec_len seats },
    ghost rest: { All (RestsOutside (arc_value heap)) seats.items },
    ghost numbered: { AreInOrder seats.items },
    ghost room: { HasRoom (arc_value heap).shape words },
}

impl Gathered {
    /// Closes it. If somebody else has it still, it is handed back as it was, to be tried again.
    pub fn close(self) -> Result<Words, Gathered>
        ensures closed { IfOk result (λ w. IsEnd (arc_value self.heap).shape self.seats.items w) }
        ensures held { IfErr result (λ kept. (kept.heap ≡ self.heap) × (kept.seats ≡ self.seats)) }
    {
        let Gathered { heap, seats, words } = self;
        match Arc::try_unwrap(heap) {
            Ok(heap) => Ok(heap.close_into(words, seats)),
            Err(heap) => Err(Gathered { heap, seats, words }),
        }
    }
}
