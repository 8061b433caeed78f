//! What a world lends, and the world.
ghost use Rattle.std.specs.Arc.{arc_value};
ghost use Rattle.std.specs.Prelude.{ℕ, ◌≡◌, IfOk};
ghost use Rattle.gc_table.specs.Ends.{HasRoom};
ghost use Rattle.gc_table.specs.Seats.{state_of};
ghost use Rattle.gc_table.specs.declared.seat.Heap.{Heap};
ghost use Rattle.gc_table.specs.declared.seat.HeapSeat.{HeapSeat};
ghost use Rattle.seat_turns.specs.Standing.{RestsOutside};
ghost use Rattle.managed_heap.specs.Gathering.{IsFirstSeat};

use gc_table::{Heap, HeapSeat, Room};
use plain_heap::OutOfMemory;
use seat_turns::Tracer;
use std::alloc::Global;
use std::sync::Arc;

/// A mutator or a tracer of a world.
pub trait Lent: Drop {
    /// The heap.
    ghost heap_in: { Self → Heap };

    /// Its seat.
    ghost seat_in: { Self → HeapSeat };

    /// Whether this seat may be left of it.
    ghost leaves: { Self → HeapSeat → Type 0 };

    /// The number of its seat among those of its heap.
    fn seat_number(&self) -> u32
        ensures number { result ≡ (state_of (seat_in self.now)).number };

    /// Its seat, which leaves the world first.
    fn hand_in(self) -> HeapSeat
        ensures left { leaves self result }
        ensures rests { RestsOutside (heap_in self) result }
        ensures number { (state_of result).number ≡ (state_of (seat_in self)).number };
}

impl Lent for Tracer {
    ghost heap_in = { λ t. arc_value t.heap };

    ghost seat_in = { λ t. t.seat };

    ghost leaves = { λ t s. s ≡ t.seat };

    fn seat_number(&self) -> u32 {
        self.number()
    }

    fn hand_in(self) -> HeapSeat {
        self.into_seat()
    }
}

/// A world of either kind.
pub trait Opened: Drop {
    /// The heap.
    ghost heap_of: { Self → Heap };

    /// The seat of section 0.
    ghost zero_of: { Self → HeapSeat };

    /// How many tracers it has.
    ghost tracers_of: { Self → ℕ };

    /// How many sections its heap has, section 0 among them.
    fn sections(&self) -> u32
        ensures sections { result ≡ (heap_of self.now).shape.sections };

    /// How many tracers it has.
    fn tracer_count(&self) -> u32
        ensures count { result ≡ tracers_of self.now };

    /// Room for the words of its heap.
    fn room(&self, alloc: Global) -> Result<Room, OutOfMemory>
        ensures room { IfOk result (HasRoom (heap_of self.now).shape) };

    /// Its heap and the seat of section 0. What nobody has taken is gone.
    fn into_heap(self) -> (Arc<Heap, Global>, HeapSeat)
        ensures heap { arc_value result.0 ≡ heap_of self }
        ensures zero { result.1 ≡ zero_of self }
        ensures rests { RestsOutside (heap_of self) (zero_of self) }
        ensures first { IsFirstSeat (heap_of self) (tracers_of self) (zero_of self) };
}
