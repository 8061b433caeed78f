//! Numbers of a world are read.
ghost use Rattle.std.specs.Prelude.{◌≡◌};
ghost use Rattle.gc_table.specs.Log.{Only};
ghost use Rattle.gc_table.specs.Running.{Ran};
ghost use Rattle.gc_table.specs.Seats.{Across, state_of};
ghost use Rattle.seat_turns.specs.Sharing.{spares_heap};
ghost use Rattle.seat_turns.specs.Standing.{RestsOutside};
ghost use Rattle.managed_heap.specs.Numbers.{ReadsStatistics};

use gc_table::{Heap, HeapSeat};
use mark_core::{FREE, LAST};

/// Numbers of a world, each as it was read.
#[derive(Clone, Copy, Debug, PartialEq, Eq, Drop)]
pub struct Statistics {
    /// How many cells there are.
    pub cells: u32,
    /// How many cells are free in blocks that no mutator has claimed.
    pub free: u64,
    /// How many cells the last cycle marked.
    pub marked: u64,
}

/// Reads the numbers of the heap, by one step each.
pub fn read_statistics(heap: &Heap, seat: &mut HeapSeat) -> Statistics
    requires rests { RestsOutside heap.now seat.old }
    ensures rests { RestsOutside heap.now seat.new }
    ensures read { Across (ReadsStatistics result heap.now) seat.old seat.new }
    ensures ran { Across Ran seat.old seat.new }
    ensures spares { Across (Only spares_heap) seat.old seat.new }
    ensures section { (state_of seat.new).section ≡ (state_of seat.old).section }
{
    let free = heap.read_stat(seat, FREE);
    let marked = heap.read_stat(seat, LAST);
    Statistics {
        cells: heap.shape().cells,
        free,
        marked,
    }
}
