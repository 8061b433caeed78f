//! The length of a packet that was taken.
ghost use Rattle.std.specs.Prelude.{◌≡◌};
ghost use Rattle.mark_core.specs.Bits.{reference_in as reference_in_word};
ghost use Rattle.gc_table.specs.Seats.{Across, Answered, Sits, view_of};
ghost use Rattle.gc_table.specs.Taking.{May};

use gc_table::{Heap, HeapSeat};
use mark_core::{Step, reference_in};

pub fn read_length(heap: &Heap, seat: &mut HeapSeat, p: u32) -> u32
    requires seat { Sits heap.now seat.old }
    requires may { May (Step.ReadLength p) (view_of seat.old) }
    ensures seat { Sits heap.now seat.new }
    ensures view { Across (Answered (Step.ReadLength p) (λ n. result ≡ reference_in_word n)) seat.old seat.new }
{
    reference_in(heap.read_length(seat, p))
}
