//! The pass of a cycle over all cards, which its seats share.
ghost use Rattle.std.specs.Prelude.{◌≡◌, ◌<◌, ◌≤◌, ◌+◌, false, IsTrue, IfSome, length};
ghost use Rattle.mark_core.specs.Layout.{card_count};
ghost use Rattle.gc_table.specs.Log.{Only};
ghost use Rattle.gc_table.specs.Running.{Ran};
ghost use Rattle.gc_table.specs.Seats.{Across, did, state_of, view_of};
ghost use Rattle.packet_pools.specs.Tracing.{IsTracer};
ghost use Rattle.card_clean.specs.Passing.{DrawsCard, card_floor, draws_card, keeps_floor};

use gc_table::{Heap, HeapSeat};
use mark_core::{CARD_CELLS, CARD_COUNTER};

/// The next card of this cycle's pass, or None if the counter was seen at its end. The seat may trace.
///
/// To a seat that helps, or that stopped the world, the numbers rise, so a loop that ends with None ends.
pub fn next_card(heap: &Heap, seat: &mut HeapSeat) -> Option<u32>
    requires seat { IsTracer heap.now seat.old }
    ensures seat { IsTracer heap.now seat.new }
    ensures ran { Across Ran seat.old seat.new }
    ensures only { Across (Only draws_card) seat.old seat.new }
    ensures draws { Across (DrawsCard result) seat.old seat.new }
    ensures state { state_of seat.new ≡ record (state_of seat.old) { below_card = false } }
    ensures there { IfSome result (λ card. card < card_count heap.now.shape) }
    ensures rises { IfSome result (λ card. IsTrue (keeps_floor (state_of seat.old)) → (card_floor (view_of seat.old) ≤ card) × (card_floor (view_of seat.new) ≡ card + 1)) }
    ensures few { length (did seat.old seat.new) ≤ 2 }
{
    let end = u64::from(heap.shape().cells / CARD_CELLS);
    if heap.read_stat(seat, CARD_COUNTER) >= end {
        return None;
    }
    let number = heap.next_of_cards(seat);
    if number < end {
        Some(number as u32)
    } else {
        None
    }
}
