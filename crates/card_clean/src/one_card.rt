//! A card is cleaned with a packet that is taken for it.
ghost use Rattle.std.specs.Prelude.{◌≡◌, ◌<◌, ◌≤◌, ◌⊎◌, [], ◌∷◌, None, IsTrue, IsFalse, IfSome, IfNone, length};
ghost use Rattle.mark_core.specs.Cards.{card_cells};
ghost use Rattle.mark_core.specs.Layout.{card_count};
ghost use Rattle.mark_core.specs.Seats.{work_in_hand};
ghost use Rattle.gc_table.specs.Seats.{Across, did, state_of, view_of};
ghost use Rattle.packet_pools.specs.Hands.{free_slots};
ghost use Rattle.packet_pools.specs.OnlyTraced.{OnlyCleaned};
ghost use Rattle.packet_pools.specs.Seeking.{NoOutput, only_moves, output_pools};
ghost use Rattle.packet_pools.specs.Tracing.{IsTracer};
ghost use Rattle.packet_pools.specs.Counts.{count_of, dirties};
ghost use Rattle.card_clean.specs.Cleaning.{CleansOne};
ghost use Rattle.card_clean.specs.Leaving.{rescanned_in};
ghost use Rattle.packet_pools.specs.StepBounds.{output_steps};
ghost use Rattle.card_clean.specs.StepBounds.{clean_one_steps};

use crate::cleaned::Cleaned;
use crate::cleaning::clean_card;
use gc_table::{Heap, HeapSeat};
use packet_pools::{give, take_output};

/// Cleans a card as [`clean_card`](crate::clean_card) does, with a packet that it takes and gives back. The seat holds
/// at most two packets. The answer is None only if its search for one missed each packet; the card wasn't touched.
pub fn clean_one(heap: &Heap, seat: &mut HeapSeat, card: u32) -> Option<Cleaned>
    requires seat { IsTracer heap.now seat.old }
    requires card { card < card_count heap.now.shape }
    requires free { 2 ≤ free_slots (state_of seat.old).held }
    requires work { IsFalse (work_in_hand heap.now.shape.fields (state_of seat.old)) }
    ensures seat { IsTracer heap.now seat.new }
    ensures only { Across OnlyCleaned seat.old seat.new }
    ensures held { (state_of seat.new).held ≡ (state_of seat.old).held }
    ensures work { IsFalse (work_in_hand heap.now.shape.fields (state_of seat.new)) }
    ensures owes { ((state_of seat.new).owes ≡ (state_of seat.old).owes) ⊎ ((state_of seat.new).owes ≡ None) }
    ensures some { IfSome result (λ r. CleansOne heap.now.shape card r (did seat.old seat.new) × (r.rescanned ≤ card_cells) × (rescanned_in (view_of seat.old) (did seat.old seat.new) ≡ r.rescanned)) }
    ensures clean { IfSome result (λ r. IsFalse (state_of seat.old).active → IsTrue r.redirtied → 2 ≤ count_of dirties (did seat.old seat.new)) }
    ensures none { IfNone result ((state_of seat.new ≡ state_of seat.old) × NoOutput heap.now.shape (did seat.old seat.new) × IsTrue (only_moves output_pools (did seat.old seat.new)) × (rescanned_in (view_of seat.old) (did seat.old seat.new) ≡ 0)) }
    ensures few { IfSome result (λ r. length (did seat.old seat.new) ≤ clean_one_steps r.rescanned heap.now.shape) × IfNone result (length (did seat.old seat.new) ≤ output_steps heap.now.shape) }
{
    let Some(mut out) = take_output(heap, seat) else {
        return None;
    };
    let cleaned = clean_card(heap, seat, card, &mut out);
    give(heap, seat, out, false);
    Some(cleaned)
}
