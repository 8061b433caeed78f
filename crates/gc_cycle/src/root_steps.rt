//! The roots are seen to in pieces.
ghost use Rattle.std.specs.Prelude.{◌≡◌, ◌≢◌, ◌≤◌, ◌+◌, ◌-◌, min, Some, IsTrue, IfSome, IfNone, length};
ghost use Rattle.std.specs.List.{range_with_len};
ghost use Rattle.mark_core.specs.Layout.{root_count};
ghost use Rattle.mark_core.specs.declared.kinds.Phase.TheVariants.{Drain};
ghost use Rattle.gc_table.specs.Log.{Only};
ghost use Rattle.gc_table.specs.Seats.{Across, did, Sits, view_of};
ghost use Rattle.gc_table.specs.declared.view.View.{View};
ghost use Rattle.packet_pools.specs.Fields.{picked};
ghost use Rattle.tracer.specs.StepBounds.{recycle_steps};
ghost use Rattle.card_clean.specs.Drained.{roots_read, sees_roots};
ghost use Rattle.card_clean.specs.StepBounds.{see_to_steps};
ghost use Rattle.gc_cycle.specs.Events.{never};
ghost use Rattle.gc_cycle.specs.Finishing.{IsPart};
ghost use Rattle.gc_cycle.specs.Sorts.{pops};
ghost use Rattle.gc_cycle.specs.Statistics.{leaves_numbers};
ghost use Rattle.gc_cycle.specs.RoundParts.{LacksPacket};
ghost use Rattle.gc_cycle.specs.Pieces.{SeesRootsFrom};
ghost use Rattle.gc_cycle.specs.Stepping.{Drains, IsExactSince, Keeps};

use crate::pieces::at_most;
use crate::roots::sees_to_some;
use card_clean::count_roots;
use gc_table::{Heap, HeapSeat};

/// Marks what at most `most` roots from `from` on refer to, and answers how many: fewer only if none is left. None:
/// no packet could be had; the deferred ones are back, and it is to be called again.
///
/// The roots are the variables of all sections, and behind them their slots.
pub fn root_piece(heap: &Heap, seat: &mut HeapSeat, from: u32, most: u32) -> Option<u32>
    requires seat { Sits heap.now seat.old }
    requires roots { SeesRootsFrom from (view_of seat.old) }
    ensures seat { Sits heap.now seat.new }
    ensures part { Across (IsPart Drain) seat.old seat.new }
    ensures unpopped { IsTrue (never pops (did seat.old seat.new)) }
    ensures some { IfSome result (λ n. SeesRootsFrom (from + n) (view_of seat.new) × (n ≡ min most (root_count heap.now.shape - from))) }
    ensures only { IfSome result (λ n. Across (Only sees_roots) seat.old seat.new) }
    ensures reads { IfSome result (λ n. picked (roots_read heap.now.shape) (did seat.old seat.new) ≡ range_with_len from n) }
    ensures rooted { IfSome result (λ n. n ≢ most → Drains (view_of seat.new)) }
    ensures not_yet { IfNone result (SeesRootsFrom from (view_of seat.new) × Across LacksPacket seat.old seat.new) }
    ensures exact { (u : View) → IsExactSince u (view_of seat.old) → IsExactSince u (view_of seat.new) }
    ensures numbers { Across (Only leaves_numbers) seat.old seat.new }
    ensures keeps { Across Keeps seat.old seat.new }
    ensures few { length (did seat.old seat.new) ≤ see_to_steps most heap.now.shape + recycle_steps heap.now.shape }
{
    let number = at_most(most, from, count_roots(heap, seat));
    if number == 0 {
        return Some(0);
    }
    if sees_to_some(heap, seat, from, from + number) {
        return Some(number);
    }
    None
}
