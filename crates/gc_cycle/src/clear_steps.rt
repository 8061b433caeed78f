//! All marks are cleared in pieces, and then the drain begins once more.
ghost use Rattle.std.specs.Prelude.{◌≡◌, ◌≢◌, ◌≤◌, ◌+◌, ◌*◌, [], ◌∷◌, length, IsTrue, IsFalse};
ghost use Rattle.mark_core.specs.Layout.{block_count};
ghost use Rattle.mark_core.specs.Numbers.{block_counter, card_counter};
ghost use Rattle.mark_core.specs.declared.kinds.Phase.TheVariants.{Clear, Drain};
ghost use Rattle.mark_core.specs.declared.kinds.Step.TheVariants.{Reset};
ghost use Rattle.gc_table.specs.Log.{Only};
ghost use Rattle.gc_table.specs.Running.{Ran};
ghost use Rattle.gc_table.specs.Seats.{Across, did, Sits, view_of};
ghost use Rattle.gc_table.specs.declared.view.View.{View};
ghost use Rattle.packet_pools.specs.Counts.{count_of};
ghost use Rattle.sweeper.specs.Freeing.{block_floor};
ghost use Rattle.gc_cycle.specs.Courses.{TakesCourse};
ghost use Rattle.gc_cycle.specs.Finishing.{IsAloneIn, IsMove, IsPart};
ghost use Rattle.gc_cycle.specs.Sorts.{draws_block};
ghost use Rattle.gc_cycle.specs.Statistics.{leaves_numbers};
ghost use Rattle.gc_cycle.specs.Pieces.{HasCleared, IsAtClear};
ghost use Rattle.gc_cycle.specs.Stepping.{HasMarkedAll, IsAtRoots, IsExactSince, Keeps};

use crate::clearing::{begin_again, begin_clear};
use crate::stepping::reset_blocks;
use gc_table::{Heap, HeapSeat};
use sweeper::clear_marks_next;

/// Leaves the drain, once all is marked.
pub fn start_clear(heap: &Heap, seat: &mut HeapSeat)
    requires seat { Sits heap.now seat.old }
    requires drained { HasMarkedAll (view_of seat.old) }
    ensures seat { Sits heap.now seat.new }
    ensures moved { Across (IsMove Drain Clear) seat.old seat.new }
    ensures clears { IsAtClear (view_of seat.new) }
    ensures keeps { Across Keeps seat.old seat.new }
{
    begin_clear(heap, seat);
}

fn clear_next(heap: &Heap, seat: &mut HeapSeat) -> bool
    requires seat { Sits heap.now seat.old }
    requires alone { IsAloneIn Clear (view_of seat.old) }
    ensures seat { Sits heap.now seat.new }
    ensures part { Across (IsPart Clear) seat.old seat.new }
    ensures numbers { Across (Only leaves_numbers) seat.old seat.new }
    ensures some { IsTrue result → (count_of (draws_block (block_count heap.now.shape)) (did seat.old seat.new) ≡ 1) × (length (did seat.old seat.new) ≤ 2 + heap.now.shape.stretch) }
    ensures none { IsFalse result → (count_of (draws_block (block_count heap.now.shape)) (did seat.old seat.new) ≡ 0) × (length (did seat.old seat.new) ≤ 2) × (block_count heap.now.shape ≤ block_floor (view_of seat.new)) }
{
    match clear_marks_next(heap, seat) {
        Some(_) => true,
        None => false,
    }
}

/// Clears the marks of at most `most` stretches: how many it took, fewer only if no block is left.
pub fn clear_step(heap: &Heap, seat: &mut HeapSeat, most: u32) -> u32
    requires seat { Sits heap.now seat.old }
    requires clears { IsAtClear (view_of seat.old) }
    ensures seat { Sits heap.now seat.new }
    ensures part { Across (IsPart Clear) seat.old seat.new }
    ensures clears { IsAtClear (view_of seat.new) }
    ensures cleared { result ≢ most → HasCleared (view_of seat.new) }
    ensures stretches { (result ≤ most) × (count_of (draws_block (block_count heap.now.shape)) (did seat.old seat.new) ≡ result) }
    ensures few { length (did seat.old seat.new) ≤ most * (2 + heap.now.shape.stretch) }
    ensures numbers { Across (Only leaves_numbers) seat.old seat.new }
    ensures keeps { Across Keeps seat.old seat.new }
{
    for stretches in 0..most {
        if !clear_next(heap, seat) {
            return stretches;
        }
    }
    most
}

/// Begins the drain once more, with no cell marked.
pub fn finish_clear(heap: &Heap, seat: &mut HeapSeat)
    requires seat { Sits heap.now seat.old }
    requires cleared { HasCleared (view_of seat.old) }
    ensures seat { Sits heap.now seat.new }
    ensures ran { Across Ran seat.old seat.new }
    ensures roots { IsAtRoots (view_of seat.new) }
    ensures exact { (u : View) → Ran u (view_of seat.old) → IsExactSince u (view_of seat.new) }
    ensures course { Across (TakesCourse (Drain ∷ []) (Reset card_counter ∷ Reset block_counter ∷ [])) seat.old seat.new }
    ensures few { length (did seat.old seat.new) ≤ 3 }
    ensures keeps { Across Keeps seat.old seat.new }
{
    begin_again(heap, seat);
    reset_blocks(heap, seat);
}
