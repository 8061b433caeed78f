//! Where the object of a variable lies.
ghost use Rattle.std.specs.Prelude.{ℕ, ◌≡◌, ◌<◌, IfNone, IfSome, Some};
ghost use Rattle.mark_core.specs.Numbers.{section_variables};
ghost use Rattle.plain_heap.specs.PlainHeap.{variable};
ghost use Rattle.plain_heap.specs.declared.object.Ref.TheVariants as refs;
ghost use Rattle.gc_table.specs.Seats.{Sits, view_of};
ghost use Rattle.mutator_ops.specs.Placing.{place_of};
ghost use Rattle.mutator_ops.specs.Ready.{IsReady};

use crate::variables::word_of;
use gc_table::{Heap, HeapSeat};
use mark_core::Cell;

/// The cell of variable v's object; None if v is nil. An object of the seat's own section was made there, and stays
/// there.
pub fn cell_of_variable(_heap: &Heap, seat: &HeapSeat, v: u8) -> Option<Cell>
    requires seat { Sits _heap.now seat.now × IsReady (view_of seat.now) }
    requires range { v < section_variables }
    ensures some { IfSome result (λ c. (n : ℕ) → variable (view_of seat.now).own.meaning.heap v ≡ refs.Own n → place_of (view_of seat.now) n ≡ Some c) }
    ensures none { IfNone result (variable (view_of seat.now).own.meaning.heap v ≡ refs.Nil) }
{
    let word = word_of(seat, v);
    if word == 0 {
        return None;
    }
    Some(Cell::make(word - 1))
}
